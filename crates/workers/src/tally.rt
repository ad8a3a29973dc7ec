ghost use Rattle.std.specs.Prelude.{◌≡◌, ◌+◌};

use hub::Counted;
use std::marker::Model;
use std::sync::ledger::{Ledger, Share};

/// A share of each of the two ledgers, and the numbers of picks and of used segments that these hold.
#[derive(Drop)]
pub struct Tally<P: Ledger, Q: Ledger> {
    pub(crate) picks: Share<P>,
    pub(crate) rans: Share<Q>,
    pub(crate) made: Counted,
}

impl<P: Ledger, Q: Ledger> Model for Tally<P, Q> {
    ghost use Rattle.std.specs.Prelude.{◌≡◌};
    ghost use Rattle.workers.specs.Tallies.{TallyView};

    ghost Value = { TallyView };

    ghost view = { λ t. record { parts = t.picks.parts; turns = t.made.turns; rans = t.made.rans } };

    ghost invariant = { λ t. (t.rans.parts ≡ t.picks.parts) × (t.picks.amount ≡ t.made.turns) × (t.rans.amount ≡ t.made.rans) };
}

impl<P: Ledger, Q: Ledger> Tally<P, Q> {
    /// What it holds.
    pub fn made(&self) -> Counted
        ensures turns { result.turns ≡ self.now.turns }
        ensures rans { result.rans ≡ self.now.rans }
    {
        self.made
    }
}
