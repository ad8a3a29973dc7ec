ghost use Rattle.std.specs.Prelude.{◌≡◌, ◌<◌, ◌^◌, ◌+◌, IfSome};
ghost use Rattle.workers.specs.Tallies.{TallyView, new_tally, all_parts, plus};

use crate::tally::Tally;
use hub::Counted;
use std::marker::Model;
use std::sync::ledger::{Blank, Book, Ledger};

/// How many parts each ledger has: more than can be dealt.
pub const PARTS: u64 = 1 << 33;

/// The books of two ledgers, one of picks and one of used segments, and what is here of their shares. The others were dealt.
#[derive(Drop)]
pub struct Accounts<P: Ledger, Q: Ledger> {
    picks: Book<P>,
    rans: Book<Q>,
    here: Tally<P, Q>,
    dealt: u32,
}

impl<P: Ledger, Q: Ledger> Model for Accounts<P, Q> {
    ghost use Rattle.std.specs.Prelude.{◌≡◌, ◌<◌, ◌^◌, ◌+◌};
    ghost use Rattle.hub.specs.declared.turn_out.Counted.{Counted};
    ghost use Rattle.workers.specs.Tallies.{all_parts};

    ghost Value = { Counted };

    ghost view = { λ a. record { turns = a.picks.total; rans = a.rans.total } };

    ghost invariant = { λ a. (a.here.parts + a.dealt ≡ all_parts) × (a.picks.total < 2 ^ 64) × (a.rans.total < 2 ^ 64) };
}

impl<P: Ledger, Q: Ledger> Accounts<P, Q> {
    /// New ledgers, of which nothing was dealt.
    pub fn open(picks: Blank, rans: Blank) -> Accounts<P, Q>
        requires picks { (picks.name ≡ P.name) × (picks.parts ≡ P.parts) × (P.parts ≡ all_parts) }
        requires rans { (rans.name ≡ Q.name) × (rans.parts ≡ Q.parts) × (Q.parts ≡ all_parts) }
        ensures { result ≡ record { turns = 0; rans = 0 } }
    {
        let (pick_book, pick_share) = picks.open::<P>();
        let (ran_book, ran_share) = rans.open::<Q>();
        Accounts {
            picks: pick_book,
            rans: ran_book,
            here: Tally {
                picks: pick_share,
                rans: ran_share,
                made: Counted { turns: 0, rans: 0 },
            },
            dealt: 0,
        }
    }

    /// One part of each ledger, unless all were dealt.
    pub fn deal(&mut self) -> Option<Tally<P, Q>>
        ensures dealt { IfSome result (λ t. t ≡ new_tally) }
        ensures same { self.new ≡ self.old }
    {
        let dealt = self.dealt.checked_add(1)?;
        self.dealt = dealt;
        let picks = self.here.picks.split_off(1, 0);
        let rans = self.here.rans.split_off(1, 0);
        Some(Tally {
            picks,
            rans,
            made: Counted { turns: 0, rans: 0 },
        })
    }

    /// Enters what was made by the holder of this share.
    pub fn enter(&mut self, mine: &mut Tally<P, Q>, more: Counted)
        requires part { 0 < mine.old.parts }
        requires fits { (self.old.turns + more.turns < 2 ^ 64) × (self.old.rans + more.rans < 2 ^ 64) }
        ensures total { self.new ≡ plus self.old more }
        ensures mine { mine.new ≡ record { parts = mine.old.parts; turns = mine.old.turns + more.turns; rans = mine.old.rans + more.rans } }
    {
        self.picks.add(&mut mine.picks, more.turns);
        self.rans.add(&mut mine.rans, more.rans);
        self.picks.audit(&mut mine.picks);
        self.rans.audit(&mut mine.rans);
        mine.made.turns += more.turns;
        mine.made.rans += more.rans;
    }

    /// Takes back a share that was dealt. No more are taken back than were dealt.
    pub fn take_back(&mut self, mine: Tally<P, Q>)
        requires part { mine.parts ≡ 1 }
        ensures same { self.new ≡ self.old }
    {
        let Some(dealt) = self.dealt.checked_sub(1) else {
            return;
        };
        self.dealt = dealt;
        let Tally { picks, rans, made } = mine;
        let here = &mut self.here;
        here.picks.merge(picks);
        here.rans.merge(rans);
        self.picks.audit(&mut here.picks);
        self.rans.audit(&mut here.rans);
        here.made.turns += made.turns;
        here.made.rans += made.rans;
    }

    /// The sums of all shares, if each was taken back. They are the totals.
    pub fn sums(self) -> Option<Counted>
        requires parts { (P.parts ≡ all_parts) × (Q.parts ≡ all_parts) }
        ensures { IfSome result (λ c. c ≡ self) }
    {
        let Accounts {
            mut picks,
            mut rans,
            mut here,
            dealt,
        } = self;
        if dealt != 0 {
            return None;
        }
        picks.audit(&mut here.picks);
        rans.audit(&mut here.rans);
        Some(here.made)
    }
}
