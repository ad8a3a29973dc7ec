ghost use Rattle.std.specs.Prelude.{◌≡◌, ◌<◌, ◌≤◌, ◌+◌, ℕ, true, [], Some, length, IfOk, IfSome};
ghost use Rattle.std.specs.List.{slice_get};
ghost use Rattle.morty_base.specs.declared.names.NodeId.{NodeId as NodeValue};
ghost use Rattle.hub.specs.Kept.{picks_in, rans_in};
ghost use Rattle.hub.specs.Starts.{Start};
ghost use Rattle.hub.specs.Turns.{IsTurn, Gave};
ghost use Rattle.hub.specs.Views.{HubView, history, nodes_of};
ghost use Rattle.node_future.specs.Answers.{CountsTurn, CountsGive, JobFits, turn_kind, give_kind};
ghost use Rattle.workers.specs.Tallies.{TallyView, new_tally, all_parts};

use crate::accounts::Accounts;
use crate::tally::Tally;
use hub::{Counted, Hub, Named, TurnOut};
use morty_base::NoMemory;
use net_core::{Link, Machine, RanStep};
use std::marker::Model;
use std::sync::ledger::{Blank, Ledger};

/// A hub as it stands under the lock, beside the accounts of its picks and of its used segments. These have as many as the
/// journal.
#[derive(Drop)]
pub struct Locked<M: Machine, L: Link, N: Named<M::Origin>, P: Ledger, Q: Ledger> {
    hub: Hub<M, L, N>,
    accounts: Accounts<P, Q>,
}

impl<M: Machine, L: Link, N: Named<M::Origin>, P: Ledger, Q: Ledger> Model
    for Locked<M, L, N, P, Q> {
    ghost use Rattle.std.specs.Prelude.{◌≡◌, Some};
    ghost use Rattle.hub.specs.Kept.{picks_in, rans_in};
    ghost use Rattle.hub.specs.Starts.{Start};
    ghost use Rattle.hub.specs.Views.{HubView, history};

    ghost Value = { HubView M.Job };

    ghost view = { λ l. l.hub };

    ghost invariant = { λ l. (l.accounts.turns ≡ picks_in (history l.hub))
        × ((s : Start M.Origin) → N.start ≡ Some s → l.accounts.rans ≡ rans_in (M.rules s.origin) (history l.hub)) };
}

impl<M: Machine, L: Link, N: Named<M::Origin>, P: Ledger, Q: Ledger> Locked<M, L, N, P, Q> {
    /// A hub whose journal is empty, with new accounts.
    pub fn new(hub: Hub<M, L, N>, picks: Blank, rans: Blank) -> Locked<M, L, N, P, Q>
        requires empty { hub.journal ≡ [] }
        requires picks { (picks.name ≡ P.name) × (picks.parts ≡ P.parts) × (P.parts ≡ all_parts) }
        requires rans { (rans.name ≡ Q.name) × (rans.parts ≡ Q.parts) × (Q.parts ≡ all_parts) }
        ensures { result ≡ hub }
    {
        Locked {
            hub,
            accounts: Accounts::open(picks, rans),
        }
    }

    /// The hub, and what was made of it: the sums of all shares if each was taken back, else what the hub counts.
    pub fn into_hub(self) -> (Hub<M, L, N>, Counted)
        requires parts { (P.parts ≡ all_parts) × (Q.parts ≡ all_parts) }
        ensures same { result.0 ≡ self }
        ensures turns { result.1.turns ≡ picks_in (history result.0) }
        ensures rans { (s : Start M.Origin) → N.start ≡ Some s → result.1.rans ≡ rans_in (M.rules s.origin) (history result.0) }
    {
        let Locked { hub, accounts } = self;
        let made = accounts.sums().unwrap_or(hub.counted());
        (hub, made)
    }

    /// A share for a node's seat, unless all were dealt.
    pub fn deal(&mut self) -> Option<Tally<P, Q>>
        ensures dealt { IfSome result (λ t. t ≡ new_tally) }
        ensures same { self.new ≡ self.old }
    {
        self.accounts.deal()
    }

    /// Takes back a seat's share.
    pub fn take_back(&mut self, mine: Tally<P, Q>)
        requires part { mine.parts ≡ 1 }
        ensures same { self.new ≡ self.old }
    {
        self.accounts.take_back(mine);
    }

    /// A turn of the node of a slot. A pick that the journal grew by is entered in the share of who took the turn.
    pub fn turn(&mut self, slot: u32, mine: &mut Tally<P, Q>) -> Result<TurnOut<M::Job>, NoMemory>
        requires slot { slot < length (nodes_of N.start M.rules) }
        requires part { 0 < mine.old.parts }
        ensures turn { IfOk result (λ out. (s : Start M.Origin) → N.start ≡ Some s → (n : NodeValue) × (slice_get (M.rules s.origin).nodes slot ≡ Some n)
            × IsTurn (M.rules s.origin) s.turns n slot self.old self.new out) }
        ensures fits { JobFits (λ j. (s : Start M.Origin) → N.start ≡ Some s → M.fits s.origin j) result }
        ensures turns { CountsTurn (turn_kind result) mine.old.turns mine.new.turns }
        ensures rans { mine.new.rans ≡ mine.old.rans }
        ensures parts { mine.new.parts ≡ mine.old.parts }
    {
        let Locked { hub, accounts } = self;
        let _nodes = hub.nodes();
        let first = hub.counted();
        let out = hub.turn(slot);
        accounts.enter(mine, grown(first, hub.counted()));
        out
    }

    /// Gives back what was done of a job of a slot. A used segment is entered in the share of who gives it back.
    pub fn give(
        &mut self,
        slot: u32,
        done: &M::Done,
        mine: &mut Tally<P, Q>,
    ) -> Result<RanStep, NoMemory>
        requires slot { slot < length (nodes_of N.start M.rules) }
        requires made { (s : Start M.Origin) × (N.start ≡ Some s) × (j : M.Job) × M.of_job s.origin j done.now }
        requires part { 0 < mine.old.parts }
        ensures given { IfOk result (λ out. self.old.ended ≡ None → (s : Start M.Origin) → N.start ≡ Some s
            → (n : NodeValue) × (slice_get (M.rules s.origin).nodes slot ≡ Some n)
            × Gave (M.rules s.origin) (λ j. M.of_job s.origin j done.now) n slot self.old self.new out) }
        ensures turns { mine.new.turns ≡ mine.old.turns }
        ensures rans { CountsGive (give_kind result) mine.old.rans mine.new.rans }
        ensures parts { mine.new.parts ≡ mine.old.parts }
    {
        let Locked { hub, accounts } = self;
        let _nodes = hub.nodes();
        let first = hub.counted();
        let out = hub.give(slot, done);
        accounts.enter(mine, grown(first, hub.counted()));
        out
    }

    /// From now on every turn is refused.
    pub fn spoil(&mut self)
        ensures { self.new ≡ record self.old { spoiled = true } }
    {
        self.hub.spoil();
    }
}

// By how many picks and used segments a journal grew.
fn grown(first: Counted, last: Counted) -> Counted
    requires { (first.turns ≤ last.turns) × (first.rans ≤ last.rans) }
    ensures turns { first.turns + result.turns ≡ last.turns }
    ensures rans { first.rans + result.rans ≡ last.rans }
{
    Counted {
        turns: last.turns - first.turns,
        rans: last.rans - first.rans,
    }
}
