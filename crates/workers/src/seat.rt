ghost use Rattle.std.specs.Prelude.{◌≡◌, ◌<◌, ◌≤◌, ◌+◌, ℕ, Some, length};
ghost use Rattle.hub.specs.Starts.{Start};
ghost use Rattle.hub.specs.Views.{nodes_of};
ghost use Rattle.node_future.specs.Answers.{turn_kind, give_kind};
ghost use Rattle.workers.specs.Seats.{SeatView};
ghost use Rattle.workers.specs.Tallies.{new_tally};

use crate::locked::Locked;
use crate::tally::Tally;
use hub::{Counted, Named, TurnOut};
use morty_base::NoMemory;
use net_core::{Link, Machine, RanStep};
use node_future::{LastGive, LastTurn, Turns};
use std::alloc::Global;
use std::marker::Model;
use std::sync::ledger::Ledger;
use std::sync::{Mutex, Wait};

/// A node's seat at a hub under a lock, with its share of what is made there.
#[derive(Drop)]
pub struct Seat<'a, M: Machine, L: Link, N: Named<M::Origin>, P: Ledger, Q: Ledger, R: Wait> {
    rt: &'a R,
    alloc: Global,
    lock: &'a Mutex<Locked<M, L, N, P, Q>>,
    kit: &'a M::Kit,
    mine: Tally<P, Q>,
    last_turn: LastTurn,
    last_give: LastGive,
    refused: bool,
    spoiled: bool,
}

impl<'a, M: Machine, L: Link, N: Named<M::Origin>, P: Ledger, Q: Ledger, R: Wait> Model
    for Seat<'a, M, L, N, P, Q, R> {
    ghost use Rattle.std.specs.Prelude.{◌≡◌, Some};
    ghost use Rattle.hub.specs.Starts.{Start};
    ghost use Rattle.workers.specs.Seats.{SeatView};

    ghost Value = { SeatView };

    ghost view = { λ t. record {
      turns = t.mine.turns;
      rans = t.mine.rans;
      last_turn = t.last_turn;
      last_give = t.last_give;
      refused = t.refused;
      spoiled = t.spoiled;
    } };

    ghost invariant = { λ t. (t.mine.parts ≡ 1) × ((s : Start M.Origin) × (N.start ≡ Some s) × M.kit_of s.origin t.kit.now) };
}

impl<'a, M: Machine, L: Link, N: Named<M::Origin>, P: Ledger, Q: Ledger, R: Wait> Seat<
    'a,
    M,
    L,
    N,
    P,
    Q,
    R,
> {
    /// A seat of which nothing was made yet.
    pub fn new(
        rt: &'a R,
        alloc: Global,
        lock: &'a Mutex<Locked<M, L, N, P, Q>>,
        kit: &'a M::Kit,
        mine: Tally<P, Q>,
    ) -> Seat<'a, M, L, N, P, Q, R>
        requires mine { mine ≡ new_tally }
        requires kit { (s : Start M.Origin) × (N.start ≡ Some s) × M.kit_of s.origin kit.now }
    {
        Seat {
            rt,
            alloc,
            lock,
            kit,
            mine,
            last_turn: LastTurn::None,
            last_give: LastGive::None,
            refused: false,
            spoiled: false,
        }
    }

    /// Its share.
    pub fn into_share(self) -> Tally<P, Q>
        ensures parts { result.parts ≡ 1 }
        ensures turns { result.turns ≡ self.entry.turns }
        ensures rans { result.rans ≡ self.entry.rans }
    {
        let Seat { mine, .. } = self;
        mine
    }
}

impl<'a, M: Machine, L: Link, N: Named<M::Origin>, P: Ledger, Q: Ledger, R: Wait> Turns
    for Seat<'a, M, L, N, P, Q, R> {
    ghost use Rattle.std.specs.Prelude.{◌≡◌, ◌<◌, ℕ, Some, length};
    ghost use Rattle.hub.specs.Starts.{Start};
    ghost use Rattle.hub.specs.Views.{nodes_of};

    type Job = M::Job;

    type Done = M::Done;

    ghost nodes = { λ _. length (nodes_of N.start M.rules) };

    ghost fits = { λ _ j. (s : Start M.Origin) → N.start ≡ Some s → M.fits s.origin j };

    ghost made = { λ _ d. (s : Start M.Origin) × (N.start ≡ Some s) × (j : M.Job) × M.of_job s.origin j d };

    ghost turns_made = { λ t. t.turns };

    ghost rans_made = { λ t. t.rans };

    ghost last_turn = { λ t. t.last_turn };

    ghost last_give = { λ t. t.last_give };

    ghost work_refused = { λ t. t.refused };

    ghost spoiled = { λ t. t.spoiled };

    fn turn(&mut self, slot: u32) -> Result<TurnOut<M::Job>, NoMemory> {
        let Seat { rt, lock, mine, .. } = self;
        let out = lock.lock(*rt).turn(slot, mine);
        self.last_turn = LastTurn::of(&out);
        out
    }

    fn work(&mut self, a_job: M::Job) -> Result<M::Done, NoMemory> {
        let done = M::work(self.alloc, self.kit, a_job);
        self.refused = self.refused || done.is_err();
        done
    }

    fn give(&mut self, slot: u32, done: &M::Done) -> Result<RanStep, NoMemory> {
        let Seat { rt, lock, mine, .. } = self;
        let out = lock.lock(*rt).give(slot, done, mine);
        self.last_give = LastGive::of(&out);
        out
    }

    fn spoil(&mut self) {
        self.lock.lock(self.rt).spoil();
        self.spoiled = true;
    }

    fn counts(&self) -> Counted {
        self.mine.made()
    }
}
