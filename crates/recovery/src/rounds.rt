ghost use Rattle.std.specs.Prelude.{◌≡◌, ◌∷◌, [], IfOk, OnOk, None, Some, is_some, true, reverse};
ghost use Rattle.std.specs.List.{list_any};
ghost use Rattle.std.specs.Option.{option_copied};
ghost use Rattle.morty_base.specs.Names.{same_exec};
ghost use Rattle.protocol.specs.Warden.State.{Round as RoundValue};
ghost use Rattle.protocol.specs.Warden.Recovery.{round_of, with_round, with_told, with_proposal, used};
ghost use Rattle.recovery.specs.Round.{accepted_by};
ghost use Rattle.recovery.specs.Rounds.{place_of, is_view_at};

use crate::places::Places;
use crate::proposal::{Proposal, Told};
use crate::round::Round;
use morty_base::{Exec, NoMemory};
use std::alloc::Global;
use std::marker::Model;

/// The views in which this warden asked about executions. Contracts see the newest first.
#[derive(Drop)]
pub struct Rounds {
    // The oldest first.
    items: Vec<Round>,
    places: Places,
}

impl Model for Rounds {
    ghost use Rattle.std.specs.Prelude.{List, map, reverse};
    ghost use Rattle.std.specs.Coded.{codes};
    ghost use Rattle.protocol.specs.Warden.State.{Round};
    ghost use Rattle.recovery.specs.Places.{IsIndexOf};

    ghost Value = { List Round };

    ghost coded = { Prim.hlevel codes };

    ghost view = { λ r. reverse r.items.items };

    ghost invariant = { λ r. IsIndexOf r.places (map (λ a. a.exec) (reverse r.items.items)) };
}

impl Rounds {
    pub fn new(alloc: Global) -> Rounds
        ensures { result ≡ [] }
    {
        Rounds {
            items: Vec::new(alloc),
            places: Places::new(alloc),
        }
    }

    /// One more view.
    pub fn add(&mut self, alloc: Global, round: Round) -> Result<(), NoMemory>
        ensures { OnOk result (self.new ≡ round ∷ self.old) }
    {
        self.items.reserve(1)?;
        self.places.add(alloc, round.exec(), self.items.len())?;
        self.items.push(round)?;
        Ok(())
    }

    /// How many views of an execution were used.
    pub fn used(&self, exec: Exec) -> usize
        ensures { result ≡ used exec self.now }
    {
        self.places.of(exec).len()
    }

    /// Whether an execution was asked about.
    pub fn has(&self, exec: Exec) -> bool
        ensures { result ≡ list_any (λ a. same_exec exec a.exec) self.now }
    {
        !self.places.of(exec).is_empty()
    }

    // Whether the round at a place is one of this view.
    fn is_in(&self, place: usize, view: u32) -> bool
        ensures { result ≡ is_view_at view (reverse self.now) place }
    {
        match self.items.get(place) {
            None => false,
            Some(round) => round.is_in(view),
        }
    }

    // The place of the newest round of an execution in a view.
    fn place(&self, exec: Exec, view: u32) -> Option<usize>
        ensures { result ≡ place_of exec view self.now }
    {
        for place in self.places.of(exec).iter().rev() {
            if self.is_in(*place, view) {
                return Some(*place);
            }
        }
        None
    }

    /// The round of an execution in a view.
    pub fn get(&self, exec: Exec, view: u32) -> Option<&Round>
        ensures { option_copied result ≡ round_of exec view self.now }
    {
        let place = self.place(exec, view)?;
        Some(&self.items[place])
    }

    /// One more Told counts in the round.
    pub fn add_told(&mut self, exec: Exec, view: u32, told: Told) -> Result<(), NoMemory>
        requires { (a : RoundValue) × (round_of exec view self.old ≡ Some a) × (a.proposal ≡ None) }
        ensures { OnOk result ((a : RoundValue) → round_of exec view self.old ≡ Some a → self.new ≡ with_round exec view (with_told a told) self.old) }
    {
        let Some(place) = self.place(exec, view) else {
            unreachable!();
        };
        self.items[place].add_told(told)
    }

    /// The choice of the round is fixed.
    pub fn propose(&mut self, alloc: Global, exec: Exec, view: u32, proposal: Proposal)
        ensures { (a : RoundValue) → round_of exec view self.old ≡ Some a → self.new ≡ with_round exec view (with_proposal a proposal) self.old }
    {
        if let Some(place) = self.place(exec, view) {
            self.items[place].propose(alloc, proposal);
        }
    }

    /// One more replica accepted what the round proposes.
    pub fn add_accept(&mut self, exec: Exec, view: u32, replica: u32) -> Result<(), NoMemory>
        requires { (a : RoundValue) × (round_of exec view self.old ≡ Some a) × (is_some a.proposal ≡ true) }
        ensures { OnOk result ((a : RoundValue) → round_of exec view self.old ≡ Some a → self.new ≡ with_round exec view (accepted_by a replica) self.old) }
    {
        let Some(place) = self.place(exec, view) else {
            unreachable!();
        };
        self.items[place].add_accept(replica)
    }
}
