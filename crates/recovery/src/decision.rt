ghost use Rattle.std.specs.Prelude.{◌≡◌, ◌∷◌, [], find, IfOk, OnOk};
ghost use Rattle.std.specs.Option.{option_copied};
ghost use Rattle.morty_base.specs.Names.{same_exec};

use crate::places::Places;
use crate::proposal::Proposal;
use morty_base::{Exec, NoMemory};
use msg::{Choice, Content, copy_content};
use std::alloc::Global;
use std::marker::Model;

/// What this warden decided of an execution.
#[derive(Drop)]
pub struct Decision {
    pub exec: Exec,
    pub proposal: Proposal,
}

impl Model for Decision {
    ghost use Rattle.protocol.specs.Warden.State.{DecidedProposal};

    ghost Value = { DecidedProposal };

    ghost view = { λ d. record { exec = d.exec; proposal = d.proposal } };
}

impl Decision {
    pub fn choice(&self) -> Choice
        ensures { result ≡ self.now.proposal.choice }
    {
        self.proposal.choice()
    }

    pub fn copy_content(&self, alloc: Global) -> Result<Option<Content>, NoMemory>
        ensures { IfOk result (λ content. content ≡ self.now.proposal.content) }
    {
        copy_content(alloc, &self.proposal.content)
    }
}

/// What this warden decided. Contracts see the newest first.
#[derive(Drop)]
pub struct Decisions {
    // The oldest first.
    items: Vec<Decision>,
    places: Places,
}

impl Model for Decisions {
    ghost use Rattle.std.specs.Prelude.{List, map, reverse};
    ghost use Rattle.std.specs.Coded.{codes};
    ghost use Rattle.protocol.specs.Warden.State.{DecidedProposal};
    ghost use Rattle.recovery.specs.Places.{IsIndexOf};

    ghost Value = { List DecidedProposal };

    ghost coded = { Prim.hlevel codes };

    ghost view = { λ d. reverse d.items.items };

    ghost invariant = { λ d. IsIndexOf d.places (map (λ e. e.exec) (reverse d.items.items)) };
}

impl Decisions {
    pub fn new(alloc: Global) -> Decisions
        ensures { result ≡ [] }
    {
        Decisions {
            items: Vec::new(alloc),
            places: Places::new(alloc),
        }
    }

    /// One more decision.
    pub fn add(&mut self, alloc: Global, decision: Decision) -> Result<(), NoMemory>
        ensures { OnOk result (self.new ≡ decision ∷ self.old) }
    {
        self.items.reserve(1)?;
        self.places.add(alloc, decision.exec, self.items.len())?;
        self.items.push(decision)?;
        Ok(())
    }

    /// The newest decision on an execution.
    pub fn on(&self, exec: Exec) -> Option<&Decision>
        ensures { option_copied result ≡ find (λ d. same_exec exec d.exec) self.now }
    {
        let place = self.places.of(exec).last()?;
        Some(&self.items[*place])
    }
}
