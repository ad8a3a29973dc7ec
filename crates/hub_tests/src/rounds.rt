ghost use Rattle.std.specs.Prelude.{◌≡◌, ◌<◌, ◌+◌, ℕ, true, false, [], ◌∷◌, IsTrue, ◌↔◌, IfOk, Some};

use morty_base::{NoMemory, NodeId};
use msg::{Event, Pick};
use net_core::{Machine, Menu, RanStep, StepOut};
use std::alloc::Global;
use std::marker::Model;

/// The segment of a round.
#[derive(Clone, Copy, Debug, PartialEq, Eq)]
pub struct Segment {
    pub round: u32,
}

/// A segment that was run.
#[derive(Clone, Copy, Debug, PartialEq, Eq)]
pub struct Done {
    pub segment: Segment,
}

/// A machine of so many rounds.
#[derive(Drop)]
pub struct Rounds {
    limit: u32,
    begun: u32,
    ran: u32,
    told: u32,
    // The number of the envelope that the replica is told next.
    next: [u64; 1],
}

impl Model for Rounds {
    ghost use Rattle.std.specs.Prelude.{◌≡◌, [], ◌∷◌};
    ghost use Rattle.hub_tests.specs.Rounds.{State};

    ghost Value = { State };

    ghost view = { λ r. record { limit = r.limit; count = record { begun = r.begun; ran = r.ran; told = r.told } } };

    ghost invariant = { λ r. r.next ≡ r.told ∷ [] };
}

impl Rounds {
    ghost use Rattle.morty_base.specs.declared.names.NodeId.TheVariants.{Client, Replica};
    ghost use Rattle.net_core.specs.Replay.{shown};
    ghost use Rattle.hub_tests.specs.Rounds.{no_round, can, can_go, is_pending, is_fresh, moved, menu_of, pending_of};

    pub fn new(limit: u32) -> Rounds
        ensures { result ≡ record { limit = limit; count = no_round } }
    {
        Rounds {
            limit,
            begun: 0,
            ran: 0,
            told: 0,
            next: [0],
        }
    }

    /// Of how many rounds the replica was told.
    pub fn told(&self) -> u32
        ensures { result ≡ self.now.count.told }
    {
        self.told
    }

    fn is_pending(&self) -> bool
        ensures { result ≡ is_pending self.now.count }
    {
        self.ran < self.begun
    }

    fn is_fresh(&self) -> bool
        ensures { result ≡ is_fresh self.now.count }
    {
        self.told < self.ran
    }

    fn can_go(&self) -> bool
        ensures { result ≡ can_go self.now.limit self.now.count }
    {
        !self.is_pending() && self.begun < self.limit
    }

    fn can(&self, event: Event) -> bool
        ensures { result ≡ can self.now.limit self.now.count event }
    {
        match event {
            Event::Picked(NodeId::Client(node), Pick::Go) => node == 1 && self.can_go(),
            Event::Picked(NodeId::Replica(node), Pick::Deliver(place)) => {
                node == 1 && place == u64::from(self.told) && self.is_fresh()
            }
            Event::Picked(_, _) => false,
            Event::Ran(node) => node == 1 && self.is_pending(),
        }
    }

    // Takes an event that is enabled.
    fn take(&mut self, event: Event)
        requires { can self.old.limit self.old.count event ≡ true }
        ensures { self.new ≡ record self.old { count = moved self.old.count event } }
    {
        match event {
            Event::Picked(NodeId::Replica(_), _) => {
                self.told += 1;
                self.next = [u64::from(self.told)];
            }
            Event::Picked(_, _) => self.begun += 1,
            Event::Ran(_) => self.ran = self.begun,
        }
    }

    fn client_menu(&self) -> Menu<'_>
        ensures { shown result ≡ menu_of self.now.limit self.now.count (Client 1) }
    {
        Menu {
            now: self.moves(),
            go: self.can_go(),
            hurry: false,
            fresh: &self.next[..0],
            old: &self.next[..0],
            stuck: None,
        }
    }

    fn replica_menu(&self) -> Menu<'_>
        ensures { shown result ≡ menu_of self.now.limit self.now.count (Replica 1) }
    {
        let fresh = if self.is_fresh() { 1 } else { 0 };
        Menu {
            now: self.moves(),
            go: false,
            hurry: false,
            fresh: &self.next[..fresh],
            old: &self.next[..0],
            stuck: None,
        }
    }

    fn moves(&self) -> u64
        ensures { result ≡ self.now.count.begun + self.now.count.ran + self.now.count.told }
    {
        u64::from(self.begun) + u64::from(self.ran) + u64::from(self.told)
    }

    fn pending(&self, slot: u32) -> Option<Segment>
        ensures client { slot ≡ 0 → result ≡ pending_of self.now.count (Client 1) }
        ensures replica { slot ≡ 1 → result ≡ pending_of self.now.count (Replica 1) }
    {
        if slot == 0 && self.is_pending() {
            Some(Segment { round: self.begun })
        } else {
            None
        }
    }
}

impl Machine for Rounds {
    ghost use Rattle.std.specs.Prelude.{◌≡◌, ℕ, refl, is_some};
    ghost use Rattle.hub_tests.specs.Rounds.{rounds, state_after, pending_of};
    ghost use Rattle.std.proofs.Common.{sym, ◌∙◌, ap};
    ghost use Rattle.hub_tests.specs.Lawful.{lawful};

    type Job = Segment;

    type Done = Done;

    type Kit = ();

    type Origin = u32;

    ghost rules = { rounds };

    ghost stands = { λ r o h. r ≡ state_after o h };

    ghost usable = { λ r. Unit {0} };

    ghost jobs = { λ r n. pending_of r.count n };

    ghost count = { λ r. 2 };

    ghost kit_of = { λ o k. Unit {0} };

    ghost fits = { λ o j. Unit {0} };

    ghost of_job = { λ o j d. d.segment ≡ j };

    fn nodes(&self) -> u32 {
        2
    }

    fn node(&self, slot: u32) -> NodeId {
        if slot == 0 {
            NodeId::Client(1)
        } else {
            NodeId::Replica(1)
        }
    }

    fn live(&self, _slot: u32) -> bool {
        true
    }

    fn menu(&self, slot: u32) -> Menu<'_> {
        if slot == 0 {
            self.client_menu()
        } else {
            self.replica_menu()
        }
    }

    fn step(&mut self, _alloc: Global, event: Event) -> Result<StepOut, NoMemory> {
        if self.can(event) {
            self.take(event);
            Ok(StepOut::Moved)
        } else {
            Ok(StepOut::Idle)
        }
    }

    fn has_job(&self, slot: u32) -> bool {
        self.pending(slot).is_some()
    }

    fn job(&self, _alloc: Global, slot: u32) -> Result<Option<Segment>, NoMemory> {
        Ok(self.pending(slot))
    }

    fn give(&mut self, _alloc: Global, slot: u32, done: &Done) -> Result<RanStep, NoMemory> {
        if self.pending(slot) == Some(done.segment) {
            self.take(Event::Ran(1));
            Ok(RanStep::Used)
        } else {
            Ok(RanStep::Stale)
        }
    }

    fn work(_alloc: Global, _kit: &(), a_job: Segment) -> Result<Done, NoMemory> {
        Ok(Done { segment: a_job })
    }

    fn same_job(a: &Segment, b: &Segment) -> bool {
        a == b
    }

    ghost lawful = { lawful };

    ghost in_use = { λ r o h stands. tt };

    ghost counted = { λ r o h stands. refl };

    ghost pending = { λ r o h n stands. ap (λ c. is_some (pending_of c.count n)) (sym stands) };

    ghost jobs_fit = { λ r o h n j stands is. tt };

    ghost one_job = { λ o j k d p q. sym p ∙ q };
}
