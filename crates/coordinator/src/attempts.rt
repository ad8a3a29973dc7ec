//! How a client begins an attempt.

ghost use Rattle.std.specs.Prelude.{◌≡◌, ◌<◌, ◌≤◌, ◌+◌, ◌-◌, [], true, false, Option, length, nat_lt, IsTrue};
ghost use Rattle.protocol.specs.Client.State.{ClientState};
ghost use Rattle.protocol.specs.Client.Attempts.{tries_again, can_go, is_between, next_version, start_of, begin, go};
ghost use Rattle.coordinator.specs.Execution.{Loaded, StandsFor as RunsAs};
ghost use Rattle.coordinator.specs.Memory.{Given, StandsFor, begun_memory, due_version};

use crate::execution::Execution;
use crate::memory::{Course, Memory, Plan, Stage};
use morty_base::{Exec, Version};
use protocol::Fate;
use std::alloc::Global;

impl Plan {
    // The version of a try: its transaction's start, later by a gap with each try, and later than this time.
    fn version(&self, begun: u32, attempt: u32, last: u64) -> Version
        ensures { result ≡ due_version self.now begun attempt last }
    {
        let start = match self.txns.get(begun.saturating_sub(1) as usize) {
            Some(txn) => txn.at,
            None => 0,
        };
        let delay = u64::from(attempt.saturating_sub(1)).saturating_mul(self.rules.gap);
        Version {
            ts: start.saturating_add(delay).max(last.saturating_add(1)),
            client: self.client,
        }
    }
}

impl Memory {
    // The attempt was aborted, and a try of its transaction is left.
    fn tries_again(&self) -> bool
        ensures { (g : Given) (c : ClientState) → StandsFor g c self.now → result ≡ tries_again g.rules c }
    {
        self.course.fate == Fate::Aborted && self.course.attempt < self.plan.rules.tries
    }

    fn is_between(&self) -> bool
        ensures { (g : Given) (c : ClientState) → StandsFor g c self.now → result ≡ is_between c.phase }
    {
        match self.stage {
            Stage::Between => true,
            _ => false,
        }
    }

    fn has_more(&self) -> bool
        ensures { (g : Given) (c : ClientState) → StandsFor g c self.now → result ≡ nat_lt c.begun (length g.rules.txns) }
    {
        (self.course.begun as usize) < self.plan.txns.len()
    }

    /// A try or a transaction is left to begin.
    pub(crate) fn can_go(&self) -> bool
        ensures { (g : Given) (c : ClientState) → StandsFor g c self.now → result ≡ can_go g.rules c }
    {
        self.is_between() && (self.tries_again() || self.has_more())
    }

    // An attempt begins, with a job that starts its program.
    fn begin(&mut self, alloc: Global, begun: u32, attempt: u32)
        ensures value { self.new ≡ begun_memory self.old begun attempt }
        ensures fresh { (o : Option Loaded) → RunsAs o self.new.execution }
    {
        let ver = self.plan.version(begun, attempt, self.course.exec.ver.ts);
        self.course = Course {
            begun,
            attempt,
            exec: Exec { ver, eid: 0 },
            serial: self.course.serial.saturating_add(1),
            fate: Fate::Live,
        };
        self.execution = Execution::new(alloc);
        self.stage = Stage::Running { given: false };
    }

    /// Begins the next try of an aborted transaction while tries are left, else the next transaction.
    pub(crate) fn go(&mut self, alloc: Global)
        ensures { (g : Given) (c : ClientState) → StandsFor g c self.old → IsTrue (can_go g.rules c) → StandsFor g (go g.rules c).state self.new }
    {
        if self.tries_again() {
            self.begin(
                alloc,
                self.course.begun,
                self.course.attempt.saturating_add(1),
            );
        } else {
            self.begin(alloc, self.course.begun.saturating_add(1), 1);
        }
    }
}
