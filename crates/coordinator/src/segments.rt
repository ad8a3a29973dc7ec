//! What a segment brings: writes go out, then the next question; and an execution that ended is prepared.

ghost use Rattle.std.specs.Prelude.{◌≡◌, ◌-◌, ◌++◌, ◌&&◌, ◌||◌, ◌∷◌, [], Bool, true, false, not, nat_lt, Some, None, IsTrue, IsSome, IfOk, ◌↔◌, is_some, slice_get};
ghost use Rattle.std.specs.List.{list_all};
ghost use Rattle.protocol.specs.Words.{Puts, Prepare, Ending as EndingValue};
ghost use Rattle.protocol.specs.Lists.{one_when};
ghost use Rattle.protocol.specs.Client.State.{ClientState, content, may_put};
ghost use Rattle.protocol.specs.Client.State.Phase.{Running, Prepared};
ghost use Rattle.protocol.specs.Client.Attempts.{question, prepare_if_ready, ran};
ghost use Rattle.continuation.specs.Job.{IsJobRun};
ghost use Rattle.exec_log.specs.Log.{asked_by, ending_by};
ghost use Rattle.coordinator.specs.Execution.{Loaded, answers_of, is_pending};
ghost use Rattle.coordinator.specs.Memory.{Given, StandsFor, Takes, awaits, current, is_awaiting, pending_job, prog_of};

use crate::jobs::is_same_place;
use crate::memory::{Ballot, Memory, Stage};
use continuation::{Job, Seg};
use morty_base::{Ending, List, NoMemory};
use msg::Body;
use std::alloc::Global;
use vote_tally::{MAX_REPLICAS, Tally};

impl Memory {
    /// Whether a job is pending.
    pub(crate) fn is_awaiting(&self) -> bool
        ensures { result ≡ is_awaiting self.now }
    {
        match self.stage {
            Stage::Running { .. } => self.execution.is_pending(),
            _ => false,
        }
    }

    /// Whether the job of this serial is pending.
    pub(crate) fn awaits(&self, serial: u64) -> bool
        ensures { result ≡ awaits self.now serial }
    {
        self.is_awaiting() && serial == self.course.serial
    }

    /// The number of the program of the last transaction begun.
    pub(crate) fn prog(&self) -> u16
        ensures { result ≡ prog_of (slice_get self.now.plan.txns (self.now.course.begun - 1)) }
    {
        let at = self.course.begun.saturating_sub(1) as usize;
        match self.plan.txns.get(at) {
            Some(txn) => txn.prog,
            None => 0,
        }
    }

    /// Whether this is the pending job.
    pub(crate) fn is_job(&self, job: &Job) -> bool
        ensures { IsTrue result ↔ (pending_job self.now ≡ Some job.now) }
    {
        self.awaits(job.serial)
            && self.plan.client == job.client
            && self.prog() == job.prog
            && is_same_place(self.execution.job(), &job.at)
    }

    fn may_put(&self) -> bool
        ensures { result ≡ may_put (ending_by self.now.execution.log.next) }
    {
        match self.execution.ending() {
            None | Some(Ending::Done) => true,
            Some(_) => false,
        }
    }

    /// The writes made, where the test holds and the execution did not end otherwise than Done.
    pub(crate) fn puts(&self, alloc: Global, test: bool) -> Result<List<Body>, NoMemory>
        ensures { IfOk result (λ l. l ≡ one_when (may_put (ending_by self.now.execution.log.next) && test) (Puts self.now.course.exec self.now.execution.log.writes)) }
    {
        let mut sent = List::new(alloc);
        if self.may_put() && test {
            let writes = List::from_slice(alloc, self.execution.writes())?;
            sent.push(Body::Puts {
                exec: self.course.exec,
                writes,
            })?;
        }
        Ok(sent)
    }

    // Then the question, where one stands.
    fn ask(&self, mut sent: List<Body>) -> Result<List<Body>, NoMemory>
        ensures { IfOk result (λ l. l ≡ sent ++ question self.now.course.exec (asked_by self.now.execution.log.next)) }
    {
        if let Some(key) = self.execution.asked() {
            sent.push(Body::Get {
                exec: self.course.exec,
                key,
            })?;
        }
        Ok(sent)
    }

    // Whether the execution has ended and each of its reads is sure.
    fn is_ready(&self) -> bool
        ensures { result ≡ (is_some (ending_by self.now.execution.log.next) && list_all (λ a. a.label.sure) (answers_of self.now.execution)) }
    {
        self.execution.ending().is_some() && self.execution.is_sure()
    }

    // The execution, which ended, is prepared.
    fn prepare(&mut self, alloc: Global, mut sent: List<Body>) -> Result<List<Body>, NoMemory>
        requires { IsSome (ending_by self.old.execution.log.next) }
        ensures { IfOk result (λ out. (g : Given) (c : ClientState) (given : Bool) (how : EndingValue) → StandsFor g c self.old → c.phase ≡ Running false given → ending_by self.old.execution.log.next ≡ Some how →
            Takes g (record { state = record c { phase = Prepared (content g.rules c how) [] None [] }; sent = sent ++ Prepare c.exec (content g.rules c how) ∷ [] }) self.new out) }
    {
        let content = self.execution.content(alloc)?;
        let copy = content.copy(alloc)?;
        sent.push(Body::Prepare {
            exec: self.course.exec,
            content: copy,
        })?;
        self.stage = Stage::Prepared(Ballot {
            content,
            tally: Tally::new(self.plan.rules.replicas.min(MAX_REPLICAS as u32)),
            proposal: None,
        });
        Ok(sent)
    }

    /// Prepares the execution once it has ended and each of its reads is sure.
    pub(crate) fn prepare_if_ready(
        &mut self,
        alloc: Global,
        sent: List<Body>,
    ) -> Result<List<Body>, NoMemory>
        ensures { IfOk result (λ out. (g : Given) (c : ClientState) (given : Bool) → StandsFor g c self.old → c.phase ≡ Running false given → Takes g (prepare_if_ready g.rules c sent) self.new out) }
    {
        if !self.is_ready() {
            return Ok(sent);
        }
        let sent = self.prepare(alloc, sent)?;
        Ok(sent)
    }

    // Whether the first segment of an execution after the first one is still to come.
    fn is_rerun(&self) -> bool
        ensures { (g : Given) (c : ClientState) (pending given : Bool) → StandsFor g c self.now → c.phase ≡ Running pending given → result ≡ (not given && nat_lt 0 c.exec.eid) }
    {
        match self.stage {
            Stage::Running { given } => !given && 0 < self.course.exec.eid,
            _ => false,
        }
    }

    // Whether the writes go out: the segment made one, or is the first one of an execution after the first.
    fn is_due(&self, wrote: bool) -> bool
        ensures { (g : Given) (c : ClientState) (pending given : Bool) → StandsFor g c self.now → c.phase ≡ Running pending given → result ≡ (wrote || (not given && nat_lt 0 c.exec.eid)) }
    {
        wrote || self.is_rerun()
    }

    /// Takes the segment of the pending job: its writes go out, then its question.
    pub(crate) fn ran(&mut self, alloc: Global, seg: &Seg) -> Result<List<Body>, NoMemory>
        requires { IsTrue (is_pending self.old.execution) }
        ensures { IfOk result (λ out. (g : Given) (c : ClientState) (given : Bool) (l : Loaded) → StandsFor g c self.old → c.phase ≡ Running true given →
            current g.programs self.old.plan self.old.course.begun ≡ Some l → IsJobRun l.code self.old.execution.job seg.now → Takes g (ran g.rules c given) self.new out) }
    {
        let due = self.is_due(0 < seg.wrote.len());
        self.execution.take(alloc, seg)?;
        self.stage = Stage::Running { given: true };
        let puts = self.puts(alloc, due)?;
        let asked = self.ask(puts)?;
        let sent = self.prepare_if_ready(alloc, asked)?;
        Ok(sent)
    }
}
