ghost use Rattle.std.specs.Prelude.{◌≡◌, ◌++◌, ◌↔◌, Some, None, false, true, is_some, IsTrue, IfSome, IsErr, IfOk, OnOk, OnErr, slice_get};
ghost use Rattle.protocol.specs.Client.State.{ClientState, Turn, fresh_client};
ghost use Rattle.protocol.specs.Client.Attempts.{can_go, has_pending};
ghost use Rattle.continuation.specs.Job.{FitsCodes};
ghost use Rattle.protocol.specs.Client.Step.{client_step, on_hurry};
ghost use Rattle.protocol.specs.Client.Step.Input.{Goes, Runs, Hurries, Comes};
ghost use Rattle.coordinator.specs.Memory.{Given, IsWithinLimits, NamePrograms, awaits, codes_of, pending_job, rules_of};

use crate::execution::Execution;
use crate::memory::{Attempt, Course, Memory, Plan, Rules, Stage, Txn2};
use continuation::{Done, Job};
use morty_base::{Exec, List, NoMemory, Version};
use msg::Envelope;
use protocol::Fate;
use std::alloc::Global;

/// Whether a segment that was given back is that of the pending job.
#[derive(Clone, Copy, Debug, PartialEq, Eq)]
pub enum RanOut {
    Used,
    Stale,
}

/// A client. It is broken once a call that changes it was refused memory: it refuses each later call that it can, and
/// what its other calls answer means nothing.
#[derive(Debug, Drop)]
pub struct Coordinator {
    memory: Memory,
    broken: bool,
}

impl Coordinator {
    ghost use Rattle.coordinator.specs.Coordinator.{StandsFor, Does, is_broken, last_attempt};

    /// A client that has begun nothing.
    pub fn new(
        alloc: Global,
        client: u32,
        txns: List<Txn2>,
        rules: Rules,
    ) -> Result<Coordinator, NoMemory>
        requires { IsWithinLimits (record { client = client; rules = rules; txns = txns }) }
        ensures { IfOk result (λ s. (g : Given) → g.rules ≡ rules_of g.programs (record { client = client; rules = rules; txns = txns }) → NamePrograms g txns → StandsFor g fresh_client s) }
    {
        let ver = Version { ts: 0, client: 0 };
        Ok(Coordinator {
            memory: Memory {
                plan: Plan {
                    client,
                    rules,
                    txns,
                },
                course: Course {
                    begun: 0,
                    attempt: 0,
                    exec: Exec { ver, eid: 0 },
                    serial: 0,
                    fate: Fate::Unbegun,
                },
                execution: Execution::new(alloc),
                stage: Stage::Between,
            },
            broken: false,
        })
    }

    /// Whether an attempt can begin: none is under way, and a try or a transaction is left.
    pub fn can_go(&self) -> bool
        ensures { (g : Given) (c : ClientState) → StandsFor g c self.now → result ≡ can_go g.rules c }
    {
        self.memory.can_go()
    }

    /// Whether it can wait for votes no longer: an execution is prepared, undecided and not proposed.
    pub fn can_hurry(&self) -> bool
        ensures { (g : Given) (c : ClientState) → StandsFor g c self.now → result ≡ is_some (on_hurry g.rules c c.phase) }
    {
        match &self.memory.stage {
            Stage::Prepared(ballot) => ballot.proposal.is_none(),
            _ => false,
        }
    }

    /// What became of the last attempt begun.
    pub fn fate(&self) -> Fate
        ensures { (g : Given) (c : ClientState) → StandsFor g c self.now → result ≡ c.fate }
    {
        self.memory.course.fate
    }

    /// The last attempt begun, if there is one.
    pub fn current(&self) -> Option<Attempt>
        ensures { (g : Given) (c : ClientState) → StandsFor g c self.now → result ≡ last_attempt c }
    {
        let course = self.memory.course;
        if course.begun == 0 {
            return None;
        }
        Some(Attempt {
            txn: course.begun,
            attempt: course.attempt,
            exec: course.exec,
        })
    }

    /// Begins the next attempt. It needs that one can begin.
    pub fn go(&mut self, alloc: Global) -> Result<(), NoMemory>
        ensures stands { (g : Given) (c : ClientState) (t : Turn) → StandsFor g c self.old → client_step g.rules c Goes ≡ Some t → OnOk result (StandsFor g t.state self.new) }
        ensures broken { IsTrue (is_broken self.old) → IsErr result }
        ensures breaks { OnErr result (IsTrue (is_broken self.new)) }
    {
        if self.broken {
            return Err(NoMemory);
        }
        self.memory.go(alloc);
        Ok(())
    }

    /// Whether a job is pending.
    pub fn has_job(&self) -> bool
        ensures told { result ≡ is_some (pending_job self.now.memory) }
        ensures pending { (g : Given) (c : ClientState) → StandsFor g c self.now → result ≡ has_pending c.phase }
    {
        self.memory.is_awaiting()
    }

    /// Whether this is the pending job.
    pub fn is_job(&self, job: &Job) -> bool
        ensures { IsTrue result ↔ (pending_job self.now.memory ≡ Some job.now) }
    {
        self.memory.is_job(job)
    }

    /// The pending job, if one is pending.
    pub fn job(&self, alloc: Global) -> Result<Option<Job>, NoMemory>
        ensures value { IfOk result (λ o. o ≡ pending_job self.now.memory) }
        ensures some { IfOk result (λ o. (g : Given) (c : ClientState) → StandsFor g c self.now → is_some o ≡ has_pending c.phase) }
        ensures fits { IfOk result (λ o. (g : Given) (c : ClientState) → StandsFor g c self.now → IfSome o (λ j. FitsCodes (codes_of g.programs) j)) }
        ensures broken { IsTrue (is_broken self.now) → IsErr result }
    {
        if self.broken {
            return Err(NoMemory);
        }
        if !self.memory.is_awaiting() {
            return Ok(None);
        }
        let at = self.memory.execution.job().copy(alloc)?;
        Ok(Some(Job {
            client: self.memory.plan.client,
            prog: self.memory.prog(),
            serial: self.memory.course.serial,
            at,
        }))
    }

    /// Takes the run of the pending job: its writes go out, then its question; or the execution is prepared. A job with
    /// another serial is stale.
    pub fn ran(
        &mut self,
        alloc: Global,
        done: &Done,
        out: &mut List<Envelope>,
    ) -> Result<RanOut, NoMemory>
        requires { awaits self.old.memory done.now.job.serial ≡ true → pending_job self.old.memory ≡ Some done.now.job }
        ensures stale { IfOk result (λ r. r ≡ RanOut.Stale ↔ awaits self.old.memory done.now.job.serial ≡ false) }
        ensures still { awaits self.old.memory done.now.job.serial ≡ false → self.new ≡ self.old × out.new ≡ out.old }
        ensures used { awaits self.old.memory done.now.job.serial ≡ true → OnOk result ((g : Given) (c : ClientState) (t : Turn) → StandsFor g c self.old → client_step g.rules c Runs ≡ Some t →
            slice_get (codes_of g.programs) done.now.job.prog ≡ Some done.now.code → Does g t self.new out.old out.new) }
        ensures kept { OnErr result (out.new ≡ out.old) }
        ensures broken { IsTrue (is_broken self.old) → IsErr result }
        ensures breaks { OnErr result (IsTrue (is_broken self.new)) }
    {
        if self.broken {
            return Err(NoMemory);
        }
        if !self.memory.awaits(done.job().serial) {
            return Ok(RanOut::Stale);
        }
        self.broken = true;
        let sent = self.memory.ran(alloc, done.seg())?;
        self.memory.plan.send(alloc, sent.as_slice(), out)?;
        self.broken = false;
        Ok(RanOut::Used)
    }

    /// Waits for no more votes: it proposes what the votes so far say. It needs that it can hurry.
    pub fn hurry(&mut self, alloc: Global, out: &mut List<Envelope>) -> Result<(), NoMemory>
        ensures turn { OnOk result ((g : Given) (c : ClientState) (t : Turn) → StandsFor g c self.old → client_step g.rules c Hurries ≡ Some t → Does g t self.new out.old out.new) }
        ensures kept { OnErr result (out.new ≡ out.old) }
        ensures broken { IsTrue (is_broken self.old) → IsErr result }
        ensures breaks { OnErr result (IsTrue (is_broken self.new)) }
    {
        if self.broken {
            return Err(NoMemory);
        }
        self.broken = true;
        let sent = self.memory.hurry(alloc)?;
        self.memory.plan.send(alloc, sent.as_slice(), out)?;
        self.broken = false;
        Ok(())
    }

    /// Takes an envelope. One that means nothing to a client now changes nothing.
    pub fn handle(
        &mut self,
        alloc: Global,
        env: &Envelope,
        out: &mut List<Envelope>,
    ) -> Result<(), NoMemory>
        ensures turn { OnOk result ((g : Given) (c : ClientState) (t : Turn) → StandsFor g c self.old → client_step g.rules c (Comes env.now.from env.now.body) ≡ Some t → Does g t self.new out.old out.new) }
        ensures kept { OnErr result (out.new ≡ out.old) }
        ensures broken { IsTrue (is_broken self.old) → IsErr result }
        ensures breaks { OnErr result (IsTrue (is_broken self.new)) }
    {
        if self.broken {
            return Err(NoMemory);
        }
        self.broken = true;
        let sent = self.memory.comes(alloc, env.from, &env.body)?;
        self.memory.plan.send(alloc, sent.as_slice(), out)?;
        self.broken = false;
        Ok(())
    }
}
