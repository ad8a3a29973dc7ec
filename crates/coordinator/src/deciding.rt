//! What follows from a decision: the end of the attempt, or its next execution.

ghost use Rattle.std.specs.Prelude.{◌≡◌, ◌&&◌, ◌+◌, ◌∷◌, [], ℕ, true, false, nat_lt, None, List, Option, IfOk};
ghost use Rattle.std.specs.List.{list_any};
ghost use Rattle.protocol.specs.Words.{Choice as ChoiceValue, Abandon, Content as ContentValue};
ghost use Rattle.protocol.specs.Client.State.{ClientState, CountedVote};
ghost use Rattle.protocol.specs.Client.State.Phase.{Prepared};
ghost use Rattle.protocol.specs.Client.Attempts.{bumped, is_between};
ghost use Rattle.protocol.specs.Client.Deciding.{conclude, give_up, is_change, next_execution};
ghost use Rattle.coordinator.specs.Memory.{Given, StandsFor, Takes, rerun_memory};

use crate::memory::{Memory, Stage};
use morty_base::{List, NoMemory};
use msg::{Body, Choice};
use protocol::Fate;
use std::alloc::Global;

/// One body.
pub(crate) fn only(alloc: Global, body: Body) -> Result<List<Body>, NoMemory>
    ensures { IfOk result (λ l. l ≡ body ∷ []) }
{
    let mut sent = List::new(alloc);
    sent.push(body)?;
    Ok(sent)
}

impl Memory {
    // The attempt ends.
    pub(crate) fn end(&mut self, fate: Fate)
        ensures { self.new ≡ record self.old { course = record self.old.course { fate = fate }; stage = Stage.Between } }
    {
        self.course.fate = fate;
        self.stage = Stage::Between;
    }

    /// Whether an execution is left to this version.
    pub(crate) fn has_execution_left(&self) -> bool
        ensures { (g : Given) (c : ClientState) → StandsFor g c self.now → result ≡ nat_lt (c.exec.eid + 1) g.rules.execs }
    {
        u64::from(self.course.exec.eid) + 1 < u64::from(self.plan.rules.execs)
    }

    // Whether a change is pending and an execution is left.
    fn goes_on(&self) -> bool
        ensures { (g : Given) (c : ClientState) → StandsFor g c self.now → result ≡ (list_any is_change c.answers && nat_lt (c.exec.eid + 1) g.rules.execs) }
    {
        self.execution.has_change() && self.has_execution_left()
    }

    // The next execution of the version begins, which runs or goes on.
    pub(crate) fn next_exec(&mut self)
        ensures { self.new ≡ rerun_memory self.old }
    {
        self.course.exec.eid = self.course.exec.eid.saturating_add(1);
        self.stage = Stage::Running { given: false };
    }

    // One more job.
    pub(crate) fn bump(&mut self)
        ensures { self.new ≡ record self.old { course = record self.old.course { serial = bumped self.old.course.serial } } }
    {
        self.course.serial = self.course.serial.saturating_add(1);
    }

    /// Where nothing is prepared, the client abandons the execution and the attempt.
    pub(crate) fn give_up(&mut self, alloc: Global) -> Result<List<Body>, NoMemory>
        ensures { IfOk result (λ out. (g : Given) (c : ClientState) → StandsFor g c self.old → is_between c.phase ≡ false → Takes g (give_up c) self.new out) }
    {
        self.end(Fate::Aborted);
        let sent = only(
            alloc,
            Body::Decide {
                exec: self.course.exec,
                choice: Choice::Abandon,
                content: None,
            },
        )?;
        Ok(sent)
    }

    // The next execution begins: each read takes its next label.
    fn next_execution(
        &mut self,
        alloc: Global,
        mut sent: List<Body>,
    ) -> Result<List<Body>, NoMemory>
        ensures { IfOk result (λ out. (g : Given) (c : ClientState) (content : ContentValue) (votes : List CountedVote) (proposal : Option ChoiceValue) (accepts : List ℕ) → StandsFor g c self.old →
            c.phase ≡ Prepared content votes proposal accepts → nat_lt (c.exec.eid + 1) g.rules.execs ≡ true → Takes g (next_execution g.rules c sent) self.new out) }
    {
        let other = self.execution.move_on(alloc)?;
        if other {
            self.next_exec();
            self.bump();
            return Ok(sent);
        }
        self.next_exec();
        let puts = self.puts(alloc, true)?;
        sent.append(puts)?;
        let out = self.prepare_if_ready(alloc, sent)?;
        Ok(out)
    }

    // After an Abandon the next execution begins where a change is pending and one is left; else the attempt ends.
    fn abandon(&mut self, alloc: Global, sent: List<Body>) -> Result<List<Body>, NoMemory>
        ensures { IfOk result (λ out. (g : Given) (c : ClientState) (content : ContentValue) (votes : List CountedVote) (proposal : Option ChoiceValue) (accepts : List ℕ) → StandsFor g c self.old →
            c.phase ≡ Prepared content votes proposal accepts → Takes g (conclude g.rules c Abandon sent) self.new out) }
    {
        if !self.goes_on() {
            self.end(Fate::Aborted);
            return Ok(sent);
        }
        let out = self.next_execution(alloc, sent)?;
        Ok(out)
    }

    /// What follows from a decision on the prepared execution.
    pub(crate) fn conclude(
        &mut self,
        alloc: Global,
        choice: Choice,
        sent: List<Body>,
    ) -> Result<List<Body>, NoMemory>
        ensures { IfOk result (λ out. (g : Given) (c : ClientState) (content : ContentValue) (votes : List CountedVote) (proposal : Option ChoiceValue) (accepts : List ℕ) → StandsFor g c self.old →
            c.phase ≡ Prepared content votes proposal accepts → Takes g (conclude g.rules c choice sent) self.new out) }
    {
        match choice {
            Choice::Commit => {
                self.end(Fate::Committed);
                Ok(sent)
            }
            Choice::Abandon => {
                let out = self.abandon(alloc, sent)?;
                Ok(out)
            }
        }
    }
}
