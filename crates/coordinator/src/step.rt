//! What an envelope does, by the stage of the execution.

ghost use Rattle.std.specs.Prelude.{◌≡◌, ◌&&◌, [], Bool, false, ℕ, List, Option, IfOk};
ghost use Rattle.protocol.specs.Words.{Choice as ChoiceValue, Content as ContentValue, same_exec, same_version};
ghost use Rattle.protocol.specs.Client.State.{ClientState, CountedVote, idle, turn_when};
ghost use Rattle.protocol.specs.Client.State.Phase.{Prepared, Running};
ghost use Rattle.protocol.specs.Client.Attempts.{is_between};
ghost use Rattle.protocol.specs.Client.Deciding.{conclude, give_up};
ghost use Rattle.protocol.specs.Client.Following.{note_prepared, note_running};
ghost use Rattle.protocol.specs.Client.Step.{comes, comes_prepared, comes_running, is_warden, told_running};
ghost use Rattle.coordinator.specs.Memory.{Given, StandsFor, Takes};
ghost use Rattle.coordinator.specs.Step.{fate_of};

use crate::memory::{Memory, Stage};
use morty_base::{Exec, Key, List, NoMemory, NodeId, Version, Wid, is_same_exec, is_same_version};
use msg::{Body, Choice};
use protocol::{Fate, Held};
use std::alloc::Global;

fn is_warden(node: NodeId) -> bool
    ensures { result ≡ is_warden node }
{
    match node {
        NodeId::Warden(_) => true,
        _ => false,
    }
}

// What becomes of an attempt whose execution is decided.
fn fate_of(choice: Choice) -> Fate
    ensures { result ≡ fate_of choice }
{
    match choice {
        Choice::Commit => Fate::Committed,
        Choice::Abandon => Fate::Aborted,
    }
}

impl Memory {
    fn is_version(&self, ver: Version) -> bool
        ensures { (g : Given) (c : ClientState) → StandsFor g c self.now → result ≡ same_version ver c.exec.ver }
    {
        is_same_version(ver, self.course.exec.ver)
    }

    // Whether a warden speaks of the current execution.
    fn is_told(&self, from: NodeId, exec: Exec) -> bool
        ensures { (g : Given) (c : ClientState) → StandsFor g c self.now → result ≡ (is_warden from && same_exec exec c.exec) }
    {
        is_warden(from) && is_same_exec(exec, self.course.exec)
    }

    // A Note while nothing is prepared.
    fn noted_running(
        &mut self,
        alloc: Global,
        ver: Version,
        key: Key,
        new: Held,
        gone: Option<Wid>,
    ) -> Result<List<Body>, NoMemory>
        ensures { IfOk result (λ out. (g : Given) (c : ClientState) (pending given : Bool) → StandsFor g c self.old → c.phase ≡ Running pending given →
            Takes g (turn_when (same_version ver c.exec.ver) c (note_running g.rules c pending key new gone)) self.new out) }
    {
        if !self.is_version(ver) {
            return Ok(List::new(alloc));
        }
        let out = self.note_running(alloc, key, new, gone)?;
        Ok(out)
    }

    // The version is too old to read.
    fn too_old(&mut self, alloc: Global, ver: Version) -> Result<List<Body>, NoMemory>
        ensures { IfOk result (λ out. (g : Given) (c : ClientState) → StandsFor g c self.old → is_between c.phase ≡ false → Takes g (turn_when (same_version ver c.exec.ver) c (give_up c)) self.new out) }
    {
        if !self.is_version(ver) {
            return Ok(List::new(alloc));
        }
        let out = self.give_up(alloc)?;
        Ok(out)
    }

    // A decision while nothing is prepared: that of a warden ends the attempt.
    fn told_running(
        &mut self,
        alloc: Global,
        from: NodeId,
        exec: Exec,
        choice: Choice,
    ) -> List<Body>
        ensures { (g : Given) (c : ClientState) → StandsFor g c self.old → is_between c.phase ≡ false → Takes g (turn_when (is_warden from && same_exec exec c.exec) c (told_running c choice)) self.new result }
    {
        if !self.is_told(from, exec) {
            return List::new(alloc);
        }
        self.end(fate_of(choice));
        List::new(alloc)
    }

    // What an envelope does while nothing is prepared.
    fn comes_running(
        &mut self,
        alloc: Global,
        from: NodeId,
        body: &Body,
    ) -> Result<List<Body>, NoMemory>
        ensures { IfOk result (λ out. (g : Given) (c : ClientState) (pending given : Bool) → StandsFor g c self.old → c.phase ≡ Running pending given →
            Takes g (comes_running g.rules c pending from body.now) self.new out) }
    {
        match body {
            Body::Note {
                ver,
                key,
                wid,
                value,
                sure,
                gone,
            } => {
                let new = Held {
                    wid: *wid,
                    value: *value,
                    sure: *sure,
                };
                let out = self.noted_running(alloc, *ver, *key, new, *gone)?;
                Ok(out)
            }
            Body::TooOld { ver, .. } => {
                let out = self.too_old(alloc, *ver)?;
                Ok(out)
            }
            Body::Decide { exec, choice, .. } => {
                Ok(self.told_running(alloc, from, *exec, *choice))
            }
            _ => Ok(List::new(alloc)),
        }
    }

    // A Note while an execution is prepared.
    fn noted_prepared(
        &mut self,
        alloc: Global,
        ver: Version,
        key: Key,
        new: Held,
        gone: Option<Wid>,
    ) -> Result<List<Body>, NoMemory>
        ensures { IfOk result (λ out. (g : Given) (c : ClientState) (content : ContentValue) (votes : List CountedVote) (proposal : Option ChoiceValue) (accepts : List ℕ) → StandsFor g c self.old →
            c.phase ≡ Prepared content votes proposal accepts → Takes g (turn_when (same_version ver c.exec.ver) c (idle (note_prepared g.rules c key new gone))) self.new out) }
    {
        if !self.is_version(ver) {
            return Ok(List::new(alloc));
        }
        let out = self.note_prepared(alloc, key, new, gone)?;
        Ok(out)
    }

    // A decision while an execution is prepared: that of a warden decides it.
    fn told_prepared(
        &mut self,
        alloc: Global,
        from: NodeId,
        exec: Exec,
        choice: Choice,
    ) -> Result<List<Body>, NoMemory>
        ensures { IfOk result (λ out. (g : Given) (c : ClientState) (content : ContentValue) (votes : List CountedVote) (proposal : Option ChoiceValue) (accepts : List ℕ) → StandsFor g c self.old →
            c.phase ≡ Prepared content votes proposal accepts → Takes g (turn_when (is_warden from && same_exec exec c.exec) c (conclude g.rules c choice [])) self.new out) }
    {
        if !self.is_told(from, exec) {
            return Ok(List::new(alloc));
        }
        let out = self.conclude(alloc, choice, List::new(alloc))?;
        Ok(out)
    }

    // What an envelope does while an execution is prepared.
    fn comes_prepared(
        &mut self,
        alloc: Global,
        from: NodeId,
        body: &Body,
    ) -> Result<List<Body>, NoMemory>
        ensures { IfOk result (λ out. (g : Given) (c : ClientState) (content : ContentValue) (votes : List CountedVote) (proposal : Option ChoiceValue) (accepts : List ℕ) → StandsFor g c self.old →
            c.phase ≡ Prepared content votes proposal accepts → Takes g (comes_prepared g.rules c content votes proposal accepts from body.now) self.new out) }
    {
        match body {
            Body::Note {
                ver,
                key,
                wid,
                value,
                sure,
                gone,
            } => {
                let new = Held {
                    wid: *wid,
                    value: *value,
                    sure: *sure,
                };
                let out = self.noted_prepared(alloc, *ver, *key, new, *gone)?;
                Ok(out)
            }
            Body::Decide { exec, choice, .. } => {
                let out = self.told_prepared(alloc, from, *exec, *choice)?;
                Ok(out)
            }
            Body::Vote { exec, vote } => {
                let out = self.counts_vote(alloc, from, *exec, *vote)?;
                Ok(out)
            }
            Body::Accepted { exec, view } => {
                let out = self.counts_accept(alloc, from, *exec, *view)?;
                Ok(out)
            }
            _ => Ok(List::new(alloc)),
        }
    }

    /// What an envelope does. Between attempts it changes nothing.
    pub(crate) fn comes(
        &mut self,
        alloc: Global,
        from: NodeId,
        body: &Body,
    ) -> Result<List<Body>, NoMemory>
        ensures { IfOk result (λ out. (g : Given) (c : ClientState) → StandsFor g c self.old → Takes g (comes g.rules c c.phase from body.now) self.new out) }
    {
        match &self.stage {
            Stage::Between => Ok(List::new(alloc)),
            Stage::Running { .. } => {
                let out = self.comes_running(alloc, from, body)?;
                Ok(out)
            }
            Stage::Prepared(_) => {
                let out = self.comes_prepared(alloc, from, body)?;
                Ok(out)
            }
        }
    }
}
