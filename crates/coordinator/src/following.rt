//! How a client follows Notes.

ghost use Rattle.std.specs.Prelude.{◌≡◌, ◌<◌, [], Bool, ℕ, true, false, length, List, Option, Some, None, IsSome, IfOk, OnOk};
ghost use Rattle.std.specs.Ordering.{int_eq};
ghost use Rattle.protocol.specs.Words.{Wid as WidValue, Choice as ChoiceValue, Content as ContentValue};
ghost use Rattle.protocol.specs.Client.State.{ClientState, CountedVote, idle};
ghost use Rattle.protocol.specs.Client.State.Phase.{Running, Prepared};
ghost use Rattle.protocol.specs.Client.Following.{effect, is_named, answers_question, follow_prepared, follow_running, note_at, note_prepared, note_running, prepare_if_idle, prepared_at, rewind, answer_at, answered, surely, with_answer};
ghost use Rattle.protocol.specs.Client.Following.Effect.{Sure as SureEffect, Follow as FollowEffect};
ghost use Rattle.exec_log.specs.Log.{asked_by};
ghost use Rattle.coordinator.specs.Memory.{Given, StandsFor, Takes};
ghost use Rattle.coordinator.specs.Following.{effect_of};

use crate::memory::{Memory, Stage};
use morty_base::{Key, List, NoMemory, Wid, is_same_key, is_same_wid, is_wid_before};
use msg::Body;
use protocol::Held;
use std::alloc::Global;

// What a Note does to a read: nothing, it makes it sure, or the read follows it.
#[derive(Clone, Copy, Debug, PartialEq, Eq)]
pub(crate) enum Effect {
    Nothing,
    Sure,
    Follow,
}

// Whether the label in use is named as gone.
fn is_named(old: Held, gone: Option<Wid>) -> bool
    ensures { result ≡ is_named old gone }
{
    match gone {
        None => false,
        Some(lost) => is_same_wid(old.wid, lost),
    }
}

// Its own write can only turn a read sure; it follows a later write, and any other once its own is gone.
fn effect_on(old: Held, new: Held, gone: Option<Wid>) -> Effect
    ensures { effect_of result ≡ effect old new gone }
{
    if is_same_wid(old.wid, new.wid) {
        if new.sure {
            Effect::Sure
        } else {
            Effect::Nothing
        }
    } else if is_wid_before(old.wid, new.wid) || is_named(old, gone) {
        Effect::Follow
    } else {
        Effect::Nothing
    }
}

// Whether two labels have the same value.
fn is_same_value(old: Held, new: Held) -> bool
    ensures { result ≡ int_eq old.value new.value }
{
    old.value == new.value
}

// The label, sure.
fn surely(label: Held) -> Held
    ensures { result ≡ surely label }
{
    Held {
        wid: label.wid,
        value: label.value,
        sure: true,
    }
}

impl Memory {
    // Where no job is pending, the execution may be ready now.
    fn prepare_if_idle(&mut self, alloc: Global) -> Result<List<Body>, NoMemory>
        ensures { IfOk result (λ out. (g : Given) (c : ClientState) (pending given : Bool) → StandsFor g c self.old → c.phase ≡ Running pending given → Takes g (prepare_if_idle g.rules c) self.new out) }
    {
        let sent = List::new(alloc);
        if self.execution.is_pending() {
            return Ok(sent);
        }
        let out = self.prepare_if_ready(alloc, sent)?;
        Ok(out)
    }

    // The next execution begins at a read with another value; at the limit of executions the client gives up.
    fn rewind(&mut self, alloc: Global, i: usize, new: Held) -> Result<List<Body>, NoMemory>
        requires { i < length self.old.execution.log.reads }
        ensures { IfOk result (λ out. (g : Given) (c : ClientState) (pending given : Bool) → StandsFor g c self.old → c.phase ≡ Running pending given → Takes g (rewind g.rules c i new) self.new out) }
    {
        if !self.has_execution_left() {
            let sent = self.give_up(alloc)?;
            return Ok(sent);
        }
        self.execution.rewind(alloc, i, new)?;
        self.next_exec();
        self.bump();
        Ok(List::new(alloc))
    }

    // A read has another label of the same value.
    fn follow(&mut self, alloc: Global, i: usize, new: Held) -> Result<List<Body>, NoMemory>
        requires { i < length self.old.execution.log.reads }
        ensures { IfOk result (λ out. (g : Given) (c : ClientState) (pending given : Bool) → StandsFor g c self.old → c.phase ≡ Running pending given → (answer_at c i).label.value ≡ new.value →
            Takes g (prepare_if_idle g.rules (with_answer c i (record { label = new; next = None }))) self.new out) }
    {
        self.execution.relabel(i, new.wid, new.sure);
        let out = self.prepare_if_idle(alloc)?;
        Ok(out)
    }

    // A Note about a read that was answered.
    fn note_at(
        &mut self,
        alloc: Global,
        i: usize,
        new: Held,
        gone: Option<Wid>,
    ) -> Result<List<Body>, NoMemory>
        requires { i < length self.old.execution.log.reads }
        ensures { IfOk result (λ out. (g : Given) (c : ClientState) (pending given : Bool) → StandsFor g c self.old → c.phase ≡ Running pending given → Takes g (note_at g.rules c new gone (Some i)) self.new out) }
    {
        let old = self.execution.label(i);
        match effect_on(old, new, gone) {
            Effect::Nothing => Ok(List::new(alloc)),
            Effect::Sure => {
                let out = self.follow(alloc, i, surely(old))?;
                Ok(out)
            }
            Effect::Follow => {
                let out = self.follow_to(alloc, i, old, new)?;
                Ok(out)
            }
        }
    }

    // The read follows: the same value changes the label alone.
    fn follow_to(
        &mut self,
        alloc: Global,
        i: usize,
        old: Held,
        new: Held,
    ) -> Result<List<Body>, NoMemory>
        requires { i < length self.old.execution.log.reads }
        ensures { IfOk result (λ out. (g : Given) (c : ClientState) (pending given : Bool) → StandsFor g c self.old → c.phase ≡ Running pending given → old ≡ (answer_at c i).label →
            Takes g (follow_running g.rules c i (answer_at c i) new FollowEffect) self.new out) }
    {
        if is_same_value(old, new) {
            let out = self.follow(alloc, i, new)?;
            return Ok(out);
        }
        let out = self.rewind(alloc, i, new)?;
        Ok(out)
    }

    // The question is answered: the job that goes on with the answer is pending.
    fn answer(&mut self, alloc: Global, new: Held) -> Result<List<Body>, NoMemory>
        requires { IsSome (asked_by self.old.execution.log.next) }
        ensures { IfOk result (λ out. (g : Given) (c : ClientState) (pending given : Bool) → StandsFor g c self.old → c.phase ≡ Running pending given → Takes g (idle (answered c new)) self.new out) }
    {
        self.execution.answer(alloc, new)?;
        self.stage = Stage::Running { given: true };
        self.bump();
        Ok(List::new(alloc))
    }

    // Whether the key is the one asked.
    fn asks(&self, key: Key) -> bool
        ensures asks { result ≡ answers_question (asked_by self.now.execution.log.next) key }
        ensures some { result ≡ true → IsSome (asked_by self.now.execution.log.next) }
    {
        match self.execution.asked() {
            None => false,
            Some(asked) => is_same_key(key, asked),
        }
    }

    /// Takes a Note while nothing is prepared.
    pub(crate) fn note_running(
        &mut self,
        alloc: Global,
        key: Key,
        new: Held,
        gone: Option<Wid>,
    ) -> Result<List<Body>, NoMemory>
        ensures { IfOk result (λ out. (g : Given) (c : ClientState) (pending given : Bool) → StandsFor g c self.old → c.phase ≡ Running pending given → Takes g (note_running g.rules c pending key new gone) self.new out) }
    {
        if self.asks(key) {
            let out = self.answer(alloc, new)?;
            return Ok(out);
        }
        let Some(i) = self.execution.place(key) else {
            return Ok(List::new(alloc));
        };
        let out = self.note_at(alloc, i, new, gone)?;
        Ok(out)
    }

    // A read of the prepared execution keeps a next label beside the one in use.
    fn put_next(&mut self, i: usize, next: Held) -> Result<(), NoMemory>
        requires { i < length self.old.execution.log.reads }
        ensures { OnOk result ((g : Given) (c : ClientState) (content : ContentValue) (votes : List CountedVote) (proposal : Option ChoiceValue) (accepts : List ℕ) → StandsFor g c self.old →
            c.phase ≡ Prepared content votes proposal accepts → StandsFor g (follow_prepared c i (answer_at c i) next FollowEffect) self.new) }
    {
        self.execution.set_next(i, next)?;
        Ok(())
    }

    // Its next label is sure, where one stands.
    fn put_sure(&mut self, i: usize, new: Held) -> Result<(), NoMemory>
        requires { i < length self.old.execution.log.reads }
        ensures { OnOk result ((g : Given) (c : ClientState) (content : ContentValue) (votes : List CountedVote) (proposal : Option ChoiceValue) (accepts : List ℕ) → StandsFor g c self.old →
            c.phase ≡ Prepared content votes proposal accepts → StandsFor g (follow_prepared c i (answer_at c i) new SureEffect) self.new) }
    {
        let Some(next) = self.execution.next(i) else {
            return Ok(());
        };
        self.put_next(i, surely(next))?;
        Ok(())
    }

    // A Note about a read of the prepared execution.
    fn prepared_at(&mut self, i: usize, new: Held, gone: Option<Wid>) -> Result<(), NoMemory>
        requires { i < length self.old.execution.log.reads }
        ensures { OnOk result ((g : Given) (c : ClientState) (content : ContentValue) (votes : List CountedVote) (proposal : Option ChoiceValue) (accepts : List ℕ) → StandsFor g c self.old →
            c.phase ≡ Prepared content votes proposal accepts → StandsFor g (prepared_at c new gone (Some i)) self.new) }
    {
        let old = self.execution.next_label(i);
        match effect_on(old, new, gone) {
            Effect::Nothing => Ok(()),
            Effect::Sure => {
                self.put_sure(i, new)?;
                Ok(())
            }
            Effect::Follow => {
                self.put_next(i, new)?;
                Ok(())
            }
        }
    }

    /// Takes a Note while an execution is prepared. It sends nothing.
    pub(crate) fn note_prepared(
        &mut self,
        alloc: Global,
        key: Key,
        new: Held,
        gone: Option<Wid>,
    ) -> Result<List<Body>, NoMemory>
        ensures { IfOk result (λ out. (g : Given) (c : ClientState) (content : ContentValue) (votes : List CountedVote) (proposal : Option ChoiceValue) (accepts : List ℕ) → StandsFor g c self.old →
            c.phase ≡ Prepared content votes proposal accepts → Takes g (idle (note_prepared g.rules c key new gone)) self.new out) }
    {
        let Some(i) = self.execution.place(key) else {
            return Ok(List::new(alloc));
        };
        self.prepared_at(i, new, gone)?;
        Ok(List::new(alloc))
    }
}
