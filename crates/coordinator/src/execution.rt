ghost use Rattle.std.specs.Prelude.{◌≡◌, ◌<◌, ◌≤◌, ◌++◌, [], ◌∷◌, length, take, map, get_or, set, true, false, Option, Some, None, is_none, IsTrue, IsSome, IfSome, IfOk, OnOk, option_map};
ghost use Rattle.std.specs.List.{list_any, list_all};
ghost use Rattle.protocol.specs.Words.{Ending as EndingValue};
ghost use Rattle.protocol.specs.Client.Following.{place_of, no_answer, next_label, surely};
ghost use Rattle.protocol.specs.Client.Deciding.{cut, is_change, moved_on, other_value};
ghost use Rattle.continuation.specs.Job.{IsJobRun};
ghost use Rattle.exec_log.specs.Log.{asked_by, ending_by, labelled};
ghost use Rattle.coordinator.specs.Answers.{held_of, next_at};
ghost use Rattle.coordinator.specs.Moving.{first_other, labelled_by, moved_before};

use crate::labels::{are_sure, first_other, has_change, held_of, next_at, place_of, set_next};
use continuation::{JobAt, Seg};
use exec_log::ExecLog;
use morty_base::{Ending, Key, List, NoMemory, Wid};
use msg::{Content, Write};
use protocol::Held;
use std::alloc::Global;

/// An execution of a transaction. Like its log it is broken once a call that changes it ran out of memory.
#[derive(Debug, Drop)]
pub struct Execution {
    log: ExecLog,
    // The last job, which is pending while the log waits for its segment.
    job: JobAt,
    // The labels that reads take in the next execution, by place.
    nexts: List<Option<Held>>,
}

impl Execution {
    ghost use Rattle.coordinator.specs.Execution.{Loaded, StandsFor, answers_of, keys_of, is_pending, fresh_execution, content_of};

    /// An execution whose first job is pending.
    pub fn new(alloc: Global) -> Execution
        ensures value { result ≡ fresh_execution }
        ensures stands { (o : Option Loaded) → StandsFor o result }
    {
        Execution {
            log: ExecLog::new(alloc),
            job: JobAt::Start,
            nexts: List::new(alloc),
        }
    }

    /// Whether a job is pending.
    pub fn is_pending(&self) -> bool
        ensures { result ≡ is_pending self.now }
    {
        self.log.is_pending()
    }

    /// The last job.
    pub fn job(&self) -> &JobAt
        ensures { result.now ≡ self.now.job }
    {
        &self.job
    }

    /// The key of the question, where one stands.
    pub fn asked(&self) -> Option<Key>
        ensures { result ≡ asked_by self.now.log.next }
    {
        self.log.asked()
    }

    /// The ending, where the execution has one.
    pub fn ending(&self) -> Option<Ending>
        ensures { result ≡ ending_by self.now.log.next }
    {
        self.log.ending()
    }

    /// The writes that it made.
    pub fn writes(&self) -> &[Write]
        ensures { result.now ≡ self.now.log.writes }
    {
        self.log.writes()
    }

    /// The place of the read of a key.
    pub fn place(&self, key: Key) -> Option<usize>
        ensures place { result ≡ place_of key 0 (keys_of self.now) }
        ensures within { IfSome result (λ i. i < length self.now.log.reads) }
    {
        place_of(key, self.log.entries())
    }

    /// The label of the read at a place.
    pub fn label(&self, i: usize) -> Held
        requires { i < length self.now.log.reads }
        ensures { result ≡ (get_or (answers_of self.now) i no_answer).label }
    {
        held_of(self.log.read(i))
    }

    /// The label that the read at a place takes in the next execution, where it is another one.
    pub fn next(&self, i: usize) -> Option<Held>
        requires { i < length self.now.log.reads }
        ensures { result ≡ (get_or (answers_of self.now) i no_answer).next }
    {
        next_at(self.nexts.as_slice(), i)
    }

    /// The label with which Notes about the read at a place are compared while the execution is prepared.
    pub fn next_label(&self, i: usize) -> Held
        requires { i < length self.now.log.reads }
        ensures { result ≡ next_label (get_or (answers_of self.now) i no_answer) }
    {
        match self.next(i) {
            Some(next) => next,
            None => self.label(i),
        }
    }

    /// Whether each read is sure.
    pub fn is_sure(&self) -> bool
        ensures { result ≡ list_all (λ a. a.label.sure) (answers_of self.now) }
    {
        are_sure(self.log.entries())
    }

    /// Whether some read has a change pending.
    pub fn has_change(&self) -> bool
        ensures { result ≡ list_any is_change (answers_of self.now) }
    {
        has_change(self.log.entries(), self.nexts.as_slice())
    }

    /// Takes the segment of the pending job.
    pub fn take(&mut self, alloc: Global, seg: &Seg) -> Result<(), NoMemory>
        requires { IsTrue (is_pending self.old) }
        ensures stands { OnOk result ((l : Loaded) → StandsFor (Some l) self.old → IsJobRun l.code self.old.job seg.now → StandsFor (Some l) self.new) }
        ensures answers { OnOk result (answers_of self.new ≡ answers_of self.old) }
        ensures next { OnOk result (self.new.log.next ≡ Some seg.now.next) }
        ensures nexts { self.new.nexts ≡ self.old.nexts }
    {
        self.log.take(alloc, seg)?;
        Ok(())
    }

    /// Answers the question: the job that goes on with the answer is pending.
    pub fn answer(&mut self, alloc: Global, label: Held) -> Result<(), NoMemory>
        requires { IsSome (asked_by self.old.log.next) }
        ensures stands { OnOk result ((o : Option Loaded) → StandsFor o self.old → StandsFor o self.new) }
        ensures answers { OnOk result (self.old.nexts ≡ [] → answers_of self.new ≡ answers_of self.old ++ record { label = label; next = None } ∷ []) }
        ensures pending { OnOk result (is_pending self.new ≡ true) }
        ensures nexts { self.new.nexts ≡ self.old.nexts }
    {
        self.job = self.log.answer(alloc, label.wid, label.value, label.sure)?;
        Ok(())
    }

    /// Goes back to a read and answers it anew: the job that goes on with the answer is pending.
    pub fn rewind(&mut self, alloc: Global, i: usize, label: Held) -> Result<(), NoMemory>
        requires { self.old.log.broken ≡ false → i < length self.old.log.reads }
        ensures stands { OnOk result ((o : Option Loaded) → StandsFor o self.old → StandsFor o self.new) }
        ensures answers { OnOk result (self.old.log.broken ≡ false → self.old.nexts ≡ [] → answers_of self.new ≡ take i (answers_of self.old) ++ record { label = label; next = None } ∷ []) }
        ensures pending { OnOk result (is_pending self.new ≡ true) }
        ensures nexts { self.new.nexts ≡ self.old.nexts }
    {
        self.job = self
            .log
            .rewind(alloc, i, label.wid, label.value, label.sure)?;
        Ok(())
    }

    /// Gives the read at a place another label. Its value stays.
    pub fn relabel(&mut self, i: usize, wid: Wid, sure: bool)
        requires { self.old.log.broken ≡ false → i < length self.old.log.reads }
        ensures stands { (o : Option Loaded) → StandsFor o self.old → StandsFor o self.new }
        ensures answers { self.old.log.broken ≡ false → answers_of self.new ≡ set (answers_of self.old) i (record (get_or (answers_of self.old) i no_answer) { label = record { wid = wid; value = (get_or (answers_of self.old) i no_answer).label.value; sure = sure } }) }
        ensures log { self.old.log.broken ≡ false → self.new ≡ record self.old { log = record self.old.log { reads = labelled self.old.log.reads i wid sure } } }
        ensures broken { self.new.log.broken ≡ self.old.log.broken }
    {
        self.log.label(i, wid, sure);
    }

    /// Gives the read at a place another next label.
    pub fn set_next(&mut self, i: usize, label: Held) -> Result<(), NoMemory>
        requires { i < length self.old.log.reads }
        ensures stands { OnOk result ((o : Option Loaded) → StandsFor o self.old → StandsFor o self.new) }
        ensures answers { OnOk result (answers_of self.new ≡ set (answers_of self.old) i (record (get_or (answers_of self.old) i no_answer) { next = Some label })) }
        ensures log { self.new.log ≡ self.old.log }
    {
        set_next(&mut self.nexts, i, label)
    }

    // The read at a place takes its next label, if it has one.
    fn move_at(&mut self, i: usize)
        requires { self.old.log.broken ≡ false → i < length self.old.log.reads }
        ensures stands { (o : Option Loaded) → StandsFor o self.old → StandsFor o self.new }
        ensures log { self.old.log.broken ≡ false → self.new ≡ record self.old { log = record self.old.log { reads = labelled_by (next_at self.old.nexts i) self.old.log.reads i } } }
        ensures broken { self.new.log.broken ≡ self.old.log.broken }
    {
        if let Some(next) = next_at(self.nexts.as_slice(), i) {
            self.relabel(i, next.wid, next.sure);
        }
    }

    // The first so many reads take their next labels.
    fn move_before(&mut self, end: usize)
        requires { self.old.log.broken ≡ false → end ≤ length self.old.log.reads }
        ensures stands { (o : Option Loaded) → StandsFor o self.old → StandsFor o self.new }
        ensures log { self.old.log.broken ≡ false → self.new ≡ record self.old { log = record self.old.log { reads = moved_before end self.old.log.reads self.old.nexts } } }
        ensures broken { self.new.log.broken ≡ self.old.log.broken }
    {
        for i in 0..end {
            self.move_at(i);
        }
    }

    // Each read takes its next label, where all keep their values.
    fn move_all(&mut self, alloc: Global)
        requires { first_other self.old.log.reads self.old.nexts ≡ None }
        ensures stands { (o : Option Loaded) → StandsFor o self.old → StandsFor o self.new }
        ensures answers { self.old.log.broken ≡ false → answers_of self.new ≡ map moved_on (answers_of self.old) }
        ensures next { self.old.log.broken ≡ false → self.new.log.next ≡ self.old.log.next }
        ensures nexts { self.new.nexts ≡ [] }
    {
        let end = self.log.reads();
        self.move_before(end);
        self.nexts = List::new(alloc);
    }

    // Goes back to the first read whose value changes.
    fn move_to(&mut self, alloc: Global, i: usize) -> Result<(), NoMemory>
        requires other { first_other self.old.log.reads self.old.nexts ≡ Some i }
        requires within { i < length self.old.log.reads }
        ensures stands { OnOk result ((o : Option Loaded) → StandsFor o self.old → StandsFor o self.new) }
        ensures answers { OnOk result (self.old.log.broken ≡ false → answers_of self.new ≡ cut (answers_of self.old)) }
        ensures pending { OnOk result (is_pending self.new ≡ true) }
        ensures nexts { OnOk result (self.new.nexts ≡ []) }
    {
        let next = self.next_label(i);
        self.move_before(i);
        self.nexts = List::new(alloc);
        self.rewind(alloc, i, next)?;
        Ok(())
    }

    /// Begins the next execution: each read takes its next label. Where a value is thereby another one, the log goes back
    /// to the first such read, and the job that goes on from there is pending. Tells whether that is so.
    pub fn move_on(&mut self, alloc: Global) -> Result<bool, NoMemory>
        ensures stands { OnOk result ((o : Option Loaded) → StandsFor o self.old → StandsFor o self.new) }
        ensures other { IfOk result (λ other. other ≡ list_any other_value (answers_of self.old)) }
        ensures back { IfOk result (λ other. self.old.log.broken ≡ false → other ≡ true → answers_of self.new ≡ cut (answers_of self.old)) }
        ensures pending { IfOk result (λ other. other ≡ true → is_pending self.new ≡ true) }
        ensures kept { IfOk result (λ other. self.old.log.broken ≡ false → other ≡ false → answers_of self.new ≡ map moved_on (answers_of self.old)) }
        ensures next { IfOk result (λ other. self.old.log.broken ≡ false → other ≡ false → self.new.log.next ≡ self.old.log.next) }
        ensures nexts { OnOk result (self.new.nexts ≡ []) }
    {
        let Some(i) = first_other(self.log.entries(), self.nexts.as_slice()) else {
            self.move_all(alloc);
            return Ok(false);
        };
        self.move_to(alloc, i)?;
        Ok(true)
    }

    /// What an execution that ended did.
    pub fn content(&self, alloc: Global) -> Result<Content, NoMemory>
        requires { IsSome (ending_by self.now.log.next) }
        ensures { IfOk result (λ k. (l : Loaded) (how : EndingValue) → StandsFor (Some l) self.now → ending_by self.now.log.next ≡ Some how → k ≡ content_of self.now how) }
    {
        let content = self.log.content(alloc)?;
        Ok(content)
    }
}
