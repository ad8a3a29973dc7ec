ghost use Rattle.std.specs.Prelude.{◌≡◌, ◌<◌, ◌++◌, [], ◌∷◌, List, map, take, length, true, false, Some, None, slice_get, slice_set, IsSome, IsErr, IfSome, IfOk, OnOk, OnErr, is_none};
ghost use Rattle.txn_lang.specs.Keys.{Entry};
ghost use Rattle.txn_lang.specs.Laws.{values_of};
ghost use Rattle.txn_lang.specs.Program.{Program, replay_of, serial_of};
ghost use Rattle.flat_code.specs.Operation.{Flat};
ghost use Rattle.exec_log.specs.Entries.{read_of, kept_writes};
ghost use Rattle.exec_log.specs.Log.{fresh_log, answers_of, asked_by, ending_by, labelled_read, labelled, answered_at};
ghost use Rattle.exec_log.specs.Standing.{StandsFor, IsLastRun, GoesOnAt, IsLastJob, IsContentOf};

use crate::copies::{add_writes, content_reads, copy_next};
use crate::knowledge::knowledge;
use crate::read::{LogRead, Place};
use continuation::{JobAt, Next, Seg};
use morty_base::{Ending, Key, List, NoMemory, Wid};
use msg::{Content, Write};
use std::alloc::Global;
use std::marker::Model;

/// An execution's log. It is broken once a call that changes it ran out of memory: from then on each call that can
/// refuse answers NoMemory, and what the others answer means nothing.
#[derive(Debug, Drop)]
pub struct ExecLog {
    reads: Vec<LogRead>,
    // The place at each read.
    places: Vec<Place>,
    writes: Vec<Write>,
    out: Vec<i64>,
    // How the last segment taken stopped; none while a job is pending.
    next: Option<Next>,
    broken: bool,
}

impl Model for ExecLog {
    ghost use Rattle.std.specs.Prelude.{◌≤◌, length};
    ghost use Rattle.exec_log.specs.Log.{Log};
    ghost use Rattle.std.specs.Coded.{codes};

    ghost Value = { Log };

    ghost coded = { Prim.hlevel codes };

    ghost view = { λ l. record { reads = l.reads.items; places = l.places.items; writes = l.writes.items; out = l.out.items; next = l.next; broken = l.broken } };

    ghost invariant = { λ l. length l.reads.items ≤ length l.places.items };
}

// The writes that an ending keeps.
fn kept(ending: Ending, writes: &[Write]) -> &[Write]
    ensures { result.now ≡ kept_writes ending writes.now }
{
    match ending {
        Ending::Done => writes,
        _ => &[],
    }
}

impl ExecLog {
    /// The log of an execution whose first job, from the start, is pending.
    pub fn new(alloc: Global) -> ExecLog
        ensures value { result ≡ fresh_log }
        ensures stands { (code : Flat) (p : Program) → StandsFor code p result }
    {
        ExecLog {
            reads: Vec::new(alloc),
            places: Vec::new(alloc),
            writes: Vec::new(alloc),
            out: Vec::new(alloc),
            next: None,
            broken: false,
        }
    }

    /// Takes the segment of the pending job.
    pub fn take(&mut self, alloc: Global, seg: &Seg) -> Result<(), NoMemory>
        requires pending { self.old.broken ≡ false → self.old.next ≡ None }
        ensures stands { OnOk result ((code : Flat) (p : Program) → StandsFor code p self.old → IsLastRun code p self.old seg.now → StandsFor code p self.new) }
        ensures reads { OnOk result (self.new.reads ≡ self.old.reads) }
        ensures next { OnOk result (self.new.next ≡ Some seg.now.next) }
        ensures whole { OnOk result (self.new.broken ≡ false) }
        ensures err { OnErr result (self.new.broken ≡ true) }
        ensures broken { self.old.broken ≡ true → IsErr result }
    {
        if self.broken {
            return Err(NoMemory);
        }
        self.broken = true;
        add_writes(&mut self.writes, seg.wrote.as_slice())?;
        self.out.extend_from_slice(seg.printed.as_slice())?;
        self.next = Some(copy_next(alloc, &seg.next)?);
        self.broken = false;
        Ok(())
    }

    /// Answers the question. The job that goes on with the answer is pending then.
    pub fn answer(
        &mut self,
        alloc: Global,
        wid: Wid,
        value: i64,
        sure: bool,
    ) -> Result<JobAt, NoMemory>
        requires asked { self.old.broken ≡ false → IsSome (asked_by self.old.next) }
        ensures stands { OnOk result ((code : Flat) (p : Program) → StandsFor code p self.old → StandsFor code p self.new) }
        ensures job { IfOk result (λ at. (code : Flat) (p : Program) → StandsFor code p self.old → GoesOnAt code p (answers_of self.old) value at) }
        ensures last { IfOk result (λ at. (code : Flat) (p : Program) → StandsFor code p self.old → IsLastJob code p self.new at) }
        ensures reads { OnOk result (IfSome (asked_by self.old.next) (λ key. self.new.reads ≡ self.old.reads ++ labelled_read key wid value sure ∷ [])) }
        ensures pending { OnOk result (self.new.next ≡ None) }
        ensures whole { OnOk result (self.new.broken ≡ false) }
        ensures err { OnErr result (self.new.broken ≡ true) }
        ensures broken { self.old.broken ≡ true → IsErr result }
    {
        if self.broken {
            return Err(NoMemory);
        }
        self.broken = true;
        let Some(Next::Asks { key, cont }) = self.next.take() else {
            unreachable!();
        };
        let known = knowledge(alloc, self.reads.as_slice(), self.writes.as_slice())?;
        let from = cont.copy(alloc)?;
        let (wrote, printed) = (self.writes.len(), self.out.len());
        self.places.push(Place {
            cont,
            wrote,
            printed,
        })?;
        self.reads.push(LogRead {
            key,
            wid,
            value,
            sure,
        })?;
        self.broken = false;
        Ok(JobAt::From {
            cont: from,
            value,
            known,
        })
    }

    /// Gives a read another label. It takes no memory.
    pub fn label(&mut self, i: usize, wid: Wid, sure: bool)
        requires within { self.old.broken ≡ false → i < length self.old.reads }
        ensures stands { (code : Flat) (p : Program) → StandsFor code p self.old → StandsFor code p self.new }
        ensures label { self.old.broken ≡ false → self.new ≡ record self.old { reads = labelled self.old.reads i wid sure } }
        ensures broken { self.new.broken ≡ self.old.broken }
    {
        if self.broken {
            return;
        }
        let old = self.read(i);
        self.reads[i] = LogRead { wid, sure, ..old };
    }

    /// Goes back to a read, and gives it another answer: what came after it is dropped, and the job that goes on with
    /// the answer is pending.
    pub fn rewind(
        &mut self,
        alloc: Global,
        i: usize,
        wid: Wid,
        value: i64,
        sure: bool,
    ) -> Result<JobAt, NoMemory>
        requires within { self.old.broken ≡ false → i < length self.old.reads }
        ensures stands { OnOk result ((code : Flat) (p : Program) → StandsFor code p self.old → StandsFor code p self.new) }
        ensures job { IfOk result (λ at. (code : Flat) (p : Program) → StandsFor code p self.old → GoesOnAt code p (take i (answers_of self.old)) value at) }
        ensures last { IfOk result (λ at. (code : Flat) (p : Program) → StandsFor code p self.old → IsLastJob code p self.new at) }
        ensures reads { OnOk result (self.new.reads ≡ answered_at self.old.reads i wid value sure) }
        ensures pending { OnOk result (self.new.next ≡ None) }
        ensures whole { OnOk result (self.new.broken ≡ false) }
        ensures err { OnErr result (self.new.broken ≡ true) }
        ensures broken { self.old.broken ≡ true → IsErr result }
    {
        if self.broken {
            return Err(NoMemory);
        }
        self.broken = true;
        let key = self.read(i).key;
        self.reads.truncate(i);
        self.places.truncate(i + 1);
        self.writes.truncate(self.places[i].wrote);
        self.out.truncate(self.places[i].printed);
        self.next = None;
        let known = knowledge(alloc, self.reads.as_slice(), self.writes.as_slice())?;
        let cont = self.places[i].cont.copy(alloc)?;
        self.reads.push(LogRead {
            key,
            wid,
            value,
            sure,
        })?;
        self.broken = false;
        Ok(JobAt::From { cont, value, known })
    }

    /// What an execution that has ended did.
    pub fn content(&self, alloc: Global) -> Result<Content, NoMemory>
        requires ended { self.now.broken ≡ false → IsSome (ending_by self.now.next) }
        ensures content { IfOk result (λ c. (code : Flat) (p : Program) → StandsFor code p self.now → IsContentOf (replay_of p (answers_of self.now)) c) }
        ensures serial { IfOk result (λ c. (code : Flat) (p : Program) (m : List Entry) → StandsFor code p self.now → answers_of self.now ≡ values_of (serial_of p m).reads → IsContentOf (serial_of p m) c) }
        ensures labels { IfOk result (λ c. c.reads ≡ map read_of self.now.reads) }
        ensures broken { self.now.broken ≡ true → IsErr result }
    {
        if self.broken {
            return Err(NoMemory);
        }
        let Some(ending) = self.ending() else {
            unreachable!();
        };
        let reads = content_reads(alloc, self.reads.as_slice())?;
        let writes = List::from_slice(alloc, kept(ending, self.writes.as_slice()))?;
        let out = List::from_slice(alloc, self.out.as_slice())?;
        Ok(Content {
            reads,
            writes,
            out,
            ending,
        })
    }

    /// How many reads were answered.
    pub fn reads(&self) -> usize
        ensures { result ≡ length self.now.reads }
    {
        self.reads.len()
    }

    /// A read, from 0, with its label.
    pub fn read(&self, i: usize) -> LogRead
        requires { i < length self.now.reads }
        ensures { slice_get self.now.reads i ≡ Some result }
    {
        self.reads[i]
    }

    /// The reads that were answered, with their labels.
    pub fn entries(&self) -> &[LogRead]
        ensures { result.now ≡ self.now.reads }
    {
        self.reads.as_slice()
    }

    /// Whether the segment of a job is still to come.
    pub fn is_pending(&self) -> bool
        ensures { result ≡ is_none self.now.next }
    {
        self.next.is_none()
    }

    /// The key of the question, where one stands.
    pub fn asked(&self) -> Option<Key>
        ensures { result ≡ asked_by self.now.next }
    {
        match &self.next {
            Some(Next::Asks { key, .. }) => Some(*key),
            _ => None,
        }
    }

    /// The writes that the segments taken made.
    pub fn writes(&self) -> &[Write]
        ensures { result.now ≡ self.now.writes }
    {
        self.writes.as_slice()
    }

    /// The ending, where the execution has one.
    pub fn ending(&self) -> Option<Ending>
        ensures { result ≡ ending_by self.now.next }
    {
        match &self.next {
            Some(Next::Ends(ending)) => Some(*ending),
            _ => None,
        }
    }
}
