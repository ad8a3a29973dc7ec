//! What is noted of a world as envelopes are sent and tries begin.

ghost use Rattle.std.specs.Prelude.{◌≡◌, ◌≤◌, ℕ, [], ◌∷◌, ◌++◌, true, cond, length, slice_get, find, Option, Some, IfOk, OnOk, option_map, List as ListValue};
ghost use Rattle.std.specs.BTreeMap.{get, IsOrdered};
ghost use Rattle.std.specs.BTreeSet.{contains};
ghost use Rattle.msg.specs.declared.Envelope.{Envelope as EnvelopeValue};
ghost use Rattle.morty_base.specs.declared.names.Exec.{Exec as ExecValue};
ghost use Rattle.morty_base.specs.Names.{same_version};
ghost use Rattle.protocol.specs.Client.State.{Attempt};
ghost use Rattle.protocol.specs.World.State.{World};
ghost use Rattle.protocol_plans.specs.Scripted.{Scripted, plan_of};
ghost use Rattle.world_rows.specs.Machine.{events_in};
ghost use Rattle.world_rows.specs.Rows.{rows_of};
ghost use Rattle.world_rows.specs.Laws.{CommitsAreToldOf};
ghost use Rattle.world_rows.specs.Notes.{attempt_of, content_in, is_of, prepared_by, committed_by};
ghost use Rattle.world_rows.specs.Orders.{exec_cmp};
ghost use Rattle.world_rows.specs.Report.{AreProgress};

use crate::left::Progress;
use crate::outcome::{Committed, Outcome};
use morty_base::{Exec, NoMemory, Version};
use msg::{Body, Choice, Content, Envelope};
use net_core::Mail;
use protocol::First2;
use report::Rows;
use std::alloc::Global;
use std::collections::{BTreeMap, BTreeSet};

/// Which try of which transaction began at a version, both counted from 1.
#[derive(Clone, Copy)]
pub(crate) struct Try {
    pub(crate) txn: u32,
    pub(crate) attempt: u32,
}

/// What was noted of a mail and of the tries that clients began.
#[derive(Drop)]
pub struct Notes {
    // The number of the last envelope with a Prepare of each execution.
    prepared: BTreeMap<Exec, u64>,
    // The executions of which a Decide of Commit was sent.
    committed: BTreeSet<Exec>,
    tries: BTreeMap<Version, Try>,
}

// The execution that a body prepares.
fn prepared(body: &Body) -> Option<Exec>
    ensures { result ≡ prepared_by body.now }
{
    match body {
        Body::Prepare { exec, .. } => Some(*exec),
        _ => None,
    }
}

// The execution of which a body tells Commit.
fn committed(body: &Body) -> Option<Exec>
    ensures { result ≡ committed_by body.now }
{
    match body {
        Body::Decide { exec, choice, .. } => match choice {
            Choice::Commit => Some(*exec),
            Choice::Abandon => None,
        },
        _ => None,
    }
}

// The content that the envelope of this number prepares.
fn content_of(mail: &Mail, number: u64) -> Result<Option<Content>, NoMemory>
    ensures { IfOk result (λ o. o ≡ content_in (slice_get mail.now number)) }
{
    match mail.get(number)? {
        Some(
            Envelope {
                body: Body::Prepare { content, .. },
                ..
            },
        ) => Ok(Some(content)),
        _ => Ok(None),
    }
}

impl Notes {
    ghost use Rattle.world_rows.specs.Notes.{AreNotes, IsBegun};
    ghost use Rattle.world_rows.specs.Outcome.{HasOutcome, committed_of, row_at, rows_at};

    /// Nothing was sent, and no try began.
    pub fn new(alloc: Global) -> Notes
        ensures { (f : ℕ → ListValue Attempt) → ((c : ℕ) → f c ≡ []) → AreNotes [] f result }
    {
        Notes {
            prepared: BTreeMap::new(alloc),
            committed: BTreeSet::new(alloc),
            tries: BTreeMap::new(alloc),
        }
    }

    // An envelope with this body is the last that prepares the execution, if it prepares one.
    fn note_prepare(&mut self, number: u64, body: &Body) -> Result<(), NoMemory>
        ensures prepared { OnOk result ((x : ExecValue) → get exec_cmp self.new.prepared x ≡ cond (is_of x (prepared_by body.now)) (Some number) (get exec_cmp self.old.prepared x)) }
        ensures committed { self.new.committed ≡ self.old.committed }
        ensures tries { self.new.tries ≡ self.old.tries }
    {
        if let Some(exec) = prepared(body) {
            self.prepared.insert(exec, number)?;
        }
        Ok(())
    }

    // A body may tell Commit of an execution.
    fn note_commit(&mut self, body: &Body) -> Result<(), NoMemory>
        ensures committed { OnOk result ((x : ExecValue) → contains exec_cmp self.new.committed x ≡ cond (is_of x (committed_by body.now)) true (contains exec_cmp self.old.committed x)) }
        ensures prepared { self.new.prepared ≡ self.old.prepared }
        ensures tries { self.new.tries ≡ self.old.tries }
    {
        if let Some(exec) = committed(body) {
            self.committed.insert(exec)?;
        }
        Ok(())
    }

    /// An envelope is sent. Its number is that in the mail.
    pub fn sent(&mut self, number: u64, envelope: &Envelope) -> Result<(), NoMemory>
        ensures { (mail : ListValue EnvelopeValue) (f : ℕ → ListValue Attempt) → AreNotes mail f self.old → number ≡ length mail → OnOk result (AreNotes (mail ++ envelope.now ∷ []) f self.new) }
    {
        self.note_prepare(number, &envelope.body)?;
        self.note_commit(&envelope.body)?;
        Ok(())
    }

    /// The version's client begins a try of a transaction at it. Telling that again changes nothing.
    pub fn begun(&mut self, ver: Version, txn: u32, attempt: u32) -> Result<(), NoMemory>
        ensures more { (mail : ListValue EnvelopeValue) (f g : ℕ → ListValue Attempt) → AreNotes mail f self.old → IsBegun (attempt_of ver txn attempt) f g → OnOk result (AreNotes mail g self.new) }
        ensures again { (mail : ListValue EnvelopeValue) (f : ℕ → ListValue Attempt) → AreNotes mail f self.old → find (λ a. same_version ver a.ver) (f ver.client) ≡ Some (attempt_of ver txn attempt) → OnOk result (AreNotes mail f self.new) }
    {
        self.tries.insert(ver, Try { txn, attempt })?;
        Ok(())
    }

    // The execution that the envelope of this number prepares, where it is committed.
    fn committed_at(
        &self,
        mail: &Mail,
        exec: Exec,
        number: u64,
    ) -> Result<Option<Committed>, NoMemory>
        ensures { IfOk result (λ o. option_map committed_of o ≡ row_at self.now mail.now exec number) }
    {
        if !self.committed.contains(&exec) {
            return Ok(None);
        }
        let Some(Try { txn, attempt }) = self.tries.get(&exec.ver) else {
            return Ok(None);
        };
        match content_of(mail, number)? {
            None => Ok(None),
            Some(content) => Ok(Some(Committed {
                exec,
                content,
                txn: *txn,
                attempt: *attempt,
            })),
        }
    }

    // What the committed executions did, in rising order.
    fn outcome(&self, alloc: Global, mail: &Mail, firsts: &[First2]) -> Result<Outcome, NoMemory>
        ensures outcome { IfOk result (HasOutcome firsts.now (rows_at self.now mail.now)) }
        ensures ordered { OnOk result (IsOrdered exec_cmp self.now.prepared) }
    {
        let mut outcome = Outcome::new(alloc, firsts)?;
        for (exec, number) in self.prepared.iter() {
            if let Some(committed) = self.committed_at(mail, *exec, *number)? {
                outcome.add(committed)?;
            }
        }
        Ok(outcome)
    }

    /// What is reported of the world: its mail, the first values that it began with, what its clients tell, in order,
    /// and how many events moved it.
    pub fn rows(
        &self,
        alloc: Global,
        mail: &Mail,
        firsts: &[First2],
        clients: &[Progress],
        events: u64,
    ) -> Result<Rows, NoMemory>
        requires { length clients.now ≤ 4294967295 }
        ensures { (s : Scripted) (w : World) → AreNotes w.mail (λ c. (w.client c).attempts) self.now → mail.now ≡ w.mail → firsts.now ≡ s.firsts → AreProgress s w clients.now → events ≡ events_in w → CommitsAreToldOf (plan_of s) w → IfOk result (λ r. r ≡ rows_of s w) }
    {
        let outcome = self.outcome(alloc, mail, firsts)?;
        outcome.rows(alloc, clients, events)
    }
}
