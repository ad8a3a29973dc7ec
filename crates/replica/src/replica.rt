//! A replica, rule by rule.

ghost use Rattle.std.specs.Prelude.{◌≡◌, ◌≤◌, ◌++◌, ◌∷◌, [], length, map, true, false, not, Option, is_none, Some, None, List, IfOk, OnOk, OnErr, IsErr, IsTrue};
ghost use Rattle.std.specs.Option.{option_to_list};
ghost use Rattle.morty_base.specs.declared.names.NodeId.{NodeId as NodeValue};
ghost use Rattle.morty_base.specs.Names.{before, key_before};
ghost use Rattle.msg.specs.declared.Envelope.{Envelope as EnvelopeValue};
ghost use Rattle.msg.specs.declared.Body.TheVariants.{Get, Puts, Prepare, Finalize, Decide, Ask, Fence, Drop as Drops};
ghost use Rattle.protocol.specs.declared.First2.{First2 as FirstValue};
ghost use Rattle.protocol.specs.Lists.{IsRisingBy};
ghost use Rattle.protocol.specs.Replica.Taken.{Handled, dropped, later, takes, after_taking, lacks_content as lacks_its_content};
ghost use Rattle.protocol.specs.Replica.Acceptor.{decided};
ghost use Rattle.protocol.specs.Replica.Readers.{due};
ghost use Rattle.protocol.specs.Replica.Says.{answer, refusal, says};
ghost use Rattle.protocol.specs.Replica.Limits.{IsWithinLimits, HasFewWrites};

use crate::ballots::Ballots;
use crate::recording::{record_decision, record_vote};
use crate::sending::{send_answer, send_notes};
use crate::taken::takes;
use miss_notice::due_notes;
use morty_base::{Exec, Key, List, NoMemory, NodeId, Version, is_before};
use msg::{BaseEntry, Body, Choice, Content, Envelope, Write};
use mv_index::Records;
use protocol::First2;
use read_path::{on_get, on_puts};
use std::alloc::Global;
use truncation::{drop_to, fence};
use validate::verdict;

/// A replica. A call that was refused leaves it broken: it refuses each later call.
#[derive(Debug, Drop)]
pub struct Replica {
    number: u32,
    dropped: Version,
    fence: Version,
    records: Records,
    ballots: Ballots,
    broken: bool,
}

impl Replica {
    ghost use Rattle.std.specs.Prelude.{ℕ};
    ghost use Rattle.replica.specs.Replica.{Keeps, StandsFor, is_broken};

    /// A replica to which nothing came yet.
    pub fn new(
        alloc: Global,
        number: u32,
        replicas: u32,
        firsts: List<First2>,
    ) -> Result<Replica, NoMemory>
        ensures { IfOk result (λ r. StandsFor firsts number [] r) }
    {
        let _ = replicas;
        let none = Version { ts: 0, client: 0 };
        let records = Records::new(alloc, firsts)?;
        Ok(Replica {
            number,
            dropped: none,
            fence: none,
            records,
            ballots: Ballots::new(alloc),
            broken: false,
        })
    }

    fn on_get(&mut self, exec: Exec, key: Key) -> Result<Option<Body>, NoMemory>
        ensures answers { (firsts : List FirstValue) (number : ℕ) (h : Handled) → Keeps firsts number h h self.old → before (dropped h) exec.ver ≡ true → IfOk result (λ o. option_to_list o ≡ answer firsts h (Get exec key)) }
        ensures stands { (firsts : List FirstValue) (number : ℕ) (h : Handled) (from to : NodeValue) → Keeps firsts number h h self.old → before (dropped h) exec.ver ≡ true → OnOk result (Keeps firsts number h (record { from = from; to = to; body = Get exec key } ∷ h) self.new) }
        ensures unbroken { is_broken self.new ≡ is_broken self.old }
    {
        let answer = on_get(&mut self.records, exec, key, self.dropped)?;
        Ok(Some(answer.into_body()))
    }

    fn on_puts(&mut self, alloc: Global, exec: Exec, writes: &[Write]) -> Result<(), NoMemory>
        requires { length writes.now ≤ 4294967295 }
        ensures stands { (firsts : List FirstValue) (number : ℕ) (h : Handled) (from to : NodeValue) → Keeps firsts number h h self.old → before (dropped h) exec.ver ≡ true → OnOk result (Keeps firsts number h (record { from = from; to = to; body = Puts exec writes.now } ∷ h) self.new) }
        ensures unbroken { is_broken self.new ≡ is_broken self.old }
    {
        on_puts(alloc, &mut self.records, exec, writes, self.dropped)?;
        Ok(())
    }

    /// Votes once, before a view above 0 is promised and before a decision.
    fn on_prepare(
        &mut self,
        alloc: Global,
        exec: Exec,
        content: &Content,
    ) -> Result<Option<Body>, NoMemory>
        requires { length content.now.writes ≤ 4294967295 }
        ensures answers { (firsts : List FirstValue) (number : ℕ) (h : Handled) → Keeps firsts number h h self.old → before (dropped h) exec.ver ≡ true → IfOk result (λ o. option_to_list o ≡ answer firsts h (Prepare exec content.now)) }
        ensures stands { (firsts : List FirstValue) (number : ℕ) (h : Handled) (from to : NodeValue) → Keeps firsts number h h self.old → before (dropped h) exec.ver ≡ true → OnOk result (Keeps firsts number h (record { from = from; to = to; body = Prepare exec content.now } ∷ h) self.new) }
        ensures unbroken { is_broken self.new ≡ is_broken self.old }
    {
        if !self.ballots.may_vote(exec) {
            return Ok(None);
        }
        let vote = verdict(&self.records, content, exec.ver, self.fence);
        record_vote(alloc, &mut self.records, exec, content, vote)?;
        self.ballots.vote(alloc, exec, content, vote)?;
        Ok(Some(Body::Vote { exec, vote }))
    }

    fn on_finalize(
        &mut self,
        alloc: Global,
        exec: Exec,
        view: u32,
        choice: Choice,
        content: &Option<Content>,
    ) -> Result<Option<Body>, NoMemory>
        ensures answers { (firsts : List FirstValue) (number : ℕ) (h : Handled) → Keeps firsts number h h self.old → before (dropped h) exec.ver ≡ true → IfOk result (λ o. option_to_list o ≡ answer firsts h (Finalize exec view choice content.now)) }
        ensures stands { (firsts : List FirstValue) (number : ℕ) (h : Handled) (from to : NodeValue) → Keeps firsts number h h self.old → before (dropped h) exec.ver ≡ true → OnOk result (Keeps firsts number h (record { from = from; to = to; body = Finalize exec view choice content.now } ∷ h) self.new) }
        ensures unbroken { is_broken self.new ≡ is_broken self.old }
    {
        let answer = self.ballots.accept(alloc, exec, view, choice, content)?;
        Ok(answer)
    }

    /// The first decision on an execution is kept.
    fn on_decide(
        &mut self,
        alloc: Global,
        exec: Exec,
        choice: Choice,
        content: &Option<Content>,
    ) -> Result<(), NoMemory>
        requires { HasFewWrites content.now }
        ensures stands { (firsts : List FirstValue) (number : ℕ) (h : Handled) (from to : NodeValue) → Keeps firsts number h h self.old → before (dropped h) exec.ver ≡ true → lacks_its_content (Decide exec choice content.now) ≡ false → OnOk result (Keeps firsts number h (record { from = from; to = to; body = Decide exec choice content.now } ∷ h) self.new) }
        ensures unbroken { is_broken self.new ≡ is_broken self.old }
    {
        if self.ballots.is_decided(exec) {
            return Ok(());
        }
        record_decision(alloc, &mut self.records, exec, choice, content)?;
        self.ballots.decide(alloc, exec, choice, content)?;
        Ok(())
    }

    fn on_ask(&mut self, alloc: Global, exec: Exec, view: u32) -> Result<Option<Body>, NoMemory>
        ensures answers { (firsts : List FirstValue) (number : ℕ) (h : Handled) → Keeps firsts number h h self.old → before (dropped h) exec.ver ≡ true → IfOk result (λ o. option_to_list o ≡ answer firsts h (Ask exec view)) }
        ensures stands { (firsts : List FirstValue) (number : ℕ) (h : Handled) (from to : NodeValue) → Keeps firsts number h h self.old → before (dropped h) exec.ver ≡ true → OnOk result (Keeps firsts number h (record { from = from; to = to; body = Ask exec view } ∷ h) self.new) }
        ensures unbroken { is_broken self.new ≡ is_broken self.old }
    {
        let answer = self.ballots.promise(alloc, exec, view)?;
        Ok(answer)
    }

    fn raise_fence(&mut self, w: Version)
        ensures { self.new ≡ record self.old { fence = later self.old.fence w } }
    {
        if is_before(self.fence, w) {
            self.fence = w;
        }
    }

    fn on_fence(&mut self, alloc: Global, w: Version) -> Result<Option<Body>, NoMemory>
        ensures answers { (firsts : List FirstValue) (number : ℕ) (h : Handled) → Keeps firsts number h h self.old → before (dropped h) w ≡ true → IfOk result (λ o. option_to_list o ≡ answer firsts h (Fence w)) }
        ensures stands { (firsts : List FirstValue) (number : ℕ) (h : Handled) (from to : NodeValue) → Keeps firsts number h h self.old → before (dropped h) w ≡ true → OnOk result (Keeps firsts number h (record { from = from; to = to; body = Fence w } ∷ h) self.new) }
        ensures unbroken { is_broken self.new ≡ is_broken self.old }
    {
        let fenced = fence(alloc, &self.records, w)?;
        self.raise_fence(w);
        Ok(Some(fenced))
    }

    /// Lets go of all that is at or below a version but the base.
    fn on_drop(&mut self, alloc: Global, w: Version, base: &List<BaseEntry>) -> Result<(), NoMemory>
        requires { IsRisingBy (λ a b. key_before a.key b.key) base.now }
        ensures stands { (firsts : List FirstValue) (number : ℕ) (h : Handled) (from to : NodeValue) → Keeps firsts number h h self.old → before (dropped h) w ≡ true → OnOk result (Keeps firsts number h (record { from = from; to = to; body = Drops w base.now } ∷ h) self.new) }
        ensures unbroken { is_broken self.new ≡ is_broken self.old }
    {
        let base = base.copy(alloc)?;
        drop_to(&mut self.records, w, base);
        self.ballots.cut(w);
        self.dropped = w;
        self.raise_fence(w);
        Ok(())
    }

    /// What a replica takes: what its rules speak of, about versions above the dropped one alone.
    fn takes(&self, body: &Body) -> bool
        ensures { (firsts : List FirstValue) (number : ℕ) (told h : Handled) → Keeps firsts number told h self.now → result ≡ takes h body.now }
    {
        takes(self.dropped, body)
    }

    /// Follows the rule for a body that is taken, and gives the answer.
    fn follow(&mut self, alloc: Global, body: &Body) -> Result<Option<Body>, NoMemory>
        requires { IsWithinLimits body.now }
        ensures answers { (firsts : List FirstValue) (number : ℕ) (h : Handled) → Keeps firsts number h h self.old → takes h body.now ≡ true → IfOk result (λ o. option_to_list o ≡ answer firsts h body.now) }
        ensures stands { (firsts : List FirstValue) (number : ℕ) (h : Handled) (from to : NodeValue) → Keeps firsts number h h self.old → takes h body.now ≡ true → OnOk result (Keeps firsts number h (record { from = from; to = to; body = body.now } ∷ h) self.new) }
        ensures unbroken { is_broken self.new ≡ is_broken self.old }
    {
        match body {
            Body::Get { exec, key } => self.on_get(*exec, *key),
            Body::Puts { exec, writes } => {
                self.on_puts(alloc, *exec, writes.as_slice())?;
                Ok(None)
            }
            Body::Prepare { exec, content } => self.on_prepare(alloc, *exec, content),
            Body::Finalize {
                exec,
                view,
                choice,
                content,
            } => self.on_finalize(alloc, *exec, *view, *choice, content),
            Body::Decide {
                exec,
                choice,
                content,
            } => {
                self.on_decide(alloc, *exec, *choice, content)?;
                Ok(None)
            }
            Body::Ask { exec, view } => self.on_ask(alloc, *exec, *view),
            Body::Fence { w } => self.on_fence(alloc, *w),
            Body::Drop { w, base } => {
                self.on_drop(alloc, *w, base)?;
                Ok(None)
            }
            Body::Note { .. }
            | Body::Vote { .. }
            | Body::Accepted { .. }
            | Body::Told { .. }
            | Body::Fenced { .. }
            | Body::TooOld { .. } => Ok(None),
        }
    }

    /// About what it does not take a replica says nothing, but that a Get comes too late.
    fn refuse(&self, body: &Body) -> Option<Body>
        ensures { (firsts : List FirstValue) (number : ℕ) (told h : Handled) → Keeps firsts number told h self.now → option_to_list result ≡ refusal h body.now }
    {
        match body {
            Body::Get { exec, .. } => Some(Body::TooOld {
                ver: exec.ver,
                w: self.dropped,
            }),
            _ => None,
        }
    }

    /// The due Notes go out, once the rule for the body was followed.
    fn send_due_notes(&mut self, alloc: Global, out: &mut List<Envelope>) -> Result<(), NoMemory>
        ensures due { (firsts : List FirstValue) (number : ℕ) (h : Handled) (m : EnvelopeValue) → Keeps firsts number h (m ∷ h) self.old → OnOk result (out.new ≡ out.old ++ due firsts number h (m ∷ h)) }
        ensures told { (firsts : List FirstValue) (number : ℕ) (h : Handled) (m : EnvelopeValue) → Keeps firsts number h (m ∷ h) self.old → OnOk result (Keeps firsts number (m ∷ h) (m ∷ h) self.new) }
        ensures unbroken { is_broken self.new ≡ is_broken self.old }
    {
        let notes = due_notes(alloc, &mut self.records)?;
        send_notes(self.number, notes, out)
    }

    /// The answer, and then the Notes that are due.
    fn answer(&mut self, alloc: Global, env: &Envelope) -> Result<List<Envelope>, NoMemory>
        requires { IsWithinLimits env.now.body }
        ensures says { (firsts : List FirstValue) (number : ℕ) (h : Handled) → Keeps firsts number h h self.old → IfOk result (λ sent. sent ≡ says firsts number h env.now) }
        ensures stands { (firsts : List FirstValue) (number : ℕ) (h : Handled) → Keeps firsts number h h self.old → OnOk result (Keeps firsts number (after_taking h env.now) (after_taking h env.now) self.new) }
        ensures unbroken { is_broken self.new ≡ is_broken self.old }
    {
        let mut out = List::new(alloc);
        if !self.takes(&env.body) {
            send_answer(self.number, env.from, self.refuse(&env.body), &mut out)?;
            return Ok(out);
        }
        let answer = self.follow(alloc, &env.body)?;
        send_answer(self.number, env.from, answer, &mut out)?;
        self.send_due_notes(alloc, &mut out)?;
        Ok(out)
    }

    /// Handles an envelope by the rule for its body: it answers, and sends the Notes that are due.
    pub fn handle(
        &mut self,
        alloc: Global,
        env: &Envelope,
        out: &mut List<Envelope>,
    ) -> Result<(), NoMemory>
        requires { IsWithinLimits env.now.body }
        ensures says { (firsts : List FirstValue) (number : ℕ) (h : Handled) → StandsFor firsts number h self.old → OnOk result (out.new ≡ out.old ++ says firsts number h env.now) }
        ensures stands { (firsts : List FirstValue) (number : ℕ) (h : Handled) → StandsFor firsts number h self.old → OnOk result (StandsFor firsts number (after_taking h env.now) self.new) }
        ensures kept { OnErr result (out.new ≡ out.old) }
        ensures broken { IsTrue (is_broken self.old) → IsErr result }
        ensures breaks { OnErr result (IsTrue (is_broken self.new)) }
    {
        if self.broken {
            return Err(NoMemory);
        }
        self.broken = true;
        let sent = self.answer(alloc, env)?;
        out.append(sent)?;
        self.broken = false;
        Ok(())
    }
}
