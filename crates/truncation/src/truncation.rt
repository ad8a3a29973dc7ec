ghost use Rattle.std.specs.Prelude.{◌≡◌, ◌==◌, ◌++◌, [], ◌∷◌, IfOk, OnOk, true, false, not, filter, map, nat_le, length, is_some};
ghost use Rattle.std.specs.List.{list_any, list_all};
ghost use Rattle.protocol.specs.Warden.State.{decision_on};
ghost use Rattle.protocol.specs.Quorums.{quorum};
ghost use Rattle.protocol.specs.Warden.Truncation.{named_committed, to_recover};
ghost use Rattle.truncation.specs.Truncator.{is_counted, with_answer, is_settled, with_named};
ghost use Rattle.morty_base.specs.Names.{no_version};

use crate::answer::{Answer, is_named_committed};
use morty_base::{Exec, List, NoMemory, Version, is_same_version};
use protocol::quorum;
use recovery::Recoverer;
use std::alloc::Global;

/// A truncation, as far as some rule still reads it: the Fenceds that count, in order of arrival, and what has to be
/// recovered once a quorum of them came, until its Drop is sent.
#[derive(Drop)]
pub struct Truncation {
    pub w: Version,
    pub answers: List<Answer>,
    pub named: List<Exec>,
    pub dropped: bool,
}

// What an answer names as voted, in order, where none names it as committed.
fn add_named(answer: &Answer, answers: &[Answer], named: &mut List<Exec>) -> Result<(), NoMemory>
    ensures { OnOk result (named.new ≡ named.old ++ filter (λ x. not (named_committed answers.now x)) (map (λ c. c.exec) answer.now.voted)) }
{
    for kept in answer.voted.as_slice() {
        if !is_named_committed(answers, kept.exec) {
            named.push(kept.exec)?;
        }
    }
    Ok(())
}

// What the answers name as voted, in order, where none names it as committed.
fn to_recover(alloc: Global, answers: &[Answer]) -> Result<List<Exec>, NoMemory>
    ensures { IfOk result (λ named. named ≡ to_recover answers.now) }
{
    let mut named = List::new(alloc);
    for answer in answers {
        add_named(answer, answers, &mut named)?;
    }
    Ok(named)
}

fn is_decided(rec: &Recoverer, x: Exec) -> bool
    requires { rec.now.broken ≡ false }
    ensures { result ≡ is_some (decision_on rec.now.state x) }
{
    rec.decided(x).is_some()
}

// Whether all these are decided.
fn are_decided(rec: &Recoverer, named: &[Exec]) -> bool
    requires { rec.now.broken ≡ false }
    ensures { result ≡ list_all (λ x. is_some (decision_on rec.now.state x)) named.now }
{
    for x in named {
        if !is_decided(rec, *x) {
            return false;
        }
    }
    true
}

impl Truncation {
    /// The truncation to this version. It has no answer yet.
    pub fn new(alloc: Global, w: Version) -> Truncation
        ensures { result ≡ record { w = w; answers = []; named = []; dropped = false } }
    {
        Truncation {
            w,
            answers: List::new(alloc),
            named: List::new(alloc),
            dropped: false,
        }
    }

    /// Before the first truncation it is as if version 0.0 had been dropped.
    pub fn none(alloc: Global) -> Truncation
        ensures { result ≡ record { w = no_version; answers = []; named = []; dropped = true } }
    {
        Truncation {
            w: Version { ts: 0, client: 0 },
            answers: List::new(alloc),
            named: List::new(alloc),
            dropped: true,
        }
    }

    fn has_answer(&self, replica: u32) -> bool
        ensures { result ≡ list_any (λ a. a.replica == replica) self.now.answers }
    {
        self.answers
            .as_slice()
            .iter()
            .any(|answer| answer.is_of(replica))
    }

    fn is_full(&self, replicas: u32) -> bool
        ensures { result ≡ nat_le (quorum replicas) (length self.now.answers) }
    {
        quorum(replicas) <= self.answers.len()
    }

    /// Whether a Fenced of the replica counts: once, for this version, until a quorum did.
    pub fn counts(&self, replicas: u32, w: Version, replica: u32) -> bool
        ensures { result ≡ is_counted replicas self.now w replica }
    {
        !self.dropped
            && is_same_version(w, self.w)
            && !self.is_full(replicas)
            && !self.has_answer(replica)
    }

    /// One more Fenced counts. The last of a quorum names what has to be recovered.
    pub fn add(&mut self, alloc: Global, replicas: u32, answer: Answer) -> Result<(), NoMemory>
        ensures { OnOk result (self.new ≡ with_named replicas (with_answer self.old answer)) }
    {
        self.answers.push(answer)?;
        if self.is_full(replicas) {
            self.named = to_recover(alloc, self.answers.as_slice())?;
        }
        Ok(())
    }

    /// Whether a quorum answered, and all that it names is decided.
    pub fn is_settled(&self, replicas: u32, rec: &Recoverer) -> bool
        requires { rec.now.broken ≡ false }
        ensures { result ≡ is_settled replicas rec.now.state self.now }
    {
        !self.dropped && self.is_full(replicas) && are_decided(rec, self.named.as_slice())
    }

    /// The Drop was sent.
    pub fn drop_answers(&mut self, alloc: Global)
        ensures { self.new ≡ record self.old { answers = []; named = []; dropped = true } }
    {
        self.answers = List::new(alloc);
        self.named = List::new(alloc);
        self.dropped = true;
    }
}
