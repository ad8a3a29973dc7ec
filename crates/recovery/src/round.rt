ghost use Rattle.std.specs.Prelude.{◌≡◌, ◌==◌, ◌+◌, ◌*◌, ◌<◌, [], length, None, OnOk, OnErr, is_some, true, MatchOption};
ghost use Rattle.std.specs.List.{list_any};
ghost use Rattle.std.specs.Option.{option_copied};
ghost use Rattle.protocol.specs.Warden.Recovery.{with_told, with_proposal};
ghost use Rattle.recovery.specs.Round.{last_view, counts_told, counts_accept, accepted_by};

use crate::proposal::{Proposal, Told};
use morty_base::{Exec, List, NoMemory};
use std::alloc::Global;
use std::marker::Model;

/// How far a view has come.
#[derive(Drop)]
pub enum Phase {
    /// The choice is not fixed yet.
    Asking,
    /// The choice is fixed and proposed, and these replicas accepted it.
    Proposed(Proposal, List<u32>),
}

/// A view of an execution that this warden asks about.
#[derive(Drop)]
pub struct Round {
    exec: Exec,
    view: u32,
    tolds: List<Told>,
    phase: Phase,
}

impl Model for Round {
    ghost use Rattle.protocol.specs.Warden.State.{Round};

    ghost Value = { Round };

    ghost use Rattle.recovery.specs.Phase.{proposal_in, accepts_in};

    ghost view = { λ a. record { exec = a.exec; view = a.view; tolds = a.tolds; proposal = proposal_in a.phase; accepts = accepts_in a.phase } };
}

impl Round {
    pub fn new(alloc: Global, exec: Exec, view: u32) -> Round
        ensures { result ≡ record { exec = exec; view = view; tolds = []; proposal = None; accepts = [] } }
    {
        Round {
            exec,
            view,
            tolds: List::new(alloc),
            phase: Phase::Asking,
        }
    }

    pub fn exec(&self) -> Exec
        ensures { result ≡ self.now.exec }
    {
        self.exec
    }

    pub fn is_in(&self, view: u32) -> bool
        ensures { result ≡ (self.now.view == view) }
    {
        self.view == view
    }

    pub fn proposal(&self) -> Option<&Proposal>
        ensures { option_copied result ≡ self.now.proposal }
    {
        match &self.phase {
            Phase::Asking => None,
            Phase::Proposed(proposal, _) => Some(proposal),
        }
    }

    pub fn tolds(&self) -> &[Told]
        ensures { result.now ≡ self.now.tolds }
    {
        self.tolds.as_slice()
    }

    fn has_told(&self, replica: u32) -> bool
        ensures { result ≡ list_any (λ u. u.replica == replica) self.now.tolds }
    {
        self.tolds.as_slice().iter().any(|told| told.is_of(replica))
    }

    /// Whether a Told of the replica counts.
    pub fn counts_told(&self, replica: u32) -> bool
        ensures { result ≡ counts_told self.now replica }
    {
        self.proposal().is_none() && !self.has_told(replica)
    }

    /// One more Told.
    pub fn add_told(&mut self, told: Told) -> Result<(), NoMemory>
        requires { self.old.proposal ≡ None }
        ensures ok { OnOk result (self.new ≡ with_told self.old told) }
        ensures err { OnErr result (self.new ≡ self.old) }
    {
        self.tolds.push(told)
    }

    /// The choice is fixed.
    pub fn propose(&mut self, alloc: Global, proposal: Proposal)
        ensures { self.new ≡ with_proposal self.old proposal }
    {
        self.phase = Phase::Proposed(proposal, List::new(alloc));
    }

    fn accepts(&self) -> &[u32]
        ensures { result.now ≡ self.now.accepts }
    {
        match &self.phase {
            Phase::Asking => &[],
            Phase::Proposed(_, accepts) => accepts.as_slice(),
        }
    }

    fn has_accepted(&self, replica: u32) -> bool
        ensures { result ≡ list_any (λ i. i == replica) self.now.accepts }
    {
        self.accepts().iter().any(|other| *other == replica)
    }

    /// Whether an Accepted of the replica counts.
    pub fn counts_accept(&self, replica: u32) -> bool
        ensures { result ≡ counts_accept self.now replica }
    {
        self.proposal().is_some() && !self.has_accepted(replica)
    }

    /// How many replicas accepted the proposal.
    pub fn accept_count(&self) -> usize
        ensures { result ≡ length self.now.accepts }
    {
        self.accepts().len()
    }

    /// One more replica accepted the proposal.
    pub fn add_accept(&mut self, replica: u32) -> Result<(), NoMemory>
        requires { is_some self.old.proposal ≡ true }
        ensures ok { OnOk result (self.new ≡ accepted_by self.old replica) }
        ensures err { OnErr result (self.new ≡ self.old) }
    {
        match &mut self.phase {
            Phase::Asking => Ok(()),
            Phase::Proposed(_, accepts) => accepts.push(replica),
        }
    }
}

/// The lowest view not yet used for an execution of which so many were: the k-th of W wardens has the views k, k + W,
/// k + 2W and on. None is where that is past all views.
pub fn next_view(warden: u32, wardens: u32, used: usize) -> Option<u32>
    ensures { MatchOption result (last_view < warden + used * wardens) (λ view. view ≡ warden + used * wardens) }
{
    let view = u128::from(warden) + used as u128 * u128::from(wardens);
    u32::try_from(view).ok()
}
