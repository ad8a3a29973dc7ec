//! The tally of the votes on one execution: the first vote of each replica, and what these call for.
//!
//! Read `specs/Tally` first: what contracts see of a tally, and when its votes call for nothing. What they call for is
//! `tally_says`, and what a hurried client proposes is `hurried`, both of `protocol`. The proofs follow: `CountingLemmas`
//! reads the rule off the three counts that the code makes, and `TallyLemmas` shows that a first vote has room.
#![tactic(auto)]

ghost use Rattle.std.specs.Prelude.{◌≡◌, ◌<◌, ◌≤◌, ◌↔◌, ◌⊎◌, [], IsTrue, count_by, length};
ghost use Rattle.std.specs.Bool.{OnTrue, OnFalse};
ghost use Rattle.std.specs.List.{list_any};
ghost use Rattle.protocol.specs.Replica.Votes.{is_commit_vote};
ghost use Rattle.protocol.specs.Client.Counting.{is_final_vote, tally_says, hurried};
ghost use Rattle.vote_tally.specs.Tally.{has_voted, with_vote, CallsForNothing};

use arrayvec::ArrayVec;
use msg::{Choice, Vote};
pub use protocol::TallyOut;
use protocol::quorum;
use std::marker::Model;

/// How many replicas a tally has room for.
pub const MAX_REPLICAS: usize = 5;

#[derive(Clone, Copy, Debug)]
struct FirstVote {
    replica: u32,
    vote: Vote,
}

impl Model for FirstVote {
    ghost use Rattle.protocol.specs.Client.State.{CountedVote};

    ghost Value = { CountedVote };

    ghost view = { λ b. record { replica = b.replica; vote = b.vote } };

    ghost inverse = { λ b. record { replica = b.replica; vote = b.vote } };
}

// What fills an unused place.
impl Default for FirstVote {
    fn default() -> FirstVote {
        FirstVote {
            replica: 0,
            vote: Vote::Tentative,
        }
    }
}

/// The first vote of each replica on one execution. Contracts see the number of replicas, and the votes in order of
/// arrival.
#[derive(Debug, Drop)]
pub struct Tally {
    replicas: u32,
    votes: ArrayVec<FirstVote, MAX_REPLICAS>,
}

impl Model for Tally {
    ghost use Rattle.std.specs.Prelude.{◌≤◌};
    ghost use Rattle.vote_tally.specs.declared.TheConstants.{MAX_REPLICAS};
    ghost use Rattle.vote_tally.specs.Tally.{Counted, HasFirstVotes};

    ghost Value = { Counted };

    ghost view = { λ t. record { replicas = t.replicas; votes = t.votes.items } };

    ghost invariant = { λ t. (t.replicas ≤ MAX_REPLICAS) × HasFirstVotes (record { replicas = t.replicas; votes = t.votes.items }) };
}

fn commit_count(votes: &[FirstVote]) -> usize
    ensures value { result ≡ count_by (λ b. is_commit_vote b.vote) votes.now }
    ensures within { result ≤ length votes.now }
{
    votes
        .iter()
        .filter(|first| first.vote == Vote::Commit)
        .count()
}

fn has_final(votes: &[FirstVote]) -> bool
    ensures { result ≡ list_any (λ b. is_final_vote b.vote) votes.now }
{
    votes.iter().any(|first| first.vote == Vote::Final)
}

// The first case of the rule that holds.
fn called_for(replicas: u32, votes: &[FirstVote]) -> TallyOut
    ensures { result ≡ tally_says replicas votes.now }
{
    let commits = commit_count(votes);
    let others = votes.len() - commits;
    let has_others = others > 0;
    let has_final = has_final(votes);
    let all = replicas as usize;
    let quorum = quorum(replicas);
    if commits >= all {
        TallyOut::FastCommit
    } else if has_final {
        TallyOut::FastAbandon
    } else if has_others && commits >= quorum {
        TallyOut::Propose(Choice::Commit)
    } else if others >= quorum {
        TallyOut::Propose(Choice::Abandon)
    } else {
        TallyOut::Wait
    }
}

impl Tally {
    /// The tally of so many replicas, of which none has voted.
    pub fn new(replicas: u32) -> Tally
        requires { replicas ≤ MAX_REPLICAS }
        ensures { result ≡ record { replicas = replicas; votes = [] } }
    {
        Tally {
            replicas,
            votes: ArrayVec::new(),
        }
    }

    /// How many replicas vote.
    pub fn replicas(&self) -> u32
        ensures { result ≡ self.now.replicas }
    {
        self.replicas
    }

    fn has_voted(&self, replica: u32) -> bool
        ensures { result ≡ has_voted replica self.now }
    {
        self.votes.iter().any(|first| first.replica == replica)
    }

    /// Counts the first vote of a replica, and answers what the votes so far then call for. This is commit by votes
    /// on two paths. On the fast one, Commit votes of all replicas or one Final vote decide at once. On the slow one,
    /// once not all votes can be Commit any more, the choice of a majority is proposed.
    pub fn add(&mut self, replica: u32, vote: Vote) -> TallyOut
        requires from_one { 0 < replica }
        requires up_to_replicas { replica ≤ self.old.replicas }
        ensures repeated { OnTrue (has_voted replica self.old) (self.new ≡ self.old) }
        ensures first { OnFalse (has_voted replica self.old) (self.new ≡ with_vote self.old replica vote) }
        ensures answer { OnFalse (has_voted replica self.old) (result ≡ tally_says self.new.replicas self.new.votes) }
        ensures wait { (result ≡ TallyOut.Wait) ↔ (IsTrue (has_voted replica self.old) ⊎ CallsForNothing self.new) }
    {
        if self.has_voted(replica) {
            return TallyOut::Wait;
        }
        self.votes.push(FirstVote { replica, vote });
        called_for(self.replicas, &self.votes)
    }

    /// What a client proposes on the slow path if it waits for no more votes: Commit where a majority voted so.
    pub fn hurry(&self) -> Choice
        ensures { result ≡ hurried self.now.replicas self.now.votes }
    {
        if commit_count(&self.votes) >= quorum(self.replicas) {
            Choice::Commit
        } else {
            Choice::Abandon
        }
    }
}
