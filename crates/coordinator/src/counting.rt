//! How a client counts votes and acceptances, and what it proposes and decides on them.

ghost use Rattle.std.specs.Prelude.{◌≡◌, ◌==◌, ◌++◌, ◌∷◌, [], ℕ, suc, true, false, nat_le, length, None, List, Option, Some, IfOk};
ghost use Rattle.std.specs.Bool.{then_some};
ghost use Rattle.std.specs.List.{list_any};
ghost use Rattle.protocol.specs.Words.{Choice as ChoiceValue, Content as ContentValue, Voted, Accepted};
ghost use Rattle.protocol.specs.Client.State.{ClientState, CountedVote};
ghost use Rattle.protocol.specs.Client.State.Phase.{Prepared};
ghost use Rattle.protocol.specs.Client.Deciding.{content_for, decide};
ghost use Rattle.protocol.specs.Client.Counting.{hurried, propose, sender, tally_says};
ghost use Rattle.protocol.specs.Client.Step.{comes_prepared};
ghost use Rattle.protocol.specs.Quorums.{quorum};
ghost use Rattle.vote_tally.specs.Tally.{has_voted, with_vote};
ghost use Rattle.coordinator.specs.Counting.{Leaves, called_for, chosen};
ghost use Rattle.coordinator.specs.Memory.{Given, StandsFor, Takes};
ghost use Rattle.coordinator.specs.declared.memory.Ballot.{Ballot as BallotValue};
ghost use Rattle.coordinator.specs.declared.memory.Proposed.{Proposed as ProposedValue};

use crate::deciding::only;
use crate::memory::{Ballot, Memory, Proposed, Stage};
use morty_base::{Exec, List, NoMemory, NodeId, is_same_exec};
use msg::{Body, Choice, Content, Vote};
use protocol::{quorum, sender};
use std::alloc::Global;
use vote_tally::TallyOut;

impl Proposed {
    fn has_accepted(&self, replica: u32) -> bool
        ensures { result ≡ list_any (λ i. i == replica) self.now.accepts }
    {
        self.accepts
            .as_slice()
            .iter()
            .any(|accepter| *accepter == replica)
    }

    // The choice, once a quorum of so many replicas accepted it.
    fn chosen(&self, replicas: u32) -> Option<Choice>
        ensures { result ≡ then_some (nat_le (quorum replicas) (length self.now.accepts)) self.now.choice }
    {
        if quorum(replicas) <= self.accepts.len() {
            return Some(self.choice);
        }
        None
    }

    // Counts the first acceptance of a replica, and tells the choice where a quorum's decide it.
    fn count(&mut self, replicas: u32, from: NodeId) -> Result<Option<Choice>, NoMemory>
        ensures stranger { IfOk result (λ o. sender replicas from ≡ None → (self.new ≡ self.old) × (o ≡ None)) }
        ensures again { IfOk result (λ o. (j : ℕ) → sender replicas from ≡ Some j → list_any (λ i. i == j) self.old.accepts ≡ true → (self.new ≡ self.old) × (o ≡ None)) }
        ensures first { IfOk result (λ o. (j : ℕ) → sender replicas from ≡ Some j → list_any (λ i. i == j) self.old.accepts ≡ false →
            (self.new ≡ record self.old { accepts = self.old.accepts ++ j ∷ [] }) × (o ≡ then_some (nat_le (quorum replicas) (suc (length self.old.accepts))) self.old.choice)) }
    {
        let Some(replica) = sender(replicas, from) else {
            return Ok(None);
        };
        if self.has_accepted(replica) {
            return Ok(None);
        }
        self.accepts.push(replica)?;
        Ok(self.chosen(replicas))
    }
}

impl Ballot {
    // Counts the first vote of a replica, until a choice is proposed.
    fn count_vote(&mut self, from: NodeId, vote: Vote) -> TallyOut
        ensures proposed { (p : ProposedValue) → self.old.proposal ≡ Some p → (self.new ≡ self.old) × (result ≡ TallyOut.Wait) }
        ensures stranger { sender self.old.tally.replicas from ≡ None → (self.new ≡ self.old) × (result ≡ TallyOut.Wait) }
        ensures again { (j : ℕ) → sender self.old.tally.replicas from ≡ Some j → has_voted j self.old.tally ≡ true → (self.new ≡ self.old) × (result ≡ TallyOut.Wait) }
        ensures first { (j : ℕ) → self.old.proposal ≡ None → sender self.old.tally.replicas from ≡ Some j → has_voted j self.old.tally ≡ false →
            (self.new ≡ record self.old { tally = with_vote self.old.tally j vote }) × (result ≡ tally_says self.new.tally.replicas self.new.tally.votes) }
    {
        if self.proposal.is_some() {
            return TallyOut::Wait;
        }
        let Some(replica) = sender(self.tally.replicas(), from) else {
            return TallyOut::Wait;
        };
        self.tally.add(replica, vote)
    }

    // Counts the first acceptance of a replica, once a choice is proposed.
    fn count_accept(&mut self, from: NodeId) -> Result<Option<Choice>, NoMemory>
        ensures unproposed { IfOk result (λ o. self.old.proposal ≡ None → (self.new ≡ self.old) × (o ≡ None)) }
        ensures stranger { IfOk result (λ o. sender self.old.tally.replicas from ≡ None → (self.new ≡ self.old) × (o ≡ None)) }
        ensures again { IfOk result (λ o. (p : ProposedValue) (j : ℕ) → self.old.proposal ≡ Some p → sender self.old.tally.replicas from ≡ Some j → list_any (λ i. i == j) p.accepts ≡ true →
            (self.new ≡ self.old) × (o ≡ None)) }
        ensures first { IfOk result (λ o. (p : ProposedValue) (j : ℕ) → self.old.proposal ≡ Some p → sender self.old.tally.replicas from ≡ Some j → list_any (λ i. i == j) p.accepts ≡ false →
            (self.new ≡ record self.old { proposal = Some (record p { accepts = p.accepts ++ j ∷ [] }) })
            × (o ≡ then_some (nat_le (quorum self.old.tally.replicas) (suc (length p.accepts))) p.choice)) }
    {
        let replicas = self.tally.replicas();
        let Some(proposed) = &mut self.proposal else {
            return Ok(None);
        };
        let choice = proposed.count(replicas, from)?;
        Ok(choice)
    }

    // A choice of Commit goes out with the content.
    fn content_for(&self, alloc: Global, choice: Choice) -> Result<Option<Content>, NoMemory>
        ensures { IfOk result (λ o. o ≡ content_for self.now.content choice) }
    {
        match choice {
            Choice::Abandon => Ok(None),
            Choice::Commit => {
                let content = self.content.copy(alloc)?;
                Ok(Some(content))
            }
        }
    }

    // The choice is proposed, and nobody accepted it yet.
    fn propose(&mut self, alloc: Global, choice: Choice)
        ensures { self.new ≡ record self.old { proposal = Some (record { choice = choice; accepts = [] }) } }
    {
        self.proposal = Some(Proposed {
            choice,
            accepts: List::new(alloc),
        });
    }
}

impl Memory {
    // The content that a choice on the prepared execution goes out with.
    fn prepared_content(&self, alloc: Global, choice: Choice) -> Result<Option<Content>, NoMemory>
        ensures { IfOk result (λ o. (g : Given) (c : ClientState) (content : ContentValue) (votes : List CountedVote) (proposal : Option ChoiceValue) (accepts : List ℕ) → StandsFor g c self.now →
            c.phase ≡ Prepared content votes proposal accepts → o ≡ content_for content choice) }
    {
        match &self.stage {
            Stage::Prepared(ballot) => {
                let content = ballot.content_for(alloc, choice)?;
                Ok(content)
            }
            _ => Ok(None),
        }
    }

    // The ballot takes the choice.
    fn put_proposal(&mut self, alloc: Global, choice: Choice)
        ensures { (b : BallotValue) → self.old.stage ≡ Stage.Prepared b → self.new ≡ record self.old { stage = Stage.Prepared (record b { proposal = Some (record { choice = choice; accepts = [] }) }) } }
    {
        if let Stage::Prepared(ballot) = &mut self.stage {
            ballot.propose(alloc, choice);
        }
    }

    /// Proposes a choice in view 0.
    pub(crate) fn propose(&mut self, alloc: Global, choice: Choice) -> Result<List<Body>, NoMemory>
        ensures { IfOk result (λ out. (g : Given) (c : ClientState) (content : ContentValue) (votes : List CountedVote) (proposal : Option ChoiceValue) (accepts : List ℕ) → StandsFor g c self.old →
            c.phase ≡ Prepared content votes proposal accepts → Takes g (propose c content votes choice) self.new out) }
    {
        let content = self.prepared_content(alloc, choice)?;
        self.put_proposal(alloc, choice);
        let sent = only(
            alloc,
            Body::Finalize {
                exec: self.course.exec,
                view: 0,
                choice,
                content,
            },
        )?;
        Ok(sent)
    }

    /// A client's own decision goes to all.
    pub(crate) fn decide(&mut self, alloc: Global, choice: Choice) -> Result<List<Body>, NoMemory>
        ensures { IfOk result (λ out. (g : Given) (c : ClientState) (content : ContentValue) (votes : List CountedVote) (proposal : Option ChoiceValue) (accepts : List ℕ) → StandsFor g c self.old →
            c.phase ≡ Prepared content votes proposal accepts → Takes g (decide g.rules c content choice) self.new out) }
    {
        let content = self.prepared_content(alloc, choice)?;
        let sent = only(
            alloc,
            Body::Decide {
                exec: self.course.exec,
                choice,
                content,
            },
        )?;
        let out = self.conclude(alloc, choice, sent)?;
        Ok(out)
    }

    // What is proposed without waiting for more votes.
    fn hurried(&self) -> Choice
        ensures { (g : Given) (c : ClientState) (content : ContentValue) (votes : List CountedVote) (proposal : Option ChoiceValue) (accepts : List ℕ) → StandsFor g c self.now →
            c.phase ≡ Prepared content votes proposal accepts → result ≡ hurried g.rules.replicas votes }
    {
        match &self.stage {
            Stage::Prepared(ballot) => ballot.tally.hurry(),
            _ => Choice::Abandon,
        }
    }

    /// Waits for no more votes.
    pub(crate) fn hurry(&mut self, alloc: Global) -> Result<List<Body>, NoMemory>
        ensures { IfOk result (λ out. (g : Given) (c : ClientState) (content : ContentValue) (votes : List CountedVote) (proposal : Option ChoiceValue) (accepts : List ℕ) → StandsFor g c self.old →
            c.phase ≡ Prepared content votes proposal accepts → Takes g (propose c content votes (hurried g.rules.replicas votes)) self.new out) }
    {
        let choice = self.hurried();
        let sent = self.propose(alloc, choice)?;
        Ok(sent)
    }

    // Counts a vote on the prepared execution, and tells what the votes call for.
    fn count_vote(&mut self, from: NodeId, exec: Exec, vote: Vote) -> TallyOut
        ensures { (g : Given) (c : ClientState) (content : ContentValue) (votes : List CountedVote) (proposal : Option ChoiceValue) (accepts : List ℕ) → StandsFor g c self.old →
            c.phase ≡ Prepared content votes proposal accepts →
            Leaves g content (comes_prepared g.rules c content votes proposal accepts from (Voted exec vote)) self.new (λ d more. called_for g.rules d content more result) }
    {
        if !is_same_exec(exec, self.course.exec) {
            return TallyOut::Wait;
        }
        match &mut self.stage {
            Stage::Prepared(ballot) => ballot.count_vote(from, vote),
            _ => TallyOut::Wait,
        }
    }

    /// Takes a vote: it does what the votes so far call for.
    pub(crate) fn counts_vote(
        &mut self,
        alloc: Global,
        from: NodeId,
        exec: Exec,
        vote: Vote,
    ) -> Result<List<Body>, NoMemory>
        ensures { IfOk result (λ out. (g : Given) (c : ClientState) (content : ContentValue) (votes : List CountedVote) (proposal : Option ChoiceValue) (accepts : List ℕ) → StandsFor g c self.old →
            c.phase ≡ Prepared content votes proposal accepts → Takes g (comes_prepared g.rules c content votes proposal accepts from (Voted exec vote)) self.new out) }
    {
        match self.count_vote(from, exec, vote) {
            TallyOut::Wait => Ok(List::new(alloc)),
            TallyOut::FastCommit => {
                let out = self.decide(alloc, Choice::Commit)?;
                Ok(out)
            }
            TallyOut::FastAbandon => {
                let out = self.decide(alloc, Choice::Abandon)?;
                Ok(out)
            }
            TallyOut::Propose(choice) => {
                let out = self.propose(alloc, choice)?;
                Ok(out)
            }
        }
    }

    // Counts an acceptance of what was proposed, and tells the choice that is decided by it.
    fn count_accept(
        &mut self,
        from: NodeId,
        exec: Exec,
        view: u32,
    ) -> Result<Option<Choice>, NoMemory>
        ensures { IfOk result (λ o. (g : Given) (c : ClientState) (content : ContentValue) (votes : List CountedVote) (proposal : Option ChoiceValue) (accepts : List ℕ) → StandsFor g c self.old →
            c.phase ≡ Prepared content votes proposal accepts →
            Leaves g content (comes_prepared g.rules c content votes proposal accepts from (Accepted exec view)) self.new (λ d more. chosen g.rules d content o)) }
    {
        if view != 0 {
            return Ok(None);
        }
        if !is_same_exec(exec, self.course.exec) {
            return Ok(None);
        }
        let Stage::Prepared(ballot) = &mut self.stage else {
            return Ok(None);
        };
        let choice = ballot.count_accept(from)?;
        Ok(choice)
    }

    /// Takes an acceptance: a quorum's decide what was proposed.
    pub(crate) fn counts_accept(
        &mut self,
        alloc: Global,
        from: NodeId,
        exec: Exec,
        view: u32,
    ) -> Result<List<Body>, NoMemory>
        ensures { IfOk result (λ out. (g : Given) (c : ClientState) (content : ContentValue) (votes : List CountedVote) (proposal : Option ChoiceValue) (accepts : List ℕ) → StandsFor g c self.old →
            c.phase ≡ Prepared content votes proposal accepts → Takes g (comes_prepared g.rules c content votes proposal accepts from (Accepted exec view)) self.new out) }
    {
        let decided = self.count_accept(from, exec, view)?;
        let Some(choice) = decided else {
            return Ok(List::new(alloc));
        };
        let out = self.decide(alloc, choice)?;
        Ok(out)
    }
}
