//! What a replica promised, voted, accepted, decided and knows of each execution, in an ordered map.

ghost use Rattle.std.specs.Prelude.{◌≡◌, [], ◌∷◌, true, false, not, cond, is_none, None, Option, List, OnOk, IfOk};
ghost use Rattle.std.specs.Option.{option_or, option_to_list};
ghost use Rattle.morty_base.specs.declared.names.NodeId.{NodeId as NodeValue};
ghost use Rattle.morty_base.specs.declared.names.Exec.{Exec as ExecValue};
ghost use Rattle.morty_base.specs.Names.{before, same_exec};
ghost use Rattle.msg.specs.declared.BaseEntry.{BaseEntry as EntryValue};
ghost use Rattle.msg.specs.declared.Body.TheVariants.{Prepare, Finalize, Decide, Ask, Drop as Drops};
ghost use Rattle.protocol.specs.declared.First2.{First2 as FirstValue};
ghost use Rattle.protocol.specs.Replica.Taken.{Handled, dropped, lacks_content};
ghost use Rattle.protocol.specs.Replica.Acceptor.{decided};
ghost use Rattle.protocol.specs.Replica.Votes.{casts, may_vote as may_vote_of, verdict};
ghost use Rattle.protocol.specs.Replica.Says.{answer};
ghost use Rattle.view_cell.specs.Cell.{told as told_of, open_to_vote};
ghost use Rattle.replica.specs.Known.{known_after};

use morty_base::{Exec, NoMemory, Version, is_before};
use msg::{Body, Choice, Content, Vote, copy_content};
use std::alloc::Global;
use std::collections::BTreeMap;
use view_cell::{Cell, ToldPart};

/// What is kept of one execution: its acceptor, and the content that is known.
#[derive(Debug, Drop)]
pub struct Ballot {
    cell: Cell,
    content: Option<Content>,
}

/// What is kept of each execution; nothing, where nothing came.
#[derive(Debug, Drop)]
pub struct Ballots {
    ballots: BTreeMap<Exec, Ballot>,
}

/// No view above 0 is promised, no vote is cast and nothing is decided.
fn is_open(cell: Cell) -> bool
    ensures { result ≡ open_to_vote cell }
{
    cell.promised == 0 && (cell.vote.is_none() && cell.decided.is_none())
}

/// The body that tells what came before a promise.
fn told(exec: Exec, view: u32, part: ToldPart, content: Option<Content>) -> Body
    ensures { option_to_list (Some result) ≡ told_of exec view (Some part) content }
{
    Body::Told {
        exec,
        view,
        vote: part.vote,
        accepted: part.accepted,
        decided: part.decided,
        content,
    }
}

/// The content that is known, or else this one.
fn known_or(
    alloc: Global,
    known: Option<Content>,
    content: &Option<Content>,
) -> Result<Option<Content>, NoMemory>
    ensures { IfOk result (λ o. o ≡ option_or known content.now) }
{
    match known {
        None => copy_content(alloc, content),
        Some(known) => Ok(Some(known)),
    }
}

/// The content that is known once a choice is decided: that of a Commit takes the place of what was known.
fn known_once_decided(
    alloc: Global,
    choice: Choice,
    known: Option<Content>,
    content: &Option<Content>,
) -> Result<Option<Content>, NoMemory>
    ensures { IfOk result (λ o. o ≡ known_after choice content.now known) }
{
    match (choice, content) {
        (Choice::Commit, Some(content)) => {
            let copy = content.copy(alloc)?;
            Ok(Some(copy))
        }
        _ => Ok(known),
    }
}

impl Ballots {
    ghost use Rattle.replica.specs.Ballots.{StandsFor, ballot_at, blank};

    /// Nothing came yet.
    pub fn new(alloc: Global) -> Ballots
        ensures { StandsFor [] result }
    {
        Ballots {
            ballots: BTreeMap::new(alloc),
        }
    }

    /// The acceptor of an execution.
    fn cell(&self, exec: Exec) -> Cell
        ensures { result ≡ (ballot_at self.now exec).cell }
    {
        match self.ballots.get(&exec) {
            None => Cell::new(),
            Some(ballot) => ballot.cell,
        }
    }

    /// The content that is known of an execution.
    fn known(&self, alloc: Global, exec: Exec) -> Result<Option<Content>, NoMemory>
        ensures { IfOk result (λ o. o ≡ (ballot_at self.now exec).content) }
    {
        match self.ballots.get(&exec) {
            None => Ok(None),
            Some(ballot) => copy_content(alloc, &ballot.content),
        }
    }

    /// What is kept of an execution is taken out.
    fn take(&mut self, exec: Exec) -> Ballot
        ensures taken { result ≡ ballot_at self.old exec }
        ensures rest { (x : ExecValue) → ballot_at self.new x ≡ cond (same_exec x exec) blank (ballot_at self.old x) }
    {
        match self.ballots.remove(&exec) {
            None => Ballot {
                cell: Cell::new(),
                content: None,
            },
            Some(ballot) => ballot,
        }
    }

    /// This is kept of an execution from now on.
    fn put(&mut self, exec: Exec, cell: Cell, content: Option<Content>) -> Result<(), NoMemory>
        ensures { OnOk result ((x : ExecValue) → ballot_at self.new x ≡ cond (same_exec x exec) (record { cell = cell; content = content }) (ballot_at self.old x)) }
    {
        self.ballots.insert(exec, Ballot { cell, content })?;
        Ok(())
    }

    /// A vote is cast once, before a view above 0 is promised and before a decision.
    pub fn may_vote(&self, exec: Exec) -> bool
        ensures { (h : Handled) → StandsFor h self.now → before (dropped h) exec.ver ≡ true → result ≡ may_vote_of h (casts h) exec }
    {
        is_open(self.cell(exec))
    }

    /// Casts the vote on an execution with this content.
    pub fn vote(
        &mut self,
        alloc: Global,
        exec: Exec,
        content: &Content,
        vote: Vote,
    ) -> Result<(), NoMemory>
        ensures { (h : Handled) (from to : NodeValue) → StandsFor h self.old → before (dropped h) exec.ver ≡ true → may_vote_of h (casts h) exec ≡ true → vote ≡ verdict h (casts h) exec content.now → OnOk result (StandsFor (record { from = from; to = to; body = Prepare exec content.now } ∷ h) self.new) }
    {
        let mut cell = self.cell(exec);
        cell.vote = Some(vote);
        let content = content.copy(alloc)?;
        self.put(exec, cell, Some(content))?;
        Ok(())
    }

    /// Promises a view, unless it or a higher one is promised, and tells what came before.
    pub fn promise(
        &mut self,
        alloc: Global,
        exec: Exec,
        view: u32,
    ) -> Result<Option<Body>, NoMemory>
        ensures answers { (firsts : List FirstValue) (h : Handled) → StandsFor h self.old → before (dropped h) exec.ver ≡ true → IfOk result (λ o. option_to_list o ≡ answer firsts h (Ask exec view)) }
        ensures stands { (h : Handled) (from to : NodeValue) → StandsFor h self.old → before (dropped h) exec.ver ≡ true → OnOk result (StandsFor (record { from = from; to = to; body = Ask exec view } ∷ h) self.new) }
    {
        let mut cell = self.cell(exec);
        match cell.promise(view) {
            None => Ok(None),
            Some(part) => {
                let Ballot {
                    cell: _,
                    content: kept,
                } = self.take(exec);
                let content = copy_content(alloc, &kept)?;
                self.put(exec, cell, kept)?;
                Ok(Some(told(exec, view, part, content)))
            }
        }
    }

    /// Accepts the choice that is proposed in a view, unless a higher one is promised. The first content is kept.
    pub fn accept(
        &mut self,
        alloc: Global,
        exec: Exec,
        view: u32,
        choice: Choice,
        content: &Option<Content>,
    ) -> Result<Option<Body>, NoMemory>
        ensures answers { (firsts : List FirstValue) (h : Handled) → StandsFor h self.old → before (dropped h) exec.ver ≡ true → IfOk result (λ o. option_to_list o ≡ answer firsts h (Finalize exec view choice content.now)) }
        ensures stands { (h : Handled) (from to : NodeValue) → StandsFor h self.old → before (dropped h) exec.ver ≡ true → OnOk result (StandsFor (record { from = from; to = to; body = Finalize exec view choice content.now } ∷ h) self.new) }
    {
        let mut cell = self.cell(exec);
        if !cell.accept(view, choice) {
            return Ok(None);
        }
        let Ballot {
            cell: _,
            content: kept,
        } = self.take(exec);
        let known = known_or(alloc, kept, content)?;
        self.put(exec, cell, known)?;
        Ok(Some(Body::Accepted { exec, view }))
    }

    /// Whether an execution is decided.
    pub fn is_decided(&self, exec: Exec) -> bool
        ensures { (h : Handled) → StandsFor h self.now → before (dropped h) exec.ver ≡ true → result ≡ not (is_none (decided h exec)) }
    {
        self.cell(exec).decided.is_some()
    }

    /// The first decision on an execution.
    pub fn decide(
        &mut self,
        alloc: Global,
        exec: Exec,
        choice: Choice,
        content: &Option<Content>,
    ) -> Result<(), NoMemory>
        ensures { (h : Handled) (from to : NodeValue) → StandsFor h self.old → before (dropped h) exec.ver ≡ true → decided h exec ≡ None → OnOk result (StandsFor (record { from = from; to = to; body = Decide exec choice content.now } ∷ h) self.new) }
    {
        let mut cell = self.cell(exec);
        cell.decided = Some(choice);
        let Ballot {
            cell: _,
            content: kept,
        } = self.take(exec);
        let known = known_once_decided(alloc, choice, kept, content)?;
        self.put(exec, cell, known)?;
        Ok(())
    }

    /// Lets go of what is at or below a version.
    pub fn cut(&mut self, w: Version)
        ensures { (h : Handled) (from to : NodeValue) (base : List EntryValue) → StandsFor h self.old → StandsFor (record { from = from; to = to; body = Drops w base } ∷ h) self.new }
    {
        self.ballots.retain(
            |exec: &Exec, ballot: &mut Ballot| -> bool
                ensures { (result ≡ before w exec.now.ver) × (ballot.new ≡ ballot.old) }
            { is_before(w, exec.ver) },
        );
    }
}
