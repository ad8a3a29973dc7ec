ghost use Rattle.std.specs.Prelude.{◌≡◌, ◌==◌, IfOk};
ghost use Rattle.std.specs.List.{list_all};
ghost use Rattle.std.specs.Option.{option_copied};
ghost use Rattle.protocol.specs.Warden.Recovery.{told_commit, told_decision, told_accept, told_content, higher, fixed_choice, with_content, fixed};

use morty_base::{Exec, NoMemory};
use msg::{Accept, Body, Choice, Content, Vote, copy_content};
use std::alloc::Global;
use std::marker::Model;

/// What a replica told, in one view.
#[derive(Drop)]
pub struct Told {
    pub replica: u32,
    pub vote: Option<Vote>,
    pub accepted: Option<Accept>,
    pub decided: Option<Choice>,
    pub content: Option<Content>,
}

impl Model for Told {
    ghost use Rattle.protocol.specs.Warden.State.{ToldAnswer};

    ghost Value = { ToldAnswer };

    ghost view = { λ t. record { replica = t.replica; vote = t.vote; accepted = t.accepted; decided = t.decided; content = t.content } };
}

/// A choice, and for Commit its content.
#[derive(Drop)]
pub struct Proposal {
    pub choice: Choice,
    pub content: Option<Content>,
}

impl Model for Proposal {
    ghost use Rattle.protocol.specs.Warden.State.{Proposal};

    ghost Value = { Proposal };

    ghost view = { λ p. record { choice = p.choice; content = p.content } };
}

impl Proposal {
    pub fn choice(&self) -> Choice
        ensures { result ≡ self.now.choice }
    {
        self.choice
    }

    pub fn copy(&self, alloc: Global) -> Result<Proposal, NoMemory>
        ensures { IfOk result (λ p. p ≡ self.now) }
    {
        let content = copy_content(alloc, &self.content)?;
        Ok(Proposal {
            choice: self.choice,
            content,
        })
    }

    /// What proposes it in a view.
    pub fn finalize(&self, alloc: Global, exec: Exec, view: u32) -> Result<Body, NoMemory>
        ensures { IfOk result (λ b. b ≡ Body.Finalize exec view self.now.choice self.now.content) }
    {
        let content = copy_content(alloc, &self.content)?;
        Ok(Body::Finalize {
            exec,
            view,
            choice: self.choice,
            content,
        })
    }

    /// What tells that it is decided.
    pub fn decide(&self, alloc: Global, exec: Exec) -> Result<Body, NoMemory>
        ensures { IfOk result (λ b. b ≡ Body.Decide exec self.now.choice self.now.content) }
    {
        let content = copy_content(alloc, &self.content)?;
        Ok(Body::Decide {
            exec,
            choice: self.choice,
            content,
        })
    }
}

impl Told {
    pub fn is_of(&self, replica: u32) -> bool
        ensures { result ≡ (self.now.replica == replica) }
    {
        self.replica == replica
    }

    fn is_commit(&self) -> bool
        ensures { result ≡ told_commit self.now }
    {
        self.vote == Some(Vote::Commit)
    }
}

// The first decision that is told.
fn told_decision(tolds: &[Told]) -> Option<Choice>
    ensures { result ≡ told_decision tolds.now }
{
    match tolds.split_first() {
        None => None,
        Some((told, later)) => match told.decided {
            Some(choice) => Some(choice),
            None => told_decision(later),
        },
    }
}

// Whether all voted Commit.
fn all_commit(tolds: &[Told]) -> bool
    ensures { result ≡ list_all told_commit tolds.now }
{
    tolds.iter().all(|told| told.is_commit())
}

// The pair of the higher view, the first of equals.
fn higher(first: Option<Accept>, second: Option<Accept>) -> Option<Accept>
    ensures { result ≡ higher first second }
{
    match (first, second) {
        (None, pair) => pair,
        (pair, None) => pair,
        (Some(a), Some(b)) => Some(if a.view < b.view { b } else { a }),
    }
}

// The pair accepted in the highest view that is told.
fn told_accept(tolds: &[Told]) -> Option<Accept>
    ensures { result ≡ told_accept tolds.now }
{
    match tolds.split_first() {
        None => None,
        Some((told, later)) => higher(told.accepted, told_accept(later)),
    }
}

// The first content that is told.
fn told_content(tolds: &[Told]) -> Option<&Content>
    ensures { option_copied result ≡ told_content tolds.now }
{
    match tolds.split_first() {
        None => None,
        Some((told, later)) => match &told.content {
            Some(content) => Some(content),
            None => told_content(later),
        },
    }
}

// A decision, else the choice accepted in the highest view, else Commit where all voted so, else Abandon.
fn fixed_choice(decided: Option<Choice>, accepted: Option<Accept>, all_commit: bool) -> Choice
    ensures { result ≡ fixed_choice decided accepted all_commit }
{
    match (decided, accepted) {
        (Some(choice), _) => choice,
        (None, Some(pair)) => pair.choice,
        (None, None) => {
            if all_commit {
                Choice::Commit
            } else {
                Choice::Abandon
            }
        }
    }
}

// Without a content Commit cannot be proposed.
fn with_content(
    alloc: Global,
    choice: Choice,
    content: Option<&Content>,
) -> Result<Proposal, NoMemory>
    ensures { IfOk result (λ p. p ≡ with_content choice (option_copied content.entry)) }
{
    match (choice, content) {
        (Choice::Commit, Some(content)) => Ok(Proposal {
            choice,
            content: Some(content.copy(alloc)?),
        }),
        _ => Ok(Proposal {
            choice: Choice::Abandon,
            content: None,
        }),
    }
}

/// The proposal that the Tolds of a view fix: the proposer's rule of single-decree consensus.
#[tactic(auto, unfolding(protocol::specs::Warden::Recovery::fixed))]
pub fn fixed(alloc: Global, tolds: &[Told]) -> Result<Proposal, NoMemory>
    ensures { IfOk result (λ p. p ≡ fixed tolds.now) }
{
    let choice = fixed_choice(told_decision(tolds), told_accept(tolds), all_commit(tolds));
    with_content(alloc, choice, told_content(tolds))
}
