//! What a replica keeps of one execution to have it decided: the promised view, its vote, the pair that it accepted, and
//! the decision.
//!
//! Read `specs/Cell` first: `StandsFor` says what a cell tells of the list of all that its replica handled. Each call
//! then says that the new cell stands for the list with one more envelope, an Ask or a Finalize, and what is answered.
//! `specs/Laws` says the same of a Prepare and a Decide, and that no other envelope changes the cell. The proofs follow:
//! `CellLemmas`, then one file for each law.
#![tactic(auto)]

ghost use Rattle.std.specs.Prelude.{◌≡◌, ◌<◌, ◌≤◌, ◌↔◌, [], IsTrue, IsNone, IfNone, OnSome, IfSome};
ghost use Rattle.std.specs.Bool.{OnTrue, OnFalse};
ghost use Rattle.morty_base.specs.declared.names.Exec.{Exec as Execution};
ghost use Rattle.view_cell.specs.Cell.{StandsFor, AskLeadsTo, TellsAsk, FinalizeLeadsTo, TellsFinalize, told_of, with_pair};
ghost use Rattle.view_cell.specs.Laws.{VotesStand, DecisionsStand, OthersLeaveIt};

use msg::{Accept, Choice, Vote};

/// The state of an acceptor of single-decree consensus by numbered views, as in Paxos, with the vote that its replica
/// cast before any view above 0 was promised.
#[derive(Clone, Copy, Debug, PartialEq, Eq)]
pub struct Cell {
    pub promised: u32,
    pub vote: Option<Vote>,
    pub accepted: Option<Accept>,
    pub decided: Option<Choice>,
}

/// What a cell tells with a promise.
#[derive(Clone, Copy, Debug, PartialEq, Eq)]
pub struct ToldPart {
    pub vote: Option<Vote>,
    pub accepted: Option<Accept>,
    pub decided: Option<Choice>,
}

impl Cell {
    /// The cell of an execution of which nothing came. View 0 needs no promise.
    pub fn new() -> Cell
        ensures { (x : Execution) → StandsFor [] x result }
    {
        Cell {
            promised: 0,
            vote: None,
            accepted: None,
            decided: None,
        }
    }

    /// Promises to accept nothing below the view, and tells what came before, or refuses. As in an acceptor of
    /// single-decree consensus, a view is promised once.
    pub fn promise(&mut self, view: u32) -> Option<ToldPart>
        ensures refused { IsNone result ↔ (view ≤ self.old.promised) }
        ensures unchanged { IfNone result (self.new ≡ self.old) }
        ensures promised { OnSome result (self.new ≡ record self.old { promised = view }) }
        ensures told { IfSome result (λ part. part ≡ told_of self.old) }
        ensures next { AskLeadsTo view self.old self.new }
        ensures answer { TellsAsk view self.old result }
    {
        if view <= self.promised {
            return None;
        }
        self.promised = view;
        Some(ToldPart {
            vote: self.vote,
            accepted: self.accepted,
            decided: self.decided,
        })
    }

    /// Accepts the choice that is proposed in the view, unless a higher view is promised. As in an acceptor of
    /// single-decree consensus, who accepts in a view has promised it too.
    pub fn accept(&mut self, view: u32, choice: Choice) -> bool
        ensures taken { IsTrue result ↔ (self.old.promised ≤ view) }
        ensures unchanged { OnFalse result (self.new ≡ self.old) }
        ensures accepted { OnTrue result (self.new ≡ with_pair self.old view choice) }
        ensures next { FinalizeLeadsTo view choice self.old self.new }
        ensures answer { TellsFinalize view choice self.old result }
    {
        if view < self.promised {
            return false;
        }
        let pair = Accept { view, choice };
        self.promised = pair.view;
        self.accepted = Some(pair);
        true
    }
}

/// A Prepare of an execution gives its cell a vote, where the cell is still open to one, and else changes nothing.
pub fn votes_stand()
    ensures { VotesStand }
{}

/// A Decide of an execution gives its cell the decision, unless one stands.
pub fn decisions_stand()
    ensures { DecisionsStand }
{}

/// The cell of an execution changes only by a Prepare, a Finalize, a Decide or an Ask of that execution.
pub fn others_leave_it()
    ensures { OthersLeaveIt }
{}
