//! The laws of safety, for every plan with a replica and every list of events: agreement, one execution, the base.
//!
//! Each law is the contract of a function with an empty body, and the proof file of its name proves it. (A name of one
//! word takes `Law` behind it: `AgreementLaw`, `ViewsLaw`.)
//!
//! One induction over the small steps of a world carries what was proposed, what is locked, what was decided, the Final
//! votes and the bases of Drops (`Invariant`), since each of these needs the others one step earlier. It stands on what a
//! step adds: one content and one choice a view (`OneProposal`, `OneContent`), locks that stay (`LocksLemmas`, `LocksStay`),
//! what clients and wardens counted and sent (`ClientEvidence`, `WardenEvidence`, `WardenSent`, `CountedQuorums`,
//! `ShapedBodies`), what stands in bases (`BaseLemmas`, `BaseEntries`). A warden's choice by its Tolds follows the locks
//! below its view (`ChoiceOfTolds`), so a step keeps the locks (`InvariantStep`); a truncation that has its answers settles
//! what is at or below its version (`TruncationSettles`); and both together with the Final votes are the induction
//! (`InvariantHolds`).
//!
//! The laws are read off from it: on decisions (`CommitIsSent`, `AgreementLaw`, `DecisionsStay`, `NoConflict`), on what they
//! rest on (`CommitNeedsVotes`, `AbandonProposals`, `ViewsLaw`, `LocksHold`, `AnswersTell`), on tries (`OneExecution`,
//! `OneTry`), on the outcome (`CommittedList`, by `RisingLemmas` and `Absent`), on bases (`BaseIsOne`, `BaseOfWorld`,
//! `DropSettles`, `BaseOfDrop`, `FenceNames`, `TwoVotes`), and on contents (`ContentsReplayed`). What a replica holds
//! (`HeldLemmas`) is for the laws on reads above.
#![tactic(auto)]

ghost use Rattle.law_safety.specs.Agreement.{Agreement, DecisionsStay, NoConflict};
ghost use Rattle.law_safety.specs.Tries.{OneExecution, OneTry};
ghost use Rattle.law_safety.specs.Bases.{BaseOfWorld, BaseOfDrop, BaseIsOne, TwoVotes, FenceNames, DropSettles};
ghost use Rattle.law_safety.specs.CommittedList.{CommittedList};
ghost use Rattle.law_safety.specs.Replays.{ContentsReplayed};
ghost use Rattle.law_safety.specs.Invariants.{OneContent, CommitNeedsVotes, AbandonProposals, Views, LocksHold, AnswersTell, CommitIsSent};

/// No two nodes decide an execution differently, whatever happens.
pub fn agreement()
    ensures { Agreement }
{}

/// What a node decided of an execution, or learnt as decided, stays.
pub fn decisions_stay()
    ensures { DecisionsStay }
{}

/// No two committed executions are in conflict.
pub fn no_conflict()
    ensures { NoConflict }
{}

/// Of all executions of all tries of a transaction at most one is committed.
pub fn one_execution()
    ensures { OneExecution }
{}

/// Each committed execution is one of just one try.
pub fn one_try()
    ensures { OneTry }
{}

/// The list of the committed executions of a world is the one list that has each of them once, in rising order, with
/// the content of its Prepare, its transaction and its try.
pub fn committed_list()
    ensures { CommittedList }
{}

/// The base of a world at a version is the one list, rising by key, that has for each key with a committed write at or
/// below the version the write of the greatest name.
pub fn base_of_world()
    ensures { BaseOfWorld }
{}

/// A Drop carries the base of the world at its version, and keeps it: nothing at or below it is committed later.
pub fn base_of_drop()
    ensures { BaseOfDrop }
{}

/// A world has one base at a version.
pub fn base_is_one()
    ensures { BaseIsOne }
{}

/// All contents of an execution in the mail are equal.
pub fn one_content()
    ensures { OneContent }
{}

/// Where Commit of an execution was decided or proposed, a quorum of the replicas voted Commit on it.
pub fn commit_needs_votes()
    ensures { CommitNeedsVotes }
{}

/// Of two votes for Commit in conflict at one replica, the earlier one was decided Abandon there, or dropped with no
/// later write of the key in the base.
pub fn two_votes()
    ensures { TwoVotes }
{}

/// Where Abandon was proposed, the client proposed it in view 0, or some replica is shut to the execution.
pub fn abandon_proposals()
    ensures { AbandonProposals }
{}

/// The proposals of one view carry one choice, and what a quorum accepted, every proposal of a higher view carries.
pub fn views()
    ensures { Views }
{}

/// What is decided is locked, a Final vote locks Abandon, and nothing is locked both ways.
pub fn locks_hold()
    ensures { LocksHold }
{}

/// The counted answers of a truncation name each committed execution at or below its version, or it was dropped before.
pub fn fence_names()
    ensures { FenceNames }
{}

/// What is at or below a dropped version is committed, or Abandon of it is locked.
pub fn drop_settles()
    ensures { DropSettles }
{}

/// A replica voted and accepted by its list just what it said in the mail.
pub fn answers_tell()
    ensures { AnswersTell }
{}

/// An execution is committed just where a Decide of Commit of it was sent.
pub fn commit_is_sent()
    ensures { CommitIsSent }
{}

/// Each content that was prepared is what the program of its attempt does on the answers that it got.
pub fn contents_replayed()
    ensures { ContentsReplayed }
{}
