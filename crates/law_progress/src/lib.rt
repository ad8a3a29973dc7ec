//! Transactions that are committed for certain.
//!
//! Read `specs/Undisturbed`, `Apart` and `FirstCommits`: what may happen, which transaction is meant, and the law.
//!
//! Let no node be stopped or hurried, and no warden recover or truncate (`UndisturbedSteps`). Then no warden says anything
//! (`CalmWardens`). So of the keys of a transaction that no other names, a replica holds first values and nothing else below
//! its version, and nothing is in the way of its vote (`ApartReplicas`). So its client is told first values and Commit
//! votes alone (`NotesTold`, `ApartMessages`), and does what it does on these (`ClientHears`, `CommitTallies`,
//! `RepliesLemmas`). While it is under way, an envelope waits for it or for a replica (`WaitingLemmas`, `Stage`); from the
//! step in which it begins (`BegunLemmas`, `StageBegins`) each step keeps that up until it has committed (`StageMoves`).
//! Where all that was sent arrived, nothing waits, so it has (`FirstCommitsOfPlans`, and of scripts `FirstCommits`).
#![tactic(auto)]

ghost use Rattle.law_progress.specs.FirstCommits.{FirstCommits};

/// A transaction that shares no key with another is committed at once, if all that was sent arrived undisturbed.
pub fn first_commits()
    ensures { FirstCommits }
{}
