//! Runs of the protocol, computed from its definitions. Nothing stands on this crate.
//!
//! Each run is a plan with a list of events, and says the whole mail that they make, envelope by envelope, and what was
//! decided. Read `specs/Samples` (programs, plans, names), then `Commits`, `ReExecutions`, `Recoveries` and `Truncations`;
//! `docs/PROTOCOL.md` draws some of them. `SamplePrograms` says that the sample programs are programs of the language,
//! `JournalRuns` has small runs by the fair rule, and `QuietRun` a run of a script within its limits that meets the
//! premises of the law on first commits.
#![tactic(auto)]

ghost use Rattle.protocol_runs.specs.Commits.{FirstRun, FastPath, HurriedClient, FinalVote};
ghost use Rattle.protocol_runs.specs.ReExecutions.{MissedWrite, ReExecution, VanishedWrite};
ghost use Rattle.protocol_runs.specs.Recoveries.{ViewContest, WardenAbandons, ThreeViews};
ghost use Rattle.protocol_runs.specs.Truncations.{Truncated, DroppedReader};
ghost use Rattle.protocol_runs.specs.SamplePrograms.{SamplesArePrograms};
ghost use Rattle.protocol_runs.specs.JournalRuns.{SmallRuns};
ghost use Rattle.protocol_runs.specs.QuietRun.{QuietRun};

/// One client and one replica: nine events.
pub fn first_run()
    ensures { FirstRun }
{}

/// Three replicas that vote Commit decide at once.
pub fn fast_path()
    ensures { FastPath }
{}

/// Two Commit votes of three replicas decide nothing by themselves: a client that waits no longer proposes Commit.
pub fn hurried_client()
    ensures { HurriedClient }
{}

/// A write that a committed read has missed is abandoned.
pub fn final_vote()
    ensures { FinalVote }
{}

/// A missed write begins the next execution at its read.
pub fn missed_write()
    ensures { MissedWrite }
{}

/// A prepared execution that missed a write is abandoned, and runs again from its read.
pub fn re_execution()
    ensures { ReExecution }
{}

/// Nothing is prepared on a write that is not sure, and where it vanishes its reader is told, and runs again.
pub fn vanished_write()
    ensures { VanishedWrite }
{}

/// Two wardens in two views: the second proposes what was accepted in the first.
pub fn view_contest()
    ensures { ViewContest }
{}

/// A warden that hears of a replica without a vote proposes Abandon, and a replica that promised its view votes no more.
pub fn warden_abandons()
    ensures { WardenAbandons }
{}

/// A warden proposes what was accepted in the highest view that it hears of.
pub fn three_views()
    ensures { ThreeViews }
{}

/// A truncation, with a read below it that comes too late and one above it.
pub fn truncated()
    ensures { Truncated }
{}

/// A reader at or below a dropped version gets no Notes any more.
pub fn dropped_reader()
    ensures { DroppedReader }
{}

/// The sample programs do what programs of the language do.
pub fn samples_are_programs()
    ensures { SamplesArePrograms }
{}

/// Small runs by the fair rule: one that ends quiet, one whose nodes are out of turns, and one with nothing to do.
pub fn small_runs()
    ensures { SmallRuns }
{}

/// The premises of the law on first commits are met by a run of a script within its limits: one client and one replica,
/// and nine events.
pub fn quiet_run()
    ensures { QuietRun }
{}
