//! The world of a plan as a machine that replays events, by definition; and the rows that are reported of such a world, by
//! definition, and from what was noted of it as envelopes were sent and tries began: its replicas may have dropped what they
//! knew of an execution.
//!
//! Read `specs/Machine`, `Rows`, `MachineLaws` and `Lawfulness` first. A history is a replay, its last event first
//! (`proofs/HistoriesReplay`), and two ways to the same worlds make machines that answer alike (`SameWorlds`). The worlds of
//! every plan are a lawful machine (`Lawful`), by what it takes for an event to be enabled (`Enabling`).
//!
//! Then read `specs/Notes`: what was noted stands for the mail and the tries. `specs/Outcome` says what is gathered of the
//! committed executions (the values by `specs/Values`, the transactions by `specs/Left`), `specs/Report` what clients tell,
//! and `specs/Laws` that Commit is told in the mail of just the committed executions (`proofs/CommitsAreTold`).
//!
//! In `proofs`, `NotesLemmas` shows what one more envelope or try changes. `LastPrepare` finds the last Prepare of an
//! execution by its number, and its content is that of the last committed execution of this name (`LastCommitted`). A rising
//! list is the sorted one where it has the last of each name (`SortedLemmas`), and so the executions by their notes are those
//! of the definitions (`CommittedRows`). `ValuesLemmas` and `SortedKeys` have the values by key, `LeftLemmas` the committed
//! transactions and those that are left.
#![tactic(auto)]

mod left;
mod notes;
mod outcome;
mod values;

ghost use Rattle.world_rows.specs.Laws.{CommitsAreTold};
ghost use Rattle.world_rows.specs.Lawfulness.{WorldsAreLawful};
ghost use Rattle.world_rows.specs.MachineLaws.{HistoriesReplay};

pub use left::Progress;
pub use notes::Notes;

/// The world after a history is the replay of its events in order.
pub fn histories_replay()
    ensures { HistoriesReplay }
{}

/// The worlds of each plan are a lawful machine.
pub fn worlds_are_lawful()
    ensures { WorldsAreLawful }
{}

/// An execution is committed just where a Decide of Commit of it is in the mail.
pub fn commits_are_told()
    ensures { CommitsAreTold }
{}
