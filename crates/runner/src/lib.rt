//! Runs a hub to its end, and a machine with its links from its origin on (`specs/WholeRun`).
//!
//! A run ends since each round leaves less to do (`specs/Progress`): a pick takes one of its node's turns or gives it its
//! idle mark, and a segment that is used takes a pending job away. That this is so is shown event by event in
//! `proofs/EventsFall`, and for a whole turn in `proofs/TurnsFall`.
//!
//! And it is made in rounds: between two visits the node that is due is the first from the next slot on that does not rest
//! (`specs/AtSlot`, `proofs/NodesFrom`), so that each event is of the node that is due (`proofs/TurnsKept`, `Rounds`).
//! Neither count of the journal ever falls (`specs/Growth`, `proofs/Counts`).
//! The links come back with their picks, and those that tell a mind have followed their rule (`LinksBack`).
#![tactic(auto)]

mod fresh;
mod one;

pub use fresh::{Ran, run_boxed, run_fresh};
pub use one::{RunOut, run_one};
