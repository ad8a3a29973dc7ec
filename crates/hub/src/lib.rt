//! A run: a machine, the links that pick for its nodes, and the journal of what happened.
//!
//! Read `specs/Starts` (what a run started from, and what stays true of it), `Views` (what callers see of a hub), `Turns`
//! (the cases of a turn, what each does, and what giving a segment back does) and `Kept` (what a hub keeps beside its run:
//! marks, turns and counts, each of which the journal fixes).
//!
//! The proofs follow one more event through all of it: a link that picked or did not (`proofs/Linking`), marks, turns and
//! the end after a pick (`Ends`), and a segment that was given back (`Giving`). Which job is pending, the machine alone
//! says: its jobs in the order of the slots (`Jobs`), and the one that a turn hands out (`Handing`).
#![tactic(auto)]

mod hub;
mod named;
mod rooms;
mod turn_out;

pub use hub::Hub;
pub use named::Named;
pub use turn_out::{Counted, TurnCase, TurnOut};
