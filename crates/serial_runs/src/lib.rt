//! Programs run from their first statement: on a map of the store, and replayed on a list of answers.
//!
//! The definitions: a map of the store as entries (`Map`), and what an execution under way did, with the whole run that
//! it is a part of (`Execution`). What programs mean is `txn_lang`'s.
//!
//! The proof: an ordered map holds what its entries show (`MapLemmas`); a statement moves an execution on while
//! its whole run stays the same (`ExecutionLemmas`), and so does a `repeat`, whose rounds are counted (`RepeatLemmas`).
#![tactic(auto)]

mod effects;
mod entry;
mod execution;
mod known;
mod map;
mod program;
mod run;
mod source;

pub use effects::{Effects, Replay, SerialRun, Stop};
pub use entry::Entry;
pub use known::Known;
pub use map::Map;
pub use program::{run_on_answers, run_on_map};
