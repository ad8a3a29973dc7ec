//! The rows of a serial run: programs at versions, one after another on first values.
//!
//! Read `specs/Rows` first: the committed transactions are the runs of `txn_lang`'s serial run, each at its version, and the
//! values are those of the map that they leave, by rising key (`Values`). While programs run the map is kept beside the set
//! of the keys that it names (`specs/Tables`, `proofs/TableLemmas`); one more program is `proofs/OneMore`.
#![tactic(auto)]

mod commits;
mod item;
mod keys;
mod serial;
mod table;

pub use item::Versioned;
pub use serial::serial_rows;
