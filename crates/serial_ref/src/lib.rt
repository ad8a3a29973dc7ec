//! Serial runs of the transactions of a setup, in an order of versions that is handed in.
//!
//! Read `specs/SerialItem` first: which transaction an item names, and when items differ in their versions, stand in order
//! and rise. Then `specs/FirstTries`, the versions at which each transaction takes one try, and `specs/Serial`, the first
//! values and the programs that are run. What is reported of such a run is told by `serial_rows`.
//!
//! The proof: items that are sorted rise just where their versions differ (`proofs/OrderLemmas`); those of the first tries
//! name transactions (`proofs/TriesAreNamed`), and no two of them have one version (`proofs/TriesDiffer`).
#![tactic(auto)]

mod item;
mod named;
mod order;
mod running;
mod tries;

pub use item::SerialItem;
pub use named::{are_named, is_named};
pub use order::{in_order, is_rising};
pub use running::serial;
pub use tries::first_tries;
