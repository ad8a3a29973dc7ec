//! The names that every layer of the store uses, with their orders, a list that contracts see as its items, and counts
//! that only contracts see.
//!
//! Read `specs/Names` first: the tests by which names are compared. `specs/Orders` says what it means that a test orders
//! a type or tells equality; `laws` promises it of each name, and that the derived `<` and `==` are those tests. The
//! code compares by `comparisons` alone. `proofs/Orders` has the orders, and `proofs/Unstored` how a count that takes no
//! bytes is stored. `specs/formers` lets a type lead back to itself through a list.
#![tactic(auto)]

mod comparisons;
mod laws;
mod list;
mod names;
mod script_names;
mod steps;

pub use comparisons::{
    is_before, is_exec_before, is_key_before, is_node_before, is_same_exec, is_same_key,
    is_same_node, is_same_version, is_same_wid, is_wid_before,
};
pub use laws::{exec_order, key_order, node_order, version_order, wid_order};
pub use list::{List, NoMemory};
pub use names::{Ended, Ending, Exec, Key, NodeId, Version, Wid};
pub use script_names::{LONGEST_NAME, is_digit, is_letter, is_name_byte, is_reserved};
pub use steps::{Ledger, Steps};
