//! Programs as flat operations with jumps. What a program does is said by its tree (`txn_lang`); code of it does just
//! that, whatever the answers to its reads (`flatten`).
//!
//! Read `specs/Operation` (the operations), `specs/Step` (what one does to the place where code stands), `specs/Flat`
//! (the operations of a tree), `specs/Jumps` (what all code keeps) and `specs/Does` (when code does actions from a
//! place: a recursion on how many operations are left, with every answer to a question). Then the proof: more
//! operations are enough too (`proofs/More`); a tree's operations stand in the code (`Parts`) and do what the tree does,
//! from any place, whatever follows (`Doing`), within a number of operations (`Counts`) that three for each statement
//! bound (`Sizes`); so does a whole program (`Whole`). At a place of a run the code holds a valid operation (`Places`),
//! and one that asks is a read and leaves its place (`Asking`).
#![tactic(auto)]

mod code;
mod flattening;
mod frame;
mod op;
mod performing;

pub use code::{Code, MOST_OPERATIONS, first_frame, give_answer, step_op};
pub use flattening::flatten;
pub use frame::{Frame, OpOut, Write2};
