//! The text of what a run did: its rows as plain data, and the bytes that are written of them.
//!
//! Read `rows` first, and then `specs/Text`, which says line by line what is written. The code goes the same way:
//! `numbers`, `lines`, `blocks` of a committed execution, and then the three texts, in `text` and `brief`.
#![tactic(auto)]

mod blocks;
mod brief;
mod lines;
mod numbers;
mod rows;
mod text;

pub use brief::brief_text;
pub use rows::{CommitRow, Left, LeftRow, Rows, ValueRow};
pub use text::{report_text, serial_text};
