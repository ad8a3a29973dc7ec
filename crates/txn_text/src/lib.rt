//! The tokens of a script's text: names, reserved words, numbers and symbols, each with its place and line.
//!
//! The definitions, in the order in which they build on each other: bytes and the numbers that digits stand for
//! (`Bytes`), what is printed of a fault (`Faults`), the tokens of a text (`Tokens`), and what the bytes of a token
//! say of its kind (`Kinds`), and how tokens lie in a text (`Layout`); names and reserved words are `ScriptNames` of
//! `morty_base`.
//!
//! The proof: a number grows with each digit (`NumberLemmas`); what stands at a front has at least one byte and a line
//! feed only where it is one (`FrontLemmas`), so the scan moves from one front to the next and counts lines
//! (`TokensLemmas`), and each token lies behind the one before it and is of its kind (`TokensLieInOrder`). Tokens that
//! lie in a text between gaps are those that are read of it (`LayoutLemmas`).
#![tactic(auto)]

mod bytes;
mod faults;
mod kinds;
mod scan;
mod slices;

pub use bytes::number;
pub use faults::{FaultKind, TextFault};
pub use kinds::{Token, TokenKind};
pub use scan::tokens;
pub use slices::{is_text, layout_law, number_value, token_laws, token_text};
