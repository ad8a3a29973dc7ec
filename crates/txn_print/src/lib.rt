//! The canonical text of programs: pieces with one blank between them, save where the rule of blanks says none, and the
//! needed parentheses and no others.
//!
//! The definitions, in the order in which they build on each other: pieces and the rule of blanks (`Piece`), what a
//! printer holds (`Printer`), the pieces of expressions, statements and programs (`Canonical`), which tokens are those of
//! pieces (`Spelling`), which programs can be written (`Written`), and the laws (`Laws`).
//!
//! The proof: a printer that is handed pieces in several calls holds what it holds of all of them in order, and its text
//! goes on by theirs (`PrinterLemmas`), line by line (`LineLemmas`); an expression's pieces are those that its limit counts
//! (`CountLemmas`). The text of pieces lies as their tokens (`LaidLemmas`), and pieces of programs have the bytes of their
//! kinds (`PiecesLemmas`). The tokens of an expression's pieces are in the grammar and stand for it (`LexedLemmas`,
//! `PlacesLemmas`, `ReadTerms`), then those of statements and blocks (`ReadBlocks`, `ReadPrograms`). So the canonical text of
//! a program is read as that program (`CanonicalIsRead`).
#![tactic(auto)]

mod expressions;
mod laws;
mod printer;
mod program;
mod statements;

pub use expressions::print_name;
pub use laws::{canonical_is_read, pieces_are_counted};
pub use printer::Printer;
pub use program::{print_block, prog_text};
