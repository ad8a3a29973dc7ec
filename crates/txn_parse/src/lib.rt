//! The blocks of programs, read from tokens by the grammar: a tree that still has the text's tokens, or the one fault;
//! and the program that such a tree stands for, by its names.
//!
//! The definitions, in the order in which they build on each other: the symbol of a token (`Symbols`), trees with tokens
//! (`Tree`), an expression while it is read (`Pending`), the grammar (`Grammar`), reading from left to right (`Reading`),
//! what is true of it (`Laws`), what a call gives (`Gives`), limits as counts of tokens (`Counts`), the one fault of a list
//! of tokens, for any grammar (`Faults`), the names of a block with the checks that it passes (`Binding`), and an index of
//! names (`NameIndex`).
//!
//! The proof: what is open in an expression stands for the tokens that were read (`PendingLemmas`), one after another
//! (`ExprLemmas`), and so are a block's statements (`ReadingLemmas`); what is within limits is in the grammar without them
//! (`LimitsLemmas`). So what a reader finds is in the grammar, and its fault is at the first bad token (`Sound`, then
//! `SoundExpr`, `SoundStmts`, `Separators` and `SoundBlocks`); and what is in the grammar is found (`CompleteExpr`,
//! `CompleteBlocks`). Limits as wide as the list are none (`WideLimits`), which gives the laws of the reader without limits
//! (`FreeBlocks`, `Laws`). A block is within the limits just where its counts are (`CountsLemmas`, counted token by token in
//! `TokenCounts`), a part of tokens within them is so too (`PartLemmas`), one token is the first past a limit (`FirstPast`),
//! and behind each token of a block but its last a block is open (`LevelLemmas`). A list has one fault at most (`OneFault`),
//! and the cut that counting tells, read without limits, decides which (`FaultIsDecided`). `MarkLemmas`: the marks of one
//! byte are told apart by a match.
//!
//! Names: they keep their places while a list of them grows, and in an index of it (`NamesLemmas`, `NameIndexLemmas`), and
//! a statement goes on the list of those before it (`RawTrees`, `BodyLemmas`). What the grammar says of a block's tokens
//! (`BoundForm`) makes the program of a block whose checks pass well formed and, where no limit is passed, one within the
//! limits (`BoundPrograms`), so the fault is that of the first check (`ResolveLemmas`).
#![tactic(auto)]

mod blocks;
mod bodies;
mod expressions;
mod limits;
mod name_index;
mod names;
mod pending;
mod program;
mod resolve;
mod statements;
mod symbols;
mod tokens;
mod tree;

pub use blocks::read_block;
pub use limits::first_past;
pub use name_index::NameIndex;
pub use program::{fault_laws, grammar_laws, last_line, parse_prog};
pub use resolve::{bind_prog, check_tables, resolve_prog};
pub use statements::separator;
pub use symbols::{Symbol, is, symbol_of};
pub use tokens::{syntax, take};
pub use tree::{RawBlock, RawExpr, RawProg, RawStmt};
