//! What a replica holds: indexes, each an ordered map by a composite key, as in multiversion concurrency control (writes
//! and reads by key and execution, kept Puts, abandoned executions, contents, readers with their marks); and its records
//! over them: what it holds of each key, which contents have its Commit vote, who read what, and of which keys the readers
//! may be due a Note.
//!
//! Read `specs/HeldByExec` first: what is held of a key, execution by execution, read from the list of envelopes.
//! Each index is a function of its key (`specs/WriteIndex`, `ReadIndex`, `PutTable`, `AbandonTable`, `ContentTable`),
//! and `specs/Holdings` says that these functions are those of the list, above the dropped version. In `proofs`, `Best`
//! shows that the best of a list is the last of a function whose values the list has, `Values` and `OpenValues` that
//! committed and open writes are such functions, and `Latest` that a reader sees the last of them. `PutsTurn`,
//! `CommitTurn`, `AbandonTurn` and `DropTurn` say what one envelope changes of them. `IndexedContents` shows that the
//! indexes of a table of contents tell its conflicts, and `BaseSearch` that a search finds what a base holds of a key.
//!
//! Of records, `specs/Records` says when they stand for the envelopes that a replica took, and when their readers were told
//! what they see; `specs/Clash` with what a content conflicts. In `proofs`, `Unseen` shows which envelopes change
//! nothing, `Quiet` that readers of keys that are not listed, or below what changed, were told what they see, `VotesSame`
//! what becomes of votes, `Reading`, `Told` and `Settling` what becomes of readers and their marks, and `Cutting` what a
//! Drop leaves.
#![tactic(auto)]

mod abandon_table;
mod base_entries;
mod clash;
mod content_table;
mod first_values;
mod holdings;
mod key_list;
mod put_table;
mod read_index;
mod reader_list;
mod readers;
mod records;
mod touched;
mod write_index;

pub use abandon_table::AbandonTable;
pub use clash::Clash;
pub use content_table::ContentTable;
pub use holdings::Holdings;
pub use key_list::KeyList;
pub use protocol::{First2, Held};
pub use put_table::{Put, PutTable};
pub use read_index::ReadIndex;
pub use reader_list::{Reader, ReaderList};
pub use records::Records;
pub use write_index::{Place, WriteIndex};
