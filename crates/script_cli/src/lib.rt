//! The program's top call: words, bytes and links in; a status, the events and the links out, and bytes written.
//!
//! Read `specs/Words`, what the words ask for; `Lines`, what is written where nothing else is; `Due`, what a command is to
//! write for a script, and for what the source had left; `Answer`, what a call then answers; and `Clauses`, what that says
//! of each status, and at its end all that is promised of a call. The code makes all that is to be written before it writes
//! (`made`, over `texts` and `lines`): what is left to do for a command is to write, or to run a world first, in this thread
//! or by several workers (`specs/Tasks`). `top` alone writes.
//!
//! A whole run of a setup (`run`): the links are chosen among those that were handed in and begun with their plans
//! (`begin`), and the world of the setup is run with them to its end, by one loop or by several workers. Read `specs/Runs`:
//! what such a run is, and which links come back. The proof goes from the list of links to each slot (`proofs/Slots`).
#![tactic(auto)]

mod begin;
mod lines;
mod made;
mod output;
mod run;
mod texts;
mod top;
mod words;

pub use output::Output;
pub use top::{Answer, Exit, run_cli, run_here};
pub use words::{Command, Seeded, read_words, wants_workers};
