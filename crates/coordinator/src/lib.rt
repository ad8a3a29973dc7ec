//! A client of the store: it coordinates its own transactions. It executes them segment by segment, follows what it
//! read, prepares, decides, and tries again.
//!
//! An execution is the log of its answered reads, the job that is pending or was the last one, and beside the log the
//! labels that reads take in the next execution. Of it, read `specs/Answers` (the reads of a log as the protocol's answers,
//! with their next labels), `specs/Execution` (for which program an execution runs, and what it shows of the program's walk)
//! and `specs/Moving` (how reads take their next labels). Then the proof: answers go with reads (`proofs/AnswersLemmas`);
//! what an execution shows is the walk of its program (`ShownWalk`), its content is the one that the protocol prepares
//! (`ContentLemmas`), and the first segment of a job wrote what the walk has beyond the walk on fewer answers
//! (`SegmentWrites`); reads that take their next labels (`MovingLemmas`) leave the answers of the next execution.
//!
//! What a client does is `client_step` of `protocol`. Read `specs/Memory` first: when what is kept here stands for what
//! the definitions remember, and that a step takes such a turn. The code goes by the rooms of the definitions:
//! `attempts` (how an attempt begins), `segments` (what a segment brings, and when an execution is prepared),
//! `following`, `deciding` and `counting`; `step` says which of them takes an envelope. `jobs` compares jobs. The proofs
//! follow it:
//! `MemoryLemmas` shows what the current program does, and each file beside it the turns of one room. Of counting,
//! `VoteLemmas` and `AcceptLemmas` show what a vote and an acceptance leave to do (`specs/Counting`). `OneJob` shows that what
//! a client is given and what is remembered of it fix its pending job.
#![tactic(auto)]

mod attempts;
mod coordinator;
mod counting;
mod deciding;
mod execution;
mod following;
mod jobs;
mod labels;
mod memory;
mod segments;
mod step;

pub use coordinator::{Coordinator, RanOut};
pub use execution::Execution;
pub use jobs::is_same_job;
pub use memory::{Attempt, Rules, Txn2};
