//! The log of an execution: its answered reads with their labels, and what it wrote and printed, with the place at each
//! read. It goes back to a read by dropping what came after it, and copies and runs nothing of what stands before it.
//!
//! Read `specs/Log` (what contracts see of a log), `specs/Standing` (for which programs and answers it stands, and which
//! job is pending) and `specs/Knowledge` (what a run sees of keys without asking, in rising order). Then the proof: one
//! more entry at its place keeps the order (`proofs/Placing`); the reads of a log are those of the replay on its
//! answers, so that it knows what the replay knows (`AskedReads`), also with one read more (`OneMore`); what was done
//! before a read is a front of what was done, so that a log cut there stands for the answers before the read and the new
//! one (`Rewinding`), and labels change nothing of it (`Labelling`); a log with the segment of its last job (`LastJobs`)
//! stands for all its answers (`Taking`), and its content is the replay's (`Contents`). The answers fix the last job
//! (`OneJob`).
#![tactic(auto)]

mod copies;
mod knowledge;
mod log;
mod read;

pub use log::ExecLog;
pub use read::LogRead;
