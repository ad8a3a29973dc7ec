//! The trace of a run: its script, its events, the frames of all that was sent, and how it ended, as bytes.
//!
//! Read `specs/Trace`, which says what the bytes are; the code goes the same way, from `numbers` over `events` to `trace`.
#![tactic(auto)]

mod events;
mod numbers;
mod trace;

pub use trace::trace_bytes;
