//! Whole bytes in and out, over sources and sinks that count their faults.
//!
//! Read `traits` first: what a source gives and a sink takes in one call. `specs/Bytes` says how the bytes left and taken
//! move, where they are told, `specs/Faults` that a count of faults rose, and `specs/Memory` what a source and a sink in
//! memory stand for. `whole` is what callers use. The proofs: `Moved` adds up what one call after another moved.
#![tactic(auto)]

mod calls;
mod copy;
mod mem_sink;
mod mem_source;
mod std_sink;
mod std_source;
mod traits;
mod whole;

pub use mem_sink::{MemSink, SINK_ROOM};
pub use mem_source::MemSource;
pub use std_sink::StdSink;
pub use std_source::StdSource;
pub use traits::{Failed, Sink, Source};
pub use whole::{ReadEnd, WriteFault, read_whole, write_whole};
