//! Envelopes as bytes: each envelope has one frame, and each front of bytes that is a frame is read back.
//!
//! A field of a frame is one record: its bytes, what bytes are judged to be, which values it admits, and what each value
//! keeps by its type (`specs/Field.antt`, with the ways to make a field of smaller ones). So the format is a table, one
//! line for each kind of body (`Values`, `Bodies`, `Frame`). `Sendable` says in plain words which envelopes have a frame,
//! and `Wire` and `Laws` what is promised of frames.
//!
//! A field is exact if it can be read back, reads nothing else, and is short where it is cut (`proofs/Exact.antt`). Each
//! way to make fields keeps that (`Making`, `Counting`), so each line of the table has it (`Values`, `Envelopes`), and the
//! laws follow (`Decoding`).
#![tactic(auto)]

mod fault;
mod frames;
mod head;
mod item;
mod laws;
mod length;
mod limits;
mod reading;
mod writing;

pub use fault::FrameFault;
pub use frames::{decode, encode, encode_in};
pub use laws::{cut_is_short, no_prefix, one_frame};
