//! Runs of flat code in segments: each goes on to the next read that has to be asked, or to the ending.
//!
//! Read `specs/Reaching` (where code stands when it asks: its place is a function of the code and the answers so far),
//! `specs/Place` (what a saved place stands for: a program and the answers on which it asks), `specs/Segment` (what a
//! segment is: the replay with no answers, or what the replay on one more answer has beyond the replay without it) and
//! `specs/Job` (what a job's run is). Then the proof: a run of code has done a part of what its actions do, and has the
//! rest to do (`specs/Underway`); one operation moves a part over (`proofs/Moving`), until the run asks or ends
//! (`Stopping`); the segment that it then is, is the suffix of the replay (`Suffix`), and the place where it asks the one
//! to which the code comes on the answers (`Places`). Code may be seen from several threads, and what was done of a
//! segment may go to another (`Crossing`).
#![tactic(auto)]

mod done;
mod known;
mod running;
mod segment;
mod segments;

pub use done::{Done, run_job};
pub use segment::{Cont, Job, JobAt, Known, Next, Seg};
pub use segments::{resume, start};
