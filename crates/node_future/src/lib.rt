//! The nodes of a run as futures that are polled by hand: at most one event in a poll.
//!
//! A node takes its turns at a `Turns`, which may be a hub or a seat at one behind a lock. Read `specs/Answers` (which kinds
//! of answers there are, and what each does to the two counts), `States` (what a Turns tells of itself, and what one poll
//! makes of that), then `Outputs` (what a node's output says, and why its turns ended).
#![tactic(auto)]

mod answers;
mod gate;
mod node;
mod output;
mod set;
mod turns;

pub use answers::{LastGive, LastTurn};
pub use gate::{Gate, OpenGate};
pub use node::NodeFuture;
pub use output::{NodeEnd, NodeOut};
pub use set::NodeSet;
pub use turns::Turns;
