//! Tests of the hub, of runs by one loop and by several workers, and of nodes as futures, by their public calls alone.
//! Nothing stands on this crate.
//!
//! `rounds` is a machine of two nodes that counts rounds (`specs/Rounds`), and a lawful one (`specs/Lawful`). `hubs` plays
//! a hub of it turn by turn, `loops` lets the loop play it beside a loop by hand, and `by_workers` lets workers play it.
//! `listed` is what a node takes its turns at where no hub is, with a gate that counts; `nodes` polls nodes and sets of them
//! by hand.
#![tactic(auto)]

#[cfg(test)]
mod by_workers;
#[cfg(test)]
mod hubs;
#[cfg(test)]
mod listed;
#[cfg(test)]
mod loops;
#[cfg(test)]
mod nodes;
mod rounds;

pub use rounds::{Done, Rounds, Segment};
