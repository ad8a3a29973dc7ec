//! Tests of a client and a replica together, joined by hand: what each sends on what happens, event by event, what
//! became of the client's attempt, and which job is pending.
//!
//! `client` is a client that runs its jobs at once, `programs` what clients run, `nodes` joins two clients with a replica, `bodies` and
//! `sample` are what the rows are told with, and `stories` runs the rows of `missing`, `refusing` and `deciding`.
#![tactic(auto)]

#[cfg(test)]
mod bodies;
#[cfg(test)]
mod client;
#[cfg(test)]
mod deciding;
#[cfg(test)]
mod missing;
#[cfg(test)]
mod nodes;
#[cfg(test)]
mod programs;
#[cfg(test)]
mod refusing;
#[cfg(test)]
mod sample;
#[cfg(test)]
mod stories;
