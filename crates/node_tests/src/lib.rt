//! Tests of the parts of the nodes, by their public calls alone: copies of messages, frames to the byte with the
//! fault of each bad field, the mail, what each of two wardens and three replicas sends on what comes to it, and the records
//! of a replica. Nothing stands on this crate.
//!
//! `playing` plays rows on the nodes of `nodes`; `bodies` and `sample` are what rows are told with, and `checks` compares. `stories` and `drops` are
//! the rows of a replica, `recovering` and `truncating` those of a warden, and `contest` one run of all five.
#![tactic(auto)]

#[cfg(test)]
mod bodies;
#[cfg(test)]
mod checks;
#[cfg(test)]
mod contest;
#[cfg(test)]
mod drops;
#[cfg(test)]
mod frames;
#[cfg(test)]
mod keeping_records;
#[cfg(test)]
mod nodes;
#[cfg(test)]
mod playing;
#[cfg(test)]
mod recovering;
#[cfg(test)]
mod rows;
#[cfg(test)]
mod sample;
#[cfg(test)]
mod stories;
#[cfg(test)]
mod truncating;
