//! The protocol by definition: what replicas, clients and wardens remember and send, and what an event does to
//! the world of all of them. The types below are those that definitions and code share, and the calls are those that
//! replicas, clients and wardens have in common: what a quorum is, who sent, and sending to all replicas.
#![tactic(auto)]

mod laws;
mod quorums;
mod to_all;

pub use laws::{
    events_move, events_step, mail_grows, quorums_meet, replays_join, replicas_grow, taken_was_sent,
};
use morty_base::{Key, Wid};
use msg::Choice;
pub use quorums::{quorum, sender};
pub use to_all::send_to_all;

/// A write that a replica holds of a key. It is sure unless its execution is still undecided.
#[derive(Clone, Copy, Debug, PartialEq, Eq)]
pub struct Held {
    pub wid: Wid,
    pub value: i64,
    pub sure: bool,
}

/// The first value of a key.
#[derive(Clone, Copy, Debug, PartialEq, Eq)]
pub struct First2 {
    pub key: Key,
    pub value: i64,
}

/// What became of the last attempt that a client began.
#[derive(Clone, Copy, Debug, PartialEq, Eq)]
pub enum Fate {
    Unbegun,
    Live,
    Committed,
    Aborted,
}

/// What the votes counted so far call for.
#[derive(Clone, Copy, Debug, PartialEq, Eq)]
pub enum TallyOut {
    Wait,
    FastCommit,
    FastAbandon,
    Propose(Choice),
}
