//! A replica of the store: it keeps records and an acceptor for each execution, handles an envelope by the rule for
//! its body, answers, and sends the Notes that are then due.
//!
//! `specs/Replica` says when a replica stands for the list of the envelopes that it took, and `specs/Ballots` what it
//! keeps of each execution; what it needs of an envelope is said in the protocol's room of replicas. In `proofs`,
//! `BallotTurns` shows what an envelope does to the acceptors and to the contents that are known, `ReplicaTurns` what the
//! parts of a replica make of it together.
#![tactic(auto)]

mod ballots;
mod recording;
mod replica;
mod sending;
mod taken;

pub use replica::Replica;
