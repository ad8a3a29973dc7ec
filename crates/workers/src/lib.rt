//! Runs a hub by several workers, each in a thread of its own, and a machine with its links so from its origin on.
//!
//! The hub stands in one lock, beside the accounts of two ledgers: one of picks, one of used segments (`src/accounts`). As long
//! as the lock is free these have as many as the journal (`src/locked`). A node takes its turns at a seat, which holds a share
//! of each ledger (`src/seat`, `specs/Tallies`, `Seats`). What a turn, or a segment that is given back, adds to the counts of
//! the journal, its share grows by (`proofs/Counting`). A worker polls the seats of its nodes in turn and runs their segments
//! outside the lock (`src/crew`, `src/shift`).
//!
//! Which run it is the hub's name alone says, since nothing else is known of what comes out of a lock. Once all threads have
//! ended, the sums of the shares are what the journal has, and one loop closes the run (`src/run`). In which order the workers
//! take the lock, and that two of them ever run at once, no contract says.
#![tactic(auto)]

mod accounts;
mod crew;
mod fresh;
mod locked;
mod run;
mod seat;
mod shift;
mod tally;

pub use fresh::work_fresh;
pub use run::run_workers;
