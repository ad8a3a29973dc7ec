//! Generated scripts: transfers between accounts, drawn by a seed.
//!
//! The definitions: what is drawn from a generator (`Draws`), and the script that the draws make (`Generated`).
//!
//! The proof: the draws keep their ranges, so the script passes each check of scripts (`GeneratedIsSayable`), and each
//! program is within the limits of programs (`TransferLemmas`).
#![tactic(auto)]

mod draws;
mod generated;
mod transfer;

pub use draws::Transfer;
pub use generated::{GREATEST_SEED, MOST_GENERATED, gen_script};
