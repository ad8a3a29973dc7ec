//! How a warden cuts the past away: it asks the replicas for a fence, recovers what they name as voted, and lets them
//! drop what stands at or below the fence, with a base in its place. `replica_side` is what a replica does of it.
#![tactic(auto)]

mod answer;
mod base;
mod laws;
mod replica_side;
mod truncation;
mod truncator;

pub use laws::recoveries_stand;
pub use replica_side::{drop_to, fence};
pub use truncator::Truncator;
