//! What a setup says to the protocol: the plan of its world, and with what it begins the link of each node.
//!
//! Read `specs/Plans` (what a setup says, and the plans of its links), then `specs/Laws`: a setup that some text says is
//! within the limits that the protocol's laws ask, since its numbers and its programs are (`proofs/SetupsAreScripts`).
#![tactic(auto)]

ghost use Rattle.script_plans.specs.Laws.{SetupsAreScripts};

mod plans;

pub use plans::{execs_of, firsts_of, kind_of, plan_of};

/// A setup that some text says is within the limits that the protocol's laws ask.
pub fn setups_are_scripts()
    ensures { SetupsAreScripts }
{}
