//! What a run comes to: what holds at each moment of every run of every script, whatever happened in it, and of the rows
//! that are reported of its world. `specs/Outcome` has the four parts of the headline in one record.
#![tactic(auto)]

ghost use Rattle.law_outcomes.specs.Outcome.{OutcomesAreCorrect};

/// At each moment of a run no two nodes have decided an execution differently, at most one execution of a transaction is
/// committed, what is committed is the serial run of the programs, by rising version, on the script's first values, and
/// each Drop that was sent carries the base of the world at its version, where nothing is committed any more.
pub fn outcomes_are_correct()
    ensures { OutcomesAreCorrect }
{}
