//! How a warden recovers an execution whose client is silent: single-decree consensus in numbered views.
//!
//! What a warden does is `recover` and `recovery_hears` of `protocol`. Read `specs` in this order: `Phase` and `Round` say
//! how far a view has come and what counts in it, `Places` and `Rounds` where an ordered map finds what concerns an
//! execution, `Recoverer` what contracts see and that a call takes such a turn, and `Laws` that truncations stand apart.
//! The code goes the same way: `proposal` and `round`, `places`, `rounds` and `decision`, which keep the oldest first and
//! are seen with the newest first, `state`, where a warden hears, and `recoverer`, the public type, which is broken once
//! memory was refused. The proofs follow it: `RoundLemmas` on a round that is replaced, `PlacesLemmas` on what a search
//! finds, `StateLemmas` and `HearingLemmas` show that each end of a handling is the turn of the definitions,
//! `RecovererLemmas` that a view is left for what was not asked about, and `KeepsTruncations` proves the law.
#![tactic(auto)]

mod decision;
mod laws;
mod places;
mod proposal;
mod recoverer;
mod round;
mod rounds;
mod rules;
mod state;

pub use laws::recovery_keeps_truncations;
pub use recoverer::Recoverer;
