//! Tests of worlds of real nodes, event by event: what each event sends, what the links are shown, which events can't
//! happen and change nothing, and what is reported in the end. Each run is played twice: its segments are run by the world,
//! or elsewhere and then given back. Nothing stands on this crate.
//!
//! `telling` tells envelopes and menus as lines, `playing` drives a world row by row, and `names` has what rows are told
//! with; `checks` compares. `beginning`, `voting`, `missing`, `recovering` and `dropping` are the runs, as data, and `stories` plays them.
#![tactic(auto)]

#[cfg(test)]
mod beginning;
#[cfg(test)]
mod checks;
#[cfg(test)]
mod dropping;
#[cfg(test)]
mod missing;
#[cfg(test)]
mod names;
#[cfg(test)]
mod playing;
#[cfg(test)]
mod recovering;
#[cfg(test)]
mod stories;
#[cfg(test)]
mod telling;
#[cfg(test)]
mod voting;
