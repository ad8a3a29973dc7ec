//! Tests of the base, by its public calls alone: counts of steps, and whole bytes in and out. Nothing stands on this
//! crate, so the base is proved once, and its tests are proved again only where it changed.
#![tactic(auto)]

#[cfg(test)]
mod bytes;
#[cfg(test)]
mod counts;
