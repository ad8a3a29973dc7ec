//! With what a content conflicts at a replica.

/// With what a content conflicts: with a committed content or a base entry, else with one that has a Commit vote.
#[derive(Clone, Copy, Debug, PartialEq, Eq)]
pub enum Clash {
    Committed,
    Voted,
    Clear,
}
