//! A replica may be told as the list of all envelopes that it handled, or of those alone that took effect: the
//! definitions read the same from either, above the version that is dropped, and so it says the same on each envelope.
//!
//! `specs/ReadsAs` has what is read, and the law. A test that fails at or below a version reads a list as it reads what
//! stands above that version there (`AboveLemmas`), and readers stand in order, so those above it are recorded as all are
//! (`ReadersLemmas`). So two lists that are alike above the dropped version (`Alike`) stay so with one more envelope in
//! both that took effect (`AlikeAfterTaken`), and with one more in the first that did not (`AlikeAfterUntaken`). All else
//! is read from what is alike (`HandledReadsAsTaken`).
#![tactic(auto)]

ghost use Rattle.law_taken.specs.ReadsAs.{HandledReadsAsTaken};

/// What a replica holds, has voted, accepted and decided above its dropped version, and what it says on an envelope, is
/// the same from all envelopes that it handled as from those that it took.
pub fn handled_reads_as_taken()
    ensures { HandledReadsAsTaken }
{}
