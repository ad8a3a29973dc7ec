//! What a warden sends as it truncates, as data.

use crate::bodies::Said;
use crate::nodes::Answer;
use crate::nodes::Event::{Hear, Truncate};
use crate::playing::Row;
use crate::playing::Row::{Answers, Sends};
use crate::sample::{
    BASE10, CLIENT1, CUT20, CUT21, E10, REPLICA1, REPLICA2, REPLICA3, TWICE, WARDEN1,
};
use msg::{Choice, Vote};

/// A quorum names an execution as voted. It is recovered first, and then stands in the base: its last write of x[1]. The
/// same version is not truncated again, a later one is.
pub(crate) static VOTED_FIRST: [Row; 11] = [
    Sends(
        WARDEN1,
        Truncate(CUT20),
        &[
            (REPLICA1, Said::Fence(CUT20)),
            (REPLICA2, Said::Fence(CUT20)),
            (REPLICA3, Said::Fence(CUT20)),
        ],
    ),
    Sends(
        WARDEN1,
        Hear(REPLICA1, Said::Fenced(CUT20, &[], &[], &[(E10, TWICE)])),
        &[],
    ),
    // a second Fenced of replica 1 does not count
    Sends(
        WARDEN1,
        Hear(REPLICA1, Said::Fenced(CUT20, &[], &[], &[(E10, TWICE)])),
        &[],
    ),
    Sends(
        WARDEN1,
        Hear(REPLICA3, Said::Fenced(CUT20, &[], &[], &[(E10, TWICE)])),
        &[
            (REPLICA1, Said::Ask(E10, 1)),
            (REPLICA2, Said::Ask(E10, 1)),
            (REPLICA3, Said::Ask(E10, 1)),
        ],
    ),
    Sends(
        WARDEN1,
        Hear(
            REPLICA1,
            Said::Told(E10, 1, Some(Vote::Commit), None, None, Some(TWICE)),
        ),
        &[],
    ),
    Sends(
        WARDEN1,
        Hear(
            REPLICA2,
            Said::Told(E10, 1, Some(Vote::Commit), None, None, Some(TWICE)),
        ),
        &[
            (
                REPLICA1,
                Said::Finalize(E10, 1, Choice::Commit, Some(TWICE)),
            ),
            (
                REPLICA2,
                Said::Finalize(E10, 1, Choice::Commit, Some(TWICE)),
            ),
            (
                REPLICA3,
                Said::Finalize(E10, 1, Choice::Commit, Some(TWICE)),
            ),
        ],
    ),
    Sends(WARDEN1, Hear(REPLICA1, Said::Accepted(E10, 1)), &[]),
    Sends(
        WARDEN1,
        Hear(REPLICA3, Said::Accepted(E10, 1)),
        &[
            (REPLICA1, Said::Decide(E10, Choice::Commit, Some(TWICE))),
            (REPLICA2, Said::Decide(E10, Choice::Commit, Some(TWICE))),
            (REPLICA3, Said::Decide(E10, Choice::Commit, Some(TWICE))),
            (CLIENT1, Said::Decide(E10, Choice::Commit, Some(TWICE))),
            (REPLICA1, Said::Drop(CUT20, &[BASE10])),
            (REPLICA2, Said::Drop(CUT20, &[BASE10])),
            (REPLICA3, Said::Drop(CUT20, &[BASE10])),
        ],
    ),
    // nothing more counts after the Drop
    Sends(
        WARDEN1,
        Hear(REPLICA2, Said::Fenced(CUT20, &[], &[], &[(E10, TWICE)])),
        &[],
    ),
    Answers(WARDEN1, Answer::CanTruncate(CUT20, false)),
    Answers(WARDEN1, Answer::CanTruncate(CUT21, true)),
];

/// Until a quorum answered a later version is not truncated.
pub(crate) static ONE_AT_A_TIME: [Row; 3] = [
    Sends(
        WARDEN1,
        Truncate(CUT20),
        &[
            (REPLICA1, Said::Fence(CUT20)),
            (REPLICA2, Said::Fence(CUT20)),
            (REPLICA3, Said::Fence(CUT20)),
        ],
    ),
    Sends(
        WARDEN1,
        Hear(REPLICA2, Said::Fenced(CUT20, &[], &[], &[(E10, TWICE)])),
        &[],
    ),
    Answers(WARDEN1, Answer::CanTruncate(CUT21, false)),
];
