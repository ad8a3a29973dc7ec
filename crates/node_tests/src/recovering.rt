//! What a warden sends as it recovers an execution of a client that stopped, as data.

use crate::bodies::Said;
use crate::nodes::Answer;
use crate::nodes::Event::{Hear, Recover};
use crate::playing::Row;
use crate::playing::Row::{Answers, Sends};
use crate::sample::{CLIENT1, E10, RAISES, REPLICA1, REPLICA2, REPLICA3, WARDEN1, WARDEN2};
use msg::{Accept, Choice, Vote};

const VOTED: Option<Vote> = Some(Vote::Commit);

/// Replicas 1 and 2 voted Commit when the client stopped: the first warden proposes that.
pub(crate) static ALL_VOTED: [Row; 6] = [
    Sends(
        WARDEN1,
        Recover(E10),
        &[
            (REPLICA1, Said::Ask(E10, 1)),
            (REPLICA2, Said::Ask(E10, 1)),
            (REPLICA3, Said::Ask(E10, 1)),
        ],
    ),
    Sends(
        WARDEN1,
        Hear(
            REPLICA1,
            Said::Told(E10, 1, VOTED, None, None, Some(RAISES)),
        ),
        &[],
    ),
    Sends(
        WARDEN1,
        Hear(
            REPLICA2,
            Said::Told(E10, 1, VOTED, None, None, Some(RAISES)),
        ),
        &[
            (
                REPLICA1,
                Said::Finalize(E10, 1, Choice::Commit, Some(RAISES)),
            ),
            (
                REPLICA2,
                Said::Finalize(E10, 1, Choice::Commit, Some(RAISES)),
            ),
            (
                REPLICA3,
                Said::Finalize(E10, 1, Choice::Commit, Some(RAISES)),
            ),
        ],
    ),
    Answers(WARDEN1, Answer::Decided(E10, None)),
    Answers(WARDEN1, Answer::CanRecover(E10, true)),
    Answers(WARDEN1, Answer::Recovering(E10, true)),
];

/// Replica 1 alone accepted that. The second warden hears of it and of replica 3, which has no vote: the accepted pair
/// makes it propose Commit too, and two replicas accept. It hears no more of a third.
pub(crate) static PAIR_BINDS: [Row; 9] = [
    Sends(
        WARDEN2,
        Recover(E10),
        &[
            (REPLICA1, Said::Ask(E10, 2)),
            (REPLICA2, Said::Ask(E10, 2)),
            (REPLICA3, Said::Ask(E10, 2)),
        ],
    ),
    Sends(
        WARDEN2,
        Hear(
            REPLICA1,
            Said::Told(
                E10,
                2,
                VOTED,
                Some(Accept {
                    view: 1,
                    choice: Choice::Commit,
                }),
                None,
                Some(RAISES),
            ),
        ),
        &[],
    ),
    Sends(
        WARDEN2,
        Hear(REPLICA3, Said::Told(E10, 2, None, None, None, None)),
        &[
            (
                REPLICA1,
                Said::Finalize(E10, 2, Choice::Commit, Some(RAISES)),
            ),
            (
                REPLICA2,
                Said::Finalize(E10, 2, Choice::Commit, Some(RAISES)),
            ),
            (
                REPLICA3,
                Said::Finalize(E10, 2, Choice::Commit, Some(RAISES)),
            ),
        ],
    ),
    Sends(WARDEN2, Hear(REPLICA2, Said::Accepted(E10, 2)), &[]),
    Sends(
        WARDEN2,
        Hear(REPLICA3, Said::Accepted(E10, 2)),
        &[
            (REPLICA1, Said::Decide(E10, Choice::Commit, Some(RAISES))),
            (REPLICA2, Said::Decide(E10, Choice::Commit, Some(RAISES))),
            (REPLICA3, Said::Decide(E10, Choice::Commit, Some(RAISES))),
            (CLIENT1, Said::Decide(E10, Choice::Commit, Some(RAISES))),
        ],
    ),
    Sends(WARDEN2, Hear(REPLICA1, Said::Accepted(E10, 2)), &[]),
    Answers(WARDEN2, Answer::Decided(E10, Some(Choice::Commit))),
    Answers(WARDEN2, Answer::HasContent(E10, true)),
    Answers(WARDEN2, Answer::CanRecover(E10, false)),
];
