//! One run of two wardens and three replicas, event by event, as data: the client of 10.1 sent its Prepares and
//! stopped, and the wardens contest in views 1, 2 and 3.

use crate::bodies::Said;
use crate::nodes::Answer;
use crate::nodes::Event::{Deliver, Recover};
use crate::playing::Row;
use crate::playing::Row::{Answers, Posts, Sends};
use crate::sample::{CLIENT1, E10, REPLICA1, REPLICA2, REPLICA3, TURNS, WARDEN1, WARDEN2};
use msg::{Accept, Choice, Vote};

const VOTED: Option<Vote> = Some(Vote::Commit);

const DECIDED: Said = Said::Decide(E10, Choice::Commit, Some(TURNS));

/// The wardens contest, and both decide the same.
pub(crate) static CONTEST: [Row; 34] = [
    // the client asks all replicas for their votes, and then stops: 0 to 2
    Posts(
        CLIENT1,
        &[
            (REPLICA1, Said::Prepare(E10, TURNS)),
            (REPLICA2, Said::Prepare(E10, TURNS)),
            (REPLICA3, Said::Prepare(E10, TURNS)),
        ],
    ),
    // replicas 1 and 2 vote: 3 and 4
    Sends(
        REPLICA1,
        Deliver(0),
        &[(CLIENT1, Said::Vote(E10, Vote::Commit))],
    ),
    Sends(
        REPLICA2,
        Deliver(1),
        &[(CLIENT1, Said::Vote(E10, Vote::Commit))],
    ),
    // warden 1 asks in view 1: 5 to 7, and hears of a replica without a vote: 8 and 9
    Sends(
        WARDEN1,
        Recover(E10),
        &[
            (REPLICA1, Said::Ask(E10, 1)),
            (REPLICA2, Said::Ask(E10, 1)),
            (REPLICA3, Said::Ask(E10, 1)),
        ],
    ),
    Sends(
        REPLICA1,
        Deliver(5),
        &[(WARDEN1, Said::Told(E10, 1, VOTED, None, None, Some(TURNS)))],
    ),
    Sends(
        REPLICA3,
        Deliver(7),
        &[(WARDEN1, Said::Told(E10, 1, None, None, None, None))],
    ),
    Sends(WARDEN1, Deliver(8), &[]),
    // so it proposes Abandon: 10 to 12, which replica 3 accepts: 13
    Sends(
        WARDEN1,
        Deliver(9),
        &[
            (REPLICA1, Said::Finalize(E10, 1, Choice::Abandon, None)),
            (REPLICA2, Said::Finalize(E10, 1, Choice::Abandon, None)),
            (REPLICA3, Said::Finalize(E10, 1, Choice::Abandon, None)),
        ],
    ),
    Sends(REPLICA3, Deliver(12), &[(WARDEN1, Said::Accepted(E10, 1))]),
    // warden 2 asks in view 2: 14 to 16, and hears of two Commit votes: 17 and 18
    Sends(
        WARDEN2,
        Recover(E10),
        &[
            (REPLICA1, Said::Ask(E10, 2)),
            (REPLICA2, Said::Ask(E10, 2)),
            (REPLICA3, Said::Ask(E10, 2)),
        ],
    ),
    Sends(
        REPLICA1,
        Deliver(14),
        &[(WARDEN2, Said::Told(E10, 2, VOTED, None, None, Some(TURNS)))],
    ),
    Sends(
        REPLICA2,
        Deliver(15),
        &[(WARDEN2, Said::Told(E10, 2, VOTED, None, None, Some(TURNS)))],
    ),
    Sends(WARDEN2, Deliver(17), &[]),
    // so it proposes Commit: 19 to 21
    Sends(
        WARDEN2,
        Deliver(18),
        &[
            (
                REPLICA1,
                Said::Finalize(E10, 2, Choice::Commit, Some(TURNS)),
            ),
            (
                REPLICA2,
                Said::Finalize(E10, 2, Choice::Commit, Some(TURNS)),
            ),
            (
                REPLICA3,
                Said::Finalize(E10, 2, Choice::Commit, Some(TURNS)),
            ),
        ],
    ),
    // what warden 1 proposed comes to replicas that promised view 2, and is refused: it is not decided
    Sends(REPLICA1, Deliver(10), &[]),
    Sends(REPLICA2, Deliver(11), &[]),
    Sends(WARDEN1, Deliver(13), &[]),
    // replica 1 accepts what warden 2 proposed: 22
    Sends(REPLICA1, Deliver(19), &[(WARDEN2, Said::Accepted(E10, 2))]),
    Sends(WARDEN2, Deliver(22), &[]),
    // warden 1 asks again, in view 3: 23 to 25, and hears of both pairs: 26 and 27
    Sends(
        WARDEN1,
        Recover(E10),
        &[
            (REPLICA1, Said::Ask(E10, 3)),
            (REPLICA2, Said::Ask(E10, 3)),
            (REPLICA3, Said::Ask(E10, 3)),
        ],
    ),
    Sends(
        REPLICA3,
        Deliver(25),
        &[(
            WARDEN1,
            Said::Told(
                E10,
                3,
                None,
                Some(Accept {
                    view: 1,
                    choice: Choice::Abandon,
                }),
                None,
                None,
            ),
        )],
    ),
    Sends(
        REPLICA1,
        Deliver(23),
        &[(
            WARDEN1,
            Said::Told(
                E10,
                3,
                VOTED,
                Some(Accept {
                    view: 2,
                    choice: Choice::Commit,
                }),
                None,
                Some(TURNS),
            ),
        )],
    ),
    // replica 3 promised view 3, and refuses what warden 2 proposed
    Sends(REPLICA3, Deliver(21), &[]),
    Sends(WARDEN1, Deliver(26), &[]),
    // the pair of the higher view binds warden 1: 28 to 30; replicas 1 and 3 accept: 31 and 32
    Sends(
        WARDEN1,
        Deliver(27),
        &[
            (
                REPLICA1,
                Said::Finalize(E10, 3, Choice::Commit, Some(TURNS)),
            ),
            (
                REPLICA2,
                Said::Finalize(E10, 3, Choice::Commit, Some(TURNS)),
            ),
            (
                REPLICA3,
                Said::Finalize(E10, 3, Choice::Commit, Some(TURNS)),
            ),
        ],
    ),
    Sends(REPLICA1, Deliver(28), &[(WARDEN1, Said::Accepted(E10, 3))]),
    Sends(REPLICA3, Deliver(30), &[(WARDEN1, Said::Accepted(E10, 3))]),
    Sends(WARDEN1, Deliver(31), &[]),
    // it decides: 33 to 36
    Sends(
        WARDEN1,
        Deliver(32),
        &[
            (REPLICA1, DECIDED),
            (REPLICA2, DECIDED),
            (REPLICA3, DECIDED),
            (CLIENT1, DECIDED),
        ],
    ),
    // replica 2 accepts what warden 2 proposed: 37; so warden 2 decides too, and the same
    Sends(REPLICA2, Deliver(20), &[(WARDEN2, Said::Accepted(E10, 2))]),
    Sends(
        WARDEN2,
        Deliver(37),
        &[
            (REPLICA1, DECIDED),
            (REPLICA2, DECIDED),
            (REPLICA3, DECIDED),
            (CLIENT1, DECIDED),
        ],
    ),
    // a Told of the view that is decided counts no more
    Sends(WARDEN1, Deliver(26), &[]),
    Answers(WARDEN1, Answer::Decided(E10, Some(Choice::Commit))),
    Answers(WARDEN2, Answer::Decided(E10, Some(Choice::Commit))),
];
