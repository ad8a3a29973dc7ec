//! Votes, as data: a write that a committed read has missed is abandoned, and a client that waits for votes no longer
//! commits by a quorum.

use crate::names::{CLIENT1, CLIENT2, REPLICA1, REPLICA2, REPLICA3};
use crate::playing::Row;
use crate::playing::Row::{Moves, Shows, Still};
use msg::Event::{Picked, Ran};
use msg::Pick::{Deliver, Go, Hurry};

/// Client 1 writes x[1] at 10, client 2 reads it at 20.
pub(crate) const WRITES_AND_LOOKS: &[u8] = b"morty 1 replicas 1 table x
program put { write x[1] 1 } program look { read c x[1]; print c }
client 1 { put at 10 } client 2 { look at 20 } end";

// Client 2 commits its read before the write comes, which would have been below it.
pub(crate) static MISSED: [Row; 17] = [
    Moves(Picked(CLIENT2, Go), &[]),
    Moves(Ran(2), &["0 Client(2) > Replica(1): get 20.2/0 x[1]"]),
    Moves(
        Picked(REPLICA1, Deliver(0)),
        &["1 Replica(1) > Client(2): note 20.2 x[1] 0.0/0/0 0 sure"],
    ),
    Moves(Picked(CLIENT2, Deliver(1)), &[]),
    Moves(
        Ran(2),
        &[
            "2 Client(2) > Replica(1): prepare 20.2/0 reads { x[1] 0.0/0/0 0 } writes { } out { 0 } Done",
        ],
    ),
    Moves(
        Picked(REPLICA1, Deliver(2)),
        &["3 Replica(1) > Client(2): vote 20.2/0 Commit"],
    ),
    Moves(
        Picked(CLIENT2, Deliver(3)),
        &[
            "4 Client(2) > Replica(1): decide 20.2/0 Commit reads { x[1] 0.0/0/0 0 } writes { } out { 0 } Done",
        ],
    ),
    Moves(Picked(REPLICA1, Deliver(4)), &[]),
    Moves(Picked(CLIENT1, Go), &[]),
    Moves(
        Ran(1),
        &[
            "5 Client(1) > Replica(1): puts 10.1/0 writes { x[1] 1 }",
            "6 Client(1) > Replica(1): prepare 10.1/0 reads { } writes { x[1] 1 } out { } Done",
        ],
    ),
    Moves(
        Picked(REPLICA1, Deliver(5)),
        &["7 Replica(1) > Client(2): note 20.2 x[1] 10.1/0/1 1 unsure"],
    ),
    Moves(
        Picked(REPLICA1, Deliver(6)),
        &["8 Replica(1) > Client(1): vote 10.1/0 Final"],
    ),
    Shows(0, "12 events, fresh [8], old [], hurry"),
    Moves(
        Picked(CLIENT1, Deliver(8)),
        &["9 Client(1) > Replica(1): decide 10.1/0 Abandon"],
    ),
    // it has tries left, and client 2 has none
    Shows(0, "13 events, fresh [], old [8], go"),
    Shows(1, "13 events, fresh [7], old [1, 3]"),
    Still(Picked(CLIENT2, Go)),
];

/// The client reads x[1] at three replicas.
pub(crate) const LOOKS: &[u8] =
    b"morty 1 table x program look { read c x[1]; print c } client 1 { look at 20 } end";

// Two replicas vote Commit, and the third accepts what it has not voted on.
pub(crate) static HURRIED: [Row; 18] = [
    Moves(Picked(CLIENT1, Go), &[]),
    Moves(
        Ran(1),
        &[
            "0 Client(1) > Replica(1): get 20.1/0 x[1]",
            "1 Client(1) > Replica(2): get 20.1/0 x[1]",
            "2 Client(1) > Replica(3): get 20.1/0 x[1]",
        ],
    ),
    Moves(
        Picked(REPLICA1, Deliver(0)),
        &["3 Replica(1) > Client(1): note 20.1 x[1] 0.0/0/0 0 sure"],
    ),
    Moves(Picked(CLIENT1, Deliver(3)), &[]),
    Still(Picked(CLIENT1, Hurry)),
    Moves(
        Ran(1),
        &[
            "4 Client(1) > Replica(1): prepare 20.1/0 reads { x[1] 0.0/0/0 0 } writes { } out { 0 } Done",
            "5 Client(1) > Replica(2): prepare 20.1/0 reads { x[1] 0.0/0/0 0 } writes { } out { 0 } Done",
            "6 Client(1) > Replica(3): prepare 20.1/0 reads { x[1] 0.0/0/0 0 } writes { } out { 0 } Done",
        ],
    ),
    Moves(
        Picked(REPLICA1, Deliver(4)),
        &["7 Replica(1) > Client(1): vote 20.1/0 Commit"],
    ),
    Moves(
        Picked(REPLICA2, Deliver(5)),
        &["8 Replica(2) > Client(1): vote 20.1/0 Commit"],
    ),
    Moves(Picked(CLIENT1, Deliver(7)), &[]),
    Moves(Picked(CLIENT1, Deliver(8)), &[]),
    Shows(0, "9 events, fresh [], old [3, 7, 8], hurry"),
    Moves(
        Picked(CLIENT1, Hurry),
        &[
            "9 Client(1) > Replica(1): finalize 20.1/0 view 0 Commit reads { x[1] 0.0/0/0 0 } writes { } out { 0 } Done",
            "10 Client(1) > Replica(2): finalize 20.1/0 view 0 Commit reads { x[1] 0.0/0/0 0 } writes { } out { 0 } Done",
            "11 Client(1) > Replica(3): finalize 20.1/0 view 0 Commit reads { x[1] 0.0/0/0 0 } writes { } out { 0 } Done",
        ],
    ),
    Still(Picked(CLIENT1, Hurry)),
    Moves(
        Picked(REPLICA1, Deliver(9)),
        &["12 Replica(1) > Client(1): accepted 20.1/0 view 0"],
    ),
    Moves(
        Picked(REPLICA3, Deliver(11)),
        &["13 Replica(3) > Client(1): accepted 20.1/0 view 0"],
    ),
    Moves(Picked(CLIENT1, Deliver(12)), &[]),
    Moves(
        Picked(CLIENT1, Deliver(13)),
        &[
            "14 Client(1) > Replica(1): decide 20.1/0 Commit reads { x[1] 0.0/0/0 0 } writes { } out { 0 } Done",
            "15 Client(1) > Replica(2): decide 20.1/0 Commit reads { x[1] 0.0/0/0 0 } writes { } out { 0 } Done",
            "16 Client(1) > Replica(3): decide 20.1/0 Commit reads { x[1] 0.0/0/0 0 } writes { } out { 0 } Done",
        ],
    ),
    Still(Picked(CLIENT1, Hurry)),
];
