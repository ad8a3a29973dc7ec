//! A truncation, as data: a warden recovers what may yet be committed, and drops the past.

use crate::names::{CLIENT2, CUT0, CUT20, CUT30, REPLICA1, REPLICA2, WARDEN1};
use crate::playing::Row;
use crate::playing::Row::{Moves, Shows, Still};
use msg::Event::{Picked, Ran};
use msg::Pick::{Deliver, Go, Truncate};

/// Client 1 raises x[1] at 10, client 2 reads it at 15 and, by the gap, then at 25.
pub(crate) const RAISES_AND_LOOKS: &[u8] =
    b"morty 1 replicas 3 wardens 1 gap 10 table x first x[1] 4
program inc { read a x[1]; write x[1] a + 1; print a } program look { read c x[1]; print c }
client 1 { inc at 10 } client 2 { look at 15 } end";

// The execution that is voted on and undecided is recovered, and its write is the base.
pub(crate) static DROPS: [Row; 21] = [
    Still(Picked(WARDEN1, Truncate(CUT0))),
    Moves(
        Picked(WARDEN1, Truncate(CUT20)),
        &[
            "12 Warden(1) > Replica(1): fence 20.0",
            "13 Warden(1) > Replica(2): fence 20.0",
            "14 Warden(1) > Replica(3): fence 20.0",
        ],
    ),
    Still(Picked(WARDEN1, Truncate(CUT30))),
    Moves(
        Picked(REPLICA1, Deliver(12)),
        &[
            "15 Replica(1) > Warden(1): fenced 20.0 base { } committed { } voted { 10.1/0 reads { x[1] 0.0/0/0 4 } writes { x[1] 5 } out { 4 } Done }",
        ],
    ),
    Moves(
        Picked(REPLICA2, Deliver(13)),
        &[
            "16 Replica(2) > Warden(1): fenced 20.0 base { } committed { } voted { 10.1/0 reads { x[1] 0.0/0/0 4 } writes { x[1] 5 } out { 4 } Done }",
        ],
    ),
    Moves(Picked(WARDEN1, Deliver(15)), &[]),
    Moves(
        Picked(WARDEN1, Deliver(16)),
        &[
            "17 Warden(1) > Replica(1): ask 10.1/0 view 1",
            "18 Warden(1) > Replica(2): ask 10.1/0 view 1",
            "19 Warden(1) > Replica(3): ask 10.1/0 view 1",
        ],
    ),
    Moves(
        Picked(REPLICA1, Deliver(17)),
        &[
            "20 Replica(1) > Warden(1): told 10.1/0 view 1 Some(Commit) None None reads { x[1] 0.0/0/0 4 } writes { x[1] 5 } out { 4 } Done",
        ],
    ),
    Moves(
        Picked(REPLICA2, Deliver(18)),
        &[
            "21 Replica(2) > Warden(1): told 10.1/0 view 1 Some(Commit) None None reads { x[1] 0.0/0/0 4 } writes { x[1] 5 } out { 4 } Done",
        ],
    ),
    Moves(Picked(WARDEN1, Deliver(20)), &[]),
    Moves(
        Picked(WARDEN1, Deliver(21)),
        &[
            "22 Warden(1) > Replica(1): finalize 10.1/0 view 1 Commit reads { x[1] 0.0/0/0 4 } writes { x[1] 5 } out { 4 } Done",
            "23 Warden(1) > Replica(2): finalize 10.1/0 view 1 Commit reads { x[1] 0.0/0/0 4 } writes { x[1] 5 } out { 4 } Done",
            "24 Warden(1) > Replica(3): finalize 10.1/0 view 1 Commit reads { x[1] 0.0/0/0 4 } writes { x[1] 5 } out { 4 } Done",
        ],
    ),
    Moves(
        Picked(REPLICA1, Deliver(22)),
        &["25 Replica(1) > Warden(1): accepted 10.1/0 view 1"],
    ),
    Moves(
        Picked(REPLICA2, Deliver(23)),
        &["26 Replica(2) > Warden(1): accepted 10.1/0 view 1"],
    ),
    Moves(Picked(WARDEN1, Deliver(25)), &[]),
    Moves(
        Picked(WARDEN1, Deliver(26)),
        &[
            "27 Warden(1) > Replica(1): decide 10.1/0 Commit reads { x[1] 0.0/0/0 4 } writes { x[1] 5 } out { 4 } Done",
            "28 Warden(1) > Replica(2): decide 10.1/0 Commit reads { x[1] 0.0/0/0 4 } writes { x[1] 5 } out { 4 } Done",
            "29 Warden(1) > Replica(3): decide 10.1/0 Commit reads { x[1] 0.0/0/0 4 } writes { x[1] 5 } out { 4 } Done",
            "30 Warden(1) > Client(1): decide 10.1/0 Commit reads { x[1] 0.0/0/0 4 } writes { x[1] 5 } out { 4 } Done",
            "31 Warden(1) > Replica(1): drop 20.0 base { x[1] 10.1/0/1 5 }",
            "32 Warden(1) > Replica(2): drop 20.0 base { x[1] 10.1/0/1 5 }",
            "33 Warden(1) > Replica(3): drop 20.0 base { x[1] 10.1/0/1 5 }",
        ],
    ),
    Still(Picked(WARDEN1, Truncate(CUT20))),
    // replica 1 drops, and says nothing any more of what it dropped
    Moves(Picked(REPLICA1, Deliver(31)), &[]),
    Moves(Picked(REPLICA1, Deliver(27)), &[]),
    Moves(Picked(REPLICA1, Deliver(17)), &[]),
    Shows(2, "23 events, fresh [4], old [0, 7, 12, 17, 22, 31, 27]"),
    Shows(1, "23 events, fresh [], old [], go"),
];

// A read below the dropped version is too late, and one above it is answered from the base.
pub(crate) static TOO_OLD: [Row; 8] = [
    Moves(Picked(CLIENT2, Go), &[]),
    Moves(
        Ran(2),
        &[
            "34 Client(2) > Replica(1): get 15.2/0 x[1]",
            "35 Client(2) > Replica(2): get 15.2/0 x[1]",
            "36 Client(2) > Replica(3): get 15.2/0 x[1]",
        ],
    ),
    Moves(
        Picked(REPLICA1, Deliver(34)),
        &["37 Replica(1) > Client(2): too old 15.2 20.0"],
    ),
    Moves(
        Picked(CLIENT2, Deliver(37)),
        &[
            "38 Client(2) > Replica(1): decide 15.2/0 Abandon",
            "39 Client(2) > Replica(2): decide 15.2/0 Abandon",
            "40 Client(2) > Replica(3): decide 15.2/0 Abandon",
        ],
    ),
    Shows(1, "27 events, fresh [], old [37], go"),
    Moves(Picked(CLIENT2, Go), &[]),
    Moves(
        Ran(2),
        &[
            "41 Client(2) > Replica(1): get 25.2/0 x[1]",
            "42 Client(2) > Replica(2): get 25.2/0 x[1]",
            "43 Client(2) > Replica(3): get 25.2/0 x[1]",
        ],
    ),
    Moves(
        Picked(REPLICA1, Deliver(41)),
        &["44 Replica(1) > Client(2): note 25.2 x[1] 10.1/0/1 5 sure"],
    ),
];
