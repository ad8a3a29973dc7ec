//! A write that a read has missed, and one that vanishes, as data.

use crate::names::{CLIENT1, CLIENT2, CLIENT3, E10, REPLICA1, WARDEN1};
use crate::playing::Row;
use crate::playing::Row::{Moves, Shows, Still};
use msg::Event::{Picked, Ran};
use msg::Pick::{Deliver, Go, Recover, Stop};

/// Client 1 writes x[1] and then reads, client 2 reads x[1] first.
pub(crate) const WRITES_AND_ADDS: &[u8] = b"morty 1 replicas 1 table x table y
program half { write x[1] 7; read b y[1]; print b }
program two { read a x[1]; read b y[1]; write x[1] a + b; print a }
client 1 { half at 10 } client 2 { two at 20 } end";

// The write comes once it is read past, and execution 1 begins at that read.
pub(crate) static FOLLOWED: [Row; 13] = [
    Moves(Picked(CLIENT1, Go), &[]),
    Moves(
        Ran(1),
        &[
            "0 Client(1) > Replica(1): puts 10.1/0 writes { x[1] 7 }",
            "1 Client(1) > Replica(1): get 10.1/0 y[1]",
        ],
    ),
    Moves(Picked(CLIENT2, Go), &[]),
    Moves(Ran(2), &["2 Client(2) > Replica(1): get 20.2/0 x[1]"]),
    Moves(
        Picked(REPLICA1, Deliver(2)),
        &["3 Replica(1) > Client(2): note 20.2 x[1] 0.0/0/0 0 sure"],
    ),
    Moves(Picked(CLIENT2, Deliver(3)), &[]),
    Moves(Ran(2), &["4 Client(2) > Replica(1): get 20.2/0 y[1]"]),
    Still(Ran(2)),
    Moves(
        Picked(REPLICA1, Deliver(0)),
        &["5 Replica(1) > Client(2): note 20.2 x[1] 10.1/0/1 7 unsure"],
    ),
    Moves(Picked(CLIENT2, Deliver(5)), &[]),
    Moves(
        Ran(2),
        &[
            "6 Client(2) > Replica(1): puts 20.2/1 writes { }",
            "7 Client(2) > Replica(1): get 20.2/1 y[1]",
        ],
    ),
    Still(Ran(2)),
    Shows(2, "10 events, fresh [1, 4, 6, 7], old [2, 0]"),
];

/// Client 1 writes x[1], client 2 reads it and writes y[1] or y[2], client 3 reads y[1].
pub(crate) const WRITES_AND_BRANCHES: &[u8] = b"morty 1 replicas 1 table x table y table z
program set { write x[1] 1 }
program branch { read a x[1]; if a == 0 { write y[1] 7 } else { write y[2] 9 }; read b z[1]; read b z[2]; print a }
program look { read c y[1]; print c }
client 1 { set at 10 } client 2 { branch at 20 } client 3 { look at 30 } end";

// A write vanishes since its writer has missed another, and runs again.
pub(crate) static BRANCHES: [Row; 41] = [
    Moves(Picked(CLIENT2, Go), &[]),
    Moves(Ran(2), &["0 Client(2) > Replica(1): get 20.2/0 x[1]"]),
    Moves(
        Picked(REPLICA1, Deliver(0)),
        &["1 Replica(1) > Client(2): note 20.2 x[1] 0.0/0/0 0 sure"],
    ),
    Moves(Picked(CLIENT2, Deliver(1)), &[]),
    Moves(
        Ran(2),
        &[
            "2 Client(2) > Replica(1): puts 20.2/0 writes { y[1] 7 }",
            "3 Client(2) > Replica(1): get 20.2/0 z[1]",
        ],
    ),
    Moves(Picked(REPLICA1, Deliver(2)), &[]),
    Moves(
        Picked(REPLICA1, Deliver(3)),
        &["4 Replica(1) > Client(2): note 20.2 z[1] 0.0/0/0 0 sure"],
    ),
    Moves(Picked(CLIENT1, Go), &[]),
    Moves(
        Ran(1),
        &[
            "5 Client(1) > Replica(1): puts 10.1/0 writes { x[1] 1 }",
            "6 Client(1) > Replica(1): prepare 10.1/0 reads { } writes { x[1] 1 } out { } Done",
        ],
    ),
    Moves(Picked(CLIENT2, Deliver(4)), &[]),
    Moves(Ran(2), &["7 Client(2) > Replica(1): get 20.2/0 z[2]"]),
    Moves(Picked(CLIENT3, Go), &[]),
    Moves(Ran(3), &["8 Client(3) > Replica(1): get 30.3/0 y[1]"]),
    // client 2 has missed a write, and takes the other branch
    Moves(
        Picked(REPLICA1, Deliver(5)),
        &["9 Replica(1) > Client(2): note 20.2 x[1] 10.1/0/1 1 unsure"],
    ),
    Moves(Picked(CLIENT2, Deliver(9)), &[]),
    Moves(
        Ran(2),
        &[
            "10 Client(2) > Replica(1): puts 20.2/1 writes { y[2] 9 }",
            "11 Client(2) > Replica(1): get 20.2/1 z[1]",
        ],
    ),
    Moves(
        Picked(REPLICA1, Deliver(6)),
        &["12 Replica(1) > Client(1): vote 10.1/0 Commit"],
    ),
    Moves(
        Picked(CLIENT1, Deliver(12)),
        &[
            "13 Client(1) > Replica(1): decide 10.1/0 Commit reads { } writes { x[1] 1 } out { } Done",
        ],
    ),
    Moves(
        Picked(REPLICA1, Deliver(7)),
        &["14 Replica(1) > Client(2): note 20.2 z[2] 0.0/0/0 0 sure"],
    ),
    Moves(Picked(CLIENT2, Deliver(14)), &[]),
    // client 3 reads what the first branch wrote, which vanishes
    Moves(
        Picked(REPLICA1, Deliver(8)),
        &["15 Replica(1) > Client(3): note 30.3 y[1] 20.2/0/1 7 unsure"],
    ),
    Moves(Picked(CLIENT3, Deliver(15)), &[]),
    Moves(Ran(3), &[]),
    Moves(
        Picked(REPLICA1, Deliver(10)),
        &["16 Replica(1) > Client(3): note 30.3 y[1] 0.0/0/0 0 sure gone 20.2/0/1"],
    ),
    Moves(Picked(CLIENT3, Deliver(16)), &[]),
    Moves(
        Ran(3),
        &[
            "17 Client(3) > Replica(1): puts 30.3/1 writes { }",
            "18 Client(3) > Replica(1): prepare 30.3/1 reads { y[1] 0.0/0/0 0 } writes { } out { 0 } Done",
        ],
    ),
    Moves(
        Picked(REPLICA1, Deliver(11)),
        &["19 Replica(1) > Client(2): note 20.2 z[1] 0.0/0/0 0 sure"],
    ),
    Moves(Picked(CLIENT2, Deliver(19)), &[]),
    Moves(Ran(2), &["20 Client(2) > Replica(1): get 20.2/1 z[2]"]),
    Moves(
        Picked(REPLICA1, Deliver(13)),
        &["21 Replica(1) > Client(2): note 20.2 x[1] 10.1/0/1 1 sure"],
    ),
    Moves(Picked(CLIENT2, Deliver(21)), &[]),
    Moves(Picked(REPLICA1, Deliver(17)), &[]),
    Moves(
        Picked(REPLICA1, Deliver(18)),
        &["22 Replica(1) > Client(3): vote 30.3/1 Commit"],
    ),
    Moves(
        Picked(CLIENT3, Deliver(22)),
        &[
            "23 Client(3) > Replica(1): decide 30.3/1 Commit reads { y[1] 0.0/0/0 0 } writes { } out { 0 } Done",
        ],
    ),
    Moves(
        Picked(REPLICA1, Deliver(20)),
        &["24 Replica(1) > Client(2): note 20.2 z[2] 0.0/0/0 0 sure"],
    ),
    Moves(Picked(CLIENT2, Deliver(24)), &[]),
    Moves(
        Ran(2),
        &[
            "25 Client(2) > Replica(1): prepare 20.2/1 reads { x[1] 10.1/0/1 1 z[1] 0.0/0/0 0 z[2] 0.0/0/0 0 } writes { y[2] 9 } out { 1 } Done",
        ],
    ),
    Moves(Picked(REPLICA1, Deliver(23)), &[]),
    Moves(
        Picked(REPLICA1, Deliver(25)),
        &["26 Replica(1) > Client(2): vote 20.2/1 Commit"],
    ),
    Moves(
        Picked(CLIENT2, Deliver(26)),
        &[
            "27 Client(2) > Replica(1): decide 20.2/1 Commit reads { x[1] 10.1/0/1 1 z[1] 0.0/0/0 0 z[2] 0.0/0/0 0 } writes { y[2] 9 } out { 1 } Done",
        ],
    ),
    Moves(Picked(REPLICA1, Deliver(27)), &[]),
];

/// Client 1 writes x[1] and then reads, client 2 reads x[1] alone.
pub(crate) const WRITES_AND_STOPS: &[u8] = b"morty 1 replicas 1 wardens 1 table x table y
program half { write x[1] 7; read b y[1]; print b } program look { read c x[1]; print c }
client 1 { half at 10 } client 2 { look at 20 } end";

// Client 2 is told of a write that is not sure. Its job is pending then.
static TOLD: [Row; 7] = [
    Moves(Picked(CLIENT1, Go), &[]),
    Moves(
        Ran(1),
        &[
            "0 Client(1) > Replica(1): puts 10.1/0 writes { x[1] 7 }",
            "1 Client(1) > Replica(1): get 10.1/0 y[1]",
        ],
    ),
    Moves(Picked(REPLICA1, Deliver(0)), &[]),
    Moves(Picked(CLIENT2, Go), &[]),
    Moves(Ran(2), &["2 Client(2) > Replica(1): get 20.2/0 x[1]"]),
    Moves(
        Picked(REPLICA1, Deliver(2)),
        &["3 Replica(1) > Client(2): note 20.2 x[1] 10.1/0/1 7 unsure"],
    ),
    Moves(Picked(CLIENT2, Deliver(3)), &[]),
];

// It ends, and prepares nothing.
pub(crate) static UNSURE: [Row; 1] = [Moves(Ran(2), &[])];

// Client 1 is stopped, and the warden abandons what it left, so that the write is gone. Client 2 follows.
static VANISHES: [Row; 11] = [
    Moves(Picked(CLIENT1, Stop), &[]),
    Still(Picked(CLIENT1, Stop)),
    Moves(
        Picked(WARDEN1, Recover(E10)),
        &["4 Warden(1) > Replica(1): ask 10.1/0 view 1"],
    ),
    Moves(
        Picked(REPLICA1, Deliver(4)),
        &["5 Replica(1) > Warden(1): told 10.1/0 view 1 None None None"],
    ),
    Moves(
        Picked(WARDEN1, Deliver(5)),
        &["6 Warden(1) > Replica(1): finalize 10.1/0 view 1 Abandon"],
    ),
    Moves(
        Picked(REPLICA1, Deliver(6)),
        &["7 Replica(1) > Warden(1): accepted 10.1/0 view 1"],
    ),
    Moves(
        Picked(WARDEN1, Deliver(7)),
        &[
            "8 Warden(1) > Replica(1): decide 10.1/0 Abandon",
            "9 Warden(1) > Client(1): decide 10.1/0 Abandon",
        ],
    ),
    Still(Picked(WARDEN1, Recover(E10))),
    Still(Picked(CLIENT1, Deliver(9))),
    Moves(
        Picked(REPLICA1, Deliver(8)),
        &["10 Replica(1) > Client(2): note 20.2 x[1] 0.0/0/0 0 sure gone 10.1/0/1"],
    ),
    Moves(Picked(CLIENT2, Deliver(10)), &[]),
];

// It runs again on the value before, and commits.
static AGAIN: [Row; 4] = [
    Moves(
        Ran(2),
        &[
            "11 Client(2) > Replica(1): puts 20.2/1 writes { }",
            "12 Client(2) > Replica(1): prepare 20.2/1 reads { x[1] 0.0/0/0 0 } writes { } out { 0 } Done",
        ],
    ),
    Moves(
        Picked(REPLICA1, Deliver(12)),
        &["13 Replica(1) > Client(2): vote 20.2/1 Commit"],
    ),
    Moves(
        Picked(CLIENT2, Deliver(13)),
        &[
            "14 Client(2) > Replica(1): decide 20.2/1 Commit reads { x[1] 0.0/0/0 0 } writes { } out { 0 } Done",
        ],
    ),
    Moves(Picked(REPLICA1, Deliver(14)), &[]),
];

pub(crate) fn told() -> &'static [Row] {
    &TOLD
}

pub(crate) fn vanishes() -> &'static [Row] {
    &VANISHES
}

pub(crate) fn again() -> &'static [Row] {
    &AGAIN
}
