//! One client and one replica, as data: a read, a write, a vote and a decision, with what can't happen before and after.

use crate::names::{CLIENT1, CLIENT2, CUT20, E10, REPLICA1, WARDEN1};
use crate::playing::Row;
use crate::playing::Row::{Moves, Shows, Still};
use msg::Event::{Picked, Ran};
use msg::Pick::{Deliver, Go, Hurry, Idle, Recover, Truncate};

/// The client raises x[1], which is 4 at first.
pub(crate) const RAISES: &[u8] = b"morty 1 replicas 1 table x first x[1] 4
program inc { read a x[1]; write x[1] a + 1; print a } client 1 { inc at 10 } end";

pub(crate) static FIRST: [Row; 30] = [
    Shows(0, "0 events, fresh [], old [], go"),
    Shows(1, "0 events, fresh [], old []"),
    Still(Picked(CLIENT1, Idle)),
    Still(Picked(CLIENT1, Hurry)),
    Still(Picked(CLIENT1, Recover(E10))),
    Still(Picked(CLIENT2, Go)),
    Still(Picked(REPLICA1, Go)),
    Still(Picked(REPLICA1, Deliver(0))),
    Still(Picked(WARDEN1, Truncate(CUT20))),
    Still(Ran(1)),
    Still(Ran(2)),
    Moves(Picked(CLIENT1, Go), &[]),
    Still(Picked(CLIENT1, Go)),
    Moves(Ran(1), &["0 Client(1) > Replica(1): get 10.1/0 x[1]"]),
    Still(Ran(1)),
    Still(Picked(CLIENT1, Deliver(0))),
    Shows(1, "2 events, fresh [0], old []"),
    Moves(
        Picked(REPLICA1, Deliver(0)),
        &["1 Replica(1) > Client(1): note 10.1 x[1] 0.0/0/0 4 sure"],
    ),
    Shows(1, "3 events, fresh [], old [0]"),
    Moves(Picked(CLIENT1, Deliver(1)), &[]),
    Moves(
        Ran(1),
        &[
            "2 Client(1) > Replica(1): puts 10.1/0 writes { x[1] 5 }",
            "3 Client(1) > Replica(1): prepare 10.1/0 reads { x[1] 0.0/0/0 4 } writes { x[1] 5 } out { 4 } Done",
        ],
    ),
    Shows(0, "5 events, fresh [], old [1], hurry"),
    Moves(Picked(REPLICA1, Deliver(2)), &[]),
    Moves(
        Picked(REPLICA1, Deliver(3)),
        &["4 Replica(1) > Client(1): vote 10.1/0 Commit"],
    ),
    Shows(0, "7 events, fresh [4], old [1], hurry"),
    Moves(
        Picked(CLIENT1, Deliver(4)),
        &[
            "5 Client(1) > Replica(1): decide 10.1/0 Commit reads { x[1] 0.0/0/0 4 } writes { x[1] 5 } out { 4 } Done",
        ],
    ),
    Moves(Picked(REPLICA1, Deliver(5)), &[]),
    Still(Picked(CLIENT1, Go)),
    Still(Picked(CLIENT1, Hurry)),
    Shows(0, "9 events, fresh [], old [1, 4]"),
];
