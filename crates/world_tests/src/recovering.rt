//! What a stopped client left open, as data: wardens commit it, or abandon it.

use crate::names::{CLIENT1, CUT0, E10, REPLICA1, REPLICA2, REPLICA3, WARDEN1, WARDEN2};
use crate::playing::Row;
use crate::playing::Row::{Moves, Shows, Still};
use msg::Event::{Picked, Ran};
use msg::Pick::{Deliver, Go, Hurry, Recover, Stop, Truncate};

/// The client raises x[1] at three replicas, beside two wardens.
pub(crate) const RAISES_BESIDE_WARDENS: &[u8] = b"morty 1 replicas 3 wardens 2 table x first x[1] 4
program inc { read a x[1]; write x[1] a + 1; print a } client 1 { inc at 10 } end";

// Replicas 1 and 2 vote Commit, and the client has no vote yet.
pub(crate) static TWO_VOTES: [Row; 7] = [
    Moves(Picked(CLIENT1, Go), &[]),
    Moves(
        Ran(1),
        &[
            "0 Client(1) > Replica(1): get 10.1/0 x[1]",
            "1 Client(1) > Replica(2): get 10.1/0 x[1]",
            "2 Client(1) > Replica(3): get 10.1/0 x[1]",
        ],
    ),
    Moves(
        Picked(REPLICA1, Deliver(0)),
        &["3 Replica(1) > Client(1): note 10.1 x[1] 0.0/0/0 4 sure"],
    ),
    Moves(Picked(CLIENT1, Deliver(3)), &[]),
    Moves(
        Ran(1),
        &[
            "4 Client(1) > Replica(1): puts 10.1/0 writes { x[1] 5 }",
            "5 Client(1) > Replica(2): puts 10.1/0 writes { x[1] 5 }",
            "6 Client(1) > Replica(3): puts 10.1/0 writes { x[1] 5 }",
            "7 Client(1) > Replica(1): prepare 10.1/0 reads { x[1] 0.0/0/0 4 } writes { x[1] 5 } out { 4 } Done",
            "8 Client(1) > Replica(2): prepare 10.1/0 reads { x[1] 0.0/0/0 4 } writes { x[1] 5 } out { 4 } Done",
            "9 Client(1) > Replica(3): prepare 10.1/0 reads { x[1] 0.0/0/0 4 } writes { x[1] 5 } out { 4 } Done",
        ],
    ),
    Moves(
        Picked(REPLICA1, Deliver(7)),
        &["10 Replica(1) > Client(1): vote 10.1/0 Commit"],
    ),
    Moves(
        Picked(REPLICA2, Deliver(8)),
        &["11 Replica(2) > Client(1): vote 10.1/0 Commit"],
    ),
];

// Warden 1 proposes in view 1, which replica 1 alone accepts; warden 2 proposes the same in view 2, and decides it.
pub(crate) static CONTEST: [Row; 23] = [
    Shows(4, "7 events, fresh [], old []"),
    Moves(Picked(CLIENT1, Stop), &[]),
    // a stopped node takes nothing more, and wardens are shown what it left
    Still(Picked(CLIENT1, Deliver(10))),
    Still(Picked(CLIENT1, Hurry)),
    Shows(4, "8 events, fresh [], old [], stuck 10.1/0"),
    Moves(
        Picked(WARDEN1, Recover(E10)),
        &[
            "12 Warden(1) > Replica(1): ask 10.1/0 view 1",
            "13 Warden(1) > Replica(2): ask 10.1/0 view 1",
            "14 Warden(1) > Replica(3): ask 10.1/0 view 1",
        ],
    ),
    Moves(
        Picked(REPLICA1, Deliver(12)),
        &[
            "15 Replica(1) > Warden(1): told 10.1/0 view 1 Some(Commit) None None reads { x[1] 0.0/0/0 4 } writes { x[1] 5 } out { 4 } Done",
        ],
    ),
    Moves(
        Picked(REPLICA2, Deliver(13)),
        &[
            "16 Replica(2) > Warden(1): told 10.1/0 view 1 Some(Commit) None None reads { x[1] 0.0/0/0 4 } writes { x[1] 5 } out { 4 } Done",
        ],
    ),
    Moves(Picked(WARDEN1, Deliver(15)), &[]),
    Moves(
        Picked(WARDEN1, Deliver(16)),
        &[
            "17 Warden(1) > Replica(1): finalize 10.1/0 view 1 Commit reads { x[1] 0.0/0/0 4 } writes { x[1] 5 } out { 4 } Done",
            "18 Warden(1) > Replica(2): finalize 10.1/0 view 1 Commit reads { x[1] 0.0/0/0 4 } writes { x[1] 5 } out { 4 } Done",
            "19 Warden(1) > Replica(3): finalize 10.1/0 view 1 Commit reads { x[1] 0.0/0/0 4 } writes { x[1] 5 } out { 4 } Done",
        ],
    ),
    Moves(
        Picked(REPLICA1, Deliver(17)),
        &["20 Replica(1) > Warden(1): accepted 10.1/0 view 1"],
    ),
    // warden 2 hears of replica 1, which has accepted, and of replica 3, which has not even voted
    Moves(
        Picked(WARDEN2, Recover(E10)),
        &[
            "21 Warden(2) > Replica(1): ask 10.1/0 view 2",
            "22 Warden(2) > Replica(2): ask 10.1/0 view 2",
            "23 Warden(2) > Replica(3): ask 10.1/0 view 2",
        ],
    ),
    Moves(
        Picked(REPLICA1, Deliver(21)),
        &[
            "24 Replica(1) > Warden(2): told 10.1/0 view 2 Some(Commit) Some(Accept { view: 1, choice: Commit }) None \
             reads { x[1] 0.0/0/0 4 } writes { x[1] 5 } out { 4 } Done",
        ],
    ),
    Moves(
        Picked(REPLICA3, Deliver(23)),
        &["25 Replica(3) > Warden(2): told 10.1/0 view 2 None None None"],
    ),
    Moves(Picked(WARDEN2, Deliver(24)), &[]),
    Moves(
        Picked(WARDEN2, Deliver(25)),
        &[
            "26 Warden(2) > Replica(1): finalize 10.1/0 view 2 Commit reads { x[1] 0.0/0/0 4 } writes { x[1] 5 } out { 4 } Done",
            "27 Warden(2) > Replica(2): finalize 10.1/0 view 2 Commit reads { x[1] 0.0/0/0 4 } writes { x[1] 5 } out { 4 } Done",
            "28 Warden(2) > Replica(3): finalize 10.1/0 view 2 Commit reads { x[1] 0.0/0/0 4 } writes { x[1] 5 } out { 4 } Done",
        ],
    ),
    Moves(
        Picked(REPLICA2, Deliver(27)),
        &["29 Replica(2) > Warden(2): accepted 10.1/0 view 2"],
    ),
    Moves(
        Picked(REPLICA3, Deliver(28)),
        &["30 Replica(3) > Warden(2): accepted 10.1/0 view 2"],
    ),
    Moves(Picked(WARDEN2, Deliver(29)), &[]),
    Moves(
        Picked(WARDEN2, Deliver(30)),
        &[
            "31 Warden(2) > Replica(1): decide 10.1/0 Commit reads { x[1] 0.0/0/0 4 } writes { x[1] 5 } out { 4 } Done",
            "32 Warden(2) > Replica(2): decide 10.1/0 Commit reads { x[1] 0.0/0/0 4 } writes { x[1] 5 } out { 4 } Done",
            "33 Warden(2) > Replica(3): decide 10.1/0 Commit reads { x[1] 0.0/0/0 4 } writes { x[1] 5 } out { 4 } Done",
            "34 Warden(2) > Client(1): decide 10.1/0 Commit reads { x[1] 0.0/0/0 4 } writes { x[1] 5 } out { 4 } Done",
        ],
    ),
    Still(Picked(WARDEN2, Recover(E10))),
    Still(Picked(WARDEN1, Truncate(CUT0))),
    Shows(4, "23 events, fresh [20], old [15, 16]"),
];

// A warden that hears of a replica without a vote proposes Abandon.
pub(crate) static ABANDONS: [Row; 7] = [
    Moves(Picked(CLIENT1, Stop), &[]),
    Moves(
        Picked(WARDEN1, Recover(E10)),
        &[
            "12 Warden(1) > Replica(1): ask 10.1/0 view 1",
            "13 Warden(1) > Replica(2): ask 10.1/0 view 1",
            "14 Warden(1) > Replica(3): ask 10.1/0 view 1",
        ],
    ),
    Moves(
        Picked(REPLICA1, Deliver(12)),
        &[
            "15 Replica(1) > Warden(1): told 10.1/0 view 1 Some(Commit) None None reads { x[1] 0.0/0/0 4 } writes { x[1] 5 } out { 4 } Done",
        ],
    ),
    Moves(
        Picked(REPLICA3, Deliver(14)),
        &["16 Replica(3) > Warden(1): told 10.1/0 view 1 None None None"],
    ),
    Moves(Picked(WARDEN1, Deliver(15)), &[]),
    Moves(
        Picked(WARDEN1, Deliver(16)),
        &[
            "17 Warden(1) > Replica(1): finalize 10.1/0 view 1 Abandon",
            "18 Warden(1) > Replica(2): finalize 10.1/0 view 1 Abandon",
            "19 Warden(1) > Replica(3): finalize 10.1/0 view 1 Abandon",
        ],
    ),
    // replica 3 promised view 1, and votes no more
    Moves(Picked(REPLICA3, Deliver(9)), &[]),
];
