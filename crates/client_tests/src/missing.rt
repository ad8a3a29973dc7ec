//! Writes that a client missed: one that it follows at once, one that it takes up after the Abandon, and one of the same
//! value, as data.

use crate::bodies::Said;
use crate::nodes::Event;
use crate::sample::{
    CLIENT1, CLIENT2, E10, E20, E20_1, FIRST, PUT_4, PUT_7, RAISED_4, RAISED_7, RAISED_FIRST,
    REPLICA, SUMMED, V20, WID10, WRITES_4, WRITES_5, WRITES_7, WRITES_8, X, Y,
};
use crate::stories::Row;
use msg::Vote;
use protocol::Fate;

// The client that sums has read x[1] and asks for y[1]: mail 0 to 2.
static ASKING: [Row; 5] = [
    (CLIENT2, Event::Go, &[], (Fate::Live, Some(1))),
    (
        CLIENT2,
        Event::Run,
        &[(REPLICA, Said::Get(E20, X))],
        (Fate::Live, None),
    ),
    (
        REPLICA,
        Event::Deliver(0),
        &[(CLIENT2, Said::Note(V20, X, FIRST, 4, true, None))],
        (Fate::Live, None),
    ),
    (CLIENT2, Event::Deliver(1), &[], (Fate::Live, Some(2))),
    (
        CLIENT2,
        Event::Run,
        &[(REPLICA, Said::Get(E20, Y))],
        (Fate::Live, None),
    ),
];

// Meanwhile x[1] is written at the earlier version: mail 3 to 5.
static MISSED: [Row; 3] = [
    (CLIENT1, Event::Go, &[], (Fate::Live, None)),
    (
        CLIENT1,
        Event::Run,
        &[
            (REPLICA, Said::Puts(E10, &[WRITES_7])),
            (REPLICA, Said::Prepare(E10, PUT_7)),
        ],
        (Fate::Live, None),
    ),
    (
        REPLICA,
        Event::Deliver(3),
        &[(CLIENT2, Said::Note(V20, X, WID10, 7, false, None))],
        (Fate::Live, None),
    ),
];

// The next execution runs again from that read, and is prepared once the write is sure.
static FOLLOWED: [Row; 11] = [
    (CLIENT2, Event::Deliver(5), &[], (Fate::Live, Some(3))),
    (
        CLIENT2,
        Event::Run,
        &[
            (REPLICA, Said::Puts(E20_1, &[])),
            (REPLICA, Said::Get(E20_1, Y)),
        ],
        (Fate::Live, None),
    ),
    (
        REPLICA,
        Event::Deliver(7),
        &[(CLIENT2, Said::Note(V20, Y, FIRST, 0, true, None))],
        (Fate::Live, None),
    ),
    (CLIENT2, Event::Deliver(8), &[], (Fate::Live, Some(4))),
    (
        CLIENT2,
        Event::Run,
        &[(REPLICA, Said::Puts(E20_1, &[WRITES_7]))],
        (Fate::Live, None),
    ),
    (
        REPLICA,
        Event::Deliver(4),
        &[(CLIENT1, Said::Vote(E10, Vote::Commit))],
        (Fate::Live, None),
    ),
    (
        CLIENT1,
        Event::Deliver(10),
        &[(REPLICA, Said::Commit(E10, PUT_7))],
        (Fate::Live, None),
    ),
    (
        REPLICA,
        Event::Deliver(11),
        &[(CLIENT2, Said::Note(V20, X, WID10, 7, true, None))],
        (Fate::Live, None),
    ),
    (
        CLIENT2,
        Event::Deliver(12),
        &[(REPLICA, Said::Prepare(E20_1, SUMMED))],
        (Fate::Live, None),
    ),
    (
        REPLICA,
        Event::Deliver(13),
        &[(CLIENT2, Said::Vote(E20_1, Vote::Commit))],
        (Fate::Live, None),
    ),
    (
        CLIENT2,
        Event::Deliver(14),
        &[(REPLICA, Said::Commit(E20_1, SUMMED))],
        (Fate::Committed, None),
    ),
];

// The client that raises x[1] read its first value and is prepared: mail 0 to 3.
static PREPARED: [Row; 5] = [
    (CLIENT2, Event::Go, &[], (Fate::Live, Some(1))),
    (
        CLIENT2,
        Event::Run,
        &[(REPLICA, Said::Get(E20, X))],
        (Fate::Live, None),
    ),
    (
        REPLICA,
        Event::Deliver(0),
        &[(CLIENT2, Said::Note(V20, X, FIRST, 4, true, None))],
        (Fate::Live, None),
    ),
    (CLIENT2, Event::Deliver(1), &[], (Fate::Live, Some(2))),
    (
        CLIENT2,
        Event::Run,
        &[
            (REPLICA, Said::Puts(E20, &[WRITES_5])),
            (REPLICA, Said::Prepare(E20, RAISED_FIRST)),
        ],
        (Fate::Live, None),
    ),
];

// It hears of a write that it missed, keeps it, and is abandoned: mail 4 to 11. Only then the next execution begins.
static ABANDONED: [Row; 9] = [
    (CLIENT1, Event::Go, &[], (Fate::Live, None)),
    (
        CLIENT1,
        Event::Run,
        &[
            (REPLICA, Said::Puts(E10, &[WRITES_7])),
            (REPLICA, Said::Prepare(E10, PUT_7)),
        ],
        (Fate::Live, None),
    ),
    (
        REPLICA,
        Event::Deliver(4),
        &[(CLIENT2, Said::Note(V20, X, WID10, 7, false, None))],
        (Fate::Live, None),
    ),
    (CLIENT2, Event::Deliver(6), &[], (Fate::Live, None)),
    (
        REPLICA,
        Event::Deliver(5),
        &[(CLIENT1, Said::Vote(E10, Vote::Commit))],
        (Fate::Live, None),
    ),
    (
        REPLICA,
        Event::Deliver(3),
        &[(CLIENT2, Said::Vote(E20, Vote::Tentative))],
        (Fate::Live, None),
    ),
    (
        CLIENT2,
        Event::Deliver(8),
        &[(REPLICA, Said::Propose(E20))],
        (Fate::Live, None),
    ),
    (
        REPLICA,
        Event::Deliver(9),
        &[(CLIENT2, Said::Accepted(E20))],
        (Fate::Live, None),
    ),
    (
        CLIENT2,
        Event::Deliver(10),
        &[(REPLICA, Said::Abandon(E20))],
        (Fate::Live, Some(3)),
    ),
];

// It reads the write, and commits.
static TAKEN_UP: [Row; 6] = [
    (
        CLIENT2,
        Event::Run,
        &[(REPLICA, Said::Puts(E20_1, &[WRITES_8]))],
        (Fate::Live, None),
    ),
    (
        CLIENT1,
        Event::Deliver(7),
        &[(REPLICA, Said::Commit(E10, PUT_7))],
        (Fate::Live, None),
    ),
    (
        REPLICA,
        Event::Deliver(13),
        &[(CLIENT2, Said::Note(V20, X, WID10, 7, true, None))],
        (Fate::Live, None),
    ),
    (
        CLIENT2,
        Event::Deliver(14),
        &[(REPLICA, Said::Prepare(E20_1, RAISED_7))],
        (Fate::Live, None),
    ),
    (
        REPLICA,
        Event::Deliver(15),
        &[(CLIENT2, Said::Vote(E20_1, Vote::Commit))],
        (Fate::Live, None),
    ),
    (
        CLIENT2,
        Event::Deliver(16),
        &[(REPLICA, Said::Commit(E20_1, RAISED_7))],
        (Fate::Committed, None),
    ),
];

// The missed write is of the same value: the next execution keeps its ending, and no job is ever pending.
static RELABELLED: [Row; 14] = [
    (CLIENT1, Event::Go, &[], (Fate::Live, None)),
    (
        CLIENT1,
        Event::Run,
        &[
            (REPLICA, Said::Puts(E10, &[WRITES_4])),
            (REPLICA, Said::Prepare(E10, PUT_4)),
        ],
        (Fate::Live, None),
    ),
    (
        REPLICA,
        Event::Deliver(4),
        &[(CLIENT2, Said::Note(V20, X, WID10, 4, false, None))],
        (Fate::Live, None),
    ),
    (CLIENT2, Event::Deliver(6), &[], (Fate::Live, None)),
    (
        REPLICA,
        Event::Deliver(5),
        &[(CLIENT1, Said::Vote(E10, Vote::Commit))],
        (Fate::Live, None),
    ),
    (
        REPLICA,
        Event::Deliver(3),
        &[(CLIENT2, Said::Vote(E20, Vote::Tentative))],
        (Fate::Live, None),
    ),
    (
        CLIENT2,
        Event::Deliver(8),
        &[(REPLICA, Said::Propose(E20))],
        (Fate::Live, None),
    ),
    (
        REPLICA,
        Event::Deliver(9),
        &[(CLIENT2, Said::Accepted(E20))],
        (Fate::Live, None),
    ),
    (
        CLIENT2,
        Event::Deliver(10),
        &[
            (REPLICA, Said::Abandon(E20)),
            (REPLICA, Said::Puts(E20_1, &[WRITES_5])),
        ],
        (Fate::Live, None),
    ),
    (
        CLIENT1,
        Event::Deliver(7),
        &[(REPLICA, Said::Commit(E10, PUT_4))],
        (Fate::Live, None),
    ),
    (
        REPLICA,
        Event::Deliver(13),
        &[(CLIENT2, Said::Note(V20, X, WID10, 4, true, None))],
        (Fate::Live, None),
    ),
    (
        CLIENT2,
        Event::Deliver(14),
        &[(REPLICA, Said::Prepare(E20_1, RAISED_4))],
        (Fate::Live, None),
    ),
    (
        REPLICA,
        Event::Deliver(15),
        &[(CLIENT2, Said::Vote(E20_1, Vote::Commit))],
        (Fate::Live, None),
    ),
    (
        CLIENT2,
        Event::Deliver(16),
        &[(REPLICA, Said::Commit(E20_1, RAISED_4))],
        (Fate::Committed, None),
    ),
];

pub(crate) fn asking() -> &'static [Row] {
    &ASKING
}

pub(crate) fn missed() -> &'static [Row] {
    &MISSED
}

pub(crate) fn followed() -> &'static [Row] {
    &FOLLOWED
}

pub(crate) fn prepared() -> &'static [Row] {
    &PREPARED
}

pub(crate) fn abandoned() -> &'static [Row] {
    &ABANDONED
}

pub(crate) fn taken_up() -> &'static [Row] {
    &TAKEN_UP
}

pub(crate) fn relabelled() -> &'static [Row] {
    &RELABELLED
}
