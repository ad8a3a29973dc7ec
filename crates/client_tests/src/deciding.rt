//! Decisions of a warden, as data.

use crate::bodies::Said;
use crate::nodes::Event;
use crate::sample::{CLIENT1, CLIENT2, E20, E20_1, E40, RAISED_FIRST, REPLICA, WARDEN, X};
use crate::stories::Row;
use protocol::Fate;

// Of the execution that is prepared: it sends nothing, and a client's word is none.
static CURRENT: [Row; 3] = [
    (
        CLIENT2,
        Event::Hear(CLIENT1, Said::Commit(E20, RAISED_FIRST)),
        &[],
        (Fate::Live, None),
    ),
    (
        CLIENT2,
        Event::Hear(WARDEN, Said::Commit(E20, RAISED_FIRST)),
        &[],
        (Fate::Committed, None),
    ),
    (
        CLIENT2,
        Event::Hear(WARDEN, Said::Abandon(E20)),
        &[],
        (Fate::Committed, None),
    ),
];

// Of the one before, which changes nothing, and then of the one that runs.
static OLDER: [Row; 6] = [
    (
        CLIENT2,
        Event::Hear(WARDEN, Said::Abandon(E20)),
        &[],
        (Fate::Live, Some(3)),
    ),
    (
        CLIENT2,
        Event::Hear(REPLICA, Said::Abandon(E20_1)),
        &[],
        (Fate::Live, Some(3)),
    ),
    (
        CLIENT2,
        Event::Hear(WARDEN, Said::Abandon(E20_1)),
        &[],
        (Fate::Aborted, None),
    ),
    (CLIENT2, Event::Go, &[], (Fate::Live, Some(4))),
    (
        CLIENT2,
        Event::Run,
        &[(REPLICA, Said::Get(E40, X))],
        (Fate::Live, None),
    ),
    (
        CLIENT2,
        Event::Hear(WARDEN, Said::Abandon(E20_1)),
        &[],
        (Fate::Live, None),
    ),
];

pub(crate) fn current() -> &'static [Row] {
    &CURRENT
}

pub(crate) fn older() -> &'static [Row] {
    &OLDER
}
