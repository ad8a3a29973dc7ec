//! Attempts that a client gives up, and the next try at its version, as data.

use crate::bodies::Said;
use crate::nodes::Event;
use crate::sample::{CLIENT2, CUT30, E20, E40, FIRST, REPLICA, V20, V40, WARDEN, WID10, X};
use crate::stories::Row;
use protocol::Fate;

// The missed write comes where no execution is left: mail 6. A Note of the first try is nothing to the second.
static LIMIT: [Row; 7] = [
    (
        CLIENT2,
        Event::Deliver(5),
        &[(REPLICA, Said::Abandon(E20))],
        (Fate::Aborted, None),
    ),
    (CLIENT2, Event::Deliver(5), &[], (Fate::Aborted, None)),
    (CLIENT2, Event::Go, &[], (Fate::Live, Some(3))),
    (
        CLIENT2,
        Event::Run,
        &[(REPLICA, Said::Get(E40, X))],
        (Fate::Live, None),
    ),
    (
        REPLICA,
        Event::Deliver(7),
        &[(CLIENT2, Said::Note(V40, X, WID10, 7, false, None))],
        (Fate::Live, None),
    ),
    (CLIENT2, Event::Deliver(5), &[], (Fate::Live, None)),
    (CLIENT2, Event::Deliver(8), &[], (Fate::Live, Some(4))),
];

// The replica dropped what was before 30: mail 0 to 4.
static TOO_OLD: [Row; 10] = [
    (CLIENT2, Event::Go, &[], (Fate::Live, Some(1))),
    (
        CLIENT2,
        Event::Run,
        &[(REPLICA, Said::Get(E20, X))],
        (Fate::Live, None),
    ),
    (
        REPLICA,
        Event::Hear(WARDEN, Said::Drop(CUT30)),
        &[],
        (Fate::Live, None),
    ),
    (
        REPLICA,
        Event::Deliver(0),
        &[(CLIENT2, Said::TooOld(V20, CUT30))],
        (Fate::Live, None),
    ),
    (
        CLIENT2,
        Event::Deliver(1),
        &[(REPLICA, Said::Abandon(E20))],
        (Fate::Aborted, None),
    ),
    (CLIENT2, Event::Go, &[], (Fate::Live, Some(2))),
    (
        CLIENT2,
        Event::Run,
        &[(REPLICA, Said::Get(E40, X))],
        (Fate::Live, None),
    ),
    (CLIENT2, Event::Deliver(1), &[], (Fate::Live, None)),
    (
        REPLICA,
        Event::Deliver(3),
        &[(CLIENT2, Said::Note(V40, X, FIRST, 4, true, None))],
        (Fate::Live, None),
    ),
    (CLIENT2, Event::Deliver(4), &[], (Fate::Live, Some(3))),
];

pub(crate) fn limit() -> &'static [Row] {
    &LIMIT
}

pub(crate) fn too_old() -> &'static [Row] {
    &TOO_OLD
}
