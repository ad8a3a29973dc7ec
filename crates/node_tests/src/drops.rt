//! What a Drop leaves, and what is said of what it dropped, as data.

use crate::bodies::Said;
use crate::nodes::Event::Hear;
use crate::playing::Row;
use crate::playing::Row::Sends;
use crate::sample::{
    BASE5, BASE17, CLIENT1, CLIENT2, CLIENT3, CUT16, CUT18, CUT25, CUT30, E10, E10_1, E16, E20,
    E20_1, E30, FIRST, LOOKS, NOTHING, REPLICA1, TURNS, V10, V20, V30, WARDEN1, WARDEN2, WID5,
    WID10, WID17, WRITES, WRITES_7, WRITES_8, X, Y,
};
use msg::{Choice, Vote};

/// What a Drop leaves, and what is said of what it dropped.
pub(crate) static DROPPED: [Row; 23] = [
    Sends(
        REPLICA1,
        Hear(CLIENT1, Said::Get(E10, X)),
        &[(CLIENT1, Said::Note(V10, X, FIRST, 4, true, None))],
    ),
    Sends(
        REPLICA1,
        Hear(CLIENT3, Said::Get(E30, X)),
        &[(CLIENT3, Said::Note(V30, X, FIRST, 4, true, None))],
    ),
    Sends(
        REPLICA1,
        Hear(CLIENT2, Said::Get(E20, X)),
        &[(CLIENT2, Said::Note(V20, X, FIRST, 4, true, None))],
    ),
    Sends(
        REPLICA1,
        Hear(CLIENT1, Said::Puts(E10, &[WRITES_7])),
        &[
            (CLIENT2, Said::Note(V20, X, WID10, 7, false, None)),
            (CLIENT3, Said::Note(V30, X, WID10, 7, false, None)),
        ],
    ),
    Sends(
        REPLICA1,
        Hear(CLIENT1, Said::Prepare(E10, WRITES)),
        &[(CLIENT1, Said::Vote(E10, Vote::Commit))],
    ),
    // the Puts and the reader of 10.1 go, and the base stands for them
    Sends(
        REPLICA1,
        Hear(WARDEN1, Said::Drop(CUT16, &[BASE5])),
        &[
            (CLIENT2, Said::Note(V20, X, WID5, 5, true, Some(WID10))),
            (CLIENT3, Said::Note(V30, X, WID5, 5, true, Some(WID10))),
        ],
    ),
    Sends(
        REPLICA1,
        Hear(CLIENT1, Said::Get(E10, X)),
        &[(CLIENT1, Said::TooOld(V10, CUT16))],
    ),
    Sends(
        REPLICA1,
        Hear(CLIENT2, Said::Get(E16, Y)),
        &[(CLIENT2, Said::TooOld(CUT16, CUT16))],
    ),
    Sends(REPLICA1, Hear(WARDEN1, Said::Ask(E10, 1)), &[]),
    Sends(REPLICA1, Hear(CLIENT1, Said::Puts(E10_1, &[WRITES_8])), &[]),
    Sends(REPLICA1, Hear(CLIENT1, Said::Prepare(E10_1, TURNS)), &[]),
    Sends(
        REPLICA1,
        Hear(CLIENT1, Said::Finalize(E10, 0, Choice::Abandon, None)),
        &[],
    ),
    Sends(
        REPLICA1,
        Hear(CLIENT1, Said::Decide(E10, Choice::Commit, Some(WRITES))),
        &[],
    ),
    Sends(REPLICA1, Hear(WARDEN1, Said::Fence(CUT16)), &[]),
    Sends(REPLICA1, Hear(WARDEN2, Said::Drop(CUT16, &[BASE17])), &[]),
    Sends(
        REPLICA1,
        Hear(CLIENT2, Said::Prepare(E20, LOOKS)),
        &[(CLIENT2, Said::Vote(E20, Vote::Final))],
    ),
    // the base of the later Drop takes the place of that of the earlier one
    Sends(
        REPLICA1,
        Hear(WARDEN1, Said::Drop(CUT18, &[BASE17])),
        &[
            (CLIENT2, Said::Note(V20, X, WID17, 6, true, Some(WID5))),
            (CLIENT3, Said::Note(V30, X, WID17, 6, true, Some(WID5))),
        ],
    ),
    Sends(
        REPLICA1,
        Hear(WARDEN1, Said::Fence(CUT25)),
        &[(WARDEN1, Said::Fenced(CUT25, &[BASE17], &[], &[]))],
    ),
    Sends(
        REPLICA1,
        Hear(WARDEN1, Said::Ask(E20, 1)),
        &[(
            WARDEN1,
            Said::Told(E20, 1, Some(Vote::Final), None, None, Some(LOOKS)),
        )],
    ),
    Sends(
        REPLICA1,
        Hear(CLIENT2, Said::Prepare(E20_1, NOTHING)),
        &[(CLIENT2, Said::Vote(E20_1, Vote::Tentative))],
    ),
    Sends(
        REPLICA1,
        Hear(WARDEN2, Said::Drop(CUT30, &[])),
        &[(CLIENT3, Said::Note(V30, X, FIRST, 4, true, Some(WID17)))],
    ),
    Sends(
        REPLICA1,
        Hear(CLIENT3, Said::Prepare(E30, NOTHING)),
        &[(CLIENT3, Said::Vote(E30, Vote::Commit))],
    ),
    Sends(
        REPLICA1,
        Hear(CLIENT2, Said::Get(E20, X)),
        &[(CLIENT2, Said::TooOld(V20, CUT30))],
    ),
];
