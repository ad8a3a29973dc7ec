//! What comes to a replica, envelope by envelope, and what it sends by its rules, as data.

use crate::bodies::Said;
use crate::nodes::Event::Hear;
use crate::playing::Row;
use crate::playing::Row::Sends;
use crate::sample::{
    CLIENT1, CLIENT2, CLIENT3, CLIENT4, CUT16, CUT18, CUT30, E10, E10_1, E12, E15, E15_1, E17, E20,
    E20_1, E20_2, E40, E40_1, FIRST, LOOKS, LOOKS_LATER, NOTHING, PAIR, REPLICA1, REPLICA2, TURNS,
    V10, V20, WARDEN1, WARDEN2, WID10, WID10_1, WID10_SECOND, WRITES, WRITES_6, WRITES_7, WRITES_8,
    WRITES_9, X, Y,
};
use msg::{Choice, Vote};

/// Every kind of envelope.
pub(crate) static EVERY_KIND: [Row; 42] = [
    // readers, in rising order of key and version
    Sends(
        REPLICA1,
        Hear(CLIENT1, Said::Get(E10, X)),
        &[(CLIENT1, Said::Note(V10, X, FIRST, 4, true, None))],
    ),
    Sends(
        REPLICA1,
        Hear(CLIENT2, Said::Get(E20, X)),
        &[(CLIENT2, Said::Note(V20, X, FIRST, 4, true, None))],
    ),
    Sends(
        REPLICA1,
        Hear(CLIENT2, Said::Get(E20, Y)),
        &[(CLIENT2, Said::Note(V20, Y, FIRST, 0, true, None))],
    ),
    // of the Puts of a version the greatest execution with the longest list is kept
    Sends(
        REPLICA1,
        Hear(CLIENT1, Said::Puts(E10, &[WRITES_7])),
        &[(CLIENT2, Said::Note(V20, X, WID10, 7, false, None))],
    ),
    Sends(REPLICA1, Hear(CLIENT1, Said::Puts(E10, &[])), &[]),
    Sends(
        REPLICA1,
        Hear(CLIENT1, Said::Puts(E10, &[WRITES_7, WRITES_9])),
        &[(
            CLIENT2,
            Said::Note(V20, X, WID10_SECOND, 9, false, Some(WID10)),
        )],
    ),
    Sends(
        REPLICA1,
        Hear(CLIENT1, Said::Puts(E10_1, &[WRITES_8])),
        &[(
            CLIENT2,
            Said::Note(V20, X, WID10_1, 8, false, Some(WID10_SECOND)),
        )],
    ),
    Sends(
        REPLICA1,
        Hear(CLIENT1, Said::Puts(E10, &[WRITES_7, WRITES_9, WRITES_6])),
        &[],
    ),
    // votes, once each: a content that misses a write with a vote is not for now
    Sends(
        REPLICA1,
        Hear(CLIENT1, Said::Prepare(E10_1, TURNS)),
        &[(CLIENT1, Said::Vote(E10_1, Vote::Commit))],
    ),
    Sends(REPLICA1, Hear(CLIENT1, Said::Prepare(E10_1, TURNS)), &[]),
    Sends(
        REPLICA1,
        Hear(CLIENT2, Said::Prepare(E20, LOOKS)),
        &[(CLIENT2, Said::Vote(E20, Vote::Tentative))],
    ),
    // a decision makes a write sure, and what misses it never commits
    Sends(
        REPLICA1,
        Hear(CLIENT1, Said::Decide(E10_1, Choice::Commit, Some(TURNS))),
        &[(CLIENT2, Said::Note(V20, X, WID10_1, 8, true, None))],
    ),
    Sends(
        REPLICA1,
        Hear(CLIENT2, Said::Prepare(E20_1, LOOKS)),
        &[(CLIENT2, Said::Vote(E20_1, Vote::Final))],
    ),
    Sends(
        REPLICA1,
        Hear(CLIENT2, Said::Prepare(E20_2, LOOKS_LATER)),
        &[(CLIENT2, Said::Vote(E20_2, Vote::Commit))],
    ),
    // a write below a later read, which is undecided and then committed
    Sends(
        REPLICA1,
        Hear(CLIENT3, Said::Prepare(E15, WRITES)),
        &[(CLIENT3, Said::Vote(E15, Vote::Tentative))],
    ),
    Sends(
        REPLICA1,
        Hear(
            CLIENT2,
            Said::Decide(E20_2, Choice::Commit, Some(LOOKS_LATER)),
        ),
        &[],
    ),
    Sends(
        REPLICA1,
        Hear(CLIENT3, Said::Prepare(E15_1, WRITES)),
        &[(CLIENT3, Said::Vote(E15_1, Vote::Final))],
    ),
    Sends(
        REPLICA1,
        Hear(CLIENT4, Said::Prepare(E12, NOTHING)),
        &[(CLIENT4, Said::Vote(E12, Vote::Commit))],
    ),
    // a view is promised once, and then no vote is cast and nothing lower accepted
    Sends(
        REPLICA1,
        Hear(WARDEN1, Said::Ask(E15, 1)),
        &[(
            WARDEN1,
            Said::Told(E15, 1, Some(Vote::Tentative), None, None, Some(WRITES)),
        )],
    ),
    Sends(REPLICA1, Hear(WARDEN1, Said::Ask(E15, 1)), &[]),
    Sends(
        REPLICA1,
        Hear(WARDEN2, Said::Ask(E40, 2)),
        &[(WARDEN2, Said::Told(E40, 2, None, None, None, None))],
    ),
    Sends(REPLICA1, Hear(CLIENT1, Said::Prepare(E40, NOTHING)), &[]),
    Sends(
        REPLICA1,
        Hear(WARDEN1, Said::Finalize(E40, 1, Choice::Abandon, None)),
        &[],
    ),
    Sends(
        REPLICA1,
        Hear(WARDEN1, Said::Finalize(E40, 3, Choice::Commit, None)),
        &[],
    ),
    Sends(
        REPLICA1,
        Hear(
            WARDEN2,
            Said::Finalize(E40, 2, Choice::Commit, Some(NOTHING)),
        ),
        &[(WARDEN2, Said::Accepted(E40, 2))],
    ),
    Sends(
        REPLICA1,
        Hear(WARDEN1, Said::Ask(E40, 3)),
        &[(
            WARDEN1,
            Said::Told(E40, 3, None, Some(PAIR), None, Some(NOTHING)),
        )],
    ),
    Sends(
        REPLICA1,
        Hear(CLIENT2, Said::Finalize(E20_1, 0, Choice::Abandon, None)),
        &[(CLIENT2, Said::Accepted(E20_1, 0))],
    ),
    // the first decision with its content stands
    Sends(
        REPLICA1,
        Hear(CLIENT1, Said::Decide(E40, Choice::Commit, None)),
        &[],
    ),
    Sends(
        REPLICA1,
        Hear(CLIENT1, Said::Decide(E40, Choice::Abandon, None)),
        &[],
    ),
    Sends(
        REPLICA1,
        Hear(CLIENT1, Said::Decide(E40, Choice::Commit, Some(NOTHING))),
        &[],
    ),
    Sends(
        REPLICA1,
        Hear(WARDEN2, Said::Ask(E40, 4)),
        &[(
            WARDEN2,
            Said::Told(
                E40,
                4,
                None,
                Some(PAIR),
                Some(Choice::Abandon),
                Some(NOTHING),
            ),
        )],
    ),
    // a fence never falls: at or below it no vote is Commit
    Sends(
        REPLICA1,
        Hear(WARDEN1, Said::Fence(CUT18)),
        &[(
            WARDEN1,
            Said::Fenced(CUT18, &[], &[(E10_1, TURNS)], &[(E12, NOTHING)]),
        )],
    ),
    Sends(
        REPLICA1,
        Hear(WARDEN2, Said::Fence(CUT16)),
        &[(
            WARDEN2,
            Said::Fenced(CUT16, &[], &[(E10_1, TURNS)], &[(E12, NOTHING)]),
        )],
    ),
    Sends(
        REPLICA1,
        Hear(CLIENT2, Said::Prepare(E17, NOTHING)),
        &[(CLIENT2, Said::Vote(E17, Vote::Tentative))],
    ),
    Sends(
        REPLICA1,
        Hear(CLIENT1, Said::Prepare(E40_1, NOTHING)),
        &[(CLIENT1, Said::Vote(E40_1, Vote::Commit))],
    ),
    // no rule speaks of what replicas say
    Sends(
        REPLICA1,
        Hear(REPLICA2, Said::Note(V20, X, WID10, 7, false, None)),
        &[],
    ),
    Sends(REPLICA1, Hear(REPLICA2, Said::Vote(E20, Vote::Commit)), &[]),
    Sends(REPLICA1, Hear(REPLICA2, Said::Accepted(E20, 9)), &[]),
    Sends(
        REPLICA1,
        Hear(REPLICA2, Said::Told(E20, 9, None, None, None, None)),
        &[],
    ),
    Sends(
        REPLICA1,
        Hear(REPLICA2, Said::Fenced(CUT30, &[], &[], &[])),
        &[],
    ),
    Sends(REPLICA1, Hear(REPLICA2, Said::TooOld(V20, CUT30)), &[]),
    Sends(
        REPLICA1,
        Hear(CLIENT2, Said::Get(E20, X)),
        &[(CLIENT2, Said::Note(V20, X, WID10_1, 8, true, None))],
    ),
];
