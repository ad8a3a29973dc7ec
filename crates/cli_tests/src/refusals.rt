//! Words that are no command, texts that are no script, and an outside that fails.

use crate::fixture::{BAD_COMMAND, BLIND, Outside, SOUND};
use crate::rows::Taken::All;
use crate::rows::{CHECK, REFUSED, RUN, Row, UNRUN};

/// Words that are no command for the script.
pub const BAD_WORDS: Row = Row {
    status: 2,
    taken: All(BAD_COMMAND),
    ..UNRUN
};

pub static OF_WORDS: [Row; 12] = [
    Row {
        shows: "no such command",
        words: &[b"fly"],
        ..BAD_WORDS
    },
    Row {
        shows: "more workers than there may be",
        words: &[b"run", b"--workers", b"9"],
        ..BAD_WORDS
    },
    Row {
        shows: "no words",
        words: &[],
        ..BAD_WORDS
    },
    Row {
        shows: "a size of none",
        words: &[b"gen", b"7", b"0"],
        text: b"",
        outside: BLIND,
        ..BAD_WORDS
    },
    Row {
        shows: "a size past the most",
        words: &[b"gen", b"7", b"513"],
        text: b"",
        outside: BLIND,
        ..BAD_WORDS
    },
    Row {
        shows: "a seed past the greatest",
        words: &[b"gen", b"9223372036854775808", b"1"],
        text: b"",
        outside: BLIND,
        ..BAD_WORDS
    },
    Row {
        shows: "a seed with a sign",
        words: &[b"gen", b"-7", b"1"],
        text: b"",
        outside: BLIND,
        ..BAD_WORDS
    },
    Row {
        shows: "a seed without digits",
        words: &[b"gen", b"", b"1"],
        text: b"",
        outside: BLIND,
        ..BAD_WORDS
    },
    Row {
        shows: "a seed without a size",
        words: &[b"gen", b"7"],
        text: b"",
        outside: BLIND,
        ..BAD_WORDS
    },
    Row {
        shows: "a word behind the size",
        words: &[b"gen", b"7", b"1", b"1"],
        text: b"",
        outside: BLIND,
        ..BAD_WORDS
    },
    Row {
        shows: "a word behind a check",
        words: &[b"check", b"check"],
        text: b"",
        outside: BLIND,
        ..BAD_WORDS
    },
    Row {
        shows: "a command in capitals",
        words: &[b"Check"],
        text: b"",
        outside: BLIND,
        ..BAD_WORDS
    },
];

pub static OF_TRANSACTIONS: [Row; 10] = [
    Row {
        shows: "a transaction that the script does not have",
        words: &[b"serial", b"10.1:2"],
        ..BAD_WORDS
    },
    Row {
        shows: "a client that the script does not have",
        words: &[b"serial", b"10.2:1"],
        ..BAD_WORDS
    },
    Row {
        shows: "no transaction",
        words: &[b"serial", b"10.1"],
        ..BAD_WORDS
    },
    Row {
        shows: "no client of the version",
        words: &[b"serial", b"10:1"],
        ..BAD_WORDS
    },
    Row {
        shows: "no digits of the client",
        words: &[b"serial", b"10.:1"],
        ..BAD_WORDS
    },
    Row {
        shows: "a version of none",
        words: &[b"serial", b"0.1:1"],
        ..BAD_WORDS
    },
    Row {
        shows: "a version past the greatest",
        words: &[b"serial", b"9223372036854775808.1:1"],
        ..BAD_WORDS
    },
    Row {
        shows: "a transaction past the greatest",
        words: &[b"serial", b"10.1:4294967296"],
        ..BAD_WORDS
    },
    Row {
        shows: "a version said twice",
        words: &[b"serial", b"10.1:1", b"10.1:1"],
        ..BAD_WORDS
    },
    Row {
        shows: "a number too many",
        words: &[b"serial", b"10.1:1:1"],
        ..BAD_WORDS
    },
];

pub static OF_TEXTS: [Row; 7] = [
    Row {
        shows: "no text at all",
        text: b"",
        taken: All(b"morty: script line 1: end of text\n"),
        ..REFUSED
    },
    Row {
        shows: "a number past the greatest",
        text: b"morty 1 replicas 1 table x first x[1] 4 \
            program inc { read a x[1]; write x[1] a + 9223372036854775808; print a } \
            client 1 { inc at 10 } end",
        taken: All(b"morty: script line 1: number\n"),
        ..REFUSED
    },
    Row {
        shows: "a start past the latest",
        text: b"morty 1 replicas 1 table x first x[1] 4 \
            program inc { read a x[1]; write x[1] a + 1; print a } \
            client 1 { inc at 1000000000001 } end",
        taken: All(b"morty: script line 1: at range\n"),
        ..REFUSED
    },
    Row {
        shows: "a name of 33 bytes",
        text: b"morty 1 replicas 1 table abcdefghijklmnopqrstuvwxyz_012345 first \
            abcdefghijklmnopqrstuvwxyz_012345[1] 4 \
            program inc { read a abcdefghijklmnopqrstuvwxyz_012345[1]; \
            write abcdefghijklmnopqrstuvwxyz_012345[1] a + 1; print a } client 1 { inc at 10 } \
            end",
        taken: All(b"morty: script line 1: long name\n"),
        ..REFUSED
    },
    Row {
        shows: "a reserved word as a name",
        text: b"morty 1 replicas 1 table go first go[1] 4 \
            program inc { read a go[1]; write go[1] a + 1; print a } \
            client 1 { inc at 10 } end",
        taken: All(b"morty: script line 1: syntax\n"),
        ..REFUSED
    },
    Row {
        shows: "a name that no one gave a value",
        text: b"morty 1 replicas 1 table x first x[1] 4 \
            program inc { read a x[1]; write x[1] a + 1; print b } \
            client 1 { inc at 10 } end",
        taken: All(b"morty: script line 1: unknown local\n"),
        ..REFUSED
    },
    Row {
        shows: "more text behind the end",
        text: b"morty 1 replicas 1 table x first x[1] 4 \
            program inc { read a x[1]; write x[1] a + 1; print a } \
            client 1 { inc at 10 } end end",
        taken: All(b"morty: script line 1: syntax\n"),
        ..REFUSED
    },
];

/// A sink whose writes take ten bytes, and of which the second fails.
const SECOND_WRITE: Outside = Outside {
    most: 10,
    writes: &[2],
    ..SOUND
};

/// One of which the third fails.
const THIRD_WRITE: Outside = Outside {
    writes: &[3],
    ..SECOND_WRITE
};

/// One that takes nothing.
const FIRST_WRITE: Outside = Outside {
    writes: &[1],
    ..SOUND
};

pub static OF_THE_OUTSIDE: [Row; 9] = [
    Row {
        shows: "a run whose script is not read",
        outside: BLIND,
        status: 4,
        taken: All(b"morty: read failed\n"),
        ..UNRUN
    },
    Row {
        shows: "a report of which nothing is taken",
        outside: FIRST_WRITE,
        status: 5,
        taken: All(b""),
        ..RUN
    },
    Row {
        shows: "a report that is cut",
        outside: THIRD_WRITE,
        status: 5,
        taken: All(b"commit 10.1 txn 1.1 "),
        ..RUN
    },
    Row {
        shows: "a line of bad words that is cut",
        words: &[b"fly"],
        outside: SECOND_WRITE,
        status: 5,
        taken: All(b"morty: bad"),
        ..UNRUN
    },
    Row {
        shows: "a check whose script is not read",
        outside: BLIND,
        status: 4,
        taken: All(b"morty: read failed\n"),
        ..CHECK
    },
    Row {
        shows: "a printed script of which nothing is taken",
        outside: FIRST_WRITE,
        status: 5,
        taken: All(b""),
        ..CHECK
    },
    Row {
        shows: "a printed script that is cut",
        outside: THIRD_WRITE,
        status: 5,
        taken: All(b"morty 1\nreplicas 1\nw"),
        ..CHECK
    },
    Row {
        shows: "a fault's line that is cut",
        text: b"",
        outside: SECOND_WRITE,
        status: 5,
        taken: All(b"morty: scr"),
        ..CHECK
    },
    Row {
        shows: "a generated script that is cut",
        words: &[b"gen", b"7", b"1"],
        text: b"",
        outside: THIRD_WRITE,
        status: 5,
        taken: All(b"morty 1\nreplicas 3\nw"),
        ..UNRUN
    },
];
