//! Scripts that are checked, and traces, in which a checked script stands.

use crate::fixture::PRINTED;
use crate::rows::Taken::{All, Front};
use crate::rows::{CHECK, RUN, Row};
use crate::runs::EVENTS;

/// A script of a client with nothing to do, over three replicas.
const IDLE: &[u8] = b"morty 1 client 1 { } end";

pub static CHECKS: [Row; 11] = [
    Row {
        shows: "a script is printed",
        taken: All(PRINTED),
        ..CHECK
    },
    Row {
        shows: "a script is printed with all that it leaves out",
        text: IDLE,
        taken: All(
            b"morty 1\n\
            replicas 3\n\
            wardens 0\n\
            tries 3\n\
            execs 16\n\
            gap 1\n\
            turns 5000\n\
            policy rewind\n\
            client 1 { }\n\
            net fair\n\
            end\n",
        ),
        ..CHECK
    },
    Row {
        shows: "an untidy script is printed",
        text: b"morty 1 replicas 1 table x first x[1] 4 \
            program inc{read a x[1];write x[1] (a)+1;print a;} client 1{inc at 10} \
            end",
        taken: All(PRINTED),
        ..CHECK
    },
    Row {
        shows: "no text at all",
        text: b"",
        status: 3,
        taken: All(b"morty: script line 1: end of text\n"),
        ..CHECK
    },
    Row {
        shows: "a read that no name takes",
        text: b"morty 1\nprogram p { read x[1] }\n client 1 { p } end",
        status: 3,
        taken: All(b"morty: script line 2: syntax\n"),
        ..CHECK
    },
    Row {
        shows: "a table that is not there",
        text: b"morty 1 table x\nprogram p { read a y[1] }\n client 1 { p } end",
        status: 3,
        taken: All(b"morty: script line 2: unknown table\n"),
        ..CHECK
    },
    Row {
        shows: "a local that is not there",
        text: b"morty 1 table x\n\nprogram p { print a }\n client 1 { p } end",
        status: 3,
        taken: All(b"morty: script line 3: unknown local\n"),
        ..CHECK
    },
    Row {
        shows: "a number past the greatest",
        text: b"morty 1 program p { print 9223372036854775808 }\n client 1 { p } end",
        status: 3,
        taken: All(b"morty: script line 1: number\n"),
        ..CHECK
    },
    Row {
        shows: "a program that is too long when its loop is written out",
        text: b"morty 1 program p { repeat 4096 { print 1 } }\n client 1 { p } end",
        status: 3,
        taken: All(b"morty: script line 1: program limit\n"),
        ..CHECK
    },
    Row {
        shows: "a version that is not known",
        text: b"morty 3 program p { print 1 }\n client 1 { p } end",
        status: 3,
        taken: All(b"morty: script line 1: version\n"),
        ..CHECK
    },
    Row {
        shows: "the line behind the last",
        text: b"morty 1 client 1 { }\n\n\n",
        status: 3,
        taken: All(b"morty: script line 4: end of text\n"),
        ..CHECK
    },
];

/// The bytes that no text has are those of numbers. An event is its code, its node and what was picked: 0 an idle pick, 1 a
/// delivery, 2 a Go, 7 a segment; 1 and the number of a client, 2 and that of a replica.
pub static TRACES: [Row; 2] = [
    // The script behind its length; an idle pick of each node behind their number; no frames; and a quiet end.
    Row {
        shows: "an idle run is traced",
        words: &[b"trace"],
        text: IDLE,
        taken: All(
            b"MTY1\
            \x00\x00\x00\x67\
            morty 1\n\
            replicas 3\n\
            wardens 0\n\
            tries 3\n\
            execs 16\n\
            gap 1\n\
            turns 5000\n\
            policy rewind\n\
            client 1 { }\n\
            net fair\n\
            end\n\
            \x00\x00\x00\x04\
            \x00\x01\x01\
            \x00\x02\x01\
            \x00\x02\x02\
            \x00\x02\x03\
            \x00\x00\x00\x00\
            \x00",
        ),
        links: Some(4),
        ..RUN
    },
    // Behind the events stands the number of frames, and first of them a Get.
    Row {
        shows: "a trace has what was sent, and its run the events of the run",
        words: &[b"trace"],
        taken: Front(
            b"MTY1\
            \x00\x00\x00\xbd\
            morty 1\n\
            replicas 1\n\
            wardens 0\n\
            tries 3\n\
            execs 16\n\
            gap 1\n\
            turns 5000\n\
            policy rewind\n\
            table x\n\
            first x[1] 4\n\
            program inc { read a x[1]; write x[1] a + 1; print a }\n\
            client 1 { inc at 10 }\n\
            net fair\n\
            end\n\
            \x00\x00\x00\x0e\
            \x02\x01\x01\
            \x00\x02\x01\
            \x07\x01\x01\
            \x01\x02\x01\x00\x00\x00\x00\x00\x00\x00\x00\
            \x01\x01\x01\x00\x00\x00\x00\x00\x00\x00\x01\
            \x00\x02\x01\
            \x07\x01\x01\
            \x01\x02\x01\x00\x00\x00\x00\x00\x00\x00\x02\
            \x00\x01\x01\
            \x01\x02\x01\x00\x00\x00\x00\x00\x00\x00\x03\
            \x01\x01\x01\x00\x00\x00\x00\x00\x00\x00\x04\
            \x01\x02\x01\x00\x00\x00\x00\x00\x00\x00\x05\
            \x00\x01\x01\
            \x00\x02\x01\
            \x00\x00\x00\x06\
            \x01\x01\x01\x01\x02\x01\x00\x00\x00\x00\x00\x00\x00\x0a\x00\x00\x00\x01\x00\x00\x00\x00\x00\x00\x00\x00\x00\x00\x00\x00\x00\x01",
        ),
        events: Some(&EVENTS),
        ..RUN
    },
];
