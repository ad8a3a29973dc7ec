//! Runs of scripts.

use crate::fixture::{BLIND, Handed, REPORT};
use crate::rows::Taken::{All, Part};
use crate::rows::{RUN, Row, UNRUN};
use morty_base::NodeId;
use msg::{Event, Pick};

const CLIENT: NodeId = NodeId::Client(1);

const REPLICA: NodeId = NodeId::Replica(1);

/// The events of the run of one transaction over one replica.
pub const EVENTS: [Event; 14] = [
    Event::Picked(CLIENT, Pick::Go),
    Event::Picked(REPLICA, Pick::Idle),
    Event::Ran(1),
    Event::Picked(REPLICA, Pick::Deliver(0)),
    Event::Picked(CLIENT, Pick::Deliver(1)),
    Event::Picked(REPLICA, Pick::Idle),
    Event::Ran(1),
    Event::Picked(REPLICA, Pick::Deliver(2)),
    Event::Picked(CLIENT, Pick::Idle),
    Event::Picked(REPLICA, Pick::Deliver(3)),
    Event::Picked(CLIENT, Pick::Deliver(4)),
    Event::Picked(REPLICA, Pick::Deliver(5)),
    Event::Picked(CLIENT, Pick::Idle),
    Event::Picked(REPLICA, Pick::Idle),
];

/// Runs of one script, by its words, its links and its events.
pub static OF_ONE_SCRIPT: [Row; 8] = [
    Row {
        shows: "one transaction runs in nine events",
        taken: All(REPORT),
        events: Some(&EVENTS),
        links: Some(2),
        ..RUN
    },
    Row {
        shows: "and so in this thread alone",
        here: true,
        taken: All(REPORT),
        events: Some(&EVENTS),
        links: Some(2),
        ..RUN
    },
    Row {
        shows: "one worker may be named",
        words: &[b"run", b"--workers", b"1"],
        taken: All(REPORT),
        ..RUN
    },
    Row {
        shows: "one worker may be named in one word",
        words: &[b"run", b"--workers=1"],
        taken: All(REPORT),
        ..RUN
    },
    Row {
        shows: "a link that picks what is not there keeps its client still, and the run ends quiet",
        handed: Handed::Still,
        taken: All(
            b"none 1.1 unbegun\n\
            value x[1] 4\n\
            ended quiet events 0\n",
        ),
        events: Some(&[
            Event::Picked(CLIENT, Pick::Deliver(999)),
            Event::Picked(REPLICA, Pick::Idle),
        ]),
        links: Some(2),
        ..RUN
    },
    Row {
        shows: "no links at all",
        handed: Handed::Slots(0),
        status: 6,
        taken: All(b"morty: no link fair 0\n"),
        links: Some(0),
        ..UNRUN
    },
    Row {
        shows: "no link for the second slot",
        handed: Handed::Slots(1),
        status: 6,
        taken: All(b"morty: no link fair 1\n"),
        links: Some(0),
        ..UNRUN
    },
    Row {
        shows: "transfers keep the sum of the accounts, whatever is late, repeated or stopped",
        words: &[b"big", b"7", b"16"],
        text: b"",
        outside: BLIND,
        taken: Part(b"\nsum 5000\nended quiet events "),
        links: Some(12),
        ..RUN
    },
];

/// Scripts that are run.
pub static OF_SCRIPTS: [Row; 20] = [
    Row {
        shows: "two more replicas make a fast commit of three votes",
        text: b"morty 1 replicas 3 table x first x[1] 4 \
            program inc { read a x[1]; write x[1] a + 1; print a } \
            client 1 { inc at 10 } end",
        taken: All(
            b"commit 10.1 txn 1.1 try 1 exec 0 end done\n\
            read x[1] 4\n\
            out 4\n\
            value x[1] 5\n\
            ended quiet events 21\n",
        ),
        ..RUN
    },
    Row {
        shows: "a client with nothing to do",
        text: b"morty 1 client 1 { } end",
        taken: All(b"ended quiet events 0\n"),
        ..RUN
    },
    Row {
        shows: "a missed write is followed once the execution that missed it is abandoned",
        text: b"morty 1 replicas 1 table x first x[1] 4 \
            program inc { read a x[1]; write x[1] a + 1; print a } \
            client 1 { inc at 10 } client 2 { inc at 20 } end",
        taken: All(
            b"commit 10.1 txn 1.1 try 1 exec 0 end done\n\
            read x[1] 4\n\
            out 4\n\
            commit 20.2 txn 2.1 try 1 exec 1 end done\n\
            read x[1] 5\n\
            out 5\n\
            value x[1] 6\n\
            ended quiet events 27\n",
        ),
        ..RUN
    },
    Row {
        shows: "a read of the same value is only relabelled",
        text: b"morty 1 replicas 1 table x table y first x[1] 4 \
            program same { read a x[1]; write x[1] a; print a } \
            program two { read a x[1]; read b y[1]; write x[1] a + b; print a } \
            client 1 { same at 10 } client 2 { two at 20 } end",
        taken: All(
            b"commit 10.1 txn 1.1 try 1 exec 0 end done\n\
            read x[1] 4\n\
            out 4\n\
            commit 20.2 txn 2.1 try 1 exec 0 end done\n\
            read x[1] 4\n\
            read y[1] 0\n\
            out 4\n\
            value x[1] 4\n\
            ended quiet events 23\n",
        ),
        ..RUN
    },
    Row {
        shows: "a listed net: a write that was seen vanishes with the branch that made it",
        text: b"morty 1 replicas 1 table g table x table y \
            program set { write g[1] 1 } \
            program branch { read a g[1]; if a == 0 { write x[1] 7 } else { write x[2] 9 }; \
            read b y[1]; read b y[2]; print a } \
            program look { read c x[1]; print c } \
            client 1 { set at 10 } client 2 { branch at 20 } client 3 { look at 30 } \
            net listed list client 1 { wait 3 } list client 3 { wait 3 } end",
        taken: All(
            b"commit 10.1 txn 1.1 try 1 exec 0 end done\n\
            commit 20.2 txn 2.1 try 1 exec 1 end done\n\
            read g[1] 1\n\
            read y[1] 0\n\
            read y[2] 0\n\
            out 1\n\
            commit 30.3 txn 3.1 try 1 exec 1 end done\n\
            read x[1] 0\n\
            out 0\n\
            value g[1] 1\n\
            value x[2] 9\n\
            ended quiet events 41\n",
        ),
        ..RUN
    },
    Row {
        shows: "only the last of two writes counts",
        text: b"morty 1 replicas 1 table x table y table z \
            program twice { write x[1] 7; read b y[1]; write x[1] 8 } \
            program after { read a x[1]; read c z[1]; print a } \
            client 1 { twice at 10 } client 2 { after at 20 } end",
        taken: All(
            b"commit 10.1 txn 1.1 try 1 exec 0 end done\n\
            read y[1] 0\n\
            commit 20.2 txn 2.1 try 1 exec 1 end done\n\
            read x[1] 8\n\
            read z[1] 0\n\
            out 8\n\
            value x[1] 8\n\
            ended quiet events 27\n",
        ),
        ..RUN
    },
    Row {
        shows: "a loop that reads five cells goes back to the third, and asks for the fourth again",
        text: b"morty 1 replicas 1 table x first x[1] 1 first x[2] 2 first x[3] 3 \
            first x[4] 4 first x[5] 5 \
            program put { write x[3] 30 } \
            program five { let s = 0; let i = 1; repeat 5 { read a x[i]; let s = s + a; \
            let i = i + 1 }; print s } client 1 { put at 10 } client 2 { five at 20 } \
            net listed list client 1 { wait 6 } end",
        taken: All(
            b"commit 10.1 txn 1.1 try 1 exec 0 end done\n\
            commit 20.2 txn 2.1 try 1 exec 1 end done\n\
            read x[1] 1\n\
            read x[2] 2\n\
            read x[3] 30\n\
            read x[4] 4\n\
            read x[5] 5\n\
            out 42\n\
            value x[1] 1\n\
            value x[2] 2\n\
            value x[3] 30\n\
            value x[4] 4\n\
            value x[5] 5\n\
            ended quiet events 32\n",
        ),
        ..RUN
    },
    Row {
        shows: "an overflow on a value that was overwritten is abandoned",
        text: b"morty 1 replicas 1 table x first x[1] 1000 \
            program put { write x[1] 1 } \
            program big { read a x[1]; print a + 9223372036854775800 } \
            client 1 { put at 10 } client 2 { big at 20 } net listed list client 1 { wait 2 } \
            end",
        taken: All(
            b"commit 10.1 txn 1.1 try 1 exec 0 end done\n\
            commit 20.2 txn 2.1 try 1 exec 1 end done\n\
            read x[1] 1\n\
            out 9223372036854775801\n\
            value x[1] 1\n\
            ended quiet events 23\n",
        ),
        ..RUN
    },
    Row {
        shows: "a payment that gives up is committed without its writes",
        text: b"morty 1 replicas 1 table x first x[1] 4 \
            program pay { read a x[1]; if a < 10 { write x[2] 1; abort }; write x[1] a - 10; \
            print a } client 1 { pay at 10 } end",
        taken: All(
            b"commit 10.1 txn 1.1 try 1 exec 0 end abort\n\
            read x[1] 4\n\
            value x[1] 4\n\
            ended quiet events 8\n",
        ),
        ..RUN
    },
    Row {
        shows: "a slow path: two votes to commit and one against, in the order of a list",
        text: b"morty 1 replicas 3 tries 1 table x \
            program put { write x[1] 1 } \
            program look { read c x[1]; print c } \
            client 1 { put at 10 } client 2 { look at 20 } \
            net listed list client 1 { wait 2 } list replica 1 { next 3; \
            deliver 12 } list replica 2 { next 3; deliver 13 } end",
        taken: All(
            b"commit 20.2 txn 2.1 try 1 exec 0 end done\n\
            read x[1] 0\n\
            out 0\n\
            none 1.1 aborted\n\
            ended quiet events 50\n",
        ),
        ..RUN
    },
    Row {
        shows: "a final vote makes a second try at a later version",
        text: b"morty 1 replicas 1 gap 20 table x \
            program put { write x[1] 1 } \
            program look { read c x[1]; print c } \
            client 1 { put at 10 } client 2 { look at 20 } net listed list client 1 { wait 5 } \
            end",
        taken: All(
            b"commit 20.2 txn 2.1 try 1 exec 0 end done\n\
            read x[1] 0\n\
            out 0\n\
            commit 30.1 txn 1.1 try 2 exec 0 end done\n\
            value x[1] 1\n\
            ended quiet events 22\n",
        ),
        ..RUN
    },
    Row {
        shows: "a warden recovers the commit of a client that is stopped",
        text: b"morty 1 replicas 3 wardens 1 table x first x[1] 4 \
            program inc { read a x[1]; write x[1] a + 1; print a } \
            client 1 { inc at 10 } at 14 client 1 stop end",
        taken: All(
            b"commit 10.1 txn 1.1 try 1 exec 0 end done\n\
            read x[1] 4\n\
            out 4\n\
            value x[1] 5\n\
            ended quiet events 31\n",
        ),
        ..RUN
    },
    Row {
        shows: "the write of a client that is stopped half way is dropped",
        text: b"morty 1 replicas 1 wardens 1 table x table y \
            program half { write x[1] 7; read b y[1]; print b } \
            program look { read c x[1]; print c } \
            client 1 { half at 10 } client 2 { look at 20 } at 5 client 1 stop end",
        taken: All(
            b"commit 20.2 txn 2.1 try 1 exec 1 end done\n\
            read x[1] 0\n\
            out 0\n\
            none 1.1 open\n\
            ended quiet events 22\n",
        ),
        ..RUN
    },
    Row {
        shows: "a node that made its turns ends the run",
        text: b"morty 1 replicas 1 turns 1 table x first x[1] 4 \
            program inc { read a x[1]; write x[1] a + 1; print a } \
            client 1 { inc at 10 } end",
        status: 1,
        taken: All(
            b"none 1.1 open\n\
            value x[1] 4\n\
            ended spent events 3\n",
        ),
        ..RUN
    },
    Row {
        shows: "as many turns as the run's budget",
        text: b"morty 1 replicas 1 turns 8 table x first x[1] 4 \
            program inc { read a x[1]; write x[1] a + 1; print a } \
            client 1 { inc at 10 } end",
        taken: All(
            b"commit 10.1 txn 1.1 try 1 exec 0 end done\n\
            read x[1] 4\n\
            out 4\n\
            value x[1] 5\n\
            ended quiet events 9\n",
        ),
        ..RUN
    },
    Row {
        shows: "a warden truncates: its request, the answer and the Drop are three more events behind its pick",
        text: b"morty 1 replicas 1 wardens 1 table x first x[1] 4 \
            program inc { read a x[1]; write x[1] a + 1; print a } \
            client 1 { inc at 10 } at 9 warden 1 truncate 20.0 end",
        taken: All(
            b"commit 10.1 txn 1.1 try 1 exec 0 end done\n\
            read x[1] 4\n\
            out 4\n\
            value x[1] 5\n\
            ended quiet events 13\n",
        ),
        ..RUN
    },
    Row {
        shows: "the same version is not truncated twice",
        text: b"morty 1 replicas 1 wardens 1 table x first x[1] 4 \
            program inc { read a x[1]; write x[1] a + 1; print a } \
            client 1 { inc at 10 } at 9 warden 1 truncate 20.0 at 13 warden 1 truncate 20.0 end",
        taken: All(
            b"commit 10.1 txn 1.1 try 1 exec 0 end done\n\
            read x[1] 4\n\
            out 4\n\
            value x[1] 5\n\
            ended quiet events 13\n",
        ),
        ..RUN
    },
    Row {
        shows: "two votes to commit wait for the third replica's",
        text: b"morty 1 replicas 3 table x first x[1] 4 \
            program inc { read a x[1]; write x[1] a + 1; print a } \
            client 1 { inc at 10 } net listed list replica 3 { wait 20000 } end",
        taken: All(
            b"none 1.1 open\n\
            value x[1] 4\n\
            ended quiet events 13\n",
        ),
        ..RUN
    },
    Row {
        shows: "a client in a hurry asks for acceptances instead",
        text: b"morty 1 replicas 3 table x first x[1] 4 \
            program inc { read a x[1]; write x[1] a + 1; print a } \
            client 1 { inc at 10 } \
            net listed list replica 3 { wait 20000 } list client 1 { next 5; hurry } end",
        taken: All(
            b"commit 10.1 txn 1.1 try 1 exec 0 end done\n\
            read x[1] 4\n\
            out 4\n\
            value x[1] 5\n\
            ended quiet events 20\n",
        ),
        ..RUN
    },
    Row {
        shows: "a seeded net that neither delays nor repeats",
        text: b"morty 1 replicas 1 table x first x[1] 4 \
            program inc { read a x[1]; write x[1] a + 1; print a } \
            client 1 { inc at 10 } net seeded 7 late 0 repeat 0 hurry 0 end",
        taken: All(
            b"commit 10.1 txn 1.1 try 1 exec 0 end done\n\
            read x[1] 4\n\
            out 4\n\
            value x[1] 5\n\
            ended quiet events 9\n",
        ),
        ..RUN
    },
];

/// Forms of a script, and the ends of its ranges.
pub static OF_FORMS: [Row; 6] = [
    Row {
        shows: "an overflow ends a program",
        text: b"morty 1 replicas 1 table x first x[1] 4 \
            program inc { read a x[1]; write x[1] a + 9223372036854775807; print a } \
            client 1 { inc at 10 } end",
        taken: All(
            b"commit 10.1 txn 1.1 try 1 exec 0 end overflow\n\
            read x[1] 4\n\
            value x[1] 4\n\
            ended quiet events 8\n",
        ),
        ..RUN
    },
    Row {
        shows: "a start of 0 is version 1",
        text: b"morty 1 replicas 1 table x first x[1] 4 \
            program inc { read a x[1]; write x[1] a + 1; print a } \
            client 1 { inc at 0 } end",
        taken: All(
            b"commit 1.1 txn 1.1 try 1 exec 0 end done\n\
            read x[1] 4\n\
            out 4\n\
            value x[1] 5\n\
            ended quiet events 9\n",
        ),
        ..RUN
    },
    Row {
        shows: "blanks, line ends and comments",
        text: b"#a\nmorty\t1 replicas\r\n1 table x#;[\n first x [ 1 ] 4 \
            program inc{read a x[1];write x[1]a+1;print a}client 1{inc at 10}end\n\n# \
            end\n",
        taken: All(REPORT),
        ..RUN
    },
    Row {
        shows: "leading zeros",
        text: b"morty 01 replicas 1 table x first x[001] 4 \
            program inc { read a x[1]; write x[01] a + 01; print a } \
            client 1 { inc at 0010 } end",
        taken: All(REPORT),
        ..RUN
    },
    Row {
        shows: "the greatest index and the latest start",
        text: b"morty 1 replicas 1 table x first x[9223372036854775807] 4 \
            program inc { read a x[9223372036854775807]; write x[9223372036854775807] a + 1; \
            print a } client 1 { inc at 1000000000000 } end",
        taken: All(
            b"commit 1000000000000.1 txn 1.1 try 1 exec 0 end done\n\
            read x[9223372036854775807] 4\n\
            out 4\n\
            value x[9223372036854775807] 5\n\
            ended quiet events 9\n",
        ),
        ..RUN
    },
    Row {
        shows: "a name of 32 bytes",
        text: b"morty 1 replicas 1 table abcdefghijklmnopqrstuvwxyz_01234 first \
            abcdefghijklmnopqrstuvwxyz_01234[1] 4 \
            program inc { read a abcdefghijklmnopqrstuvwxyz_01234[1]; \
            write abcdefghijklmnopqrstuvwxyz_01234[1] a + 1; print a } client 1 { inc at 10 } \
            end",
        taken: All(
            b"commit 10.1 txn 1.1 try 1 exec 0 end done\n\
            read abcdefghijklmnopqrstuvwxyz_01234[1] 4\n\
            out 4\n\
            value abcdefghijklmnopqrstuvwxyz_01234[1] 5\n\
            ended quiet events 9\n",
        ),
        ..RUN
    },
];
