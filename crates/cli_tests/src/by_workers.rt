//! Runs by several workers.

use crate::fixture::{EACH_SLOT, SOUND, TWO, call_by, listed};
use crate::refusals::BAD_WORDS;
use crate::rows::Taken::All;
use crate::rows::{RUN, Row};
use crate::serials::is_serial;
use msg::Event;
use node_future::Gate;
use std::hint::spin_loop;
use std::sync::atomic::{AtomicBool, AtomicU32, Ordering};
use std::test::Fail;

/// A run over three replicas, whose report is the same in any order of turns.
const OF_THREE_REPLICAS: Row = Row {
    text: b"morty 1 replicas 3 table x first x[1] 4 \
        program inc { read a x[1]; write x[1] a + 1; print a } \
        client 1 { inc at 10 } end",
    taken: All(
        b"commit 10.1 txn 1.1 try 1 exec 0 end done\n\
        read x[1] 4\n\
        out 4\n\
        value x[1] 5\n\
        ended quiet events 21\n",
    ),
    links: Some(4),
    ..RUN
};

pub static OF_WORKERS: [Row; 7] = [
    Row {
        shows: "two workers",
        words: &[b"run", b"--workers", b"2"],
        ..OF_THREE_REPLICAS
    },
    Row {
        shows: "two workers in one word",
        words: &[b"run", b"--workers=2"],
        ..OF_THREE_REPLICAS
    },
    Row {
        shows: "as many workers as there may be, more than nodes",
        words: &[b"run", b"--workers", b"8"],
        ..OF_THREE_REPLICAS
    },
    Row {
        shows: "more workers than there may be",
        words: &[b"run", b"--workers", b"9"],
        ..BAD_WORDS
    },
    Row {
        shows: "no worker",
        words: &[b"run", b"--workers", b"0"],
        ..BAD_WORDS
    },
    Row {
        shows: "a leading zero of the workers",
        words: &[b"run", b"--workers=02"],
        ..BAD_WORDS
    },
    Row {
        shows: "a word behind the workers",
        words: &[b"run", b"--workers", b"1", b"2"],
        ..BAD_WORDS
    },
];

/// How often a segment that is held looks whether another one has begun.
const LOOKS: u32 = 100_000_000;

/// How many segments of a client began, and how many ended.
#[derive(Drop)]
struct Counts {
    before: AtomicU32,
    after: AtomicU32,
}

impl Counts {
    fn new() -> Counts {
        Counts {
            before: AtomicU32::new(0),
            after: AtomicU32::new(0),
        }
    }
}

/// Holds the first segment until another one has begun, and counts those of the clients 1 and 2, and of others.
#[derive(Drop)]
struct Holding {
    begun: AtomicU32,
    met: AtomicBool,
    first: Counts,
    second: Counts,
    others: Counts,
}

impl Holding {
    fn new() -> Holding {
        Holding {
            begun: AtomicU32::new(0),
            met: AtomicBool::new(false),
            first: Counts::new(),
            second: Counts::new(),
            others: Counts::new(),
        }
    }

    fn counts(&self, client: u32) -> &Counts {
        match client {
            1 => &self.first,
            2 => &self.second,
            _ => &self.others,
        }
    }
}

impl Gate for Holding {
    fn before(&self, client: u32) {
        self.counts(client).before.fetch_add(1, Ordering::SeqCst);
        if self.begun.fetch_add(1, Ordering::SeqCst) > 0 {
            return;
        }
        for _ in 0..LOOKS {
            if self.begun.load(Ordering::SeqCst) > 1 {
                self.met.store(true, Ordering::SeqCst);
                return;
            }
            spin_loop();
        }
    }

    fn after(&self, client: u32) {
        self.counts(client).after.fetch_add(1, Ordering::SeqCst);
    }
}

/// How many segments of a client were used.
fn used(journal: &[Event], client: u32) -> usize {
    journal
        .iter()
        .filter(|event| **event == Event::Ran(client))
        .count()
}

#[test]
fn two_segments_run_at_once(rt: HostRuntime) -> Result<(), Fail> {
    let alloc = rt.alloc();
    let gate = Holding::new();
    let words = listed(
        alloc,
        &[b"run".as_slice(), b"--workers".as_slice(), b"2".as_slice()],
    )?;
    let answer = call_by(
        &rt,
        alloc,
        words.as_slice(),
        TWO,
        &SOUND,
        &EACH_SLOT,
        false,
        &gate,
    )?;
    assert!(rt; gate.met.load(Ordering::SeqCst));
    assert!(rt; answer.status <= 1);
    let report = answer.taken.as_slice();
    assert!(rt; is_serial(&rt, alloc, TWO, report)?);
    for client in 0..4 {
        let counts = gate.counts(client);
        let before = counts.before.load(Ordering::SeqCst);
        assert_eq!(rt; before, counts.after.load(Ordering::SeqCst));
        assert!(rt; used(answer.journal.as_slice(), client) <= before as usize);
    }
    for client in 1..3 {
        assert!(rt; used(answer.journal.as_slice(), client) > 0);
    }
    Ok(())
}
