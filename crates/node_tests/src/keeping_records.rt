//! The records of a replica by their own calls: which Puts are due a Note, and what a cut lets go of. Records are left to the
//! end of a test's process, and no proof takes them down.

use crate::bodies::content;
use crate::checks::{MEMORY, is_equal, is_so};
use crate::sample::{
    BASE17, CUT18, E10, E12, E15, V10, V20, WID10, WID12, WID17, WRITES, WRITES_7, X,
};
use miss_notice::{Envelope2, due_notes};
use morty_base::{Exec, List, Version, Wid};
use msg::{Body, Write};
use mv_index::Records;
use protocol::Held;
use read_path::on_get;
use std::alloc::Global;
use std::mem::forget;
use std::process::Abort;

/// No version is dropped.
const NONE: Version = Version { ts: 0, client: 0 };

/// Its reader is above each version that writes.
const READER: Exec = Exec {
    ver: Version {
        ts: 1_000_000,
        client: 9,
    },
    eid: 0,
};

/// In each four versions the third comes first: it is above all before it, and so is the fourth. So one Note is due
/// on these, and none on the others.
const FOUR: [(u64, usize); 4] = [(3, 1), (1, 0), (4, 1), (2, 0)];

// Whom a Note is for, and the write that it tells: unsure, with nothing gone.
fn told(note: &Envelope2) -> Option<(u32, Version, Wid)> {
    match note.body {
        Body::Note {
            ver,
            wid,
            sure: false,
            gone: None,
            ..
        } => Some((note.client, ver, wid)),
        _ => None,
    }
}

// A version writes 1 to x[1], and so many Notes are due: each tells the reader of that.
fn notes(rt: &impl Abort, alloc: Global, records: &mut Records, ver: Version, count: usize) {
    let write = Write { key: X, value: 1 };
    let exec = Exec { ver, eid: 0 };
    records.put(alloc, exec, &[write]).expect(rt, MEMORY);
    let notes = due_notes(alloc, records).expect(rt, MEMORY);
    is_equal(rt, &notes.len(), &count, "the number of Notes");
    for note in notes.as_slice() {
        is_equal(
            rt,
            &told(note),
            &Some((9, READER.ver, first_wid(ver))),
            "a Note",
        );
    }
}

fn first_wid(ver: Version) -> Wid {
    Wid {
        ver,
        eid: 0,
        seq: 1,
    }
}

fn notes_of_four(rt: &impl Abort, alloc: Global, records: &mut Records, before: u64) {
    for (more, count) in &FOUR {
        let ver = Version {
            ts: before.saturating_add(*more),
            client: 1,
        };
        notes(rt, alloc, records, ver, *count);
    }
}

// Records of x[1], whose reader was told its first value.
fn watched(rt: &impl Abort, alloc: Global) -> Records {
    let mut records = Records::new(alloc, List::new(alloc)).expect(rt, MEMORY);
    let _ = on_get(&mut records, READER, X, NONE).expect(rt, MEMORY);
    records
}

fn notes_of_all(rt: &impl Abort, alloc: Global, records: &mut Records) {
    for i in 0..1_250u64 {
        notes_of_four(rt, alloc, records, i * 4);
    }
}

#[test]
fn one_note_where_a_version_is_the_greatest_so_far(rt: HostRuntime) {
    let mut records = watched(&rt, rt.alloc());
    notes_of_all(&rt, rt.alloc(), &mut records);
    forget(records);
}

// There are so many readers, committed contents, contents with a vote and base entries, and the writes below 18.0 are
// held or not.
fn has(rt: &impl Abort, alloc: Global, records: &Records, sizes: [usize; 4], past: bool) {
    let committed = records.committed_upto(alloc, V20).expect(rt, MEMORY);
    let voted = records.voted_upto(alloc, V20).expect(rt, MEMORY);
    let base = records.base_upto(alloc, V20).expect(rt, MEMORY);
    let now = [
        records.reader_count(),
        committed.len(),
        voted.len(),
        base.len(),
    ];
    is_equal(rt, &now, &sizes, "sizes");
    is_equal(rt, &records.holds(X, WID10), &past, "the write of Puts");
    is_equal(rt, &records.holds(X, WID12), &past, "the committed write");
}

// Something of each kind at or below 18.0, and one reader above it.
fn filled(rt: &impl Abort, alloc: Global) -> Records {
    let mut records = Records::new(alloc, List::new(alloc)).expect(rt, MEMORY);
    let content = content(rt, alloc, &WRITES);
    assert!(rt; content.writes.len() == 1);
    records.put(alloc, E10, &[WRITES_7]).expect(rt, MEMORY);
    records.commit(alloc, E12, &content).expect(rt, MEMORY);
    records.voted(alloc, E15, &content).expect(rt, MEMORY);
    records.read_by(X, V10).expect(rt, MEMORY);
    records.read_by(X, V20).expect(rt, MEMORY);
    records
}

fn are_cut(rt: &impl Abort, alloc: Global, records: &mut Records) {
    let base = List::from_slice(alloc, &[BASE17]).expect(rt, MEMORY);
    records.cut(CUT18, base);
    has(rt, alloc, records, [1, 0, 0, 1], false);
    let want = Held {
        wid: WID17,
        value: 6,
        sure: true,
    };
    is_equal(rt, &records.latest_below(X, V20), &want, "the last value");
}

#[test]
fn a_cut_lets_go_of_the_past(rt: HostRuntime) {
    let mut records = filled(&rt, rt.alloc());
    has(&rt, rt.alloc(), &records, [2, 1, 1, 0], true);
    are_cut(&rt, rt.alloc(), &mut records);
    forget(records);
}
