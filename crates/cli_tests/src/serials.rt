//! Serial runs, and runs whose reports are compared with them.

use crate::fixture::{EACH_SLOT, Handed, SOUND, TWO, call, listed};
use crate::rows::Taken::All;
use crate::rows::{Row, UNRUN, Words};
use morty_base::{List, NoMemory};
use std::alloc::{AllocGlobal, Global};
use std::random::RandomSource;
use std::sync::Wait;
use std::test::Fail;
use std::thread::Threads;

/// The serial run of two clients' transactions.
const SERIAL: Row = Row {
    shows: "transactions run by version",
    words: &[b"serial"],
    text: TWO,
    taken: All(
        b"serial 10.1 txn 1.1 end done\n\
        read x[1] 4\n\
        out 4\n\
        serial 20.2 txn 2.1 end done\n\
        read x[1] 5\n\
        out 5\n\
        value x[1] 6\n",
    ),
    links: Some(0),
    ..UNRUN
};

pub static SERIALS: [Row; 4] = [
    SERIAL,
    Row {
        shows: "they may be named",
        words: &[b"serial", b"10.1:1", b"20.2:1"],
        ..SERIAL
    },
    Row {
        shows: "in any order, and with leading zeros",
        words: &[b"serial", b"020.2:1", b"10.01:01"],
        ..SERIAL
    },
    Row {
        shows: "and at versions that no run gives",
        words: &[b"serial", b"9223372036854775807.1:1", b"5.2:1"],
        taken: All(
            b"serial 5.2 txn 2.1 end done\n\
            read x[1] 4\n\
            out 4\n\
            serial 9223372036854775807.1 txn 1.1 end done\n\
            read x[1] 5\n\
            out 5\n\
            value x[1] 6\n",
        ),
        ..SERIAL
    },
];

/// Adds the head of a commit block as a serial run has it: without try and execution.
fn push_head(text: &mut List<u8>, line: &[u8]) -> Result<(), NoMemory> {
    text.extend_from_slice(b"serial")?;
    let mut place: u32 = 0;
    for part in line.split(|byte| *byte == b' ') {
        if place > 0 && (place < 4 || place > 7) {
            text.push(b' ')?;
            text.extend_from_slice(part)?;
        }
        place = place.saturating_add(1);
    }
    text.push(b'\n')
}

/// The commit blocks and the values of a report, as a serial run has them.
fn as_serial(alloc: Global, report: &[u8]) -> Result<List<u8>, NoMemory> {
    let mut text = List::new(alloc);
    for line in report.split(|byte| *byte == b'\n') {
        if line.starts_with(b"commit ") {
            push_head(&mut text, line)?;
        } else if line.starts_with(b"read ")
            || line.starts_with(b"out ")
            || line.starts_with(b"value ")
        {
            text.extend_from_slice(line)?;
            text.push(b'\n')?;
        }
    }
    Ok(text)
}

/// The word that names the transaction of a commit block at its version.
fn word_of(alloc: Global, line: &[u8]) -> Result<List<u8>, NoMemory> {
    let mut word = List::new(alloc);
    if let Some(version) = line.split(|byte| *byte == b' ').nth(1) {
        word.extend_from_slice(version)?;
    }
    word.push(b':')?;
    if let Some(name) = line.split(|byte| *byte == b' ').nth(3) {
        if let Some(number) = name.split(|byte| *byte == b'.').nth(1) {
            word.extend_from_slice(number)?;
        }
    }
    Ok(word)
}

/// The words that ask for the serial run of what a report says was committed.
fn words_of(alloc: Global, report: &[u8]) -> Result<List<List<u8>>, NoMemory> {
    let mut words = List::new(alloc);
    words.push(List::from_slice(alloc, b"serial")?)?;
    for line in report.split(|byte| *byte == b'\n') {
        if line.starts_with(b"commit ") {
            words.push(word_of(alloc, line)?)?;
        }
    }
    Ok(words)
}

/// Whether what was committed is what the serial run of its transactions at its versions gives.
pub fn is_serial<R>(rt: &R, alloc: Global, script: &[u8], report: &[u8]) -> Result<bool, NoMemory>
where
    R: Threads + Wait + Sync + RandomSource + AllocGlobal,
{
    let words = words_of(alloc, report)?;
    let serial = call(
        rt,
        alloc,
        words.as_slice(),
        script,
        &SOUND,
        &Handed::Slots(0),
    )?;
    let committed = as_serial(alloc, report)?;
    Ok(serial.status == 0 && serial.taken.as_slice() == committed.as_slice())
}

/// A script, or the words that generate it; the words and the links of its run, the statuses that this may have, and how
/// its report begins.
struct Compared {
    shows: &'static str,
    generated: Option<Words>,
    text: &'static [u8],
    words: Words,
    handed: Handed,
    statuses: &'static [u8],
    front: &'static [u8],
}

static COMPARED: [Compared; 5] = [
    Compared {
        shows: "a large run over a seeded net, with a client that is stopped",
        generated: Some(&[b"gen", b"7", b"160"]),
        text: b"",
        words: &[b"run"],
        handed: EACH_SLOT,
        statuses: &[0],
        front: b"",
    },
    Compared {
        shows: "a client that aborts its attempts at a missed write commits the next try, a gap later",
        generated: None,
        text: b"morty 1 replicas 1 gap 20 policy abort table x first x[1] 4 \
            program inc { read a x[1]; write x[1] a + 1; print a } \
            client 1 { inc at 10 } client 2 { inc at 20 } end",
        words: &[b"run"],
        handed: EACH_SLOT,
        statuses: &[0],
        front: b"commit 10.1 txn 1.1 try 1 exec 0 end done\n\
            read x[1] 4\n\
            out 4\n\
            commit 40.2 txn 2.1 try 2 exec 0 end done\n\
            read x[1] 5\n",
    },
    Compared {
        shows: "the newest envelopes go first and twice",
        generated: None,
        text: TWO,
        words: &[b"run"],
        handed: Handed::NewestTwice,
        statuses: &[0],
        front: b"commit ",
    },
    Compared {
        shows: "two workers run two clients of one cell",
        generated: None,
        text: TWO,
        words: &[b"run", b"--workers", b"2"],
        handed: EACH_SLOT,
        statuses: &[0, 1],
        front: b"commit ",
    },
    Compared {
        shows: "eight workers run transfers over a seeded net",
        generated: Some(&[b"gen", b"7", b"40"]),
        text: b"",
        words: &[b"run", b"--workers", b"8"],
        handed: EACH_SLOT,
        statuses: &[0, 1],
        front: b"",
    },
];

/// The script that is compared.
fn script_of<R>(rt: &R, alloc: Global, row: &Compared) -> Result<List<u8>, NoMemory>
where
    R: Threads + Wait + Sync + RandomSource + AllocGlobal,
{
    match row.generated {
        Some(words) => {
            let words = listed(alloc, words)?;
            Ok(call(rt, alloc, words.as_slice(), b"", &SOUND, &EACH_SLOT)?.taken)
        }
        None => List::from_slice(alloc, row.text),
    }
}

// Whatever the links do, what was committed is a serial run.
#[test]
fn reports_are_serial(rt: HostRuntime) -> Result<(), Fail> {
    let alloc = rt.alloc();
    for row in &COMPARED {
        let script = script_of(&rt, alloc, row)?;
        let words = listed(alloc, row.words)?;
        let answer = call(
            &rt,
            alloc,
            words.as_slice(),
            script.as_slice(),
            &SOUND,
            &row.handed,
        )?;
        let report = answer.taken.as_slice();
        assert!(rt; row.statuses.contains(&answer.status), "{}", row.shows);
        assert!(rt; report.starts_with(row.front), "{}", row.shows);
        assert!(rt;
            is_serial(&rt, alloc, script.as_slice(), report)?,
            "{}",
            row.shows
        );
    }
    Ok(())
}
