ghost use Rattle.std.specs.Prelude.{IfOk};
ghost use Rattle.lang_tests.specs.Execution.{Stands};

use crate::execution::{Execution, answer, begin, rewind};
use crate::programs::{FIVE, PAY, program};
use continuation::{JobAt, Known, Next, Seg};
use exec_log::ExecLog;
use morty_base::{Ending, Key, Version, Wid};
use msg::{Read, Write};
use std::alloc::Global;
use std::process::Abort;
use std::test::Fail;

// What a segment gave: the place of x that it asks for, how many statements it began, and what it printed.
type Gave = (Option<i64>, u32, &'static [i64]);

// The first value of a key.
const FIRST: Wid = Wid {
    ver: Version { ts: 0, client: 0 },
    eid: 0,
    seq: 0,
};

// The write of 10.1.
const PUT: Wid = Wid {
    ver: Version { ts: 10, client: 1 },
    eid: 0,
    seq: 1,
};

// The write of 5.1.
const OTHER: Wid = Wid {
    ver: Version { ts: 5, client: 1 },
    eid: 0,
    seq: 1,
};

fn assert_gave(rt: &impl Abort, seg: &Seg, want: Gave) {
    let asks = match &seg.next {
        Next::Asks { key, .. } => Some(key.index),
        Next::Ends(_) => None,
    };
    assert_eq!(rt; asks, want.0);
    assert_eq!(rt; seg.ran, want.1);
    assert_eq!(rt; seg.printed.as_slice(), want.2);
}

// Gives these answers, and compares the segment that follows each.
fn answer_all(
    rt: &impl Abort,
    alloc: Global,
    execution: Execution,
    rows: &[(i64, Gave)],
) -> Result<Execution, Fail>
    requires { Stands execution.code execution.log }
    ensures { IfOk result (λ x. Stands x.code x.log) }
{
    match rows.split_first() {
        None => Ok(execution),
        Some((row, rest)) => {
            let next = answer(alloc, execution, FIRST, row.0)?;
            assert_gave(rt, next.last.seg(), row.1);
            answer_all(rt, alloc, next, rest)
        }
    }
}

fn x(index: i64) -> Key {
    Key { table: 0, index }
}

fn assert_known(rt: &impl Abort, at: &JobAt, want: &[Known]) {
    match at {
        JobAt::Start => panic!(rt; "it begins at the start"),
        JobAt::From { known, .. } => assert_eq!(rt; known.as_slice(), want),
    }
}

// A read of x.
fn read(index: i64, value: i64, wid: Wid) -> Read {
    Read {
        key: x(index),
        wid,
        value,
    }
}

const FIRST_ANSWERS: [(i64, Gave); 5] = [
    (1, (Some(2), 3, &[])),
    (2, (Some(3), 3, &[])),
    (3, (Some(4), 3, &[])),
    (4, (Some(5), 3, &[])),
    (5, (None, 3, &[15])),
];

const LATER_ANSWERS: [(i64, Gave); 2] = [(4, (Some(5), 3, &[])), (5, (None, 3, &[42]))];

const GIVES_UP: [(i64, Gave); 1] = [(4, (None, 3, &[]))];

// Five reads on these answers.
fn sum_first(rt: &impl Abort, alloc: Global) -> Result<Execution, Fail>
    ensures { IfOk result (λ x. Stands x.code x.log) }
{
    let prog = program(alloc, rt, FIVE)?;
    let first = begin(alloc, &prog)?;
    assert_gave(rt, first.last.seg(), (Some(1), 4, &[]));
    answer_all(rt, alloc, first, &FIRST_ANSWERS)
}

// The third read is answered anew.
fn sum_again(rt: &impl Abort, alloc: Global, ended: Execution) -> Result<Execution, Fail>
    requires { Stands ended.code ended.log }
    ensures { IfOk result (λ x. Stands x.code x.log) }
{
    let again = rewind(alloc, ended, 2, PUT, 30)?;
    let known = [
        Known {
            key: x(1),
            value: 1,
        },
        Known {
            key: x(2),
            value: 2,
        },
    ];
    assert_known(rt, &again.last.job().at, &known);
    assert_gave(rt, again.last.seg(), (Some(4), 3, &[]));
    answer_all(rt, alloc, again, &LATER_ANSWERS)
}

// The first read gets another label.
fn relabel(ended: &mut Execution) {
    if ended.log.reads() == 5 {
        ended.log.label(0, OTHER, false);
    }
}

// An execution that has ended keeps no writes, and has these reads and lines.
fn assert_ended(
    rt: &impl Abort,
    alloc: Global,
    log: &ExecLog,
    reads: &[Read],
    out: &[i64],
) -> Result<Ending, Fail> {
    log.ending().ok_or("it has not ended")?;
    let content = log.content(alloc)?;
    assert_eq!(rt; content.reads.as_slice(), reads);
    assert_eq!(rt; content.writes.len(), 0);
    assert_eq!(rt; content.out.as_slice(), out);
    Ok(content.ending)
}

#[test]
fn a_read_is_answered_anew(rt: HostRuntime) -> Result<(), Fail> {
    let alloc = rt.alloc();
    let first = sum_first(&rt, alloc)?;
    let mut ended = sum_again(&rt, alloc, first)?;
    relabel(&mut ended);
    let reads = [
        read(1, 1, OTHER),
        read(2, 2, FIRST),
        read(3, 30, PUT),
        read(4, 4, FIRST),
        read(5, 5, FIRST),
    ];
    let ending = assert_ended(&rt, alloc, &ended.log, &reads, &[42])?;
    assert_eq!(rt; ending, Ending::Done);
    Ok(())
}

// A payment from too low an amount.
fn give_up(rt: &impl Abort, alloc: Global) -> Result<Execution, Fail> {
    let prog = program(alloc, rt, PAY)?;
    let first = begin(alloc, &prog)?;
    assert_gave(rt, first.last.seg(), (Some(1), 1, &[]));
    answer_all(rt, alloc, first, &GIVES_UP)
}

// It makes one write, and keeps none.
#[test]
fn an_abort_keeps_no_writes(rt: HostRuntime) -> Result<(), Fail> {
    let alloc = rt.alloc();
    let ended = give_up(&rt, alloc)?;
    let write = Write {
        key: x(2),
        value: 1,
    };
    assert_eq!(rt; ended.log.writes(), [write].as_slice());
    let ending = assert_ended(&rt, alloc, &ended.log, &[read(1, 4, FIRST)], &[])?;
    assert_eq!(rt; ending, Ending::Abort);
    Ok(())
}
