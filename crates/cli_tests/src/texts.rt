use morty_base::{Ended, Ending, Exec, Key, List, NoMemory, Version, Wid};
use msg::Read;
use report::{CommitRow, Left, LeftRow, Rows, ValueRow, brief_text, report_text, serial_text};
use std::alloc::Global;
use std::test::Fail;

const X1: Key = Key { table: 0, index: 1 };

const LOW: Key = Key {
    table: 1,
    index: -3,
};

/// A committed execution of the client's first transaction that read one cell and printed some lines.
fn row(
    alloc: Global,
    ts: u64,
    client: u32,
    ending: Ending,
    key: Key,
    value: i64,
    out: &[i64],
) -> Result<CommitRow, NoMemory> {
    let ver = Version { ts, client };
    let mut reads = List::new(alloc);
    reads.push(Read {
        key,
        wid: Wid {
            ver,
            eid: 0,
            seq: 0,
        },
        value,
    })?;
    Ok(CommitRow {
        exec: Exec { ver, eid: 3 },
        txn: 1,
        attempt: 2,
        ending,
        reads,
        out: List::from_slice(alloc, out)?,
    })
}

/// Every ending, every state that a transaction may be left in, and negative numbers.
fn rows(alloc: Global) -> Result<Rows, NoMemory> {
    let mut commits = List::new(alloc);
    commits.push(row(alloc, 10, 1, Ending::Done, X1, 4, &[4, -7])?)?;
    commits.push(row(alloc, 20, 2, Ending::Abort, LOW, i64::MIN, &[])?)?;
    commits.push(row(alloc, 20, 3, Ending::Overflow, X1, 0, &[])?)?;
    commits.push(row(alloc, 30, 4, Ending::ZeroDivisor, X1, 1, &[0])?)?;
    let left = [
        LeftRow {
            client: 1,
            txn: 2,
            state: Left::Live,
        },
        LeftRow {
            client: 2,
            txn: 5,
            state: Left::Aborted,
        },
        LeftRow {
            client: 3,
            txn: 1,
            state: Left::Unbegun,
        },
        LeftRow {
            client: 3,
            txn: 2,
            state: Left::Unbegun,
        },
    ];
    let values = [
        ValueRow {
            key: X1,
            value: i64::MIN,
        },
        ValueRow {
            key: LOW,
            value: -1,
        },
    ];
    Ok(Rows {
        commits,
        left: List::from_slice(alloc, left.as_slice())?,
        values: List::from_slice(alloc, values.as_slice())?,
        events: 41,
    })
}

fn tables(alloc: Global) -> Result<List<List<u8>>, NoMemory> {
    let mut tables = List::new(alloc);
    tables.push(List::from_slice(alloc, b"x")?)?;
    tables.push(List::from_slice(alloc, b"low_1")?)?;
    Ok(tables)
}

const REPORT: &[u8] =
    b"commit 10.1 txn 1.1 try 2 exec 3 end done\nread x[1] 4\nout 4\nout -7\ncommit 20.2 txn 2.1 try 2 exec 3 end abort\nread low_1[-3] -9223372036854775808\ncommit 20.3 txn 3.1 try 2 exec 3 end overflow\nread x[1] 0\ncommit 30.4 txn 4.1 try 2 exec 3 end zero divisor\nread x[1] 1\nout 0\nnone 1.2 open\nnone 2.5 aborted\nnone 3.1 unbegun\nnone 3.2 unbegun\nvalue x[1] -9223372036854775808\nvalue low_1[-3] -1\nended full events 41\n";

const SERIAL: &[u8] =
    b"serial 10.1 txn 1.1 end done\nread x[1] 4\nout 4\nout -7\nserial 20.2 txn 2.1 end abort\nread low_1[-3] -9223372036854775808\nserial 20.3 txn 3.1 end overflow\nread x[1] 0\nserial 30.4 txn 4.1 end zero divisor\nread x[1] 1\nout 0\nvalue x[1] -9223372036854775808\nvalue low_1[-3] -1\n";

const BRIEF: &[u8] =
    b"commits 4\naborted 1\nopen 1\nunbegun 2\nsum -9223372036854775809\nended spent events 41\n";

#[test]
fn rows_are_written_as_the_format_says(rt: HostRuntime) -> Result<(), Fail> {
    let rows = rows(rt.alloc())?;
    let tables = tables(rt.alloc())?;
    let report = report_text(rt.alloc(), tables.as_slice(), &rows, Ended::Full)?;
    assert_eq!(rt; report.as_slice(), REPORT);
    let serial = serial_text(rt.alloc(), tables.as_slice(), &rows)?;
    assert_eq!(rt; serial.as_slice(), SERIAL);
    let brief = brief_text(rt.alloc(), &rows, Ended::Spent)?;
    assert_eq!(rt; brief.as_slice(), BRIEF);
    Ok(())
}
