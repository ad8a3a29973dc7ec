ghost use Rattle.std.specs.Prelude.{◌<◌, length};

use morty_base::{List, NoMemory};
use script::read_script;
use std::alloc::Global;
use std::test::Fail;
use txn_text::{FaultKind, TextFault};

/// A script with a numbered part in its midst, so often; what closes each part; how often the part may stand, and the fault
/// with its line where it stands once more.
struct Row {
    head: &'static [u8],
    before: &'static [u8],
    behind: &'static [u8],
    midst: &'static [u8],
    close: &'static [u8],
    tail: &'static [u8],
    most: u16,
    line: u32,
    kind: FaultKind,
}

static ROWS: [Row; 10] = [
    Row {
        head: b"morty 1",
        before: b"\ntable t",
        behind: b"",
        midst: b"",
        close: b"",
        tail: b" client 1 { } end",
        most: 256,
        line: 258,
        kind: FaultKind::TooManyTables,
    },
    Row {
        head: b"morty 1",
        before: b"\nprogram p",
        behind: b" { abort }",
        midst: b"",
        close: b"",
        tail: b" client 1 { } end",
        most: 1024,
        line: 1026,
        kind: FaultKind::TooManyPrograms,
    },
    Row {
        head: b"morty 1",
        before: b"\nclient ",
        behind: b" { }",
        midst: b"",
        close: b"",
        tail: b" end",
        most: 16,
        line: 18,
        kind: FaultKind::ClientOrder,
    },
    Row {
        head: b"morty 1 program p { abort } client 1 {",
        before: b"\np at ",
        behind: b";",
        midst: b"",
        close: b"",
        tail: b" } end",
        most: 64,
        line: 66,
        kind: FaultKind::TooManyTransactions,
    },
    Row {
        head: b"morty 1 program p {",
        before: b"\nif ",
        behind: b" {",
        midst: b" abort",
        close: b" }",
        tail: b" } client 1 { p } end",
        most: 31,
        line: 33,
        kind: FaultKind::Deep,
    },
    // two tokens, and two more for each part
    Row {
        head: b"morty 1 program p { print - 1",
        before: b"\n+ ",
        behind: b"",
        midst: b"",
        close: b"",
        tail: b" } client 1 { p } end",
        most: 31,
        line: 33,
        kind: FaultKind::LongExpression,
    },
    Row {
        head: b"morty 1 table x\nprogram p { abort",
        before: b"; read a x[",
        behind: b"]",
        midst: b"",
        close: b"",
        tail: b" } client 1 { p } end",
        most: 64,
        line: 2,
        kind: FaultKind::ProgramLimit,
    },
    Row {
        head: b"morty 1 table x\nprogram p { abort",
        before: b"; write x[1] ",
        behind: b"",
        midst: b"",
        close: b"",
        tail: b" } client 1 { p } end",
        most: 64,
        line: 2,
        kind: FaultKind::ProgramLimit,
    },
    Row {
        head: b"morty 1\nprogram p { abort",
        before: b"; print ",
        behind: b"",
        midst: b"",
        close: b"",
        tail: b" } client 1 { p } end",
        most: 64,
        line: 2,
        kind: FaultKind::ProgramLimit,
    },
    Row {
        head: b"morty 1\nprogram p { abort",
        before: b"; let a",
        behind: b" = 0",
        midst: b"",
        close: b"",
        tail: b" } client 1 { p } end",
        most: 64,
        line: 2,
        kind: FaultKind::ProgramLimit,
    },
];

fn rows() -> &'static [Row] {
    &ROWS
}

fn push_part(text: &mut List<u8>, row: &Row, number: u16) -> Result<(), NoMemory> {
    text.extend_from_slice(row.before)?;
    for power in [1000, 100, 10, 1] {
        text.push(b'0' + (number / power % 10) as u8)?;
    }
    text.extend_from_slice(row.behind)
}

fn text_of(alloc: Global, row: &Row, times: u16) -> Result<List<u8>, NoMemory> {
    let mut text = List::from_slice(alloc, row.head)?;
    for i in 0..times {
        push_part(&mut text, row, i.saturating_add(1))?;
    }
    text.extend_from_slice(row.midst)?;
    for _ in 0..times {
        text.extend_from_slice(row.close)?;
    }
    text.extend_from_slice(row.tail)?;
    Ok(text)
}

/// Whether the text says a script.
fn is_script(alloc: Global, text: &[u8]) -> bool
    requires { length text.now < u32.MAX }
{
    read_script(alloc, text).is_ok()
}

/// Whether the text has the row's fault.
fn is_past(alloc: Global, text: &[u8], row: &Row) -> bool
    requires { length text.now < u32.MAX }
{
    match read_script(alloc, text) {
        Err(TextFault::At { line, kind }) => line == row.line && kind == row.kind,
        _ => false,
    }
}

#[test]
fn each_limit_is_kept(rt: HostRuntime) -> Result<(), Fail> {
    for (i, row) in rows().iter().enumerate() {
        let last = text_of(rt.alloc(), row, row.most)?;
        assert!(rt; last.len() < 100_000);
        assert!(rt; is_script(rt.alloc(), last.as_slice()), "row {i}");
        let past = text_of(rt.alloc(), row, row.most.saturating_add(1))?;
        assert!(rt; past.len() < 100_000);
        assert!(rt; is_past(rt.alloc(), past.as_slice(), row), "row {i}");
    }
    Ok(())
}
