ghost use Rattle.std.specs.Prelude.{◌<◌, length};

use script::read_script;
use std::alloc::Global;
use std::test::Fail;
use txn_text::{FaultKind, TextFault};

/// A text, and its fault with its line, or none where it says a script. A script at a limit stands before one past it.
type Row = (&'static [u8], Option<(u32, FaultKind)>);

static TEXTS: [Row; 51] = [
    (b"", Some((1, FaultKind::EndOfText))),
    (
        b"morty 1\nclient 1 { } \n\n",
        Some((4, FaultKind::EndOfText)),
    ),
    (b"morty 1\n! client 1 { } end", Some((2, FaultKind::Byte))),
    (
        b"morty 1 table abcdefghijklmnopqrstuvwxyz012345 client 1 { } end",
        None,
    ),
    (
        b"morty 1 table\nabcdefghijklmnopqrstuvwxyz0123456 client 1 { } end",
        Some((2, FaultKind::LongName)),
    ),
    (
        b"morty 1 program p { print 9223372036854775807 } client 1 { p } end",
        None,
    ),
    (
        b"morty 1 program p { print 9223372036854775808 }\n client 1 { p } end",
        Some((1, FaultKind::Number)),
    ),
    (
        b"morty 1\nprogram p { read x[1] }\n client 1 { p } end",
        Some((2, FaultKind::Syntax)),
    ),
    (
        b"morty 1 client 1 { }\ntable x end",
        Some((2, FaultKind::Syntax)),
    ),
    (
        b"morty 1 client 1 { } end\n\nend",
        Some((3, FaultKind::Syntax)),
    ),
    (
        b"morty 3 program p { print 1 }\n client 1 { p } end",
        Some((1, FaultKind::Version)),
    ),
    (
        b"morty 1 tries 2\ngap 2\ntries 2 client 1 { } end",
        Some((3, FaultKind::RepeatedSetting)),
    ),
    (
        b"morty 1 policy abort\npolicy abort client 1 { } end",
        Some((2, FaultKind::RepeatedSetting)),
    ),
    (
        b"morty 1 replicas 1 tries 1 execs 1 gap 1 turns 1 client 1 { } end",
        None,
    ),
    (
        b"morty 1 replicas 5 wardens 2 tries 8 execs 64 gap 1000000 turns 20000 client 1 { } end",
        None,
    ),
    (
        b"morty 1 replicas\n2 client 1 { } end",
        Some((2, FaultKind::SettingRange)),
    ),
    (
        b"morty 1 wardens\n3 client 1 { } end",
        Some((2, FaultKind::SettingRange)),
    ),
    (
        b"morty 1 tries\n9 client 1 { } end",
        Some((2, FaultKind::SettingRange)),
    ),
    (
        b"morty 1 execs\n65 client 1 { } end",
        Some((2, FaultKind::SettingRange)),
    ),
    (
        b"morty 1 gap\n1000001 client 1 { } end",
        Some((2, FaultKind::SettingRange)),
    ),
    (
        b"morty 1 turns\n20001 client 1 { } end",
        Some((2, FaultKind::SettingRange)),
    ),
    (
        b"morty 1 turns\n0 client 1 { } end",
        Some((2, FaultKind::SettingRange)),
    ),
    (
        b"morty 1 table x table y table\nx client 1 { } end",
        Some((2, FaultKind::RepeatedTable)),
    ),
    (
        b"morty 1 table x\nprogram p { read a y[1] }\n client 1 { p } end",
        Some((2, FaultKind::UnknownTable)),
    ),
    (
        b"morty 1\nfirst x[1] 1\ntable x client 1 { } end",
        Some((2, FaultKind::UnknownTable)),
    ),
    (
        b"morty 1 table x first x[1] 1\nfirst x[01] 2 client 1 { } end",
        Some((2, FaultKind::RepeatedFirst)),
    ),
    (
        b"morty 1 program p { abort } program\np { abort } client 1 { } end",
        Some((2, FaultKind::RepeatedProgram)),
    ),
    (
        b"morty 1 table x\n\nprogram p { print a }\n client 1 { p } end",
        Some((3, FaultKind::UnknownLocal)),
    ),
    (
        b"morty 1\nprogram p { print a;\nread b y[1] } client 1 { } end",
        Some((3, FaultKind::UnknownTable)),
    ),
    (
        b"morty 1 program p { repeat 4095 { abort } } client 1 { p } end",
        None,
    ),
    (
        b"morty 1 program p { repeat 4096 { print 1 } }\n client 1 { p } end",
        Some((1, FaultKind::ProgramLimit)),
    ),
    (
        b"morty 1\nprogram p\n{ repeat 4097 { abort } } client 1 { p } end",
        Some((2, FaultKind::ProgramLimit)),
    ),
    (
        b"morty 1\nclient 2 { } end",
        Some((2, FaultKind::ClientOrder)),
    ),
    (b"morty 1\n\nend", Some((3, FaultKind::ClientOrder))),
    (
        b"morty 1 client 1 {\np } end",
        Some((2, FaultKind::UnknownProgram)),
    ),
    (
        b"morty 1 program p { abort } client 1 { p at 1000000000001;\nq } end",
        Some((2, FaultKind::UnknownProgram)),
    ),
    (
        b"morty 1 program p { abort } client 1 { p at 1000000000000 } end",
        None,
    ),
    (
        b"morty 1 program p { abort } client 1 { p at\n1000000000001 } end",
        Some((2, FaultKind::AtRange)),
    ),
    (
        b"morty 1 client 1 { } net seeded 9223372036854775807 late 100 repeat 100 hurry 100 end",
        None,
    ),
    (
        b"morty 1 client 1 { } net seeded 7 late 100 repeat\n101 hurry 101 end",
        Some((2, FaultKind::NetRange)),
    ),
    (
        b"morty 1 client 1 { } at 5 client\n2 go end",
        Some((2, FaultKind::NoSuchNode)),
    ),
    (
        b"morty 1 client 1 { } at 5 warden\n1 go end",
        Some((2, FaultKind::NoSuchNode)),
    ),
    (
        b"morty 1 client 1 { } at 5 replica\n0 go end",
        Some((2, FaultKind::NoSuchNode)),
    ),
    (
        b"morty 1 client 1 { }\nlist client 1 { wait 0 } end",
        Some((2, FaultKind::WrongNet)),
    ),
    (
        b"morty 1 client 1 { } net listed\nat 1 client 1 recover 1.4294967296 0 end",
        Some((2, FaultKind::WrongNet)),
    ),
    (
        b"morty 1 client 1 { } net listed list client 1 { wait 1; next 20000; newest 20000 } end",
        None,
    ),
    (
        b"morty 1 client 1 { } net listed list client 1 { wait\n0 } end",
        Some((2, FaultKind::PlanRange)),
    ),
    (
        b"morty 1 client 1 { } net listed list client 1 { go; next\n20001 } end",
        Some((2, FaultKind::PlanRange)),
    ),
    (
        b"morty 1 client 1 { } at 1 client 1 recover 1.4294967295 4294967295 end",
        None,
    ),
    (
        b"morty 1 client 1 { } at 1 client 1 recover 1.4294967295\n4294967296 end",
        Some((2, FaultKind::PlanRange)),
    ),
    (
        b"morty 1 client 1 { } at 1 client 1 truncate 1\n.\n4294967296 end",
        Some((3, FaultKind::PlanRange)),
    ),
];

fn texts() -> &'static [Row] {
    &TEXTS
}

/// Whether a text is read as the row says.
fn is_read_as(alloc: Global, text: &[u8], fault: Option<(u32, FaultKind)>) -> bool
    requires { length text.now < u32.MAX }
{
    match (read_script(alloc, text), fault) {
        (Ok(_), None) => true,
        (Err(TextFault::At { line, kind }), Some((at, wanted))) => line == at && kind == wanted,
        _ => false,
    }
}

#[test]
fn each_fault_is_found_at_its_line(rt: HostRuntime) -> Result<(), Fail> {
    for (i, (text, fault)) in texts().iter().enumerate() {
        assert!(rt; text.len() < 4000);
        assert!(rt; is_read_as(rt.alloc(), *text, *fault), "row {i}");
    }
    Ok(())
}
