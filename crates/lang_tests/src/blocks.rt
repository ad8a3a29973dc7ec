ghost use Rattle.std.specs.Prelude.{IfOk};
ghost use Rattle.txn_parse.specs.Tree.{commands};
ghost use Rattle.txn_parse.specs.Binding.{IsParsed};

use std::alloc::{AllocError, Global};
use std::process::Abort;
use std::test::Fail;
use txn_lang::BinOp;
use txn_parse::{RawExpr, RawProg, RawStmt, fault_laws, grammar_laws, parse_prog};
use txn_text::{FaultKind, TextFault, is_text, token_text, tokens};

// The block that a text begins with, and the place of the token behind it.
pub fn read(alloc: Global, rt: &impl Abort, text: &[u8]) -> Result<(RawProg, usize), TextFault>
    ensures { IfOk result (λ x. IsParsed text.now (commands x.0.body)) }
{
    assert!(rt; text.len() < 4000);
    let toks = tokens(alloc, text)?;
    let (prog, next) = parse_prog(alloc, text, toks.as_slice(), 0)?;
    Ok((prog, next))
}

fn assert_fault(rt: &impl Abort, alloc: Global, text: &[u8], line: u32, kind: FaultKind) {
    match read(alloc, rt, text) {
        Ok(_) => panic!(rt; "a block was read"),
        Err(fault) => assert_eq!(rt; fault, TextFault::At { line, kind }),
    }
}

// A word for a statement and its parts.
fn shape(text: &[u8], stmt: &RawStmt) -> &'static str {
    match stmt {
        RawStmt::Let(a, RawExpr::Num(_)) if is_text(text, *a, b"a") => "let",
        RawStmt::Read(_, x, RawExpr::Local(_)) if is_text(text, *x, b"x") => "read",
        RawStmt::Write(_, RawExpr::Num(_), RawExpr::Bin(BinOp::Add, _)) => "write",
        RawStmt::Print(RawExpr::Local(_)) => "print",
        RawStmt::If(_, a, b) if a.stmts.len() == 1 && b.stmts.is_empty() => "if",
        RawStmt::If(_, a, b) if a.stmts.len() == 1 && b.stmts.len() == 1 => "if else",
        RawStmt::Repeat(n, _) if is_text(text, *n, b"3") => "repeat",
        RawStmt::Abort => "abort",
        _ => "other",
    }
}

#[test]
fn each_statement_is_read(rt: HostRuntime) -> Result<(), Fail> {
    let text =
        b"{ let a = 1; read b x[a]; write x[2] b + 1; print b; if a { abort } else { print a; }; if b { abort }; repeat 3 { let a = a + 1 }; abort; } end";
    let shapes = [
        "let", "read", "write", "print", "if else", "if", "repeat", "abort",
    ];
    let (prog, next) = read(rt.alloc(), &rt, text)?;
    assert_eq!(rt; next, 57);
    assert!(rt; token_text(text, prog.brace) == b"{".as_slice());
    assert_eq!(rt; prog.body.stmts.len(), shapes.len());
    for (stmt, want) in prog.body.stmts.as_slice().iter().zip(shapes) {
        assert_eq!(rt; shape(text, stmt), want);
    }
    grammar_laws();
    fault_laws();
    Ok(())
}

// A text with the line and the kind of its fault.
type Row = (&'static [u8], u32, FaultKind);

static FAULTS: [Row; 12] = [
    (b"{ read x[1] }", 1, FaultKind::Syntax),
    (b"{ print a < b\n< c }", 2, FaultKind::Syntax),
    (b"{ }", 1, FaultKind::Syntax),
    (b"{ print a;; }", 1, FaultKind::Syntax),
    (b"{ print\n\n) }", 3, FaultKind::Syntax),
    (b"{ print (a }", 1, FaultKind::Syntax),
    (b"{ write x[1]\n}", 2, FaultKind::Syntax),
    (b"{ abort else { abort } }", 1, FaultKind::Syntax),
    (b"\n\nprint a", 3, FaultKind::Syntax),
    (b"{ print a;\n# to the end\n", 3, FaultKind::EndOfText),
    (b"", 1, FaultKind::EndOfText),
    (b"{ if a { abort } else", 1, FaultKind::EndOfText),
];

fn faults() -> &'static [Row] {
    &FAULTS
}

// So many blocks in one another, the innermost on a line of its own.
fn nested(alloc: Global, blocks: usize) -> Result<Vec<u8>, AllocError> {
    let mut text = Vec::new(alloc);
    for _ in 1..blocks {
        text.extend_from_slice(b"{ repeat 2 ")?;
    }
    text.extend_from_slice(b"\n{ abort }")?;
    for _ in 1..blocks {
        text.extend_from_slice(b" }")?;
    }
    Ok(text)
}

// A sum of so many terms, the last on a line of its own, behind a sign or not.
fn summed(alloc: Global, terms: usize, sign: &[u8]) -> Result<Vec<u8>, AllocError> {
    let mut text = Vec::new(alloc);
    text.extend_from_slice(b"{ print ")?;
    text.extend_from_slice(sign)?;
    for _ in 1..terms {
        text.extend_from_slice(b"a + ")?;
    }
    text.extend_from_slice(b"\na }")?;
    Ok(text)
}

#[test]
fn the_first_fault_is_named(rt: HostRuntime) -> Result<(), Fail> {
    let alloc = rt.alloc();
    for (text, line, kind) in faults() {
        assert_fault(&rt, alloc, text, *line, *kind);
    }
    read(alloc, &rt, nested(alloc, 32)?.as_slice())?;
    read(alloc, &rt, summed(alloc, 32, b"-")?.as_slice())?;
    let too_deep = nested(alloc, 33)?;
    assert_fault(&rt, alloc, too_deep.as_slice(), 2, FaultKind::Deep);
    let too_long = summed(alloc, 33, b"")?;
    assert_fault(
        &rt,
        alloc,
        too_long.as_slice(),
        2,
        FaultKind::LongExpression,
    );
    Ok(())
}
