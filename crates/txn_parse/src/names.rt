ghost use Rattle.std.specs.Prelude.{◌≡◌, ◌≤◌, [], ◌∷◌, length, find, OnOk};
ghost use Rattle.txn_text.specs.Tokens.{token_bytes};
ghost use Rattle.txn_parse.specs.Tree.{term, command, commands};
ghost use Rattle.txn_parse.specs.Binding.{place, is_known, is_unknown, tables_in, tables_of, locals_of, with_name, names_in, names_after, used_checks, local_checks_in, local_checks, FaultIs};

use crate::tree::{RawBlock, RawExpr, RawStmt};
use morty_base::{List, NoMemory};
use std::alloc::Global;
use txn_text::{FaultKind, TextFault, Token, token_text};

/// The place of a token's name among others, or their number where it is none of them.
pub fn place(text: &[u8], names: &[List<u8>], token: Token) -> usize
    ensures value { result ≡ place names.now (token_bytes text.now token) }
    ensures within { result ≤ length names.now }
{
    let name = token_text(text, token);
    for (at, known) in names.iter().enumerate() {
        if name == known.as_slice() {
            return at;
        }
    }
    names.len()
}

/// Whether a token's name is one of these. The newest is asked first.
pub fn is_known(text: &[u8], names: &[List<u8>], token: Token) -> bool
    ensures { result ≡ is_known names.now (token_bytes text.now token) }
{
    let name = token_text(text, token);
    for known in names.iter().rev() {
        if name == known.as_slice() {
            return true;
        }
    }
    false
}

// The token, unless its name is one of these.
fn unless_known(text: &[u8], names: &[List<u8>], token: Token) -> Option<Token>
    ensures { result ≡ find (is_unknown text.now names.now) (token ∷ []) }
{
    if is_known(text, names, token) {
        None
    } else {
        Some(token)
    }
}

#[cycle(tables)]
fn unknown_table_in(text: &[u8], tables: &[List<u8>], stmt: &RawStmt) -> Option<Token>
    ensures { result ≡ find (is_unknown text.now tables.now) (tables_in (command stmt.now)) }
{
    match stmt {
        RawStmt::Read(_, table, _) | RawStmt::Write(table, _, _) => unless_known(
            text, tables, *table,
        ),
        RawStmt::If(_, a, b) => match unknown_table(text, tables, a) {
            Some(table) => Some(table),
            None => unknown_table(text, tables, b),
        },
        RawStmt::Repeat(_, body) => unknown_table(text, tables, body),
        _ => None,
    }
}

/// The first table of a block that is none of these.
#[cycle(tables)]
pub fn unknown_table(text: &[u8], tables: &[List<u8>], block: &RawBlock) -> Option<Token>
    ensures { result ≡ find (is_unknown text.now tables.now) (tables_of (commands block.now)) }
{
    for stmt in block.stmts.as_slice() {
        match unknown_table_in(text, tables, stmt) {
            Some(table) => return Some(table),
            None => {}
        }
    }
    None
}

// The first local that an expression uses and that is none of these.
fn unknown_local(text: &[u8], names: &[List<u8>], e: &RawExpr) -> Option<Token>
    ensures { result ≡ find (is_unknown text.now names.now) (locals_of (term e.now)) }
{
    match e {
        RawExpr::Num(_) => None,
        RawExpr::Local(v) => unless_known(text, names, *v),
        RawExpr::Neg(a) | RawExpr::Not(a) => unknown_local(text, names, a.get()),
        RawExpr::Bin(_, operands) => {
            let (a, b) = operands.get();
            match unknown_local(text, names, a) {
                Some(v) => Some(v),
                None => unknown_local(text, names, b),
            }
        }
    }
}

fn check_used(text: &[u8], names: &[List<u8>], e: &RawExpr) -> Result<(), TextFault>
    ensures { FaultIs (used_checks text.now names.now (term e.now)) result }
{
    match unknown_local(text, names, e) {
        Some(v) => Err(TextFault::At {
            line: v.line,
            kind: FaultKind::UnknownLocal,
        }),
        None => Ok(()),
    }
}

// The names with that of a target.
fn add_target(
    alloc: Global,
    text: &[u8],
    names: &mut List<List<u8>>,
    target: Token,
) -> Result<(), NoMemory>
    ensures { OnOk result (names.new ≡ with_name (token_bytes text.now target) names.old) }
{
    if !is_known(text, names.as_slice(), target) {
        names.push(List::from_slice(alloc, token_text(text, target))?)?;
    }
    Ok(())
}

#[cycle(locals)]
fn take_locals_in(
    alloc: Global,
    text: &[u8],
    names: &mut List<List<u8>>,
    stmt: &RawStmt,
) -> Result<(), TextFault>
    ensures names { OnOk result (names.new ≡ names_in text.now (command stmt.now) names.old) }
    ensures fault { FaultIs (local_checks_in text.now names.old (command stmt.now)) result }
{
    match stmt {
        RawStmt::Let(target, e) => {
            add_target(alloc, text, names, *target)?;
            check_used(text, names.as_slice(), e)
        }
        RawStmt::Read(target, _, index) => {
            add_target(alloc, text, names, *target)?;
            check_used(text, names.as_slice(), index)
        }
        RawStmt::Write(_, index, e) => {
            check_used(text, names.as_slice(), index)?;
            check_used(text, names.as_slice(), e)
        }
        RawStmt::Print(e) => check_used(text, names.as_slice(), e),
        RawStmt::If(e, a, b) => {
            check_used(text, names.as_slice(), e)?;
            take_locals(alloc, text, names, a)?;
            take_locals(alloc, text, names, b)
        }
        RawStmt::Repeat(_, body) => take_locals(alloc, text, names, body),
        RawStmt::Abort => Ok(()),
    }
}

/// Adds a block's locals in the order of their first places as targets. A local that is used before such a place is a
/// fault.
#[cycle(locals)]
pub fn take_locals(
    alloc: Global,
    text: &[u8],
    names: &mut List<List<u8>>,
    block: &RawBlock,
) -> Result<(), TextFault>
    ensures names { OnOk result (names.new ≡ names_after text.now (commands block.now) names.old) }
    ensures fault { FaultIs (local_checks text.now names.old (commands block.now)) result }
{
    for stmt in block.stmts.as_slice() {
        take_locals_in(alloc, text, names, stmt)?;
    }
    Ok(())
}
