ghost use Rattle.std.specs.Prelude.{◌≡◌, ◌≤◌, length, find, None, IfOk};
ghost use Rattle.txn_lang.specs.declared.limits.TheConstants.{MOST_LOCALS, MOST_TIMES};
ghost use Rattle.txn_lang.specs.Tree.{term as term_of, command as command_of, commands as commands_of};
ghost use Rattle.txn_parse.specs.Tree.{term, command, commands};
ghost use Rattle.txn_parse.specs.Binding.{is_unknown, tables_in, tables_of, most_times_in, most_times, bound_term, bound_in, bound};

use crate::names::place;
use crate::tree::{RawBlock, RawExpr, RawStmt};
use morty_base::{List, NoMemory};
use sqlite_items::Boxed as Box;
use std::alloc::Global;
use txn_lang::{Block, Expr, Stmt};
use txn_text::number_value;

#[cycle(times)]
fn most_times_in(text: &[u8], stmt: &RawStmt) -> u64
    ensures { result ≡ most_times_in text.now (command stmt.now) }
{
    match stmt {
        RawStmt::If(_, a, b) => most_times(text, a).max(most_times(text, b)),
        RawStmt::Repeat(times, body) => number_value(text, *times).max(most_times(text, body)),
        _ => 0,
    }
}

/// The greatest repeat number in a block.
#[cycle(times)]
pub fn most_times(text: &[u8], block: &RawBlock) -> u64
    ensures { result ≡ most_times text.now (commands block.now) }
{
    let mut most = 0;
    for stmt in block.stmts.as_slice() {
        most = most.max(most_times_in(text, stmt));
    }
    most
}

// What an expression stands for, where its locals have these names.
fn bound_expr(alloc: Global, text: &[u8], names: &[List<u8>], e: &RawExpr) -> Result<Expr, NoMemory>
    requires { length names.now ≤ MOST_LOCALS }
    ensures { IfOk result (λ r. term_of r ≡ bound_term text.now names.now (term e.now)) }
{
    Ok(match e {
        RawExpr::Num(n) => Expr::Num(number_value(text, *n) as i64),
        RawExpr::Local(v) => Expr::Local(place(text, names, *v) as u16),
        RawExpr::Neg(a) => Expr::Neg(Box::new(alloc, bound_expr(alloc, text, names, a.get())?)?),
        RawExpr::Not(a) => Expr::Not(Box::new(alloc, bound_expr(alloc, text, names, a.get())?)?),
        RawExpr::Bin(op, operands) => {
            let (a, b) = operands.get();
            let bound = (
                bound_expr(alloc, text, names, a)?,
                bound_expr(alloc, text, names, b)?,
            );
            Expr::Bin(*op, Box::new(alloc, bound)?)
        }
    })
}

#[cycle(bodies)]
fn bound_stmt(
    alloc: Global,
    text: &[u8],
    tables: &[List<u8>],
    names: &[List<u8>],
    stmt: &RawStmt,
) -> Result<Stmt, NoMemory>
    requires few { length names.now ≤ MOST_LOCALS }
    requires numbered { length tables.now ≤ 65536 }
    requires known { find (is_unknown text.now tables.now) (tables_in (command stmt.now)) ≡ None }
    requires times { most_times_in text.now (command stmt.now) ≤ MOST_TIMES }
    ensures { IfOk result (λ r. command_of r ≡ bound_in text.now tables.now names.now (command stmt.now)) }
{
    Ok(match stmt {
        RawStmt::Let(v, e) => {
            let local = place(text, names, *v) as u16;
            Stmt::Let(local, bound_expr(alloc, text, names, e)?)
        }
        RawStmt::Read(v, t, index) => {
            let local = place(text, names, *v) as u16;
            let table = place(text, tables, *t) as u16;
            Stmt::Read(local, table, bound_expr(alloc, text, names, index)?)
        }
        RawStmt::Write(t, index, e) => {
            let table = place(text, tables, *t) as u16;
            let index = bound_expr(alloc, text, names, index)?;
            Stmt::Write(table, index, bound_expr(alloc, text, names, e)?)
        }
        RawStmt::Print(e) => Stmt::Print(bound_expr(alloc, text, names, e)?),
        RawStmt::If(e, a, b) => {
            let e = bound_expr(alloc, text, names, e)?;
            let a = bound_block(alloc, text, tables, names, a)?;
            let b = bound_block(alloc, text, tables, names, b)?;
            Stmt::If(e, a, b)
        }
        RawStmt::Repeat(times, body) => {
            let times = number_value(text, *times) as u32;
            Stmt::Repeat(times, bound_block(alloc, text, tables, names, body)?)
        }
        RawStmt::Abort => Stmt::Abort,
    })
}

/// What a block stands for, where its tables and locals have these names.
#[cycle(bodies)]
pub fn bound_block(
    alloc: Global,
    text: &[u8],
    tables: &[List<u8>],
    names: &[List<u8>],
    block: &RawBlock,
) -> Result<Block, NoMemory>
    requires few { length names.now ≤ MOST_LOCALS }
    requires numbered { length tables.now ≤ 65536 }
    requires known { find (is_unknown text.now tables.now) (tables_of (commands block.now)) ≡ None }
    requires times { most_times text.now (commands block.now) ≤ MOST_TIMES }
    ensures { IfOk result (λ r. commands_of r ≡ bound text.now tables.now names.now (commands block.now)) }
{
    let mut stmts = List::new(alloc);
    for stmt in block.stmts.as_slice() {
        stmts.push(bound_stmt(alloc, text, tables, names, stmt)?)?;
    }
    Ok(Block { stmts })
}
