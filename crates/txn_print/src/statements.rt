ghost use Rattle.std.specs.Prelude.{◌≡◌, OnOk};
ghost use Rattle.txn_lang.specs.Tree.{command, commands, commands_of};
ghost use Rattle.txn_print.specs.Printer.{printed};
ghost use Rattle.txn_print.specs.Canonical.{command_pieces, block_pieces, else_pieces, first_pieces};

use crate::Printer;
use crate::expressions::{print_expression, print_index, print_name};
use morty_base::{List, NoMemory};
use txn_lang::{Block, Stmt};

/// A statement, with its blocks.
#[cycle(statements)]
#[tactic(auto, using(crate::proofs::PrinterLemmas::printed_append))]
fn print_statement(
    out: &mut Printer,
    tables: &[List<u8>],
    locals: &[List<u8>],
    stmt: &Stmt,
) -> Result<(), NoMemory>
    ensures { OnOk result (out.new ≡ printed out.old (command_pieces tables.now locals.now (command stmt.now))) }
{
    match stmt {
        Stmt::Let(v, e) => {
            out.word(b"let")?;
            print_name(out, locals, *v)?;
            out.symbol(b"=")?;
            print_expression(out, locals, e)
        }
        Stmt::Read(v, table, index) => {
            out.word(b"read")?;
            print_name(out, locals, *v)?;
            print_name(out, tables, *table)?;
            print_index(out, locals, index)
        }
        Stmt::Write(table, index, e) => {
            out.word(b"write")?;
            print_name(out, tables, *table)?;
            print_index(out, locals, index)?;
            print_expression(out, locals, e)
        }
        Stmt::Print(e) => {
            out.word(b"print")?;
            print_expression(out, locals, e)
        }
        Stmt::If(e, a, b) => {
            out.word(b"if")?;
            print_expression(out, locals, e)?;
            print_block(out, tables, locals, a)?;
            print_else(out, tables, locals, b)
        }
        Stmt::Repeat(times, body) => {
            out.word(b"repeat")?;
            out.number(u64::from(*times))?;
            print_block(out, tables, locals, body)
        }
        Stmt::Abort => out.word(b"abort"),
    }
}

/// A block in its braces, with a semicolon between two statements.
#[cycle(statements)]
#[tactic(auto, using(crate::proofs::PrinterLemmas::printed_append))]
pub fn print_block(
    out: &mut Printer,
    tables: &[List<u8>],
    locals: &[List<u8>],
    block: &Block,
) -> Result<(), NoMemory>
    ensures { OnOk result (out.new ≡ printed out.old (block_pieces tables.now locals.now (commands block.now))) }
{
    out.symbol(b"{")?;
    for (i, stmt) in block.stmts.as_slice().iter().enumerate() {
        if i > 0 {
            out.symbol(b";")?;
        }
        print_statement(out, tables, locals, stmt)?;
    }
    out.symbol(b"}")
}

// An else block is printed where it has statements.
#[cycle(statements)]
#[tactic(auto, using(crate::proofs::PrinterLemmas::printed_append))]
fn print_else(
    out: &mut Printer,
    tables: &[List<u8>],
    locals: &[List<u8>],
    block: &Block,
) -> Result<(), NoMemory>
    ensures { OnOk result (out.new ≡ printed out.old (else_pieces tables.now locals.now (commands block.now))) }
{
    if block.stmts.is_empty() {
        return Ok(());
    }
    out.word(b"else")?;
    print_block(out, tables, locals, block)
}
