ghost use Rattle.std.specs.Prelude.{◌≡◌, ◌≤◌, [], ◌∷◌, ◌++◌, length, None, IfOk};
ghost use Rattle.txn_lang.specs.Tree.{commands as commands_of};
ghost use Rattle.txn_parse.specs.Tree.{commands};
ghost use Rattle.txn_parse.specs.Binding.{IsParsed, FaultIs, first_failing, table_checks, local_checks, limit_check, block_checks, names_of, bound_body};

use crate::bodies::{bound_block, most_times};
use crate::names::{take_locals, unknown_table};
use crate::tree::RawProg;
use morty_base::List;
use std::alloc::Global;
use txn_lang::{MOST_LOCALS, MOST_TIMES, Prog, ProgFault, make_prog};
use txn_text::{FaultKind, TextFault};

/// Checks that each table of a block is one of these. The fault is that of the first in text order that is not.
pub fn check_tables(text: &[u8], raw: &RawProg, tables: &[List<u8>]) -> Result<(), TextFault>
    ensures { FaultIs (table_checks text.now tables.now (commands raw.now.body)) result }
{
    match unknown_table(text, tables, &raw.body) {
        Some(table) => Err(TextFault::At {
            line: table.line,
            kind: FaultKind::UnknownTable,
        }),
        None => Ok(()),
    }
}

/// The program that a block stands for, whose tables are all among these. The fault is that of the first check that
/// fails: the block's locals in text order, and then the limits of programs, in this line.
pub fn bind_prog(
    alloc: Global,
    text: &[u8],
    raw: &RawProg,
    tables: &[List<u8>],
    line: u32,
) -> Result<Prog, TextFault>
    requires parsed { IsParsed text.now (commands raw.now.body) }
    requires numbered { length tables.now ≤ 65536 }
    requires known { first_failing (table_checks text.now tables.now (commands raw.now.body)) ≡ None }
    ensures names { IfOk result (λ p. p.names ≡ names_of text.now (commands raw.now.body)) }
    ensures body { IfOk result (λ p. commands_of p.body ≡ bound_body text.now tables.now (commands raw.now.body)) }
    ensures fault { FaultIs (local_checks text.now [] (commands raw.now.body) ++ limit_check text.now tables.now (commands raw.now.body) line ∷ []) result }
{
    let mut names = List::new(alloc);
    take_locals(alloc, text, &mut names, &raw.body)?;
    let limit = TextFault::At {
        line,
        kind: FaultKind::ProgramLimit,
    };
    if names.len() > MOST_LOCALS || most_times(text, &raw.body) > u64::from(MOST_TIMES) {
        return Err(limit);
    }
    let body = bound_block(alloc, text, tables, names.as_slice(), &raw.body)?;
    match make_prog(names, body) {
        Ok(prog) => Ok(prog),
        Err(ProgFault::Limit) => Err(limit),
        Err(ProgFault::NoMemory) => Err(TextFault::NoMemory),
    }
}

/// The program that a block stands for, where these are the tables. The fault is that of the first check that fails: the
/// block's tables in text order, then its locals, and then the limits of programs, in the line of the first brace.
pub fn resolve_prog(
    alloc: Global,
    text: &[u8],
    raw: &RawProg,
    tables: &[List<u8>],
) -> Result<Prog, TextFault>
    requires parsed { IsParsed text.now (commands raw.now.body) }
    requires numbered { length tables.now ≤ 65536 }
    ensures names { IfOk result (λ p. p.names ≡ names_of text.now (commands raw.now.body)) }
    ensures body { IfOk result (λ p. commands_of p.body ≡ bound_body text.now tables.now (commands raw.now.body)) }
    ensures fault { FaultIs (block_checks text.now tables.now (commands raw.now.body) raw.now.brace.line) result }
{
    check_tables(text, raw, tables)?;
    bind_prog(alloc, text, raw, tables, raw.brace.line)
}
