ghost use Rattle.std.specs.Prelude.{◌≡◌, IfOk, OnOk};
ghost use Rattle.txn_print.specs.Printer.{printed};
ghost use Rattle.txn_print.specs.Canonical.{program_pieces, canonical};

use crate::Printer;
use crate::statements::print_block as print_statements;
use morty_base::{List, NoMemory};
use std::alloc::Global;
use txn_lang::Prog;

/// Prints a program's block. A table or a local without a name is printed as nothing.
pub fn print_block(out: &mut Printer, p: &Prog, tables: &[List<u8>]) -> Result<(), NoMemory>
    ensures { OnOk result (out.new ≡ printed out.old (program_pieces tables.now p.now)) }
{
    print_statements(out, tables, p.names(), p.body())
}

/// The canonical text of a program's block. A table without a name is printed as nothing.
pub fn prog_text(alloc: Global, p: &Prog, tables: &[List<u8>]) -> Result<List<u8>, NoMemory>
    ensures { IfOk result (λ text. text ≡ canonical tables.now p.now) }
{
    let mut out = Printer::new(alloc);
    print_block(&mut out, p, tables)?;
    Ok(out.into_text())
}
