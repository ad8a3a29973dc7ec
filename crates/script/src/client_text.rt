ghost use Rattle.std.specs.Prelude.{◌≡◌, OnOk};
ghost use Rattle.txn_print.specs.Printer.{with_piece, printed, with_line, lines_printed};
ghost use Rattle.txn_print.specs.Canonical.{name_at};
ghost use Rattle.script.specs.Canonical.{txn_pieces, first_txns, client_line, client_lines, program_names};

use crate::setup::{NamedProg, Txn};
use morty_base::{List, NoMemory};
use txn_print::Printer;

/// The name of a program. What has no name is printed as nothing.
fn print_program_name(out: &mut Printer, progs: &[NamedProg], at: u16) -> Result<(), NoMemory>
    ensures { OnOk result (out.new ≡ with_piece out.old (name_at (program_names progs.now) at)) }
{
    match progs.get(usize::from(at)) {
        Some(p) => out.name(p.name.as_slice()),
        None => out.name(b""),
    }
}

fn print_txn(out: &mut Printer, progs: &[NamedProg], txn: Txn) -> Result<(), NoMemory>
    ensures { OnOk result (out.new ≡ printed out.old (txn_pieces (program_names progs.now) txn)) }
{
    print_program_name(out, progs, txn.prog)?;
    out.word(b"at")?;
    out.number(txn.at)
}

/// Transactions, with a semicolon between two.
fn print_txns(out: &mut Printer, progs: &[NamedProg], txns: &[Txn]) -> Result<(), NoMemory>
    ensures { OnOk result (out.new ≡ printed out.old (first_txns (program_names progs.now) txns.now)) }
{
    let Some((first, rest)) = txns.split_first() else {
        return Ok(());
    };
    print_txn(out, progs, *first)?;
    for txn in rest {
        out.symbol(b";")?;
        print_txn(out, progs, *txn)?;
    }
    Ok(())
}

fn print_client(
    out: &mut Printer,
    progs: &[NamedProg],
    number: u64,
    txns: &[Txn],
) -> Result<(), NoMemory>
    ensures { OnOk result (out.new ≡ with_line (printed out.old (client_line (program_names progs.now) number txns.now))) }
{
    out.word(b"client")?;
    out.number(number)?;
    out.symbol(b"{")?;
    print_txns(out, progs, txns)?;
    out.symbol(b"}")?;
    out.end_line()
}

/// All clients, counted from 1.
pub fn print_clients(
    out: &mut Printer,
    progs: &[NamedProg],
    clients: &[List<Txn>],
) -> Result<(), NoMemory>
    ensures { OnOk result (out.new ≡ lines_printed out.old (client_lines (program_names progs.now) 1 clients.now)) }
{
    for (i, txns) in clients.iter().enumerate() {
        print_client(out, progs, i as u64 + 1, txns.as_slice())?;
    }
    Ok(())
}
