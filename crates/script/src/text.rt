ghost use Rattle.std.specs.Prelude.{◌≡◌, ◌∷◌, [], IfOk, OnOk, map};
ghost use Rattle.script.specs.Meaning.{named_of, said_by};
ghost use Rattle.txn_print.specs.Printer.{printed, with_line, lines_printed};
ghost use Rattle.script.specs.Canonical.{signed_pieces, setting_line, setting_lines, policy_line, table_line, first_line, program_line, net_line, canonical_script};
ghost use Rattle.script.specs.Sayable.{IsSetup};
ghost use Rattle.script.specs.Texts.{IsSetupOf};

use crate::client_text::print_clients;
use crate::plan_text::{print_counted, print_plan};
use crate::setup::{First, NamedProg, Net, Policy, Setup};
use morty_base::{List, NoMemory};
use std::alloc::Global;
use txn_print::{Printer, print_block, print_name};

/// A line of a word and a number.
fn print_setting(out: &mut Printer, word: &[u8], n: u64) -> Result<(), NoMemory>
    ensures { OnOk result (out.new ≡ with_line (printed out.old (setting_line word.now n))) }
{
    print_counted(out, word, n)?;
    out.end_line()
}

fn print_policy(out: &mut Printer, policy: Policy) -> Result<(), NoMemory>
    ensures { OnOk result (out.new ≡ with_line (printed out.old (policy_line policy))) }
{
    out.word(b"policy")?;
    match policy {
        Policy::Rewind => out.word(b"rewind")?,
        Policy::Abort => out.word(b"abort")?,
    }
    out.end_line()
}

fn print_settings(out: &mut Printer, setup: &Setup) -> Result<(), NoMemory>
    ensures { OnOk result (out.new ≡ lines_printed out.old (setting_lines (said_by setup.now))) }
{
    print_setting(out, b"morty", 1)?;
    print_setting(out, b"replicas", u64::from(setup.replicas))?;
    print_setting(out, b"wardens", u64::from(setup.wardens))?;
    print_setting(out, b"tries", u64::from(setup.tries))?;
    print_setting(out, b"execs", u64::from(setup.execs))?;
    print_setting(out, b"gap", setup.gap)?;
    print_setting(out, b"turns", u64::from(setup.turns))?;
    print_policy(out, setup.policy)
}

fn print_tables(out: &mut Printer, tables: &[List<u8>]) -> Result<(), NoMemory>
    ensures { OnOk result (out.new ≡ lines_printed out.old (map table_line tables.now)) }
{
    for table in tables {
        out.word(b"table")?;
        out.name(table.as_slice())?;
        out.end_line()?;
    }
    Ok(())
}

fn print_signed(out: &mut Printer, n: i64) -> Result<(), NoMemory>
    ensures { OnOk result (out.new ≡ printed out.old (signed_pieces n)) }
{
    if n < 0 {
        out.sign()?;
    }
    out.number(n.unsigned_abs())
}

fn print_first(out: &mut Printer, tables: &[List<u8>], first: First) -> Result<(), NoMemory>
    ensures { OnOk result (out.new ≡ with_line (printed out.old (first_line tables.now first))) }
{
    out.word(b"first")?;
    print_name(out, tables, first.key.table)?;
    out.symbol(b"[")?;
    print_signed(out, first.key.index)?;
    out.symbol(b"]")?;
    print_signed(out, first.value)?;
    out.end_line()
}

fn print_firsts(out: &mut Printer, tables: &[List<u8>], firsts: &[First]) -> Result<(), NoMemory>
    ensures { OnOk result (out.new ≡ lines_printed out.old (map (first_line tables.now) firsts.now)) }
{
    for first in firsts {
        print_first(out, tables, *first)?;
    }
    Ok(())
}

fn print_programs(
    out: &mut Printer,
    tables: &[List<u8>],
    progs: &[NamedProg],
) -> Result<(), NoMemory>
    ensures { OnOk result (out.new ≡ lines_printed out.old (map (program_line tables.now) (map named_of progs.now))) }
{
    for p in progs {
        out.word(b"program")?;
        out.name(p.name.as_slice())?;
        print_block(out, &p.prog, tables)?;
        out.end_line()?;
    }
    Ok(())
}

fn print_net(out: &mut Printer, net: Net) -> Result<(), NoMemory>
    ensures { OnOk result (out.new ≡ printed out.old (net_line net)) }
{
    out.word(b"net")?;
    match net {
        Net::Fair => out.word(b"fair"),
        Net::Listed => out.word(b"listed"),
        Net::Seeded {
            seed,
            late,
            repeat,
            hurry,
        } => {
            print_counted(out, b"seeded", seed)?;
            print_counted(out, b"late", u64::from(late))?;
            print_counted(out, b"repeat", u64::from(repeat))?;
            print_counted(out, b"hurry", u64::from(hurry))
        }
    }
}

/// The canonical text of a setup, which says the setup where some text does. What has no name is printed as nothing.
pub fn script_text(alloc: Global, setup: &Setup) -> Result<List<u8>, NoMemory>
    ensures text { IfOk result (λ text. text ≡ canonical_script setup.now) }
    ensures says { IsSetup setup.now → IfOk result (λ text. IsSetupOf text setup.now) }
{
    let mut out = Printer::new(alloc);
    let tables = setup.tables.as_slice();
    print_settings(&mut out, setup)?;
    print_tables(&mut out, tables)?;
    print_firsts(&mut out, tables, setup.firsts.as_slice())?;
    print_programs(&mut out, tables, setup.progs.as_slice())?;
    print_clients(&mut out, setup.progs.as_slice(), setup.clients.as_slice())?;
    print_net(&mut out, setup.net)?;
    out.end_line()?;
    print_plan(&mut out, setup.plan.as_slice())?;
    out.word(b"end")?;
    out.end_line()?;
    Ok(out.into_text())
}
