ghost use Rattle.std.specs.Prelude.{◌≡◌, OnOk, map};
ghost use Rattle.txn_print.specs.Printer.{printed, with_line, lines_printed};
ghost use Rattle.script.specs.Canonical.{setting_line, node_pieces, version_pieces, pick_pieces, entry_pieces, plan_line};

use morty_base::{NoMemory, NodeId, Version};
use msg::Pick;
use net_core::{PlanItem, PlanWhat};
use txn_print::Printer;

fn print_node(out: &mut Printer, node: NodeId) -> Result<(), NoMemory>
    ensures { OnOk result (out.new ≡ printed out.old (node_pieces node)) }
{
    match node {
        NodeId::Client(n) => print_counted(out, b"client", u64::from(n)),
        NodeId::Replica(n) => print_counted(out, b"replica", u64::from(n)),
        NodeId::Warden(n) => print_counted(out, b"warden", u64::from(n)),
    }
}

/// A word with a number.
pub fn print_counted(out: &mut Printer, word: &[u8], n: u64) -> Result<(), NoMemory>
    ensures { OnOk result (out.new ≡ printed out.old (setting_line word.now n)) }
{
    out.word(word)?;
    out.number(n)
}

fn print_version(out: &mut Printer, v: Version) -> Result<(), NoMemory>
    ensures { OnOk result (out.new ≡ printed out.old (version_pieces v)) }
{
    out.number(v.ts)?;
    out.symbol(b".")?;
    out.number(u64::from(v.client))
}

/// A pick. No script says Idle: it is printed as nothing.
fn print_pick(out: &mut Printer, pick: Pick) -> Result<(), NoMemory>
    ensures { OnOk result (out.new ≡ printed out.old (pick_pieces pick)) }
{
    match pick {
        Pick::Idle => Ok(()),
        Pick::Deliver(n) => {
            out.word(b"deliver")?;
            out.number(n)
        }
        Pick::Go => out.word(b"go"),
        Pick::Hurry => out.word(b"hurry"),
        Pick::Recover(x) => {
            out.word(b"recover")?;
            print_version(out, x.ver)?;
            out.number(u64::from(x.eid))
        }
        Pick::Truncate(v) => {
            out.word(b"truncate")?;
            print_version(out, v)
        }
        Pick::Stop => out.word(b"stop"),
    }
}

/// What a plan item says in a list.
fn print_entry(out: &mut Printer, what: PlanWhat) -> Result<(), NoMemory>
    ensures { OnOk result (out.new ≡ printed out.old (entry_pieces what)) }
{
    match what {
        PlanWhat::At { now: _, pick } | PlanWhat::One(pick) => print_pick(out, pick),
        PlanWhat::Wait(n) => print_counted(out, b"wait", u64::from(n)),
        PlanWhat::Next(n) => print_counted(out, b"next", u64::from(n)),
        PlanWhat::Newest(n) => print_counted(out, b"newest", u64::from(n)),
    }
}

fn print_item(out: &mut Printer, item: PlanItem) -> Result<(), NoMemory>
    ensures { OnOk result (out.new ≡ with_line (printed out.old (plan_line item))) }
{
    if let PlanWhat::At { now, pick } = item.what {
        out.word(b"at")?;
        out.number(now)?;
        print_node(out, item.node)?;
        print_pick(out, pick)?;
    } else {
        out.word(b"list")?;
        print_node(out, item.node)?;
        out.symbol(b"{")?;
        print_entry(out, item.what)?;
        out.symbol(b"}")?;
    }
    out.end_line()
}

/// All plan items, each entry of a list as a list of its own.
pub fn print_plan(out: &mut Printer, items: &[PlanItem]) -> Result<(), NoMemory>
    ensures { OnOk result (out.new ≡ lines_printed out.old (map plan_line items.now)) }
{
    for item in items {
        print_item(out, *item)?;
    }
    Ok(())
}
