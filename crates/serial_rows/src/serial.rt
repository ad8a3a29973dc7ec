ghost use Rattle.std.specs.Prelude.{IfOk, map};
ghost use Rattle.serial_rows.specs.Rows.{IsSerial, item_of};

use crate::commits::commit_row;
use crate::item::Versioned;
use crate::table::Table;
use morty_base::{List, NoMemory};
use report::Rows;
use serial_runs::Entry;
use std::alloc::Global;

/// The rows of programs that run one after another in this order, on first values. The first of the values that are listed
/// for a key is its first value. Nothing is left, and there are no events.
pub fn serial_rows(
    alloc: Global,
    firsts: &[Entry],
    items: &[Versioned<'_>],
) -> Result<Rows, NoMemory>
    ensures { IfOk result (IsSerial firsts.now (map item_of items.now)) }
{
    let mut table = Table::new(alloc, firsts)?;
    let mut commits = List::new(alloc);
    for item in items {
        let (run, next) = table.run(alloc, item.prog)?;
        table = next;
        commits.push(commit_row(alloc, item, run)?)?;
    }
    Ok(Rows {
        commits,
        left: List::new(alloc),
        values: table.rows(alloc)?,
        events: 0,
    })
}
