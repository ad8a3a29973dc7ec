ghost use Rattle.std.specs.Prelude.{◌≡◌, IfOk, map};
ghost use Rattle.serial_rows.specs.Rows.{item_of, IsSerial};
ghost use Rattle.script.specs.Sayable.{IsSetup};
ghost use Rattle.serial_ref.specs.SerialItem.{IsNamed, AreNamed, IsRising};
ghost use Rattle.serial_ref.specs.Serial.{first_entry, prog_named, items_of, firsts_of};

use crate::item::SerialItem;
use crate::named::txn_named;
use morty_base::{List, NoMemory};
use report::Rows;
use script::{First, Setup};
use serial_rows::{Versioned, serial_rows};
use serial_runs::Entry;
use std::alloc::Global;
use txn_lang::Prog;

// The first values as entries.
fn entries(alloc: Global, firsts: &[First]) -> Result<List<Entry>, NoMemory>
    ensures { IfOk result (λ es. es ≡ map first_entry firsts.now) }
{
    let mut entries = List::new(alloc);
    for first in firsts {
        entries.push(Entry {
            key: first.key,
            value: first.value,
        })?;
    }
    Ok(entries)
}

// The program of the transaction that an item names.
fn prog_named<'a>(setup: &'a Setup, item: &SerialItem) -> &'a Prog
    requires setup { IsSetup setup.now }
    requires named { IsNamed setup.now item.now }
    ensures { result.now ≡ prog_named setup.now item.now }
{
    let Some(txn) = txn_named(setup, item) else {
        unreachable!();
    };
    let Some(named) = setup.progs.get(usize::from(txn.prog)) else {
        unreachable!();
    };
    &named.prog
}

// The items with the programs that they name.
fn versioned<'a>(
    alloc: Global,
    setup: &'a Setup,
    items: &[SerialItem],
) -> Result<List<Versioned<'a>>, NoMemory>
    requires setup { IsSetup setup.now }
    requires named { AreNamed setup.now items.now }
    ensures { IfOk result (λ vs. map item_of vs ≡ items_of setup.now items.now) }
{
    let mut versioned = List::new(alloc);
    for item in items {
        versioned.push(Versioned {
            ver: item.ver,
            txn: item.txn,
            prog: prog_named(setup, item),
        })?;
    }
    Ok(versioned)
}

/// The rows of the transactions that items name, run one after another by rising version on the setup's first values.
pub fn serial(alloc: Global, setup: &Setup, items: &[SerialItem]) -> Result<Rows, NoMemory>
    requires setup { IsSetup setup.now }
    requires named { AreNamed setup.now items.now }
    requires rising { IsRising items.now }
    ensures { IfOk result (IsSerial (firsts_of setup.now) (items_of setup.now items.now)) }
{
    let firsts = entries(alloc, setup.firsts.as_slice())?;
    let versioned = versioned(alloc, setup, items)?;
    serial_rows(alloc, firsts.as_slice(), versioned.as_slice())
}
