ghost use Rattle.std.specs.Prelude.{◌≡◌, ◌≤◌, ◌++◌, length, All, IfOk, OnOk};
ghost use Rattle.script.specs.declared.limits.TheConstants.{MOST_TRANSACTIONS, LATEST_START};
ghost use Rattle.script.specs.Sayable.{IsSetup};
ghost use Rattle.serial_ref.specs.SerialItem.{AreNamed, IsRising};
ghost use Rattle.serial_ref.specs.FirstTries.{client_tries, all_tries, IsFirstTries};

use crate::item::SerialItem;
use crate::order::in_order;
use morty_base::{List, NoMemory, Version};
use script::{Setup, Txn};
use std::alloc::Global;

// Adds the transactions of a client.
fn add_tries(items: &mut List<SerialItem>, client: u32, txns: &[Txn]) -> Result<(), NoMemory>
    requires few { length txns.now ≤ MOST_TRANSACTIONS }
    requires starts { All (λ t. t.at ≤ LATEST_START) txns.now }
    ensures { OnOk result (items.new ≡ items.old ++ client_tries client 1 0 txns.now) }
{
    let mut number = 0;
    let mut ts = 0;
    for txn in txns {
        number += 1;
        ts = txn.at.max(ts + 1);
        items.push(SerialItem {
            ver: Version { ts, client },
            client,
            txn: number,
        })?;
    }
    Ok(())
}

// The transactions of all clients, one client after another.
fn all_tries(alloc: Global, setup: &Setup) -> Result<List<SerialItem>, NoMemory>
    requires { IsSetup setup.now }
    ensures { IfOk result (λ items. items ≡ all_tries 1 (setup.now).clients) }
{
    let mut items = List::new(alloc);
    let mut client = 0;
    for txns in setup.clients.as_slice() {
        client += 1;
        add_tries(&mut items, client, txns.as_slice())?;
    }
    Ok(items)
}

/// Every transaction of the setup at the version that holds if each takes one try, by rising version. The rule is that by
/// which clients begin their attempts, at the first try: no earlier than the transaction's start, and later than the
/// transaction before it.
pub fn first_tries(alloc: Global, setup: &Setup) -> Result<List<SerialItem>, NoMemory>
    requires { IsSetup setup.now }
    ensures tries { IfOk result (IsFirstTries setup.now) }
    ensures named { IfOk result (AreNamed setup.now) }
    ensures rising { IfOk result IsRising }
{
    in_order(all_tries(alloc, setup)?)
}
