ghost use Rattle.std.specs.Prelude.{◌≡◌, ◌↔◌, IsTrue};
ghost use Rattle.serial_ref.specs.SerialItem.{txn_named, IsNamed, AreNamed};

use crate::item::SerialItem;
use script::{Setup, Txn};

/// The transaction of the item's number of its client, if there is one.
pub(crate) fn txn_named(setup: &Setup, item: &SerialItem) -> Option<Txn>
    ensures { result ≡ txn_named setup.now item.now }
{
    let client = item.client.checked_sub(1)?;
    let number = item.txn.checked_sub(1)?;
    let txns = setup.clients.get(client as usize)?;
    txns.get(number as usize).copied()
}

/// Whether an item names a transaction of the setup.
pub fn is_named(setup: &Setup, item: &SerialItem) -> bool
    ensures { IsTrue result ↔ IsNamed setup.now item.now }
{
    item.client == item.ver.client && txn_named(setup, item).is_some()
}

/// Whether each item names a transaction of the setup.
pub fn are_named(setup: &Setup, items: &[SerialItem]) -> bool
    ensures { IsTrue result ↔ AreNamed setup.now items.now }
{
    items.iter().all(|item| is_named(setup, item))
}
