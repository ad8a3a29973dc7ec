ghost use Rattle.std.specs.Prelude.{◌↔◌, IsTrue, IfOk};
ghost use Rattle.script.specs.declared.setup.Setup.{Setup as SetupValue};
ghost use Rattle.serial_ref.specs.SerialItem.{AreNamed, DifferInVersion, IsInOrder, IsRising};

use crate::item::SerialItem;
use morty_base::{List, NoMemory, is_before};

/// The items by rising version. Just where their versions differ each is earlier than all after it.
pub fn in_order(items: List<SerialItem>) -> Result<List<SerialItem>, NoMemory>
    ensures order { IfOk result (IsInOrder items) }
    ensures rising { IfOk result (λ sorted. IsRising sorted ↔ DifferInVersion items) }
    ensures named { (s : SetupValue) → AreNamed s items → IfOk result (AreNamed s) }
{
    let mut items = items.into_vec();
    items.sort()?;
    Ok(List::from_vec(items))
}

/// Whether the version of each item is earlier than that of each item after it.
pub fn is_rising(items: &[SerialItem]) -> bool
    ensures { IsTrue result ↔ IsRising items.now }
{
    for i in 1..items.len() {
        if !is_before(items[i - 1].ver, items[i].ver) {
            return false;
        }
    }
    true
}
