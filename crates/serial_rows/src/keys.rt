ghost use Rattle.std.specs.Prelude.{◌∷◌, OnOk, List as ListValue};
ghost use Rattle.txn_lang.specs.Keys.{Entry as EntryValue, after_writes};
ghost use Rattle.serial_rows.specs.Keys.{AreKeys};

use morty_base::{Key, NoMemory};
use serial_runs::Entry;
use std::collections::BTreeSet;

/// The key of one more entry.
pub(crate) fn add_key(keys: &mut BTreeSet<Key>, entry: Entry) -> Result<(), NoMemory>
    ensures { (m : ListValue EntryValue) → AreKeys m keys.old → OnOk result (AreKeys (entry ∷ m) keys.new) }
{
    keys.insert(entry.key)?;
    Ok(())
}

/// The keys of these writes.
pub(crate) fn add_keys(keys: &mut BTreeSet<Key>, writes: &[Entry]) -> Result<(), NoMemory>
    ensures { (m : ListValue EntryValue) → AreKeys m keys.old → OnOk result (AreKeys (after_writes writes.now m) keys.new) }
{
    for write in writes {
        add_key(keys, *write)?;
    }
    Ok(())
}
