//! The values of keys, in an ordered map: first values, and then what is written, the last write of a key in its place.

ghost use Rattle.std.specs.Prelude.{◌≡◌, [], ◌∷◌, ◌++◌, map, IfOk, OnOk, List as ListValue};
ghost use Rattle.std.specs.List.{list_any};
ghost use Rattle.std.specs.Option.{is_some};
ghost use Rattle.morty_base.specs.declared.names.Key.{Key as KeyValue};
ghost use Rattle.morty_base.specs.Names.{same_key};
ghost use Rattle.protocol.specs.declared.First2.{First2 as FirstValue};
ghost use Rattle.protocol_plans.specs.SerialOutcome.{first_map, entry_written};
ghost use Rattle.txn_lang.specs.Keys.{Entry, found, after_writes};
ghost use Rattle.world_rows.specs.Rows.{sorted_keys};
ghost use Rattle.world_rows.specs.Values.{value_at, value_row};

use morty_base::{Key, List, NoMemory};
use msg::Write;
use protocol::First2;
use report::ValueRow;
use std::alloc::Global;
use std::collections::BTreeMap;

/// The values of keys.
#[derive(Drop)]
pub(crate) struct ValueTable {
    values: BTreeMap<Key, i64>,
}

impl ValueTable {
    ghost use Rattle.world_rows.specs.Values.{HasValues};

    /// The first of the values that are listed for a key is its first value.
    pub(crate) fn new(alloc: Global, firsts: &[First2]) -> Result<ValueTable, NoMemory>
        ensures { IfOk result (HasValues (first_map firsts.now)) }
    {
        let mut values = ValueTable {
            values: BTreeMap::new(alloc),
        };
        for first in firsts {
            values.add_first(*first)?;
        }
        Ok(values)
    }

    // A key that has a value keeps it.
    fn add_first(&mut self, first: First2) -> Result<(), NoMemory>
        ensures { (firsts : ListValue FirstValue) → HasValues (first_map firsts) self.old → OnOk result (HasValues (first_map (firsts ++ first ∷ [])) self.new) }
    {
        if !self.values.contains_key(&first.key) {
            self.values.insert(first.key, first.value)?;
        }
        Ok(())
    }

    /// A key takes the value that is written.
    fn set(&mut self, write: Write) -> Result<(), NoMemory>
        ensures { (m : ListValue Entry) → HasValues m self.old → OnOk result (HasValues (entry_written write ∷ m) self.new) }
    {
        self.values.insert(write.key, write.value)?;
        Ok(())
    }

    /// The writes are made, one after another.
    pub(crate) fn write(&mut self, writes: &[Write]) -> Result<(), NoMemory>
        ensures { (m : ListValue Entry) → HasValues m self.old → OnOk result (HasValues (after_writes (map entry_written writes.now) m) self.new) }
    {
        for write in writes {
            self.set(*write)?;
        }
        Ok(())
    }

    /// The values by rising key.
    pub(crate) fn rows(&self, alloc: Global) -> Result<List<ValueRow>, NoMemory>
        ensures { (m : ListValue Entry) (ks : ListValue KeyValue) → HasValues m self.now → ((k : KeyValue) → is_some (found m k) ≡ list_any (same_key k) ks) → IfOk result (λ l. l ≡ map (value_row m) (sorted_keys ks)) }
    {
        let mut rows = List::new(alloc);
        for (key, value) in self.values.iter() {
            rows.push(ValueRow {
                key: *key,
                value: *value,
            })?;
        }
        Ok(rows)
    }
}
