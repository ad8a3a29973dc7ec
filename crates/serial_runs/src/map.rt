ghost use Rattle.std.specs.Prelude.{◌≡◌, [], ◌∷◌, OnOk, OnErr, IfOk};
ghost use Rattle.txn_lang.specs.Keys.{entry, held, after_writes, HoldTheSame};

use crate::entry::Entry;
use morty_base::{Key, NoMemory};
use std::alloc::Global;
use std::collections::BTreeMap;
use std::marker::Model;

/// A map of the store. A key that was given no value holds 0.
#[derive(Drop)]
pub struct Map {
    values: BTreeMap<Key, i64>,
}

impl Model for Map {
    ghost use Rattle.std.specs.Prelude.{List};
    ghost use Rattle.txn_lang.specs.Keys.{Entry as EntryValue};
    ghost use Rattle.serial_runs.specs.Map.{entries_of};
    ghost use Rattle.std.specs.Coded.{codes};

    ghost Value = { List EntryValue };

    ghost coded = { Prim.hlevel codes };

    ghost view = { λ m. entries_of m.values.entries };
}

impl Map {
    /// The map in which every key holds 0.
    pub fn new(alloc: Global) -> Map
        ensures { result ≡ [] }
    {
        Map {
            values: BTreeMap::new(alloc),
        }
    }

    /// The value at a key.
    pub fn get(&self, key: Key) -> i64
        ensures { result ≡ held self.now key }
    {
        self.values.get(&key).copied().unwrap_or(0)
    }

    /// Gives a key its value.
    pub fn insert(&mut self, key: Key, value: i64) -> Result<(), NoMemory>
        ensures ok { OnOk result (HoldTheSame self.new (entry key value ∷ self.old)) }
        ensures err { OnErr result (self.new ≡ self.old) }
    {
        self.values.insert(key, value)?;
        Ok(())
    }

    /// The map after these writes, the first of them made first.
    pub fn with_writes(self, writes: &[Entry]) -> Result<Map, NoMemory>
        ensures { IfOk result (λ m. HoldTheSame m (after_writes writes.now self)) }
    {
        let mut map = self;
        for write in writes {
            map.insert(write.key, write.value)?;
        }
        Ok(map)
    }
}
