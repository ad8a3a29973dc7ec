//! The first values of keys, in an ordered map: sure, and below every version.

ghost use Rattle.std.specs.Prelude.{◌≡◌, IfOk, OnOk};
ghost use Rattle.std.specs.Option.{option_or};
ghost use Rattle.std.specs.Bool.{then_some};
ghost use Rattle.morty_base.specs.declared.names.Key.{Key as KeyValue};
ghost use Rattle.morty_base.specs.Names.{same_key};
ghost use Rattle.protocol.specs.Replica.Held.{first_value as first_value_of, first_held};
ghost use Rattle.mv_index.specs.FirstValues.{value_at, first_of};

use morty_base::{Key, NoMemory, Version, Wid};
use protocol::{First2, Held};
use std::alloc::Global;
use std::collections::BTreeMap;

/// The first values of keys.
#[derive(Debug, Drop)]
pub struct FirstValues {
    values: BTreeMap<Key, i64>,
}

fn first_value(value: i64) -> Held
    ensures { result ≡ first_value_of value }
{
    let ver = Version { ts: 0, client: 0 };
    let wid = Wid {
        ver,
        eid: 0,
        seq: 0,
    };
    Held {
        wid,
        value,
        sure: true,
    }
}

impl FirstValues {
    /// The first of the values that are listed for a key is its first value.
    pub(crate) fn new(alloc: Global, firsts: &[First2]) -> Result<FirstValues, NoMemory>
        ensures { IfOk result (λ t. (k : KeyValue) → first_of (value_at t k) ≡ first_held firsts.now k) }
    {
        let mut values = FirstValues {
            values: BTreeMap::new(alloc),
        };
        for first in firsts {
            values.add(*first)?;
        }
        Ok(values)
    }

    /// A key that has a value keeps it.
    fn add(&mut self, first: First2) -> Result<(), NoMemory>
        ensures { OnOk result ((k : KeyValue) → value_at self.new k ≡ option_or (value_at self.old k) (then_some (same_key k first.key) first.value)) }
    {
        if !self.values.contains_key(&first.key) {
            self.values.insert(first.key, first.value)?;
        }
        Ok(())
    }

    /// The first value of a key, or 0.
    pub(crate) fn held(&self, key: Key) -> Held
        ensures { result ≡ first_of (value_at self.now key) }
    {
        match self.values.get(&key) {
            None => first_value(0),
            Some(value) => first_value(*value),
        }
    }
}
