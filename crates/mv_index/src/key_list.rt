//! Keys in rising order, each once.

ghost use Rattle.std.specs.Prelude.{◌≡◌, ◌<◌, ◌≤◌, ◌||◌, [], length, slice_get, OnOk};
ghost use Rattle.std.specs.List.{list_any};
ghost use Rattle.morty_base.specs.declared.names.Key.{Key as KeyValue};
ghost use Rattle.morty_base.specs.Names.{same_key, key_before};
ghost use Rattle.mv_index.specs.KeyList.{AreRising, is_key};
ghost use Rattle.mv_index.specs.ReaderList.{prefix};

use morty_base::{Key, NoMemory, is_key_before, is_same_key};
use std::alloc::Global;

/// Keys in rising order.
#[derive(Debug, Drop)]
pub struct KeyList {
    pub(crate) keys: Vec<Key>,
}

/// How many keys stand before this one.
fn place(keys: &[Key], key: Key) -> usize
    ensures within { result ≤ length keys.now }
    ensures place { AreRising keys.now → result ≡ prefix (λ l. key_before l key) keys.now }
{
    keys.partition_point(|other| is_key_before(*other, key))
}

fn stands_at(keys: &[Key], at: usize, key: Key) -> bool
    ensures { result ≡ is_key (slice_get keys.now at) key }
{
    match keys.get(at) {
        None => false,
        Some(other) => is_same_key(key, *other),
    }
}

impl KeyList {
    pub fn new(alloc: Global) -> KeyList
        ensures { result.keys.items ≡ [] }
    {
        KeyList {
            keys: Vec::new(alloc),
        }
    }

    pub fn len(&self) -> usize
        ensures { result ≡ length self.now.keys.items }
    {
        self.keys.len()
    }

    pub fn as_slice(&self) -> &[Key]
        ensures { result.now ≡ self.now.keys.items }
    {
        self.keys.as_slice()
    }

    pub fn get(&self, i: usize) -> Key
        requires { i < length self.now.keys.items }
        ensures { slice_get self.now.keys.items i ≡ Some result }
    {
        self.keys[i]
    }

    pub fn clear(&mut self)
        ensures { self.new.keys.items ≡ [] }
    {
        self.keys.clear();
    }

    pub fn has(&self, key: Key) -> bool
        ensures { AreRising self.now.keys.items → result ≡ list_any (same_key key) self.now.keys.items }
    {
        let at = place(self.keys.as_slice(), key);
        stands_at(self.keys.as_slice(), at, key)
    }

    /// The key is listed from now on.
    pub fn add(&mut self, key: Key) -> Result<(), NoMemory>
        ensures rising { AreRising self.old.keys.items → OnOk result (AreRising self.new.keys.items) }
        ensures has { AreRising self.old.keys.items → OnOk result ((k : KeyValue) → list_any (same_key k) self.new.keys.items ≡ (same_key k key || list_any (same_key k) self.old.keys.items)) }
    {
        let at = place(self.keys.as_slice(), key);
        if stands_at(self.keys.as_slice(), at, key) {
            return Ok(());
        }
        self.keys.insert(at, key)?;
        Ok(())
    }
}
