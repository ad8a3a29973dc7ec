ghost use Rattle.std.specs.Prelude.{◌≡◌, [], ◌∷◌, OnOk, OnErr};
ghost use Rattle.txn_lang.specs.Keys.{found};

use crate::entry::Entry;
use morty_base::{Key, List, NoMemory};
use std::alloc::Global;
use std::marker::Model;

/// What an execution knows of keys, its own writes and its reads. The last entry of a key counts; the limits of
/// programs keep the entries few.
#[derive(Debug, Drop)]
pub struct Known {
    entries: List<Entry>,
}

impl Model for Known {
    ghost use Rattle.std.specs.Prelude.{List, reverse};
    ghost use Rattle.txn_lang.specs.Keys.{Entry as EntryValue};
    ghost use Rattle.std.specs.Coded.{codes};

    ghost Value = { List EntryValue };

    ghost coded = { Prim.hlevel codes };

    ghost view = { λ k. reverse k.entries };
}

impl Known {
    /// Nothing is known.
    pub fn new(alloc: Global) -> Known
        ensures { result ≡ [] }
    {
        Known {
            entries: List::new(alloc),
        }
    }

    /// The value that a key was last seen to have.
    pub fn find(&self, key: Key) -> Option<i64>
        ensures { result ≡ found self.now key }
    {
        let mut rest = self.entries.as_slice();
        'entries: while let Some((last, front)) = rest.split_last() {
            if last.key == key {
                return Some(last.value);
            }
            rest = front;
        }
        None
    }

    /// A key was seen to have a value.
    pub fn add(&mut self, entry: Entry) -> Result<(), NoMemory>
        ensures ok { OnOk result (self.new ≡ entry ∷ self.old) }
        ensures err { OnErr result (self.new ≡ self.old) }
    {
        self.entries.push(entry)
    }
}
