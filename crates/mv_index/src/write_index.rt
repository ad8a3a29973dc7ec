//! An index of held writes: at each key and execution at most one.

ghost use Rattle.std.specs.Prelude.{◌≡◌, ◌+◌, ◌<◌, ◌≤◌, ◌&&◌, cond, length, None, OnOk};
ghost use Rattle.std.specs.Option.{option_or};
ghost use Rattle.morty_base.specs.declared.names.Exec.{Exec as ExecValue};
ghost use Rattle.morty_base.specs.declared.names.Key.{Key as KeyValue};
ghost use Rattle.morty_base.specs.Names.{before, same_exec, same_key};
ghost use Rattle.protocol.specs.Replica.Held.{last_write};
ghost use Rattle.mv_index.specs.WriteIndex.{write_at, held_at, IsLastBelow};
ghost use Rattle.protocol.specs.Replica.Votes.{writes_key};

use morty_base::{Exec, Key, NoMemory, Version, Wid, is_before, is_same_key};
use msg::Write;
use protocol::Held;
use std::alloc::Global;
use std::collections::BTreeMap;

/// Where a write stands: by key, and then by execution.
#[derive(Clone, Copy, Debug, PartialEq, Eq, PartialOrd, Ord)]
pub struct Place {
    pub key: Key,
    pub exec: Exec,
}

/// The writes that are held, at most one for each key and execution.
#[derive(Debug, Drop)]
pub struct WriteIndex {
    held: BTreeMap<Place, Held>,
}

/// The write at a place of an execution's list, counted from 0.
fn named_write(exec: Exec, sure: bool, at: usize, write: Write) -> Held
    requires { at < 4294967295 }
    ensures { result ≡ record { wid = record { ver = exec.ver; eid = exec.eid; seq = at + 1 }; value = write.value; sure = sure } }
{
    let wid = Wid {
        ver: exec.ver,
        eid: exec.eid,
        seq: at as u32 + 1,
    };
    Held {
        wid,
        value: write.value,
        sure,
    }
}

impl WriteIndex {
    /// Nothing is held.
    pub fn new(alloc: Global) -> WriteIndex
        ensures { (k : KeyValue) (x : ExecValue) → held_at result k x ≡ None }
    {
        WriteIndex {
            held: BTreeMap::new(alloc),
        }
    }

    fn set(&mut self, exec: Exec, sure: bool, at: usize, write: Write) -> Result<(), NoMemory>
        requires { at < 4294967295 }
        ensures { OnOk result ((k : KeyValue) (x : ExecValue) → held_at self.new k x ≡ cond (same_exec x exec) (option_or (write_at exec sure (at + 1) k write) (held_at self.old k x)) (held_at self.old k x)) }
    {
        let held = named_write(exec, sure, at, write);
        let place = Place {
            key: write.key,
            exec,
        };
        self.held.insert(place, held)?;
        Ok(())
    }

    fn unset(&mut self, exec: Exec, key: Key)
        ensures { (k : KeyValue) (x : ExecValue) → held_at self.new k x ≡ cond (same_exec x exec && same_key k key) None (held_at self.old k x) }
    {
        let _ = self.held.remove(&Place { key, exec });
    }

    /// Holds the writes of an execution, the last one of each key.
    pub fn fill(&mut self, exec: Exec, sure: bool, writes: &[Write]) -> Result<(), NoMemory>
        requires { length writes.now ≤ 4294967295 }
        ensures { OnOk result ((k : KeyValue) (x : ExecValue) → held_at self.new k x ≡ cond (same_exec x exec) (option_or (last_write exec sure 1 k writes.now) (held_at self.old k x)) (held_at self.old k x)) }
    {
        for (at, write) in writes.iter().enumerate() {
            self.set(exec, sure, at, *write)?;
        }
        Ok(())
    }

    /// Holds nothing more of an execution for the keys of these writes.
    pub fn erase(&mut self, exec: Exec, writes: &[Write])
        ensures { (k : KeyValue) (x : ExecValue) → held_at self.new k x ≡ cond (same_exec x exec && writes_key k writes.now) None (held_at self.old k x) }
    {
        for write in writes {
            self.unset(exec, write.key);
        }
    }

    /// Holds nothing more at or below a version.
    pub fn cut(&mut self, w: Version)
        ensures { (k : KeyValue) (x : ExecValue) → held_at self.new k x ≡ cond (before w x.ver) (held_at self.old k x) None }
    {
        self.held.retain(
            |place: &Place, held: &mut Held| -> bool
                ensures { (result ≡ before w place.now.exec.ver) × (held.new ≡ held.old) }
            { is_before(w, place.exec.ver) },
        );
    }

    /// The write of a key by an execution.
    pub fn at(&self, key: Key, exec: Exec) -> Option<Held>
        ensures { result ≡ held_at self.now key exec }
    {
        self.held.get(&Place { key, exec }).copied()
    }

    /// The last write below a version: all that stands before a place of the key is of it or of a key before it.
    pub fn last_below(&self, key: Key, ver: Version) -> Option<Held>
        ensures { IsLastBelow ver (held_at self.now key) result }
    {
        let end = Place {
            key,
            exec: Exec { ver, eid: 0 },
        };
        match self.held.range(..end).next_back() {
            None => None,
            Some((place, held)) => is_same_key(key, place.key).then_some(*held),
        }
    }
}
