//! An index of reads: at each key and execution the least version from which it read.

ghost use Rattle.std.specs.Prelude.{◌≡◌, ◌&&◌, cond, None, Some, OnOk};
ghost use Rattle.morty_base.specs.declared.names.Exec.{Exec as ExecValue};
ghost use Rattle.morty_base.specs.declared.names.Key.{Key as KeyValue};
ghost use Rattle.morty_base.specs.Names.{before, same_exec, same_key};
ghost use Rattle.mv_index.specs.ReadIndex.{lesser as lesser_of, with_read, with_reads, reads_key, read_at, IsReadPast};

use crate::write_index::Place;
use morty_base::{Exec, Key, NoMemory, Version, is_before, is_same_key};
use msg::Read;
use std::alloc::Global;
use std::collections::BTreeMap;

/// The least version from which each execution read each key.
#[derive(Debug, Drop)]
pub struct ReadIndex {
    reads: BTreeMap<Place, Version>,
}

fn lesser(least: Option<Version>, ver: Version) -> Version
    ensures { result ≡ lesser_of least ver }
{
    match least {
        Some(least) if !is_before(ver, least) => least,
        _ => ver,
    }
}

/// The entry is of the key.
fn is_of(place: &Place, key: Key) -> bool
    ensures { result ≡ same_key place.now.key key }
{
    is_same_key(place.key, key)
}

/// The entry is of an execution above the version, which read from below it.
fn is_past(place: &Place, least: &Version, ver: Version) -> bool
    ensures { result ≡ (before ver place.now.exec.ver && before least.now ver) }
{
    is_before(ver, place.exec.ver) && is_before(*least, ver)
}

impl ReadIndex {
    /// Nothing was read.
    pub fn new(alloc: Global) -> ReadIndex
        ensures { (k : KeyValue) (x : ExecValue) → read_at result k x ≡ None }
    {
        ReadIndex {
            reads: BTreeMap::new(alloc),
        }
    }

    fn set(&mut self, exec: Exec, read: Read) -> Result<(), NoMemory>
        ensures { OnOk result ((k : KeyValue) (x : ExecValue) → read_at self.new k x ≡ cond (same_exec x exec) (with_read k (read_at self.old k x) read) (read_at self.old k x)) }
    {
        let place = Place {
            key: read.key,
            exec,
        };
        let least = lesser(self.reads.get(&place).copied(), read.wid.ver);
        self.reads.insert(place, least)?;
        Ok(())
    }

    fn unset(&mut self, exec: Exec, key: Key)
        ensures { (k : KeyValue) (x : ExecValue) → read_at self.new k x ≡ cond (same_exec x exec && same_key k key) None (read_at self.old k x) }
    {
        let _ = self.reads.remove(&Place { key, exec });
    }

    /// Counts the reads of an execution.
    pub fn fill(&mut self, exec: Exec, reads: &[Read]) -> Result<(), NoMemory>
        ensures { OnOk result ((k : KeyValue) (x : ExecValue) → read_at self.new k x ≡ cond (same_exec x exec) (with_reads k (read_at self.old k x) reads.now) (read_at self.old k x)) }
    {
        for read in reads {
            self.set(exec, *read)?;
        }
        Ok(())
    }

    /// Knows nothing more of an execution for the keys of these reads.
    pub fn erase(&mut self, exec: Exec, reads: &[Read])
        ensures { (k : KeyValue) (x : ExecValue) → read_at self.new k x ≡ cond (same_exec x exec && reads_key k reads.now) None (read_at self.old k x) }
    {
        for read in reads {
            self.unset(exec, read.key);
        }
    }

    /// Knows nothing more at or below a version.
    pub fn cut(&mut self, w: Version)
        ensures { (k : KeyValue) (x : ExecValue) → read_at self.new k x ≡ cond (before w x.ver) (read_at self.old k x) None }
    {
        self.reads.retain(
            |place: &Place, least: &mut Version| -> bool
                ensures { (result ≡ before w place.now.exec.ver) × (least.new ≡ least.old) }
            { is_before(w, place.exec.ver) },
        );
    }

    /// Whether an execution above a version read the key from below it.
    pub fn is_read_past(&self, key: Key, ver: Version) -> bool
        ensures { IsReadPast ver (read_at self.now key) result }
    {
        let start = Place {
            key,
            exec: Exec { ver, eid: 0 },
        };
        for (place, least) in self.reads.range(start..) {
            if !is_of(place, key) {
                return false;
            }
            if is_past(place, least, ver) {
                return true;
            }
        }
        false
    }
}
