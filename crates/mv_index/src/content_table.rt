//! The contents of executions, in an ordered map, with indexes of what they write and of what they read: a conflict is
//! looked for on the keys of a content alone.

ghost use Rattle.std.specs.Prelude.{◌≡◌, ◌≤◌, cond, length, None, Some, IfOk, OnOk};
ghost use Rattle.morty_base.specs.declared.names.Key.{Key as KeyValue};
ghost use Rattle.morty_base.specs.declared.names.Exec.{Exec as ExecValue};
ghost use Rattle.morty_base.specs.Names.{before, same_exec};

use crate::read_index::ReadIndex;
use crate::write_index::WriteIndex;
use morty_base::{Exec, Key, List, NoMemory, Version, is_before, is_same_version};
use msg::{Content, Kept, Read, Write};
use protocol::Held;
use std::alloc::Global;
use std::collections::BTreeMap;

/// Contents of executions. Their writes are indexed as sure.
#[derive(Debug, Drop)]
pub struct ContentTable {
    contents: BTreeMap<Exec, Content>,
    writes: WriteIndex,
    reads: ReadIndex,
}

impl ContentTable {
    ghost use Rattle.mv_index.specs.ContentTable.{content_at, IsIndexed, HasVersion, HasConflict, IsMissed, IsOne, IsListUpTo};
    ghost use Rattle.mv_index.specs.ReadIndex.{read_at, IsReadPast};
    ghost use Rattle.mv_index.specs.WriteIndex.{held_at, IsLastBelow};
    ghost use Rattle.std.specs.Prelude.{Bool};

    pub fn new(alloc: Global) -> ContentTable
        ensures contents { (x : ExecValue) → content_at result x ≡ None }
        ensures indexed { IsIndexed result }
    {
        ContentTable {
            contents: BTreeMap::new(alloc),
            writes: WriteIndex::new(alloc),
            reads: ReadIndex::new(alloc),
        }
    }

    /// The content of an execution that has none.
    pub fn add(&mut self, alloc: Global, exec: Exec, content: &Content) -> Result<(), NoMemory>
        requires { length content.now.writes ≤ 4294967295 }
        ensures contents { OnOk result ((x : ExecValue) → content_at self.new x ≡ cond (same_exec x exec) (Some content.now) (content_at self.old x)) }
        ensures indexed { IsIndexed self.old → content_at self.old exec ≡ None → OnOk result (IsIndexed self.new) }
    {
        let content = content.copy(alloc)?;
        self.writes.fill(exec, true, content.writes.as_slice())?;
        self.reads.fill(exec, content.reads.as_slice())?;
        self.contents.insert(exec, content)?;
        Ok(())
    }

    /// The last write of a key below a version.
    pub fn last_below(&self, key: Key, ver: Version) -> Option<Held>
        ensures { IsLastBelow ver (held_at self.now.writes key) result }
    {
        self.writes.last_below(key, ver)
    }

    /// The last write of a key by an execution.
    pub fn write_at(&self, key: Key, exec: Exec) -> Option<Held>
        ensures { result ≡ held_at self.now.writes key exec }
    {
        self.writes.at(key, exec)
    }

    /// Whether a content at a version that read this missed a write of the table: the last write below decides.
    fn is_missed(&self, ver: Version, read: Read) -> bool
        ensures { IsIndexed self.now → IsMissed (content_at self.now) ver read result }
    {
        match self.writes.last_below(read.key, ver) {
            None => false,
            Some(last) => is_before(read.wid.ver, last.wid.ver),
        }
    }

    /// Whether a content at a version that read these missed a write of the table.
    fn are_missed(&self, ver: Version, reads: &[Read]) -> bool
        ensures { IsIndexed self.now → IsOne (IsMissed (content_at self.now) ver) reads.now result }
    {
        for read in reads {
            if self.is_missed(ver, *read) {
                return true;
            }
        }
        false
    }

    /// Whether a content of the table missed one of these writes at a version.
    fn misses(&self, ver: Version, writes: &[Write]) -> bool
        ensures { IsOne (λ w t. IsReadPast ver (read_at self.now.reads w.key) t) writes.now result }
    {
        for write in writes {
            if self.reads.is_read_past(write.key, ver) {
                return true;
            }
        }
        false
    }

    /// Whether a content of the table is in conflict with a content at a version.
    pub fn conflicts(&self, ver: Version, content: &Content) -> bool
        ensures { IsIndexed self.now → HasConflict (content_at self.now) ver content.now result }
    {
        if self.are_missed(ver, content.reads.as_slice()) {
            return true;
        }
        self.misses(ver, content.writes.as_slice())
    }

    pub fn remove(&mut self, exec: Exec)
        ensures contents { (x : ExecValue) → content_at self.new x ≡ cond (same_exec x exec) None (content_at self.old x) }
        ensures indexed { IsIndexed self.old → IsIndexed self.new }
    {
        match self.contents.remove(&exec) {
            None => {}
            Some(content) => {
                self.writes.erase(exec, content.writes.as_slice());
                self.reads.erase(exec, content.reads.as_slice());
            }
        }
    }

    /// Whether it has a content of the version.
    pub fn has_version(&self, ver: Version) -> bool
        ensures { HasVersion (content_at self.now) ver result }
    {
        let least = Exec { ver, eid: 0 };
        match self.contents.range(least..).next() {
            None => false,
            Some((exec, _)) => is_same_version(ver, exec.ver),
        }
    }

    /// The contents at or below a version, in rising order of execution.
    pub fn upto(&self, alloc: Global, w: Version) -> Result<List<Kept>, NoMemory>
        ensures { IfOk result (λ l. IsListUpTo (content_at self.now) w l) }
    {
        let mut out = List::new(alloc);
        for (exec, content) in self.contents.iter() {
            if is_before(w, exec.ver) {
                continue;
            }
            let content = content.copy(alloc)?;
            out.push(Kept {
                exec: *exec,
                content,
            })?;
        }
        Ok(out)
    }

    /// Holds nothing more at or below a version.
    pub fn cut(&mut self, w: Version)
        ensures contents { (x : ExecValue) → content_at self.new x ≡ cond (before w x.ver) (content_at self.old x) None }
        ensures indexed { IsIndexed self.old → IsIndexed self.new }
    {
        self.writes.cut(w);
        self.reads.cut(w);
        self.contents.retain(
            |exec: &Exec, content: &mut Content| -> bool
                ensures { (result ≡ before w exec.now.ver) × (content.new ≡ content.old) }
            { is_before(w, exec.ver) },
        );
    }
}
