//! The Puts that are kept, one for each version, in an ordered map.

ghost use Rattle.std.specs.Prelude.{◌≡◌, cond, None, Some, OnOk, option_map};
ghost use Rattle.morty_base.specs.declared.names.Version.{Version as VersionValue};
ghost use Rattle.morty_base.specs.Names.{before, same_version};

use morty_base::{Exec, List, NoMemory, Version, is_before};
use msg::Write;
use std::alloc::Global;
use std::collections::BTreeMap;

/// The writes that an execution had made.
#[derive(Debug, Drop)]
pub struct Put {
    pub exec: Exec,
    pub writes: List<Write>,
}

/// The Puts that are kept, one for each version.
#[derive(Debug, Drop)]
pub struct PutTable {
    puts: BTreeMap<Version, Put>,
}

impl PutTable {
    ghost use Rattle.mv_index.specs.PutTable.{put_at, put_of, replaces};
    ghost use Rattle.std.specs.Prelude.{ℕ, List};

    pub fn new(alloc: Global) -> PutTable
        ensures { (v : VersionValue) → put_at result v ≡ None }
    {
        PutTable {
            puts: BTreeMap::new(alloc),
        }
    }

    /// The Puts that are kept of a version.
    pub fn find(&self, ver: Version) -> Option<&Put>
        ensures { option_map (λ p. put_of p.now) result ≡ put_at self.now ver }
    {
        self.puts.get(&ver)
    }

    /// Whether an execution's writes replace those that are kept of its version.
    pub fn is_replaced(&self, exec: Exec, writes: &[Write]) -> bool
        ensures { result ≡ replaces (put_at self.now exec.ver) exec writes.now }
    {
        match self.find(exec.ver) {
            None => true,
            Some(put) => {
                put.exec.eid < exec.eid
                    || (put.exec.eid == exec.eid && put.writes.len() < writes.len())
            }
        }
    }

    /// Keeps the writes of an execution, in place of what was kept of its version.
    pub fn keep(&mut self, alloc: Global, exec: Exec, writes: &[Write]) -> Result<(), NoMemory>
        ensures { OnOk result ((v : VersionValue) → put_at self.new v ≡ cond (same_version v exec.ver) (Some (record { exec = exec; writes = writes.now })) (put_at self.old v)) }
    {
        let writes = List::from_slice(alloc, writes)?;
        self.puts.insert(exec.ver, Put { exec, writes })?;
        Ok(())
    }

    pub fn cut(&mut self, w: Version)
        ensures { (v : VersionValue) → put_at self.new v ≡ cond (before w v) (put_at self.old v) None }
    {
        self.puts.retain(
            |ver: &Version, put: &mut Put| -> bool
                ensures { (result ≡ before w ver.now) × (put.new ≡ put.old) }
            { is_before(w, *ver) },
        );
    }
}
