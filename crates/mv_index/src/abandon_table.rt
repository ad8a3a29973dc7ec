//! The greatest number of an abandoned execution of each version, in an ordered map.

ghost use Rattle.std.specs.Prelude.{◌≡◌, ◌&&◌, ◌||◌, nat_le, OnOk};
ghost use Rattle.morty_base.specs.declared.names.Version.{Version as VersionValue};
ghost use Rattle.morty_base.specs.Names.{before, same_version};

use morty_base::{Exec, NoMemory, Version, is_before};
use std::alloc::Global;
use std::collections::BTreeMap;

/// The greatest number of an abandoned execution, for each version.
#[derive(Debug, Drop)]
pub struct AbandonTable {
    greatest: BTreeMap<Version, u32>,
}

impl AbandonTable {
    ghost use Rattle.mv_index.specs.AbandonTable.{is_blocked_at};
    ghost use Rattle.std.specs.Prelude.{ℕ, false};

    pub fn new(alloc: Global) -> AbandonTable
        ensures { (v : VersionValue) (n : ℕ) → is_blocked_at result v n ≡ false }
    {
        AbandonTable {
            greatest: BTreeMap::new(alloc),
        }
    }

    /// Whether an execution of this version with this number or a greater one was abandoned.
    pub fn blocks(&self, exec: Exec) -> bool
        ensures { result ≡ is_blocked_at self.now exec.ver exec.eid }
    {
        match self.greatest.get(&exec.ver) {
            None => false,
            Some(eid) => exec.eid <= *eid,
        }
    }

    /// An execution is abandoned.
    pub fn add(&mut self, exec: Exec) -> Result<(), NoMemory>
        ensures { OnOk result ((v : VersionValue) (n : ℕ) → is_blocked_at self.new v n ≡ ((same_version v exec.ver && nat_le n exec.eid) || is_blocked_at self.old v n)) }
    {
        if self.blocks(exec) {
            return Ok(());
        }
        self.greatest.insert(exec.ver, exec.eid)?;
        Ok(())
    }

    pub fn cut(&mut self, w: Version)
        ensures { (v : VersionValue) (n : ℕ) → is_blocked_at self.new v n ≡ (before w v && is_blocked_at self.old v n) }
    {
        self.greatest.retain(
            |ver: &Version, eid: &mut u32| -> bool
                ensures { (result ≡ before w ver.now) × (eid.new ≡ eid.old) }
            { is_before(w, *ver) },
        );
    }
}
