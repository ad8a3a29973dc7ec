ghost use Rattle.std.specs.Prelude.{◌≡◌, ◌+◌, ◌≤◌, [], length, false, IfOk, OnOk, slice_get};
ghost use Rattle.morty_base.specs.Names.{before, key_before};
ghost use Rattle.protocol.specs.Warden.Base.{put_entry, put_entries, entries_of, kept_entries, decided_entries_of, decided_entries, base_of};
ghost use Rattle.protocol.specs.Warden.State.{decision_on};
ghost use Rattle.truncation.specs.Base.{AreRising, IsPlace, entry_with, entry_of};

use crate::answer::Answer;
use morty_base::{
    Exec, Key, List, NoMemory, Version, Wid, is_before, is_key_before, is_same_key, is_wid_before,
};
use msg::{BaseEntry, Kept, Write};
use recovery::Recoverer;
use std::alloc::Global;
use std::marker::Model;

/// The last writes of keys, rising by key.
#[derive(Drop)]
pub struct Base {
    entries: Vec<BaseEntry>,
}

impl Model for Base {
    ghost use Rattle.std.specs.Prelude.{List};
    ghost use Rattle.msg.specs.declared.BaseEntry.{BaseEntry};
    ghost use Rattle.truncation.specs.Base.{AreRising};

    ghost Value = { List BaseEntry };

    ghost view = { λ b. b.entries.items };

    ghost invariant = { λ b. AreRising b.entries.items };
}

// How many entries are of keys before this one.
fn place(entries: &[BaseEntry], key: Key) -> usize
    ensures within { result ≤ length entries.now }
    ensures place { AreRising entries.now → IsPlace key entries.now result }
{
    entries.partition_point(|entry| is_key_before(entry.key, key))
}

// The entry at a place, where it is of this key.
fn entry_at(entries: &[BaseEntry], at: usize, key: Key) -> Option<BaseEntry>
    ensures { result ≡ entry_with key (slice_get entries.now at) }
{
    match entries.get(at) {
        Some(entry) if is_same_key(key, entry.key) => Some(*entry),
        _ => None,
    }
}

// The write at this place of those of an execution. A place above those that a write name can have is refused.
fn entry_of(exec: Exec, at: usize, write: Write) -> Result<BaseEntry, NoMemory>
    ensures { IfOk result (λ e. e ≡ entry_of exec (at + 1) write) }
{
    if at >= 4_294_967_295 {
        return Err(NoMemory);
    }
    Ok(BaseEntry {
        key: write.key,
        wid: Wid {
            ver: exec.ver,
            eid: exec.eid,
            seq: at as u32 + 1,
        },
        value: write.value,
    })
}

impl Base {
    pub fn new(alloc: Global) -> Base
        ensures { result ≡ [] }
    {
        Base {
            entries: Vec::new(alloc),
        }
    }

    pub fn into_list(self) -> List<BaseEntry>
        ensures { result ≡ self }
    {
        let Base { entries } = self;
        List::from_vec(entries)
    }

    // Of two writes of a key the one of the greater name stays, the first of equals.
    fn put(&mut self, entry: BaseEntry) -> Result<(), NoMemory>
        ensures { OnOk result (self.new ≡ put_entry entry self.old) }
    {
        let at = place(&self.entries, entry.key);
        let Some(other) = entry_at(&self.entries, at, entry.key) else {
            self.entries.insert(at, entry)?;
            return Ok(());
        };
        if is_wid_before(other.wid, entry.wid) {
            self.entries[at] = entry;
        }
        Ok(())
    }

    // One after another.
    fn put_all(&mut self, entries: &[BaseEntry]) -> Result<(), NoMemory>
        ensures { OnOk result (self.new ≡ put_entries self.old entries.now) }
    {
        for entry in entries {
            self.put(*entry)?;
        }
        Ok(())
    }

    // The writes of an execution.
    fn put_writes(&mut self, exec: Exec, writes: &[Write]) -> Result<(), NoMemory>
        ensures { OnOk result (self.new ≡ put_entries self.old (entries_of exec 1 writes.now)) }
    {
        for (at, write) in writes.iter().enumerate() {
            let entry = entry_of(exec, at, *write)?;
            self.put(entry)?;
        }
        Ok(())
    }

    // The writes at or below the version of what is named as committed.
    fn put_committed(&mut self, w: Version, committed: &[Kept]) -> Result<(), NoMemory>
        ensures { OnOk result (self.new ≡ put_entries self.old (kept_entries w committed.now)) }
    {
        for kept in committed {
            if !is_before(w, kept.exec.ver) {
                self.put_writes(kept.exec, kept.content.writes.as_slice())?;
            }
        }
        Ok(())
    }

    // The writes of an execution, where this warden decided Commit.
    fn put_decision(&mut self, alloc: Global, rec: &Recoverer, exec: Exec) -> Result<(), NoMemory>
        requires { rec.now.broken ≡ false }
        ensures { OnOk result (self.new ≡ put_entries self.old (decided_entries_of exec (decision_on rec.now.state exec))) }
    {
        let Some(content) = rec.content(alloc, exec)? else {
            return Ok(());
        };
        self.put_writes(exec, content.writes.as_slice())
    }

    // The writes at or below the version of what is named as voted, where this warden decided Commit.
    fn put_decided(
        &mut self,
        alloc: Global,
        w: Version,
        rec: &Recoverer,
        voted: &[Kept],
    ) -> Result<(), NoMemory>
        requires { rec.now.broken ≡ false }
        ensures { OnOk result (self.new ≡ put_entries self.old (decided_entries w rec.now.state voted.now)) }
    {
        for kept in voted {
            if !is_before(w, kept.exec.ver) {
                self.put_decision(alloc, rec, kept.exec)?;
            }
        }
        Ok(())
    }
}

/// The base that a Drop carries: for each key, rising, the write of the greatest name among the bases of the answers,
/// what they name as committed, and what they name as voted and this warden decided to commit.
pub fn base_of(
    alloc: Global,
    w: Version,
    rec: &Recoverer,
    answers: &[Answer],
) -> Result<List<BaseEntry>, NoMemory>
    requires { rec.now.broken ≡ false }
    ensures { IfOk result (λ base. base ≡ base_of w rec.now.state answers.now) }
{
    let mut base = Base::new(alloc);
    for answer in answers {
        base.put_all(answer.base.as_slice())?;
    }
    for answer in answers {
        base.put_committed(w, answer.committed.as_slice())?;
    }
    for answer in answers {
        base.put_decided(alloc, w, rec, answer.voted.as_slice())?;
    }
    Ok(base.into_list())
}
