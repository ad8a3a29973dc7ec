//! The base of the last Drop. It rises by key, so that the entry of a key is found by a search.

ghost use Rattle.std.specs.Prelude.{◌≡◌, ◌≤◌, ◌&&◌, [], length, slice_get, filter, option_map};
ghost use Rattle.std.specs.List.{list_any};
ghost use Rattle.std.specs.Option.{option_to_list};
ghost use Rattle.morty_base.specs.Names.{before, key_before, same_key, same_wid};
ghost use Rattle.protocol.specs.Replica.Held.{best_below};
ghost use Rattle.protocol.specs.Replica.Votes.{conflicts_with_base};
ghost use Rattle.mv_index.specs.BaseEntries.{EntriesRise, entry_with, held_of, misses_entry};
ghost use Rattle.mv_index.specs.HeldByExec.{entries_of};
ghost use Rattle.mv_index.specs.ReaderList.{prefix};
ghost use Rattle.mv_index.specs.WriteIndex.{better as better_of, best_with as best_with_of};

use morty_base::{
    Key, List, Version, Wid, is_before, is_key_before, is_same_key, is_same_wid, is_wid_before,
};
use msg::{BaseEntry, Content, Read};
use protocol::Held;
use std::alloc::Global;
use std::marker::Model;

/// The entries of a base, rising by key.
#[derive(Debug, Drop)]
pub struct BaseEntries {
    entries: List<BaseEntry>,
}

impl Model for BaseEntries {
    ghost use Rattle.std.specs.Prelude.{List};
    ghost use Rattle.msg.specs.declared.BaseEntry.{BaseEntry};
    ghost use Rattle.mv_index.specs.BaseEntries.{EntriesRise};

    ghost Value = { List BaseEntry };

    ghost view = { λ b. b.entries };

    ghost invariant = { λ b. EntriesRise b.entries };
}

/// How many entries are of keys before this one.
fn place(entries: &[BaseEntry], key: Key) -> usize
    ensures within { result ≤ length entries.now }
    ensures place { EntriesRise entries.now → result ≡ prefix (λ b. key_before b.key key) entries.now }
{
    entries.partition_point(|entry| is_key_before(entry.key, key))
}

/// The entry at a place, where it is of this key.
fn entry_at(entries: &[BaseEntry], at: usize, key: Key) -> Option<BaseEntry>
    ensures { result ≡ entry_with key (slice_get entries.now at) }
{
    match entries.get(at) {
        Some(entry) if is_same_key(key, entry.key) => Some(*entry),
        _ => None,
    }
}

/// Of two writes the later one that stands below a version.
fn better(ver: Version, best: Held, other: Held) -> Held
    ensures { result ≡ better_of ver best other }
{
    if is_before(other.wid.ver, ver) && is_wid_before(best.wid, other.wid) {
        other
    } else {
        best
    }
}

pub(crate) fn best_with(ver: Version, best: Held, other: Option<Held>) -> Held
    ensures { result ≡ best_with_of ver best other }
{
    match other {
        None => best,
        Some(other) => better(ver, best, other),
    }
}

/// An entry is sure.
fn held(entry: BaseEntry) -> Held
    ensures { result ≡ held_of entry }
{
    Held {
        wid: entry.wid,
        value: entry.value,
        sure: true,
    }
}

impl BaseEntries {
    pub(crate) fn new(entries: List<BaseEntry>) -> BaseEntries
        requires { EntriesRise entries }
        ensures { result ≡ entries }
    {
        BaseEntries { entries }
    }

    pub(crate) fn empty(alloc: Global) -> BaseEntries
        ensures { result ≡ [] }
    {
        BaseEntries {
            entries: List::new(alloc),
        }
    }

    pub(crate) fn as_slice(&self) -> &[BaseEntry]
        ensures { result.now ≡ self.now }
    {
        self.entries.as_slice()
    }

    /// The entry of a key.
    fn find(&self, key: Key) -> Option<BaseEntry>
        ensures { filter (λ b. same_key key b.key) self.now ≡ option_to_list result }
    {
        let at = place(self.entries.as_slice(), key);
        entry_at(self.entries.as_slice(), at, key)
    }

    /// Of a first write and the entry of a key the latest below a version.
    pub(crate) fn best_below(&self, ver: Version, first: Held, key: Key) -> Held
        ensures { result ≡ best_below ver first (entries_of key self.now) }
    {
        best_with(ver, first, self.find(key).map(held))
    }

    /// The entry of a key has this name.
    pub(crate) fn has(&self, key: Key, wid: Wid) -> bool
        ensures { result ≡ list_any (λ b. same_key key b.key && same_wid wid b.wid) self.now }
    {
        match self.find(key) {
            None => false,
            Some(entry) => is_same_wid(wid, entry.wid),
        }
    }

    /// A content at a version that read this missed an entry.
    fn is_missed(&self, ver: Version, read: Read) -> bool
        ensures { result ≡ list_any (misses_entry ver read) self.now }
    {
        match self.find(read.key) {
            None => false,
            Some(entry) => {
                is_before(entry.wid.ver, ver) && is_before(read.wid.ver, entry.wid.ver)
            }
        }
    }

    /// A content at a version that read these missed an entry.
    fn are_missed(&self, ver: Version, reads: &[Read]) -> bool
        ensures { result ≡ list_any (λ r. list_any (misses_entry ver r) self.now) reads.now }
    {
        reads.iter().any(|read| self.is_missed(ver, *read))
    }

    /// A content at a version is in conflict with an entry.
    pub(crate) fn conflicts(&self, ver: Version, content: &Content) -> bool
        ensures { result ≡ list_any (conflicts_with_base ver content.now) self.now }
    {
        self.are_missed(ver, content.reads.as_slice())
    }
}
