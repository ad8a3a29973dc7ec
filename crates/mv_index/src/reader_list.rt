//! Who read what, and what each reader was last told: a list in rising order of key and version.

ghost use Rattle.std.specs.Prelude.{◌≡◌, ◌<◌, ◌≤◌, ◌&&◌, [], length, slice_get, slice_set, slice_index_or, map, filter, not, Some, None, OnOk};
ghost use Rattle.morty_base.specs.Names.{before, key_before, same_key};
ghost use Rattle.mv_index.specs.declared.reader_list.Reader.{Reader as MarkedReader};
ghost use Rattle.protocol.specs.Lists.{tally};
ghost use Rattle.mv_index.specs.ReaderList.{prefix, stands_before, is_at, put_marked, told_at, IsInOrder};

use morty_base::{Key, NoMemory, Version, is_before, is_key_before, is_same_key, is_same_version};
use protocol::Held;
use std::alloc::Global;

/// A key that was read at a version, with what its reader was told last.
#[derive(Clone, Copy, Debug)]
pub struct Reader {
    pub key: Key,
    pub ver: Version,
    pub told: Option<Held>,
}

#[derive(Debug, Drop)]
pub struct ReaderList {
    pub(crate) readers: Vec<Reader>,
}

fn is_reader_before(r: Reader, key: Key, ver: Version) -> bool
    ensures { result ≡ stands_before key ver r }
{
    is_key_before(r.key, key) || (is_same_key(r.key, key) && is_before(r.ver, ver))
}

/// How many readers stand before a key and a version.
fn place(readers: &[Reader], key: Key, ver: Version) -> usize
    ensures within { result ≤ length readers.now }
    ensures place { IsInOrder readers.now → result ≡ prefix (stands_before key ver) readers.now }
{
    readers.partition_point(|reader| is_reader_before(*reader, key, ver))
}

/// How many readers stand before those of keys above this one.
fn end_of(readers: &[Reader], key: Key) -> usize
    ensures within { result ≤ length readers.now }
    ensures place { IsInOrder readers.now → result ≡ prefix (λ r. not (key_before key r.key)) readers.now }
{
    readers.partition_point(|reader| !is_key_before(key, reader.key))
}

fn stands_at(readers: &[Reader], at: usize, key: Key, ver: Version) -> bool
    ensures { result ≡ is_at (slice_get readers.now at) key ver }
{
    match readers.get(at) {
        None => false,
        Some(reader) => is_same_key(key, reader.key) && is_same_version(ver, reader.ver),
    }
}

impl ReaderList {
    /// Nobody read yet.
    pub fn new(alloc: Global) -> ReaderList
        ensures { result.readers.items ≡ [] }
    {
        ReaderList {
            readers: Vec::new(alloc),
        }
    }

    pub fn count(&self) -> usize
        ensures { result ≡ length self.now.readers.items }
    {
        self.readers.len()
    }

    pub fn get(&self, i: usize) -> Reader
        requires { i < length self.now.readers.items }
        ensures { slice_get self.now.readers.items i ≡ Some result }
    {
        self.readers[i]
    }

    /// Somebody reads a key at a version; who did so before is not read again.
    pub fn add(&mut self, key: Key, ver: Version) -> Result<(), NoMemory>
        ensures { OnOk result (IsInOrder self.old.readers.items → self.new.readers.items ≡ put_marked (record { key = key; ver = ver; told = None }) self.old.readers.items) }
    {
        let at = place(self.readers.as_slice(), key, ver);
        if stands_at(self.readers.as_slice(), at, key, ver) {
            return Ok(());
        }
        let reader = Reader {
            key,
            ver,
            told: None,
        };
        self.readers.insert(at, reader)?;
        Ok(())
    }

    /// What a reader was told now; no other mark changes.
    pub fn tell(&mut self, i: usize, held: Held)
        requires { i < length self.old.readers.items }
        ensures { (d : MarkedReader) → self.new.readers.items ≡ slice_set self.old.readers.items i (record (slice_index_or self.old.readers.items i d) { told = Some held }) }
    {
        let reader = self.readers[i];
        self.readers[i] = Reader {
            key: reader.key,
            ver: reader.ver,
            told: Some(held),
        };
    }

    /// What the reader of a key at a version was told now; no other mark changes.
    pub fn mark(&mut self, key: Key, ver: Version, held: Held)
        ensures { IsInOrder self.old.readers.items → self.new.readers.items ≡ map (told_at key ver held) self.old.readers.items }
    {
        let at = place(self.readers.as_slice(), key, ver);
        if stands_at(self.readers.as_slice(), at, key, ver) {
            self.tell(at, held);
        }
    }

    /// How many readers stand before those of a key at or above a version.
    pub fn first_from(&self, key: Key, ver: Version) -> usize
        ensures within { result ≤ length self.now.readers.items }
        ensures place { IsInOrder self.now.readers.items → result ≡ prefix (stands_before key ver) self.now.readers.items }
    {
        place(self.readers.as_slice(), key, ver)
    }

    /// How many readers are of keys below this one.
    pub fn first_of(&self, key: Key) -> usize
        ensures { IsInOrder self.now.readers.items → result ≡ tally (λ r. key_before r.key key) self.now.readers.items }
    {
        self.readers
            .as_slice()
            .partition_point(|reader| is_key_before(reader.key, key))
    }

    /// The readers of a key at or above a version.
    pub fn of_key_from(&self, key: Key, ver: Version) -> &[Reader]
        ensures { IsInOrder self.now.readers.items → result.now ≡ filter (λ r. same_key key r.key && not (before r.ver ver)) self.now.readers.items }
    {
        let (_, rest) = self.readers.as_slice().split_at(self.first_from(key, ver));
        let (own, _) = rest.split_at(end_of(rest, key));
        own
    }

    /// Nobody reads at or below a version any more.
    pub fn cut(&mut self, w: Version)
        ensures { self.new.readers.items ≡ filter (λ r. before w r.ver) self.old.readers.items }
    {
        self.readers.retain(|reader| is_before(w, reader.ver));
    }
}
