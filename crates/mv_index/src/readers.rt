//! The readers of the records, what each was told last, and of which keys they may be due a Note.

ghost use Rattle.std.specs.Prelude.{◌≡◌, ℕ, ◌<◌, ◌∷◌, ◌&&◌, not, [], true, length, map, filter, slice_get, slice_set, slice_index_or, Some, None, List, OnOk, OnErr, IsErr, IsTrue};
ghost use Rattle.morty_base.specs.declared.names.NodeId.{NodeId as NodeValue};
ghost use Rattle.morty_base.specs.Names.{before, same_key, key_before};
ghost use Rattle.msg.specs.declared.Body.TheVariants.{Get};
ghost use Rattle.protocol.specs.declared.First2.{First2 as FirstValue};
ghost use Rattle.protocol.specs.Replica.Taken.{Handled, dropped};
ghost use Rattle.protocol.specs.Lists.{tally};
ghost use Rattle.mv_index.specs.ReaderList.{put_marked, told_at};

use crate::reader_list::Reader;
use crate::records::{LAST, Records};
use crate::touched::{earlier, either};
use morty_base::{Key, NoMemory, Version};
use protocol::Held;

impl Records {
    ghost use Rattle.mv_index.specs.Records.{StandsFor, WereTold, listed, low_of, is_broken, readers_of};
    ghost use Rattle.mv_index.specs.declared.reader_list.Reader.{Reader as MarkedReader};

    /// A reader is added, whose mark is to follow.
    pub fn read_by(&mut self, key: Key, ver: Version) -> Result<(), NoMemory>
        ensures ok { (firsts : List FirstValue) (h : Handled) (from to : NodeValue) (eid : ℕ) → StandsFor firsts h self.old → before (dropped h) ver ≡ true → OnOk result (StandsFor firsts (record { from = from; to = to; body = Get (record { ver = ver; eid = eid }) key } ∷ h) self.new) }
        ensures readers { (firsts : List FirstValue) (h : Handled) → StandsFor firsts h self.old → OnOk result (readers_of self.new ≡ put_marked (record { key = key; ver = ver; told = None }) (readers_of self.old)) }
        ensures broken { IsTrue (is_broken self.old) → IsErr result }
        ensures breaks { OnErr result (IsTrue (is_broken self.new)) }
    {
        if self.broken {
            return Err(NoMemory);
        }
        self.broken = true;
        self.reader_keys.add(key)?;
        self.touched.add(key)?;
        self.low = earlier(self.low, ver);
        self.readers.add(key, ver)?;
        self.broken = false;
        Ok(())
    }

    /// How many readers there are.
    pub fn reader_count(&self) -> usize
        ensures { result ≡ length (readers_of self.now) }
    {
        self.readers.count()
    }

    /// A reader, in rising order of key and version.
    pub fn reader(&self, i: usize) -> Reader
        requires { i < length (readers_of self.now) }
        ensures { slice_get (readers_of self.now) i ≡ Some result }
    {
        self.readers.get(i)
    }

    /// The readers of a key that may be due a Note: those at or above the least version of which something changed.
    pub fn due_readers(&self, key: Key) -> &[Reader]
        ensures { (firsts : List FirstValue) (h : Handled) → StandsFor firsts h self.now → result.now ≡ filter (λ r. same_key key r.key && not (before r.ver (low_of self.now))) (readers_of self.now) }
    {
        self.readers.of_key_from(key, self.low)
    }

    /// A key of which a mark changes is listed: where it was not, all keys with a reader are.
    pub fn told(&mut self, i: usize, held: Held)
        requires { i < length (readers_of self.old) }
        ensures stands { (firsts : List FirstValue) (h : Handled) → StandsFor firsts h self.old → StandsFor firsts h self.new }
        ensures mark { (d : MarkedReader) → readers_of self.new ≡ slice_set (readers_of self.old) i (record (slice_index_or (readers_of self.old) i d) { told = Some held }) }
    {
        let reader = self.readers.get(i);
        let listed = self.touched.has(reader.key);
        self.all_touched = either(self.all_touched, listed);
        self.low = earlier(self.low, reader.ver);
        self.readers.tell(i, held);
    }

    /// What the reader of a key at a version was told now; no other mark changes.
    pub fn mark(&mut self, key: Key, ver: Version, held: Held)
        ensures stands { (firsts : List FirstValue) (h : Handled) → StandsFor firsts h self.old → StandsFor firsts h self.new }
        ensures mark { (firsts : List FirstValue) (h : Handled) → StandsFor firsts h self.old → readers_of self.new ≡ map (told_at key ver held) (readers_of self.old) }
    {
        let listed = self.touched.has(key);
        self.all_touched = either(self.all_touched, listed);
        self.low = earlier(self.low, ver);
        self.readers.mark(key, ver, held);
    }

    /// How many keys are listed.
    pub fn touched_count(&self) -> usize
        ensures { result ≡ length (listed self.now) }
    {
        if self.all_touched {
            self.reader_keys.len()
        } else {
            self.touched.len()
        }
    }

    /// A key that is listed.
    pub fn touched_key(&self, i: usize) -> Key
        requires { i < length (listed self.now) }
        ensures { slice_get (listed self.now) i ≡ Some result }
    {
        if self.all_touched {
            self.reader_keys.get(i)
        } else {
            self.touched.get(i)
        }
    }

    /// Once each reader was told what it sees, no key is listed any more.
    pub fn settle(&mut self)
        ensures { (firsts : List FirstValue) (h : Handled) → StandsFor firsts h self.old → WereTold firsts h self.old → StandsFor firsts h self.new × WereTold firsts h self.new × (listed self.new ≡ []) }
    {
        self.all_touched = false;
        self.low = LAST;
        self.touched.clear();
    }

    /// How many readers are of keys below this one.
    pub fn first_reader(&self, key: Key) -> usize
        ensures { (firsts : List FirstValue) (h : Handled) → StandsFor firsts h self.now → result ≡ tally (λ r. key_before r.key key) (readers_of self.now) }
    {
        self.readers.first_of(key)
    }
}
