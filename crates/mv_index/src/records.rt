//! The records of a replica: what it holds, call by call.

ghost use Rattle.std.specs.Prelude.{◌≡◌, ℕ, ◌<◌, ◌≤◌, ◌∷◌, ◌||◌, not, [], true, cond, length, map, filter, Option, slice_get, slice_set, slice_index_or, Some, None, IfOk, OnOk, OnErr, IsErr, IsTrue};
ghost use Rattle.std.specs.List.{list_any};
ghost use Rattle.morty_base.specs.declared.names.NodeId.{NodeId as NodeValue};
ghost use Rattle.morty_base.specs.Names.{before, same_wid, same_key, key_before};
ghost use Rattle.msg.specs.declared.Vote.TheVariants.{Commit as CommitVote};
ghost use Rattle.msg.specs.declared.Body.TheVariants.{Get, Puts, Prepare, Decide, Drop as Drops};
ghost use Rattle.msg.specs.declared.Choice.TheVariants.{Commit as ToCommit, Abandon};
ghost use Rattle.msg.specs.declared.Content.{Content as ContentValue};
ghost use Rattle.protocol.specs.declared.First2.{First2 as FirstValue};
ghost use Rattle.protocol.specs.Lists.{IsRisingBy};
ghost use Rattle.protocol.specs.Replica.Taken.{Handled, dropped, base};
ghost use Rattle.protocol.specs.Replica.Acceptor.{decided};
ghost use Rattle.protocol.specs.Replica.Votes.{vote};
ghost use Rattle.protocol.specs.Replica.Held.{latest, held, kept_put};
ghost use Rattle.protocol.specs.Replica.Says.{committed_upto, voted_upto};
ghost use Rattle.protocol.specs.Replica.Votes.{writes_key};
ghost use Rattle.mv_index.specs.Holdings.{StandsFor as HoldingsStandFor};
ghost use Rattle.mv_index.specs.KeyList.{AreRising, Lists};
ghost use Rattle.mv_index.specs.HeldByExec.{kept_writes};
ghost use Rattle.mv_index.specs.ReaderList.{prefix, put_marked, told_at};

use crate::clash::Clash;
use crate::content_table::ContentTable;
use crate::holdings::Holdings;
use crate::key_list::KeyList;
use crate::reader_list::ReaderList;
use crate::touched::{earlier, touch, touch_kept};
use morty_base::{Exec, Key, List, NoMemory, Version, Wid, is_before};
use msg::{BaseEntry, Content, Kept, Write};
use protocol::{First2, Held};
use std::alloc::Global;

/// What a replica holds, with its readers.
#[derive(Debug, Drop)]
pub struct Records {
    pub(crate) holdings: Holdings,
    pub(crate) voted: ContentTable,
    pub(crate) readers: ReaderList,
    pub(crate) reader_keys: KeyList,
    pub(crate) touched: KeyList,
    pub(crate) all_touched: bool,
    pub(crate) low: Version,
    pub(crate) broken: bool,
}

/// No version is above it.
pub(crate) const LAST: Version = Version {
    ts: u64::MAX,
    client: u32::MAX,
};

impl Records {
    ghost use Rattle.mv_index.specs.Clash.{clash_of};
    ghost use Rattle.mv_index.specs.Records.{StandsFor, WereTold, is_broken};
    ghost use Rattle.protocol.specs.Lists.{IsIn};

    /// Nothing came yet.
    pub fn new(alloc: Global, firsts: List<First2>) -> Result<Records, NoMemory>
        ensures { IfOk result (λ r. StandsFor firsts [] r × WereTold firsts [] r) }
    {
        Ok(Records {
            holdings: Holdings::new(alloc, firsts.as_slice())?,
            voted: ContentTable::new(alloc),
            readers: ReaderList::new(alloc),
            reader_keys: KeyList::new(alloc),
            touched: KeyList::new(alloc),
            all_touched: false,
            low: LAST,
            broken: false,
        })
    }

    /// A call was refused half way, and each later one that can refuse does.
    pub fn is_broken(&self) -> bool
        ensures { result ≡ is_broken self.now }
    {
        self.broken
    }

    /// What a reader at a version sees of a key: the latest write below it.
    pub fn latest_below(&self, key: Key, ver: Version) -> Held
        ensures { (firsts : List FirstValue) (h : Handled) → StandsFor firsts h self.now → result ≡ latest firsts h key ver }
    {
        self.holdings.latest_below(key, ver)
    }

    /// Every clause on a call that changes the records has this form: what they stood for, what the call needs of
    /// that, what they stand for then. Marks are those of before.
    pub fn put(&mut self, alloc: Global, exec: Exec, writes: &[Write]) -> Result<(), NoMemory>
        requires { length writes.now ≤ 4294967295 }
        ensures ok { (firsts : List FirstValue) (h : Handled) (from to : NodeValue) → StandsFor firsts h self.old → before (dropped h) exec.ver ≡ true → OnOk result (StandsFor firsts (record { from = from; to = to; body = Puts exec writes.now } ∷ h) self.new) }
        ensures marks { (firsts : List FirstValue) (h : Handled) → WereTold firsts h self.old → OnOk result (WereTold firsts h self.new) }
        ensures broken { IsTrue (is_broken self.old) → IsErr result }
        ensures breaks { OnErr result (IsTrue (is_broken self.new)) }
    {
        if self.broken {
            return Err(NoMemory);
        }
        self.broken = true;
        touch_kept(&mut self.touched, &self.holdings, exec.ver)?;
        touch(&mut self.touched, writes)?;
        self.low = earlier(self.low, exec.ver);
        self.holdings.put(alloc, exec, writes)?;
        self.broken = false;
        Ok(())
    }

    /// The first decision on an execution is Commit.
    pub fn commit(&mut self, alloc: Global, exec: Exec, content: &Content) -> Result<(), NoMemory>
        requires { length content.now.writes ≤ 4294967295 }
        ensures ok { (firsts : List FirstValue) (h : Handled) (from to : NodeValue) → StandsFor firsts h self.old → before (dropped h) exec.ver ≡ true → decided h exec ≡ None → OnOk result (StandsFor firsts (record { from = from; to = to; body = Decide exec ToCommit (Some content.now) } ∷ h) self.new) }
        ensures marks { (firsts : List FirstValue) (h : Handled) → WereTold firsts h self.old → OnOk result (WereTold firsts h self.new) }
        ensures broken { IsTrue (is_broken self.old) → IsErr result }
        ensures breaks { OnErr result (IsTrue (is_broken self.new)) }
    {
        if self.broken {
            return Err(NoMemory);
        }
        self.broken = true;
        touch_kept(&mut self.touched, &self.holdings, exec.ver)?;
        touch(&mut self.touched, content.writes.as_slice())?;
        self.low = earlier(self.low, exec.ver);
        self.holdings.commit(alloc, exec, content)?;
        self.voted.remove(exec);
        self.broken = false;
        Ok(())
    }

    /// The first decision on an execution is Abandon.
    pub fn abandon(&mut self, exec: Exec) -> Result<(), NoMemory>
        ensures ok { (firsts : List FirstValue) (h : Handled) (from to : NodeValue) (content : Option ContentValue) → StandsFor firsts h self.old → before (dropped h) exec.ver ≡ true → decided h exec ≡ None → OnOk result (StandsFor firsts (record { from = from; to = to; body = Decide exec Abandon content } ∷ h) self.new) }
        ensures marks { (firsts : List FirstValue) (h : Handled) → WereTold firsts h self.old → OnOk result (WereTold firsts h self.new) }
        ensures broken { IsTrue (is_broken self.old) → IsErr result }
        ensures breaks { OnErr result (IsTrue (is_broken self.new)) }
    {
        if self.broken {
            return Err(NoMemory);
        }
        self.broken = true;
        touch_kept(&mut self.touched, &self.holdings, exec.ver)?;
        self.low = earlier(self.low, exec.ver);
        self.holdings.abandon(exec)?;
        self.voted.remove(exec);
        self.broken = false;
        Ok(())
    }

    /// The vote on an execution is Commit.
    pub fn voted(&mut self, alloc: Global, exec: Exec, content: &Content) -> Result<(), NoMemory>
        requires { length content.now.writes ≤ 4294967295 }
        ensures ok { (firsts : List FirstValue) (h : Handled) (from to : NodeValue) → let after = record { from = from; to = to; body = Prepare exec content.now } ∷ h in StandsFor firsts h self.old → before (dropped h) exec.ver ≡ true → vote h exec ≡ None → vote after exec ≡ Some CommitVote → OnOk result (StandsFor firsts after self.new) }
        ensures marks { (firsts : List FirstValue) (h : Handled) → WereTold firsts h self.old → OnOk result (WereTold firsts h self.new) }
        ensures broken { IsTrue (is_broken self.old) → IsErr result }
        ensures breaks { OnErr result (IsTrue (is_broken self.new)) }
    {
        if self.broken {
            return Err(NoMemory);
        }
        self.broken = true;
        self.voted.add(alloc, exec, content)?;
        self.broken = false;
        Ok(())
    }

    /// The Clash of a content at a version.
    pub fn clash(&self, content: &Content, ver: Version) -> Clash
        ensures { (firsts : List FirstValue) (h : Handled) → StandsFor firsts h self.now → result ≡ clash_of h ver content.now }
    {
        if self.holdings.conflicts(ver, content) {
            return Clash::Committed;
        }
        if self.voted.conflicts(ver, content) {
            return Clash::Voted;
        }
        Clash::Clear
    }

    /// Whether a write is held of a key.
    pub fn holds(&self, key: Key, wid: Wid) -> bool
        ensures { (firsts : List FirstValue) (h : Handled) → StandsFor firsts h self.now → result ≡ list_any (λ a. same_wid wid a.wid) (held firsts h key) }
    {
        self.holdings.holds(key, wid)
    }

    /// Everything at or below a version goes; the base takes its place.
    pub fn cut(&mut self, w: Version, base: List<BaseEntry>)
        requires { IsRisingBy (λ a b. key_before a.key b.key) base }
        ensures ok { (firsts : List FirstValue) (h : Handled) (from to : NodeValue) → StandsFor firsts h self.old → before (dropped h) w ≡ true → StandsFor firsts (record { from = from; to = to; body = Drops w base } ∷ h) self.new }
        ensures marks { (firsts : List FirstValue) (h : Handled) → WereTold firsts h self.old → WereTold firsts h self.new }
    {
        self.holdings.cut(w, base);
        self.voted.cut(w);
        self.readers.cut(w);
        self.all_touched = true;
        self.low = Version { ts: 0, client: 0 };
    }

    /// The committed contents at or below a version, above the dropped one, in rising order of execution.
    pub fn committed_upto(&self, alloc: Global, w: Version) -> Result<List<Kept>, NoMemory>
        ensures list { (firsts : List FirstValue) (h : Handled) → StandsFor firsts h self.now → IfOk result (λ l. l ≡ committed_upto h w) }
        ensures broken { IsTrue (is_broken self.now) → IsErr result }
    {
        if self.broken {
            return Err(NoMemory);
        }
        self.holdings.committed_upto(alloc, w)
    }

    /// The undecided contents at or below a version that have a Commit vote, in rising order of execution.
    pub fn voted_upto(&self, alloc: Global, w: Version) -> Result<List<Kept>, NoMemory>
        ensures list { (firsts : List FirstValue) (h : Handled) → StandsFor firsts h self.now → IfOk result (λ l. l ≡ voted_upto h w) }
        ensures broken { IsTrue (is_broken self.now) → IsErr result }
    {
        if self.broken {
            return Err(NoMemory);
        }
        self.voted.upto(alloc, w)
    }

    /// The base of the dropped version; it lies below each version that a Fence may name.
    pub fn base_upto(&self, alloc: Global, w: Version) -> Result<List<BaseEntry>, NoMemory>
        ensures list { (firsts : List FirstValue) (h : Handled) → StandsFor firsts h self.now → IfOk result (λ l. l ≡ base h) }
        ensures broken { IsTrue (is_broken self.now) → IsErr result }
    {
        if self.broken {
            return Err(NoMemory);
        }
        let _ = w;
        List::from_slice(alloc, self.holdings.base())
    }
}
