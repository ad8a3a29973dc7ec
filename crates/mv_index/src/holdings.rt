//! The records of a replica: what it holds of each key, with what it needs to keep that up to date.

ghost use Rattle.std.specs.Prelude.{◌≡◌, ◌≤◌, ◌∷◌, [], true, false, not, ◌&&◌, ◌||◌, nat_le, cond, length, None, Some, Option, IfOk, OnOk, find, option_map};
ghost use Rattle.std.specs.Option.{option_or};
ghost use Rattle.std.specs.List.{list_any};
ghost use Rattle.morty_base.specs.declared.names.NodeId.{NodeId as NodeValue};
ghost use Rattle.morty_base.specs.declared.names.Exec.{Exec as ExecValue};
ghost use Rattle.morty_base.specs.declared.names.Key.{Key as KeyValue};
ghost use Rattle.morty_base.specs.Names.{before, same_version, same_exec, same_key, same_wid, key_before};
ghost use Rattle.msg.specs.declared.Content.{Content as ContentValue};
ghost use Rattle.msg.specs.declared.Body.TheVariants.{Puts, Decide, Drop as Drops};
ghost use Rattle.msg.specs.declared.Choice.TheVariants.{Commit as ToCommit, Abandon};
ghost use Rattle.protocol.specs.declared.First2.{First2 as FirstValue};
ghost use Rattle.protocol.specs.Lists.{IsRisingBy};
ghost use Rattle.protocol.specs.Replica.Taken.{Handled, dropped, base};
ghost use Rattle.protocol.specs.Replica.Acceptor.{decided, commits};
ghost use Rattle.protocol.specs.Replica.Says.{committed_upto};
ghost use Rattle.protocol.specs.Replica.Votes.{clashes_with_commit, conflicts_with_base as conflicts_with_base_of};
ghost use Rattle.protocol.specs.Replica.Held.{held, last_write, kept_put, first_value as first_value_of, first_held as first_held_of, best_below, latest};
ghost use Rattle.mv_index.specs.PutTable.{put_of};
ghost use Rattle.mv_index.specs.WriteIndex.{is_named, better as better_of, best_with as best_with_of, held_at};
ghost use Rattle.mv_index.specs.HeldByExec.{has_commit, is_blocked};
ghost use Rattle.mv_index.specs.OpenWrites.{KeepsOpen};

use crate::abandon_table::AbandonTable;
use crate::base_entries::{BaseEntries, best_with};
use crate::content_table::ContentTable;
use crate::first_values::FirstValues;
use crate::put_table::{Put, PutTable};
use crate::write_index::WriteIndex;
use morty_base::{Exec, Key, List, NoMemory, Version, Wid, is_same_wid};
use msg::{BaseEntry, Content, Kept, Write};
use protocol::{First2, Held};
use std::alloc::Global;

/// What a replica holds.
#[derive(Debug, Drop)]
pub struct Holdings {
    firsts: FirstValues,
    dropped: Version,
    base: BaseEntries,
    puts: PutTable,
    abandoned: AbandonTable,
    commits: ContentTable,
    unsure: WriteIndex,
}

/// Holds nothing more of the Puts that are kept of a version.
fn clear(unsure: &mut WriteIndex, puts: &PutTable, ver: Version)
    ensures { (h : Handled) → KeepsOpen h puts.now unsure.old → (k : KeyValue) (x : ExecValue) → held_at unsure.new k x ≡ cond (same_version x.ver ver) None (held_at unsure.old k x) }
{
    match puts.find(ver) {
        None => {}
        Some(put) => unsure.erase(put.exec, put.writes.as_slice()),
    }
}

/// Holds nothing more of the Puts that are kept of a version where they are of this execution or an earlier one.
fn block(unsure: &mut WriteIndex, puts: &PutTable, exec: Exec)
    ensures { (h : Handled) → KeepsOpen h puts.now unsure.old → (k : KeyValue) (x : ExecValue) → held_at unsure.new k x ≡ cond (same_version x.ver exec.ver && nat_le x.eid exec.eid) None (held_at unsure.old k x) }
{
    match puts.find(exec.ver) {
        None => {}
        Some(put) => {
            if put.exec.eid <= exec.eid {
                unsure.erase(put.exec, put.writes.as_slice());
            }
        }
    }
}

/// Holds the writes of an execution, if they count.
fn refill(
    unsure: &mut WriteIndex,
    counts: bool,
    exec: Exec,
    writes: &[Write],
) -> Result<(), NoMemory>
    requires { length writes.now ≤ 4294967295 }
    ensures { OnOk result ((k : KeyValue) (x : ExecValue) → held_at unsure.new k x ≡ cond (same_exec x exec && counts) (option_or (last_write exec false 1 k writes.now) (held_at unsure.old k x)) (held_at unsure.old k x)) }
{
    if counts {
        unsure.fill(exec, false, writes)?;
    }
    Ok(())
}

fn or(a: bool, b: bool) -> bool
    ensures { result ≡ (a || b) }
{
    a || b
}

fn is_wid(held: Option<Held>, wid: Wid) -> bool
    ensures { result ≡ is_named wid held }
{
    match held {
        None => false,
        Some(held) => is_same_wid(wid, held.wid),
    }
}

impl Holdings {
    ghost use Rattle.mv_index.specs.Holdings.{StandsFor};

    pub fn new(alloc: Global, firsts: &[First2]) -> Result<Holdings, NoMemory>
        ensures { IfOk result (StandsFor firsts.now []) }
    {
        let firsts = FirstValues::new(alloc, firsts)?;
        Ok(Holdings {
            firsts,
            dropped: Version { ts: 0, client: 0 },
            base: BaseEntries::empty(alloc),
            puts: PutTable::new(alloc),
            abandoned: AbandonTable::new(alloc),
            commits: ContentTable::new(alloc),
            unsure: WriteIndex::new(alloc),
        })
    }

    /// The base of the last Drop.
    pub fn base(&self) -> &[BaseEntry]
        ensures { (firsts : List FirstValue) (h : Handled) → StandsFor firsts h self.now → result.now ≡ base h }
    {
        self.base.as_slice()
    }

    /// The Puts that are kept of a version.
    pub fn kept(&self, ver: Version) -> Option<&Put>
        ensures { (firsts : List FirstValue) (h : Handled) → StandsFor firsts h self.now → option_map (λ p. put_of p.now) result ≡ cond (before (dropped h) ver) (kept_put h ver) None }
    {
        self.puts.find(ver)
    }

    /// Whether Puts of an execution would count.
    fn is_counting(&self, exec: Exec) -> bool
        ensures { (firsts : List FirstValue) (h : Handled) → StandsFor firsts h self.now → before (dropped h) exec.ver ≡ true → result ≡ (not (has_commit h exec.ver) && not (is_blocked h exec.ver exec.eid)) }
    {
        let committed = self.commits.has_version(exec.ver);
        let blocked = self.abandoned.blocks(exec);
        !committed && !blocked
    }

    /// The writes that an execution made so far.
    pub fn put(&mut self, alloc: Global, exec: Exec, writes: &[Write]) -> Result<(), NoMemory>
        requires { length writes.now ≤ 4294967295 }
        ensures { (firsts : List FirstValue) (h : Handled) (from to : NodeValue) → StandsFor firsts h self.old → before (dropped h) exec.ver ≡ true → OnOk result (StandsFor firsts (record { from = from; to = to; body = Puts exec writes.now } ∷ h) self.new) }
    {
        if !self.puts.is_replaced(exec, writes) {
            return Ok(());
        }
        let counts = self.is_counting(exec);
        clear(&mut self.unsure, &self.puts, exec.ver);
        refill(&mut self.unsure, counts, exec, writes)?;
        self.puts.keep(alloc, exec, writes)?;
        Ok(())
    }

    /// An execution is decided Commit.
    pub fn commit(&mut self, alloc: Global, exec: Exec, content: &Content) -> Result<(), NoMemory>
        requires { length content.now.writes ≤ 4294967295 }
        ensures { (firsts : List FirstValue) (h : Handled) (from to : NodeValue) → StandsFor firsts h self.old → before (dropped h) exec.ver ≡ true → decided h exec ≡ None → OnOk result (StandsFor firsts (record { from = from; to = to; body = Decide exec ToCommit (Some content.now) } ∷ h) self.new) }
    {
        clear(&mut self.unsure, &self.puts, exec.ver);
        self.commits.add(alloc, exec, content)?;
        Ok(())
    }

    /// An execution is decided Abandon.
    pub fn abandon(&mut self, exec: Exec) -> Result<(), NoMemory>
        ensures { (firsts : List FirstValue) (h : Handled) (from to : NodeValue) (content : Option ContentValue) → StandsFor firsts h self.old → before (dropped h) exec.ver ≡ true → decided h exec ≡ None → OnOk result (StandsFor firsts (record { from = from; to = to; body = Decide exec Abandon content } ∷ h) self.new) }
    {
        block(&mut self.unsure, &self.puts, exec);
        self.abandoned.add(exec)?;
        Ok(())
    }

    /// Whether a content at a version is in conflict with a committed content or a base entry.
    pub fn conflicts(&self, ver: Version, content: &Content) -> bool
        ensures { (firsts : List FirstValue) (h : Handled) → StandsFor firsts h self.now → result ≡ (list_any (clashes_with_commit h (record { ver = ver; eid = 0 }) content.now) (commits h) || list_any (conflicts_with_base_of ver content.now) (base h)) }
    {
        let committed = self.commits.conflicts(ver, content);
        let based = self.base.conflicts(ver, content);
        or(committed, based)
    }

    /// The committed contents at or below a version, in rising order of execution.
    pub fn committed_upto(&self, alloc: Global, w: Version) -> Result<List<Kept>, NoMemory>
        ensures { (firsts : List FirstValue) (h : Handled) → StandsFor firsts h self.now → IfOk result (λ l. l ≡ committed_upto h w) }
    {
        self.commits.upto(alloc, w)
    }

    /// Everything at or below a version goes; the base takes its place.
    pub fn cut(&mut self, w: Version, base: List<BaseEntry>)
        requires { IsRisingBy (λ a b. key_before a.key b.key) base }
        ensures { (firsts : List FirstValue) (h : Handled) (from to : NodeValue) → StandsFor firsts h self.old → before (dropped h) w ≡ true → StandsFor firsts (record { from = from; to = to; body = Drops w base } ∷ h) self.new }
    {
        self.puts.cut(w);
        self.abandoned.cut(w);
        self.commits.cut(w);
        self.unsure.cut(w);
        self.dropped = w;
        self.base = BaseEntries::new(base);
    }

    /// What a reader at a version sees of a key: the latest write below it.
    pub fn latest_below(&self, key: Key, ver: Version) -> Held
        ensures { (firsts : List FirstValue) (h : Handled) → StandsFor firsts h self.now → result ≡ latest firsts h key ver }
    {
        let based = self.base.best_below(ver, self.firsts.held(key), key);
        let sure = best_with(ver, based, self.commits.last_below(key, ver));
        best_with(ver, sure, self.unsure.last_below(key, ver))
    }

    /// Whether a write is held of a key.
    pub fn holds(&self, key: Key, wid: Wid) -> bool
        ensures { (firsts : List FirstValue) (h : Handled) → StandsFor firsts h self.now → result ≡ list_any (λ a. same_wid wid a.wid) (held firsts h key) }
    {
        let exec = Exec {
            ver: wid.ver,
            eid: wid.eid,
        };
        let first = is_same_wid(wid, self.firsts.held(key).wid);
        let based = self.base.has(key, wid);
        let sure = is_wid(self.commits.write_at(key, exec), wid);
        let unsure = is_wid(self.unsure.at(key, exec), wid);
        or(first, or(based, or(sure, unsure)))
    }
}
