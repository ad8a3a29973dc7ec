ghost use Rattle.std.specs.Prelude.{◌≡◌, ◌≤◌, ◌++◌, [], reverse, length, slice_get, IfOk, OnOk};
ghost use Rattle.morty_base.specs.declared.names.Key.{Key as KeyValue};
ghost use Rattle.txn_lang.specs.Keys.{found};
ghost use Rattle.exec_log.specs.Entries.{read_entries, write_entries};
ghost use Rattle.exec_log.specs.Knowledge.{IsRising, rank, is_of, with_entry};

use crate::read::LogRead;
use continuation::Known;
use morty_base::{Key, List, NoMemory, is_key_before, is_same_key};
use msg::Write;
use std::alloc::Global;

// How many entries stand before the place of a key.
fn rank(known: &[Known], key: Key) -> usize
    ensures value { result ≡ rank key known.now }
    ensures within { result ≤ length known.now }
{
    match known.split_first() {
        Some((first, rest)) if is_key_before(first.key, key) => 1 + rank(rest, key),
        _ => 0,
    }
}

// Whether an entry of a key stands there.
fn is_held(known: &[Known], at: usize, key: Key) -> bool
    ensures { result ≡ is_of (slice_get known.now at) key }
{
    match known.get(at) {
        Some(entry) => is_same_key(entry.key, key),
        None => false,
    }
}

fn put(known: &mut Vec<Known>, entry: Known) -> Result<(), NoMemory>
    ensures { OnOk result (known.new.items ≡ with_entry entry known.old.items) }
{
    let at = rank(known.as_slice(), entry.key);
    if is_held(known.as_slice(), at, entry.key) {
        known[at] = entry;
    } else {
        known.insert(at, entry)?;
    }
    Ok(())
}

// The first answer to a read of a key counts.
fn put_reads(known: &mut Vec<Known>, reads: &[LogRead]) -> Result<(), NoMemory>
    ensures rising { OnOk result (IsRising known.old.items → IsRising known.new.items) }
    ensures shows { OnOk result ((k : KeyValue) → found known.new.items k ≡ found (read_entries reads.now ++ known.old.items) k) }
{
    if let Some((first, rest)) = reads.split_first() {
        put_reads(known, rest)?;
        let (key, value) = (first.key, first.value);
        put(known, Known { key, value })?;
    }
    Ok(())
}

// The last write of a key counts.
fn put_writes(known: &mut Vec<Known>, writes: &[Write]) -> Result<(), NoMemory>
    ensures rising { OnOk result (IsRising known.old.items → IsRising known.new.items) }
    ensures shows { OnOk result ((k : KeyValue) → found known.new.items k ≡ found (reverse (write_entries writes.now) ++ known.old.items) k) }
{
    if let Some((last, front)) = writes.split_last() {
        put_writes(known, front)?;
        let (key, value) = (last.key, last.value);
        put(known, Known { key, value })?;
    }
    Ok(())
}

// What a run with these reads and writes sees of keys without asking: the last own write, else the answer.
pub(crate) fn knowledge(
    alloc: Global,
    reads: &[LogRead],
    writes: &[Write],
) -> Result<List<Known>, NoMemory>
    ensures rising { IfOk result (λ known. IsRising known) }
    ensures shows { IfOk result (λ known. (k : KeyValue) → found known k ≡ found (reverse (write_entries writes.now) ++ read_entries reads.now) k) }
{
    let mut known = Vec::new(alloc);
    put_reads(&mut known, reads)?;
    put_writes(&mut known, writes)?;
    Ok(List::from_vec(known))
}
