//! The reads of a log beside the labels that they take in the next execution.

ghost use Rattle.std.specs.Prelude.{◌≡◌, ◌<◌, List, length, map, get_or, set, Some, IfSome, OnOk};
ghost use Rattle.std.specs.List.{list_any, list_all};
ghost use Rattle.exec_log.specs.declared.read.LogRead.{LogRead as Read};
ghost use Rattle.protocol.specs.Client.Following.{place_of, no_answer};
ghost use Rattle.protocol.specs.Client.Deciding.{is_change, has_other_wid, has_other_value};
ghost use Rattle.coordinator.specs.Answers.{held_of, next_at, answers_with, are_sure};
ghost use Rattle.coordinator.specs.Moving.{first_other};

use exec_log::LogRead;
use morty_base::{Key, List, NoMemory, is_same_key, is_same_wid};
use protocol::Held;

/// The place of the read of a key.
pub(crate) fn place_of(key: Key, reads: &[LogRead]) -> Option<usize>
    ensures place { result ≡ place_of key 0 (map (λ r. r.key) reads.now) }
    ensures within { IfSome result (λ i. i < length reads.now) }
{
    let (first, others) = reads.split_first()?;
    if is_same_key(key, first.key) {
        return Some(0);
    }
    let place = place_of(key, others)?;
    Some(1 + place)
}

/// Whether each read is sure.
pub(crate) fn are_sure(reads: &[LogRead]) -> bool
    ensures { result ≡ are_sure reads.now }
{
    reads.iter().all(|read| read.sure)
}

/// The label of a read.
pub(crate) fn held_of(read: LogRead) -> Held
    ensures { result ≡ held_of read }
{
    Held {
        wid: read.wid,
        value: read.value,
        sure: read.sure,
    }
}

/// The next label of the read at a place.
pub(crate) fn next_at(nexts: &[Option<Held>], i: usize) -> Option<Held>
    ensures { result ≡ next_at nexts.now i }
{
    match nexts.get(i) {
        Some(next) => *next,
        None => None,
    }
}

/// Puts a next label at a place. Places before it that are not listed have none.
pub(crate) fn set_next(
    nexts: &mut List<Option<Held>>,
    i: usize,
    label: Held,
) -> Result<(), NoMemory>
    ensures { OnOk result ((reads : List Read) → i < length reads → answers_with reads nexts.new ≡ set (answers_with reads nexts.old) i (record (get_or (answers_with reads nexts.old) i no_answer) { next = Some label })) }
{
    while nexts.len() <= i {
        nexts.push(None)?;
    }
    nexts.set(i, Some(label));
    Ok(())
}

// Whether a next label names another write.
fn has_other_wid(old: Held, next: Option<Held>) -> bool
    ensures { result ≡ has_other_wid old next }
{
    match next {
        Some(new) => !is_same_wid(old.wid, new.wid),
        None => false,
    }
}

// Whether a next label has another value.
fn has_other_value(old: Held, next: Option<Held>) -> bool
    ensures { result ≡ has_other_value old next }
{
    match next {
        Some(new) => old.value != new.value,
        None => false,
    }
}

/// Whether some read has a change pending.
pub(crate) fn has_change(reads: &[LogRead], nexts: &[Option<Held>]) -> bool
    ensures { result ≡ list_any is_change (answers_with reads.now nexts.now) }
{
    let Some((read, reads)) = reads.split_first() else {
        return false;
    };
    let Some((next, nexts)) = nexts.split_first() else {
        return false;
    };
    has_other_wid(held_of(*read), *next) || has_change(reads, nexts)
}

/// The place of the first read whose value changes.
pub(crate) fn first_other(reads: &[LogRead], nexts: &[Option<Held>]) -> Option<usize>
    ensures place { result ≡ first_other reads.now nexts.now }
    ensures within { IfSome result (λ i. i < length reads.now) }
{
    let (read, reads) = reads.split_first()?;
    let (next, nexts) = nexts.split_first()?;
    if has_other_value(held_of(*read), *next) {
        return Some(0);
    }
    let place = first_other(reads, nexts)?;
    Some(1 + place)
}
