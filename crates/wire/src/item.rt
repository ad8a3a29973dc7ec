//! Counted lists, over the kinds of their items.

ghost use Rattle.std.specs.Prelude.{◌≡◌, ◌++◌, ℕ, All, None, Option, List, OnOk};
ghost use Rattle.std.specs.Option.{option_copied};
ghost use Rattle.std.specs.List.{flat_map};
ghost use Rattle.wire.specs.Outcome.{Gives};
ghost use Rattle.wire.specs.Field.{Judged, items_at, i64};
ghost use Rattle.wire.specs.Values as values;

use crate::fault::FrameFault;
use crate::reading::contents::{take_content, take_read, take_write};
use crate::reading::names::{take_exec, take_key, take_wid};
use crate::reading::numbers::take_i64;
use crate::writing::contents::{put_content, put_read, put_write};
use crate::writing::names::{put_exec, put_key, put_wid};
use crate::writing::numbers::put_i64;
use bytes::BytesMut;
use morty_base::{Exec, Key, List, NoMemory, is_exec_before, is_key_before};
use msg::{BaseEntry, Kept, Read, Write};
use std::alloc::Global;

/// What stands in a counted list. It is read in the light of the item before it.
pub(crate) trait Item: Drop {
    ghost judged: { Option Self → List ℕ → Judged Self };

    ghost frame: { Self → List ℕ };

    ghost MayPut: { Self → Type 0 };

    ghost InRange: { Self → Type 0 };

    fn take<'a>(
        alloc: Global,
        before: Option<&Self>,
        bytes: &'a [u8],
    ) -> Result<(Self, &'a [u8]), FrameFault>
        ensures { Gives (λ x. (x.0, x.1.now)) result (judged (option_copied before.entry) bytes.now) };

    fn put(&self, out: &mut BytesMut) -> Result<(), NoMemory>
        requires { MayPut self.now }
        ensures { OnOk result ((out.new.items ≡ out.old.items ++ frame self.now) × InRange self.now) };
}

impl Item for Write {
    ghost judged = { λ before. values.write.judged };

    ghost frame = { values.write.frame };

    ghost MayPut = { λ x. Unit {0} };

    ghost InRange = { values.write.InRange };

    fn take<'a>(
        _alloc: Global,
        _before: Option<&Self>,
        bytes: &'a [u8],
    ) -> Result<(Self, &'a [u8]), FrameFault> {
        take_write(bytes)
    }

    fn put(&self, out: &mut BytesMut) -> Result<(), NoMemory> {
        put_write(out, *self)
    }
}

impl Item for Read {
    ghost judged = { λ before. values.read.judged };

    ghost frame = { values.read.frame };

    ghost MayPut = { λ x. Unit {0} };

    ghost InRange = { values.read.InRange };

    fn take<'a>(
        _alloc: Global,
        _before: Option<&Self>,
        bytes: &'a [u8],
    ) -> Result<(Self, &'a [u8]), FrameFault> {
        take_read(bytes)
    }

    fn put(&self, out: &mut BytesMut) -> Result<(), NoMemory> {
        put_read(out, *self)
    }
}

impl Item for i64 {
    ghost judged = { λ before. i64.judged };

    ghost frame = { i64.frame };

    ghost MayPut = { λ x. Unit {0} };

    ghost InRange = { i64.InRange };

    fn take<'a>(
        _alloc: Global,
        _before: Option<&Self>,
        bytes: &'a [u8],
    ) -> Result<(Self, &'a [u8]), FrameFault> {
        take_i64(bytes)
    }

    fn put(&self, out: &mut BytesMut) -> Result<(), NoMemory> {
        put_i64(out, *self)
    }
}

impl Item for BaseEntry {
    ghost judged = { λ before. (values.base_entry before).judged };

    ghost frame = { (values.base_entry None).frame };

    ghost MayPut = { λ x. Unit {0} };

    ghost InRange = { (values.base_entry None).InRange };

    #[tactic(auto, unfolding(crate::specs::Values::base_entry))]
    fn take<'a>(
        _alloc: Global,
        before: Option<&Self>,
        bytes: &'a [u8],
    ) -> Result<(Self, &'a [u8]), FrameFault> {
        let (key, rest) = take_key_above(before, bytes)?;
        let (wid, rest) = take_wid(rest)?;
        let (value, rest) = take_i64(rest)?;
        Ok((BaseEntry { key, wid, value }, rest))
    }

    #[tactic(auto, unfolding(crate::specs::Values::base_entry, crate::specs::Values::base_key))]
    fn put(&self, out: &mut BytesMut) -> Result<(), NoMemory> {
        put_key(out, self.key)?;
        put_wid(out, self.wid)?;
        put_i64(out, self.value)
    }
}

impl Item for Kept {
    ghost judged = { λ before. (values.kept_entry before).judged };

    ghost frame = { (values.kept_entry None).frame };

    ghost MayPut = { λ k. values.content.Admits k.content };

    ghost InRange = { (values.kept_entry None).InRange };

    #[tactic(auto, unfolding(crate::specs::Values::kept_entry))]
    fn take<'a>(
        alloc: Global,
        before: Option<&Self>,
        bytes: &'a [u8],
    ) -> Result<(Self, &'a [u8]), FrameFault> {
        let (exec, rest) = take_exec_above(before, bytes)?;
        let (content, rest) = take_content(alloc, rest)?;
        Ok((Kept { exec, content }, rest))
    }

    #[tactic(auto, unfolding(crate::specs::Values::kept_entry, crate::specs::Values::kept_exec))]
    fn put(&self, out: &mut BytesMut) -> Result<(), NoMemory> {
        put_exec(out, self.exec)?;
        put_content(out, &self.content)
    }
}

// The key of an entry, which stands above that of the entry before.
#[tactic(auto, unfolding(crate::specs::Values::base_key))]
fn take_key_above<'a>(
    before: Option<&BaseEntry>,
    bytes: &'a [u8],
) -> Result<(Key, &'a [u8]), FrameFault>
    ensures { Gives (λ x. (x.0, x.1.now)) result ((values.base_key (option_copied before.entry)).judged bytes.now) }
{
    let (key, rest) = take_key(bytes)?;
    match before {
        None => Ok((key, rest)),
        Some(entry) => {
            if is_key_before(entry.key, key) {
                Ok((key, rest))
            } else {
                Err(FrameFault::Order)
            }
        }
    }
}

// The execution of an entry, which stands above that of the entry before.
#[tactic(auto, unfolding(crate::specs::Values::kept_exec))]
fn take_exec_above<'a>(
    before: Option<&Kept>,
    bytes: &'a [u8],
) -> Result<(Exec, &'a [u8]), FrameFault>
    ensures { Gives (λ x. (x.0, x.1.now)) result ((values.kept_exec (option_copied before.entry)).judged bytes.now) }
{
    let (exec, rest) = take_exec(bytes)?;
    match before {
        None => Ok((exec, rest)),
        Some(entry) => {
            if is_exec_before(entry.exec, exec) {
                Ok((exec, rest))
            } else {
                Err(FrameFault::Order)
            }
        }
    }
}

/// As many items as the count says.
pub(crate) fn take_items<T: Item>(
    alloc: Global,
    count: u32,
    bytes: &[u8],
) -> Result<(List<T>, &[u8]), FrameFault>
    ensures { Gives (λ x. (x.0, x.1.now)) result (items_at T.judged None count bytes.now) }
{
    let mut items = List::new(alloc);
    let mut rest = bytes;
    for _ in 0..count {
        let (item, after) = T::take(alloc, items.as_slice().last(), rest)?;
        items.push(item)?;
        rest = after;
    }
    Ok((items, rest))
}

/// The items, one after another.
pub(crate) fn put_items<T: Item>(out: &mut BytesMut, items: &[T]) -> Result<(), NoMemory>
    requires { All T.MayPut items.now }
    ensures { OnOk result ((out.new.items ≡ out.old.items ++ flat_map T.frame items.now) × All T.InRange items.now) }
{
    for item in items {
        item.put(out)?;
    }
    Ok(())
}
