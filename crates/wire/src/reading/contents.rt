//! Contents, and what stands behind a flag or a count.

ghost use Rattle.wire.specs.Outcome.{Gives};
ghost use Rattle.wire.specs.Field.{optional};
ghost use Rattle.wire.specs.Values as values;

use crate::fault::FrameFault;
use crate::item::take_items;
use crate::limits::{MAX_LONG, MAX_SHORT};
use crate::reading::codes::{take_choice, take_ending};
use crate::reading::names::{take_key, take_view, take_wid};
use crate::reading::numbers::{take_i64, take_u16, take_u32};
use morty_base::{List, Wid};
use msg::{Accept, BaseEntry, Content, Kept, Read, Write};
use std::alloc::Global;

#[tactic(auto, unfolding(crate::specs::Values::write))]
pub(crate) fn take_write(bytes: &[u8]) -> Result<(Write, &[u8]), FrameFault>
    ensures { Gives (λ x. (x.0, x.1.now)) result (values.write.judged bytes.now) }
{
    let (key, rest) = take_key(bytes)?;
    let (value, rest) = take_i64(rest)?;
    Ok((Write { key, value }, rest))
}

#[tactic(auto, unfolding(crate::specs::Values::read))]
pub(crate) fn take_read(bytes: &[u8]) -> Result<(Read, &[u8]), FrameFault>
    ensures { Gives (λ x. (x.0, x.1.now)) result (values.read.judged bytes.now) }
{
    let (key, rest) = take_key(bytes)?;
    let (wid, rest) = take_wid(rest)?;
    let (value, rest) = take_i64(rest)?;
    Ok((Read { key, wid, value }, rest))
}

#[tactic(auto, unfolding(crate::specs::Values::accept))]
fn take_accept(bytes: &[u8]) -> Result<(Accept, &[u8]), FrameFault>
    ensures { Gives (λ x. (x.0, x.1.now)) result (values.accept.judged bytes.now) }
{
    let (view, rest) = take_view(bytes)?;
    let (choice, rest) = take_choice(rest)?;
    Ok((Accept { view, choice }, rest))
}

pub(crate) fn take_optional_wid(bytes: &[u8]) -> Result<(Option<Wid>, &[u8]), FrameFault>
    ensures { Gives (λ x. (x.0, x.1.now)) result ((optional values.wid).judged bytes.now) }
{
    match bytes {
        [] => Err(FrameFault::Short),
        [0, rest @ ..] => Ok((None, rest)),
        [1, rest @ ..] => {
            let (wid, rest) = take_wid(rest)?;
            Ok((Some(wid), rest))
        }
        [_, ..] => Err(FrameFault::Kind),
    }
}

pub(crate) fn take_optional_accept(bytes: &[u8]) -> Result<(Option<Accept>, &[u8]), FrameFault>
    ensures { Gives (λ x. (x.0, x.1.now)) result ((optional values.accept).judged bytes.now) }
{
    match bytes {
        [] => Err(FrameFault::Short),
        [0, rest @ ..] => Ok((None, rest)),
        [1, rest @ ..] => {
            let (accept, rest) = take_accept(rest)?;
            Ok((Some(accept), rest))
        }
        [_, ..] => Err(FrameFault::Kind),
    }
}

fn take_short_count(bytes: &[u8]) -> Result<(u16, &[u8]), FrameFault>
    ensures { Gives (λ x. (x.0, x.1.now)) result (values.short_count.judged bytes.now) }
{
    let (count, rest) = take_u16(bytes)?;
    if count <= MAX_SHORT {
        Ok((count, rest))
    } else {
        Err(FrameFault::Long)
    }
}

fn take_long_count(bytes: &[u8]) -> Result<(u32, &[u8]), FrameFault>
    ensures { Gives (λ x. (x.0, x.1.now)) result (values.long_count.judged bytes.now) }
{
    let (count, rest) = take_u32(bytes)?;
    if count <= MAX_LONG {
        Ok((count, rest))
    } else {
        Err(FrameFault::Long)
    }
}

#[tactic(auto, unfolding(crate::specs::Values::reads))]
fn take_reads(alloc: Global, bytes: &[u8]) -> Result<(List<Read>, &[u8]), FrameFault>
    ensures { Gives (λ x. (x.0, x.1.now)) result (values.reads.judged bytes.now) }
{
    let (count, rest) = take_short_count(bytes)?;
    take_items::<Read>(alloc, count as u32, rest)
}

#[tactic(auto, unfolding(crate::specs::Values::writes))]
pub(crate) fn take_writes(alloc: Global, bytes: &[u8]) -> Result<(List<Write>, &[u8]), FrameFault>
    ensures { Gives (λ x. (x.0, x.1.now)) result (values.writes.judged bytes.now) }
{
    let (count, rest) = take_short_count(bytes)?;
    take_items::<Write>(alloc, count as u32, rest)
}

#[tactic(auto, unfolding(crate::specs::Values::out))]
fn take_out(alloc: Global, bytes: &[u8]) -> Result<(List<i64>, &[u8]), FrameFault>
    ensures { Gives (λ x. (x.0, x.1.now)) result (values.out.judged bytes.now) }
{
    let (count, rest) = take_short_count(bytes)?;
    take_items::<i64>(alloc, count as u32, rest)
}

#[tactic(auto, unfolding(crate::specs::Values::content))]
pub(crate) fn take_content(alloc: Global, bytes: &[u8]) -> Result<(Content, &[u8]), FrameFault>
    ensures { Gives (λ x. (x.0, x.1.now)) result (values.content.judged bytes.now) }
{
    let (reads, rest) = take_reads(alloc, bytes)?;
    let (writes, rest) = take_writes(alloc, rest)?;
    let (out, rest) = take_out(alloc, rest)?;
    let (ending, rest) = take_ending(rest)?;
    Ok((
        Content {
            reads,
            writes,
            out,
            ending,
        },
        rest,
    ))
}

#[tactic(auto, unfolding(crate::specs::Values::chosen))]
pub(crate) fn take_chosen(
    alloc: Global,
    bytes: &[u8],
) -> Result<(Option<Content>, &[u8]), FrameFault>
    ensures { Gives (λ x. (x.0, x.1.now)) result (values.chosen.judged bytes.now) }
{
    match bytes {
        [] => Err(FrameFault::Short),
        [0, rest @ ..] => Ok((None, rest)),
        [1, rest @ ..] => {
            let (content, rest) = take_content(alloc, rest)?;
            Ok((Some(content), rest))
        }
        [_, ..] => Err(FrameFault::Kind),
    }
}

#[tactic(auto, unfolding(crate::specs::Values::base))]
pub(crate) fn take_base(alloc: Global, bytes: &[u8]) -> Result<(List<BaseEntry>, &[u8]), FrameFault>
    ensures { Gives (λ x. (x.0, x.1.now)) result (values.base.judged bytes.now) }
{
    let (count, rest) = take_long_count(bytes)?;
    take_items::<BaseEntry>(alloc, count, rest)
}

#[tactic(auto, unfolding(crate::specs::Values::kept))]
pub(crate) fn take_kept(alloc: Global, bytes: &[u8]) -> Result<(List<Kept>, &[u8]), FrameFault>
    ensures { Gives (λ x. (x.0, x.1.now)) result (values.kept.judged bytes.now) }
{
    let (count, rest) = take_long_count(bytes)?;
    take_items::<Kept>(alloc, count, rest)
}
