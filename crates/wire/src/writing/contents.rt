//! Contents, and what stands behind a flag or a count.

ghost use Rattle.wire.specs.Outcome.{Adds};
ghost use Rattle.wire.specs.Field.{optional};
ghost use Rattle.wire.specs.Values as values;

use crate::item::put_items;
use crate::writing::codes::{put_choice, put_ending};
use crate::writing::names::{put_key, put_view, put_wid};
use crate::writing::numbers::{put_byte, put_i64, put_u16, put_u32};
use bytes::BytesMut;
use morty_base::{List, NoMemory, Wid};
use msg::{Accept, BaseEntry, Content, Kept, Read, Write};

#[tactic(auto, unfolding(crate::specs::Values::write))]
pub(crate) fn put_write(out: &mut BytesMut, write: Write) -> Result<(), NoMemory>
    ensures { Adds values.write write result out.old.items out.new.items }
{
    put_key(out, write.key)?;
    put_i64(out, write.value)
}

#[tactic(auto, unfolding(crate::specs::Values::read))]
pub(crate) fn put_read(out: &mut BytesMut, read: Read) -> Result<(), NoMemory>
    ensures { Adds values.read read result out.old.items out.new.items }
{
    put_key(out, read.key)?;
    put_wid(out, read.wid)?;
    put_i64(out, read.value)
}

#[tactic(auto, unfolding(crate::specs::Values::accept))]
fn put_accept(out: &mut BytesMut, accept: Accept) -> Result<(), NoMemory>
    ensures { Adds values.accept accept result out.old.items out.new.items }
{
    put_view(out, accept.view)?;
    put_choice(out, accept.choice)
}

#[tactic(auto, unfolding(crate::specs::Field::u8))]
pub(crate) fn put_optional_wid(out: &mut BytesMut, wid: Option<Wid>) -> Result<(), NoMemory>
    ensures { Adds (optional values.wid) wid result out.old.items out.new.items }
{
    match wid {
        None => put_byte(out, 0),
        Some(wid) => {
            put_byte(out, 1)?;
            put_wid(out, wid)
        }
    }
}

#[tactic(auto, unfolding(crate::specs::Field::u8))]
pub(crate) fn put_optional_accept(
    out: &mut BytesMut,
    accept: Option<Accept>,
) -> Result<(), NoMemory>
    ensures { Adds (optional values.accept) accept result out.old.items out.new.items }
{
    match accept {
        None => put_byte(out, 0),
        Some(accept) => {
            put_byte(out, 1)?;
            put_accept(out, accept)
        }
    }
}

#[tactic(auto, unfolding(crate::specs::Values::reads))]
fn put_reads(out: &mut BytesMut, reads: &List<Read>) -> Result<(), NoMemory>
    requires { values.reads.Admits reads.now }
    ensures { Adds values.reads reads.now result out.old.items out.new.items }
{
    put_u16(out, reads.len() as u16)?;
    put_items::<Read>(out, reads.as_slice())
}

#[tactic(auto, unfolding(crate::specs::Values::writes))]
pub(crate) fn put_writes(out: &mut BytesMut, writes: &List<Write>) -> Result<(), NoMemory>
    requires { values.writes.Admits writes.now }
    ensures { Adds values.writes writes.now result out.old.items out.new.items }
{
    put_u16(out, writes.len() as u16)?;
    put_items::<Write>(out, writes.as_slice())
}

#[tactic(auto, unfolding(crate::specs::Values::out))]
fn put_out(out: &mut BytesMut, numbers: &List<i64>) -> Result<(), NoMemory>
    requires { values.out.Admits numbers.now }
    ensures { Adds values.out numbers.now result out.old.items out.new.items }
{
    put_u16(out, numbers.len() as u16)?;
    put_items::<i64>(out, numbers.as_slice())
}

#[tactic(auto, unfolding(crate::specs::Values::content))]
pub(crate) fn put_content(out: &mut BytesMut, content: &Content) -> Result<(), NoMemory>
    requires { values.content.Admits content.now }
    ensures { Adds values.content content.now result out.old.items out.new.items }
{
    put_reads(out, &content.reads)?;
    put_writes(out, &content.writes)?;
    put_out(out, &content.out)?;
    put_ending(out, content.ending)
}

#[tactic(auto, unfolding(crate::specs::Field::u8, crate::specs::Values::chosen))]
pub(crate) fn put_chosen(out: &mut BytesMut, content: &Option<Content>) -> Result<(), NoMemory>
    requires { values.chosen.Admits content.now }
    ensures { Adds values.chosen content.now result out.old.items out.new.items }
{
    match content {
        None => put_byte(out, 0),
        Some(content) => {
            put_byte(out, 1)?;
            put_content(out, content)
        }
    }
}

#[tactic(auto, unfolding(crate::specs::Values::base))]
pub(crate) fn put_base(out: &mut BytesMut, base: &List<BaseEntry>) -> Result<(), NoMemory>
    requires { values.base.Admits base.now }
    ensures { Adds values.base base.now result out.old.items out.new.items }
{
    put_u32(out, base.len() as u32)?;
    put_items::<BaseEntry>(out, base.as_slice())
}

#[tactic(auto, unfolding(crate::specs::Values::kept))]
pub(crate) fn put_kept(out: &mut BytesMut, kept: &List<Kept>) -> Result<(), NoMemory>
    requires { values.kept.Admits kept.now }
    ensures { Adds values.kept kept.now result out.old.items out.new.items }
{
    put_u32(out, kept.len() as u32)?;
    put_items::<Kept>(out, kept.as_slice())
}
