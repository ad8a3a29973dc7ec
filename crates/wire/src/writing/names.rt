//! Names.

ghost use Rattle.wire.specs.Outcome.{Adds};
ghost use Rattle.wire.specs.Values as values;

use crate::writing::numbers::{put_i64, put_u16, put_u32, put_u64};
use bytes::BytesMut;
use morty_base::{Exec, Key, NoMemory, Version, Wid};

#[tactic(auto, unfolding(crate::specs::Values::version))]
pub(crate) fn put_version(out: &mut BytesMut, version: Version) -> Result<(), NoMemory>
    ensures { Adds values.version version result out.old.items out.new.items }
{
    put_u64(out, version.ts)?;
    put_u32(out, version.client)
}

#[tactic(auto, unfolding(crate::specs::Values::exec))]
pub(crate) fn put_exec(out: &mut BytesMut, exec: Exec) -> Result<(), NoMemory>
    ensures { Adds values.exec exec result out.old.items out.new.items }
{
    put_version(out, exec.ver)?;
    put_u32(out, exec.eid)
}

#[tactic(auto, unfolding(crate::specs::Values::wid))]
pub(crate) fn put_wid(out: &mut BytesMut, wid: Wid) -> Result<(), NoMemory>
    ensures { Adds values.wid wid result out.old.items out.new.items }
{
    put_version(out, wid.ver)?;
    put_u32(out, wid.eid)?;
    put_u32(out, wid.seq)
}

#[tactic(auto, unfolding(crate::specs::Values::key))]
pub(crate) fn put_key(out: &mut BytesMut, key: Key) -> Result<(), NoMemory>
    ensures { Adds values.key key result out.old.items out.new.items }
{
    put_u16(out, key.table)?;
    put_i64(out, key.index)
}

#[tactic(auto, unfolding(crate::specs::Values::view))]
pub(crate) fn put_view(out: &mut BytesMut, view: u32) -> Result<(), NoMemory>
    ensures { Adds values.view view result out.old.items out.new.items }
{
    put_u32(out, view)
}
