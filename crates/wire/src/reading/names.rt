//! Names.

ghost use Rattle.wire.specs.Outcome.{Gives};
ghost use Rattle.wire.specs.Values as values;

use crate::fault::FrameFault;
use crate::reading::numbers::{take_i64, take_u16, take_u32, take_u64};
use morty_base::{Exec, Key, Version, Wid};

#[tactic(auto, unfolding(crate::specs::Values::version))]
pub(crate) fn take_version(bytes: &[u8]) -> Result<(Version, &[u8]), FrameFault>
    ensures { Gives (λ x. (x.0, x.1.now)) result (values.version.judged bytes.now) }
{
    let (ts, rest) = take_u64(bytes)?;
    let (client, rest) = take_u32(rest)?;
    Ok((Version { ts, client }, rest))
}

#[tactic(auto, unfolding(crate::specs::Values::exec))]
pub(crate) fn take_exec(bytes: &[u8]) -> Result<(Exec, &[u8]), FrameFault>
    ensures { Gives (λ x. (x.0, x.1.now)) result (values.exec.judged bytes.now) }
{
    let (ver, rest) = take_version(bytes)?;
    let (eid, rest) = take_u32(rest)?;
    Ok((Exec { ver, eid }, rest))
}

#[tactic(auto, unfolding(crate::specs::Values::wid))]
pub(crate) fn take_wid(bytes: &[u8]) -> Result<(Wid, &[u8]), FrameFault>
    ensures { Gives (λ x. (x.0, x.1.now)) result (values.wid.judged bytes.now) }
{
    let (ver, rest) = take_version(bytes)?;
    let (eid, rest) = take_u32(rest)?;
    let (seq, rest) = take_u32(rest)?;
    Ok((Wid { ver, eid, seq }, rest))
}

#[tactic(auto, unfolding(crate::specs::Values::key))]
pub(crate) fn take_key(bytes: &[u8]) -> Result<(Key, &[u8]), FrameFault>
    ensures { Gives (λ x. (x.0, x.1.now)) result (values.key.judged bytes.now) }
{
    let (table, rest) = take_u16(bytes)?;
    let (index, rest) = take_i64(rest)?;
    Ok((Key { table, index }, rest))
}

#[tactic(auto, unfolding(crate::specs::Values::view))]
pub(crate) fn take_view(bytes: &[u8]) -> Result<(u32, &[u8]), FrameFault>
    ensures { Gives (λ x. (x.0, x.1.now)) result (values.view.judged bytes.now) }
{
    take_u32(bytes)
}
