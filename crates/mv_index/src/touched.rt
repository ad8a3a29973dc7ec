//! The keys of which what is seen may have changed since the Notes were last looked for.

ghost use Rattle.std.specs.Prelude.{◌≡◌, ◌||◌, not, true, List, OnOk};
ghost use Rattle.protocol.specs.Replica.Taken.{Handled, dropped};
ghost use Rattle.protocol.specs.Replica.Held.{kept_put};
ghost use Rattle.protocol.specs.declared.First2.{First2 as FirstValue};
ghost use Rattle.morty_base.specs.Names.{before};
ghost use Rattle.mv_index.specs.Holdings.{StandsFor as HoldingsStandFor};
ghost use Rattle.mv_index.specs.HeldByExec.{kept_writes};
ghost use Rattle.mv_index.specs.KeyList.{AreRising, Lists};
ghost use Rattle.protocol.specs.Replica.Votes.{writes_key};
ghost use Rattle.mv_index.specs.Records.{earlier as earlier_of};

use crate::holdings::Holdings;
use crate::key_list::KeyList;
use morty_base::{Key, NoMemory, Version, is_before};
use msg::Write;

pub(crate) fn either(all: bool, listed: bool) -> bool
    ensures { result ≡ (all || not listed) }
{
    all || !listed
}

/// The earlier of two versions.
pub(crate) fn earlier(low: Version, ver: Version) -> Version
    ensures { result ≡ earlier_of low ver }
{
    if is_before(ver, low) { ver } else { low }
}

/// The keys of these writes are listed from now on.
pub(crate) fn touch(touched: &mut KeyList, writes: &[Write]) -> Result<(), NoMemory>
    ensures { AreRising touched.old.keys.items → OnOk result (Lists (λ k. writes_key k writes.now) touched.old touched.new) }
{
    for write in writes {
        touched.add(write.key)?;
    }
    Ok(())
}

/// The keys of the Puts that are kept of a version are listed from now on.
pub(crate) fn touch_kept(
    touched: &mut KeyList,
    holdings: &Holdings,
    ver: Version,
) -> Result<(), NoMemory>
    ensures { (firsts : List FirstValue) (h : Handled) → HoldingsStandFor firsts h holdings.now → before (dropped h) ver ≡ true → AreRising touched.old.keys.items → OnOk result (Lists (λ k. writes_key k (kept_writes (kept_put h ver))) touched.old touched.new) }
{
    match holdings.kept(ver) {
        None => Ok(()),
        Some(put) => touch(touched, put.writes.as_slice()),
    }
}
