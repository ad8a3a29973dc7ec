//! What a replica says of a fence, and what it drops.

ghost use Rattle.std.specs.Prelude.{◌≡◌, ◌∷◌, [], true, IfOk, IsErr, IsTrue};
ghost use Rattle.morty_base.specs.declared.names.NodeId.{NodeId as NodeValue};
ghost use Rattle.morty_base.specs.Names.{before, key_before};
ghost use Rattle.msg.specs.declared.Body.TheVariants.{Fence, Drop as Drops};
ghost use Rattle.protocol.specs.declared.First2.{First2 as FirstValue};
ghost use Rattle.protocol.specs.Lists.{IsRisingBy};
ghost use Rattle.protocol.specs.Replica.Taken.{Handled, dropped};
ghost use Rattle.protocol.specs.Replica.Says.{answer};
ghost use Rattle.mv_index.specs.Records.{StandsFor, WereTold, is_broken};

use morty_base::{List, NoMemory, Version};
use msg::{BaseEntry, Body};
use mv_index::Records;
use std::alloc::Global;

/// The answer to a Fence.
pub fn fence(alloc: Global, rec: &Records, w: Version) -> Result<Body, NoMemory>
    ensures answer { (firsts : List FirstValue) (h : Handled) → StandsFor firsts h rec.now → before (dropped h) w ≡ true → IfOk result (λ b. b ∷ [] ≡ answer firsts h (Fence w)) }
    ensures broken { IsTrue (is_broken rec.now) → IsErr result }
{
    let base = rec.base_upto(alloc, w)?;
    let committed = rec.committed_upto(alloc, w)?;
    let voted = rec.voted_upto(alloc, w)?;
    Ok(Body::Fenced {
        w,
        base,
        committed,
        voted,
    })
}

/// A Drop on the records.
pub fn drop_to(rec: &mut Records, w: Version, base: List<BaseEntry>)
    requires { IsRisingBy (λ a b. key_before a.key b.key) base }
    ensures stands { (firsts : List FirstValue) (h : Handled) (from to : NodeValue) → StandsFor firsts h rec.old → before (dropped h) w ≡ true → StandsFor firsts (record { from = from; to = to; body = Drops w base } ∷ h) rec.new }
    ensures told { (firsts : List FirstValue) (h : Handled) → WereTold firsts h rec.old → WereTold firsts h rec.new }
{
    rec.cut(w, base);
}
