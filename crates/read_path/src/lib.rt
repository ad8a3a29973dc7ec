//! Reads and writes that come to a replica.
#![tactic(auto)]

ghost use Rattle.std.specs.Prelude.{◌≡◌, List, ◌∷◌, [], ◌≤◌, cond, not, length, IfOk, OnOk, OnErr, IsErr, IsTrue};
ghost use Rattle.morty_base.specs.declared.names.NodeId.{NodeId as NodeValue};
ghost use Rattle.msg.specs.declared.Body.TheVariants.{Get, Puts};
ghost use Rattle.protocol.specs.declared.First2.{First2 as FirstValue};
ghost use Rattle.protocol.specs.Replica.Taken.{Handled, dropped as dropped_of, takes, after_taking};
ghost use Rattle.protocol.specs.Replica.Says.{answer, refusal, note_of};
ghost use Rattle.mv_index.specs.Records.{StandsFor, WereTold, is_broken};
ghost use Rattle.read_path.specs.GetOut.{body_of, is_too_old};

use morty_base::{Exec, Key, NoMemory, Version, is_before};
use msg::{Body, Write};
use mv_index::Records;
use protocol::Held;
use std::alloc::Global;

/// What a Get is answered.
#[derive(Debug, Drop)]
pub enum GetOut {
    Note(Body),
    TooOld(Body),
}

impl GetOut {
    ghost use Rattle.read_path.specs.GetOut.{body_of};

    /// The body that is sent.
    pub fn into_body(self) -> Body
        ensures { result ≡ body_of self }
    {
        match self {
            GetOut::Note(body) => body,
            GetOut::TooOld(body) => body,
        }
    }
}

/// The Note that answers a read.
fn read_note(ver: Version, key: Key, seen: Held) -> Body
    ensures { result ≡ note_of ver key seen }
{
    Body::Note {
        ver,
        key,
        wid: seen.wid,
        value: seen.value,
        sure: seen.sure,
        gone: None,
    }
}

/// Records the reader and answers what it sees, or that it comes too late.
pub fn on_get(rec: &mut Records, exec: Exec, key: Key, dropped: Version) -> Result<GetOut, NoMemory>
    ensures answers { (firsts : List FirstValue) (h : Handled) → StandsFor firsts h rec.old → dropped ≡ dropped_of h → IfOk result (λ out. body_of out ∷ [] ≡ cond (takes h (Get exec key)) (answer firsts h (Get exec key)) (refusal h (Get exec key))) }
    ensures too_old { (firsts : List FirstValue) (h : Handled) → StandsFor firsts h rec.old → dropped ≡ dropped_of h → IfOk result (λ out. is_too_old out ≡ not (takes h (Get exec key))) }
    ensures stands { (firsts : List FirstValue) (h : Handled) (from to : NodeValue) → StandsFor firsts h rec.old → dropped ≡ dropped_of h → OnOk result (StandsFor firsts (after_taking h (record { from = from; to = to; body = Get exec key })) rec.new) }
    ensures told { (firsts : List FirstValue) (h : Handled) → StandsFor firsts h rec.old → WereTold firsts h rec.old → dropped ≡ dropped_of h → OnOk result (WereTold firsts h rec.new) }
    ensures broken { IsTrue (is_broken rec.old) → IsErr result }
    ensures breaks { OnErr result (IsTrue (is_broken rec.new)) }
{
    if rec.is_broken() {
        return Err(NoMemory);
    }
    if !is_before(dropped, exec.ver) {
        return Ok(GetOut::TooOld(Body::TooOld {
            ver: exec.ver,
            w: dropped,
        }));
    }
    rec.read_by(key, exec.ver)?;
    let seen = rec.latest_below(key, exec.ver);
    rec.mark(key, exec.ver, seen);
    Ok(GetOut::Note(read_note(exec.ver, key, seen)))
}

/// Keeps the writes of an execution.
pub fn on_puts(
    alloc: Global,
    rec: &mut Records,
    exec: Exec,
    writes: &[Write],
    dropped: Version,
) -> Result<(), NoMemory>
    requires { length writes.now ≤ 4294967295 }
    ensures stands { (firsts : List FirstValue) (h : Handled) (from to : NodeValue) → StandsFor firsts h rec.old → dropped ≡ dropped_of h → OnOk result (StandsFor firsts (after_taking h (record { from = from; to = to; body = Puts exec writes.now })) rec.new) }
    ensures told { (firsts : List FirstValue) (h : Handled) → WereTold firsts h rec.old → OnOk result (WereTold firsts h rec.new) }
    ensures broken { IsTrue (is_broken rec.old) → IsErr result }
    ensures breaks { OnErr result (IsTrue (is_broken rec.new)) }
{
    if rec.is_broken() {
        return Err(NoMemory);
    }
    if is_before(dropped, exec.ver) {
        rec.put(alloc, exec, writes)
    } else {
        Ok(())
    }
}
