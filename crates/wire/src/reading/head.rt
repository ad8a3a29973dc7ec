//! The head of a frame, and the whole of it.

ghost use Rattle.wire.specs.Outcome.{Gives};
ghost use Rattle.wire.specs.Frame as heads;

use crate::fault::FrameFault;
use crate::head::{Head, Kind};
use crate::limits::{MAX_CLIENTS, MAX_REPLICAS, MAX_WARDENS, WIRE_VERSION};
use crate::reading::bodies::take_body;
use crate::reading::numbers::take_byte;
use morty_base::NodeId;
use msg::Envelope;
use std::alloc::Global;

#[tactic(auto, using(crate::proofs::Envelopes::envelope_at))]
pub(crate) fn take_envelope(alloc: Global, bytes: &[u8]) -> Result<(Envelope, &[u8]), FrameFault>
    ensures { Gives (λ x. (x.0, x.1.now)) result (heads.envelope.judged bytes.now) }
{
    let (head, rest) = take_head(bytes)?;
    let (body, rest) = take_body(alloc, head.kind, rest)?;
    let Head { kind: _, from, to } = head;
    Ok((Envelope { from, to, body }, rest))
}

#[tactic(auto, unfolding(crate::specs::Frame::head))]
fn take_head(bytes: &[u8]) -> Result<(Head, &[u8]), FrameFault>
    ensures { Gives (λ x. (x.0, x.1.now)) result (heads.head.judged bytes.now) }
{
    let (_, rest) = take_wire_version(bytes)?;
    let (kind, rest) = take_kind(rest)?;
    let (from, rest) = take_node(rest)?;
    let (to, rest) = take_node(rest)?;
    Ok((Head { kind, from, to }, rest))
}

#[tactic(auto, unfolding(crate::specs::Frame::wire_version))]
fn take_wire_version(bytes: &[u8]) -> Result<((), &[u8]), FrameFault>
    ensures { Gives (λ x. (x.0, x.1.now)) result (heads.wire_version.judged bytes.now) }
{
    let (version, rest) = take_byte(bytes)?;
    if version == WIRE_VERSION {
        Ok(((), rest))
    } else {
        Err(FrameFault::Kind)
    }
}

#[tactic(auto, unfolding(crate::specs::Frame::kind))]
fn take_kind(bytes: &[u8]) -> Result<(Kind, &[u8]), FrameFault>
    ensures { Gives (λ x. (x.0, x.1.now)) result (heads.kind.judged bytes.now) }
{
    let (byte, rest) = take_byte(bytes)?;
    let kind = match byte {
        1 => Kind::Get,
        2 => Kind::Note,
        3 => Kind::Puts,
        4 => Kind::Prepare,
        5 => Kind::Vote,
        6 => Kind::Finalize,
        7 => Kind::Accepted,
        8 => Kind::Decide,
        9 => Kind::Ask,
        10 => Kind::Told,
        11 => Kind::Fence,
        12 => Kind::Fenced,
        13 => Kind::Drop,
        14 => Kind::TooOld,
        _ => return Err(FrameFault::Kind),
    };
    Ok((kind, rest))
}

#[tactic(auto, unfolding(crate::specs::Frame::node, crate::specs::Frame::node_kind))]
fn take_node(bytes: &[u8]) -> Result<(NodeId, &[u8]), FrameFault>
    ensures { Gives (λ x. (x.0, x.1.now)) result (heads.node.judged bytes.now) }
{
    let (kind, rest) = take_byte(bytes)?;
    match kind {
        1 => {
            let (number, rest) = take_within(MAX_CLIENTS, rest)?;
            Ok((NodeId::Client(number), rest))
        }
        2 => {
            let (number, rest) = take_within(MAX_REPLICAS, rest)?;
            Ok((NodeId::Replica(number), rest))
        }
        3 => {
            let (number, rest) = take_within(MAX_WARDENS, rest)?;
            Ok((NodeId::Warden(number), rest))
        }
        _ => Err(FrameFault::Kind),
    }
}

// A number from 1 to `most`.
fn take_within(most: u8, bytes: &[u8]) -> Result<(u32, &[u8]), FrameFault>
    ensures { Gives (λ x. (x.0, x.1.now)) result (heads.place_at most bytes.now) }
{
    let (number, rest) = take_byte(bytes)?;
    if 1 <= number && number <= most {
        Ok((number as u32, rest))
    } else {
        Err(FrameFault::Count)
    }
}
