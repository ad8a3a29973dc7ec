//! The head of a frame.

ghost use Rattle.wire.specs.Outcome.{Adds};
ghost use Rattle.wire.specs.Bodies as bodies;
ghost use Rattle.wire.specs.Frame as heads;

use crate::limits::WIRE_VERSION;
use crate::writing::numbers::put_byte;
use bytes::BytesMut;
use morty_base::{NoMemory, NodeId};
use msg::Body;

#[tactic(auto, unfolding(crate::specs::Frame::head))]
pub(crate) fn put_head(
    out: &mut BytesMut,
    body: &Body,
    from: NodeId,
    to: NodeId,
) -> Result<(), NoMemory>
    requires { heads.node.Admits from × heads.node.Admits to }
    ensures { Adds heads.head (record { kind = (bodies.parts body.now).0; from = from; to = to }) result out.old.items out.new.items }
{
    put_wire_version(out)?;
    put_kind(out, body)?;
    put_node(out, from)?;
    put_node(out, to)
}

#[tactic(auto, unfolding(crate::specs::Frame::wire_version))]
fn put_wire_version(out: &mut BytesMut) -> Result<(), NoMemory>
    ensures { Adds heads.wire_version tt result out.old.items out.new.items }
{
    put_byte(out, WIRE_VERSION)
}

#[tactic(auto, unfolding(crate::specs::Frame::kind))]
fn put_kind(out: &mut BytesMut, body: &Body) -> Result<(), NoMemory>
    ensures { Adds heads.kind (bodies.parts body.now).0 result out.old.items out.new.items }
{
    let code = match body {
        Body::Get { .. } => 1,
        Body::Note { .. } => 2,
        Body::Puts { .. } => 3,
        Body::Prepare { .. } => 4,
        Body::Vote { .. } => 5,
        Body::Finalize { .. } => 6,
        Body::Accepted { .. } => 7,
        Body::Decide { .. } => 8,
        Body::Ask { .. } => 9,
        Body::Told { .. } => 10,
        Body::Fence { .. } => 11,
        Body::Fenced { .. } => 12,
        Body::Drop { .. } => 13,
        Body::TooOld { .. } => 14,
    };
    put_byte(out, code)
}

#[tactic(auto, using(std::proofs::lemmas::Bool::Decides::nat_tests), unfolding(crate::specs::Frame::node, crate::specs::Frame::node_kind))]
fn put_node(out: &mut BytesMut, node: NodeId) -> Result<(), NoMemory>
    requires { heads.node.Admits node }
    ensures { Adds heads.node node result out.old.items out.new.items }
{
    match node {
        NodeId::Client(number) => {
            put_byte(out, 1)?;
            put_byte(out, number as u8)
        }
        NodeId::Replica(number) => {
            put_byte(out, 2)?;
            put_byte(out, number as u8)
        }
        NodeId::Warden(number) => {
            put_byte(out, 3)?;
            put_byte(out, number as u8)
        }
    }
}
