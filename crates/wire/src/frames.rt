//! The calls that write and read a frame.

ghost use Rattle.std.specs.Prelude.{◌≡◌, ℕ, ◌++◌, List, length, Ok, IfOk, IfErr, OnOk};
ghost use Rattle.msg.specs.declared.Envelope.{Envelope as Sent};
ghost use Rattle.wire.specs.Outcome.{Gives};
ghost use Rattle.wire.specs.Sendable.{MaySend};
ghost use Rattle.wire.specs.Wire.{frame, InRange, BeginsWith, IsFault};

use crate::fault::FrameFault;
use crate::length::frame_len;
use crate::reading::head::take_envelope;
use crate::writing::bodies::put_body;
use crate::writing::head::put_head;
use bytes::{Bytes, BytesMut};
use morty_base::NoMemory;
use msg::Envelope;
use std::alloc::Global;

/// The frame of an envelope, in memory of its own.
pub fn encode(alloc: Global, envelope: &Envelope) -> Result<Bytes, NoMemory>
    requires { MaySend envelope.now }
    ensures ok { IfOk result (λ b. b ≡ frame envelope.now) }
    // What was encoded can be decoded again.
    ensures in_range { OnOk result (InRange envelope.now) }
{
    let mut room = BytesMut::new(alloc);
    encode_in(&mut room, envelope)
}

/// The frame of an envelope, cut from the buffer's room. What the buffer held before is gone.
pub fn encode_in(room: &mut BytesMut, envelope: &Envelope) -> Result<Bytes, NoMemory>
    requires { MaySend envelope.now }
    ensures ok { IfOk result (λ b. b ≡ frame envelope.now) }
    ensures in_range { OnOk result (InRange envelope.now) }
{
    room.clear();
    room.reserve(frame_len(envelope))?;
    put_envelope(room, envelope)?;
    let len = room.len();
    Ok(room.freeze_to(len)?)
}

#[tactic(auto, unfolding(crate::specs::Frame::envelope))]
fn put_envelope(out: &mut BytesMut, envelope: &Envelope) -> Result<(), NoMemory>
    requires { MaySend envelope.now }
    ensures ok { OnOk result (out.new.items ≡ out.old.items ++ frame envelope.now) }
    ensures in_range { OnOk result (InRange envelope.now) }
{
    put_head(out, &envelope.body, envelope.from, envelope.to)?;
    put_body(out, &envelope.body)
}

/// The envelope whose frame stands at the front of the bytes, and the frame's length.
pub fn decode(alloc: Global, bytes: &[u8]) -> Result<(Envelope, usize), FrameFault>
    // What is read is that envelope's frame.
    ensures found { IfOk result (λ x. BeginsWith bytes.now x.0 x.1) }
    // A frame is read, whatever follows it, unless memory runs out.
    ensures only { (m : Sent) (rest : List ℕ) → MaySend m → InRange m → bytes.now ≡ frame m ++ rest
        → Gives (λ x. x) result (Ok (m, length (frame m))) }
    // Else it is the fault of the bytes.
    ensures fault { IfErr result (λ fault. IsFault fault bytes.now) }
{
    let (envelope, rest) = take_envelope(alloc, bytes)?;
    Ok((envelope, bytes.len() - rest.len()))
}
