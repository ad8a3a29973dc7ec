ghost use Rattle.std.specs.Prelude.{◌≡◌, ◌++◌, ◌<◌, ◌^◌, length, IfOk, OnOk, flat_map};
ghost use Rattle.std.specs.List.{All};
ghost use Rattle.msg.specs.Events.{node_of};
ghost use Rattle.wire.specs.Sendable.{IsNumbered};
ghost use Rattle.wire.specs.Wire.{frame};
ghost use Rattle.run_trace.specs.Frames.{frame_at};
ghost use Rattle.run_trace.specs.Trace.{end_code, trace_bytes};

use crate::events::push_events;
use crate::numbers::push_u32;
use morty_base::{Ended, List, NoMemory};
use msg::Event;
use net_core::Mail;
use std::alloc::Global;

fn push_frame(out: &mut List<u8>, mail: &Mail, number: u64) -> Result<(), NoMemory>
    ensures { OnOk result (out.new ≡ out.old ++ frame_at mail.now number) }
{
    match mail.frame(number) {
        Some(frame) => out.extend_from_slice(frame),
        None => Ok(()),
    }
}

fn push_frames(out: &mut List<u8>, mail: &Mail) -> Result<(), NoMemory>
    ensures { OnOk result (out.new ≡ out.old ++ flat_map frame mail.now) }
{
    for number in 0..mail.sent() {
        push_frame(out, mail, number)?;
    }
    Ok(())
}

fn end_code(ended: Ended) -> u8
    ensures { result ≡ end_code ended }
{
    match ended {
        Ended::Quiet => 0,
        Ended::Spent => 1,
        Ended::Full => 2,
    }
}

/// The trace of a run: its script's text, its events, all that was sent, and how it ended.
#[tactic(auto, unfolding(crate::specs::Trace::trace_bytes))]
pub fn trace_bytes(
    alloc: Global,
    script: &[u8],
    events: &[Event],
    mail: &Mail,
    ended: Ended,
) -> Result<List<u8>, NoMemory>
    requires script { length script.now < 2 ^ 32 }
    requires events { length events.now < 2 ^ 32 }
    requires mail { length mail.now < 2 ^ 32 }
    requires nodes { All (λ e. IsNumbered (node_of e)) events.now }
    ensures { IfOk result (λ bytes. bytes ≡ trace_bytes script.now events.now mail.now ended) }
{
    let mut bytes = List::from_slice(alloc, b"MTY1")?;
    push_u32(&mut bytes, script.len() as u32)?;
    bytes.extend_from_slice(script)?;
    push_u32(&mut bytes, events.len() as u32)?;
    push_events(&mut bytes, events)?;
    push_u32(&mut bytes, mail.sent() as u32)?;
    push_frames(&mut bytes, mail)?;
    bytes.push(end_code(ended))?;
    Ok(bytes)
}
