ghost use Rattle.std.specs.Prelude.{◌≡◌, ◌++◌, OnOk, flat_map};
ghost use Rattle.std.specs.List.{All};
ghost use Rattle.msg.specs.Events.{node_of};
ghost use Rattle.wire.specs.Sendable.{IsNumbered};
ghost use Rattle.run_trace.specs.Trace.{pick_code, pick_fields, event_bytes};

use crate::numbers::{push_exec, push_node, push_u64, push_version};
use morty_base::{List, NoMemory, NodeId};
use msg::{Event, Pick};

fn pick_code(pick: Pick) -> u8
    ensures { result ≡ pick_code pick }
{
    match pick {
        Pick::Idle => 0,
        Pick::Deliver(_) => 1,
        Pick::Go => 2,
        Pick::Hurry => 3,
        Pick::Recover(_) => 4,
        Pick::Truncate(_) => 5,
        Pick::Stop => 6,
    }
}

fn push_fields(out: &mut List<u8>, pick: Pick) -> Result<(), NoMemory>
    ensures { OnOk result (out.new ≡ out.old ++ pick_fields pick) }
{
    match pick {
        Pick::Deliver(number) => push_u64(out, number),
        Pick::Recover(exec) => push_exec(out, exec),
        Pick::Truncate(version) => push_version(out, version),
        Pick::Idle | Pick::Go | Pick::Hurry | Pick::Stop => Ok(()),
    }
}

#[tactic(auto, unfolding(crate::specs::Trace::event_bytes))]
fn push_event(out: &mut List<u8>, event: Event) -> Result<(), NoMemory>
    requires { IsNumbered (node_of event) }
    ensures { OnOk result (out.new ≡ out.old ++ event_bytes event) }
{
    match event {
        Event::Picked(node, pick) => {
            out.push(pick_code(pick))?;
            push_node(out, node)?;
            push_fields(out, pick)
        }
        Event::Ran(client) => {
            out.push(7)?;
            push_node(out, NodeId::Client(client))
        }
    }
}

pub(crate) fn push_events(out: &mut List<u8>, events: &[Event]) -> Result<(), NoMemory>
    requires { All (λ e. IsNumbered (node_of e)) events.now }
    ensures { OnOk result (out.new ≡ out.old ++ flat_map event_bytes events.now) }
{
    for event in events {
        push_event(out, *event)?;
    }
    Ok(())
}
