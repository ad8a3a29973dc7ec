ghost use Rattle.std.specs.Prelude.{◌≡◌, ◌++◌, OnOk};
ghost use Rattle.protocol.specs.World.Events.{to_all};

use morty_base::{List, NoMemory, NodeId};
use msg::{Body, Envelope};
use std::alloc::Global;

/// Sends a copy of the body to each of the replicas 1 to n, in order.
pub fn send_to_all(
    alloc: Global,
    replicas: u32,
    from: NodeId,
    body: &Body,
    out: &mut List<Envelope>,
) -> Result<(), NoMemory>
    ensures { OnOk result (out.new ≡ out.old ++ to_all replicas from body.now) }
{
    for before in 0..replicas {
        let body = body.copy(alloc)?;
        out.push(Envelope {
            from,
            to: NodeId::Replica(before + 1),
            body,
        })?;
    }
    Ok(())
}
