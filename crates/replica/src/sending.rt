//! What a replica sends: its answer, and Notes.

ghost use Rattle.std.specs.Prelude.{◌≡◌, ◌++◌, map, OnOk};
ghost use Rattle.std.specs.Option.{option_to_list};
ghost use Rattle.protocol.specs.Replica.Readers.{envelope_from};
ghost use Rattle.miss_notice.specs.Envelope2.{sent_by};

use miss_notice::Envelope2;
use morty_base::{List, NoMemory, NodeId};
use msg::{Body, Envelope};

/// The answer goes to a node, if there is one.
pub(crate) fn send_answer(
    number: u32,
    to: NodeId,
    answer: Option<Body>,
    out: &mut List<Envelope>,
) -> Result<(), NoMemory>
    ensures { OnOk result (out.new ≡ out.old ++ map (envelope_from number to) (option_to_list answer)) }
{
    match answer {
        None => Ok(()),
        Some(body) => {
            out.push(Envelope {
                from: NodeId::Replica(number),
                to,
                body,
            })?;
            Ok(())
        }
    }
}

/// The Notes go out in order.
pub(crate) fn send_notes(
    number: u32,
    notes: List<Envelope2>,
    out: &mut List<Envelope>,
) -> Result<(), NoMemory>
    ensures { OnOk result (out.new ≡ out.old ++ map (sent_by number) notes) }
{
    for note in notes.into_vec() {
        out.push(Envelope {
            from: NodeId::Replica(number),
            to: NodeId::Client(note.client),
            body: note.body,
        })?;
    }
    Ok(())
}
