ghost use Rattle.std.specs.Prelude.{◌≡◌, ◌++◌, OnOk};
ghost use Rattle.wire.specs.Field.{u32, u64};
ghost use Rattle.wire.specs.Values.{version, exec};
ghost use Rattle.wire.specs.Frame.{node};
ghost use Rattle.wire.specs.Sendable.{IsNumbered};

use morty_base::{Exec, List, NoMemory, NodeId, Version};

#[tactic(auto, unfolding(wire::specs::Field::u32))]
pub(crate) fn push_u32(out: &mut List<u8>, number: u32) -> Result<(), NoMemory>
    ensures { OnOk result (out.new ≡ out.old ++ u32.frame number) }
{
    out.extend_from_slice(&number.to_be_bytes())
}

#[tactic(auto, unfolding(wire::specs::Field::u64))]
pub(crate) fn push_u64(out: &mut List<u8>, number: u64) -> Result<(), NoMemory>
    ensures { OnOk result (out.new ≡ out.old ++ u64.frame number) }
{
    out.extend_from_slice(&number.to_be_bytes())
}

#[tactic(auto, unfolding(wire::specs::Values::version))]
pub(crate) fn push_version(out: &mut List<u8>, v: Version) -> Result<(), NoMemory>
    ensures { OnOk result (out.new ≡ out.old ++ version.frame v) }
{
    push_u64(out, v.ts)?;
    push_u32(out, v.client)
}

#[tactic(auto, unfolding(wire::specs::Values::exec))]
pub(crate) fn push_exec(out: &mut List<u8>, x: Exec) -> Result<(), NoMemory>
    ensures { OnOk result (out.new ≡ out.old ++ exec.frame x) }
{
    push_version(out, x.ver)?;
    push_u32(out, x.eid)
}

#[tactic(auto, unfolding(wire::specs::Frame::node, wire::specs::Frame::node_kind, wire::specs::Field::u8))]
pub(crate) fn push_node(out: &mut List<u8>, n: NodeId) -> Result<(), NoMemory>
    requires { IsNumbered n }
    ensures { OnOk result (out.new ≡ out.old ++ node.frame n) }
{
    match n {
        NodeId::Client(number) => out.extend_from_slice(&[1, number as u8]),
        NodeId::Replica(number) => out.extend_from_slice(&[2, number as u8]),
        NodeId::Warden(number) => out.extend_from_slice(&[3, number as u8]),
    }
}
