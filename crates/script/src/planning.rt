ghost use Rattle.std.specs.Prelude.{◌≡◌, ◌≤◌, ◌++◌, ◌∷◌, [], map, length, IfOk, OnOk};
ghost use Rattle.script.specs.declared.limits.TheConstants.{MOST_CLIENTS};
ghost use Rattle.txn_parse.specs.Binding.{FaultIs};
ghost use Rattle.script.specs.Meaning.{said_by, node_by, node_of};
ghost use Rattle.script.specs.Building.{planned_at};
ghost use Rattle.script.specs.Checks.{nodes_in, node_check, entries_checks, is_listed};

use crate::items::{NodeKind, RawEntry, RawNode};
use crate::setup::{Net, Setup};
use crate::values::{entry, fault_at};
use morty_base::{List, NodeId};
use net_core::PlanItem;
use txn_text::{FaultKind, TextFault, Token, number_value};

/// Whether the links pick by lists.
pub fn is_listed(net: Net) -> bool
    ensures { result ≡ is_listed net }
{
    matches!(net, Net::Listed)
}

// How many nodes of a kind the script has.
fn nodes(kind: NodeKind, setup: &Setup) -> u32
    requires { length setup.now.clients ≤ MOST_CLIENTS }
    ensures { result ≡ nodes_in kind (said_by setup.now) }
{
    match kind {
        NodeKind::Client => setup.clients.len() as u32,
        NodeKind::Replica => setup.replicas,
        NodeKind::Warden => setup.wardens,
    }
}

fn node_by(kind: NodeKind, number: u32) -> NodeId
    ensures { result ≡ node_by kind number }
{
    match kind {
        NodeKind::Client => NodeId::Client(number),
        NodeKind::Replica => NodeId::Replica(number),
        NodeKind::Warden => NodeId::Warden(number),
    }
}

/// The node that a plan item names.
pub fn node(text: &[u8], setup: &Setup, raw: RawNode) -> Result<NodeId, TextFault>
    requires { length setup.now.clients ≤ MOST_CLIENTS }
    ensures fault { FaultIs (node_check text.now (said_by setup.now) raw ∷ []) result }
    ensures value { IfOk result (λ n. n ≡ node_of text.now raw) }
{
    let most = nodes(raw.kind, setup);
    let number = number_value(text, raw.number);
    if number < 1 || number > u64::from(most) {
        return Err(fault_at(raw.number, FaultKind::NoSuchNode));
    }
    Ok(node_by(raw.kind, number as u32))
}

/// The plan items of a list, behind those that are there.
pub fn entries(
    text: &[u8],
    node: NodeId,
    raw: &[RawEntry],
    plan: &mut List<PlanItem>,
) -> Result<(), TextFault>
    ensures fault { FaultIs (entries_checks text.now raw.now) result }
    ensures said { OnOk result (plan.new ≡ plan.old ++ map (planned_at text.now node) raw.now) }
{
    for one in raw {
        let what = entry(text, *one)?;
        plan.push(PlanItem { node, what })?;
    }
    Ok(())
}
