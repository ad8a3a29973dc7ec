ghost use Rattle.std.specs.Prelude.{◌≡◌, map, IfOk};
ghost use Rattle.script_plans.specs.Plans.{first_of, scripted, link_kind, link_plan, what_for, planned_for};

use morty_base::{List, NoMemory, NodeId, is_same_node};
use net_core::{LinkKind, LinkPlan, PlanItem, PlanWhat};
use protocol::First2;
use script::{First, Net, Policy, Setup};
use std::alloc::Global;

/// How many executions a try may have: one under the policy that aborts, whatever the setup says.
pub fn execs_of(setup: &Setup) -> u32
    ensures { result ≡ (scripted setup.now).execs }
{
    match setup.policy {
        Policy::Rewind => setup.execs,
        Policy::Abort => 1,
    }
}

// A first value, as the protocol takes it.
fn first_of(first: &First) -> First2
    ensures { result ≡ first_of first.now }
{
    First2 {
        key: first.key,
        value: first.value,
    }
}

// All of them, in text order.
fn all_firsts(alloc: Global, firsts: &[First]) -> Result<Vec<First2>, NoMemory>
    ensures { IfOk result (λ v. v.items ≡ map first_of firsts.now) }
{
    Ok(firsts.iter().map(|first| first_of(first)).collect(alloc)?)
}

/// The first values.
pub fn firsts_of(alloc: Global, setup: &Setup) -> Result<List<First2>, NoMemory>
    ensures { IfOk result (λ l. l ≡ (scripted setup.now).firsts) }
{
    let firsts = all_firsts(alloc, setup.firsts.as_slice())?;
    Ok(List::from_vec(firsts))
}

// What an item says to a node, if it is for that node.
fn what_for(item: &PlanItem, node: NodeId) -> Option<PlanWhat>
    ensures { result ≡ what_for node item.now }
{
    if is_same_node(item.node, node) {
        Some(item.what)
    } else {
        None
    }
}

// What the items of a node say, in text order.
fn planned_for(alloc: Global, items: &[PlanItem], node: NodeId) -> Result<Vec<PlanWhat>, NoMemory>
    ensures { IfOk result (λ v. v.items ≡ planned_for node items.now) }
{
    Ok(
        items
            .iter()
            .filter_map(|item| what_for(item, node))
            .collect(alloc)?,
    )
}

/// The rule by which the links of a setup pick.
pub fn kind_of(setup: &Setup) -> LinkKind
    ensures { result ≡ link_kind setup.now }
{
    match setup.net {
        Net::Fair => LinkKind::Fair,
        Net::Listed => LinkKind::Listed,
        Net::Seeded { .. } => LinkKind::Seeded,
    }
}

/// With what the link of a node is begun: the numbers of a seeded net, else zeros, and what the plan items of the node
/// say, in text order.
pub fn plan_of(alloc: Global, setup: &Setup, node: NodeId) -> Result<LinkPlan, NoMemory>
    ensures { IfOk result (λ p. p ≡ link_plan setup.now node) }
{
    let items = List::from_vec(planned_for(alloc, setup.plan.as_slice(), node)?);
    Ok(match setup.net {
        Net::Seeded {
            seed,
            late,
            repeat,
            hurry,
        } => LinkPlan {
            net_seed: seed,
            late,
            repeat,
            hurry,
            items,
        },
        _ => LinkPlan {
            net_seed: 0,
            late: 0,
            repeat: 0,
            hurry: 0,
            items,
        },
    })
}
