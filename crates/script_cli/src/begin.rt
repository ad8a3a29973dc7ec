ghost use Rattle.std.specs.Prelude.{◌≡◌, ◌<◌, [], Some, IfOk, OnOk, length, map, slice_get, slice_set};
ghost use Rattle.menus.specs.Slots.{count_of};
ghost use Rattle.net_core.specs.Ruled.{LinkState, begun};
ghost use Rattle.world.specs.declared.origin.Origin.{Origin as OriginValue};
ghost use Rattle.world.specs.World.{Stands};
ghost use Rattle.script_cli.specs.Runs.{rules_for, begun_all};

use morty_base::NoMemory;
use net_core::{Link, LinkPlan, Machine};
use script::Setup;
use script_plans::plan_of;
use std::alloc::Global;
use world::World;

// The link of a slot is begun with a plan.
fn begin_at<L: Link>(links: &mut Vec<L>, slot: u32, plan: LinkPlan) -> Result<(), NoMemory>
    requires { slot < length links.old.items }
    ensures ok { OnOk result ((a : LinkState) × (slice_get (map L.state_of links.old.items) slot ≡ Some a)
        × (map L.state_of links.new.items ≡ slice_set (map L.state_of links.old.items) slot (begun plan a))) }
    ensures count { length links.new.items ≡ length links.old.items }
{
    links[slot as usize].begin(plan)
}

/// Each link is begun with the plan of its slot's node.
pub(crate) fn begin_all<L: Link>(
    alloc: Global,
    setup: &Setup,
    world: &World,
    mut links: Vec<L>,
) -> Result<Vec<L>, NoMemory>
    requires world { (o : OriginValue) × (o.setup ≡ setup.now) × Stands world.now o [] }
    requires links { length links.items ≡ count_of world.now.slots }
    ensures begun { IfOk result (λ ls. map L.state_of ls.items ≡ begun_all setup.now (rules_for setup.now).nodes (map L.state_of links.items)) }
    ensures count { IfOk result (λ ls. length ls.items ≡ length links.items) }
{
    for slot in 0..world.nodes() {
        let plan = plan_of(alloc, setup, world.node(slot))?;
        begin_at(&mut links, slot, plan)?;
    }
    Ok(links)
}
