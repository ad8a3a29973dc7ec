ghost use Rattle.std.specs.Prelude.{◌≡◌, ◌≤◌, List as ListOf, true, false, IfOk, map};
ghost use Rattle.script.specs.declared.setup.Setup.{Setup as SetupValue};
ghost use Rattle.script.specs.Sayable.{IsSetup};
ghost use Rattle.net_core.specs.Ruled.{LinkState};
ghost use Rattle.script_cli.specs.Runs.{IsPreparedOf, IsReady, IsRan};

use crate::begin::begin_all;
use links::{Chosen, choose};
use morty_base::{Ended, NoMemory};
use msg::Event;
use net_core::{Link, Machine};
use node_future::Gate;
use runner::run_fresh;
use script::Setup;
use script_plans::kind_of;
use std::alloc::{AllocGlobal, Global};
use std::random::RandomSource;
use std::sync::Wait;
use std::thread::Threads;
use workers::work_fresh;
use world::{Origin, World, kit};

/// A world that has taken no event, with the links of its nodes, each begun with the plan of its slot.
#[derive(Drop)]
pub struct Ready<L: Drop> {
    pub origin: Origin,
    pub world: World,
    pub links: Vec<L>,
}

/// What was prepared of a setup: its world with the links, or nothing, as there is no link for this slot, which is the
/// lowest such.
#[derive(Drop)]
pub enum Prepared<L: Drop> {
    Missing(u32),
    Ready(Ready<L>),
}

/// What a run of a setup leaves.
#[derive(Drop)]
pub struct Run<L: Drop> {
    pub setup: Setup,
    pub world: World,
    pub ended: Ended,
    pub journal: Vec<Event>,
    pub links: Vec<L>,
}

/// Prepares a run of a setup by the links that were handed in: for each slot the first one of the setup's kind and that slot.
pub fn prepare<L: Link>(alloc: Global, setup: Setup, links: Vec<L>) -> Result<Prepared<L>, NoMemory>
    requires { IsSetup setup }
    ensures { IfOk result (IsPreparedOf L.state_of setup (map L.state_of links.items)) }
{
    let kit = kit(alloc, &setup)?;
    let world = World::new(alloc, &setup, &kit)?;
    match choose(alloc, links, kind_of(&setup), world.nodes())? {
        Chosen::Missing(slot) => Ok(Prepared::Missing(slot)),
        Chosen::All(chosen) => {
            let links = begin_all(alloc, &setup, &world, chosen)?;
            let origin = Origin { setup, kit };
            Ok(Prepared::Ready(Ready {
                origin,
                world,
                links,
            }))
        }
    }
}

/// Runs what was prepared by one loop, in this thread.
pub fn run_ready<L: Link>(alloc: Global, ready: Ready<L>) -> Result<Run<L>, NoMemory>
    requires { (s : SetupValue) × (handed : ListOf LinkState) × IsReady L.state_of s handed ready }
    ensures { IfOk result (λ r. (s : SetupValue) (handed : ListOf LinkState) → IsReady L.state_of s handed ready → IsRan false L.state_of s handed r) }
{
    let Ready {
        origin,
        world,
        links,
    } = ready;
    let turns = origin.setup.turns;
    let ran = run_fresh(alloc, &origin, world, links, &origin.kit, turns)?;
    Ok(Run {
        setup: origin.setup,
        world: ran.machine,
        ended: ran.out.ended,
        journal: ran.journal,
        links: ran.links,
    })
}

/// Runs what was prepared by several workers, each a thread of its own. Their turns come in some order that is none of the
/// rounds.
pub fn work_ready<L, G, R>(
    rt: &R,
    alloc: Global,
    ready: Ready<L>,
    workers: u32,
    gate: &G,
) -> Result<Run<L>, NoMemory>
where
    L: Link + Send,
    G: Gate + Sync + 'static,
    R: Threads + Wait + Sync + RandomSource + AllocGlobal,
    requires ready { (s : SetupValue) × (handed : ListOf LinkState) × IsReady L.state_of s handed ready }
    requires workers { (1 ≤ workers) × (workers ≤ 8) }
    ensures { IfOk result (λ r. (s : SetupValue) (handed : ListOf LinkState) → IsReady L.state_of s handed ready → IsRan true L.state_of s handed r) }
{
    let Ready {
        origin,
        world,
        links,
    } = ready;
    let turns = origin.setup.turns;
    let worked = work_fresh(
        rt,
        alloc,
        &origin,
        world,
        links,
        &origin.kit,
        turns,
        workers,
        gate,
    )?;
    Ok(Run {
        setup: origin.setup,
        world: worked.machine,
        ended: worked.out.ended,
        journal: worked.journal,
        links: worked.links,
    })
}
