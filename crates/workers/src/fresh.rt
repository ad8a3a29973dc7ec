ghost use Rattle.std.specs.Prelude.{◌≡◌, ◌≤◌, [], Some, IfOk, length, map, reverse};
ghost use Rattle.runner.specs.WholeRun.{IsEndedRun, start_of};

use crate::run::run_workers;
use hub::{Hub, Named};
use morty_base::NoMemory;
use net_core::{Link, Machine};
use node_future::Gate;
use runner::Ran;
use std::alloc::{AllocGlobal, Global};
use std::marker::Brand;
use std::random::RandomSource;
use std::sync::Wait;
use std::thread::Threads;

/// A whole run by several workers, of what `run_fresh` of the runner takes. Its events come in some order that is none of the
/// rounds.
pub fn work_fresh<M, L, G, R>(
    rt: &R,
    alloc: Global,
    origin: &M::Origin,
    machine: M,
    links: Vec<L>,
    kit: &M::Kit,
    turns: u32,
    workers: u32,
    gate: &G,
) -> Result<Ran<M, L>, NoMemory>
where
    M: Machine + Send,
    M::Job: Send,
    M::Done: Send,
    M::Kit: Sync,
    L: Link + Send,
    G: Gate + Sync + 'static,
    R: Threads + Wait + Sync + RandomSource + AllocGlobal,
    requires machine { M.stands machine origin.now [] }
    requires links { length links.items ≡ M.count machine }
    requires kit { M.kit_of origin.now kit.now }
    requires workers { (1 ≤ workers) × (workers ≤ 8) }
    ensures { IfOk result (λ r. IsEndedRun M.rules (M.stands r.machine) (start_of origin.now turns (map L.state_of links.items))
        (reverse r.journal.items) (map L.state_of r.links.items) r.out) }
{
    work_named::<M, L, Brand, G, R>(rt, alloc, origin, machine, links, kit, turns, workers, gate)
}

// The run that has this name.
fn work_named<M, L, N, G, R>(
    rt: &R,
    alloc: Global,
    origin: &M::Origin,
    machine: M,
    links: Vec<L>,
    kit: &M::Kit,
    turns: u32,
    workers: u32,
    gate: &G,
) -> Result<Ran<M, L>, NoMemory>
where
    M: Machine + Send,
    M::Job: Send,
    M::Done: Send,
    M::Kit: Sync,
    L: Link + Send,
    N: Named<M::Origin> + Send + Sync,
    G: Gate + Sync + 'static,
    R: Threads + Wait + Sync + RandomSource + AllocGlobal,
    requires machine { M.stands machine origin.now [] }
    requires links { length links.items ≡ M.count machine }
    requires kit { M.kit_of origin.now kit.now }
    requires workers { (1 ≤ workers) × (workers ≤ 8) }
    requires start { N.start ≡ Some (start_of origin.now turns (map L.state_of links.items)) }
    ensures { IfOk result (λ r. IsEndedRun M.rules (M.stands r.machine) (start_of origin.now turns (map L.state_of links.items))
        (reverse r.journal.items) (map L.state_of r.links.items) r.out) }
{
    let hub: Hub<M, L, N> = Hub::new(alloc, machine, links, turns)?;
    let (hub, out) = run_workers(rt, alloc, hub, kit, workers, gate)?;
    let (machine, journal, links) = hub.into_parts();
    Ok(Ran {
        machine,
        journal,
        links,
        out,
    })
}
