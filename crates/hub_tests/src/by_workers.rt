//! A hub that is played by several workers.

ghost use Rattle.std.specs.Prelude.{◌≡◌, ◌≤◌, length, map, Some};
ghost use Rattle.runner.specs.WholeRun.{start_of};

use crate::Rounds;
use crate::hubs::{Played, fair_links};
use hub::{Hub, Named};
use morty_base::{Ended, NoMemory};
use msg::Event;
use net_core::Link;
use node_future::OpenGate;
use runner::RunOut;
use std::alloc::{AllocGlobal, Global};
use std::marker::Brand;
use std::random::RandomSource;
use std::sync::Wait;
use std::test::Fail;
use std::thread::Threads;
use workers::run_workers;

// The journal in the end, of how many rounds the replica was told, and what the run answered.
fn by_workers<L, N, R>(
    rt: &R,
    alloc: Global,
    limit: u32,
    workers: u32,
    links: Vec<L>,
) -> Result<(Vec<Event>, u32, RunOut), NoMemory>
where
    L: Link + Send,
    N: Named<u32> + Send + Sync,
    R: Threads + Wait + Sync + RandomSource + AllocGlobal,
    requires links { length links.items ≡ 2 }
    requires start { N.start ≡ Some (start_of limit 99 (map L.state_of links.items)) }
    requires workers { (1 ≤ workers) × (workers ≤ 8) }
{
    let hub: Played<L, N> = Hub::new(alloc, Rounds::new(limit), links, 99)?;
    let (hub, out) = run_workers(rt, alloc, hub, &(), workers, &OpenGate)?;
    let (machine, journal, _links) = hub.into_parts();
    Ok((journal, machine.told(), out))
}

fn worked<L, R>(
    rt: &R,
    alloc: Global,
    limit: u32,
    workers: u32,
    links: Vec<L>,
) -> Result<(Vec<Event>, u32, RunOut), NoMemory>
where
    L: Link + Send,
    R: Threads + Wait + Sync + RandomSource + AllocGlobal,
    requires links { length links.items ≡ 2 }
    requires workers { (1 ≤ workers) × (workers ≤ 8) }
{
    by_workers::<L, Brand, R>(rt, alloc, limit, workers, links)
}

#[test]
fn workers_count_what_the_journal_has(rt: HostRuntime) -> Result<(), Fail> {
    for workers in 1..9 {
        let links = fair_links(rt.alloc())?;
        let (journal, told, out) = worked(&rt, rt.alloc(), 9, workers, links)?;
        let events = journal.as_slice();
        let picks = events
            .iter()
            .filter(|event| matches!(event, Event::Picked(_, _)))
            .count();
        let rans = events
            .iter()
            .filter(|event| matches!(event, Event::Ran(_)))
            .count();
        assert_eq!(rt; out.ended, Ended::Quiet);
        assert_eq!(rt; told, 9);
        assert_eq!(rt; out.turns, picks as u64);
        assert_eq!(rt; out.rans, rans as u64);
        assert_eq!(rt; rans, 9);
    }
    Ok(())
}
