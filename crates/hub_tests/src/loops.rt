//! A hub that is played by the loop of the crate `runner`, and one that is played by hand.

ghost use Rattle.std.specs.Prelude.{◌≡◌, ◌<◌, ℕ, length, map, Some};
ghost use Rattle.hub.specs.Starts.{Start};
ghost use Rattle.runner.specs.WholeRun.{start_of};

use crate::Rounds;
use crate::hubs::{CLIENT, Played, REPLICA, begin, fair_links};
use hub::{Named, TurnOut};
use morty_base::{Ended, NoMemory};
use msg::{Event, Pick};
use net_core::{Link, Machine};
use runner::run_one;
use std::alloc::Global;
use std::marker::Brand;
use std::process::Abort;
use std::test::Fail;

// The journal in the end of a run by the loop, and of how many rounds the replica was told.
fn by_loop<L: Link, N: Named<u32>>(
    rt: &impl Abort,
    alloc: Global,
    limit: u32,
    links: Vec<L>,
) -> Result<(Vec<Event>, u32), Fail>
    requires links { length links.items ≡ 2 }
    requires start { N.start ≡ Some (start_of limit 99 (map L.state_of links.items)) }
{
    let mut hub = begin::<L, N>(alloc, limit, 99, links)?;
    let out = run_one(alloc, &mut hub, &())?;
    assert_eq!(rt; out.ended, Ended::Quiet);
    assert_eq!(rt; out.turns, hub.counted().turns);
    assert_eq!(rt; out.rans, u64::from(limit));
    let again = run_one(alloc, &mut hub, &())?;
    assert_eq!(rt; again.ended, Ended::Quiet);
    assert_eq!(rt; again.turns, 0);
    assert_eq!(rt; again.rans, 0);
    let (machine, journal, _links) = hub.into_parts();
    Ok((journal, machine.told()))
}

// One turn of a slot. A job is run and given back.
fn visit<L: Link, N: Named<u32>>(
    rt: &impl Abort,
    alloc: Global,
    hub: &mut Played<L, N>,
    slot: u32,
) -> Result<(), Fail>
    requires { (s : Start ℕ) × (N.start ≡ Some s) }
{
    assert!(rt; slot < hub.nodes());
    if let TurnOut::Job(job) = hub.turn(slot)? {
        let done = Rounds::work(alloc, &(), job)?;
        hub.give(slot, &done)?;
    }
    Ok(())
}

// The same by hand, with more visits than are needed.
fn by_hand<L: Link, N: Named<u32>>(
    rt: &impl Abort,
    alloc: Global,
    limit: u32,
    links: Vec<L>,
) -> Result<(Vec<Event>, u32), Fail>
    requires links { length links.items ≡ 2 }
    requires start { N.start ≡ Some (start_of limit 99 (map L.state_of links.items)) }
{
    let mut hub = begin::<L, N>(alloc, limit, 99, links)?;
    for step in 0..100 {
        visit(rt, alloc, &mut hub, step % 2)?;
    }
    assert_eq!(rt; hub.ended(), Some(Ended::Quiet));
    let (machine, journal, _links) = hub.into_parts();
    Ok((journal, machine.told()))
}

fn looped<L: Link>(
    rt: &impl Abort,
    alloc: Global,
    limit: u32,
    links: Vec<L>,
) -> Result<(Vec<Event>, u32), Fail>
    requires { length links.items ≡ 2 }
{
    by_loop::<L, Brand>(rt, alloc, limit, links)
}

fn handled<L: Link>(
    rt: &impl Abort,
    alloc: Global,
    limit: u32,
    links: Vec<L>,
) -> Result<(Vec<Event>, u32), Fail>
    requires { length links.items ≡ 2 }
{
    by_hand::<L, Brand>(rt, alloc, limit, links)
}

static ONE_ROUND: [Event; 6] = [
    Event::Picked(CLIENT, Pick::Go),
    Event::Picked(REPLICA, Pick::Idle),
    Event::Ran(1),
    Event::Picked(REPLICA, Pick::Deliver(0)),
    Event::Picked(CLIENT, Pick::Idle),
    Event::Picked(REPLICA, Pick::Idle),
];

#[test]
fn the_loop_plays_one_round(rt: HostRuntime) -> Result<(), Fail> {
    let (journal, told) = looped(&rt, rt.alloc(), 1, fair_links(rt.alloc())?)?;
    assert_eq!(rt; journal.as_slice(), ONE_ROUND.as_slice());
    assert_eq!(rt; told, 1);
    Ok(())
}

#[test]
fn the_loop_does_what_is_done_by_hand(rt: HostRuntime) -> Result<(), Fail> {
    let (journal, told) = looped(&rt, rt.alloc(), 3, fair_links(rt.alloc())?)?;
    let (other, also_told) = handled(&rt, rt.alloc(), 3, fair_links(rt.alloc())?)?;
    assert_eq!(rt; journal.as_slice(), other.as_slice());
    assert_eq!(rt; told, 3);
    assert_eq!(rt; also_told, 3);
    Ok(())
}
