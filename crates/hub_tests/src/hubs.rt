//! A hub of one or more rounds, turn by turn.

ghost use Rattle.std.specs.Prelude.{◌≡◌, ◌<◌, ℕ, IfOk, OnOk, length, map, Some};
ghost use Rattle.hub.specs.Starts.{Start};
ghost use Rattle.runner.specs.WholeRun.{start_of};

use crate::{Done, Rounds, Segment};
use hub::{Counted, Hub, Named};
use links::FairLink;
use morty_base::{Ended, NoMemory, NodeId};
use msg::{Event, Pick};
use net_core::Link;
use node_future::{LastGive, LastTurn};
use std::alloc::Global;
use std::marker::Brand;
use std::process::Abort;
use std::test::Fail;

pub(crate) const CLIENT: NodeId = NodeId::Client(1);

pub(crate) const REPLICA: NodeId = NodeId::Replica(1);

/// A hub of rounds.
pub(crate) type Played<L, N> = Hub<Rounds, L, N>;

/// Fair links of the two slots.
pub(crate) fn fair_links(alloc: Global) -> Result<Vec<FairLink>, NoMemory>
    ensures { IfOk result (λ links. length links.items ≡ 2) }
{
    let mut links = Vec::new(alloc);
    links.push(FairLink::new(alloc, 0))?;
    links.push(FairLink::new(alloc, 1))?;
    Ok(links)
}

/// A run of so many rounds that has not begun. Each node may make so many turns.
pub(crate) fn begin<L: Link, N: Named<u32>>(
    alloc: Global,
    limit: u32,
    turns: u32,
    links: Vec<L>,
) -> Result<Played<L, N>, NoMemory>
    requires links { length links.items ≡ 2 }
    requires start { N.start ≡ Some (start_of limit turns (map L.state_of links.items)) }
    ensures { IfOk result (λ hub. hub.nodes ≡ 2) }
{
    Hub::new(alloc, Rounds::new(limit), links, turns)
}

// What is done with a hub, and what it answers.
enum Step {
    /// A turn of a slot.
    Turn(u32, LastTurn),
    /// Gives a slot what was done of the segment of a round.
    Give(u32, u32, LastGive),
    /// How many picks and used segments are counted.
    Counts(u64, u64),
    Ends(Option<Ended>),
    Recall,
    Spoil,
}

fn turn<L: Link, N: Named<u32>>(
    rt: &impl Abort,
    hub: &mut Played<L, N>,
    slot: u32,
    kind: LastTurn,
) -> Result<(), Fail>
    ensures { hub.new.nodes ≡ hub.old.nodes }
{
    assert!(rt; slot < hub.nodes());
    assert_eq!(rt; LastTurn::of(&hub.turn(slot)), kind);
    Ok(())
}

fn give<L: Link, N: Named<u32>>(
    rt: &impl Abort,
    hub: &mut Played<L, N>,
    slot: u32,
    round: u32,
    kind: LastGive,
) -> Result<(), Fail>
    requires { (s : Start ℕ) × (N.start ≡ Some s) }
{
    let done = Done {
        segment: Segment { round },
    };
    assert!(rt; slot < hub.nodes());
    assert_eq!(rt; LastGive::of(&hub.give(slot, &done)), kind);
    Ok(())
}

fn play_step<L: Link, N: Named<u32>>(
    rt: &impl Abort,
    hub: &mut Played<L, N>,
    step: &Step,
) -> Result<(), Fail>
    requires { (s : Start ℕ) × (N.start ≡ Some s) }
{
    match step {
        Step::Turn(slot, kind) => turn(rt, hub, *slot, *kind)?,
        Step::Give(slot, round, kind) => give(rt, hub, *slot, *round, *kind)?,
        Step::Counts(turns, rans) => {
            assert_eq!(rt;
                hub.counted(),
                Counted {
                    turns: *turns,
                    rans: *rans
                }
            );
        }
        Step::Ends(ended) => assert_eq!(rt; hub.ended(), *ended),
        Step::Recall => hub.recall(),
        Step::Spoil => hub.spoil(),
    }
    Ok(())
}

// The journal in the end, and of how many rounds the replica was told.
fn play<L: Link, N: Named<u32>>(
    rt: &impl Abort,
    alloc: Global,
    limit: u32,
    turns: u32,
    links: Vec<L>,
    steps: &[Step],
) -> Result<(Vec<Event>, u32), Fail>
    requires links { length links.items ≡ 2 }
    requires start { N.start ≡ Some (start_of limit turns (map L.state_of links.items)) }
{
    let mut hub = begin::<L, N>(alloc, limit, turns, links)?;
    for step in steps {
        play_step(rt, &mut hub, step)?;
    }
    let (machine, journal, _links) = hub.into_parts();
    Ok((journal, machine.told()))
}

fn played<L: Link>(
    rt: &impl Abort,
    alloc: Global,
    limit: u32,
    turns: u32,
    links: Vec<L>,
    steps: &[Step],
) -> Result<(Vec<Event>, u32), Fail>
    requires { length links.items ≡ 2 }
{
    play::<L, Brand>(rt, alloc, limit, turns, links, steps)
}

static THE_PENDING_JOB: [Step; 9] = [
    Step::Turn(0, LastTurn::Moved),
    Step::Turn(0, LastTurn::Job),
    Step::Give(0, 2, LastGive::Stale),
    Step::Give(1, 1, LastGive::Stale),
    Step::Counts(1, 0),
    Step::Give(0, 1, LastGive::Used),
    Step::Counts(1, 1),
    Step::Give(0, 1, LastGive::Stale),
    Step::Ends(None),
];

#[test]
fn what_was_done_of_the_pending_job_alone_is_used(rt: HostRuntime) -> Result<(), Fail> {
    let (journal, told) = played(
        &rt,
        rt.alloc(),
        1,
        9,
        fair_links(rt.alloc())?,
        &THE_PENDING_JOB,
    )?;
    assert_eq!(rt;
        journal.as_slice(),
        [Event::Picked(CLIENT, Pick::Go), Event::Ran(1)].as_slice()
    );
    assert_eq!(rt; told, 0);
    Ok(())
}

static EACH_CASE: [Step; 20] = [
    Step::Turn(1, LastTurn::Idle),
    Step::Turn(1, LastTurn::Idle),
    Step::Counts(1, 0),
    Step::Turn(0, LastTurn::Moved),
    Step::Turn(0, LastTurn::Job),
    Step::Turn(0, LastTurn::Idle),
    Step::Recall,
    Step::Turn(0, LastTurn::Job),
    Step::Give(0, 1, LastGive::Used),
    Step::Turn(1, LastTurn::Moved),
    Step::Turn(0, LastTurn::Idle),
    Step::Turn(1, LastTurn::Idle),
    Step::Ends(None),
    Step::Turn(1, LastTurn::Quiet),
    Step::Ends(Some(Ended::Quiet)),
    Step::Turn(0, LastTurn::Quiet),
    Step::Counts(6, 1),
    Step::Spoil,
    Step::Turn(0, LastTurn::Refused),
    Step::Ends(None),
];

#[test]
fn a_turn_is_the_first_case_that_holds(rt: HostRuntime) -> Result<(), Fail> {
    let (journal, told) = played(&rt, rt.alloc(), 1, 9, fair_links(rt.alloc())?, &EACH_CASE)?;
    assert_eq!(rt; journal.len(), 7);
    assert_eq!(rt; told, 1);
    Ok(())
}

static ONE_TURN_EACH: [Step; 8] = [
    Step::Turn(0, LastTurn::Moved),
    Step::Turn(0, LastTurn::Job),
    Step::Give(0, 1, LastGive::Used),
    Step::Turn(1, LastTurn::Moved),
    Step::Turn(0, LastTurn::Spent),
    Step::Ends(Some(Ended::Spent)),
    Step::Turn(1, LastTurn::Spent),
    Step::Give(0, 1, LastGive::Stale),
];

#[test]
fn a_run_ends_where_a_node_has_made_its_turns(rt: HostRuntime) -> Result<(), Fail> {
    let (journal, told) = played(
        &rt,
        rt.alloc(),
        2,
        1,
        fair_links(rt.alloc())?,
        &ONE_TURN_EACH,
    )?;
    assert_eq!(rt; journal.len(), 3);
    assert_eq!(rt; told, 1);
    Ok(())
}
