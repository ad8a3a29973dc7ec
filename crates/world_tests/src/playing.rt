//! A world that is driven row by row.

ghost use Rattle.world.specs.World.{IsUsable};
ghost use Rattle.world_tests.specs.Playing.{IsWorldOf, IsWorkOf};

use crate::checks::{MEMORY, is_equal};
use crate::telling::{envelope_line, menu_line};
use continuation::Done;
use msg::Event;
use net_core::{Machine, RanStep, StepOut};
use std::alloc::Global;
use std::process::Abort;
use world::{Origin, World};

/// What happens, and what is seen of it.
pub(crate) enum Row {
    /// An event moves the world, and this is sent.
    Moves(Event, &'static [&'static str]),
    /// An event can't happen, and changes nothing.
    Still(Event),
    /// The link of this slot is shown this.
    Shows(u32, &'static str),
}

/// Who runs the segments of a run: the world, or another, who gives back what was done.
#[derive(Clone, Copy)]
pub(crate) enum Way {
    Here,
    Elsewhere,
}

// What all links are shown, and how much was sent.
fn whole(rt: &impl Abort, alloc: Global, world: &World) -> String
    requires { IsUsable world.now }
{
    let mut text = format!(in alloc; "{} sent", world.mail().sent()).expect(rt, MEMORY);
    for slot in 0..world.nodes() {
        let line = menu_line(rt, alloc, &world.menu(slot));
        text.push_str(line.as_str()).expect(rt, MEMORY);
    }
    text
}

// Nothing changed.
fn is_whole(rt: &impl Abort, alloc: Global, world: &World, before: &str)
    requires { IsUsable world.now }
{
    let after = whole(rt, alloc, world);
    is_equal(rt, &after.as_str(), &before, "nothing changes");
}

/// What another does of the pending job of a slot.
pub(crate) fn work(
    rt: &impl Abort,
    alloc: Global,
    origin: &Origin,
    world: &World,
    slot: u32,
) -> Done
    requires { IsWorldOf origin.now world.now }
    ensures { IsWorkOf origin.now result }
{
    assert!(rt; slot < world.nodes());
    let _node = world.node(slot);
    let job = world
        .job(alloc, slot)
        .expect(rt, MEMORY)
        .expect(rt, "a job is pending");
    World::work(alloc, &origin.kit, job).expect(rt, MEMORY)
}

// Gives back what was done.
fn give(
    rt: &impl Abort,
    alloc: Global,
    origin: &Origin,
    world: &mut World,
    slot: u32,
    done: &Done,
) -> RanStep
    requires world { IsWorldOf origin.now world.old }
    requires done { IsWorkOf origin.now done.now }
    ensures { IsWorldOf origin.now world.new }
{
    assert!(rt; slot < world.nodes());
    let _node = world.node(slot);
    world.give(alloc, slot, done).expect(rt, MEMORY)
}

/// What was done is of no pending job, and changes nothing.
pub(crate) fn is_stale(
    rt: &impl Abort,
    alloc: Global,
    origin: &Origin,
    world: &mut World,
    slot: u32,
    done: &Done,
)
    requires world { IsWorldOf origin.now world.old }
    requires done { IsWorkOf origin.now done.now }
    ensures { IsWorldOf origin.now world.new }
{
    let before = whole(rt, alloc, world);
    let out = give(rt, alloc, origin, world, slot, done);
    is_equal(rt, &out, &RanStep::Stale, "it is stale");
    is_whole(rt, alloc, world, before.as_str());
}

// The pending job of a client is run elsewhere and given back, and then given back once more.
fn run_elsewhere(rt: &impl Abort, alloc: Global, origin: &Origin, world: &mut World, client: u32)
    requires { IsWorldOf origin.now world.old }
    ensures { IsWorldOf origin.now world.new }
{
    let slot = client.saturating_sub(1);
    let done = work(rt, alloc, origin, world, slot);
    let out = give(rt, alloc, origin, world, slot, &done);
    is_equal(rt, &out, &RanStep::Used, "it is used");
    is_stale(rt, alloc, origin, world, slot, &done);
}

fn step(rt: &impl Abort, alloc: Global, origin: &Origin, world: &mut World, event: Event) -> StepOut
    requires { IsWorldOf origin.now world.old }
    ensures { IsWorldOf origin.now world.new }
{
    world.step(alloc, event).expect(rt, MEMORY)
}

fn happens(
    rt: &impl Abort,
    alloc: Global,
    origin: &Origin,
    world: &mut World,
    way: Way,
    event: Event,
)
    requires { IsWorldOf origin.now world.old }
    ensures { IsWorldOf origin.now world.new }
{
    if let (Way::Elsewhere, Event::Ran(client)) = (way, event) {
        run_elsewhere(rt, alloc, origin, world, client);
    } else {
        let out = step(rt, alloc, origin, world, event);
        is_equal(
            rt,
            &(event, out),
            &(event, StepOut::Moved),
            "an event happens",
        );
    }
}

// From this number on just this was sent.
fn sends(rt: &impl Abort, alloc: Global, world: &World, first: u64, lines: &[&str]) {
    let mut number = first;
    for line in lines {
        let env = world.mail().get(number).expect(rt, MEMORY).expect(rt, line);
        let told = envelope_line(rt, alloc, number, &env);
        is_equal(rt, &told.as_str(), line, "what is sent");
        number = number.saturating_add(1);
    }
    is_equal(rt, &world.mail().sent(), &number, "how much is sent");
}

fn stays(rt: &impl Abort, alloc: Global, origin: &Origin, world: &mut World, event: Event)
    requires { IsWorldOf origin.now world.old }
    ensures { IsWorldOf origin.now world.new }
{
    let before = whole(rt, alloc, world);
    let out = step(rt, alloc, origin, world, event);
    is_equal(
        rt,
        &(event, out),
        &(event, StepOut::Idle),
        "an event can't happen",
    );
    is_whole(rt, alloc, world, before.as_str());
}

fn shows(rt: &impl Abort, alloc: Global, world: &World, slot: u32, line: &str)
    requires { IsUsable world.now }
{
    assert!(rt; slot < world.nodes());
    let told = menu_line(rt, alloc, &world.menu(slot));
    is_equal(rt, &told.as_str(), &line, "what a link is shown");
}

// One row.
fn holds(rt: &impl Abort, alloc: Global, origin: &Origin, world: &mut World, way: Way, row: &Row)
    requires { IsWorldOf origin.now world.old }
    ensures { IsWorldOf origin.now world.new }
{
    match row {
        Row::Moves(event, lines) => {
            let first = world.mail().sent();
            happens(rt, alloc, origin, world, way, *event);
            sends(rt, alloc, world, first, lines);
        }
        Row::Still(event) => stays(rt, alloc, origin, world, *event),
        Row::Shows(slot, line) => shows(rt, alloc, world, *slot, line),
    }
}

/// Plays rows on a world.
pub(crate) fn play(
    rt: &impl Abort,
    alloc: Global,
    origin: &Origin,
    world: &mut World,
    way: Way,
    rows: &[Row],
)
    requires { IsWorldOf origin.now world.old }
    ensures { IsWorldOf origin.now world.new }
{
    for row in rows {
        holds(rt, alloc, origin, world, way, row);
    }
}
