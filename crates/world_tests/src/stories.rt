//! Runs, row by row, and what is reported of them.

ghost use Rattle.world.specs.Origin.{IsOrigin};
ghost use Rattle.world.specs.World.{IsUsable};
ghost use Rattle.world_tests.specs.Playing.{IsWorldOf};

use crate::beginning::{FIRST, RAISES};
use crate::checks::{MEMORY, is_equal};
use crate::dropping::{DROPS, RAISES_AND_LOOKS, TOO_OLD};
use crate::missing::{
    BRANCHES, FOLLOWED, UNSURE, WRITES_AND_ADDS, WRITES_AND_BRANCHES, WRITES_AND_STOPS, again,
    told, vanishes,
};
use crate::playing::{Row, Way, is_stale, play, work};
use crate::recovering::{ABANDONS, CONTEST, RAISES_BESIDE_WARDENS, TWO_VOTES};
use crate::voting::{HURRIED, LOOKS, MISSED, WRITES_AND_LOOKS};
use morty_base::Ended;
use net_core::Machine;
use report::report_text;
use script::{read_script, said_is_sayable};
use std::alloc::Global;
use std::mem::forget;
use std::process::Abort;
use world::{Origin, World, kit};

// What the script's world is made of.
fn origin(rt: &impl Abort, alloc: Global, script: &[u8]) -> Origin
    ensures { IsOrigin result }
{
    said_is_sayable();
    assert!(rt; script.len() < 4000);
    let setup = read_script(alloc, script).expect(rt, "a script");
    let kit = kit(alloc, &setup).expect(rt, MEMORY);
    Origin { setup, kit }
}

fn begin(rt: &impl Abort, alloc: Global, origin: &Origin) -> World
    requires { IsOrigin origin.now }
    ensures { IsWorldOf origin.now result }
{
    World::new(alloc, &origin.setup, &origin.kit).expect(rt, MEMORY)
}

// What is reported, as if the nodes were out of turns.
fn reports(rt: &impl Abort, alloc: Global, origin: &Origin, world: &World, lines: &[u8])
    requires { IsUsable world.now }
{
    let rows = world.rows(alloc).expect(rt, MEMORY);
    let tables = origin.setup.tables.as_slice();
    let text = report_text(alloc, tables, &rows, Ended::Spent).expect(rt, MEMORY);
    is_equal(rt, &text.as_slice(), &lines, "what is reported");
}

// The parts of a run one after another, and its report.
fn tell_parts(
    rt: &impl Abort,
    alloc: Global,
    origin: &Origin,
    world: &mut World,
    way: Way,
    parts: &[&[Row]],
    lines: &[u8],
)
    requires { IsWorldOf origin.now world.old }
{
    for rows in parts {
        play(rt, alloc, origin, world, way, rows);
    }
    reports(rt, alloc, origin, world, lines);
}

// A test is a process of its own, so a world is left to its end, and no proof takes it down.
fn tell(rt: &impl Abort, alloc: Global, way: Way, script: &[u8], parts: &[&[Row]], lines: &[u8]) {
    let origin = origin(rt, alloc, script);
    let mut world = begin(rt, alloc, &origin);
    tell_parts(rt, alloc, &origin, &mut world, way, parts, lines);
    forget(world);
    forget(origin);
}

// Runs that commit, or abort, by votes alone.
fn tell_votes(rt: &impl Abort, alloc: Global, way: Way) {
    tell(
        rt,
        alloc,
        way,
        RAISES,
        &[&FIRST],
        b"commit 10.1 txn 1.1 try 1 exec 0 end done\nread x[1] 4\nout 4\nvalue x[1] 5\nended spent events 9\n",
    );
    tell(
        rt,
        alloc,
        way,
        WRITES_AND_LOOKS,
        &[&MISSED],
        b"commit 20.2 txn 2.1 try 1 exec 0 end done\nread x[1] 0\nout 0\nnone 1.1 aborted\nended spent events 13\n",
    );
    tell(
        rt,
        alloc,
        way,
        LOOKS,
        &[&HURRIED],
        b"commit 20.1 txn 1.1 try 1 exec 0 end done\nread x[1] 0\nout 0\nended spent events 14\n",
    );
}

// Runs in which a read misses a write, or sees one that vanishes.
fn tell_misses(rt: &impl Abort, alloc: Global, way: Way) {
    tell(
        rt,
        alloc,
        way,
        WRITES_AND_ADDS,
        &[&FOLLOWED],
        b"none 1.1 open\nnone 2.1 open\nended spent events 10\n",
    );
    tell(
        rt,
        alloc,
        way,
        WRITES_AND_BRANCHES,
        &[&BRANCHES],
        b"commit 10.1 txn 1.1 try 1 exec 0 end done
commit 20.2 txn 2.1 try 1 exec 1 end done\nread x[1] 1\nread z[1] 0\nread z[2] 0\nout 1
commit 30.3 txn 3.1 try 1 exec 1 end done\nread y[1] 0\nout 0
value x[1] 1\nvalue y[2] 9\nended spent events 41\n",
    );
    tell(
        rt,
        alloc,
        way,
        WRITES_AND_STOPS,
        &[told(), &UNSURE, vanishes(), again()],
        b"commit 20.2 txn 2.1 try 1 exec 1 end done\nread x[1] 0\nout 0\nnone 1.1 open\nended spent events 20\n",
    );
}

// Runs in which wardens recover and truncate.
fn tell_recoveries(rt: &impl Abort, alloc: Global, way: Way) {
    let voted: &[Row] = &TWO_VOTES;
    tell(
        rt,
        alloc,
        way,
        RAISES_BESIDE_WARDENS,
        &[voted, &CONTEST],
        b"commit 10.1 txn 1.1 try 1 exec 0 end done\nread x[1] 4\nout 4\nvalue x[1] 5\nended spent events 23\n",
    );
    tell(
        rt,
        alloc,
        way,
        RAISES_BESIDE_WARDENS,
        &[voted, &ABANDONS],
        b"none 1.1 open\nvalue x[1] 4\nended spent events 14\n",
    );
    tell(
        rt,
        alloc,
        way,
        RAISES_AND_LOOKS,
        &[voted, &DROPS, &TOO_OLD],
        b"commit 10.1 txn 1.1 try 1 exec 0 end done\nread x[1] 4\nout 4\nnone 2.1 open\nvalue x[1] 5\nended spent events 30\n",
    );
}

fn tell_all(rt: &impl Abort, alloc: Global, way: Way) {
    tell_votes(rt, alloc, way);
    tell_misses(rt, alloc, way);
    tell_recoveries(rt, alloc, way);
}

#[test]
fn nodes_do_as_their_rules_say(rt: HostRuntime) {
    tell_all(&rt, rt.alloc(), Way::Here);
}

#[test]
fn segments_may_be_run_elsewhere(rt: HostRuntime) {
    tell_all(&rt, rt.alloc(), Way::Elsewhere);
}

// While client 2's segment is run elsewhere the write that it read vanishes, and another job is pending.
fn overtake(rt: &impl Abort, alloc: Global, origin: &Origin, world: &mut World)
    requires { IsWorldOf origin.now world.old }
    ensures { IsWorldOf origin.now world.new }
{
    let done = work(rt, alloc, origin, world, 1);
    play(rt, alloc, origin, world, Way::Here, vanishes());
    is_stale(rt, alloc, origin, world, 1, &done);
}

fn tell_overtaken(rt: &impl Abort, alloc: Global, origin: &Origin, world: &mut World)
    requires { IsWorldOf origin.now world.old }
{
    play(rt, alloc, origin, world, Way::Here, told());
    overtake(rt, alloc, origin, world);
    play(rt, alloc, origin, world, Way::Here, again());
    reports(
        rt,
        alloc,
        origin,
        world,
        b"commit 20.2 txn 2.1 try 1 exec 1 end done\nread x[1] 0\nout 0\nnone 1.1 open\nended spent events 19\n",
    );
}

#[test]
fn a_segment_may_be_overtaken(rt: HostRuntime) {
    let origin = origin(&rt, rt.alloc(), WRITES_AND_STOPS);
    let mut world = begin(&rt, rt.alloc(), &origin);
    tell_overtaken(&rt, rt.alloc(), &origin, &mut world);
    forget(world);
    forget(origin);
}
