ghost use Rattle.std.specs.Prelude.{◌≡◌, [], Some, IfOk, length, map, reverse};
ghost use Rattle.runner.specs.WholeRun.{IsWholeRun, start_of};

use crate::one::{RunOut, run_one};
use hub::{Hub, Named};
use morty_base::NoMemory;
use msg::Event;
use net_core::{Link, Machine};
use std::alloc::Global;
use std::marker::Brand;

/// What a run leaves.
#[derive(Drop)]
pub struct Ran<M: Drop, L: Drop> {
    pub machine: M,
    pub journal: Vec<Event>,
    pub links: Vec<L>,
    pub out: RunOut,
}

/// A whole run by one loop. The machine is one of the origin that has taken no event, the links are those of its nodes in
/// the order of their slots, and each node may make so many turns.
pub fn run_fresh<M: Machine, L: Link>(
    alloc: Global,
    origin: &M::Origin,
    machine: M,
    links: Vec<L>,
    kit: &M::Kit,
    turns: u32,
) -> Result<Ran<M, L>, NoMemory>
    requires machine { M.stands machine origin.now [] }
    requires links { length links.items ≡ M.count machine }
    requires kit { M.kit_of origin.now kit.now }
    ensures { IfOk result (λ r. IsWholeRun M.rules (M.stands r.machine) (start_of origin.now turns (map L.state_of links.items))
        (reverse r.journal.items) (map L.state_of r.links.items) r.out) }
{
    run_named::<M, L, Brand>(alloc, origin, machine, links, kit, turns)
}

// The run that has this name.
fn run_named<M: Machine, L: Link, N: Named<M::Origin>>(
    alloc: Global,
    origin: &M::Origin,
    machine: M,
    links: Vec<L>,
    kit: &M::Kit,
    turns: u32,
) -> Result<Ran<M, L>, NoMemory>
    requires machine { M.stands machine origin.now [] }
    requires links { length links.items ≡ M.count machine }
    requires kit { M.kit_of origin.now kit.now }
    requires start { N.start ≡ Some (start_of origin.now turns (map L.state_of links.items)) }
    ensures { IfOk result (λ r. IsWholeRun M.rules (M.stands r.machine) (start_of origin.now turns (map L.state_of links.items))
        (reverse r.journal.items) (map L.state_of r.links.items) r.out) }
{
    let mut hub: Hub<M, L, N> = Hub::new(alloc, machine, links, turns)?;
    let out = run_one(alloc, &mut hub, kit)?;
    let (machine, journal, links) = hub.into_parts();
    Ok(Ran {
        machine,
        journal,
        links,
        out,
    })
}

/// The same with boxed links, as a program has them.
pub fn run_boxed<M: Machine>(
    alloc: Global,
    origin: &M::Origin,
    machine: M,
    links: Vec<Box<dyn Link + Send>>,
    kit: &M::Kit,
    turns: u32,
) -> Result<(M, Vec<Event>, Vec<Box<dyn Link + Send>>, RunOut), NoMemory>
    requires machine { M.stands machine origin.now [] }
    requires links { length links.items ≡ M.count machine }
    requires kit { M.kit_of origin.now kit.now }
    ensures { IfOk result (λ r. IsWholeRun M.rules (M.stands r.0) (start_of origin.now turns (map (λ l. state_of l) links.items))
        (reverse r.1.items) (map (λ l. state_of l) r.2.items) r.3) }
{
    let Ran {
        machine,
        journal,
        links,
        out,
    } = run_fresh(alloc, origin, machine, links, kit, turns)?;
    Ok((machine, journal, links, out))
}
