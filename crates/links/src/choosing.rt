//! The links of a run are chosen among those that were handed in.

ghost use Rattle.std.specs.Prelude.{◌≡◌, map, IfOk};
ghost use Rattle.links.specs.Choosing.{same_kind, IsPlaceOf, IsChoice};

use morty_base::NoMemory;
use net_core::{Link, LinkKind};
use std::alloc::Global;

/// One link for each slot, or the lowest slot for which none was handed in.
#[derive(Drop)]
pub enum Chosen<L: Drop> {
    All(Vec<L>),
    Missing(u32),
}

fn same_kind(a: LinkKind, b: LinkKind) -> bool
    ensures { result ≡ same_kind a b }
{
    match (a, b) {
        (LinkKind::Fair, LinkKind::Fair)
        | (LinkKind::Listed, LinkKind::Listed)
        | (LinkKind::Seeded, LinkKind::Seeded) => true,
        _ => false,
    }
}

// The place of the first link of this kind and slot.
fn place_of<L: Link>(links: &[L], kind: LinkKind, slot: u32) -> Option<usize>
    ensures { IsPlaceOf L.state_of kind slot links.now result }
{
    for i in 0..links.len() {
        if same_kind(kind, links[i].kind()) && slot == links[i].slot() {
            return Some(i);
        }
    }
    None
}

/// For each slot below the count, in order, the first link that was handed in with this kind and slot. All others are
/// dropped.
pub fn choose<L: Link>(
    alloc: Global,
    links: Vec<L>,
    kind: LinkKind,
    count: u32,
) -> Result<Chosen<L>, NoMemory>
    ensures { IfOk result (IsChoice L.state_of kind (map L.state_of links.items) count) }
{
    let mut rest = links;
    let mut chosen = Vec::new(alloc);
    for slot in 0..count {
        match place_of(rest.as_slice(), kind, slot) {
            None => return Ok(Chosen::Missing(slot)),
            Some(i) => chosen.push(rest.remove(i))?,
        }
    }
    Ok(Chosen::All(chosen))
}
