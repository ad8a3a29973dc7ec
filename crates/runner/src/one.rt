ghost use Rattle.std.specs.Prelude.{◌≡◌, ◌<◌, ◌-◌, true, false, [], Some, None, IfOk, OnOk, OnErr};
ghost use Rattle.net_core.specs.Marks.{end_of};
ghost use Rattle.hub.specs.Kept.{picks_in, rans_in};
ghost use Rattle.hub.specs.Starts.{Start};
ghost use Rattle.hub.specs.Views.{history, told_end};
ghost use Rattle.net_core.specs.Rounds.{InRounds};
ghost use Rattle.runner.specs.Growth.{HasGrown};
ghost use Rattle.runner.specs.AtSlot.{IsAtSlot, KeepsTurns, HasTurns};
ghost use Rattle.runner.specs.Progress.{IsRecalled, IsVisited, IsRound};

use hub::{Hub, Named, TurnOut};
use morty_base::{Ended, NoMemory};
use net_core::{Link, Machine};
use std::alloc::Global;

/// How a run ended, and by how many picks and used segments its journal grew.
#[derive(Clone, Copy, Debug, PartialEq, Eq)]
pub struct RunOut {
    pub ended: Ended,
    pub turns: u64,
    pub rans: u64,
}

/// Runs a hub to its end: round after round, one turn of each node in the order of their slots. A job is run and given
/// back in the turn that answers it. After `NoMemory` the hub is as after one of its `turn`.
pub fn run_one<M: Machine, L: Link, N: Named<M::Origin>>(
    alloc: Global,
    hub: &mut Hub<M, L, N>,
    kit: &M::Kit,
) -> Result<RunOut, NoMemory>
    requires { (s : Start M.Origin) × (N.start ≡ Some s) × M.kit_of s.origin kit.now }
    ensures ended { IfOk result (λ r. told_end hub.new ≡ Some r.ended) }
    ensures end { IfOk result (λ r. (s : Start M.Origin) → N.start ≡ Some s → end_of (M.rules s.origin) s.turns (history hub.new) ≡ Some r.ended) }
    ensures turns { IfOk result (λ r. r.turns ≡ picks_in (history hub.new) - picks_in (history hub.old)) }
    ensures rans { IfOk result (λ r. (s : Start M.Origin) → N.start ≡ Some s
        → r.rans ≡ rans_in (M.rules s.origin) (history hub.new) - rans_in (M.rules s.origin) (history hub.old)) }
    ensures grown { OnOk result ((s : Start M.Origin) → N.start ≡ Some s → HasGrown (M.rules s.origin) hub.old hub.new) }
    ensures rounds { OnOk result ((s : Start M.Origin) → N.start ≡ Some s → hub.old.journal ≡ [] → hub.old.ended ≡ None
        → InRounds (M.rules s.origin) s.turns (history hub.new)) }
    ensures whole { OnOk result (hub.new.broken ≡ false) }
    ensures err { OnErr result (hub.new.spoiled ≡ true) }
{
    let first = hub.counted();
    let _nodes = hub.nodes();
    hub.recall();
    let ended = run_rounds(alloc, hub, kit)?;
    let last = hub.counted();
    Ok(RunOut {
        ended,
        turns: last.turns.saturating_sub(first.turns),
        rans: last.rans.saturating_sub(first.rans),
    })
}

// Round after round, until the run has ended.
fn run_rounds<M: Machine, L: Link, N: Named<M::Origin>>(
    alloc: Global,
    hub: &mut Hub<M, L, N>,
    kit: &M::Kit,
) -> Result<Ended, NoMemory>
    requires kit { (s : Start M.Origin) × (N.start ≡ Some s) × M.kit_of s.origin kit.now }
    requires recalled { (s : Start M.Origin) → N.start ≡ Some s → IsRecalled (M.rules s.origin) hub.old }
    ensures ended { IfOk result (λ e. told_end hub.new ≡ Some e) }
    ensures end { IfOk result (λ e. (s : Start M.Origin) → N.start ≡ Some s → end_of (M.rules s.origin) s.turns (history hub.new) ≡ Some e) }
    ensures grown { OnOk result ((s : Start M.Origin) → N.start ≡ Some s → HasGrown (M.rules s.origin) hub.old hub.new) }
    ensures rounds { OnOk result ((s : Start M.Origin) → N.start ≡ Some s → IsAtSlot (M.rules s.origin) s.turns 0 hub.old
        → InRounds (M.rules s.origin) s.turns (history hub.new)) }
    ensures whole { OnOk result (hub.new.broken ≡ false) }
    ensures err { OnErr result (hub.new.spoiled ≡ true) }
{
    'rounds: loop {
        round(alloc, hub, kit)?;
        if let Some(ended) = hub.ended() {
            return Ok(ended);
        }
    }
}

// A visit of each slot, until the run has ended.
fn round<M: Machine, L: Link, N: Named<M::Origin>>(
    alloc: Global,
    hub: &mut Hub<M, L, N>,
    kit: &M::Kit,
) -> Result<(), NoMemory>
    requires { (s : Start M.Origin) × (N.start ≡ Some s) × M.kit_of s.origin kit.now }
    ensures ok { OnOk result ((s : Start M.Origin) → N.start ≡ Some s → IsRecalled (M.rules s.origin) hub.old
        → IsRound (M.rules s.origin) s.turns hub.old hub.new) }
    ensures grown { OnOk result ((s : Start M.Origin) → N.start ≡ Some s → HasGrown (M.rules s.origin) hub.old hub.new) }
    ensures keeps { OnOk result ((s : Start M.Origin) → N.start ≡ Some s → IsRecalled (M.rules s.origin) hub.old
        → IsAtSlot (M.rules s.origin) s.turns 0 hub.old → HasTurns (M.rules s.origin) s.turns hub.new) }
    ensures err { OnErr result (hub.new.spoiled ≡ true) }
{
    for slot in 0..hub.nodes() {
        visit(alloc, hub, kit, slot)?;
        if hub.ended().is_some() {
            return Ok(());
        }
    }
    Ok(())
}

// A turn of the slot's node. A job that it answers is run and given back.
fn visit<M: Machine, L: Link, N: Named<M::Origin>>(
    alloc: Global,
    hub: &mut Hub<M, L, N>,
    kit: &M::Kit,
    slot: u32,
) -> Result<(), NoMemory>
    requires kit { (s : Start M.Origin) × (N.start ≡ Some s) × M.kit_of s.origin kit.now }
    requires slot { slot < hub.old.nodes }
    ensures ok { OnOk result ((s : Start M.Origin) → N.start ≡ Some s → IsRecalled (M.rules s.origin) hub.old
        → IsVisited (M.rules s.origin) s.turns slot hub.old hub.new) }
    ensures grown { OnOk result ((s : Start M.Origin) → N.start ≡ Some s → HasGrown (M.rules s.origin) hub.old hub.new) }
    ensures keeps { OnOk result ((s : Start M.Origin) → N.start ≡ Some s → IsRecalled (M.rules s.origin) hub.old
        → IsAtSlot (M.rules s.origin) s.turns slot hub.old → KeepsTurns (M.rules s.origin) s.turns slot hub.new) }
    ensures sound { OnOk result (hub.new.spoiled ≡ false) }
    ensures nodes { hub.new.nodes ≡ hub.old.nodes }
    ensures err { OnErr result (hub.new.spoiled ≡ true) }
{
    let out = hub.turn(slot)?;
    let TurnOut::Job(job) = out else {
        return Ok(());
    };
    let Ok(done) = M::work(alloc, kit, job) else {
        hub.spoil();
        return Err(NoMemory);
    };
    hub.give(slot, &done)?;
    Ok(())
}
