ghost use Rattle.std.specs.Prelude.{◌≡◌, ◌-◌, [], ◌∷◌, ◌++◌, length, OnOk, OnErr, IfOk};
ghost use Rattle.std.specs.List.{slice_get};
ghost use Rattle.net_core.specs.LinkRules.{due_item, due_pick, due_from, entry_at, entry_pick, by_entry, calls_of};
ghost use Rattle.net_core.specs.Minds.{fair_pick, picks_so};
ghost use Rattle.net_core.specs.Replay.{shown};
ghost use Rattle.net_core.specs.SeededRule.{is_among, deliver};

use crate::fairly::{pick_fairly, remember};
use morty_base::NoMemory;
use net_core::{LinkMind, Menu, Pick, PlanWhat};

/// Whether a number is among these.
pub fn is_among(places: &[u64], place: u64) -> bool
    ensures { result ≡ is_among places.now place }
{
    places.iter().any(|other| *other == place)
}

fn due(now: u64, used: &[u64], at: u64, what: PlanWhat) -> Option<Pick>
    ensures { result ≡ due_pick now used.now at what }
{
    match what {
        PlanWhat::At { now: from, pick } => {
            if from <= now && !is_among(used, at) {
                Some(pick)
            } else {
                None
            }
        }
        PlanWhat::Wait(_) | PlanWhat::Next(_) | PlanWhat::Newest(_) | PlanWhat::One(_) => None,
    }
}

/// The item of the plan that is due, with its place.
pub fn due_item(mind: &LinkMind, menu: &Menu<'_>) -> Option<(u64, Pick)>
    ensures { result ≡ due_item mind.now (shown menu.entry.now) }
{
    first_due(menu.now, mind.used.as_slice(), mind.plan.items.as_slice())
}

fn first_due(now: u64, used: &[u64], items: &[PlanWhat]) -> Option<(u64, Pick)>
    ensures { result ≡ due_from now used.now 0 items.now }
{
    let mut rest = items;
    let mut at = 0u64;
    while let Some((first, others)) = rest.split_first() {
        if let Some(pick) = due(now, used, at, *first) {
            return Some((at, pick));
        }
        rest = others;
        at += 1;
    }
    None
}

/// Uses an item of the plan that is due.
pub fn use_item(mind: &mut LinkMind, at: u64, pick: Pick) -> Result<(), NoMemory>
    ensures ok { OnOk result ((pick, mind.new) ≡ picks_so pick (record mind.old { used = mind.old.used ++ at ∷ [] })) }
    ensures err { OnErr result (mind.new ≡ mind.old) }
    ensures slot { mind.new.slot ≡ mind.old.slot }
    ensures late { mind.new.late ≡ mind.old.late }
{
    mind.used.push(at)?;
    if remember(mind, pick).is_err() {
        let _ = mind.used.pop();
        return Err(NoMemory);
    }
    Ok(())
}

/// Picks by the fair rule, and remembers it.
pub fn take_fair(mind: &mut LinkMind, menu: &Menu<'_>) -> Result<Pick, NoMemory>
    ensures ok { IfOk result (λ p. (p, mind.new) ≡ picks_so (fair_pick mind.old (shown menu.entry.now)) mind.old) }
    ensures err { OnErr result (mind.new ≡ mind.old) }
    ensures slot { mind.new.slot ≡ mind.old.slot }
    ensures late { mind.new.late ≡ mind.old.late }
{
    let pick = pick_fairly(mind.recovered.as_slice(), menu);
    remember(mind, pick)?;
    Ok(pick)
}

fn calls(what: PlanWhat) -> u64
    ensures { result ≡ calls_of what }
{
    match what {
        PlanWhat::At { .. } => 0,
        PlanWhat::Wait(calls) | PlanWhat::Next(calls) | PlanWhat::Newest(calls) => calls as u64,
        PlanWhat::One(_) => 1,
    }
}

/// The entry of the plan that serves the next call.
pub fn next_entry(place: u64, items: &[PlanWhat]) -> Option<PlanWhat>
    ensures { result ≡ entry_at place items.now }
{
    let mut rest = items;
    let mut left = place;
    while let Some((first, others)) = rest.split_first() {
        let calls = calls(*first);
        if left < calls {
            return Some(*first);
        }
        left -= calls;
        rest = others;
    }
    None
}

fn pick_newest(fresh: &[u64]) -> Pick
    ensures { result ≡ deliver (slice_get fresh.now (length fresh.now - 1)) }
{
    match fresh.last() {
        None => Pick::Idle,
        Some(place) => Pick::Deliver(*place),
    }
}

fn pick_by(mind: &LinkMind, menu: &Menu<'_>, what: PlanWhat) -> Pick
    ensures { result ≡ entry_pick mind.now (shown menu.entry.now) what }
{
    match what {
        PlanWhat::At { .. } | PlanWhat::Wait(_) => Pick::Idle,
        PlanWhat::Next(_) => pick_fairly(mind.recovered.as_slice(), menu),
        PlanWhat::Newest(_) => pick_newest(menu.fresh),
        PlanWhat::One(pick) => pick,
    }
}

/// Picks by an entry of the plan, or by the fair rule after the last one.
pub fn take_entry(
    mind: &mut LinkMind,
    menu: &Menu<'_>,
    entry: Option<PlanWhat>,
) -> Result<Pick, NoMemory>
    ensures ok { IfOk result (λ p. (p, mind.new) ≡ by_entry mind.old (shown menu.entry.now) entry) }
    ensures err { OnErr result (mind.new ≡ mind.old) }
    ensures slot { mind.new.slot ≡ mind.old.slot }
    ensures late { mind.new.late ≡ mind.old.late }
{
    match entry {
        None => take_fair(mind, menu),
        Some(what) => {
            let pick = pick_by(mind, menu, what);
            remember(mind, pick)?;
            mind.place = mind.place.saturating_add(1);
            Ok(pick)
        }
    }
}
