ghost use Rattle.std.specs.Prelude.{◌≡◌, ℕ, suc, ◌+◌, ◌++◌, ◌<◌, [], ◌∷◌, List, length, map, cond, ◌≤◌, unwrap_or, nat_lt, find, OnOk, OnErr, IfOk};
ghost use Rattle.std.specs.List.{slice_get};
ghost use Rattle.net_core.specs.Draws.{draw};
ghost use Rattle.net_core.specs.Fair.{recover_once};
ghost use Rattle.net_core.specs.Minds.{picks_so, remembers};
ghost use Rattle.net_core.specs.declared.link.LinkMind.{LinkMind as MindValue};
ghost use Rattle.msg.specs.declared.Pick.TheVariants.{Recover};
ghost use Rattle.net_core.specs.Replay.{shown};
ghost use Rattle.net_core.specs.SeededRule.{Drawing, Drawn, is_among, timely, choose, chosen, deliver, repeat_old, or_else, pick_choice, pick_hurry, late_or, pick_otherwise, seeded_pick, first_drawing};
ghost use Rattle.links.specs.Drawings.{drawing, is_late_in, after_try};
ghost use Rattle.links.specs.LateSet.{HasFront, HasAll};
ghost use Rattle.links.specs.declared.late_set.LateSet.{LateSet as LateSetValue};

use crate::fairly::{recover_once, remember};
use crate::late_set::LateSet;
use crate::planned::is_among;
use morty_base::{List, NoMemory};
use net_core::{LinkMind, Menu, Pick, draw};
use rand_pcg::Pcg32;
use std::alloc::Global;

/// What changes while a link draws: the envelopes that became late in this pick, and the generator.
#[derive(Drop)]
pub struct Draws {
    late: List<u64>,
    rng: Pcg32,
}

// What one try to choose came to.
#[derive(Clone, Copy, Debug, PartialEq, Eq)]
enum Tried {
    Picked(Option<Pick>),
    Again,
}

#[tactic(auto, using(crate::proofs::LateLemmas::among_both))]
fn is_late(late: &LateSet, draws: &Draws, place: u64) -> bool
    ensures exact { result ≡ is_late_in late.now draws.now place }
    ensures among { (before : List ℕ) → HasAll before late.now → result ≡ is_among (drawing before draws.now).late place }
{
    late.has(place) || is_among(draws.late.as_slice(), place)
}

// The envelopes that may be chosen.
fn timely(alloc: Global, late: &LateSet, fresh: &[u64], draws: &Draws) -> Result<Vec<u64>, NoMemory>
    ensures { IfOk result (λ v. (before : List ℕ) → HasAll before late.now → v.items ≡ timely (drawing before draws.now).late fresh.now) }
{
    Ok(
        fresh
            .iter()
            .copied()
            .filter(|place| !is_late(late, draws, *place))
            .collect(alloc)?,
    )
}

fn one_if(go: bool) -> u64
    ensures exact { result ≡ cond go 1 0 }
    ensures low { result ≤ 1 }
{
    if go { 1 } else { 0 }
}

// How many choices there are: these envelopes, and Go where it is enabled.
fn count_choices(choices: &Vec<u64>, go: bool) -> u64
    ensures { result ≡ length choices.now.items + cond go 1 0 }
{
    choices.len() as u64 + one_if(go)
}

fn choice_at(choices: &Vec<u64>, place: u64) -> Option<u64>
    ensures { result ≡ slice_get choices.now.items place }
{
    choices.get(place as usize).copied()
}

// Whether a draw below 100 says yes, where it does so as often.
fn is_drawn(draws: &mut Draws, of_100: u32) -> bool
    ensures drawn { result ≡ nat_lt (draw 100 draws.old.rng).0 of_100 }
    ensures past { draws.new ≡ record draws.old { rng = (draw 100 draws.old.rng).1 } }
{
    draw(&mut draws.rng, 100) < u64::from(of_100)
}

// An envelope that becomes late is no choice any more.
fn drop_choice(choices: &mut Vec<u64>, place: u64)
    ensures { (late fresh : List ℕ) → choices.old.items ≡ timely late fresh → choices.new.items ≡ timely (late ++ place ∷ []) fresh }
{
    choices.retain(|other| *other != place);
}

// An envelope that was chosen is delivered or becomes late. Without one Go was chosen.
fn try_envelope(
    draws: &mut Draws,
    choices: &mut Vec<u64>,
    late_of_100: u32,
    envelope: Option<u64>,
) -> Result<Tried, NoMemory>
    ensures tried { IfOk result (λ t. (before : List ℕ) (choose_again : Drawing → Drawn) →
        chosen choose_again late_of_100 (drawing before draws.old) envelope ≡ after_try choose_again t (drawing before draws.new)) }
    ensures choices { IfOk result (λ _. (before fresh : List ℕ) → choices.old.items ≡ timely (drawing before draws.old).late fresh
        → choices.new.items ≡ timely (drawing before draws.new).late fresh) }
{
    let Some(place) = envelope else {
        return Ok(Tried::Picked(Some(Pick::Go)));
    };
    if is_drawn(draws, late_of_100) {
        draws.late.push(place)?;
        drop_choice(choices, place);
        return Ok(Tried::Again);
    }
    Ok(Tried::Picked(Some(Pick::Deliver(place))))
}

// One try to choose. The choices stay those of the envelopes that are not late.
fn try_choice(
    mind: &LinkMind,
    menu: &Menu<'_>,
    choices: &mut Vec<u64>,
    draws: &mut Draws,
) -> Result<Tried, NoMemory>
    requires { choices.old.items ≡ timely (drawing mind.now.late draws.old).late menu.now.fresh.now }
    ensures tried { IfOk result (λ t. (times : ℕ) →
        choose (suc times) mind.now.plan.late (shown menu.entry.now) (drawing mind.now.late draws.old)
        ≡ after_try (choose times mind.now.plan.late (shown menu.entry.now)) t (drawing mind.now.late draws.new)) }
    ensures choices { IfOk result (λ _. choices.new.items ≡ timely (drawing mind.now.late draws.new).late menu.entry.now.fresh.now) }
{
    let count = count_choices(choices, menu.go);
    if count == 0 {
        return Ok(Tried::Picked(None));
    }
    let place = draw(&mut draws.rng, count);
    let chosen = choice_at(choices, place);
    let tried = try_envelope(draws, choices, mind.plan.late, chosen)?;
    Ok(tried)
}

// Draws choices, until one is not an envelope that becomes late.
fn choose(
    mind: &LinkMind,
    menu: &Menu<'_>,
    choices: Vec<u64>,
    draws: &mut Draws,
) -> Result<Option<Pick>, NoMemory>
    requires { choices.items ≡ timely (drawing mind.now.late draws.old).late menu.now.fresh.now }
    ensures { IfOk result (λ o. (o, drawing mind.now.late draws.new)
        ≡ choose (suc (length menu.entry.now.fresh.now)) mind.now.plan.late (shown menu.entry.now) (drawing mind.now.late draws.old)) }
{
    let mut choices = choices;
    let mut more = menu.fresh.len();
    loop {
        if let Tried::Picked(pick) = try_choice(mind, menu, &mut choices, draws)? {
            return Ok(pick);
        }
        if more == 0 {
            return Ok(None);
        }
        more -= 1;
    }
}

fn deliver(envelope: Option<u64>) -> Pick
    ensures { result ≡ deliver envelope }
{
    match envelope {
        None => Pick::Idle,
        Some(place) => Pick::Deliver(place),
    }
}

fn repeat_old(draws: &mut Draws, repeat_of_100: u32, old: &[u64]) -> Option<Pick>
    ensures { (before : List ℕ) → (result, drawing before draws.new) ≡ repeat_old repeat_of_100 old.now (drawing before draws.old) }
{
    if old.is_empty() {
        return None;
    }
    if !is_drawn(draws, repeat_of_100) {
        return None;
    }
    let place = draw(&mut draws.rng, old.len() as u64);
    Some(deliver(old.get(place as usize).copied()))
}

// An old envelope again, or a choice, where there are choices.
fn pick_choice(
    alloc: Global,
    mind: &LinkMind,
    late: &LateSet,
    menu: &Menu<'_>,
    draws: &mut Draws,
) -> Result<Option<Pick>, NoMemory>
    requires { HasAll mind.now.late late.now }
    ensures { IfOk result (λ o. (o, drawing mind.now.late draws.new) ≡ pick_choice mind.now (shown menu.entry.now) (drawing mind.now.late draws.old)) }
{
    let choices = timely(alloc, late, menu.fresh, draws)?;
    if choices.is_empty() && !menu.go {
        return Ok(None);
    }
    if let Some(pick) = repeat_old(draws, mind.plan.repeat, menu.old) {
        return Ok(Some(pick));
    }
    let pick = choose(mind, menu, choices, draws)?;
    Ok(pick)
}

fn first_late(late: &LateSet, draws: &Draws, fresh: &[u64]) -> Option<u64>
    ensures { result ≡ find (is_late_in late.now draws.now) fresh.now }
{
    fresh
        .iter()
        .copied()
        .find(|place| is_late(late, draws, *place))
}

fn pick_hurry(draws: &mut Draws, hurry_of_100: u32, hurry: bool) -> Option<Pick>
    ensures { (before : List ℕ) → (result, drawing before draws.new) ≡ pick_hurry hurry_of_100 hurry (drawing before draws.old) }
{
    if !hurry {
        return None;
    }
    if is_drawn(draws, hurry_of_100) {
        return Some(Pick::Hurry);
    }
    None
}

// Where nothing was chosen.
#[tactic(auto, using(crate::proofs::LateSetLemmas::first_same))]
fn pick_otherwise(
    mind: &LinkMind,
    late: &LateSet,
    menu: &Menu<'_>,
    draws: &mut Draws,
) -> Option<Pick>
    requires { HasAll mind.now.late late.now }
    ensures { (result, drawing mind.now.late draws.new) ≡ pick_otherwise mind.now (shown menu.entry.now) (drawing mind.now.late draws.old) }
{
    match first_late(late, draws, menu.fresh) {
        Some(place) => Some(Pick::Deliver(place)),
        None => pick_hurry(draws, mind.plan.hurry, menu.hurry),
    }
}

fn draw_steps(
    alloc: Global,
    mind: &LinkMind,
    late: &LateSet,
    menu: &Menu<'_>,
    draws: &mut Draws,
) -> Result<Option<Pick>, NoMemory>
    requires { HasAll mind.now.late late.now }
    ensures { IfOk result (λ o. (o, drawing mind.now.late draws.new)
        ≡ or_else (pick_otherwise mind.now (shown menu.entry.now)) (pick_choice mind.now (shown menu.entry.now) (drawing mind.now.late draws.old))) }
{
    match pick_choice(alloc, mind, late, menu, draws)? {
        Some(pick) => Ok(Some(pick)),
        None => Ok(pick_otherwise(mind, late, menu, draws)),
    }
}

// Takes back what was remembered of a pick.
fn forget(mind: &mut LinkMind, pick: Pick)
    ensures { (before : MindValue) → mind.old ≡ remembers pick before → mind.new ≡ before }
{
    if let Pick::Recover(_) = pick {
        let _ = mind.recovered.pop();
    }
}

// Remembers a pick, and what was drawn for it.
fn keep(mind: &mut LinkMind, pick: Pick, draws: Draws) -> Result<(), NoMemory>
    ensures ok { OnOk result ((pick, mind.new) ≡ picks_so pick (record mind.old { late = (drawing mind.old.late draws).late; state = draws.rng.state })) }
    ensures err { OnErr result (mind.new ≡ mind.old) }
    ensures slot { mind.new.slot ≡ mind.old.slot }
    ensures front { (s : LateSetValue) → HasFront mind.old.late s → HasFront mind.new.late s }
{
    remember(mind, pick)?;
    let Draws { late, rng } = draws;
    if mind.late.append(late).is_err() {
        forget(mind, pick);
        return Err(NoMemory);
    }
    mind.state = rng.state();
    Ok(())
}

fn first_draws(alloc: Global, mind: &LinkMind) -> Draws
    ensures { drawing mind.now.late result ≡ first_drawing mind.now }
{
    Draws {
        late: List::new(alloc),
        rng: Pcg32::from_state(mind.state, u64::from(mind.slot)),
    }
}

// What was drawn; else an execution that waits for a warden is recovered once.
fn pick_of(mind: &LinkMind, menu: &Menu<'_>, drawn: Option<Pick>) -> Pick
    ensures { result ≡ unwrap_or drawn (recover_once (map Recover mind.now.recovered) menu.entry.now.stuck) }
{
    match drawn {
        Some(pick) => pick,
        None => recover_once(mind.recovered.as_slice(), menu.stuck),
    }
}

/// Picks by the rule of seeded links, where no item of the plan is due.
pub fn take_drawn(
    alloc: Global,
    mind: &mut LinkMind,
    late: &mut LateSet,
    menu: &Menu<'_>,
) -> Result<Pick, NoMemory>
    requires { HasFront mind.old.late late.old }
    ensures ok { IfOk result (λ p. (p, mind.new) ≡ seeded_pick mind.old (shown menu.entry.now)) }
    ensures err { OnErr result (mind.new ≡ mind.old) }
    ensures slot { mind.new.slot ≡ mind.old.slot }
    ensures front { HasFront mind.new.late late.new }
{
    late.follow(mind.late.as_slice())?;
    let mut draws = first_draws(alloc, mind);
    let drawn = draw_steps(alloc, mind, late, menu, &mut draws)?;
    let pick = pick_of(mind, menu, drawn);
    keep(mind, pick, draws)?;
    Ok(pick)
}
