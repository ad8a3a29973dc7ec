ghost use Rattle.std.specs.Prelude.{◌≡◌, OnErr, IfOk};
ghost use Rattle.net_core.specs.LinkRules.{link_rule};
ghost use Rattle.net_core.specs.Minds.{first_state, fresh_mind, empty_plan};
ghost use Rattle.net_core.specs.Replay.{shown};
ghost use Rattle.net_core.specs.Ruled.{begun, IsPicked};
ghost use Rattle.net_core.specs.declared.plan.LinkKind.TheVariants.{Fair, Listed, Seeded};
ghost use Rattle.links.specs.LateSet.{HasFront};
ghost use Rattle.links.specs.Shown.{first_link};

use crate::drawing::take_drawn;
use crate::late_set::LateSet;
use crate::planned::{due_item, next_entry, take_entry, take_fair, use_item};
use morty_base::{List, NoMemory};
use net_core::{LinkKind, LinkMind, LinkPlan, Menu, Pick};
use rand_pcg::Pcg32;
use std::alloc::Global;
use std::marker::Model;

/// A link that follows the rule of its kind.
#[derive(Drop)]
pub struct RuledLink {
    alloc: Global,
    kind: LinkKind,
    mind: LinkMind,
    late: LateSet,
    picks: Vec<Pick>,
}

impl Model for RuledLink {
    ghost use Rattle.net_core.specs.Ruled.{LinkState};

    ghost Value = { LinkState };

    ghost use Rattle.links.specs.LateSet.{HasFront};
    ghost use Rattle.links.specs.Shown.{shown_state};

    ghost view = { shown_state };

    ghost invariant = { λ l. HasFront l.mind.late l.late };
}

impl RuledLink {
    /// A link that picked nothing.
    pub fn new(alloc: Global, kind: LinkKind, slot: u32) -> RuledLink
        ensures { result ≡ first_link kind slot }
    {
        RuledLink {
            alloc,
            kind,
            mind: begun_mind(alloc, kind, slot, empty_plan(alloc)),
            late: LateSet::new(alloc),
            picks: Vec::new(alloc),
        }
    }

    pub fn kind(&self) -> LinkKind
        ensures { result ≡ self.now.kind }
    {
        self.kind
    }

    pub fn slot(&self) -> u32
        ensures { result ≡ self.now.slot }
    {
        self.mind.slot
    }

    /// Forgets its mind, and keeps its picks.
    pub fn begin(&mut self, plan: LinkPlan)
        ensures { self.new ≡ begun plan self.old }
    {
        self.mind = begun_mind(self.alloc, self.kind, self.mind.slot, plan);
        self.late = LateSet::new(self.alloc);
    }

    /// Picks by the rule.
    pub fn pick(&mut self, menu: &Menu<'_>) -> Result<Pick, NoMemory>
        ensures ok { IfOk result (λ p. IsPicked (shown menu.entry.now) p self.old self.new) }
        ensures err { OnErr result (self.new ≡ self.old) }
    {
        self.picks.reserve(1)?;
        let pick = pick_by_rule(self.alloc, self.kind, &mut self.mind, &mut self.late, menu)?;
        self.picks.push_reserved(pick);
        Ok(pick)
    }
}

fn empty_plan(alloc: Global) -> LinkPlan
    ensures { result ≡ empty_plan }
{
    LinkPlan {
        net_seed: 0,
        late: 0,
        repeat: 0,
        hurry: 0,
        items: List::new(alloc),
    }
}

#[tactic(auto, unfolding(net_core::specs::Draws::generator))]
fn first_state(kind: LinkKind, slot: u32, plan: &LinkPlan) -> u64
    ensures { result ≡ first_state kind slot plan.now }
{
    match kind {
        LinkKind::Fair | LinkKind::Listed => 0,
        LinkKind::Seeded => Pcg32::new(plan.net_seed, u64::from(slot)).state(),
    }
}

fn begun_mind(alloc: Global, kind: LinkKind, slot: u32, plan: LinkPlan) -> LinkMind
    ensures { result ≡ fresh_mind kind slot plan }
{
    let first = first_state(kind, slot, &plan);
    LinkMind {
        slot,
        plan,
        used: List::new(alloc),
        place: 0,
        recovered: List::new(alloc),
        late: List::new(alloc),
        state: first,
    }
}

#[tactic(auto, unfolding(net_core::specs::LinkRules::link_rule))]
fn pick_in_order(mind: &mut LinkMind, menu: &Menu<'_>) -> Result<Pick, NoMemory>
    ensures ok { IfOk result (λ p. (p, mind.new) ≡ link_rule Fair mind.old (shown menu.entry.now)) }
    ensures err { OnErr result (mind.new ≡ mind.old) }
    ensures slot { mind.new.slot ≡ mind.old.slot }
    ensures late { mind.new.late ≡ mind.old.late }
{
    match due_item(mind, menu) {
        Some((at, pick)) => {
            use_item(mind, at, pick)?;
            Ok(pick)
        }
        None => {
            let pick = take_fair(mind, menu)?;
            Ok(pick)
        }
    }
}

#[tactic(auto, unfolding(net_core::specs::LinkRules::link_rule))]
fn pick_by_list(mind: &mut LinkMind, menu: &Menu<'_>) -> Result<Pick, NoMemory>
    ensures ok { IfOk result (λ p. (p, mind.new) ≡ link_rule Listed mind.old (shown menu.entry.now)) }
    ensures err { OnErr result (mind.new ≡ mind.old) }
    ensures slot { mind.new.slot ≡ mind.old.slot }
    ensures late { mind.new.late ≡ mind.old.late }
{
    let entry = next_entry(mind.place, mind.plan.items.as_slice());
    let pick = take_entry(mind, menu, entry)?;
    Ok(pick)
}

#[tactic(auto, unfolding(net_core::specs::LinkRules::link_rule))]
fn pick_by_draws(
    alloc: Global,
    mind: &mut LinkMind,
    late: &mut LateSet,
    menu: &Menu<'_>,
) -> Result<Pick, NoMemory>
    requires { HasFront mind.old.late late.old }
    ensures ok { IfOk result (λ p. (p, mind.new) ≡ link_rule Seeded mind.old (shown menu.entry.now)) }
    ensures err { OnErr result (mind.new ≡ mind.old) }
    ensures slot { mind.new.slot ≡ mind.old.slot }
    ensures front { HasFront mind.new.late late.new }
{
    match due_item(mind, menu) {
        Some((at, pick)) => {
            use_item(mind, at, pick)?;
            Ok(pick)
        }
        None => {
            let pick = take_drawn(alloc, mind, late, menu)?;
            Ok(pick)
        }
    }
}

fn pick_by_rule(
    alloc: Global,
    kind: LinkKind,
    mind: &mut LinkMind,
    late: &mut LateSet,
    menu: &Menu<'_>,
) -> Result<Pick, NoMemory>
    requires { HasFront mind.old.late late.old }
    ensures ok { IfOk result (λ p. (p, mind.new) ≡ link_rule kind mind.old (shown menu.entry.now)) }
    ensures err { OnErr result (mind.new ≡ mind.old) }
    ensures slot { mind.new.slot ≡ mind.old.slot }
    ensures front { HasFront mind.new.late late.new }
{
    match kind {
        LinkKind::Fair => pick_in_order(mind, menu),
        LinkKind::Listed => pick_by_list(mind, menu),
        LinkKind::Seeded => pick_by_draws(alloc, mind, late, menu),
    }
}
