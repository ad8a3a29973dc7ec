//! A world that is whole from call to call.

ghost use Rattle.std.specs.Prelude.{◌≡◌, ◌≢◌, ◌<◌, [], ◌∷◌, false, Some, IfOk, slice_get};
ghost use Rattle.morty_base.specs.declared.names.NodeId.{NodeId as NodeValue};
ghost use Rattle.protocol.specs.Words.{Client};
ghost use Rattle.protocol.specs.World.Committed.{nodes as nodes_of};
ghost use Rattle.menus.specs.Slots.{count_of};
ghost use Rattle.script.specs.Sayable.{IsSetup};
ghost use Rattle.net_core.specs.Machine.{History};
ghost use Rattle.world_rows.specs.Machine.{effect_in, machine_of, menu_in};
ghost use Rattle.world_rows.specs.Rows.{rows_of};
ghost use Rattle.net_core.specs.Replay.{out_of, shown, IsGiven};
ghost use Rattle.world.specs.Jobs.{pending_of, IsDoneOf};
ghost use Rattle.world.specs.declared.origin.Origin.{Origin as OriginValue};
ghost use Rattle.world.specs.Origin.{AreCodes, script, plan, world_at};
ghost use Rattle.world.specs.World.{IsUsable, Stands};

use crate::parts::Parts;
use crate::setup::slots;
use continuation::Done;
use flat_code::Code;
use menus::Slots;
use morty_base::{List, NoMemory};
use msg::Event;
use net_core::{Mail, Menu, RanStep, StepOut};
use report::Rows;
use script::Setup;
use std::alloc::Global;

/// The world of a setup: its nodes, the mail, and what is needed to report of them. It is broken once a call that changes it
/// was refused memory: each later call that can be refused is, and what its other calls answer means nothing.
#[derive(Drop)]
pub struct World {
    pub(crate) slots: Slots,
    pub(crate) parts: Parts,
    pub(crate) broken: bool,
}

impl World {
    /// The world of a setup whose programs have this code. Nothing happened in it.
    pub fn new(alloc: Global, setup: &Setup, kit: &List<Code>) -> Result<World, NoMemory>
        requires says { IsSetup setup.now }
        requires codes { AreCodes setup.now kit.now }
        ensures { IfOk result (λ w. Stands w (record { setup = setup.now; kit = kit.now }) []) }
    {
        let parts = Parts::new(alloc, setup, kit)?;
        Ok(World {
            slots: slots(setup),
            parts,
            broken: false,
        })
    }

    /// All envelopes that were sent.
    pub fn mail(&self) -> &Mail
        ensures { (o : OriginValue) (h : History) → Stands self.now o h → result.now ≡ (world_at o h).mail }
    {
        self.parts.boxes.mail()
    }

    /// What is committed, with what it read and printed; what became of the other transactions; and the last values.
    pub fn rows(&self, alloc: Global) -> Result<Rows, NoMemory>
        requires { IsUsable self.now }
        ensures { IfOk result (λ r. (o : OriginValue) (h : History) → Stands self.now o h → r ≡ rows_of (script o) (world_at o h)) }
    {
        if self.broken {
            return Err(NoMemory);
        }
        self.parts.rows(alloc)
    }

    // What the link of a slot is shown.
    pub(crate) fn shown(&self, slot: u32) -> Menu<'_>
        requires slot { slot < count_of self.now.slots }
        requires usable { IsUsable self.now }
        ensures { (o : OriginValue) (h : History) (n : NodeValue) → Stands self.now o h → slice_get (nodes_of (plan o)) slot ≡ Some n → shown result ≡ menu_in (plan o) (world_at o h) n }
    {
        if self.broken {
            return Menu {
                now: 0,
                go: false,
                hurry: false,
                fresh: &[],
                old: &[],
                stuck: None,
            };
        }
        self.parts.menu(slot, self.slots.node(slot))
    }

    // Takes an event.
    pub(crate) fn take(&mut self, alloc: Global, event: Event) -> Result<StepOut, NoMemory>
        requires { IsUsable self.old }
        ensures usable { IsUsable self.new }
        ensures slots { self.new.slots ≡ self.old.slots }
        ensures taken { IfOk result (λ out. (o : OriginValue) (h : History) → Stands self.old o h → Stands self.new o (event ∷ h) × (out ≡ out_of (effect_in (plan o) (world_at o h) event))) }
        ensures still { IfOk result (λ out. out ≢ StepOut.Moved → self.new ≡ self.old) }
    {
        if self.broken {
            return Err(NoMemory);
        }
        if !self.parts.can(event) {
            return Ok(StepOut::Idle);
        }
        if self.parts.is_full() {
            return Ok(StepOut::Full);
        }
        self.broken = true;
        self.parts.happen(alloc, event)?;
        self.broken = false;
        Ok(StepOut::Moved)
    }

    // Takes a segment that was run elsewhere, where it is of the pending job of a live client.
    pub(crate) fn take_done(
        &mut self,
        alloc: Global,
        client: u32,
        done: &Done,
    ) -> Result<RanStep, NoMemory>
        requires usable { IsUsable self.old }
        requires code { slice_get self.old.parts.codes done.now.job.prog ≡ Some done.now.code }
        ensures usable { IsUsable self.new }
        ensures slots { self.new.slots ≡ self.old.slots }
        ensures given { IfOk result (λ out. (o : OriginValue) (h : History) → Stands self.old o h →
            IsGiven (machine_of (plan o)) (pending_of self.old (Client client)) (λ j. IsDoneOf o j done.now) h (Client client) out (Stands self.new o)) }
        ensures still { IfOk result (λ out. out ≢ RanStep.Used → self.new ≡ self.old) }
    {
        if self.broken {
            return Err(NoMemory);
        }
        if !self.parts.is_pending(client, done.job()) {
            return Ok(RanStep::Stale);
        }
        if self.parts.is_full() {
            return Ok(RanStep::Full);
        }
        self.broken = true;
        self.parts.give(alloc, client, done)?;
        self.broken = false;
        Ok(RanStep::Used)
    }
}
