//! The world as a machine that is driven by links.

use crate::origin::Origin;
use crate::world::World;
use continuation::{Done, Job, run_job};
use coordinator::is_same_job;
use flat_code::Code;
use morty_base::{List, NoMemory, NodeId, Steps};
use msg::{Event, Pick};
use net_core::{Machine, Menu, RanStep, StepOut};
use std::alloc::Global;

impl Machine for World {
    ghost use Rattle.std.specs.Prelude.{◌≡◌, Some, slice_get};
    ghost use Rattle.continuation.specs.Job.{FitsCodes};
    ghost use Rattle.menus.specs.Slots.{count_of};
    ghost use Rattle.world_rows.specs.Machine.{machine_of};
    ghost use Rattle.world.specs.Origin.{plan};
    ghost use Rattle.world.specs.World.{IsUsable, Stands};
    ghost use Rattle.world.specs.Jobs.{pending_of, IsDoneOf};
    ghost use Rattle.world_rows.proofs.Lawful.{machines_are_lawful};
    ghost use Rattle.world.specs.MachineLaws.{in_use, counted, pending_told, jobs_fit, one_job};

    type Job = Job;

    type Done = Done;

    type Kit = List<Code>;

    type Origin = Origin;

    ghost rules = { λ o. machine_of (plan o) };

    ghost jobs = { pending_of };

    ghost stands = { Stands };

    ghost usable = { IsUsable };

    ghost count = { λ k. count_of k.slots };

    ghost kit_of = { λ o kit. kit ≡ o.kit };

    ghost fits = { λ o j. FitsCodes o.kit j };

    ghost of_job = { IsDoneOf };

    fn nodes(&self) -> u32 {
        self.slots.count()
    }

    fn node(&self, slot: u32) -> NodeId {
        self.slots.node(slot)
    }

    fn live(&self, slot: u32) -> bool {
        self.parts.is_live(self.slots.node(slot))
    }

    fn menu(&self, slot: u32) -> Menu<'_> {
        self.shown(slot)
    }

    fn step(&mut self, alloc: Global, event: Event) -> Result<StepOut, NoMemory> {
        self.take(alloc, event)
    }

    fn has_job(&self, slot: u32) -> bool {
        match self.slots.node(slot) {
            NodeId::Client(client) => self.parts.has_job(client),
            _ => false,
        }
    }

    fn job(&self, alloc: Global, slot: u32) -> Result<Option<Job>, NoMemory> {
        match self.slots.node(slot) {
            NodeId::Client(client) => self.parts.job(alloc, client),
            _ => Ok(None),
        }
    }

    fn give(&mut self, alloc: Global, slot: u32, done: &Done) -> Result<RanStep, NoMemory> {
        match self.slots.node(slot) {
            NodeId::Client(client) => self.take_done(alloc, client, done),
            _ => Ok(RanStep::Stale),
        }
    }

    fn work(alloc: Global, kit: &List<Code>, a_job: Job) -> Result<Done, NoMemory> {
        let mut steps = Steps::<()>::new();
        run_job(alloc, kit.as_slice(), a_job, &mut steps)
    }

    fn same_job(a: &Job, b: &Job) -> bool {
        is_same_job(a, b)
    }

    ghost lawful = { λ o. machines_are_lawful (plan o) };

    ghost in_use = { in_use };

    ghost counted = { λ k o h stands. counted k o h stands };

    ghost pending = { λ k o h n stands. pending_told k o h stands n };

    ghost jobs_fit = { λ k o h n j stands is. jobs_fit k o h stands n j is };

    ghost one_job = { one_job };
}
