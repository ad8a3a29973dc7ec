ghost use Rattle.std.specs.Prelude.{◌≡◌, ◌<◌, ◌≤◌, ℕ, length, IfOk, OnOk, IsTrue};
ghost use Rattle.protocol.specs.Warden.State.{WardenState, fresh_warden};
ghost use Rattle.protocol.specs.Warden.Recovery.{recover};
ghost use Rattle.protocol.specs.Warden.Truncation.{can_truncate, truncate};
ghost use Rattle.protocol.specs.Warden.Step.{warden_hears};
ghost use Rattle.protocol.specs.World.State.{Plan, in_range, warden_rules};

use crate::warden::Warden;
use morty_base::{Exec, List, NoMemory, Version};
use msg::Envelope;
use std::alloc::Global;

/// The wardens of a world, by their numbers from 1.
#[derive(Drop)]
pub struct Wardens {
    wardens: Vec<Warden>,
}

impl Wardens {
    ghost use Rattle.world.specs.Wardens.{AreWardens, AreTurned, can_recover};

    /// So many wardens that have done nothing.
    pub fn new(alloc: Global, count: u32, replicas: u32, clients: u32) -> Result<Wardens, NoMemory>
        ensures { IfOk result (λ ws. (p : Plan) → p.wardens ≡ count → p.replicas ≡ replicas → length p.clients ≡ clients → AreWardens p (λ k. fresh_warden) ws) }
    {
        let mut wardens = Vec::new(alloc);
        for i in 0..count {
            wardens.push(Warden::new(alloc, i + 1, count, replicas, clients))?;
        }
        Ok(Wardens { wardens })
    }

    /// Whether there is a warden of this number.
    pub fn has(&self, number: u32) -> bool
        ensures { result ≡ in_range number (length self.now.wardens.items) }
    {
        0 < number && number as usize <= self.wardens.len()
    }

    /// A warden handles an envelope.
    pub fn hear(
        &mut self,
        alloc: Global,
        number: u32,
        env: &Envelope,
        out: &mut List<Envelope>,
    ) -> Result<(), NoMemory>
        requires from_one { 0 < number }
        requires up_to_count { number ≤ length self.old.wardens.items }
        ensures { OnOk result ((p : Plan) (states : ℕ → WardenState) → AreWardens p states self.old → AreTurned p states number (warden_hears (warden_rules p number) (states number) env.now.from env.now.body) self.new out.old out.new) }
    {
        self.wardens[number as usize - 1].hear(alloc, env, out)
    }

    /// Whether a warden can recover an execution: it has not decided it, and a view is left for it.
    pub fn can_recover(&self, number: u32, x: Exec) -> bool
        requires from_one { 0 < number }
        requires up_to_count { number ≤ length self.now.wardens.items }
        ensures { (p : Plan) (states : ℕ → WardenState) → AreWardens p states self.now → result ≡ can_recover p number (states number) x }
    {
        self.wardens[number as usize - 1].can_recover(x)
    }

    /// A warden recovers an execution. It needs that it can.
    pub fn recover(
        &mut self,
        alloc: Global,
        number: u32,
        x: Exec,
        out: &mut List<Envelope>,
    ) -> Result<(), NoMemory>
        requires from_one { 0 < number }
        requires up_to_count { number ≤ length self.old.wardens.items }
        requires can { (p : Plan) × (states : ℕ → WardenState) × AreWardens p states self.old × IsTrue (can_recover p number (states number) x) }
        ensures { OnOk result ((p : Plan) (states : ℕ → WardenState) → AreWardens p states self.old → AreTurned p states number (recover (warden_rules p number) (states number) x) self.new out.old out.new) }
    {
        self.wardens[number as usize - 1].recover(alloc, x, out)
    }

    /// Whether a warden can begin a truncation to this version.
    pub fn can_truncate(&self, number: u32, w: Version) -> bool
        requires from_one { 0 < number }
        requires up_to_count { number ≤ length self.now.wardens.items }
        ensures { (p : Plan) (states : ℕ → WardenState) → AreWardens p states self.now → result ≡ can_truncate (states number) w }
    {
        self.wardens[number as usize - 1].can_truncate(w)
    }

    /// A warden truncates to a version. It needs that it can.
    pub fn truncate(
        &mut self,
        alloc: Global,
        number: u32,
        w: Version,
        out: &mut List<Envelope>,
    ) -> Result<(), NoMemory>
        requires from_one { 0 < number }
        requires up_to_count { number ≤ length self.old.wardens.items }
        requires can { (p : Plan) × (states : ℕ → WardenState) × AreWardens p states self.old × IsTrue (can_truncate (states number) w) }
        ensures { OnOk result ((p : Plan) (states : ℕ → WardenState) → AreWardens p states self.old → AreTurned p states number (truncate (states number) w) self.new out.old out.new) }
    {
        self.wardens[number as usize - 1].truncate(alloc, w, out)
    }
}
