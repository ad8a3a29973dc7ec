ghost use Rattle.std.specs.Prelude.{◌≡◌, ℕ, IsTrue, OnOk};
ghost use Rattle.protocol.specs.Warden.State.{WardenState, fresh_warden};
ghost use Rattle.protocol.specs.Warden.Recovery.{recover};
ghost use Rattle.protocol.specs.Warden.Truncation.{can_truncate, truncate};
ghost use Rattle.protocol.specs.Warden.Step.{warden_hears};
ghost use Rattle.protocol.specs.World.State.{Plan, warden_rules};

use morty_base::{Exec, List, NoMemory, Version};
use msg::Envelope;
use recovery::Recoverer;
use std::alloc::Global;
use truncation::{Truncator, recoveries_stand};

/// A warden: what it recovers, and what it truncates.
#[derive(Drop)]
pub struct Warden {
    recoverer: Recoverer,
    truncator: Truncator,
}

impl Warden {
    ghost use Rattle.world.specs.Wardens.{IsWarden, TakesTurn, can_recover};

    /// A warden that has done nothing.
    pub fn new(alloc: Global, number: u32, wardens: u32, replicas: u32, clients: u32) -> Warden
        ensures { (p : Plan) → warden_rules p number ≡ record { warden = number; wardens = wardens; replicas = replicas; clients = clients } → IsWarden p number fresh_warden result }
    {
        Warden {
            recoverer: Recoverer::new(alloc, number, wardens, replicas, clients),
            truncator: Truncator::new(alloc, number, replicas),
        }
    }

    /// Handles an envelope.
    pub fn hear(
        &mut self,
        alloc: Global,
        env: &Envelope,
        out: &mut List<Envelope>,
    ) -> Result<(), NoMemory>
        ensures { OnOk result ((p : Plan) (k : ℕ) (s : WardenState) → IsWarden p k s self.old → TakesTurn p k (warden_hears (warden_rules p k) s env.now.from env.now.body) self.new out.old out.new) }
    {
        self.truncator.handle(alloc, &mut self.recoverer, env, out)
    }

    /// Whether it can recover an execution: it has not decided it, and a view is left for it.
    pub fn can_recover(&self, x: Exec) -> bool
        ensures { (p : Plan) (k : ℕ) (s : WardenState) → IsWarden p k s self.now → result ≡ can_recover p k s x }
    {
        self.recoverer.can_recover(x)
    }

    /// Recovers an execution. It needs that it can, where it is not broken.
    pub fn recover(
        &mut self,
        alloc: Global,
        x: Exec,
        out: &mut List<Envelope>,
    ) -> Result<(), NoMemory>
        requires { (p : Plan) × (k : ℕ) × (s : WardenState) × IsWarden p k s self.old × IsTrue (can_recover p k s x) }
        ensures { OnOk result ((p : Plan) (k : ℕ) (s : WardenState) → IsWarden p k s self.old → TakesTurn p k (recover (warden_rules p k) s x) self.new out.old out.new) }
    {
        recoveries_stand();
        self.recoverer.recover(alloc, x, out)
    }

    /// Whether a truncation to this version can begin.
    pub fn can_truncate(&self, w: Version) -> bool
        ensures { (p : Plan) (k : ℕ) (s : WardenState) → IsWarden p k s self.now → result ≡ can_truncate s w }
    {
        self.truncator.can_truncate(w)
    }

    /// Truncates to a version. It needs that it can.
    pub fn truncate(
        &mut self,
        alloc: Global,
        w: Version,
        out: &mut List<Envelope>,
    ) -> Result<(), NoMemory>
        requires { (p : Plan) × (k : ℕ) × (s : WardenState) × IsWarden p k s self.old × IsTrue (can_truncate s w) }
        ensures { OnOk result ((p : Plan) (k : ℕ) (s : WardenState) → IsWarden p k s self.old → TakesTurn p k (truncate s w) self.new out.old out.new) }
    {
        self.truncator.truncate(alloc, w, out)
    }
}
