ghost use Rattle.std.specs.Prelude.{◌≡◌, ◌<◌, ◌≤◌, ◌++◌, ℕ, [], length, IfOk, OnOk, OnErr};
ghost use Rattle.protocol.specs.Replica.Taken.{Handled, after_taking};
ghost use Rattle.protocol.specs.Replica.Says.{says};
ghost use Rattle.protocol.specs.World.State.{Plan, in_range};
ghost use Rattle.protocol.specs.World.Events.{at};
ghost use Rattle.protocol.specs.Replica.Limits.{IsWithinLimits};

use morty_base::{List, NoMemory};
use msg::Envelope;
use protocol::First2;
use replica::Replica;
use std::alloc::Global;

/// The replicas of a world, by their numbers from 1.
#[derive(Debug, Drop)]
pub struct Replicas {
    replicas: Vec<Replica>,
}

impl Replicas {
    ghost use Rattle.world.specs.Replicas.{AreReplicas};

    /// So many replicas to which nothing came yet.
    pub fn new(alloc: Global, count: u32, firsts: &List<First2>) -> Result<Replicas, NoMemory>
        ensures { IfOk result (λ rs. (p : Plan) → p.replicas ≡ count → p.firsts ≡ firsts.now → AreReplicas p (λ r. []) rs) }
    {
        let mut replicas = Vec::new(alloc);
        for i in 0..count {
            let own_firsts = firsts.copy(alloc)?;
            let replica = Replica::new(alloc, i + 1, count, own_firsts)?;
            replicas.push(replica)?;
        }
        Ok(Replicas { replicas })
    }

    /// Whether there is a replica of this number.
    pub fn has(&self, number: u32) -> bool
        ensures { result ≡ in_range number (length self.now.replicas.items) }
    {
        0 < number && number as usize <= self.replicas.len()
    }

    /// A replica handles an envelope. Where that is refused it is broken.
    pub fn handle(
        &mut self,
        alloc: Global,
        number: u32,
        env: &Envelope,
        out: &mut List<Envelope>,
    ) -> Result<(), NoMemory>
        requires from_one { 0 < number }
        requires up_to_count { number ≤ length self.old.replicas.items }
        requires fits { IsWithinLimits env.now.body }
        ensures says { OnOk result ((p : Plan) (handled : ℕ → Handled) → AreReplicas p handled self.old → out.new ≡ out.old ++ says p.firsts number (handled number) env.now) }
        ensures stands { OnOk result ((p : Plan) (handled : ℕ → Handled) → AreReplicas p handled self.old → AreReplicas p (at number (after_taking (handled number) env.now) handled) self.new) }
        ensures kept { OnErr result (out.new ≡ out.old) }
    {
        self.replicas[number as usize - 1].handle(alloc, env, out)
    }
}
