ghost use Rattle.std.specs.Prelude.{◌≡◌, ◌<◌, ◌≤◌, ◌↔◌, ℕ, List, Some, is_some, length, IfOk, IfSome, IsTrue, OnOk};
ghost use Rattle.std.specs.List.{slice_get};
ghost use Rattle.protocol.specs.Client.State.{ClientState, Turn, fresh_client};
ghost use Rattle.protocol.specs.Client.Attempts.{can_go, has_pending};
ghost use Rattle.protocol.specs.Client.Step.{client_step, on_hurry};
ghost use Rattle.protocol.specs.Client.Step.Input.{Goes, Runs, Hurries, Comes};
ghost use Rattle.protocol.specs.World.State.{in_range, rules};
ghost use Rattle.protocol.specs.World.Events.{at};
ghost use Rattle.continuation.specs.Job.{FitsCodes};
ghost use Rattle.coordinator.specs.Coordinator.{last_attempt};
ghost use Rattle.coordinator.specs.Memory.{IsWithinLimits, codes_of};
ghost use Rattle.coordinator.specs.declared.memory.Txn2.{Txn2 as Transaction};
ghost use Rattle.world.specs.Clients.{Loads, IsPlanOf};

use continuation::{Done, Job};
use coordinator::{Attempt, Coordinator, Rules, Txn2};
use morty_base::{List, NoMemory};
use msg::Envelope;
use protocol::Fate;
use std::alloc::Global;

/// The clients of a world, by their numbers from 1.
#[derive(Debug, Drop)]
pub struct Clients {
    clients: Vec<Coordinator>,
}

impl Clients {
    ghost use Rattle.world.specs.Clients.{AreClients, TakesTurn, job_of};

    /// The clients of a plan, by their transactions. They have begun nothing.
    pub fn new(alloc: Global, rules: Rules, txns: &[List<Txn2>]) -> Result<Clients, NoMemory>
        requires few { length txns.now ≤ 16 }
        requires within { (c : ℕ) (i : ℕ) (own : List Transaction) → slice_get txns.now i ≡ Some own → IsWithinLimits (record { client = c; rules = rules; txns = own }) }
        ensures { IfOk result (λ cs. (l : Loads) → IsPlanOf l rules txns.now → AreClients l (λ c. fresh_client) cs) }
    {
        let mut clients = Vec::new(alloc);
        for i in 0..txns.len() {
            let own = txns[i].copy(alloc)?;
            let client = Coordinator::new(alloc, i as u32 + 1, own, rules)?;
            clients.push(client)?;
        }
        Ok(Clients { clients })
    }

    /// Whether there is a client of this number.
    pub fn has(&self, number: u32) -> bool
        ensures { result ≡ in_range number (length self.now.clients.items) }
    {
        0 < number && number as usize <= self.clients.len()
    }

    /// A client handles an envelope. Where that is refused it is broken.
    pub fn handle(
        &mut self,
        alloc: Global,
        number: u32,
        env: &Envelope,
        out: &mut List<Envelope>,
    ) -> Result<(), NoMemory>
        requires from_one { 0 < number }
        requires up_to_count { number ≤ length self.old.clients.items }
        ensures { OnOk result ((l : Loads) (states : ℕ → ClientState) (t : Turn) → AreClients l states self.old → client_step (rules l.plan number) (states number) (Comes env.now.from env.now.body) ≡ Some t → TakesTurn l number t states self.new out.old out.new) }
    {
        self.clients[number as usize - 1].handle(alloc, env, out)
    }

    /// Whether a client can begin an attempt.
    pub fn can_go(&self, number: u32) -> bool
        requires from_one { 0 < number }
        requires up_to_count { number ≤ length self.now.clients.items }
        ensures { (l : Loads) (states : ℕ → ClientState) → AreClients l states self.now → result ≡ can_go (rules l.plan number) (states number) }
    {
        self.clients[number as usize - 1].can_go()
    }

    /// A client begins its next attempt. It sends nothing.
    pub fn go(&mut self, alloc: Global, number: u32) -> Result<(), NoMemory>
        requires from_one { 0 < number }
        requires up_to_count { number ≤ length self.old.clients.items }
        ensures { OnOk result ((l : Loads) (states : ℕ → ClientState) (t : Turn) → AreClients l states self.old → client_step (rules l.plan number) (states number) Goes ≡ Some t → AreClients l (at number t.state states) self.new) }
    {
        self.clients[number as usize - 1].go(alloc)
    }

    /// Whether a client can wait for votes no longer.
    pub fn can_hurry(&self, number: u32) -> bool
        requires from_one { 0 < number }
        requires up_to_count { number ≤ length self.now.clients.items }
        ensures { (l : Loads) (states : ℕ → ClientState) → AreClients l states self.now → result ≡ is_some (on_hurry (rules l.plan number) (states number) (states number).phase) }
    {
        self.clients[number as usize - 1].can_hurry()
    }

    /// A client waits for votes no longer.
    pub fn hurry(
        &mut self,
        alloc: Global,
        number: u32,
        out: &mut List<Envelope>,
    ) -> Result<(), NoMemory>
        requires from_one { 0 < number }
        requires up_to_count { number ≤ length self.old.clients.items }
        ensures { OnOk result ((l : Loads) (states : ℕ → ClientState) (t : Turn) → AreClients l states self.old → client_step (rules l.plan number) (states number) Hurries ≡ Some t → TakesTurn l number t states self.new out.old out.new) }
    {
        self.clients[number as usize - 1].hurry(alloc, out)
    }

    /// Whether a job of a client is pending.
    pub fn has_job(&self, number: u32) -> bool
        requires from_one { 0 < number }
        requires up_to_count { number ≤ length self.now.clients.items }
        ensures told { result ≡ is_some (job_of self.now number) }
        ensures pending { (l : Loads) (states : ℕ → ClientState) → AreClients l states self.now → result ≡ has_pending (states number).phase }
    {
        self.clients[number as usize - 1].has_job()
    }

    /// The pending job of a client, if one is pending.
    pub fn job(&self, alloc: Global, number: u32) -> Result<Option<Job>, NoMemory>
        requires from_one { 0 < number }
        requires up_to_count { number ≤ length self.now.clients.items }
        ensures value { IfOk result (λ o. o ≡ job_of self.now number) }
        ensures pending { IfOk result (λ o. (l : Loads) (states : ℕ → ClientState) → AreClients l states self.now → is_some o ≡ has_pending (states number).phase) }
        ensures fits { IfOk result (λ o. (l : Loads) (states : ℕ → ClientState) → AreClients l states self.now → IfSome o (λ j. FitsCodes (codes_of l.programs) j)) }
    {
        self.clients[number as usize - 1].job(alloc)
    }

    /// Whether this is the pending job of a client.
    pub fn is_job(&self, number: u32, job: &Job) -> bool
        requires from_one { 0 < number }
        requires up_to_count { number ≤ length self.now.clients.items }
        ensures { IsTrue result ↔ (job_of self.now number ≡ Some job.now) }
    {
        self.clients[number as usize - 1].is_job(job)
    }

    /// A client takes the run of its pending job.
    pub fn ran(
        &mut self,
        alloc: Global,
        number: u32,
        done: &Done,
        out: &mut List<Envelope>,
    ) -> Result<(), NoMemory>
        requires from_one { 0 < number }
        requires up_to_count { number ≤ length self.old.clients.items }
        requires pending { job_of self.old number ≡ Some done.now.job }
        ensures { OnOk result ((l : Loads) (states : ℕ → ClientState) (t : Turn) → AreClients l states self.old → client_step (rules l.plan number) (states number) Runs ≡ Some t →
            slice_get (codes_of l.programs) done.now.job.prog ≡ Some done.now.code → TakesTurn l number t states self.new out.old out.new) }
    {
        self.clients[number as usize - 1].ran(alloc, done, out)?;
        Ok(())
    }

    /// The last attempt that a client began, if there is one.
    pub fn current(&self, number: u32) -> Option<Attempt>
        requires from_one { 0 < number }
        requires up_to_count { number ≤ length self.now.clients.items }
        ensures { (l : Loads) (states : ℕ → ClientState) → AreClients l states self.now → result ≡ last_attempt (states number) }
    {
        self.clients[number as usize - 1].current()
    }

    /// What became of the last attempt that a client began.
    pub fn fate(&self, number: u32) -> Fate
        requires from_one { 0 < number }
        requires up_to_count { number ≤ length self.now.clients.items }
        ensures { (l : Loads) (states : ℕ → ClientState) → AreClients l states self.now → result ≡ (states number).fate }
    {
        self.clients[number as usize - 1].fate()
    }
}
