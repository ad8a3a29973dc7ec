ghost use Rattle.std.specs.Prelude.{◌≡◌, ◌≤◌, ◌↔◌, ℕ, List, Some, is_some, true, length, IfOk, IfSome, IsTrue, OnOk};
ghost use Rattle.std.specs.List.{slice_get};
ghost use Rattle.continuation.specs.Job.{FitsCodes};
ghost use Rattle.protocol.specs.Words.{Client, Warden};
ghost use Rattle.protocol.specs.Client.Attempts.{has_pending};
ghost use Rattle.protocol.specs.Client.Step.Input.{Runs};
ghost use Rattle.protocol.specs.World.State.{World, exists, first_world};
ghost use Rattle.protocol.specs.World.Events.{Move, client_input, pick_moves, receives};
ghost use Rattle.coordinator.specs.Coordinator.{last_attempt};
ghost use Rattle.coordinator.specs.Memory.{IsWithinLimits as IsPlanWithinLimits, codes_of};
ghost use Rattle.coordinator.specs.declared.memory.Txn2.{Txn2 as Transaction};
ghost use Rattle.protocol.specs.Replica.Limits.{IsWithinLimits};
ghost use Rattle.world.specs.Clients.{Loads};

use crate::clients::Clients;
use crate::replicas::Replicas;
use crate::wardens::Wardens;
use continuation::{Done, Job};
use coordinator::{Attempt, Rules, Txn2};
use morty_base::{List, NoMemory, NodeId};
use msg::{Envelope, Pick};
use protocol::{Fate, First2};
use std::alloc::Global;

/// The nodes of a world. Nothing is said of them once a call was refused memory.
#[derive(Drop)]
pub struct Nodes {
    clients: Clients,
    replicas: Replicas,
    wardens: Wardens,
}

impl Nodes {
    ghost use Rattle.world_rows.specs.Machine.{can_pick};
    ghost use Rattle.world.specs.Nodes.{AreNodes, CanPick, HaveViewsLeft, IsSetupOf, Moves, has_node, job_of};

    /// The nodes of a plan, to which nothing happened yet.
    pub fn new(
        alloc: Global,
        rules: Rules,
        txns: &[List<Txn2>],
        wardens: u32,
        firsts: &List<First2>,
    ) -> Result<Nodes, NoMemory>
        requires few { length txns.now ≤ 16 }
        requires within { (c : ℕ) (i : ℕ) (own : List Transaction) → slice_get txns.now i ≡ Some own → IsPlanWithinLimits (record { client = c; rules = rules; txns = own }) }
        ensures { IfOk result (λ s. (l : Loads) → IsSetupOf l rules txns.now wardens firsts.now → AreNodes l first_world s) }
    {
        let count = txns.len() as u32;
        let clients = Clients::new(alloc, rules, txns)?;
        let replicas = Replicas::new(alloc, rules.replicas, firsts)?;
        let wardens = Wardens::new(alloc, wardens, rules.replicas, count)?;
        Ok(Nodes {
            clients,
            replicas,
            wardens,
        })
    }

    /// Whether there is such a node.
    pub fn has(&self, node: NodeId) -> bool
        ensures is { result ≡ has_node self.now node }
        ensures exists { (l : Loads) (w : World) → AreNodes l w self.now → result ≡ exists l.plan node }
    {
        match node {
            NodeId::Client(number) => self.clients.has(number),
            NodeId::Replica(number) => self.replicas.has(number),
            NodeId::Warden(number) => self.wardens.has(number),
        }
    }

    fn can_client(&self, number: u32, pick: Pick) -> bool
        requires { has_node self.now (Client number) ≡ true }
        ensures { (l : Loads) (w : World) → AreNodes l w self.now → result ≡ can_pick l.plan w (Client number) pick }
    {
        match pick {
            Pick::Go => self.clients.can_go(number),
            Pick::Hurry => self.clients.can_hurry(number),
            _ => false,
        }
    }

    fn can_warden(&self, number: u32, pick: Pick) -> bool
        requires { has_node self.now (Warden number) ≡ true }
        ensures { (l : Loads) (w : World) → AreNodes l w self.now → HaveViewsLeft l.plan w → result ≡ can_pick l.plan w (Warden number) pick }
    {
        match pick {
            Pick::Recover(exec) => self.wardens.can_recover(number, exec),
            Pick::Truncate(ver) => self.wardens.can_truncate(number, ver),
            _ => false,
        }
    }

    /// Whether a node can do by itself what is picked. A delivery and a stop are not its own doing.
    pub fn can_pick(&self, node: NodeId, pick: Pick) -> bool
        requires { has_node self.now node ≡ true }
        ensures { (l : Loads) (w : World) → AreNodes l w self.now → HaveViewsLeft l.plan w → result ≡ can_pick l.plan w node pick }
    {
        match node {
            NodeId::Client(number) => self.can_client(number, pick),
            NodeId::Replica(_) => false,
            NodeId::Warden(number) => self.can_warden(number, pick),
        }
    }

    fn pick_client(
        &mut self,
        alloc: Global,
        number: u32,
        pick: Pick,
        out: &mut List<Envelope>,
    ) -> Result<(), NoMemory>
        requires has { has_node self.old (Client number) ≡ true }
        requires can { CanPick self.old (Client number) pick }
        ensures { OnOk result ((l : Loads) (w : World) (v : Move) → AreNodes l w self.old → pick_moves l.plan w (Client number) pick ≡ Some v → Moves l v self.new out.old out.new) }
    {
        match pick {
            Pick::Go => self.clients.go(alloc, number),
            Pick::Hurry => self.clients.hurry(alloc, number, out),
            _ => unreachable!(),
        }
    }

    fn pick_warden(
        &mut self,
        alloc: Global,
        number: u32,
        pick: Pick,
        out: &mut List<Envelope>,
    ) -> Result<(), NoMemory>
        requires has { has_node self.old (Warden number) ≡ true }
        requires can { CanPick self.old (Warden number) pick }
        ensures { OnOk result ((l : Loads) (w : World) (v : Move) → AreNodes l w self.old → pick_moves l.plan w (Warden number) pick ≡ Some v → Moves l v self.new out.old out.new) }
    {
        match pick {
            Pick::Recover(exec) => self.wardens.recover(alloc, number, exec, out),
            Pick::Truncate(ver) => self.wardens.truncate(alloc, number, ver, out),
            _ => unreachable!(),
        }
    }

    /// A node does what is picked. It needs that it can.
    pub fn pick(
        &mut self,
        alloc: Global,
        node: NodeId,
        pick: Pick,
        out: &mut List<Envelope>,
    ) -> Result<(), NoMemory>
        requires has { has_node self.old node ≡ true }
        requires can { CanPick self.old node pick }
        ensures { OnOk result ((l : Loads) (w : World) (v : Move) → AreNodes l w self.old → pick_moves l.plan w node pick ≡ Some v → Moves l v self.new out.old out.new) }
    {
        match node {
            NodeId::Client(number) => self.pick_client(alloc, number, pick, out),
            NodeId::Replica(_) => unreachable!(),
            NodeId::Warden(number) => self.pick_warden(alloc, number, pick, out),
        }
    }

    /// A node handles an envelope.
    pub fn handle(
        &mut self,
        alloc: Global,
        node: NodeId,
        env: &Envelope,
        out: &mut List<Envelope>,
    ) -> Result<(), NoMemory>
        requires has { has_node self.old node ≡ true }
        requires fits { IsWithinLimits env.now.body }
        ensures { OnOk result ((l : Loads) (w : World) (v : Move) → AreNodes l w self.old → receives l.plan w node env.now ≡ Some v → Moves l v self.new out.old out.new) }
    {
        match node {
            NodeId::Client(number) => self.clients.handle(alloc, number, env, out),
            NodeId::Replica(number) => self.replicas.handle(alloc, number, env, out),
            NodeId::Warden(number) => self.wardens.hear(alloc, number, env, out),
        }
    }

    /// Whether a job of a client is pending.
    pub fn has_job(&self, client: u32) -> bool
        requires { has_node self.now (Client client) ≡ true }
        ensures told { result ≡ is_some (job_of self.now client) }
        ensures pending { (l : Loads) (w : World) → AreNodes l w self.now → result ≡ has_pending (w.client client).phase }
    {
        self.clients.has_job(client)
    }

    /// The pending job of a client, if one is pending.
    pub fn job(&self, alloc: Global, client: u32) -> Result<Option<Job>, NoMemory>
        requires { has_node self.now (Client client) ≡ true }
        ensures value { IfOk result (λ o. o ≡ job_of self.now client) }
        ensures pending { IfOk result (λ o. (l : Loads) (w : World) → AreNodes l w self.now → is_some o ≡ has_pending (w.client client).phase) }
        ensures fits { IfOk result (λ o. (l : Loads) (w : World) → AreNodes l w self.now → IfSome o (λ j. FitsCodes (codes_of l.programs) j)) }
    {
        self.clients.job(alloc, client)
    }

    /// Whether this is the pending job of a client.
    pub fn is_job(&self, client: u32, job: &Job) -> bool
        requires { has_node self.now (Client client) ≡ true }
        ensures { IsTrue result ↔ (job_of self.now client ≡ Some job.now) }
    {
        self.clients.is_job(client, job)
    }

    /// A client takes the run of its pending job.
    pub fn ran(
        &mut self,
        alloc: Global,
        client: u32,
        done: &Done,
        out: &mut List<Envelope>,
    ) -> Result<(), NoMemory>
        requires has { has_node self.old (Client client) ≡ true }
        requires pending { job_of self.old client ≡ Some done.now.job }
        ensures { OnOk result ((l : Loads) (w : World) (v : Move) → AreNodes l w self.old → client_input l.plan w client Runs ≡ Some v →
            slice_get (codes_of l.programs) done.now.job.prog ≡ Some done.now.code → Moves l v self.new out.old out.new) }
    {
        self.clients.ran(alloc, client, done, out)
    }

    /// The last attempt that a client began, if there is one.
    pub fn current(&self, client: u32) -> Option<Attempt>
        requires { has_node self.now (Client client) ≡ true }
        ensures { (l : Loads) (w : World) → AreNodes l w self.now → result ≡ last_attempt (w.client client) }
    {
        self.clients.current(client)
    }

    /// What became of the last attempt that a client began.
    pub fn fate(&self, client: u32) -> Fate
        requires { has_node self.now (Client client) ≡ true }
        ensures { (l : Loads) (w : World) → AreNodes l w self.now → result ≡ (w.client client).fate }
    {
        self.clients.fate(client)
    }
}
