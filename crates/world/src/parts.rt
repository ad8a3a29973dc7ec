//! The parts of a world, and what can happen to them.

ghost use Rattle.std.specs.Prelude.{◌≡◌, ◌<◌, ◌↔◌, true, ◌&&◌, nat_le, Some, is_some, IsTrue, IfOk, IfSome, length, slice_get};
ghost use Rattle.morty_base.specs.declared.names.NodeId.{NodeId as NodeValue};
ghost use Rattle.protocol.specs.Words.{Client};
ghost use Rattle.protocol.specs.World.State.{World, exists, is_live, mail_limit};
ghost use Rattle.protocol.specs.World.Events.{enabled, pick_moves};
ghost use Rattle.protocol.specs.World.Committed.{nodes as nodes_of};
ghost use Rattle.continuation.specs.Job.{FitsCodes};
ghost use Rattle.world.specs.Nodes.{HaveViewsLeft, has_node, job_of};
ghost use Rattle.menus.specs.Slots.{count_of};
ghost use Rattle.net_core.specs.Replay.{shown};
ghost use Rattle.world_rows.specs.Machine.{menu_in, is_pending, stuck_for};
ghost use Rattle.world.specs.Clients.{Loads};
ghost use Rattle.world.specs.World.{IsWorld, pending_at};

use crate::nodes::Nodes;
use continuation::Job;
use flat_code::Code;
use menus::Mailboxes;
use morty_base::{Exec, List, NoMemory, NodeId};
use msg::{Event, Pick};
use net_core::Menu;
use protocol::First2;
use std::alloc::Global;
use world_rows::Notes;

/// How many envelopes the mail has room for: from then on nothing moves the world.
pub const MAIL_LIMIT: u64 = 200_000;

// The programs' codes, the first values, how many transactions each client has; the nodes; the mail, with what was delivered
// and who was stopped; what is noted for the rows; and how many events moved the world, as far as 64 bits tell it.
#[derive(Drop)]
pub(crate) struct Parts {
    pub(crate) codes: List<Code>,
    pub(crate) firsts: List<First2>,
    pub(crate) txns: List<u32>,
    pub(crate) nodes: Nodes,
    pub(crate) boxes: Mailboxes,
    pub(crate) notes: Notes,
    pub(crate) moved: u64,
}

impl Parts {
    /// Whether the node is there and was not stopped.
    pub(crate) fn is_live(&self, node: NodeId) -> bool
        ensures has { IsTrue result → has_node self.now.nodes node ≡ true }
        ensures live { (l : Loads) (w : World) → IsWorld l w self.now → result ≡ is_live l.plan w node }
    {
        if !self.nodes.has(node) {
            return false;
        }
        match self.boxes.slots().slot(node) {
            None => false,
            Some(slot) => !self.boxes.is_stopped(slot),
        }
    }

    // Whether a live node can do what was picked.
    fn can_pick(&self, node: NodeId, pick: Pick) -> bool
        requires { has_node self.now.nodes node ≡ true }
        ensures { (l : Loads) (w : World) → IsWorld l w self.now → HaveViewsLeft l.plan w → result ≡ is_some (pick_moves l.plan w node pick) }
    {
        match pick {
            Pick::Deliver(i) => self.boxes.is_to(node, i),
            Pick::Stop => true,
            _ => self.nodes.can_pick(node, pick),
        }
    }

    /// Whether an event can happen now.
    pub(crate) fn can(&self, event: Event) -> bool
        ensures { (l : Loads) (w : World) → IsWorld l w self.now → HaveViewsLeft l.plan w → result ≡ is_some (enabled l.plan w event) }
    {
        match event {
            Event::Picked(node, pick) => self.is_live(node) && self.can_pick(node, pick),
            Event::Ran(client) => {
                self.is_live(NodeId::Client(client)) && self.nodes.has_job(client)
            }
        }
    }

    /// Whether the mail has no more room.
    pub(crate) fn is_full(&self) -> bool
        ensures { (l : Loads) (w : World) → IsWorld l w self.now → result ≡ nat_le mail_limit (length w.mail) }
    {
        self.boxes.sent() >= MAIL_LIMIT
    }

    /// Whether a client has a pending job.
    pub(crate) fn has_job(&self, client: u32) -> bool
        ensures told { result ≡ is_some (pending_at self.now client) }
        ensures pending { (l : Loads) (w : World) → IsWorld l w self.now → exists l.plan (Client client) ≡ true → result ≡ is_pending w (Client client) }
    {
        self.nodes.has(NodeId::Client(client)) && self.nodes.has_job(client)
    }

    /// A copy of a client's pending job.
    pub(crate) fn job(&self, alloc: Global, client: u32) -> Result<Option<Job>, NoMemory>
        ensures { IfOk result (λ j. j ≡ pending_at self.now client) }
    {
        if !self.nodes.has(NodeId::Client(client)) {
            return Ok(None);
        }
        self.nodes.job(alloc, client)
    }

    /// Whether a client is live and this is its pending job.
    pub(crate) fn is_pending(&self, client: u32, job: &Job) -> bool
        ensures pending { (l : Loads) (w : World) → IsWorld l w self.now → IsTrue result ↔ ((is_live l.plan w (Client client) ≡ true) × (job_of self.now.nodes client ≡ Some job.now)) }
        ensures is { IsTrue result → job_of self.now.nodes client ≡ Some job.now }
    {
        self.is_live(NodeId::Client(client)) && self.nodes.is_job(client, job)
    }

    // For a warden, the execution that waits for it.
    fn stuck(&self, node: NodeId) -> Option<Exec>
        ensures { (l : Loads) (w : World) → IsWorld l w self.now → result ≡ stuck_for w node }
    {
        match node {
            NodeId::Warden(_) => self.boxes.stuck(),
            _ => None,
        }
    }

    /// What the link of a node is shown.
    pub(crate) fn menu(&self, slot: u32, node: NodeId) -> Menu<'_>
        requires { slot < count_of self.now.boxes.slots }
        ensures { (l : Loads) (w : World) → IsWorld l w self.now → HaveViewsLeft l.plan w → slice_get (nodes_of l.plan) slot ≡ Some node → shown result ≡ menu_in l.plan w node }
    {
        Menu {
            now: self.moved,
            go: self.can(Event::Picked(node, Pick::Go)),
            hurry: self.can(Event::Picked(node, Pick::Hurry)),
            fresh: self.boxes.fresh(slot),
            old: self.boxes.old(slot),
            stuck: self.stuck(node),
        }
    }
}
