//! The mailboxes of a world.

ghost use Rattle.std.specs.Prelude.{◌≡◌, ◌<◌, ◌++◌, ◌∷◌, [], ℕ, List as ListOf, length, Some, IfOk, OnOk};
ghost use Rattle.std.specs.List.{list_any, slice_get};
ghost use Rattle.morty_base.specs.declared.names.NodeId.{NodeId as NodeValue};
ghost use Rattle.morty_base.specs.Names.{same_node};
ghost use Rattle.msg.specs.declared.Envelope.{Envelope as Sent};
ghost use Rattle.wire.specs.Sendable.{MaySend};
ghost use Rattle.protocol.specs.World.Events.{marked};
ghost use Rattle.menus.specs.Shown.{is_to, fresh_from, old_to, least_waiting};
ghost use Rattle.menus.specs.Slots.{nodes_of, count_of};

use crate::mailbox::{Mailbox, empty_mailboxes};
use crate::slots::Slots;
use crate::waiting::Waiting;
use morty_base::{Exec, List, NoMemory, NodeId, is_same_node};
use msg::Envelope;
use net_core::Mail;
use std::alloc::Global;

/// The mail of a world and what its nodes' links are shown of it, a mailbox for each slot. They stand for what was sent and
/// delivered, and for the nodes that are stopped. After a call that was refused they stand for nothing.
#[derive(Drop)]
pub struct Mailboxes {
    slots: Slots,
    mail: Mail,
    // To which node each envelope is.
    receivers: List<NodeId>,
    boxes: Vec<Mailbox>,
    waiting: Waiting,
    ghost one_each: { length boxes.items ≡ count_of slots },
}

impl Mailboxes {
    ghost use Rattle.menus.specs.Mailboxes.{AreMailboxes, AreInUse, CanDeliver};

    /// The mailboxes of these slots: nothing was sent, and no node is stopped.
    pub fn new(alloc: Global, slots: Slots) -> Result<Mailboxes, NoMemory>
        ensures stands { IfOk result (λ s. AreMailboxes (nodes_of slots) [] [] [] s) }
        ensures slots { IfOk result (λ s. s.slots ≡ slots) }
    {
        let mail = Mail::new(alloc)?;
        let boxes = empty_mailboxes(alloc, slots.count())?;
        let waiting = Waiting::new(alloc, slots.clients())?;
        Ok(Mailboxes {
            slots,
            mail,
            receivers: List::new(alloc),
            boxes,
            waiting,
        })
    }

    pub fn slots(&self) -> Slots
        ensures { result ≡ self.now.slots }
    {
        self.slots
    }

    /// How many envelopes were sent.
    pub fn sent(&self) -> u64
        ensures { (ns : ListOf NodeValue) (mail : ListOf Sent) (d : ListOf ℕ) (st : ListOf NodeValue) → AreMailboxes ns mail d st self.now → result ≡ length mail }
    {
        self.mail.sent()
    }

    /// The mail.
    pub fn mail(&self) -> &Mail
        ensures { (ns : ListOf NodeValue) (mail : ListOf Sent) (d : ListOf ℕ) (st : ListOf NodeValue) → AreMailboxes ns mail d st self.now → result.now ≡ mail }
    {
        &self.mail
    }

    /// A copy of the envelope of this number, if one has it.
    pub fn get(&self, i: u64) -> Result<Option<Envelope>, NoMemory>
        ensures { IfOk result (λ o. (ns : ListOf NodeValue) (mail : ListOf Sent) (d : ListOf ℕ) (st : ListOf NodeValue) → AreMailboxes ns mail d st self.now → o ≡ slice_get mail i) }
    {
        self.mail.get(i)
    }

    /// Whether the envelope of this number, if one has it, is to the node.
    pub fn is_to(&self, node: NodeId, i: u64) -> bool
        ensures { (ns : ListOf NodeValue) (mail : ListOf Sent) (d : ListOf ℕ) (st : ListOf NodeValue) → AreMailboxes ns mail d st self.now → result ≡ is_to node (slice_get mail i) }
    {
        match self.receivers.get(i as usize) {
            None => false,
            Some(to) => is_same_node(node, *to),
        }
    }

    /// Whether the slot's node is stopped.
    pub fn is_stopped(&self, slot: u32) -> bool
        requires { slot < count_of self.now.slots }
        ensures { (ns : ListOf NodeValue) (mail : ListOf Sent) (d : ListOf ℕ) (st : ListOf NodeValue) (n : NodeValue) → AreMailboxes ns mail d st self.now → slice_get ns slot ≡ Some n → result ≡ list_any (same_node n) st }
    {
        self.boxes[slot as usize].is_stopped
    }

    /// The numbers of the slot's undelivered envelopes, rising.
    pub fn fresh(&self, slot: u32) -> &[u64]
        requires { slot < count_of self.now.slots }
        ensures { (ns : ListOf NodeValue) (mail : ListOf Sent) (d : ListOf ℕ) (st : ListOf NodeValue) (n : NodeValue) → AreMailboxes ns mail d st self.now → slice_get ns slot ≡ Some n → result.now ≡ fresh_from d n 0 mail }
    {
        self.boxes[slot as usize].inbox.fresh()
    }

    /// The numbers of its delivered ones, in the order of first delivery.
    pub fn old(&self, slot: u32) -> &[u64]
        requires { slot < count_of self.now.slots }
        ensures { (ns : ListOf NodeValue) (mail : ListOf Sent) (d : ListOf ℕ) (st : ListOf NodeValue) (n : NodeValue) → AreMailboxes ns mail d st self.now → slice_get ns slot ≡ Some n → result.now ≡ old_to mail n d }
    {
        self.boxes[slot as usize].inbox.delivered()
    }

    /// The least execution that waits for a warden, if one does.
    pub fn stuck(&self) -> Option<Exec>
        ensures { (ns : ListOf NodeValue) (mail : ListOf Sent) (d : ListOf ℕ) (st : ListOf NodeValue) → AreMailboxes ns mail d st self.now → result ≡ least_waiting mail st mail }
    {
        self.waiting.least()
    }

    /// One more envelope is sent. One to a node that has no slot is in the mail alone.
    pub fn post(&mut self, envelope: &Envelope) -> Result<(), NoMemory>
        requires stands { AreInUse self.old }
        requires sendable { MaySend envelope.now }
        ensures slots { self.new.slots ≡ self.old.slots }
        ensures sent { OnOk result ((ns : ListOf NodeValue) (mail : ListOf Sent) (d : ListOf ℕ) (st : ListOf NodeValue) → AreMailboxes ns mail d st self.old → AreMailboxes ns (mail ++ envelope.now ∷ []) d st self.new) }
    {
        let number = self.mail.send(envelope)?;
        self.receivers.push(envelope.to)?;
        self.waiting.sent(&envelope.body)?;
        match self.slots.slot(envelope.to) {
            None => Ok(()),
            Some(slot) => self.boxes[slot as usize].inbox.arrive(number),
        }
    }

    /// An envelope to the slot's node is delivered, once or again.
    pub fn deliver(&mut self, slot: u32, i: u64) -> Result<(), NoMemory>
        requires within { slot < count_of self.old.slots }
        requires own { CanDeliver slot i self.old }
        ensures slots { self.new.slots ≡ self.old.slots }
        ensures delivered { OnOk result ((ns : ListOf NodeValue) (mail : ListOf Sent) (d : ListOf ℕ) (st : ListOf NodeValue) → AreMailboxes ns mail d st self.old → AreMailboxes ns mail (marked i d) st self.new) }
    {
        self.boxes[slot as usize].inbox.deliver(i)
    }

    /// The slot's node is stopped.
    pub fn stop(&mut self, slot: u32)
        requires within { slot < count_of self.old.slots }
        requires stands { AreInUse self.old }
        ensures slots { self.new.slots ≡ self.old.slots }
        ensures stopped { (ns : ListOf NodeValue) (mail : ListOf Sent) (d : ListOf ℕ) (st : ListOf NodeValue) (n : NodeValue) → AreMailboxes ns mail d st self.old → slice_get ns slot ≡ Some n → AreMailboxes ns mail d (st ++ n ∷ []) self.new }
    {
        self.boxes[slot as usize].is_stopped = true;
        if slot < self.slots.clients() {
            self.waiting.stop(slot + 1);
        }
    }
}
