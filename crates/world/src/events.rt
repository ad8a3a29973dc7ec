//! What an event does to the parts of a world.

ghost use Rattle.std.specs.Prelude.{◌≡◌, true, is_some, IfOk, OnOk, Some, slice_get};
ghost use Rattle.wire.specs.Sendable.{MaySend};
ghost use Rattle.protocol.specs.Words.{Client, Envelope as EnvelopeValue, Picked, Ran, Deliver, Stop, Go};
ghost use Rattle.protocol.specs.Lists.{IsIn};
ghost use Rattle.protocol.specs.World.State.{World};
ghost use Rattle.protocol.specs.World.Events.{enabled, after};
ghost use Rattle.world.specs.Nodes.{job_of};
ghost use Rattle.world.specs.Clients.{Loads};
ghost use Rattle.world.specs.World.{IsWorld, IsTaken, IsSound, IsByItself, CanHappen, HasRoom, with_sent, counted};

use crate::parts::Parts;
use continuation::{Done, run_job};
use law_frames::sendable_is_within_limits;
use morty_base::{List, NoMemory, NodeId, Steps};
use msg::{Envelope, Event, Pick};
use std::alloc::Global;

impl Parts {
    // A node handles an envelope that was sent to it.
    fn deliver(&mut self, alloc: Global, node: NodeId, i: u64) -> Result<List<Envelope>, NoMemory>
        requires { CanHappen self.old (Picked node (Deliver i)) }
        ensures { IfOk result (IsTaken self.old (Picked node (Deliver i)) self.new) }
    {
        let mut sent = List::new(alloc);
        let Some(env) = self.boxes.get(i)? else {
            unreachable!();
        };
        let Some(slot) = self.boxes.slots().slot(node) else {
            unreachable!();
        };
        self.nodes.handle(alloc, node, &env, &mut sent)?;
        self.boxes.deliver(slot, i)?;
        Ok(sent)
    }

    // A node is stopped.
    fn stop(&mut self, alloc: Global, node: NodeId) -> Result<List<Envelope>, NoMemory>
        requires { CanHappen self.old (Picked node Stop) }
        ensures { IfOk result (IsTaken self.old (Picked node Stop) self.new) }
    {
        let Some(slot) = self.boxes.slots().slot(node) else {
            unreachable!();
        };
        self.boxes.stop(slot);
        Ok(List::new(alloc))
    }

    // A client begins its next attempt, which is noted.
    fn go(&mut self, alloc: Global, client: u32) -> Result<List<Envelope>, NoMemory>
        requires { CanHappen self.old (Picked (Client client) Go) }
        ensures { IfOk result (IsTaken self.old (Picked (Client client) Go) self.new) }
    {
        let mut sent = List::new(alloc);
        self.nodes
            .pick(alloc, NodeId::Client(client), Pick::Go, &mut sent)?;
        let Some(begun) = self.nodes.current(client) else {
            return Ok(sent);
        };
        self.notes.begun(begun.exec.ver, begun.txn, begun.attempt)?;
        Ok(sent)
    }

    // A node does what it can do by itself: a client hurries, a warden recovers or truncates.
    fn act(&mut self, alloc: Global, node: NodeId, pick: Pick) -> Result<List<Envelope>, NoMemory>
        requires can { CanHappen self.old (Picked node pick) }
        requires alone { IsByItself pick }
        ensures { IfOk result (IsTaken self.old (Picked node pick) self.new) }
    {
        let mut sent = List::new(alloc);
        self.nodes.pick(alloc, node, pick, &mut sent)?;
        Ok(sent)
    }

    // A segment of the pending job is given back.
    fn ran(&mut self, alloc: Global, client: u32, done: &Done) -> Result<List<Envelope>, NoMemory>
        requires can { CanHappen self.old (Ran client) }
        requires pending { job_of self.old.nodes client ≡ Some done.now.job }
        requires code { slice_get self.old.codes done.now.job.prog ≡ Some done.now.code }
        ensures { IfOk result (IsTaken self.old (Ran client) self.new) }
    {
        let mut sent = List::new(alloc);
        self.nodes.ran(alloc, client, done, &mut sent)?;
        Ok(sent)
    }

    // The pending job is run.
    fn run(&mut self, alloc: Global, client: u32) -> Result<List<Envelope>, NoMemory>
        requires { CanHappen self.old (Ran client) }
        ensures { IfOk result (IsTaken self.old (Ran client) self.new) }
    {
        let Some(job) = self.nodes.job(alloc, client)? else {
            unreachable!();
        };
        let mut steps = Steps::<()>::new();
        let done = run_job(alloc, self.codes.as_slice(), job, &mut steps)?;
        self.ran(alloc, client, &done)
    }

    // A node begins an attempt: only clients can.
    fn begin(&mut self, alloc: Global, node: NodeId) -> Result<List<Envelope>, NoMemory>
        requires { CanHappen self.old (Picked node Go) }
        ensures { IfOk result (IsTaken self.old (Picked node Go) self.new) }
    {
        match node {
            NodeId::Client(client) => self.go(alloc, client),
            _ => unreachable!(),
        }
    }

    // A node does what was picked.
    fn pick(&mut self, alloc: Global, node: NodeId, pick: Pick) -> Result<List<Envelope>, NoMemory>
        requires { CanHappen self.old (Picked node pick) }
        ensures { IfOk result (IsTaken self.old (Picked node pick) self.new) }
    {
        match pick {
            Pick::Deliver(i) => self.deliver(alloc, node, i),
            Pick::Stop => self.stop(alloc, node),
            Pick::Go => self.begin(alloc, node),
            _ => self.act(alloc, node, pick),
        }
    }

    // What an event makes its node do.
    fn take(&mut self, alloc: Global, event: Event) -> Result<List<Envelope>, NoMemory>
        requires { CanHappen self.old event }
        ensures { IfOk result (IsTaken self.old event self.new) }
    {
        match event {
            Event::Ran(client) => self.run(alloc, client),
            Event::Picked(node, pick) => self.pick(alloc, node, pick),
        }
    }

    // Sends what is to be sent, in order.
    fn post(&mut self, sent: &[Envelope]) -> Result<(), NoMemory>
        requires frames { (m : EnvelopeValue) → IsIn m sent.now → MaySend m }
        requires stands { (l : Loads) × (w : World) × IsWorld l w self.old }
        ensures { OnOk result ((l : Loads) (w : World) → IsWorld l w self.old → IsWorld l (with_sent w sent.now) self.new) }
    {
        for env in sent {
            let number = self.boxes.sent();
            self.boxes.post(env)?;
            self.notes.sent(number, env)?;
        }
        Ok(())
    }

    // One more event moved the world.
    fn count(&mut self)
        ensures { (l : Loads) (w : World) → IsWorld l w self.old → IsWorld l (counted w) self.new }
    {
        self.moved = self.moved.saturating_add(1);
    }

    // Sends and counts what a node did.
    fn finish(&mut self, sent: &[Envelope]) -> Result<(), NoMemory>
        requires frames { (m : EnvelopeValue) → IsIn m sent.now → MaySend m }
        requires stands { (l : Loads) × (w : World) × IsWorld l w self.old }
        ensures { OnOk result ((l : Loads) (w : World) → IsWorld l w self.old → IsWorld l (counted (with_sent w sent.now)) self.new) }
    {
        self.post(sent)?;
        self.count();
        Ok(())
    }

    /// Takes an event that can happen, where the mail has room.
    pub(crate) fn happen(&mut self, alloc: Global, event: Event) -> Result<(), NoMemory>
        requires can { CanHappen self.old event }
        requires room { HasRoom self.old }
        ensures { OnOk result ((l : Loads) (w : World) → IsWorld l w self.old → IsSound l.plan w → is_some (enabled l.plan w event) ≡ true → IsWorld l (after l.plan w event) self.new) }
    {
        let sent = self.take(alloc, event)?;
        self.finish(sent.as_slice())
    }

    /// Takes a segment of the pending job that was run elsewhere, where the mail has room.
    pub(crate) fn give(&mut self, alloc: Global, client: u32, done: &Done) -> Result<(), NoMemory>
        requires can { CanHappen self.old (Ran client) }
        requires room { HasRoom self.old }
        requires pending { job_of self.old.nodes client ≡ Some done.now.job }
        requires code { slice_get self.old.codes done.now.job.prog ≡ Some done.now.code }
        ensures { OnOk result ((l : Loads) (w : World) → IsWorld l w self.old → IsSound l.plan w → is_some (enabled l.plan w (Ran client)) ≡ true → IsWorld l (after l.plan w (Ran client)) self.new) }
    {
        let sent = self.ran(alloc, client, done)?;
        self.finish(sent.as_slice())
    }
}
