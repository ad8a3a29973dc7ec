//! Two clients and a replica.

ghost use Rattle.std.specs.Prelude.{IsTrue};
ghost use Rattle.protocol.specs.Replica.Limits.{IsWithinLimits};

use crate::bodies::{Said, body};
use crate::client::Client;
use crate::sample::X;
use morty_base::{List, NoMemory, NodeId};
use msg::{Body, Envelope};
use protocol::First2;
use replica::Replica;
use std::alloc::Global;
use txn_lang::Prog;

/// What happens at a node: a client begins an attempt or runs its job, the envelope at this place of the mail is
/// delivered, or another node says something.
#[derive(Clone, Copy)]
pub(crate) enum Event {
    Go,
    Run,
    Deliver(usize),
    Hear(NodeId, Said),
}

#[derive(Drop)]
pub(crate) struct Nodes {
    pub client1: Client,
    pub client2: Client,
    pub replica: Replica,
}

/// Client 1 runs the first program at 10, client 2 the second one at 20, with so many executions of a version.
pub(crate) fn joined(
    alloc: Global,
    first: &Prog,
    second: &Prog,
    execs: u32,
) -> Result<Nodes, NoMemory> {
    let client1 = Client::new(alloc, 1, first, 10, 16)?;
    let client2 = Client::new(alloc, 2, second, 20, execs)?;
    let value = First2 { key: X, value: 4 };
    let replica = Replica::new(alloc, 1, 1, List::from_slice(alloc, &[value])?)?;
    Ok(Nodes {
        client1,
        client2,
        replica,
    })
}

const MOST_WRITES: usize = 4_294_967_295;

// Whether a replica may take it, and it is of a kind that comes to one in these runs.
fn is_within(body: &Body) -> bool
    ensures { IsTrue result → IsWithinLimits body.now }
{
    match body {
        Body::Get { exec: _, key: _ } => true,
        Body::Puts { exec: _, writes } => writes.len() <= MOST_WRITES,
        Body::Prepare { exec: _, content } => content.writes.len() <= MOST_WRITES,
        Body::Finalize {
            exec: _,
            view: _,
            choice: _,
            content: None,
        } => true,
        Body::Decide {
            exec: _,
            choice: _,
            content: None,
        } => true,
        Body::Decide {
            exec: _,
            choice: _,
            content: Some(content),
        } => content.writes.len() <= MOST_WRITES,
        Body::Drop { w: _, base } => base.is_empty(),
        _ => false,
    }
}

fn take(
    alloc: Global,
    replica: &mut Replica,
    env: &Envelope,
    out: &mut List<Envelope>,
) -> Result<(), NoMemory> {
    if is_within(&env.body) {
        replica.handle(alloc, env, out)?;
    }
    Ok(())
}

fn deliver(
    alloc: Global,
    nodes: &mut Nodes,
    env: &Envelope,
    out: &mut List<Envelope>,
) -> Result<(), NoMemory> {
    match env.to {
        NodeId::Client(1) => nodes.client1.handle(alloc, env, out),
        NodeId::Client(_) => nodes.client2.handle(alloc, env, out),
        NodeId::Replica(_) => take(alloc, &mut nodes.replica, env, out),
        NodeId::Warden(_) => Ok(()),
    }
}

fn go(alloc: Global, nodes: &mut Nodes, node: NodeId) -> Result<(), NoMemory> {
    match node {
        NodeId::Client(1) => nodes.client1.go(alloc),
        NodeId::Client(_) => nodes.client2.go(alloc),
        _ => Ok(()),
    }
}

fn run(
    alloc: Global,
    nodes: &mut Nodes,
    node: NodeId,
    out: &mut List<Envelope>,
) -> Result<(), NoMemory> {
    match node {
        NodeId::Client(1) => nodes.client1.run(alloc, out),
        NodeId::Client(_) => nodes.client2.run(alloc, out),
        _ => Ok(()),
    }
}

fn hear(
    alloc: Global,
    nodes: &mut Nodes,
    from: NodeId,
    to: NodeId,
    said: Said,
    out: &mut List<Envelope>,
) -> Result<(), NoMemory> {
    let body = body(alloc, said)?;
    deliver(alloc, nodes, &Envelope { from, to, body }, out)
}

/// What a node sends on an event.
pub(crate) fn sent(
    alloc: Global,
    nodes: &mut Nodes,
    mail: &List<Envelope>,
    node: NodeId,
    event: Event,
) -> Result<List<Envelope>, NoMemory> {
    let mut out = List::new(alloc);
    match event {
        Event::Go => go(alloc, nodes, node)?,
        Event::Run => run(alloc, nodes, node, &mut out)?,
        Event::Hear(from, said) => hear(alloc, nodes, from, node, said, &mut out)?,
        Event::Deliver(i) => match mail.get(i) {
            Some(env) if env.to == node => deliver(alloc, nodes, env, &mut out)?,
            _ => (),
        },
    }
    Ok(out)
}
