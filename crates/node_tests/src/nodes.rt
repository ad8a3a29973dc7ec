//! Three replicas and two wardens, beside one client.

ghost use Rattle.std.specs.Prelude.{IsTrue};
ghost use Rattle.protocol.specs.Replica.Limits.{IsWithinLimits};

use crate::bodies::{Said, body};
use crate::checks::{MEMORY, is_equal, is_so};
use crate::sample::X;
use morty_base::{Exec, List, NodeId, Version};
use msg::{Body, Choice, Envelope};
use protocol::First2;
use recovery::Recoverer;
use replica::Replica;
use std::alloc::Global;
use std::process::Abort;
use truncation::Truncator;

/// What happens at a node: a warden recovers an execution or truncates to a version, the envelope at this place of the
/// mail is delivered, or a node that is not here says something.
pub(crate) enum Event {
    Recover(Exec),
    Truncate(Version),
    Deliver(usize),
    Hear(NodeId, Said),
}

/// What a warden answers when it is asked.
pub(crate) enum Answer {
    Decided(Exec, Option<Choice>),
    HasContent(Exec, bool),
    CanRecover(Exec, bool),
    Recovering(Exec, bool),
    CanTruncate(Version, bool),
}

#[derive(Drop)]
struct Warden {
    recoverer: Recoverer,
    truncator: Truncator,
}

#[derive(Drop)]
pub(crate) struct Nodes {
    replica1: Replica,
    replica2: Replica,
    replica3: Replica,
    warden1: Warden,
    warden2: Warden,
}

// A replica of three, whose x[1] is 4 at first.
fn replica(rt: &impl Abort, alloc: Global, number: u32) -> Replica {
    let first = First2 { key: X, value: 4 };
    let firsts = List::from_slice(alloc, &[first]).expect(rt, MEMORY);
    Replica::new(alloc, number, 3, firsts).expect(rt, MEMORY)
}

fn make_warden(alloc: Global, number: u32) -> Warden {
    Warden {
        recoverer: Recoverer::new(alloc, number, 2, 3, 1),
        truncator: Truncator::new(alloc, number, 3),
    }
}

/// Nodes to which nothing happened yet.
pub(crate) fn fresh_nodes(rt: &impl Abort, alloc: Global) -> Nodes {
    Nodes {
        replica1: replica(rt, alloc, 1),
        replica2: replica(rt, alloc, 2),
        replica3: replica(rt, alloc, 3),
        warden1: make_warden(alloc, 1),
        warden2: make_warden(alloc, 2),
    }
}

const MOST_WRITES: usize = 4_294_967_295;

// Whether a replica may take it. A base has one entry at most.
#[tactic(auto, using(crate::proofs::BaseLemmas::short_rises))]
fn is_within(body: &Body) -> bool
    ensures { IsTrue result → IsWithinLimits body.now }
{
    match body {
        Body::Puts { exec: _, writes } => writes.len() <= MOST_WRITES,
        Body::Prepare { exec: _, content } => content.writes.len() <= MOST_WRITES,
        Body::Finalize {
            content: Some(content),
            ..
        } => content.writes.len() <= MOST_WRITES,
        Body::Finalize { content: None, .. } => true,
        Body::Decide {
            content: Some(content),
            ..
        } => content.writes.len() <= MOST_WRITES,
        Body::Decide { content: None, .. } => true,
        Body::Drop { w: _, base } => base.len() <= 1,
        Body::Get { .. } => true,
        Body::Note { .. } => true,
        Body::Vote { .. } => true,
        Body::Accepted { .. } => true,
        Body::Ask { .. } => true,
        Body::Told { .. } => true,
        Body::Fence { .. } => true,
        Body::Fenced { .. } => true,
        Body::TooOld { .. } => true,
    }
}

fn hand_replica(
    rt: &impl Abort,
    alloc: Global,
    replica: &mut Replica,
    env: &Envelope,
    out: &mut List<Envelope>,
) {
    assert!(rt; is_within(&env.body));
    replica.handle(alloc, env, out).expect(rt, MEMORY);
}

fn hand_warden(
    rt: &impl Abort,
    alloc: Global,
    warden: &mut Warden,
    env: &Envelope,
    out: &mut List<Envelope>,
) {
    warden
        .truncator
        .handle(alloc, &mut warden.recoverer, env, out)
        .expect(rt, MEMORY);
}

// An envelope is handed to its receiver.
fn hand(
    rt: &impl Abort,
    alloc: Global,
    nodes: &mut Nodes,
    env: &Envelope,
    out: &mut List<Envelope>,
) {
    match env.to {
        NodeId::Replica(1) => hand_replica(rt, alloc, &mut nodes.replica1, env, out),
        NodeId::Replica(2) => hand_replica(rt, alloc, &mut nodes.replica2, env, out),
        NodeId::Replica(_) => hand_replica(rt, alloc, &mut nodes.replica3, env, out),
        NodeId::Warden(1) => hand_warden(rt, alloc, &mut nodes.warden1, env, out),
        NodeId::Warden(_) => hand_warden(rt, alloc, &mut nodes.warden2, env, out),
        NodeId::Client(_) => panic!(rt; "the client takes nothing"),
    }
}

fn recover(
    rt: &impl Abort,
    alloc: Global,
    warden: &mut Warden,
    exec: Exec,
    out: &mut List<Envelope>,
) {
    assert!(rt; warden.recoverer.can_recover(exec));
    warden
        .recoverer
        .recover(alloc, exec, out)
        .expect(rt, MEMORY);
}

fn truncate(
    rt: &impl Abort,
    alloc: Global,
    warden: &mut Warden,
    w: Version,
    out: &mut List<Envelope>,
) {
    assert!(rt; warden.truncator.can_truncate(w));
    warden.truncator.truncate(alloc, w, out).expect(rt, MEMORY);
}

fn warden_of(nodes: &mut Nodes, node: NodeId) -> &mut Warden {
    match node {
        NodeId::Warden(1) => &mut nodes.warden1,
        _ => &mut nodes.warden2,
    }
}

/// What a node sends on an event.
pub(crate) fn sent(
    rt: &impl Abort,
    alloc: Global,
    nodes: &mut Nodes,
    mail: &List<Envelope>,
    node: NodeId,
    event: &Event,
) -> List<Envelope> {
    let mut out = List::new(alloc);
    match event {
        Event::Recover(exec) => recover(rt, alloc, warden_of(nodes, node), *exec, &mut out),
        Event::Truncate(w) => truncate(rt, alloc, warden_of(nodes, node), *w, &mut out),
        Event::Deliver(i) => {
            let env = mail.get(*i).expect(rt, "it was sent");
            is_equal(rt, &env.to, &node, "the receiver");
            hand(rt, alloc, nodes, env, &mut out);
        }
        Event::Hear(from, said) => {
            let env = Envelope {
                from: *from,
                to: node,
                body: body(rt, alloc, said),
            };
            hand(rt, alloc, nodes, &env, &mut out);
        }
    }
    out
}

/// Whether this is what a warden answers.
pub(crate) fn is_answered(
    rt: &impl Abort,
    alloc: Global,
    nodes: &mut Nodes,
    node: NodeId,
    answer: &Answer,
) -> bool {
    let warden = warden_of(nodes, node);
    match answer {
        Answer::Decided(exec, choice) => warden.recoverer.decided(*exec) == *choice,
        Answer::HasContent(exec, has) => {
            let content = warden.recoverer.content(alloc, *exec).expect(rt, MEMORY);
            content.is_some() == *has
        }
        Answer::CanRecover(exec, can) => warden.recoverer.can_recover(*exec) == *can,
        Answer::Recovering(exec, is) => warden.recoverer.recovering(*exec) == *is,
        Answer::CanTruncate(w, can) => warden.truncator.can_truncate(*w) == *can,
    }
}
