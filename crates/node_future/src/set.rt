ghost use Rattle.std.specs.Prelude.{◌≡◌, map, IfOk, IfSome};
ghost use Rattle.futures.specs.Task.{Covers, Keeps};
ghost use Rattle.futures.specs.Poll.{IfReady, OnPending};

use crate::{Gate, NodeFuture, NodeOut, Turns};
use futures::Future;
use futures::task::{Context, Poll};
use morty_base::{List, NoMemory};
use std::alloc::Global;
use std::marker::Model;

/// Polls its nodes in turn, until each has its output.
#[derive(Drop)]
pub struct NodeSet<T: Turns, G: Gate> {
    alloc: Global,
    nodes: Vec<NodeFuture<T, G>>,
}

impl<T: Turns, G: Gate> Model for NodeSet<T, G> {
    ghost use Rattle.std.specs.Prelude.{List};
    ghost use Rattle.node_future.specs.Outputs.{NodeView};

    ghost Value = { List (NodeView T) };

    ghost view = { λ s. s.nodes.items };
}

impl<T: Turns, G: Gate> NodeSet<T, G> {
    ghost use Rattle.node_future.specs.Outputs.{ArePolled, AllTold};

    pub fn new(alloc: Global, nodes: List<NodeFuture<T, G>>) -> NodeSet<T, G>
        ensures { result ≡ nodes }
    {
        NodeSet {
            alloc,
            nodes: nodes.into_vec(),
        }
    }

    /// What the nodes took their turns at, in order.
    pub fn into_turns(self) -> Result<Vec<T>, NoMemory>
        ensures { IfOk result (λ turns. turns.items ≡ map (λ n. n.turns) self) }
    {
        let NodeSet { alloc, nodes } = self;
        let mut turns = Vec::new(alloc);
        for node in nodes {
            turns.push(node.into_turns())?;
        }
        Ok(turns)
    }

    // Each node in turn.
    fn advance(&mut self)
        ensures { ArePolled self.old self.new }
    {
        for at in 0..self.nodes.len() {
            self.nodes[at].advance();
        }
    }

    // The outputs in order, once all are there.
    fn outputs(&self) -> Option<Result<List<NodeOut>, NoMemory>>
        ensures { IfSome result (λ r. IfOk r (AllTold self.now)) }
    {
        let mut outs = List::new(self.alloc);
        for node in self.nodes.iter() {
            let out = node.output()?;
            if outs.push(out).is_err() {
                return Some(Err(NoMemory));
            }
        }
        Some(Ok(outs))
    }
}

impl<T: Turns, G: Gate> Future for NodeSet<T, G> {
    ghost use Rattle.std.specs.Prelude.{IfOk, List};
    ghost use Rattle.node_future.specs.Outputs.{AllGiven, AllTold, ArePolled};
    ghost use Rattle.node_future.specs.declared.output.NodeOut.{NodeOut as Given};

    type Output = Result<List<NodeOut>, NoMemory>;

    ghost gives = { λ nodes r. IfOk r (AllGiven nodes) };

    fn poll(&mut self, cx: &mut Context<'_>) -> Poll<Result<List<NodeOut>, NoMemory>>
        ensures value { IfReady result (λ r. IfOk r (AllGiven self.old)) }
        ensures same { OnPending result ((outs : List Given) → AllGiven self.new outs → AllGiven self.old outs) }
        ensures registered { OnPending result (Covers cx.new (λ _. ⊥)) }
        ensures kept { Keeps cx.old cx.new }
        ensures told { IfReady result (λ r. IfOk r (AllTold self.new)) }
        ensures polled { ArePolled self.old self.new }
    {
        self.advance();
        match self.outputs() {
            Some(outs) => Poll::Ready(outs),
            None => cx.yield_now(),
        }
    }
}
