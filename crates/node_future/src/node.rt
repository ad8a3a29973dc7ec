ghost use Rattle.std.specs.Prelude.{◌≡◌, ◌<◌, ◌≤◌, ◌+◌, ℕ, true, Some, None, IsSome, IfSome, MatchOption, IfOk, OnErr};
ghost use Rattle.futures.specs.Task.{Covers, Keeps};
ghost use Rattle.futures.specs.Poll.{IfReady, OnPending};

use crate::{Gate, NodeEnd, NodeOut, Turns};
use futures::Future;
use futures::task::{Context, Poll};
use hub::{Counted, TurnOut};
use morty_base::NoMemory;
use net_core::RanStep;
use std::marker::Model;

/// A node that takes its turns, one in a poll, until the run ends or the node is stopped. From then on it gives its output.
#[derive(Drop)]
pub struct NodeFuture<T: Turns, G: Gate> {
    turns: T,
    gate: G,
    slot: u32,
    first: Counted,
    out: Option<NodeOut>,
}

impl<T: Turns, G: Gate> Model for NodeFuture<T, G> {
    ghost use Rattle.std.specs.Prelude.{◌<◌, ◌≤◌, IfSome};
    ghost use Rattle.node_future.specs.States.{state_of};
    ghost use Rattle.node_future.specs.Outputs.{NodeView, IsTold};

    ghost Value = { NodeView T };

    ghost view = { λ n. record {
      turns = n.turns;
      state = state_of T.nodes T.turns_made T.rans_made T.last_turn T.last_give T.work_refused T.spoiled n.turns;
      slot = n.slot;
      first = n.first;
      out = n.out;
    } };

    ghost invariant = { λ n. (n.slot < T.nodes n.turns) × (n.first.turns ≤ T.turns_made n.turns) × (n.first.rans ≤ T.rans_made n.turns)
        × IfSome n.out (IsTold n.first (state_of T.nodes T.turns_made T.rans_made T.last_turn T.last_give T.work_refused T.spoiled n.turns)) };
}

impl<T: Turns, G: Gate> NodeFuture<T, G> {
    ghost use Rattle.node_future.specs.declared.answers.LastTurn.{LastTurn};
    ghost use Rattle.node_future.specs.States.{IsOneEvent, IsSegment};
    ghost use Rattle.node_future.specs.Outputs.{IsCause, GoesOn, IsTold, IsPolled, MayGive};

    /// The node of a slot. Its output counts from here.
    pub fn new(turns: T, gate: G, slot: u32) -> NodeFuture<T, G>
        requires { slot < T.nodes turns }
        ensures turns { result.turns ≡ turns }
        ensures slot { result.slot ≡ slot }
        ensures first_turns { result.first.turns ≡ T.turns_made turns }
        ensures first_rans { result.first.rans ≡ T.rans_made turns }
        ensures out { result.out ≡ None }
    {
        let first = turns.counts();
        NodeFuture {
            turns,
            gate,
            slot,
            first,
            out: None,
        }
    }

    /// What the node took its turns at.
    pub fn into_turns(self) -> T
        ensures { result ≡ self.turns }
    {
        let NodeFuture { turns, .. } = self;
        turns
    }

    // Its output, once it has one.
    pub(crate) fn output(&self) -> Option<NodeOut>
        ensures out { result ≡ self.now.out }
        ensures told { IfSome result (IsTold self.now.first self.now.state) }
    {
        self.out
    }

    // What a poll does: one turn, unless the node has its output. A segment is run outside of the turn.
    pub(crate) fn advance(&mut self) -> Option<NodeOut>
        ensures out { result ≡ self.new.out }
        ensures told { MatchOption result (GoesOn self.new.state) (IsTold self.new.first self.new.state) }
        ensures gives { IfSome result (MayGive self.old) }
        ensures polled { IsPolled self.old self.new }
        ensures once { self.new.state.turns + self.new.state.rans ≤ self.old.state.turns + self.old.state.rans + 1 }
    {
        if self.out.is_none() {
            if let Some(end) = self.go() {
                self.end(end);
            }
        }
        self.out
    }

    // One turn, and the segment that it answers. The node may have ended by them.
    fn go(&mut self) -> Option<NodeEnd>
        requires { self.old.out ≡ None }
        ensures event { IsOneEvent self.old.state self.new.state }
        ensures end { MatchOption result (GoesOn self.new.state) (λ end. IsCause end self.new.state) }
        ensures same { self.new ≡ record self.old { turns = self.new.turns; state = self.new.state } }
        ensures nodes { self.new.state.nodes ≡ self.old.state.nodes }
    {
        let Ok(out) = self.turns.turn(self.slot) else {
            return Some(NodeEnd::NoMemory);
        };
        match out {
            TurnOut::Moved | TurnOut::Idle => None,
            TurnOut::Job(job) => self.run(job),
            TurnOut::Quiet => Some(NodeEnd::Quiet),
            TurnOut::Spent => Some(NodeEnd::Spent),
            TurnOut::Stopped => Some(NodeEnd::Stopped),
            TurnOut::Full => Some(NodeEnd::Full),
        }
    }

    // A segment of the node, which a turn answered, and giving it back.
    fn run(&mut self, job: T::Job) -> Option<NodeEnd>
        requires out { self.old.out ≡ None }
        requires job { T.fits self.old.turns job }
        requires last { self.old.state.last_turn ≡ LastTurn.Job }
        ensures event { IsSegment self.old.state self.new.state }
        ensures end { MatchOption result (GoesOn self.new.state) (λ end. IsCause end self.new.state) }
        ensures same { self.new ≡ record self.old { turns = self.new.turns; state = self.new.state } }
        ensures nodes { self.new.state.nodes ≡ self.old.state.nodes }
    {
        let Ok(done) = self.work(job) else {
            return self.give_up();
        };
        match self.turns.give(self.slot, &done) {
            Ok(RanStep::Used | RanStep::Stale) => None,
            Ok(RanStep::Full) => Some(NodeEnd::Full),
            Err(_) => self.give_up(),
        }
    }

    // A segment was refused: the run goes on for no node.
    fn give_up(&mut self) -> Option<NodeEnd>
        requires { self.old.out ≡ None }
        ensures end { result ≡ Some NodeEnd.NoMemory }
        ensures spoiled { self.new.state.spoiled ≡ true }
        ensures state { self.new.state ≡ record self.old.state { spoiled = self.new.state.spoiled } }
        ensures same { self.new ≡ record self.old { turns = self.new.turns; state = self.new.state } }
    {
        self.turns.spoil();
        Some(NodeEnd::NoMemory)
    }

    // Runs a segment of the node, of which the gate is told. The client at slot 0 has the number 1.
    fn work(&mut self, job: T::Job) -> Result<T::Done, NoMemory>
        requires out { self.old.out ≡ None }
        requires job { T.fits self.old.turns job }
        ensures done { IfOk result (T.made self.new.turns) }
        ensures refused { OnErr result (self.new.state.refused ≡ true) }
        ensures state { self.new.state ≡ record self.old.state { refused = self.new.state.refused; spoiled = self.new.state.spoiled } }
        ensures same { self.new ≡ record self.old { turns = self.new.turns; state = self.new.state } }
    {
        let client = self.slot.saturating_add(1);
        self.gate.before(client);
        let worked = self.turns.work(job);
        self.gate.after(client);
        worked
    }

    // Notes how the node's turns ended.
    fn end(&mut self, end: NodeEnd)
        requires out { self.old.out ≡ None }
        requires end { IsCause end self.old.state }
        ensures out { IfSome self.new.out (IsTold self.old.first self.old.state) }
        ensures some { IsSome self.new.out }
        ensures same { self.new ≡ record self.old { out = self.new.out } }
    {
        let counts = self.turns.counts();
        self.out = Some(NodeOut {
            end,
            turns: counts.turns - self.first.turns,
            rans: counts.rans - self.first.rans,
        });
    }
}

impl<T: Turns, G: Gate> Future for NodeFuture<T, G> {
    ghost use Rattle.node_future.specs.Outputs.{GoesOn, IsTold, IsPolled, MayGive};
    ghost use Rattle.node_future.specs.declared.output.NodeOut.{NodeOut as Given};

    type Output = NodeOut;

    ghost gives = { MayGive };

    fn poll(&mut self, cx: &mut Context<'_>) -> Poll<NodeOut>
        ensures value { IfReady result (MayGive self.old) }
        ensures same { OnPending result ((out : Given) → MayGive self.new out → MayGive self.old out) }
        ensures registered { OnPending result (Covers cx.new (λ _. ⊥)) }
        ensures kept { Keeps cx.old cx.new }
        ensures out { IfReady result (λ out. self.new.out ≡ Some out) }
        ensures told { IfReady result (IsTold self.new.first self.new.state) }
        ensures goes_on { OnPending result (GoesOn self.new.state) }
        ensures polled { IsPolled self.old self.new }
        ensures once { self.new.state.turns + self.new.state.rans ≤ self.old.state.turns + self.old.state.rans + 1 }
    {
        match self.advance() {
            Some(out) => Poll::Ready(out),
            None => cx.yield_now(),
        }
    }
}
