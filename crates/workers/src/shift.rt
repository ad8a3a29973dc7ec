ghost use Rattle.futures.specs.Task.{Covers, Keeps};
ghost use Rattle.futures.specs.Poll.{IfReady, OnPending};

use futures::Future;
use futures::task::{Context, Poll};
use node_future::{Gate, NodeSet, Turns};

/// The nodes of a worker, which are polled until each has its output. Then it gives back what they took their turns at, if
/// there is memory for the list of it.
#[derive(Drop)]
pub struct Shift<T: Turns, G: Gate> {
    nodes: Option<NodeSet<T, G>>,
}

impl<T: Turns, G: Gate> Shift<T, G> {
    pub fn new(nodes: NodeSet<T, G>) -> Shift<T, G> {
        Shift { nodes: Some(nodes) }
    }
}

impl<T: Turns, G: Gate> Future for Shift<T, G> {
    type Output = Option<Vec<T>>;

    fn poll(&mut self, cx: &mut Context<'_>) -> Poll<Option<Vec<T>>> {
        let Some(mut nodes) = self.nodes.take() else {
            return Poll::Ready(None);
        };
        match nodes.poll(cx) {
            Poll::Ready(_) => Poll::Ready(nodes.into_turns().ok()),
            Poll::Pending => {
                self.nodes = Some(nodes);
                cx.yield_now()
            }
        }
    }
}
