ghost use Rattle.std.specs.Prelude.{◌≡◌, ◌<◌, ◌≤◌, Some, length};
ghost use Rattle.hub.specs.Starts.{Start};
ghost use Rattle.hub.specs.Views.{nodes_of};
ghost use Rattle.workers.specs.Tallies.{new_tally};

use crate::locked::Locked;
use crate::seat::Seat;
use crate::shift::Shift;
use futures::executor::block_on;
use hub::Named;
use morty_base::List;
use net_core::{Link, Machine};
use node_future::{Gate, NodeFuture, NodeSet};
use std::alloc::{AllocGlobal, Global};
use std::marker::Model;
use std::random::RandomSource;
use std::sync::ledger::Ledger;
use std::sync::{Mutex, Wait};
use std::thread;
use std::thread::Threads;

/// What the workers of a run share.
#[derive(Drop)]
pub struct Crew<
    'a,
    M: Machine,
    L: Link,
    N: Named<M::Origin>,
    P: Ledger,
    Q: Ledger,
    G: Gate,
    R: Wait,
> {
    pub(crate) rt: &'a R,
    pub(crate) alloc: Global,
    pub(crate) lock: &'a Mutex<Locked<M, L, N, P, Q>>,
    pub(crate) kit: &'a M::Kit,
    pub(crate) gate: &'a G,
    pub(crate) nodes: u32,
    pub(crate) workers: u32,
}

impl<'a, M: Machine, L: Link, N: Named<M::Origin>, P: Ledger, Q: Ledger, G: Gate, R: Wait> Model
    for Crew<'a, M, L, N, P, Q, G, R> {
    ghost use Rattle.std.specs.Prelude.{◌≡◌, ◌≤◌, ℕ, Some, length};
    ghost use Rattle.hub.specs.Starts.{Start};

    ghost Value = { ℕ };

    ghost view = { λ c. c.workers };

    ghost invariant = { λ c. (1 ≤ c.workers)
        × ((s : Start M.Origin) × (N.start ≡ Some s) × (c.nodes ≡ length (M.rules s.origin).nodes) × M.kit_of s.origin c.kit.now) };
}

impl<'a, M, L, N, P, Q, G, R> Crew<'a, M, L, N, P, Q, G, R>
where
    M: Machine,
    L: Link,
    N: Named<M::Origin>,
    P: Ledger,
    Q: Ledger,
    G: Gate + 'static,
    R: Wait + RandomSource + AllocGlobal,
{
    // Polls the nodes of a worker, and those of all workers from another one on, to their end.
    fn serve(&self, own: u32, rest: u32) -> Option<()> {
        let mut list = List::new(self.alloc);
        for slot in 0..self.nodes {
            let worker = slot % self.workers;
            if worker == own || rest <= worker {
                list.push(NodeFuture::new(self.seat()?, self.gate, slot))
                    .ok()?;
            }
        }
        let seats = block_on(self.rt, Shift::new(NodeSet::new(self.alloc, list))).ok()??;
        for seat in seats {
            self.lock.lock(self.rt).take_back(seat.into_share());
        }
        Some(())
    }

    // A seat for a node.
    fn seat(&self) -> Option<Seat<'a, M, L, N, P, Q, R>> {
        let mine = self.lock.lock(self.rt).deal()?;
        Some(Seat::new(self.rt, self.alloc, self.lock, self.kit, mine))
    }
}

/// Lets the workers of a crew run, each in a thread of its own.
pub fn run_crew<M, L, N, P, Q, G, R>(crew: Crew<'_, M, L, N, P, Q, G, R>)
where
    M: Machine + Send,
    M::Job: Send,
    M::Done: Send,
    M::Kit: Sync,
    L: Link + Send,
    N: Named<M::Origin> + Send + Sync,
    P: Ledger + Send + Sync,
    Q: Ledger + Send + Sync,
    G: Gate + Sync + 'static,
    R: Threads + Wait + Sync + RandomSource + AllocGlobal,
{
    let Crew {
        rt,
        alloc,
        lock,
        kit,
        gate,
        nodes,
        workers,
    } = crew;
    thread::scope(
        thread::scope_env(),
        rt,
        move |scope|
            requires { (1 ≤ workers) × ((s : Start M.Origin) × (N.start ≡ Some s) × (nodes ≡ length (M.rules s.origin).nodes) × M.kit_of s.origin kit.now) }
        {
            for own in 1..workers {
                let theirs = move ||
                    requires { (1 ≤ workers)
                        × ((s : Start M.Origin) × (N.start ≡ Some s) × (nodes ≡ length (M.rules s.origin).nodes) × M.kit_of s.origin kit.now) }
                {
                    let _ = Crew {
                        rt,
                        alloc,
                        lock,
                        kit,
                        gate,
                        nodes,
                        workers,
                    }
                    .serve(own, workers);
                };
                if scope.spawn(theirs).is_err() {
                    let _ = Crew {
                        rt,
                        alloc,
                        lock,
                        kit,
                        gate,
                        nodes,
                        workers,
                    }
                    .serve(0, own);
                    return;
                }
            }
            let _ = Crew {
                rt,
                alloc,
                lock,
                kit,
                gate,
                nodes,
                workers,
            }
            .serve(0, workers);
        },
    );
}
