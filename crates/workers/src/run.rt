ghost use Rattle.std.specs.Prelude.{◌≡◌, ◌≤◌, false, [], Some, IfOk, OnOk};
ghost use Rattle.net_core.specs.Marks.{end_of};
ghost use Rattle.hub.specs.Kept.{picks_in, rans_in};
ghost use Rattle.hub.specs.Starts.{Start};
ghost use Rattle.hub.specs.Views.{history, told_end};
ghost use Rattle.workers.specs.Tallies.{all_parts};

use crate::accounts::PARTS;
use crate::crew::{Crew, run_crew};
use crate::locked::Locked;
use hub::{Hub, Named};
use morty_base::NoMemory;
use net_core::{Link, Machine};
use node_future::Gate;
use runner::{RunOut, run_one};
use std::alloc::{AllocGlobal, Global};
use std::marker::Brand;
use std::random::RandomSource;
use std::sync::ledger::{Blank, Ledger};
use std::sync::{Mutex, Wait};
use std::thread::Threads;

/// Runs a hub to its end by several workers. The node of a slot is the worker's whose number is the remainder of the slot.
pub fn run_workers<M, L, N, G, R>(
    rt: &R,
    alloc: Global,
    hub: Hub<M, L, N>,
    kit: &M::Kit,
    workers: u32,
    gate: &G,
) -> Result<(Hub<M, L, N>, RunOut), NoMemory>
where
    M: Machine + Send,
    M::Job: Send,
    M::Done: Send,
    M::Kit: Sync,
    L: Link + Send,
    N: Named<M::Origin> + Send + Sync,
    G: Gate + Sync + 'static,
    R: Threads + Wait + Sync + RandomSource + AllocGlobal,
    requires kit { (s : Start M.Origin) × (N.start ≡ Some s) × M.kit_of s.origin kit.now }
    requires empty { hub.journal ≡ [] }
    requires workers { (1 ≤ workers) × (workers ≤ 8) }
    ensures ended { IfOk result (λ r. told_end r.0 ≡ Some r.1.ended) }
    ensures end { IfOk result (λ r. (s : Start M.Origin) → N.start ≡ Some s → end_of (M.rules s.origin) s.turns (history r.0) ≡ Some r.1.ended) }
    ensures turns { IfOk result (λ r. r.1.turns ≡ picks_in (history r.0)) }
    ensures rans { IfOk result (λ r. (s : Start M.Origin) → N.start ≡ Some s → r.1.rans ≡ rans_in (M.rules s.origin) (history r.0)) }
    ensures whole { IfOk result (λ r. r.0.broken ≡ false) }
{
    run_counted::<M, L, N, Brand, Brand, G, R>(
        rt,
        alloc,
        hub,
        kit,
        workers,
        gate,
        Blank::new(PARTS),
        Blank::new(PARTS),
    )
}

// The same, by two ledgers that have these names.
fn run_counted<M, L, N, P, Q, G, R>(
    rt: &R,
    alloc: Global,
    hub: Hub<M, L, N>,
    kit: &M::Kit,
    workers: u32,
    gate: &G,
    picks: Blank,
    rans: Blank,
) -> Result<(Hub<M, L, N>, RunOut), NoMemory>
where
    M: Machine + Send,
    M::Job: Send,
    M::Done: Send,
    M::Kit: Sync,
    L: Link + Send,
    N: Named<M::Origin> + Send + Sync,
    P: Ledger + Send + Sync,
    Q: Ledger + Send + Sync,
    G: Gate + Sync + 'static,
    R: Threads + Wait + Sync + RandomSource + AllocGlobal,
    requires kit { (s : Start M.Origin) × (N.start ≡ Some s) × M.kit_of s.origin kit.now }
    requires empty { hub.journal ≡ [] }
    requires workers { (1 ≤ workers) × (workers ≤ 8) }
    requires picks { (picks.name ≡ P.name) × (picks.parts ≡ P.parts) × (P.parts ≡ all_parts) }
    requires rans { (rans.name ≡ Q.name) × (rans.parts ≡ Q.parts) × (Q.parts ≡ all_parts) }
    ensures ended { IfOk result (λ r. told_end r.0 ≡ Some r.1.ended) }
    ensures end { IfOk result (λ r. (s : Start M.Origin) → N.start ≡ Some s → end_of (M.rules s.origin) s.turns (history r.0) ≡ Some r.1.ended) }
    ensures turns { IfOk result (λ r. r.1.turns ≡ picks_in (history r.0)) }
    ensures rans { IfOk result (λ r. (s : Start M.Origin) → N.start ≡ Some s → r.1.rans ≡ rans_in (M.rules s.origin) (history r.0)) }
    ensures whole { IfOk result (λ r. r.0.broken ≡ false) }
{
    let nodes = hub.nodes();
    let lock = Mutex::new(Locked::<M, L, N, P, Q>::new(hub, picks, rans));
    run_crew(Crew {
        rt,
        alloc,
        lock: &lock,
        kit,
        gate,
        nodes,
        workers,
    });
    let (mut hub, made) = lock.into_inner().into_hub();
    let rest = run_one(alloc, &mut hub, kit)?;
    let _counted = hub.counted();
    let out = RunOut {
        ended: rest.ended,
        turns: made.turns + rest.turns,
        rans: made.rans + rest.rans,
    };
    Ok((hub, out))
}
