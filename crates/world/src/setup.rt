//! What a setup says, as the parts of a world take it.

ghost use Rattle.std.specs.Prelude.{◌≡◌, map, length, IfOk};
ghost use Rattle.script.specs.Sayable.{IsSetup};
ghost use Rattle.script_plans.specs.Plans.{first_of};
ghost use Rattle.world.specs.Setup.{rules_of, slots_in, txn_of};

use coordinator::{Rules, Txn2};
use menus::Slots;
use morty_base::{List, NoMemory};
use protocol::First2;
use script::{Policy, Setup, Txn};
use std::alloc::Global;

// The rules that hold for each client.
pub(crate) fn rules(setup: &Setup) -> Rules
    ensures { result ≡ rules_of setup.now }
{
    let execs = match setup.policy {
        Policy::Rewind => setup.execs,
        Policy::Abort => 1,
    };
    Rules {
        replicas: setup.replicas,
        tries: setup.tries,
        execs,
        gap: setup.gap,
    }
}

// The transactions of one client.
fn own_txns(alloc: Global, txns: &[Txn]) -> Result<List<Txn2>, NoMemory>
    ensures { IfOk result (λ own. own ≡ map txn_of txns.now) }
{
    let mut own = List::new(alloc);
    for txn in txns {
        own.push(Txn2 {
            prog: txn.prog,
            at: txn.at,
        })?;
    }
    Ok(own)
}

// The transactions of each client.
pub(crate) fn txns(alloc: Global, setup: &Setup) -> Result<List<List<Txn2>>, NoMemory>
    ensures { IfOk result (λ all. all ≡ map (map txn_of) setup.now.clients) }
{
    let mut all = List::new(alloc);
    for client in setup.clients.as_slice() {
        all.push(own_txns(alloc, client.as_slice())?)?;
    }
    Ok(all)
}

// The first values.
pub(crate) fn firsts(alloc: Global, setup: &Setup) -> Result<List<First2>, NoMemory>
    ensures { IfOk result (λ firsts. firsts ≡ map first_of setup.now.firsts) }
{
    let mut firsts = List::new(alloc);
    for first in setup.firsts.as_slice() {
        firsts.push(First2 {
            key: first.key,
            value: first.value,
        })?;
    }
    Ok(firsts)
}

// How many transactions each client has.
pub(crate) fn counts(alloc: Global, setup: &Setup) -> Result<List<u32>, NoMemory>
    requires { IsSetup setup.now }
    ensures { IfOk result (λ all. all ≡ map length setup.now.clients) }
{
    let mut all = List::new(alloc);
    for client in setup.clients.as_slice() {
        all.push(client.len() as u32)?;
    }
    Ok(all)
}

// The slots of the nodes.
pub(crate) fn slots(setup: &Setup) -> Slots
    requires { IsSetup setup.now }
    ensures { result ≡ slots_in setup.now }
{
    Slots::new(setup.clients.len() as u32, setup.replicas, setup.wardens)
}
