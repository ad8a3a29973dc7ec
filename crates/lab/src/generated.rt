ghost use Rattle.std.specs.Prelude.{◌≡◌, ◌<◌, ◌≤◌, [], ◌∷◌, map, IfOk, codes};
ghost use Rattle.std.specs.List.{range_with_len};
ghost use Rattle.script.specs.Meaning.{named_of, said_by};
ghost use Rattle.script.specs.Sayable.{IsSetup};
ghost use Rattle.lab.specs.Draws.{generator, transfers};
ghost use Rattle.lab.specs.Generated.{transfer_progs, txns_of, account, stops, generated};

use crate::draws::{ACCOUNTS, next_transfer};
use crate::transfer::transfer_prog;
use morty_base::{Key, List, NoMemory, NodeId};
use msg::Pick;
use net_core::{PlanItem, PlanWhat};
use rand_pcg::Pcg32;
use script::{First, NamedProg, Net, Policy, Setup, Txn};
use std::alloc::Global;

/// The greatest seed of a script.
pub const GREATEST_SEED: u64 = 9_223_372_036_854_775_807;

/// How many programs a generated script may have.
pub const MOST_GENERATED: u32 = 512;

/// How many clients take turns.
pub const CLIENTS: u32 = 8;

/// What each account has at first.
pub const FIRST_VALUE: i64 = 100;

/// The stream of the generator of all scripts.
const STREAM: u64 = 54;

/// The one table.
fn tables(alloc: Global) -> Result<List<List<u8>>, NoMemory>
    ensures { IfOk result (λ tables. tables ≡ codes "acct" ∷ []) }
{
    let mut tables = List::new(alloc);
    tables.push(List::from_slice(alloc, b"acct")?)?;
    Ok(tables)
}

/// The first value of an account.
fn account(number: u32) -> First
    ensures { result ≡ account number }
{
    First {
        key: Key {
            table: 0,
            index: i64::from(number),
        },
        value: FIRST_VALUE,
    }
}

/// The first values of all accounts.
fn firsts(alloc: Global) -> Result<List<First>, NoMemory>
    ensures { IfOk result (λ firsts. firsts ≡ map account (range_with_len 1 ACCOUNTS)) }
{
    let mut firsts = List::new(alloc);
    for i in 0..ACCOUNTS {
        firsts.push(account(i + 1))?;
    }
    Ok(firsts)
}

/// The programs of so many transfers, by the draws of a seed.
fn progs(alloc: Global, seed: u64, size: u32) -> Result<List<NamedProg>, NoMemory>
    requires { size ≤ MOST_GENERATED }
    ensures { IfOk result (λ progs. map named_of progs ≡ transfer_progs 1 (transfers size (generator seed))) }
{
    let mut rng = Pcg32::new(seed, STREAM);
    let mut progs = List::new(alloc);
    for i in 0..size {
        let transfer = next_transfer(&mut rng);
        progs.push(transfer_prog(alloc, i + 1, transfer)?)?;
    }
    Ok(progs)
}

/// The transactions of a client: each eighth program.
fn txns(alloc: Global, size: u32, client: u32) -> Result<List<Txn>, NoMemory>
    requires { size ≤ MOST_GENERATED }
    ensures { IfOk result (λ txns. txns ≡ txns_of size client) }
{
    let mut txns = List::new(alloc);
    for i in 0..size {
        if i % CLIENTS == client {
            txns.push(Txn {
                prog: i as u16,
                at: 10 * (u64::from(i) + 1),
            })?;
        }
    }
    Ok(txns)
}

fn clients(alloc: Global, size: u32) -> Result<List<List<Txn>>, NoMemory>
    requires { size ≤ MOST_GENERATED }
    ensures { IfOk result (λ clients. clients ≡ map (txns_of size) (range_with_len 0 CLIENTS)) }
{
    let mut clients = List::new(alloc);
    for client in 0..CLIENTS {
        clients.push(txns(alloc, size, client)?)?;
    }
    Ok(clients)
}

/// The last client is stopped early.
fn plan(alloc: Global) -> Result<List<PlanItem>, NoMemory>
    ensures { IfOk result (λ plan. plan ≡ stops ∷ []) }
{
    let mut plan = List::new(alloc);
    plan.push(PlanItem {
        node: NodeId::Client(CLIENTS),
        what: PlanWhat::At {
            now: 500,
            pick: Pick::Stop,
        },
    })?;
    Ok(plan)
}

/// The script of a seed: so many transfers among 50 accounts, each a program and a transaction of one of eight clients,
/// over a seeded net, with one client that is stopped.
pub fn gen_script(alloc: Global, seed: u64, size: u32) -> Result<Setup, NoMemory>
    requires seed { seed ≤ GREATEST_SEED }
    requires some { 1 ≤ size }
    requires few { size ≤ MOST_GENERATED }
    ensures says { IfOk result (λ setup. said_by setup ≡ generated seed size) }
    ensures setup { IfOk result (λ setup. IsSetup setup) }
{
    Ok(Setup {
        replicas: 3,
        wardens: 1,
        tries: 8,
        execs: 16,
        gap: 1000,
        turns: 20_000,
        policy: Policy::Rewind,
        tables: tables(alloc)?,
        firsts: firsts(alloc)?,
        progs: progs(alloc, seed, size)?,
        clients: clients(alloc, size)?,
        net: Net::Seeded {
            seed,
            late: 10,
            repeat: 10,
            hurry: 5,
        },
        plan: plan(alloc)?,
    })
}
