use morty_base::{Key, List};
use net_core::PlanItem;
use txn_lang::Prog;

/// What a client does with a program that missed a write: it runs it again from the read, or aborts the attempt.
#[derive(Clone, Copy, Debug, PartialEq, Eq)]
pub enum Policy {
    Rewind,
    Abort,
}

/// A first value of a key.
#[derive(Clone, Copy, Debug, PartialEq, Eq)]
pub struct First {
    pub key: Key,
    pub value: i64,
}

/// A program, and its name.
#[derive(Debug, Drop)]
pub struct NamedProg {
    pub name: List<u8>,
    pub prog: Prog,
}

/// A transaction: the place of its program among the programs, from 0, and the time at which it may start.
#[derive(Clone, Copy, Debug, PartialEq, Eq)]
pub struct Txn {
    pub prog: u16,
    pub at: u64,
}

/// How the links of all nodes pick: by the fair rule, by lists, or by draws, of which `late`, `repeat` and `hurry` are
/// percentages.
#[derive(Clone, Copy, Debug, PartialEq, Eq)]
pub enum Net {
    Fair,
    Listed,
    Seeded {
        seed: u64,
        late: u32,
        repeat: u32,
        hurry: u32,
    },
}

/// What a script says. Tables and programs are counted from 0, clients from 1, each in text order.
#[derive(Debug, Drop)]
pub struct Setup {
    pub replicas: u32,
    pub wardens: u32,
    pub tries: u32,
    pub execs: u32,
    pub gap: u64,
    pub turns: u32,
    pub policy: Policy,
    pub tables: List<List<u8>>,
    pub firsts: List<First>,
    pub progs: List<NamedProg>,
    pub clients: List<List<Txn>>,
    pub net: Net,
    pub plan: List<PlanItem>,
}
