ghost use Rattle.std.specs.Prelude.{◌≤◌};

use continuation::run_job;
use coordinator::{Coordinator, Rules, Txn2};
use flat_code::{Code, flatten};
use morty_base::{List, NoMemory, Steps};
use msg::Envelope;
use protocol::Fate;
use std::alloc::Global;
use std::marker::Model;
use txn_lang::Prog;

/// What became of the attempt, and the serial of the pending job, where one is pending.
pub(crate) type Mark = (Fate, Option<u64>);

/// A client with one transaction, and the code of its program.
#[derive(Drop)]
pub(crate) struct Client {
    code: Code,
    coordinator: Coordinator,
}

impl Model for Client {
    ghost use Rattle.std.specs.Prelude.{◌≡◌, false};
    ghost use Rattle.coordinator.specs.Coordinator.{is_broken};
    ghost use Rattle.client_tests.specs.Client.{Runs};

    ghost Value = { Unit {0} };

    ghost view = { λ c. tt };

    ghost invariant = { λ c. is_broken c.coordinator ≡ false → Runs c.code c.coordinator };
}

// One replica, two tries, a gap of 20, and at most so many executions of a version.
fn rules(execs: u32) -> Rules
    ensures replicas { result.replicas ≤ 5 }
    ensures tries { result.tries ≤ 8 }
    ensures execs { result.execs ≤ 64 }
    ensures gap { result.gap ≤ 1000000 }
{
    Rules {
        replicas: 1,
        tries: 2,
        execs: execs.min(64),
        gap: 20,
    }
}

impl Client {
    /// The client of this number, whose transaction may start at this time and run so many executions of a version.
    pub(crate) fn new(
        alloc: Global,
        number: u32,
        prog: &Prog,
        at: u32,
        execs: u32,
    ) -> Result<Client, NoMemory> {
        let code = flatten(alloc, prog)?;
        let txn = Txn2 {
            prog: 0,
            at: u64::from(at),
        };
        let txns = List::from_slice(alloc, &[txn])?;
        let coordinator = Coordinator::new(alloc, number, txns, rules(execs))?;
        Ok(Client { code, coordinator })
    }

    /// Begins the next attempt, where one can begin.
    pub(crate) fn go(&mut self, alloc: Global) -> Result<(), NoMemory> {
        if !self.coordinator.can_go() {
            return Ok(());
        }
        self.coordinator.go(alloc)?;
        Ok(())
    }

    /// Runs the pending job, where one is pending.
    pub(crate) fn run(&mut self, alloc: Global, out: &mut List<Envelope>) -> Result<(), NoMemory> {
        let Some(job) = self.coordinator.job(alloc)? else {
            return Ok(());
        };
        let codes = vec![in alloc; self.code.share()?]?;
        let done = run_job(alloc, codes.as_slice(), job, &mut Steps::<()>::new())?;
        self.coordinator.ran(alloc, &done, out)?;
        Ok(())
    }

    /// An envelope comes to it.
    pub(crate) fn handle(
        &mut self,
        alloc: Global,
        env: &Envelope,
        out: &mut List<Envelope>,
    ) -> Result<(), NoMemory> {
        self.coordinator.handle(alloc, env, out)?;
        Ok(())
    }

    pub(crate) fn mark(&self, alloc: Global) -> Result<Mark, NoMemory> {
        let serial = match self.coordinator.job(alloc)? {
            Some(job) => Some(job.serial),
            None => None,
        };
        Ok((self.coordinator.fate(), serial))
    }
}
