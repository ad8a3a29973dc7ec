ghost use Rattle.std.specs.Prelude.{◌≡◌, ◌++◌, IfOk, OnOk, OnErr, flat_map};
ghost use Rattle.protocol.specs.Words.{Client};
ghost use Rattle.protocol.specs.World.Events.{to_all};

use crate::execution::Execution;
use morty_base::{Exec, List, NoMemory, NodeId};
use msg::{Body, Choice, Content, Envelope};
use protocol::{Fate, send_to_all};
use std::alloc::Global;
use vote_tally::Tally;

/// What a script says to each client: how many replicas there are, how often a transaction is tried and a version
/// executed, and by how much each try is later.
#[derive(Clone, Copy, Debug, PartialEq, Eq)]
pub struct Rules {
    pub replicas: u32,
    pub tries: u32,
    pub execs: u32,
    pub gap: u64,
}

/// A transaction: the number of its program, and when it starts.
#[derive(Clone, Copy, Debug, PartialEq, Eq)]
pub struct Txn2 {
    pub prog: u16,
    pub at: u64,
}

/// An attempt: which transaction, which try of it, both from 1, and its last execution.
#[derive(Clone, Copy, Debug, PartialEq, Eq)]
pub struct Attempt {
    pub txn: u32,
    pub attempt: u32,
    pub exec: Exec,
}

// What a client is given.
#[derive(Debug, Drop)]
pub(crate) struct Plan {
    pub(crate) client: u32,
    pub(crate) rules: Rules,
    pub(crate) txns: List<Txn2>,
}

impl Plan {
    // Each body goes to all replicas.
    fn parcels(&self, alloc: Global, bodies: &[Body]) -> Result<List<Envelope>, NoMemory>
        ensures { IfOk result (λ l. l ≡ flat_map (to_all self.now.rules.replicas (Client self.now.client)) bodies.now) }
    {
        let mut sent = List::new(alloc);
        let from = NodeId::Client(self.client);
        for body in bodies {
            send_to_all(alloc, self.rules.replicas, from, body, &mut sent)?;
        }
        Ok(sent)
    }

    /// Sends the bodies, each to all replicas, behind what is there.
    pub(crate) fn send(
        &self,
        alloc: Global,
        bodies: &[Body],
        out: &mut List<Envelope>,
    ) -> Result<(), NoMemory>
        ensures ok { OnOk result (out.new ≡ out.old ++ flat_map (to_all self.now.rules.replicas (Client self.now.client)) bodies.now) }
        ensures err { OnErr result (out.new ≡ out.old) }
    {
        let sent = self.parcels(alloc, bodies)?;
        out.append(sent)?;
        Ok(())
    }
}

// How far a client has come: how many transactions it began, the try and execution of the last one, the serial of the
// last job, and what became of the attempt.
#[derive(Clone, Copy, Debug, PartialEq, Eq)]
pub(crate) struct Course {
    pub(crate) begun: u32,
    pub(crate) attempt: u32,
    pub(crate) exec: Exec,
    pub(crate) serial: u64,
    pub(crate) fate: Fate,
}

// What the client proposed in view 0, and who accepted it.
#[derive(Debug, Drop)]
pub(crate) struct Proposed {
    pub(crate) choice: Choice,
    pub(crate) accepts: List<u32>,
}

// A prepared execution: its content, the votes, and what the client proposed.
#[derive(Debug, Drop)]
pub(crate) struct Ballot {
    pub(crate) content: Content,
    pub(crate) tally: Tally,
    pub(crate) proposal: Option<Proposed>,
}

// Between attempts; running, once a segment of this execution was given back or not; prepared.
#[derive(Debug, Drop)]
pub(crate) enum Stage {
    Between,
    Running { given: bool },
    Prepared(Ballot),
}

// What a client remembers.
#[derive(Debug, Drop)]
pub(crate) struct Memory {
    pub(crate) plan: Plan,
    pub(crate) course: Course,
    pub(crate) execution: Execution,
    pub(crate) stage: Stage,
}
