//! What is gathered of committed executions, taken in rising order.

ghost use Rattle.std.specs.Prelude.{◌≡◌, ◌≤◌, ℕ, [], ◌∷◌, ◌++◌, length, IfOk, OnOk, List as ListValue};
ghost use Rattle.protocol.specs.World.State.{World};
ghost use Rattle.protocol.specs.World.Committed.{CommittedExec};
ghost use Rattle.protocol.specs.declared.First2.{First2 as FirstValue};
ghost use Rattle.protocol_plans.specs.Scripted.{Scripted};
ghost use Rattle.world_rows.specs.Report.{AreProgress, rows_with};

use crate::left::{Progress, TxnName, left_rows};
use crate::values::ValueTable;
use morty_base::{Exec, List, NoMemory};
use msg::Content;
use protocol::First2;
use report::{CommitRow, Rows};
use std::alloc::Global;
use std::collections::BTreeSet;

/// A committed execution, with what it did, and the try of a transaction that it is one of.
#[derive(Drop)]
pub(crate) struct Committed {
    pub(crate) exec: Exec,
    pub(crate) content: Content,
    pub(crate) txn: u32,
    pub(crate) attempt: u32,
}

/// The rows of committed executions, the transactions that they are of, and the values that their writes leave.
#[derive(Drop)]
pub(crate) struct Outcome {
    commits: List<CommitRow>,
    done: BTreeSet<TxnName>,
    values: ValueTable,
}

impl Outcome {
    ghost use Rattle.world_rows.specs.Outcome.{HasOutcome, committed_of};

    /// Nothing is committed.
    pub(crate) fn new(alloc: Global, firsts: &[First2]) -> Result<Outcome, NoMemory>
        ensures { IfOk result (HasOutcome firsts.now []) }
    {
        let values = ValueTable::new(alloc, firsts)?;
        Ok(Outcome {
            commits: List::new(alloc),
            done: BTreeSet::new(alloc),
            values,
        })
    }

    /// One more committed execution, later than those before.
    pub(crate) fn add(&mut self, committed: Committed) -> Result<(), NoMemory>
        ensures { (firsts : ListValue FirstValue) (cs : ListValue CommittedExec) → HasOutcome firsts cs self.old → OnOk result (HasOutcome firsts (cs ++ committed_of committed ∷ []) self.new) }
    {
        let Committed {
            exec,
            content,
            txn,
            attempt,
        } = committed;
        let Content {
            reads,
            writes,
            out,
            ending,
        } = content;
        self.done.insert(TxnName {
            client: exec.ver.client,
            txn,
        })?;
        self.values.write(writes.as_slice())?;
        self.commits.push(CommitRow {
            exec,
            txn,
            attempt,
            ending,
            reads,
            out,
        })?;
        Ok(())
    }

    /// What is reported where nothing else is committed.
    pub(crate) fn rows(
        self,
        alloc: Global,
        clients: &[Progress],
        events: u64,
    ) -> Result<Rows, NoMemory>
        requires { length clients.now ≤ 4294967295 }
        ensures { (s : Scripted) (w : World) (cs : ListValue CommittedExec) → HasOutcome s.firsts cs self → AreProgress s w clients.now → IfOk result (λ r. r ≡ rows_with s w cs events) }
    {
        let left = left_rows(alloc, &self.done, clients)?;
        let values = self.values.rows(alloc)?;
        let Outcome {
            commits,
            done: _,
            values: _,
        } = self;
        Ok(Rows {
            commits,
            left,
            values,
            events,
        })
    }
}
