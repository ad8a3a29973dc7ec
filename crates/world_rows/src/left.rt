//! The transactions of which nothing is committed.

ghost use Rattle.std.specs.Prelude.{◌≡◌, ◌≤◌, ◌++◌, flat_map, length, IfOk, OnOk, List as ListValue};
ghost use Rattle.std.specs.BTreeSet.{contains};
ghost use Rattle.protocol.specs.Lists.{upto};
ghost use Rattle.protocol.specs.World.State.{World};
ghost use Rattle.protocol.specs.World.Committed.{CommittedExec};
ghost use Rattle.protocol_plans.specs.Scripted.{Scripted};
ghost use Rattle.world_rows.specs.Rows.{left_rows as left_rows_of};
ghost use Rattle.world_rows.specs.Left.{txn_cmp, AreDone, left_in, left_at};
ghost use Rattle.world_rows.specs.Report.{AreProgress};

use morty_base::{List, NoMemory};
use protocol::Fate;
use report::{Left, LeftRow};
use std::alloc::Global;
use std::collections::BTreeSet;

/// What a client tells: how many transactions it is given, how many of them it began, and what became of its last try.
#[derive(Clone, Copy, Debug, PartialEq, Eq)]
pub struct Progress {
    pub txns: u32,
    pub begun: u32,
    pub fate: Fate,
}

/// A transaction of a client, both counted from 1.
#[derive(Clone, Copy, PartialEq, Eq, PartialOrd, Ord)]
pub(crate) struct TxnName {
    pub(crate) client: u32,
    pub(crate) txn: u32,
}

/// What became of a transaction of which nothing is committed.
fn left_of(client: Progress, txn: u32) -> Left
    ensures { result ≡ left_in client txn }
{
    if client.begun < txn {
        return Left::Unbegun;
    }
    if txn == client.begun && client.fate != Fate::Aborted {
        return Left::Live;
    }
    Left::Aborted
}

// The row of a transaction, where nothing of it is committed.
fn add_txn(
    rows: &mut List<LeftRow>,
    done: &BTreeSet<TxnName>,
    client: Progress,
    name: TxnName,
) -> Result<(), NoMemory>
    ensures { OnOk result (rows.new ≡ rows.old ++ left_at done.now client name.client name.txn) }
{
    if done.contains(&name) {
        return Ok(());
    }
    rows.push(LeftRow {
        client: name.client,
        txn: name.txn,
        state: left_of(client, name.txn),
    })?;
    Ok(())
}

// The rows of a client, by the number of the transaction.
fn add_client(
    rows: &mut List<LeftRow>,
    done: &BTreeSet<TxnName>,
    progress: Progress,
    client: u32,
) -> Result<(), NoMemory>
    ensures { OnOk result (rows.new ≡ rows.old ++ flat_map (left_at done.now progress client) (upto progress.txns)) }
{
    for i in 0..progress.txns {
        let name = TxnName { client, txn: i + 1 };
        add_txn(rows, done, progress, name)?;
    }
    Ok(())
}

/// The transactions that are not done, by client and number.
pub(crate) fn left_rows(
    alloc: Global,
    done: &BTreeSet<TxnName>,
    clients: &[Progress],
) -> Result<List<LeftRow>, NoMemory>
    requires { length clients.now ≤ 4294967295 }
    ensures { (s : Scripted) (w : World) (cs : ListValue CommittedExec) → AreDone cs done.now → AreProgress s w clients.now → IfOk result (λ l. l ≡ left_rows_of s w cs) }
{
    let mut rows = List::new(alloc);
    for (i, progress) in clients.iter().enumerate() {
        add_client(&mut rows, done, *progress, (i + 1) as u32)?;
    }
    Ok(rows)
}
