ghost use Rattle.std.specs.Prelude.{◌≡◌, IfOk, map};
ghost use Rattle.serial_runs.specs.Execution.{run_of_serial};
ghost use Rattle.serial_rows.specs.Rows.{read_row, item_of, commit_row};

use crate::item::Versioned;
use morty_base::{Exec, List, NoMemory, Version, Wid};
use msg::Read;
use report::CommitRow;
use serial_runs::{Entry, SerialRun};
use std::alloc::Global;

// The name of the write that gave each key its first value.
const FIRST_WID: Wid = Wid {
    ver: Version { ts: 0, client: 0 },
    eid: 0,
    seq: 0,
};

// The reads of a run. Each has the write name of a first value.
fn read_rows(alloc: Global, reads: &[Entry]) -> Result<List<Read>, NoMemory>
    ensures { IfOk result (λ rows. rows ≡ map read_row reads.now) }
{
    let mut rows = List::new(alloc);
    for read in reads {
        rows.push(Read {
            key: read.key,
            wid: FIRST_WID,
            value: read.value,
        })?;
    }
    Ok(rows)
}

/// The row of a program's run at its version.
pub(crate) fn commit_row(
    alloc: Global,
    item: &Versioned<'_>,
    run: SerialRun,
) -> Result<CommitRow, NoMemory>
    ensures { IfOk result (λ row. row ≡ commit_row (item_of item.now) (run_of_serial run)) }
{
    let reads = read_rows(alloc, run.did.reads.as_slice())?;
    Ok(CommitRow {
        exec: Exec {
            ver: item.ver,
            eid: 0,
        },
        txn: item.txn,
        attempt: 1,
        ending: run.ending,
        reads,
        out: run.did.out,
    })
}
