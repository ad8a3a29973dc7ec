ghost use Rattle.std.specs.Prelude.{◌≡◌, ◌++◌, map, IfOk, OnOk};
ghost use Rattle.exec_log.specs.Entries.{read_of, write_entries};

use crate::read::LogRead;
use continuation::Next;
use flat_code::Write2;
use morty_base::{List, NoMemory};
use msg::{Read, Write};
use std::alloc::Global;

pub(crate) fn copy_next(alloc: Global, next: &Next) -> Result<Next, NoMemory>
    ensures { IfOk result (λ copy. copy ≡ next.now) }
{
    match next {
        Next::Asks { key, cont } => {
            let cont = cont.copy(alloc)?;
            Ok(Next::Asks { key: *key, cont })
        }
        Next::Ends(how) => Ok(Next::Ends(*how)),
    }
}

// Adds the writes of a segment.
pub(crate) fn add_writes(writes: &mut Vec<Write>, wrote: &[Write2]) -> Result<(), NoMemory>
    ensures { OnOk result (write_entries writes.new.items ≡ write_entries writes.old.items ++ wrote.now) }
{
    for write in wrote {
        writes.push(Write {
            key: write.key,
            value: write.value,
        })?;
    }
    Ok(())
}

// The reads without what is sure of them.
pub(crate) fn content_reads(alloc: Global, reads: &[LogRead]) -> Result<List<Read>, NoMemory>
    ensures { IfOk result (λ copy. copy ≡ map read_of reads.now) }
{
    let mut copy = List::new(alloc);
    for read in reads {
        copy.push(Read {
            key: read.key,
            wid: read.wid,
            value: read.value,
        })?;
    }
    Ok(copy)
}
