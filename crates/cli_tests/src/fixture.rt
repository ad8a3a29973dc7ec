//! Calls of the program over memory.

use crate::odd_links::{Habit, OddLink};
use links::{FairLink, ListedLink, SeededLink};
use morty_base::{List, NoMemory};
use morty_io::{MemSink, MemSource};
use msg::Event;
use net_core::Link;
use node_future::{Gate, OpenGate};
use script_cli::{run_cli, run_here, wants_workers};
use std::alloc::{AllocGlobal, Global};
use std::random::RandomSource;
use std::sync::Wait;
use std::thread::Threads;

/// The script that adds 1 to a cell that holds 4.
pub const SCRIPT: &[u8] = b"morty 1 replicas 1 table x first x[1] 4 \
    program inc { read a x[1]; write x[1] a + 1; print a } client 1 { inc at 10 } end";

/// Its report.
pub const REPORT: &[u8] = b"commit 10.1 txn 1.1 try 1 exec 0 end done\n\
    read x[1] 4\n\
    out 4\n\
    value x[1] 5\n\
    ended quiet events 9\n";

/// Its canonical text.
pub const PRINTED: &[u8] = b"morty 1\n\
    replicas 1\n\
    wardens 0\n\
    tries 3\n\
    execs 16\n\
    gap 1\n\
    turns 5000\n\
    policy rewind\n\
    table x\n\
    first x[1] 4\n\
    program inc { read a x[1]; write x[1] a + 1; print a }\n\
    client 1 { inc at 10 }\n\
    net fair\n\
    end\n";

/// The same transaction, of two clients.
pub const TWO: &[u8] = b"morty 1 replicas 1 table x first x[1] 4 \
    program inc { read a x[1]; write x[1] a + 1; print a } \
    client 1 { inc at 10 } client 2 { inc at 20 } end";

/// The source's and the sink's calls that fail, by number from 1, and the most that one write takes.
#[derive(Clone, Copy)]
pub struct Outside {
    pub reads: &'static [u64],
    pub most: usize,
    pub writes: &'static [u64],
}

/// An outside where nothing fails.
pub const SOUND: Outside = Outside {
    reads: &[],
    most: 65536,
    writes: &[],
};

/// A source that cannot be read: nothing is read of it.
pub const BLIND: Outside = Outside {
    reads: &[1],
    ..SOUND
};

/// The links that are handed in.
#[derive(Clone, Copy)]
pub enum Handed {
    /// Those of the program, of each kind, for so many slots.
    Slots(u32),
    /// One that picks what is not there for the client of slot 0, and a fair one for the replica of slot 1.
    Still,
    /// Three that pick the newest envelope first, and each twice.
    NewestTwice,
}

/// Links for as many slots as a script may need.
pub const EACH_SLOT: Handed = Handed::Slots(23);

pub const BAD_COMMAND: &[u8] = b"morty: bad command line\n";

pub const TOO_LONG: &[u8] = b"morty: script too long\n";

/// What a call of the program answered, and what its sink took.
#[derive(Drop)]
pub struct Answer {
    pub status: u8,
    pub taken: List<u8>,
    pub journal: Vec<Event>,
    /// How many links came back.
    pub links: usize,
}

/// Words in lists of their own.
pub fn listed(alloc: Global, words: &[&[u8]]) -> Result<List<List<u8>>, NoMemory> {
    let mut list = List::new(alloc);
    for word in words {
        list.push(List::from_slice(alloc, *word)?)?;
    }
    Ok(list)
}

/// Calls the program as `main` does, over memory.
pub fn call<R>(
    rt: &R,
    alloc: Global,
    words: &[List<u8>],
    text: &[u8],
    outside: &Outside,
    handed: &Handed,
) -> Result<Answer, NoMemory>
where
    R: Threads + Wait + Sync + RandomSource + AllocGlobal,
{
    call_by(rt, alloc, words, text, outside, handed, false, &OpenGate)
}

/// The same with a gate, or in this thread alone where the words allow it.
pub fn call_by<G, R>(
    rt: &R,
    alloc: Global,
    words: &[List<u8>],
    text: &[u8],
    outside: &Outside,
    handed: &Handed,
    here: bool,
    gate: &G,
) -> Result<Answer, NoMemory>
where
    G: Gate + Sync + 'static,
    R: Threads + Wait + Sync + RandomSource + AllocGlobal,
{
    let mut links: Vec<Box<dyn Link + Send>> = Vec::new(alloc);
    match handed {
        Handed::Slots(slots) => {
            for slot in 0..*slots {
                links.push(Box::new(alloc, FairLink::new(alloc, slot))?)?;
                links.push(Box::new(alloc, ListedLink::new(alloc, slot))?)?;
                links.push(Box::new(alloc, SeededLink::new(alloc, slot))?)?;
            }
        }
        Handed::Still => {
            links.push(Box::new(alloc, OddLink::new(alloc, 0, Habit::Nowhere))?)?;
            links.push(Box::new(alloc, FairLink::new(alloc, 1))?)?;
        }
        Handed::NewestTwice => {
            for slot in 0..3 {
                links.push(Box::new(alloc, OddLink::new(alloc, slot, Habit::NewestTwice))?)?;
            }
        }
    }
    let mut src = MemSource::new(
        List::from_slice(alloc, text)?,
        List::from_slice(alloc, outside.reads)?,
    );
    let mut out = MemSink::new(
        alloc,
        outside.most.max(1),
        List::from_slice(alloc, outside.writes)?,
    )?;
    let exit = if here && !wants_workers(words) {
        run_here(alloc, words, &mut src, &mut out, links)
    } else {
        run_cli(rt, alloc, words, &mut src, &mut out, links, gate)
    };
    Ok(Answer {
        status: exit.status,
        taken: List::from_slice(alloc, out.taken())?,
        journal: exit.journal,
        links: exit.links.len(),
    })
}
