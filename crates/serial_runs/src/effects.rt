ghost use Rattle.std.specs.Prelude.{◌≡◌, ◌+◌, ◌<◌, [], ◌∷◌, ◌++◌, OnOk, IsSome};
ghost use Rattle.txn_lang.specs.declared.limits.TheConstants.{MOST_STEPS};
ghost use Rattle.txn_lang.specs.Keys.{entry};
ghost use Rattle.txn_lang.specs.Runs.{kept};
ghost use Rattle.serial_runs.specs.Execution.{run_of_replay, run_of_serial};

use crate::entry::Entry;
use crate::known::Known;
use morty_base::{Ending, Key, List, NoMemory};
use std::alloc::Global;

/// What an execution did: its outside reads, the writes that it made and the lines that it printed, in order, how many
/// statements it began, and what it knows of keys: its own writes and its reads.
#[derive(Debug, Drop)]
pub struct Effects {
    pub reads: List<Entry>,
    pub writes: List<Entry>,
    pub out: List<i64>,
    pub begun: u32,
    pub known: Known,
}

/// Where an execution stopped: it asks for a key, or it ended.
#[derive(Clone, Copy, Debug, PartialEq, Eq)]
pub enum Stop {
    Asks(Key),
    Ends(Ending),
}

/// An execution on a list of answers.
#[derive(Debug, Drop)]
pub struct Replay {
    pub did: Effects,
    pub stop: Stop,
}

/// An execution on a map, which has a value for each key.
#[derive(Debug, Drop)]
pub struct SerialRun {
    pub did: Effects,
    pub ending: Ending,
}

impl Effects {
    /// Nothing was done yet.
    pub fn new(alloc: Global) -> Effects
        ensures { result ≡ record { reads = []; writes = []; out = []; begun = 0; known = [] } }
    {
        Effects {
            reads: List::new(alloc),
            writes: List::new(alloc),
            out: List::new(alloc),
            begun: 0,
            known: Known::new(alloc),
        }
    }

    /// A statement was begun.
    pub fn begin(&mut self)
        requires { self.old.begun < MOST_STEPS }
        ensures { self.new ≡ record self.old { begun = self.old.begun + 1 } }
    {
        self.begun += 1;
    }

    /// An outside read gave this value.
    pub fn read(&mut self, key: Key, value: i64) -> Result<(), NoMemory>
        ensures { OnOk result (self.new ≡ record self.old { reads = self.old.reads ++ entry key value ∷ []; known = entry key value ∷ self.old.known }) }
    {
        let entry = Entry { key, value };
        self.reads.push(entry)?;
        self.known.add(entry)
    }

    /// A write was made.
    pub fn write(&mut self, key: Key, value: i64) -> Result<(), NoMemory>
        ensures { OnOk result (self.new ≡ record self.old { writes = self.old.writes ++ entry key value ∷ []; known = entry key value ∷ self.old.known }) }
    {
        let entry = Entry { key, value };
        self.writes.push(entry)?;
        self.known.add(entry)
    }

    /// A line was printed.
    pub fn print(&mut self, line: i64) -> Result<(), NoMemory>
        ensures { OnOk result (self.new ≡ record self.old { out = self.old.out ++ line ∷ [] }) }
    {
        self.out.push(line)
    }
}

impl Replay {
    /// An execution that ended, as each on a map does.
    pub fn into_serial(self) -> SerialRun
        requires { IsSome (run_of_replay self).ending }
        ensures { run_of_serial result ≡ run_of_replay self }
    {
        let Replay { did, stop } = self;
        match stop {
            Stop::Ends(ending) => SerialRun { did, ending },
            Stop::Asks(_) => unreachable!(),
        }
    }
}

impl SerialRun {
    /// The writes that are kept: those of an execution that is done.
    pub fn kept(&self) -> &[Entry]
        ensures { result.now ≡ kept (run_of_serial self.now) }
    {
        match self.ending {
            Ending::Done => self.did.writes.as_slice(),
            Ending::Abort | Ending::Overflow | Ending::ZeroDivisor => &[],
        }
    }
}
