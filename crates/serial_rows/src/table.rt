ghost use Rattle.std.specs.Prelude.{◌≡◌, ◌∷◌, IfOk, OnOk, List as ListValue};
ghost use Rattle.txn_lang.specs.Keys.{Entry as EntryValue};
ghost use Rattle.txn_lang.specs.Program.{serial_of, map_after};
ghost use Rattle.serial_runs.specs.Execution.{run_of_serial};
ghost use Rattle.serial_rows.specs.Values.{AreValues};

use crate::keys::{add_key, add_keys};
use morty_base::{Key, List, NoMemory};
use report::ValueRow;
use serial_runs::{Entry, Map, SerialRun, run_on_map};
use std::alloc::Global;
use std::collections::BTreeSet;
use txn_lang::Prog;

/// A map, and the keys that it names.
#[derive(Drop)]
pub(crate) struct Table {
    cells: Map,
    keys: BTreeSet<Key>,
}

impl Table {
    ghost use Rattle.serial_rows.specs.Tables.{IsTable};

    /// The map of these entries. The first of those that are listed for a key counts.
    pub(crate) fn new(alloc: Global, firsts: &[Entry]) -> Result<Table, NoMemory>
        ensures { IfOk result (IsTable firsts.now) }
    {
        let mut table = Table {
            cells: Map::new(alloc),
            keys: BTreeSet::new(alloc),
        };
        let mut rest = firsts;
        'firsts: while let Some((last, front)) = rest.split_last() {
            table.add(*last)?;
            rest = front;
        }
        Ok(table)
    }

    // A key takes a value.
    fn add(&mut self, entry: Entry) -> Result<(), NoMemory>
        ensures { (m : ListValue EntryValue) → IsTable m self.old → OnOk result (IsTable (entry ∷ m) self.new) }
    {
        self.cells.insert(entry.key, entry.value)?;
        add_key(&mut self.keys, entry)
    }

    /// Runs a program on the map. The table goes on with the writes that it keeps.
    pub(crate) fn run(self, alloc: Global, prog: &Prog) -> Result<(SerialRun, Table), NoMemory>
        ensures { (m : ListValue EntryValue) → IsTable m self → IfOk result (λ x. (run_of_serial x.0 ≡ serial_of prog.now m) × IsTable (map_after m prog.now) x.1) }
    {
        let Table { cells, mut keys } = self;
        let (run, cells) = run_on_map(alloc, prog, cells)?;
        add_keys(&mut keys, run.kept())?;
        Ok((run, Table { cells, keys }))
    }

    /// The values by rising key.
    pub(crate) fn rows(&self, alloc: Global) -> Result<List<ValueRow>, NoMemory>
        ensures { (m : ListValue EntryValue) → IsTable m self.now → IfOk result (AreValues m) }
    {
        let mut rows = List::new(alloc);
        for key in self.keys.iter() {
            rows.push(ValueRow {
                key: *key,
                value: self.cells.get(*key),
            })?;
        }
        Ok(rows)
    }
}
