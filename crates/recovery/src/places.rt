ghost use Rattle.std.specs.Prelude.{◌≡◌, [], ◌∷◌, ◌++◌, cond, OnOk, OnErr};
ghost use Rattle.morty_base.specs.declared.names.Exec.{Exec as ExecValue};
ghost use Rattle.morty_base.specs.Names.{same_exec};

use morty_base::{Exec, List, NoMemory};
use std::alloc::Global;
use std::collections::BTreeMap;

/// Where what concerns an execution stands in a list, in rising order, found by a search.
#[derive(Drop)]
pub struct Places {
    by_exec: BTreeMap<Exec, List<usize>>,
}

impl Places {
    ghost use Rattle.recovery.specs.Places.{places_at};

    pub fn new(alloc: Global) -> Places
        ensures { (x : ExecValue) → places_at result x ≡ [] }
    {
        Places {
            by_exec: BTreeMap::new(alloc),
        }
    }

    pub fn of(&self, exec: Exec) -> &[usize]
        ensures { result.now ≡ places_at self.now exec }
    {
        match self.by_exec.get(&exec) {
            None => &[],
            Some(places) => places.as_slice(),
        }
    }

    /// One more place, past those that are there.
    pub fn add(&mut self, alloc: Global, exec: Exec, place: usize) -> Result<(), NoMemory>
        ensures ok { OnOk result ((x : ExecValue) → places_at self.new x ≡ places_at self.old x ++ cond (same_exec x exec) (place ∷ []) []) }
        ensures err { OnErr result ((x : ExecValue) → places_at self.new x ≡ places_at self.old x) }
    {
        if let Some(places) = self.by_exec.get_mut(&exec) {
            return places.push(place);
        }
        let mut places = List::new(alloc);
        places.push(place)?;
        self.by_exec.insert(exec, places)?;
        Ok(())
    }
}
