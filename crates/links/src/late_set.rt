//! The front of a list of late envelopes as a set, so that a late envelope is found without a search through the list.

ghost use Rattle.std.specs.Prelude.{◌≡◌, nat_eq, [], OnOk};
ghost use Rattle.std.specs.HashSet.{contains};
ghost use Rattle.links.specs.LateSet.{HasFront, HasAll};

use morty_base::NoMemory;
use std::alloc::Global;
use std::collections::HashSet;

/// The places in the front of a list, as many as it counts.
#[derive(Drop)]
pub struct LateSet {
    places: HashSet<u64>,
    count: usize,
}

impl LateSet {
    /// The front of a list of none.
    pub fn new(alloc: Global) -> LateSet
        ensures { HasFront [] result }
    {
        LateSet {
            places: HashSet::new(alloc),
            count: 0,
        }
    }

    /// Whether the place is in the front.
    pub fn has(&self, place: u64) -> bool
        ensures { result ≡ contains nat_eq self.now.places place }
    {
        self.places.contains(&place)
    }

    /// Takes in the rest of the list.
    pub fn follow(&mut self, late: &[u64]) -> Result<(), NoMemory>
        requires { HasFront late.now self.old }
        ensures front { HasFront late.now self.new }
        ensures all { OnOk result (HasAll late.now self.new) }
    {
        while self.count < late.len() {
            self.places.insert(late[self.count])?;
            self.count += 1;
        }
        Ok(())
    }
}
