ghost use Rattle.std.specs.Prelude.{◌≡◌, ◌+◌, ◌≤◌, ◌↔◌, Contains, IsTrue};
ghost use Rattle.morty_io.specs.Faults.{one_more};

use crate::traits::Failed;
use morty_base::List;

/// The calls of an object in memory, numbered from 1: how many were made, which fail, and the faults so far.
#[derive(Drop)]
pub(crate) struct Calls {
    made: u64,
    fails: List<u64>,
    faults: u64,
}

impl Calls {
    pub(crate) fn new(fails: List<u64>) -> Calls
        ensures { result ≡ record { made = 0; fails = fails; faults = 0 } }
    {
        Calls {
            made: 0,
            fails,
            faults: 0,
        }
    }

    pub(crate) fn made(&self) -> u64
        ensures { result ≡ self.now.made }
    {
        self.made
    }

    /// Counts a call, and says whether it is one of those that fail.
    pub(crate) fn begin(&mut self) -> bool
        ensures listed { IsTrue result ↔ Contains self.old.fails (self.old.made + 1) }
        ensures after { self.new ≡ record self.old { made = one_more self.old.made } }
    {
        let fails = is_next_listed(self.fails.as_slice(), self.made);
        self.made = self.made.saturating_add(1);
        fails
    }

    /// Counts a fault.
    pub(crate) fn fault(&mut self) -> Failed
        ensures after { self.new ≡ record self.old { faults = one_more self.old.faults } }
        ensures counted { self.old.faults ≤ self.new.faults }
    {
        self.faults = self.faults.saturating_add(1);
        Failed
    }
}

/// Where the count of calls stands still, the next number is past every u64.
fn is_next_listed(fails: &[u64], made: u64) -> bool
    ensures { IsTrue result ↔ Contains fails.now (made + 1) }
{
    match made.checked_add(1) {
        Some(number) => fails.contains(&number),
        None => false,
    }
}
