ghost use Rattle.std.specs.Prelude.{◌≡◌, ℕ, ◌+◌};
ghost use Rattle.std.specs.Borrow.{ftrue};

use std::marker::{Model, PhantomData, Send};

/// What a count of steps is of. Its type tells counts apart.
pub trait Ledger: Send {}

/// The ledger of a count that nobody reads.
impl Ledger for () {}

/// A number that only contracts see. It takes no bytes.
#[derive(Drop)]
struct Count {
    ghost number: { ℕ },
}

impl Model for Count {
    ghost also_owns = { λ _. ftrue };
}

// It owns nothing.
unsafe impl Send for Count {}

impl Count {
    fn zero() -> Count
        ensures { result.number ≡ 0 }
    {
        Count {}
    }

    fn next(&self) -> Count
        ensures { result.number ≡ self.now.number + 1 }
    {
        Count {}
    }
}

/// How many steps were taken. Contracts see the number; it takes no bytes, and counting does nothing when it runs.
pub struct Steps<L: Ledger> {
    count: Count,
    of: PhantomData<L>,
}

impl<L: Ledger> Model for Steps<L> {
    ghost use Rattle.std.specs.Prelude.{ℕ};

    ghost Value = { ℕ };

    ghost view = { λ s. s.count.number };
}

impl<L: Ledger> Steps<L> {
    pub fn new() -> Steps<L>
        ensures { result ≡ 0 }
    {
        Steps {
            count: Count::zero(),
            of: PhantomData,
        }
    }

    /// Counts one step.
    pub fn tick(&mut self)
        ensures { self.new ≡ self.old + 1 }
    {
        self.count = self.count.next();
    }
}

impl<L: Ledger> Drop for Steps<L> {
    fn drop(self) {
        let Steps { count: _, of: _ } = self;
    }
}

const _: () = prove!(size_of::<Steps<()>>() == 0);
