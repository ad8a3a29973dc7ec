ghost use Rattle.std.specs.Prelude.{◌≡◌};

use morty_base::NoMemory;
use msg::Pick;
use net_core::{Link, LinkKind, LinkPlan, Menu};
use std::alloc::Global;

/// How a link of these tests picks.
#[derive(Clone, Copy)]
pub enum Habit {
    /// An envelope that is never there.
    Nowhere,
    /// The newest envelope first, and each a second time.
    NewestTwice,
}

/// A link that tells no mind, for scripts with a fair net.
#[derive(Drop)]
pub struct OddLink {
    slot: u32,
    habit: Habit,
    /// What is delivered a second time.
    again: Option<u64>,
    picks: Vec<Pick>,
}

impl OddLink {
    pub fn new(alloc: Global, slot: u32, habit: Habit) -> OddLink {
        OddLink {
            slot,
            habit,
            again: None,
            picks: Vec::new(alloc),
        }
    }
}

/// What the newest envelopes first, and each twice, makes of a menu, and what is to be delivered again behind it.
fn newest_twice(again: Option<u64>, menu: &Menu<'_>) -> (Pick, Option<u64>) {
    if let Some(number) = again {
        return (Pick::Deliver(number), None);
    }
    match menu.fresh.last() {
        Some(number) => (Pick::Deliver(*number), Some(*number)),
        None => {
            let pick = if menu.go { Pick::Go } else { Pick::Idle };
            (pick, None)
        }
    }
}

impl Link for OddLink {
    ghost use Rattle.cli_tests.specs.OddLinks.{mindless};

    ghost state_of = { λ l. mindless l.slot l.picks.items };

    fn kind(&self) -> LinkKind {
        LinkKind::Fair
    }

    fn slot(&self) -> u32 {
        self.slot
    }

    fn begin(&mut self, plan: LinkPlan) -> Result<(), NoMemory> {
        let _items = plan.items;
        Ok(())
    }

    fn pick(&mut self, menu: &Menu<'_>) -> Result<Pick, NoMemory> {
        self.picks.reserve(1)?;
        let (pick, again) = match self.habit {
            Habit::Nowhere => (Pick::Deliver(999), None),
            Habit::NewestTwice => newest_twice(self.again, menu),
        };
        self.again = again;
        self.picks.push_reserved(pick);
        Ok(pick)
    }
}
