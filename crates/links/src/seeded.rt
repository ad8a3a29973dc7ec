ghost use Rattle.std.specs.Prelude.{◌≡◌};
ghost use Rattle.net_core.specs.declared.plan.LinkKind.TheVariants.{Seeded};
ghost use Rattle.links.specs.Shown.{first_link};

use crate::ruled::RuledLink;
use morty_base::NoMemory;
use net_core::{Link, LinkKind, LinkPlan, Menu, Pick};
use std::alloc::Global;

/// A link that draws by the seed of its plan, and takes the items of its plan that are due.
#[derive(Drop)]
pub struct SeededLink {
    link: RuledLink,
}

impl SeededLink {
    /// One for this slot, which picked nothing.
    pub fn new(alloc: Global, slot: u32) -> SeededLink
        ensures { ⟦<SeededLink as Link>⟧.state_of result ≡ first_link Seeded slot }
    {
        SeededLink {
            link: RuledLink::new(alloc, LinkKind::Seeded, slot),
        }
    }
}

impl Link for SeededLink {
    ghost state_of = { λ l. l.link };

    fn kind(&self) -> LinkKind {
        self.link.kind()
    }

    fn slot(&self) -> u32 {
        self.link.slot()
    }

    fn begin(&mut self, plan: LinkPlan) -> Result<(), NoMemory> {
        self.link.begin(plan);
        Ok(())
    }

    fn pick(&mut self, menu: &Menu<'_>) -> Result<Pick, NoMemory> {
        self.link.pick(menu)
    }
}
