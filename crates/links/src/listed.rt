ghost use Rattle.std.specs.Prelude.{◌≡◌};
ghost use Rattle.net_core.specs.declared.plan.LinkKind.TheVariants.{Listed};
ghost use Rattle.links.specs.Shown.{first_link};

use crate::ruled::RuledLink;
use morty_base::NoMemory;
use net_core::{Link, LinkKind, LinkPlan, Menu, Pick};
use std::alloc::Global;

/// A link that follows the entries of its plan one after another, and then delivers in order.
#[derive(Drop)]
pub struct ListedLink {
    link: RuledLink,
}

impl ListedLink {
    /// One for this slot, which picked nothing.
    pub fn new(alloc: Global, slot: u32) -> ListedLink
        ensures { ⟦<ListedLink as Link>⟧.state_of result ≡ first_link Listed slot }
    {
        ListedLink {
            link: RuledLink::new(alloc, LinkKind::Listed, slot),
        }
    }
}

impl Link for ListedLink {
    ghost state_of = { λ l. l.link };

    fn kind(&self) -> LinkKind {
        self.link.kind()
    }

    fn slot(&self) -> u32 {
        self.link.slot()
    }

    fn begin(&mut self, plan: LinkPlan) -> Result<(), NoMemory> {
        self.link.begin(plan);
        Ok(())
    }

    fn pick(&mut self, menu: &Menu<'_>) -> Result<Pick, NoMemory> {
        self.link.pick(menu)
    }
}
