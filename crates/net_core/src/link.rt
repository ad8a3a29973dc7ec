ghost use Rattle.std.specs.Prelude.{◌≡◌, OnOk, OnErr, IfOk};

use crate::{LinkKind, LinkPlan};
use morty_base::{Exec, List, NoMemory};
use msg::Pick;

/// What a node's link is shown before it picks.
#[derive(Clone, Copy)]
pub struct Menu<'a> {
    /// How many events moved the machine.
    pub now: u64,
    /// Whether Go is enabled.
    pub go: bool,
    /// Whether Hurry is enabled.
    pub hurry: bool,
    /// The numbers of the node's undelivered envelopes, rising.
    pub fresh: &'a [u64],
    /// Those of its delivered ones, in the order of first delivery.
    pub old: &'a [u64],
    /// For a warden, an execution that waits for one.
    pub stuck: Option<Exec>,
}

/// All that a link's next pick depends on, besides its kind and the menu.
#[derive(Debug, Drop)]
pub struct LinkMind {
    pub slot: u32,
    /// What the link was begun with.
    pub plan: LinkPlan,
    /// The places, from 0, of the plan's items at a number of events that were used, in order of use.
    pub used: List<u64>,
    /// How many calls the plan's entries have served. It stays at the greatest number once there.
    pub place: u64,
    /// What was picked to recover, in order of picking.
    pub recovered: List<Exec>,
    /// The envelopes that became late, in the order in which they did.
    pub late: List<u64>,
    /// The state of the generator.
    pub state: u64,
}

/// What picks for one node. A link that tells no mind may pick anything.
pub trait Link: Drop {
    ghost use Rattle.net_core.specs.Replay.{shown};
    ghost use Rattle.net_core.specs.Ruled.{LinkState, begun, IsPicked};

    // Its kind, its slot, all that it picked and, where it tells it, its mind.
    ghost state_of: { Self → LinkState };

    fn kind(&self) -> LinkKind
        ensures { result ≡ (state_of self.now).kind };

    fn slot(&self) -> u32
        ensures { result ≡ (state_of self.now).slot };

    /// Begins the link's part in a run.
    fn begin(&mut self, plan: LinkPlan) -> Result<(), NoMemory>
        ensures ok { OnOk result (state_of self.new ≡ begun plan (state_of self.old)) }
        ensures err { OnErr result (state_of self.new ≡ state_of self.old) };

    /// What the node does next. It need not be enabled.
    fn pick(&mut self, menu: &Menu<'_>) -> Result<Pick, NoMemory>
        ensures ok { IfOk result (λ p. IsPicked (shown menu.entry.now) p (state_of self.old) (state_of self.new)) }
        ensures err { OnErr result (state_of self.new ≡ state_of self.old) };
}

/// A boxed link is a link.
impl Link for Box<dyn Link + Send> {
    ghost state_of = { λ b. (Link-box b).state_of b.value };

    fn kind(&self) -> LinkKind {
        (**self).kind()
    }

    fn slot(&self) -> u32 {
        (**self).slot()
    }

    fn begin(&mut self, plan: LinkPlan) -> Result<(), NoMemory> {
        (**self).begin(plan)
    }

    fn pick(&mut self, menu: &Menu<'_>) -> Result<Pick, NoMemory> {
        (**self).pick(menu)
    }
}
