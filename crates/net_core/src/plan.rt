use morty_base::{List, NodeId};
use msg::Pick;

/// Which rule a link picks by.
#[derive(Clone, Copy, Debug, PartialEq, Eq)]
pub enum LinkKind {
    Fair,
    Listed,
    Seeded,
}

/// A plan item of a script, and the node that it is for.
#[derive(Clone, Copy, Debug, PartialEq, Eq)]
pub struct PlanItem {
    pub node: NodeId,
    pub what: PlanWhat,
}

/// What a plan item says: a pick once `now` events have moved the world; or, in the list of a node, calls that pick
/// nothing, calls that pick by the fair rule, calls that deliver the newest fresh envelope, each so many, or one pick.
#[derive(Clone, Copy, Debug, PartialEq, Eq)]
pub enum PlanWhat {
    At { now: u64, pick: Pick },
    Wait(u32),
    Next(u32),
    Newest(u32),
    One(Pick),
}

/// What a link is begun with: the numbers of a seeded net, and the items for its node in text order.
#[derive(Debug, Drop)]
pub struct LinkPlan {
    pub net_seed: u64,
    pub late: u32,
    pub repeat: u32,
    pub hurry: u32,
    pub items: List<PlanWhat>,
}
