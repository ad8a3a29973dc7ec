/// How a node's turns ended.
#[derive(Clone, Copy, Debug, PartialEq, Eq)]
pub enum NodeEnd {
    /// The run ended, since every node rested.
    Quiet,
    /// The run ended, since a node had made its turns.
    Spent,
    /// The run ended, since the mail was full.
    Full,
    /// The node was stopped.
    Stopped,
    NoMemory,
}

/// How a node's turns ended, how many picks it made and how many of its segments were used.
#[derive(Clone, Copy, Debug, PartialEq, Eq)]
pub struct NodeOut {
    pub end: NodeEnd,
    pub turns: u64,
    pub rans: u64,
}
