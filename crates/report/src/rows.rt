use morty_base::{Ending, Exec, Key, List};
use msg::Read;

/// What became of a transaction that has no committed execution: its last try is still going on, was aborted,
/// or none began.
#[derive(Clone, Copy, Debug, PartialEq, Eq)]
pub enum Left {
    Live,
    Aborted,
    Unbegun,
}

/// A committed execution, of try `attempt` of the transaction `txn` of its version's client, both counted from 1.
/// The reads are those that asked a replica, in order; `out` has the printed values.
#[derive(Drop)]
pub struct CommitRow {
    pub exec: Exec,
    pub txn: u32,
    pub attempt: u32,
    pub ending: Ending,
    pub reads: List<Read>,
    pub out: List<i64>,
}

/// Transaction `txn` of a client, both counted from 1, which has no committed execution.
#[derive(Clone, Copy, Debug, PartialEq, Eq)]
pub struct LeftRow {
    pub client: u32,
    pub txn: u32,
    pub state: Left,
}

/// The last value of a key.
#[derive(Clone, Copy, Debug, PartialEq, Eq)]
pub struct ValueRow {
    pub key: Key,
    pub value: i64,
}

/// What a run did: commits by rising version, left transactions by client and number, values by rising key, and
/// the number of events that moved the world.
#[derive(Drop)]
pub struct Rows {
    pub commits: List<CommitRow>,
    pub left: List<LeftRow>,
    pub values: List<ValueRow>,
    pub events: u64,
}
