/// A timestamp of multiversion timestamp ordering, compared by `ts` and then `client`. Version 0.0 is that of
/// first values.
#[derive(Clone, Copy, Debug)]
#[derive_where(PartialEq, Eq, PartialOrd, Ord, Hash)]
pub struct Version {
    pub ts: u64,
    pub client: u32,
}

/// An execution: the attempt at a version, counted from 0.
#[derive(Clone, Copy, Debug, PartialEq, Eq, PartialOrd, Ord, Hash)]
pub struct Exec {
    pub ver: Version,
    pub eid: u32,
}

/// The name of a write: its execution, and its place from 1 in the list of that execution's writes. A first
/// value has the name (0.0, 0, 0).
#[derive(Clone, Copy, Debug, PartialEq, Eq, PartialOrd, Ord, Hash)]
pub struct Wid {
    pub ver: Version,
    pub eid: u32,
    pub seq: u32,
}

/// A cell of a table. Tables are counted from 0.
#[derive(Clone, Copy, Debug, PartialEq, Eq, PartialOrd, Ord, Hash)]
pub struct Key {
    pub table: u16,
    pub index: i64,
}

/// A node, each kind counted from 1.
#[derive(Clone, Copy, Debug, PartialEq, Eq, PartialOrd, Ord, Hash)]
pub enum NodeId {
    Client(u32),
    Replica(u32),
    Warden(u32),
}

/// How an execution of a program ended. All but `Done` drop its writes.
#[derive(Clone, Copy, Debug, PartialEq, Eq, PartialOrd, Ord, Hash)]
pub enum Ending {
    Done,
    Abort,
    Overflow,
    ZeroDivisor,
}

/// How a run ended: nothing was left to do, a node made all its turns, or the mail is full.
#[derive(Clone, Copy, Debug, PartialEq, Eq, PartialOrd, Ord, Hash)]
pub enum Ended {
    Quiet,
    Spent,
    Full,
}
