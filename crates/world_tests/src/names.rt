//! Nodes, versions and executions that the runs are told with.

use morty_base::{Exec, NodeId, Version};

pub(crate) const CLIENT1: NodeId = NodeId::Client(1);

pub(crate) const CLIENT2: NodeId = NodeId::Client(2);

pub(crate) const CLIENT3: NodeId = NodeId::Client(3);

pub(crate) const REPLICA1: NodeId = NodeId::Replica(1);

pub(crate) const REPLICA2: NodeId = NodeId::Replica(2);

pub(crate) const REPLICA3: NodeId = NodeId::Replica(3);

pub(crate) const WARDEN1: NodeId = NodeId::Warden(1);

pub(crate) const WARDEN2: NodeId = NodeId::Warden(2);

/// Execution 0 of the version of time 10.
pub(crate) const E10: Exec = Exec {
    ver: Version { ts: 10, client: 1 },
    eid: 0,
};

/// The version of first values, which is never dropped.
pub(crate) const CUT0: Version = Version { ts: 0, client: 0 };

/// A version that is dropped, and a later one.
pub(crate) const CUT20: Version = Version { ts: 20, client: 0 };

pub(crate) const CUT30: Version = Version { ts: 30, client: 0 };
