//! Nodes, names and contents that rows are told with.
//!
//! A name such as `E20_1` is execution 1 of the version of time 20, and `WID20_1` its first write.

use crate::bodies::Made;
use morty_base::{Ending, Exec, Key, NodeId, Version, Wid};
use msg::{Accept, BaseEntry, Choice, Read, Write};

/// The key x[1], whose first value is 4.
pub(crate) const X: Key = Key { table: 0, index: 1 };

pub(crate) const Y: Key = Key { table: 0, index: 2 };

pub(crate) const CLIENT1: NodeId = NodeId::Client(1);

pub(crate) const CLIENT2: NodeId = NodeId::Client(2);

pub(crate) const CLIENT3: NodeId = NodeId::Client(3);

pub(crate) const CLIENT4: NodeId = NodeId::Client(4);

pub(crate) const REPLICA1: NodeId = NodeId::Replica(1);

pub(crate) const REPLICA2: NodeId = NodeId::Replica(2);

pub(crate) const REPLICA3: NodeId = NodeId::Replica(3);

pub(crate) const WARDEN1: NodeId = NodeId::Warden(1);

pub(crate) const WARDEN2: NodeId = NodeId::Warden(2);

pub(crate) const V5: Version = Version { ts: 5, client: 1 };

pub(crate) const V10: Version = Version { ts: 10, client: 1 };

pub(crate) const V12: Version = Version { ts: 12, client: 4 };

pub(crate) const V15: Version = Version { ts: 15, client: 3 };

pub(crate) const V17: Version = Version { ts: 17, client: 2 };

pub(crate) const V20: Version = Version { ts: 20, client: 2 };

pub(crate) const V30: Version = Version { ts: 30, client: 3 };

pub(crate) const V40: Version = Version { ts: 40, client: 1 };

pub(crate) const CUT16: Version = Version { ts: 16, client: 0 };

pub(crate) const CUT18: Version = Version { ts: 18, client: 0 };

pub(crate) const CUT20: Version = Version { ts: 20, client: 0 };

pub(crate) const CUT21: Version = Version { ts: 21, client: 0 };

pub(crate) const CUT25: Version = Version { ts: 25, client: 0 };

pub(crate) const CUT30: Version = Version { ts: 30, client: 0 };

pub(crate) const E10: Exec = Exec { ver: V10, eid: 0 };

pub(crate) const E10_1: Exec = Exec { ver: V10, eid: 1 };

pub(crate) const E12: Exec = Exec { ver: V12, eid: 0 };

pub(crate) const E15: Exec = Exec { ver: V15, eid: 0 };

pub(crate) const E15_1: Exec = Exec { ver: V15, eid: 1 };

pub(crate) const E16: Exec = Exec { ver: CUT16, eid: 0 };

pub(crate) const E17: Exec = Exec { ver: V17, eid: 0 };

pub(crate) const E20: Exec = Exec { ver: V20, eid: 0 };

pub(crate) const E20_1: Exec = Exec { ver: V20, eid: 1 };

pub(crate) const E20_2: Exec = Exec { ver: V20, eid: 2 };

pub(crate) const E30: Exec = Exec { ver: V30, eid: 0 };

pub(crate) const E40: Exec = Exec { ver: V40, eid: 0 };

pub(crate) const E40_1: Exec = Exec { ver: V40, eid: 1 };

pub(crate) const FIRST: Wid = Wid {
    ver: Version { ts: 0, client: 0 },
    eid: 0,
    seq: 0,
};

/// The first write of execution 0 of 5.1.
pub(crate) const WID5: Wid = Wid {
    ver: V5,
    eid: 0,
    seq: 1,
};

pub(crate) const WID10: Wid = Wid {
    ver: V10,
    eid: 0,
    seq: 1,
};

/// The second write of execution 0.
pub(crate) const WID10_SECOND: Wid = Wid {
    ver: V10,
    eid: 0,
    seq: 2,
};

/// The first write of execution 1.
pub(crate) const WID10_1: Wid = Wid {
    ver: V10,
    eid: 1,
    seq: 1,
};

pub(crate) const WID12: Wid = Wid {
    ver: V12,
    eid: 0,
    seq: 1,
};

pub(crate) const WID17: Wid = Wid {
    ver: V17,
    eid: 0,
    seq: 1,
};

pub(crate) const READS_FIRST: Read = Read {
    key: X,
    wid: FIRST,
    value: 4,
};

pub(crate) const READS_NEW: Read = Read {
    key: X,
    wid: WID10_1,
    value: 8,
};

pub(crate) const WRITES_5: Write = Write { key: X, value: 5 };

pub(crate) const WRITES_6: Write = Write { key: X, value: 6 };

pub(crate) const WRITES_7: Write = Write { key: X, value: 7 };

pub(crate) const WRITES_8: Write = Write { key: X, value: 8 };

pub(crate) const WRITES_9: Write = Write { key: X, value: 9 };

/// It read the first value and wrote 8.
pub(crate) const TURNS: Made = Made {
    reads: &[READS_FIRST],
    writes: &[WRITES_8],
    out: &[],
    ending: Ending::Done,
};

/// It read the first value.
pub(crate) const LOOKS: Made = Made {
    reads: &[READS_FIRST],
    writes: &[],
    out: &[],
    ending: Ending::Done,
};

/// It read the 8 of execution 1 of 10.1.
pub(crate) const LOOKS_LATER: Made = Made {
    reads: &[READS_NEW],
    writes: &[],
    out: &[],
    ending: Ending::Done,
};

/// It wrote 7 and read nothing.
pub(crate) const WRITES: Made = Made {
    reads: &[],
    writes: &[WRITES_7],
    out: &[],
    ending: Ending::Done,
};

pub(crate) const NOTHING: Made = Made {
    reads: &[],
    writes: &[],
    out: &[],
    ending: Ending::Abort,
};

/// It read the first value, wrote 5, and printed what it read.
pub(crate) const RAISES: Made = Made {
    reads: &[READS_FIRST],
    writes: &[WRITES_5],
    out: &[4],
    ending: Ending::Done,
};

/// It read the first value, and wrote 5 and then 6.
pub(crate) const TWICE: Made = Made {
    reads: &[READS_FIRST],
    writes: &[WRITES_5, WRITES_6],
    out: &[],
    ending: Ending::Done,
};

pub(crate) const PAIR: Accept = Accept {
    view: 2,
    choice: Choice::Commit,
};

pub(crate) const BASE5: BaseEntry = BaseEntry {
    key: X,
    wid: WID5,
    value: 5,
};

/// The last of two writes.
pub(crate) const BASE10: BaseEntry = BaseEntry {
    key: X,
    wid: WID10_SECOND,
    value: 6,
};

pub(crate) const BASE17: BaseEntry = BaseEntry {
    key: X,
    wid: WID17,
    value: 6,
};
