//! Nodes, names and contents that the runs are told with.
//!
//! A name such as `E20_1` is execution 1 of the version of time 20, and `WID10` the write of the version of time 10.

use crate::bodies::Made;
use morty_base::{Exec, Key, NodeId, Version, Wid};
use msg::{Read, Write};

pub(crate) const CLIENT1: NodeId = NodeId::Client(1);

pub(crate) const CLIENT2: NodeId = NodeId::Client(2);

pub(crate) const REPLICA: NodeId = NodeId::Replica(1);

pub(crate) const WARDEN: NodeId = NodeId::Warden(1);

/// The key x[1], whose first value is 4.
pub(crate) const X: Key = Key { table: 0, index: 1 };

/// The key y[1].
pub(crate) const Y: Key = Key { table: 1, index: 1 };

pub(crate) const V10: Version = Version { ts: 10, client: 1 };

pub(crate) const V20: Version = Version { ts: 20, client: 2 };

/// The second try of the transaction at 20, later by a gap of 20.
pub(crate) const V40: Version = Version { ts: 40, client: 2 };

pub(crate) const CUT30: Version = Version { ts: 30, client: 0 };

pub(crate) const E10: Exec = Exec { ver: V10, eid: 0 };

pub(crate) const E20: Exec = Exec { ver: V20, eid: 0 };

pub(crate) const E20_1: Exec = Exec { ver: V20, eid: 1 };

pub(crate) const E40: Exec = Exec { ver: V40, eid: 0 };

pub(crate) const FIRST: Wid = Wid {
    ver: Version { ts: 0, client: 0 },
    eid: 0,
    seq: 0,
};

pub(crate) const WID10: Wid = Wid {
    ver: V10,
    eid: 0,
    seq: 1,
};

pub(crate) const WRITES_4: Write = Write { key: X, value: 4 };

pub(crate) const WRITES_5: Write = Write { key: X, value: 5 };

pub(crate) const WRITES_7: Write = Write { key: X, value: 7 };

pub(crate) const WRITES_8: Write = Write { key: X, value: 8 };

/// It wrote 7.
pub(crate) const PUT_7: Made = Made {
    reads: &[],
    writes: &[WRITES_7],
    out: &[],
};

/// It wrote 4, which x[1] was at first.
pub(crate) const PUT_4: Made = Made {
    reads: &[],
    writes: &[WRITES_4],
    out: &[],
};

/// It read the first value of x[1], and wrote one more.
pub(crate) const RAISED_FIRST: Made = Made {
    reads: &[Read {
        key: X,
        wid: FIRST,
        value: 4,
    }],
    writes: &[WRITES_5],
    out: &[4],
};

/// It read the 7 of the version of time 10, and wrote one more.
pub(crate) const RAISED_7: Made = Made {
    reads: &[Read {
        key: X,
        wid: WID10,
        value: 7,
    }],
    writes: &[WRITES_8],
    out: &[7],
};

/// It read the 4 of the version of time 10, and wrote one more.
pub(crate) const RAISED_4: Made = Made {
    reads: &[Read {
        key: X,
        wid: WID10,
        value: 4,
    }],
    writes: &[WRITES_5],
    out: &[4],
};

/// It read the 7 of the version of time 10 and the first value of y[1], and wrote the sum.
pub(crate) const SUMMED: Made = Made {
    reads: &[
        Read {
            key: X,
            wid: WID10,
            value: 7,
        },
        Read {
            key: Y,
            wid: FIRST,
            value: 0,
        },
    ],
    writes: &[WRITES_7],
    out: &[7],
};
