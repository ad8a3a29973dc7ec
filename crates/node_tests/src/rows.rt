//! Frames and bad frames, as data.

use wire::FrameFault;

/// A frame, its bytes in groups of hexadecimal digits, and the envelope as it is shown.
pub(crate) struct Row {
    pub hex: &'static str,
    pub told: &'static str,
}

/// Frames to the byte, as the table of `docs/FORMATS.md` has them, with the envelope that each is of: each kind of body
/// with each option there and not, and the first and the last of each vote, choice, ending, node and number.
pub(crate) static ROWS: [Row; 24] = [
    Row {
        hex: "0101 0101 0201 000000000000000a 00000001 00000000 0000 0000000000000001",
        told: "Envelope { from: Client(1), to: Replica(1), body: Get { exec: Exec { ver: Version { ts: 10, client: 1 }, eid: 0 }, key: Key { table: 0, index: 1 } } }",
    },
    Row {
        hex: "0102 0201 0101 000000000000000a 00000001 0000 0000000000000001 0000000000000000 00000000 00000000 00000000 0000000000000004 01 00",
        told: "Envelope { from: Replica(1), to: Client(1), body: Note { ver: Version { ts: 10, client: 1 }, key: Key { table: 0, index: 1 }, wid: Wid { ver: Version { ts: 0, client: 0 }, eid: 0, seq: 0 }, value: 4, sure: true, gone: None } }",
    },
    Row {
        hex: "0102 0205 0110 ffffffffffffffff 00000010 ffff 8000000000000000 000000000000000a 00000001 00000000 00000001 fffffffffffffff9 00 01 000000000000000a 00000001 00000001 ffffffff",
        told: "Envelope { from: Replica(5), to: Client(16), body: Note { ver: Version { ts: 18446744073709551615, client: 16 }, key: Key { table: 65535, index: -9223372036854775808 }, wid: Wid { ver: Version { ts: 10, client: 1 }, eid: 0, seq: 1 }, value: -7, sure: false, gone: Some(Wid { ver: Version { ts: 10, client: 1 }, eid: 1, seq: 4294967295 }) } }",
    },
    Row {
        hex: "0103 0101 0201 000000000000000a 00000001 00000000 0001 0000 0000000000000001 0000000000000005",
        told: "Envelope { from: Client(1), to: Replica(1), body: Puts { exec: Exec { ver: Version { ts: 10, client: 1 }, eid: 0 }, writes: List { items: [Write { key: Key { table: 0, index: 1 }, value: 5 }] } } }",
    },
    Row {
        hex: "0103 0101 0201 0000000000000014 00000002 00000001 0000",
        told: "Envelope { from: Client(1), to: Replica(1), body: Puts { exec: Exec { ver: Version { ts: 20, client: 2 }, eid: 1 }, writes: List { items: [] } } }",
    },
    Row {
        hex: "0104 0101 0201 000000000000000a 00000001 00000000 0001 0000 0000000000000001 0000000000000000 00000000 00000000 00000000 0000000000000004 0001 0000 0000000000000001 0000000000000005 0001 0000000000000004 00",
        told: "Envelope { from: Client(1), to: Replica(1), body: Prepare { exec: Exec { ver: Version { ts: 10, client: 1 }, eid: 0 }, content: Content { reads: List { items: [Read { key: Key { table: 0, index: 1 }, wid: Wid { ver: Version { ts: 0, client: 0 }, eid: 0, seq: 0 }, value: 4 }] }, writes: List { items: [Write { key: Key { table: 0, index: 1 }, value: 5 }] }, out: List { items: [4] }, ending: Done } } }",
    },
    Row {
        hex: "0105 0201 0101 000000000000000a 00000001 00000000 00",
        told: "Envelope { from: Replica(1), to: Client(1), body: Vote { exec: Exec { ver: Version { ts: 10, client: 1 }, eid: 0 }, vote: Commit } }",
    },
    Row {
        hex: "0105 0201 0101 000000000000000a 00000001 00000000 01",
        told: "Envelope { from: Replica(1), to: Client(1), body: Vote { exec: Exec { ver: Version { ts: 10, client: 1 }, eid: 0 }, vote: Tentative } }",
    },
    Row {
        hex: "0105 0201 0101 000000000000000a 00000001 00000000 02",
        told: "Envelope { from: Replica(1), to: Client(1), body: Vote { exec: Exec { ver: Version { ts: 10, client: 1 }, eid: 0 }, vote: Final } }",
    },
    Row {
        hex: "0106 0301 0201 000000000000000a 00000001 00000000 00000001 01 0001 0000 0000000000000001 0000000000000000 00000000 00000000 00000000 0000000000000004 0001 0000 0000000000000001 0000000000000005 0001 0000000000000004 00",
        told: "Envelope { from: Warden(1), to: Replica(1), body: Finalize { exec: Exec { ver: Version { ts: 10, client: 1 }, eid: 0 }, view: 1, choice: Commit, content: Some(Content { reads: List { items: [Read { key: Key { table: 0, index: 1 }, wid: Wid { ver: Version { ts: 0, client: 0 }, eid: 0, seq: 0 }, value: 4 }] }, writes: List { items: [Write { key: Key { table: 0, index: 1 }, value: 5 }] }, out: List { items: [4] }, ending: Done }) } }",
    },
    Row {
        hex: "0106 0101 0201 000000000000000a 00000001 00000000 00000000 00",
        told: "Envelope { from: Client(1), to: Replica(1), body: Finalize { exec: Exec { ver: Version { ts: 10, client: 1 }, eid: 0 }, view: 0, choice: Abandon, content: None } }",
    },
    Row {
        hex: "0107 0201 0302 000000000000000a 00000001 00000000 00000002",
        told: "Envelope { from: Replica(1), to: Warden(2), body: Accepted { exec: Exec { ver: Version { ts: 10, client: 1 }, eid: 0 }, view: 2 } }",
    },
    Row {
        hex: "0108 0101 0201 000000000000000a 00000001 00000000 01 0001 0000 0000000000000001 0000000000000000 00000000 00000000 00000000 0000000000000004 0001 0000 0000000000000001 0000000000000005 0001 0000000000000004 00",
        told: "Envelope { from: Client(1), to: Replica(1), body: Decide { exec: Exec { ver: Version { ts: 10, client: 1 }, eid: 0 }, choice: Commit, content: Some(Content { reads: List { items: [Read { key: Key { table: 0, index: 1 }, wid: Wid { ver: Version { ts: 0, client: 0 }, eid: 0, seq: 0 }, value: 4 }] }, writes: List { items: [Write { key: Key { table: 0, index: 1 }, value: 5 }] }, out: List { items: [4] }, ending: Done }) } }",
    },
    Row {
        hex: "0108 0301 0101 000000000000000a 00000001 00000000 00",
        told: "Envelope { from: Warden(1), to: Client(1), body: Decide { exec: Exec { ver: Version { ts: 10, client: 1 }, eid: 0 }, choice: Abandon, content: None } }",
    },
    Row {
        hex: "0109 0301 0201 000000000000000a 00000001 00000000 ffffffff",
        told: "Envelope { from: Warden(1), to: Replica(1), body: Ask { exec: Exec { ver: Version { ts: 10, client: 1 }, eid: 0 }, view: 4294967295 } }",
    },
    Row {
        hex: "010a 0201 0301 000000000000000a 00000001 00000000 00000001 00 00 00 00",
        told: "Envelope { from: Replica(1), to: Warden(1), body: Told { exec: Exec { ver: Version { ts: 10, client: 1 }, eid: 0 }, view: 1, vote: None, accepted: None, decided: None, content: None } }",
    },
    Row {
        hex: "010a 0201 0301 000000000000000a 00000001 00000000 00000002 01 01 00000001 01 02 01 0001 0000 0000000000000001 0000000000000000 00000000 00000000 00000000 0000000000000004 0001 0000 0000000000000001 0000000000000005 0001 0000000000000004 00",
        told: "Envelope { from: Replica(1), to: Warden(1), body: Told { exec: Exec { ver: Version { ts: 10, client: 1 }, eid: 0 }, view: 2, vote: Some(Commit), accepted: Some(Accept { view: 1, choice: Commit }), decided: Some(Commit), content: Some(Content { reads: List { items: [Read { key: Key { table: 0, index: 1 }, wid: Wid { ver: Version { ts: 0, client: 0 }, eid: 0, seq: 0 }, value: 4 }] }, writes: List { items: [Write { key: Key { table: 0, index: 1 }, value: 5 }] }, out: List { items: [4] }, ending: Done }) } }",
    },
    Row {
        hex: "010a 0201 0301 000000000000000a 00000001 00000000 00000002 02 01 00000000 00 01 01 0000 0000 0000 03",
        told: "Envelope { from: Replica(1), to: Warden(1), body: Told { exec: Exec { ver: Version { ts: 10, client: 1 }, eid: 0 }, view: 2, vote: Some(Tentative), accepted: Some(Accept { view: 0, choice: Abandon }), decided: Some(Abandon), content: Some(Content { reads: List { items: [] }, writes: List { items: [] }, out: List { items: [] }, ending: ZeroDivisor }) } }",
    },
    Row {
        hex: "010a 0201 0301 000000000000000a 00000001 00000000 00000003 03 00 00 01 0000 0000 0000 02",
        told: "Envelope { from: Replica(1), to: Warden(1), body: Told { exec: Exec { ver: Version { ts: 10, client: 1 }, eid: 0 }, view: 3, vote: Some(Final), accepted: None, decided: None, content: Some(Content { reads: List { items: [] }, writes: List { items: [] }, out: List { items: [] }, ending: Overflow }) } }",
    },
    Row {
        hex: "010b 0301 0201 0000000000000014 00000000",
        told: "Envelope { from: Warden(1), to: Replica(1), body: Fence { w: Version { ts: 20, client: 0 } } }",
    },
    Row {
        hex: "010c 0201 0301 0000000000000014 00000000 00000002 0000 0000000000000001 000000000000000a 00000001 00000000 00000001 0000000000000005 0000 0000000000000002 0000000000000000 00000000 00000000 00000000 0000000000000000 00000002 000000000000000a 00000001 00000000 0001 0000 0000000000000001 0000000000000000 00000000 00000000 00000000 0000000000000004 0001 0000 0000000000000001 0000000000000005 0001 0000000000000004 00 000000000000000a 00000001 00000001 0002 0000 0000000000000001 0000000000000000 00000000 00000000 00000000 0000000000000004 0001 fffffffffffffffd 0000000000000007 00000002 00000001 00000003 fffffffffffffff7 0000 0002 ffffffffffffffff 7fffffffffffffff 01 00000001 000000000000000f 00000002 00000000 0000 0000 0000 03",
        told: "Envelope { from: Replica(1), to: Warden(1), body: Fenced { w: Version { ts: 20, client: 0 }, base: List { items: [BaseEntry { key: Key { table: 0, index: 1 }, wid: Wid { ver: Version { ts: 10, client: 1 }, eid: 0, seq: 1 }, value: 5 }, BaseEntry { key: Key { table: 0, index: 2 }, wid: Wid { ver: Version { ts: 0, client: 0 }, eid: 0, seq: 0 }, value: 0 }] }, committed: List { items: [Kept { exec: Exec { ver: Version { ts: 10, client: 1 }, eid: 0 }, content: Content { reads: List { items: [Read { key: Key { table: 0, index: 1 }, wid: Wid { ver: Version { ts: 0, client: 0 }, eid: 0, seq: 0 }, value: 4 }] }, writes: List { items: [Write { key: Key { table: 0, index: 1 }, value: 5 }] }, out: List { items: [4] }, ending: Done } }, Kept { exec: Exec { ver: Version { ts: 10, client: 1 }, eid: 1 }, content: Content { reads: List { items: [Read { key: Key { table: 0, index: 1 }, wid: Wid { ver: Version { ts: 0, client: 0 }, eid: 0, seq: 0 }, value: 4 }, Read { key: Key { table: 1, index: -3 }, wid: Wid { ver: Version { ts: 7, client: 2 }, eid: 1, seq: 3 }, value: -9 }] }, writes: List { items: [] }, out: List { items: [-1, 9223372036854775807] }, ending: Abort } }] }, voted: List { items: [Kept { exec: Exec { ver: Version { ts: 15, client: 2 }, eid: 0 }, content: Content { reads: List { items: [] }, writes: List { items: [] }, out: List { items: [] }, ending: ZeroDivisor } }] } } }",
    },
    Row {
        hex: "010c 0201 0301 0000000000000014 00000000 00000000 00000000 00000000",
        told: "Envelope { from: Replica(1), to: Warden(1), body: Fenced { w: Version { ts: 20, client: 0 }, base: List { items: [] }, committed: List { items: [] }, voted: List { items: [] } } }",
    },
    Row {
        hex: "010d 0301 0201 0000000000000014 00000000 00000001 0000 0000000000000001 000000000000000a 00000001 00000000 00000001 0000000000000005",
        told: "Envelope { from: Warden(1), to: Replica(1), body: Drop { w: Version { ts: 20, client: 0 }, base: List { items: [BaseEntry { key: Key { table: 0, index: 1 }, wid: Wid { ver: Version { ts: 10, client: 1 }, eid: 0, seq: 1 }, value: 5 }] } } }",
    },
    Row {
        hex: "010e 0201 0102 000000000000000f 00000002 0000000000000014 00000000",
        told: "Envelope { from: Replica(1), to: Client(2), body: TooOld { ver: Version { ts: 15, client: 2 }, w: Version { ts: 20, client: 0 } } }",
    },
];

/// Bytes with the fault of their first bad field.
pub(crate) static FAULTS: [(&str, FrameFault); 29] = [
    ("", FrameFault::Short),
    // the wire version, the kind, and the kind of a node
    ("02", FrameFault::Kind),
    ("00", FrameFault::Kind),
    ("0100", FrameFault::Kind),
    ("010f", FrameFault::Kind),
    ("0101 0001", FrameFault::Kind),
    ("0101 0401", FrameFault::Kind),
    // the first bad field decides
    ("020f 0400", FrameFault::Kind),
    ("0101 0100 0400", FrameFault::Count),
    // numbers of nodes
    ("0101 0100", FrameFault::Count),
    ("0101 0111", FrameFault::Count),
    ("0101 0206", FrameFault::Count),
    ("0101 0303", FrameFault::Count),
    (
        "0101 0101 0200 000000000000000a 00000001 00000000 0000 0000000000000001",
        FrameFault::Count,
    ),
    (
        "0201 0101 0201 000000000000000a 00000001 00000000 0000 0000000000000001",
        FrameFault::Kind,
    ),
    // a vote, a flag, a choice, an ending, and the bytes of a Told
    (
        "0105 0201 0101 000000000000000a 00000001 00000000 03",
        FrameFault::Kind,
    ),
    (
        "0102 0201 0101 000000000000000a 00000001 0000 0000000000000001 0000000000000000 00000000 00000000 00000000 0000000000000004 02",
        FrameFault::Kind,
    ),
    (
        "0106 0301 0201 000000000000000a 00000001 00000000 00000001 02",
        FrameFault::Kind,
    ),
    (
        "0104 0101 0201 000000000000000a 00000001 00000000 0000 0000 0000 04",
        FrameFault::Kind,
    ),
    (
        "010a 0201 0301 000000000000000a 00000001 00000000 00000001 04",
        FrameFault::Kind,
    ),
    (
        "010a 0201 0301 000000000000000a 00000001 00000000 00000001 00 02",
        FrameFault::Kind,
    ),
    (
        "010a 0201 0301 000000000000000a 00000001 00000000 00000001 00 00 03",
        FrameFault::Kind,
    ),
    (
        "010a 0201 0301 000000000000000a 00000001 00000000 00000001 00 00 00 02",
        FrameFault::Kind,
    ),
    // counts, of 65 and of 67,108,865
    (
        "0103 0101 0201 000000000000000a 00000001 00000000 0041",
        FrameFault::Long,
    ),
    (
        "010d 0301 0201 0000000000000014 00000000 04000001",
        FrameFault::Long,
    ),
    // a key that stands twice, and one that falls: judged as soon as it is whole
    (
        "010d 0301 0201 0000000000000014 00000000 00000002 0000 0000000000000001 000000000000000a 00000001 00000000 00000001 0000000000000005 0000 0000000000000001",
        FrameFault::Order,
    ),
    (
        "010d 0301 0201 0000000000000014 00000000 00000002 0000 0000000000000001 000000000000000a 00000001 00000000 00000001 0000000000000005 0000 ffffffffffffffff",
        FrameFault::Order,
    ),
    (
        "010d 0301 0201 0000000000000014 00000000 00000002 0000 0000000000000001 000000000000000a 00000001 00000000 00000001 0000000000000005 0000 00000000000000",
        FrameFault::Short,
    ),
    // an execution that stands twice
    (
        "010c 0201 0301 0000000000000014 00000000 00000000 00000002 000000000000000a 00000001 00000000 0000 0000 0000 00 000000000000000a 00000001 00000000",
        FrameFault::Order,
    ),
];
