//! Nodes and sets of them that are polled by hand.

ghost use Rattle.std.specs.Prelude.{◌≡◌};

use crate::listed::{Answer, Listed, Noted};
use Answer::{Full, Give, Idle, Moved, Quiet, Refused, Spent, Stopped, Work};
use futures::task::Poll;
use futures::test::MockTask;
use morty_base::{List, NoMemory};
use net_core::RanStep;
use node_future::{NodeEnd, NodeFuture, NodeOut, NodeSet};
use std::test::Fail;

const USED: Answer = Give(Ok(RanStep::Used));

// What a node is answered; how its turns end; the picks and the segments that it counts; whether the run was spoiled; and
// how many of its segments the gate is told.
struct Row {
    answers: &'static [Answer],
    end: NodeEnd,
    turns: u64,
    rans: u64,
    spoiled: bool,
    segments: u32,
}

static ROWS: [Row; 9] = [
    Row {
        answers: &[Moved, USED, Idle, Quiet],
        end: NodeEnd::Quiet,
        turns: 1,
        rans: 1,
        spoiled: false,
        segments: 1,
    },
    Row {
        answers: &[Moved, Moved, Spent],
        end: NodeEnd::Spent,
        turns: 2,
        rans: 0,
        spoiled: false,
        segments: 0,
    },
    Row {
        answers: &[Idle, Stopped],
        end: NodeEnd::Stopped,
        turns: 0,
        rans: 0,
        spoiled: false,
        segments: 0,
    },
    Row {
        answers: &[Moved, Full],
        end: NodeEnd::Full,
        turns: 1,
        rans: 0,
        spoiled: false,
        segments: 0,
    },
    Row {
        answers: &[USED, Give(Ok(RanStep::Full))],
        end: NodeEnd::Full,
        turns: 0,
        rans: 1,
        spoiled: false,
        segments: 2,
    },
    Row {
        answers: &[Give(Ok(RanStep::Stale)), Spent],
        end: NodeEnd::Spent,
        turns: 0,
        rans: 0,
        spoiled: false,
        segments: 1,
    },
    Row {
        answers: &[Moved, Refused],
        end: NodeEnd::NoMemory,
        turns: 1,
        rans: 0,
        spoiled: false,
        segments: 0,
    },
    Row {
        answers: &[USED, Work],
        end: NodeEnd::NoMemory,
        turns: 0,
        rans: 1,
        spoiled: true,
        segments: 2,
    },
    Row {
        answers: &[Give(Err(NoMemory))],
        end: NodeEnd::NoMemory,
        turns: 0,
        rans: 0,
        spoiled: true,
        segments: 1,
    },
];

// Each node makes one turn in a poll, and none once it has its output, which counts from when it was made.
#[test]
fn a_node_takes_one_turn_in_a_poll(rt: HostRuntime) -> Result<(), Fail> {
    let task = MockTask::new(&rt)?;
    for row in &ROWS {
        let gate = Noted::new();
        let mut node = NodeFuture::new(Listed::new(row.answers, 7, 5), &gate, 1);
        let out = NodeOut {
            end: row.end,
            turns: row.turns,
            rans: row.rans,
        };
        for _ in 1..row.answers.len() {
            assert!(rt; task.poll(&mut node).is_pending());
        }
        assert_eq!(rt; task.poll(&mut node), Poll::Ready(out));
        assert_eq!(rt; task.poll(&mut node), Poll::Ready(out));
        let turns = node.into_turns();
        assert_eq!(rt; turns.taken(), row.answers.len());
        assert_eq!(rt; turns.is_spoiled(), row.spoiled);
        assert_eq!(rt; gate.told(2), (row.segments, row.segments));
        assert_eq!(rt; gate.told(1), (0, 0));
    }
    Ok(())
}

// A set polls each of its nodes once in a poll, until each has its output.
#[test]
fn a_set_polls_its_nodes_in_turn(rt: HostRuntime) -> Result<(), Fail> {
    let alloc = rt.alloc();
    let task = MockTask::new(&rt)?;
    let gate = Noted::new();
    let mut nodes = List::new(alloc);
    nodes.push(NodeFuture::new(Listed::new(&[Moved, USED, Idle, Quiet], 0, 0), &gate, 0))?;
    nodes.push(NodeFuture::new(Listed::new(&[USED, Full], 3, 3), &gate, 1))?;
    let mut set = NodeSet::new(alloc, nodes);
    for _ in 1..4 {
        assert!(rt; task.poll(&mut set).is_pending());
    }
    let Poll::Ready(outs) = task.poll(&mut set) else {
        panic!(rt; "each node has its output");
    };
    let outs = outs?;
    let first = NodeOut {
        end: NodeEnd::Quiet,
        turns: 1,
        rans: 1,
    };
    let second = NodeOut {
        end: NodeEnd::Full,
        turns: 0,
        rans: 1,
    };
    assert_eq!(rt; outs.as_slice(), [first, second].as_slice());
    let turns = set.into_turns()?;
    assert_eq!(rt; turns.len(), 2);
    assert_eq!(rt; turns[0].taken(), 4);
    assert_eq!(rt; turns[1].taken(), 2);
    assert_eq!(rt; gate.told(1), (1, 1));
    assert_eq!(rt; gate.told(2), (1, 1));
    Ok(())
}
