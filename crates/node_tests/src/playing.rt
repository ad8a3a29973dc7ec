//! Runs of three replicas and two wardens, row by row.

use crate::bodies::{Said, body};
use crate::checks::{MEMORY, is_equal, is_so};
use crate::contest::CONTEST;
use crate::drops::DROPPED;
use crate::nodes::{Answer, Event, Nodes, fresh_nodes, is_answered, sent};
use crate::recovering::{ALL_VOTED, PAIR_BINDS};
use crate::stories::EVERY_KIND;
use crate::truncating::{ONE_AT_A_TIME, VOTED_FIRST};
use morty_base::{List, NodeId};
use msg::Envelope;
use std::alloc::Global;
use std::mem::forget;
use std::process::Abort;

/// What happens, and what is seen of it.
pub(crate) enum Row {
    /// On an event at a node it sends just this, to whom.
    Sends(NodeId, Event, &'static [(NodeId, Said)]),
    /// A node that is not here sends this.
    Posts(NodeId, &'static [(NodeId, Said)]),
    /// A warden is asked, and answers this.
    Answers(NodeId, Answer),
}

fn envelopes(
    rt: &impl Abort,
    alloc: Global,
    from: NodeId,
    said: &[(NodeId, Said)],
) -> List<Envelope> {
    let mut out = List::new(alloc);
    for (to, said) in said {
        let body = body(rt, alloc, said);
        out.push(Envelope {
            from,
            to: *to,
            body,
        })
        .expect(rt, MEMORY);
    }
    out
}

fn are_same(
    rt: &impl Abort,
    alloc: Global,
    i: usize,
    sent: &List<Envelope>,
    wanted: &List<Envelope>,
) {
    let told = format!(in alloc; "{sent:?}").expect(rt, MEMORY);
    let rule = format!(in alloc; "{wanted:?}").expect(rt, MEMORY);
    is_equal(
        rt,
        &(i, told.as_str()),
        &(i, rule.as_str()),
        "a row, and what is sent",
    );
}

// One row. What is sent goes to the mail.
fn holds(
    rt: &impl Abort,
    alloc: Global,
    nodes: &mut Nodes,
    mail: &mut List<Envelope>,
    i: usize,
    row: &Row,
) {
    match row {
        Row::Sends(node, event, said) => {
            let sent = sent(rt, alloc, nodes, mail, *node, event);
            are_same(rt, alloc, i, &sent, &envelopes(rt, alloc, *node, said));
            mail.append(sent).expect(rt, MEMORY);
        }
        Row::Posts(node, said) => {
            mail.append(envelopes(rt, alloc, *node, said))
                .expect(rt, MEMORY);
        }
        Row::Answers(node, answer) => {
            is_so(
                rt,
                is_answered(rt, alloc, nodes, *node, answer),
                "what is answered",
            );
        }
    }
}

fn hold(rt: &impl Abort, alloc: Global, nodes: &mut Nodes, rows: &[Row]) {
    let mut mail = List::new(alloc);
    for (i, row) in rows.iter().enumerate() {
        holds(rt, alloc, nodes, &mut mail, i, row);
    }
}

// Plays rows on fresh nodes. A test is a process of its own, so they are left to its end, and no proof takes them down.
fn play(rt: &impl Abort, alloc: Global, rows: &[Row]) {
    let mut nodes = fresh_nodes(rt, alloc);
    hold(rt, alloc, &mut nodes, rows);
    forget(nodes);
}

#[test]
fn replicas_do_as_their_rules_say(rt: HostRuntime) {
    play(&rt, rt.alloc(), &EVERY_KIND);
    play(&rt, rt.alloc(), &DROPPED);
}

#[test]
fn wardens_do_as_their_rules_say(rt: HostRuntime) {
    play(&rt, rt.alloc(), &CONTEST);
    play(&rt, rt.alloc(), &ALL_VOTED);
    play(&rt, rt.alloc(), &PAIR_BINDS);
    play(&rt, rt.alloc(), &VOTED_FIRST);
    play(&rt, rt.alloc(), &ONE_AT_A_TIME);
}
