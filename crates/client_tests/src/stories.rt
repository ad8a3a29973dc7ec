//! Runs of two clients and a replica, row by row.

use crate::bodies::{Said, body};
use crate::client::Mark;
use crate::deciding::{current, older};
use crate::missing::{abandoned, asking, followed, missed, prepared, relabelled, taken_up};
use crate::nodes::{Event, Nodes, joined, sent};
use crate::programs::{puts_4, puts_7, raises, sums};
use crate::refusing::{limit, too_old};
use morty_base::{List, NoMemory, NodeId};
use msg::Envelope;
use std::alloc::Global;
use std::process::Abort;
use std::test::Fail;
use txn_lang::Prog;

/// A node, what happens there, what it sends to whom by its rules, and how client 2 stands then.
pub(crate) type Row = (NodeId, Event, &'static [(NodeId, Said)], Mark);

// What the row says that it sends.
fn wanted(
    alloc: Global,
    from: NodeId,
    said: &[(NodeId, Said)],
) -> Result<List<Envelope>, NoMemory> {
    let mut out = List::new(alloc);
    for (to, said) in said {
        let body = body(alloc, *said)?;
        out.push(Envelope {
            from,
            to: *to,
            body,
        })?;
    }
    Ok(out)
}

// What is sent on the row's event goes to the mail, and is shown beside what the row says.
fn happen(
    alloc: Global,
    nodes: &mut Nodes,
    mail: &mut List<Envelope>,
    row: &Row,
) -> Result<(String, String), Fail> {
    let (node, event, said, _) = *row;
    let sent = sent(alloc, nodes, mail, node, event)?;
    let wanted = wanted(alloc, node, said)?;
    let told = format!(in alloc; "{sent:?}")?;
    let rule = format!(in alloc; "{wanted:?}")?;
    mail.append(sent)?;
    Ok((told, rule))
}

fn play(
    rt: &impl Abort,
    alloc: Global,
    nodes: &mut Nodes,
    mail: &mut List<Envelope>,
    rows: &[Row],
) -> Result<(), Fail> {
    for (i, row) in rows.iter().enumerate() {
        let (told, rule) = happen(alloc, nodes, mail, row)?;
        assert_eq!(rt; told.as_str(), rule.as_str(), "row {i}");
        let mark = nodes.client2.mark(alloc)?;
        assert_eq!(rt; mark, row.3, "row {i}");
    }
    Ok(())
}

// Client 2 raises x[1] while client 1 writes 7 or the first value there, or it sums with so many executions of a version.
#[derive(Clone, Copy)]
enum Scene {
    Raising,
    RaisingSame,
    Summing(u32),
}

fn first_program(alloc: Global, scene: Scene) -> Result<Prog, Fail> {
    match scene {
        Scene::RaisingSame => puts_4(alloc),
        _ => puts_7(alloc),
    }
}

fn second_program(alloc: Global, scene: Scene) -> Result<Prog, Fail> {
    match scene {
        Scene::Summing(_) => sums(alloc),
        _ => raises(alloc),
    }
}

fn most_executions(scene: Scene) -> u32 {
    match scene {
        Scene::Summing(execs) => execs,
        _ => 16,
    }
}

fn scene_nodes(alloc: Global, scene: Scene) -> Result<Nodes, Fail> {
    let first = first_program(alloc, scene)?;
    let second = second_program(alloc, scene)?;
    Ok(joined(alloc, &first, &second, most_executions(scene))?)
}

fn tell(rt: &impl Abort, alloc: Global, scene: Scene, parts: &[&[Row]]) -> Result<(), Fail> {
    let mut nodes = scene_nodes(alloc, scene)?;
    let mut mail = List::new(alloc);
    for rows in parts {
        play(rt, alloc, &mut nodes, &mut mail, rows)?;
    }
    Ok(())
}

#[test]
fn a_missed_write_is_followed_at_once(rt: HostRuntime) -> Result<(), Fail> {
    let parts = [asking(), missed(), followed()];
    tell(&rt, rt.alloc(), Scene::Summing(16), &parts)
}

#[test]
fn a_change_is_taken_up_after_the_abandon(rt: HostRuntime) -> Result<(), Fail> {
    let parts = [prepared(), abandoned(), taken_up()];
    tell(&rt, rt.alloc(), Scene::Raising, &parts)
}

#[test]
fn a_relabelled_read_runs_no_segment(rt: HostRuntime) -> Result<(), Fail> {
    let parts = [prepared(), relabelled()];
    tell(&rt, rt.alloc(), Scene::RaisingSame, &parts)
}

#[test]
fn a_rewind_at_the_limit_gives_up(rt: HostRuntime) -> Result<(), Fail> {
    let parts = [asking(), missed(), limit()];
    tell(&rt, rt.alloc(), Scene::Summing(1), &parts)
}

#[test]
fn a_version_that_is_too_old_is_given_up(rt: HostRuntime) -> Result<(), Fail> {
    tell(&rt, rt.alloc(), Scene::Raising, &[too_old()])
}

#[test]
fn a_warden_decides_the_current_execution(rt: HostRuntime) -> Result<(), Fail> {
    let parts = [prepared(), current()];
    tell(&rt, rt.alloc(), Scene::Raising, &parts)
}

#[test]
fn a_warden_decides_an_older_execution(rt: HostRuntime) -> Result<(), Fail> {
    let parts = [prepared(), abandoned(), older()];
    tell(&rt, rt.alloc(), Scene::Raising, &parts)
}
