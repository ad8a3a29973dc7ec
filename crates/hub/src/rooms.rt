// What a hub keeps for each slot, and the choices that it makes of an answer.

ghost use Rattle.std.specs.Prelude.{◌≡◌, ◌<◌, ℕ, false, [], ◌∷◌, ◌++◌, slice_set, length, replicate, map, IfOk, OnErr, None, vec_len, vec_capacity};
ghost use Rattle.std.specs.List.{slice_get};
ghost use Rattle.morty_base.specs.declared.names.NodeId.{NodeId as NodeValue};
ghost use Rattle.msg.specs.declared.Event.TheVariants.{Picked};
ghost use Rattle.net_core.specs.Machine.{History, Effect};
ghost use Rattle.net_core.specs.Replay.{out_of};
ghost use Rattle.net_core.specs.Ruled.{LinkState, IsPicked};
ghost use Rattle.hub.specs.Turns.{asked_out, ended_by, ended_out, ended_given, journal_given, marks_after, marks_given, handed_given, turns_after, used_given};

use crate::turn_out::TurnOut;
use morty_base::{Ended, NoMemory, NodeId};
use msg::{Event, Pick};
use net_core::{Link, Machine, RanStep, StepOut};
use std::alloc::Global;

pub fn falses(alloc: Global, count: usize) -> Result<Vec<bool>, NoMemory>
    ensures { IfOk result (λ v. v.items ≡ replicate count false) }
{
    Ok(vec![in alloc; false; count]?)
}

pub fn zeros(alloc: Global, count: usize) -> Result<Vec<u32>, NoMemory>
    ensures { IfOk result (λ v. v.items ≡ replicate count 0) }
{
    Ok(vec![in alloc; 0; count]?)
}

pub fn nones<J: Drop>(alloc: Global, count: usize) -> Result<Vec<Option<J>>, NoMemory>
    ensures { IfOk result (λ v. v.items ≡ replicate count None) }
{
    let mut all = Vec::new(alloc);
    for _ in 0..count {
        all.push(None)?;
    }
    Ok(all)
}

pub fn forget<J: Drop>(handed: &mut Vec<Option<J>>)
    ensures { handed.new.items ≡ replicate (length handed.old.items) None }
{
    for at in 0..handed.len() {
        handed[at] = None;
    }
}

/// Asks the link of a slot.
pub fn pick_at<M: Machine, L: Link>(
    machine: &M,
    links: &mut Vec<L>,
    slot: u32,
) -> Result<Pick, NoMemory>
    requires slots { (slot < length links.old.items) × (slot < M.count machine.now) }
    requires usable { M.usable machine.now }
    ensures ok { IfOk result (λ p. (o : M.Origin) (h : History) (n : NodeValue) → M.stands machine.now o h → slice_get (M.rules o).nodes slot ≡ Some n
        → (a b : LinkState) × (slice_get (map L.state_of links.old.items) slot ≡ Some a)
        × IsPicked ((M.rules o).menu h n) p a b
        × (map L.state_of links.new.items ≡ slice_set (map L.state_of links.old.items) slot b)) }
    ensures count { length links.new.items ≡ length links.old.items }
{
    let menu = machine.menu(slot);
    links[slot as usize].pick(&menu)
}

pub fn count_turn(made: &mut Vec<u32>, slot: u32, pick: Pick)
    requires { slot < length made.old.items }
    ensures made { made.new.items ≡ turns_after slot pick made.old.items }
    ensures len { length made.new.items ≡ length made.old.items }
{
    if pick != Pick::Idle {
        made[slot as usize] = made[slot as usize].saturating_add(1);
    }
}

/// Records a pick.
pub fn note_pick(journal: &mut Vec<Event>, node: NodeId, pick: Pick)
    requires { vec_len journal.old < vec_capacity journal.old }
    ensures { journal.new.items ≡ journal.old.items ++ Picked node pick ∷ [] }
{
    journal.push_reserved(Event::Picked(node, pick));
}

fn clear(marks: &mut Vec<bool>)
    ensures { marks.new.items ≡ replicate (length marks.old.items) false }
{
    marks.fill(false);
}

pub fn mark(marks: &mut Vec<bool>, slot: u32, out: StepOut)
    requires { slot < length marks.old.items }
    ensures marks { marks.new.items ≡ marks_after slot out marks.old.items }
    ensures len { length marks.new.items ≡ length marks.old.items }
{
    match out {
        StepOut::Moved => clear(marks),
        StepOut::Idle => marks[slot as usize] = true,
        StepOut::Full => marks[slot as usize] = false,
    }
}

pub fn asked_out<J>(out: StepOut) -> TurnOut<J>
    ensures { (e : Effect) → out ≡ out_of e → result ≡ asked_out e }
{
    match out {
        StepOut::Moved => TurnOut::Moved,
        StepOut::Idle => TurnOut::Idle,
        StepOut::Full => TurnOut::Full,
    }
}

pub fn ended_by(out: StepOut) -> Option<Ended>
    ensures { (e : Effect) → out ≡ out_of e → result ≡ ended_by e }
{
    match out {
        StepOut::Moved | StepOut::Idle => None,
        StepOut::Full => Some(Ended::Full),
    }
}

pub fn ended_out<J>(ended: Ended) -> TurnOut<J>
    ensures { result ≡ ended_out ended }
{
    match ended {
        Ended::Quiet => TurnOut::Quiet,
        Ended::Spent => TurnOut::Spent,
        Ended::Full => TurnOut::Full,
    }
}

/// The number of a client. Only clients have jobs.
pub fn client_of(node: NodeId) -> u32
    ensures { (c : ℕ) → node ≡ NodeId.Client c → result ≡ c }
{
    match node {
        NodeId::Client(client) => client,
        NodeId::Replica(_) | NodeId::Warden(_) => 0,
    }
}

pub fn note_ran(journal: &mut Vec<Event>, client: u32, out: RanStep)
    requires { vec_len journal.old < vec_capacity journal.old }
    ensures { journal.new.items ≡ journal_given out client journal.old.items }
{
    match out {
        RanStep::Used | RanStep::Full => journal.push_reserved(Event::Ran(client)),
        RanStep::Stale => {}
    }
}

pub fn unmark(marks: &mut Vec<bool>, out: RanStep)
    ensures marks { marks.new.items ≡ marks_given out marks.old.items }
    ensures len { length marks.new.items ≡ length marks.old.items }
{
    match out {
        RanStep::Used => clear(marks),
        RanStep::Stale | RanStep::Full => {}
    }
}

pub fn unhand<J: Drop>(handed: &mut Vec<Option<J>>, slot: u32, out: RanStep)
    requires { slot < length handed.old.items }
    ensures handed { handed.new.items ≡ handed_given out slot handed.old.items }
    ensures len { length handed.new.items ≡ length handed.old.items }
{
    match out {
        RanStep::Used => handed[slot as usize] = None,
        RanStep::Stale | RanStep::Full => {}
    }
}

pub fn used_after(used: u64, out: RanStep) -> u64
    ensures { result ≡ used_given out used }
{
    match out {
        RanStep::Used => used.saturating_add(1),
        RanStep::Stale | RanStep::Full => used,
    }
}

pub fn ended_given(out: RanStep) -> Option<Ended>
    ensures { result ≡ ended_given out }
{
    match out {
        RanStep::Used | RanStep::Stale => None,
        RanStep::Full => Some(Ended::Full),
    }
}
