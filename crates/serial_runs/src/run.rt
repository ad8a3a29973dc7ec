ghost use Rattle.std.specs.Prelude.{◌≡◌, ◌+◌, ◌*◌, ◌<◌, ◌≤◌, length, IfOk, OnOk};
ghost use Rattle.txn_lang.specs.declared.limits.TheConstants.{MOST_STEPS};
ghost use Rattle.txn_lang.specs.Tree.{command, commands, Repeat};
ghost use Rattle.txn_lang.specs.Actions.{actions, all_actions};
ghost use Rattle.txn_lang.specs.Limits.{steps_in, steps, FitsIn, Fits};
ghost use Rattle.serial_runs.specs.Execution.{IsStep};

use crate::effects::Stop;
use crate::execution::Execution;
use crate::source::Source;
use morty_base::{Ending, NoMemory};
use txn_lang::{Block, Stmt};

/// Does a `repeat`.
#[cycle(run)]
fn repeat<S: Source>(
    at: &mut Execution<S>,
    times: u32,
    body: &Block,
) -> Result<Option<Stop>, NoMemory>
    requires fits { Fits (length at.old.locals) (commands body.now) }
    requires few { at.old.did.begun + steps_in (Repeat times (commands body.now)) ≤ MOST_STEPS }
    ensures step { IfOk result (IsStep S.answer at.old at.new (actions (Repeat times (commands body.now)))) }
    ensures locals { OnOk result (length at.new.locals ≡ length at.old.locals) }
    ensures begun { OnOk result (at.new.did.begun ≤ at.old.did.begun + steps_in (Repeat times (commands body.now))) }
{
    at.did.begin();
    for _ in 0..times {
        if let Some(stop) = block(at, body)? {
            return Ok(Some(stop));
        }
    }
    Ok(None)
}

#[cycle(run)]
fn statement<S: Source>(at: &mut Execution<S>, stmt: &Stmt) -> Result<Option<Stop>, NoMemory>
    requires fits { FitsIn (length at.old.locals) (command stmt.now) }
    requires few { at.old.did.begun + steps_in (command stmt.now) ≤ MOST_STEPS }
    ensures step { IfOk result (IsStep S.answer at.old at.new (actions (command stmt.now))) }
    ensures locals { OnOk result (length at.new.locals ≡ length at.old.locals) }
    ensures begun { OnOk result (at.new.did.begun ≤ at.old.did.begun + steps_in (command stmt.now)) }
{
    match stmt {
        Stmt::Let(v, e) => Ok(at.set_local(*v, e)),
        Stmt::Read(v, table, index) => at.read(*v, *table, index),
        Stmt::Write(table, index, e) => at.write(*table, index, e),
        Stmt::Print(e) => at.print(e),
        Stmt::If(e, yes, no) => match at.test(e) {
            Ok(true) => block(at, yes),
            Ok(false) => block(at, no),
            Err(stop) => Ok(Some(stop)),
        },
        Stmt::Repeat(times, body) => repeat(at, *times, body),
        Stmt::Abort => {
            at.did.begin();
            Ok(Some(Stop::Ends(Ending::Abort)))
        }
    }
}

/// Does the statements of a block one after another, up to one that stops.
#[cycle(run)]
pub fn block<S: Source>(at: &mut Execution<S>, block: &Block) -> Result<Option<Stop>, NoMemory>
    requires fits { Fits (length at.old.locals) (commands block.now) }
    requires few { at.old.did.begun + steps (commands block.now) ≤ MOST_STEPS }
    ensures step { IfOk result (IsStep S.answer at.old at.new (all_actions (commands block.now))) }
    ensures locals { OnOk result (length at.new.locals ≡ length at.old.locals) }
    ensures begun { OnOk result (at.new.did.begun ≤ at.old.did.begun + steps (commands block.now)) }
{
    for stmt in block.stmts.as_slice() {
        if let Some(stop) = statement(at, stmt)? {
            return Ok(Some(stop));
        }
    }
    Ok(None)
}
