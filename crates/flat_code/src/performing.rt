ghost use Rattle.std.specs.Prelude.{◌≡◌, ◌^◌, length, IfOk};
ghost use Rattle.txn_lang.specs.Tree.{term};
ghost use Rattle.txn_lang.specs.Actions.{ending_of};
ghost use Rattle.flat_code.specs.Operation.{operation, begins, Let, Read, Write, Print, Test, Again};
ghost use Rattle.flat_code.specs.Step.{gives, step};
ghost use Rattle.flat_code.specs.Jumps.{IsValid};

use crate::frame::{Frame, OpOut, Write2};
use crate::op::Op;
use morty_base::{Ending, Key, NoMemory};
use txn_lang::{EvalFault, Expr, eval};

// Whether an operation begins a statement.
pub(crate) fn begins(op: &Op) -> bool
    ensures { result ≡ begins (operation op.now) }
{
    match op {
        Op::Go(_) | Op::Again(_) | Op::Finish => false,
        Op::Let(..) | Op::Read(..) | Op::Write(..) | Op::Print(_) => true,
        Op::Test(..) | Op::Enter(_) | Op::Skip | Op::Abort => true,
    }
}

// Does one operation.
pub(crate) fn perform(op: &Op, at: &mut Frame) -> Result<OpOut, NoMemory>
    requires { IsValid (length at.old.locals) (2 ^ 32) at.old.pc (operation op.now) }
    ensures { IfOk result (λ out. gives out at.new ≡ step (operation op.now) at.old) }
{
    match op {
        Op::Let(v, e) => Ok(assign(at, *v, e)),
        Op::Read(v, table, index) => Ok(ask(at, *v, *table, index)),
        Op::Write(table, index, e) => Ok(write(at, *table, index, e)),
        Op::Print(e) => Ok(print(at, e)),
        Op::Test(e, past) => Ok(test(at, e, *past)),
        Op::Go(past) => {
            at.pc += 1 + *past;
            Ok(OpOut::Went)
        }
        Op::Enter(further) => {
            at.loops.push(*further)?;
            at.pc += 1;
            Ok(OpOut::Went)
        }
        Op::Again(back) => turn(at, *back),
        Op::Skip => {
            at.pc += 1;
            Ok(OpOut::Went)
        }
        Op::Abort => Ok(OpOut::Ends(Ending::Abort)),
        Op::Finish => Ok(OpOut::Ends(Ending::Done)),
    }
}

// A fault ends the run.
fn ends(fault: EvalFault) -> OpOut
    ensures { result ≡ OpOut.Ends (ending_of fault) }
{
    OpOut::Ends(match fault {
        EvalFault::Overflow => Ending::Overflow,
        EvalFault::ZeroDivisor => Ending::ZeroDivisor,
    })
}

fn assign(at: &mut Frame, v: u16, e: &Expr) -> OpOut
    requires { IsValid (length at.old.locals) (2 ^ 32) at.old.pc (Let v (term e.now)) }
    ensures { gives result at.new ≡ step (Let v (term e.now)) at.old }
{
    match eval(e, at.locals.as_slice()) {
        Ok(x) => {
            at.locals.set(usize::from(v), x);
            at.pc += 1;
            OpOut::Went
        }
        Err(fault) => ends(fault),
    }
}

fn ask(at: &mut Frame, v: u16, table: u16, index: &Expr) -> OpOut
    requires { IsValid (length at.old.locals) (2 ^ 32) at.old.pc (Read v table (term index.now)) }
    ensures { gives result at.new ≡ step (Read v table (term index.now)) at.old }
{
    match eval(index, at.locals.as_slice()) {
        Ok(index) => OpOut::Asks(Key { table, index }),
        Err(fault) => ends(fault),
    }
}

fn write(at: &mut Frame, table: u16, index: &Expr, e: &Expr) -> OpOut
    requires { IsValid (length at.old.locals) (2 ^ 32) at.old.pc (Write table (term index.now) (term e.now)) }
    ensures { gives result at.new ≡ step (Write table (term index.now) (term e.now)) at.old }
{
    let index = match eval(index, at.locals.as_slice()) {
        Ok(index) => index,
        Err(fault) => return ends(fault),
    };
    match eval(e, at.locals.as_slice()) {
        Ok(value) => {
            at.pc += 1;
            let key = Key { table, index };
            OpOut::Wrote(Write2 { key, value })
        }
        Err(fault) => ends(fault),
    }
}

fn print(at: &mut Frame, e: &Expr) -> OpOut
    requires { IsValid (length at.old.locals) (2 ^ 32) at.old.pc (Print (term e.now)) }
    ensures { gives result at.new ≡ step (Print (term e.now)) at.old }
{
    match eval(e, at.locals.as_slice()) {
        Ok(x) => {
            at.pc += 1;
            OpOut::Printed(x)
        }
        Err(fault) => ends(fault),
    }
}

fn test(at: &mut Frame, e: &Expr, past: u32) -> OpOut
    requires { IsValid (length at.old.locals) (2 ^ 32) at.old.pc (Test (term e.now) past) }
    ensures { gives result at.new ≡ step (Test (term e.now) past) at.old }
{
    match eval(e, at.locals.as_slice()) {
        Ok(x) => {
            at.pc += if x != 0 { 1 } else { 1 + past };
            OpOut::Went
        }
        Err(fault) => ends(fault),
    }
}

// The end of a loop's body.
fn turn(at: &mut Frame, back: u32) -> Result<OpOut, NoMemory>
    requires { IsValid (length at.old.locals) (2 ^ 32) at.old.pc (Again back) }
    ensures { IfOk result (λ out. gives out at.new ≡ step (Again back) at.old) }
{
    match at.loops.pop() {
        None | Some(0) => at.pc += 1,
        Some(further) => {
            at.loops.push(further - 1)?;
            at.pc -= back;
        }
    }
    Ok(OpOut::Went)
}
