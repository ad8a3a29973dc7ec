ghost use Rattle.std.specs.Prelude.{◌≡◌, ◌≤◌, ◌<◌, ◌^◌, [], ◌∷◌, length, map, IfOk};
ghost use Rattle.txn_lang.specs.Tree.{command, commands};
ghost use Rattle.txn_lang.specs.Limits.{steps_in, steps};
ghost use Rattle.txn_lang.specs.declared.limits.TheConstants.{MOST_STEPS};
ghost use Rattle.flat_code.specs.Operation.{operation};
ghost use Rattle.flat_code.specs.Flat.{flat_in, flat};
ghost use Rattle.flat_code.specs.Does.{IsCodeOf};

use crate::code::Code;
use crate::op::Op;
use morty_base::{List, NoMemory};
use std::alloc::Global;
use txn_lang::{Block, Prog, Stmt};

// One operation.
fn one(alloc: Global, op: Op) -> Result<List<Op>, NoMemory>
    ensures { IfOk result (λ ops. ops ≡ op ∷ []) }
{
    let mut ops = List::new(alloc);
    ops.push(op)?;
    Ok(ops)
}

// How many operations a block has, which fits a jump.
fn size(ops: &List<Op>) -> u32
    requires { length ops.now < 2 ^ 32 }
    ensures { result ≡ length ops.now }
{
    ops.len() as u32
}

#[cycle(flat)]
fn flat_in(alloc: Global, stmt: &Stmt) -> Result<List<Op>, NoMemory>
    requires { steps_in (command stmt.now) ≤ MOST_STEPS }
    ensures { IfOk result (λ ops. map operation ops ≡ flat_in (command stmt.now)) }
{
    match stmt {
        Stmt::Let(v, e) => one(alloc, Op::Let(*v, e.copy(alloc)?)),
        Stmt::Read(v, table, index) => one(alloc, Op::Read(*v, *table, index.copy(alloc)?)),
        Stmt::Write(table, index, e) => {
            let index = index.copy(alloc)?;
            one(alloc, Op::Write(*table, index, e.copy(alloc)?))
        }
        Stmt::Print(e) => one(alloc, Op::Print(e.copy(alloc)?)),
        Stmt::If(e, yes, no) => {
            let yes = flat(alloc, yes)?;
            let no = flat(alloc, no)?;
            let mut ops = one(alloc, Op::Test(e.copy(alloc)?, size(&yes) + 1))?;
            ops.append(yes)?;
            ops.push(Op::Go(size(&no)))?;
            ops.append(no)?;
            Ok(ops)
        }
        Stmt::Repeat(times, body) => {
            if *times == 0 {
                return one(alloc, Op::Skip);
            }
            let body = flat(alloc, body)?;
            if body.is_empty() {
                return one(alloc, Op::Skip);
            }
            let back = size(&body);
            let mut ops = one(alloc, Op::Enter(*times - 1))?;
            ops.append(body)?;
            ops.push(Op::Again(back))?;
            Ok(ops)
        }
        Stmt::Abort => one(alloc, Op::Abort),
    }
}

#[cycle(flat)]
fn flat(alloc: Global, block: &Block) -> Result<List<Op>, NoMemory>
    requires { steps (commands block.now) ≤ MOST_STEPS }
    ensures { IfOk result (λ ops. map operation ops ≡ flat (commands block.now)) }
{
    let mut ops = List::new(alloc);
    for stmt in block.stmts.as_slice() {
        ops.append(flat_in(alloc, stmt)?)?;
    }
    Ok(ops)
}

/// The code of a program: it does what the program does.
pub fn flatten(alloc: Global, p: &Prog) -> Result<Code, NoMemory>
    ensures { IfOk result (λ code. IsCodeOf code p.now) }
{
    let mut ops = flat(alloc, p.body())?;
    ops.push(Op::Finish)?;
    Code::new(alloc, ops, p.names().len())
}
