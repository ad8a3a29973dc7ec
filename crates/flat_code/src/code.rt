ghost use Rattle.std.specs.Prelude.{◌≡◌, ◌+◌, ◌≤◌, ◌^◌, length, IfOk, OnOk, IsTrue, ◌↔◌};
ghost use Rattle.flat_code.specs.Operation.{operation};
ghost use Rattle.flat_code.specs.Step.{gives};
ghost use Rattle.flat_code.specs.Jumps.{IsValid, IsFlat};
ghost use Rattle.flat_code.specs.Does.{fetched, performed, ticks, ticks_of, answered_at, first_frame, IsPlace, IsReached, IsAsking};

use crate::frame::{Frame, OpOut};
use crate::op::Op;
use crate::performing::{begins, perform};
use morty_base::{Key, Ledger, List, NoMemory, Steps};
use std::alloc::Global;
use std::marker::Model;
use std::sync::Arc;
use txn_lang::eval;

/// No run of a program within the limits has more operations: three for each statement that it begins, and the last.
pub const MOST_OPERATIONS: u32 = 12_289;

// What all handles of a code share. Its jumps are valid.
#[derive(Debug, Drop)]
struct Shared {
    ops: List<Op>,
    locals: usize,
}

impl Model for Shared {
    ghost use Rattle.flat_code.specs.Operation.{Flat};
    ghost use Rattle.flat_code.specs.Jumps.{IsFlat};
    ghost use Rattle.flat_code.specs.contracts.op.Op as op;
    ghost use Rattle.std.specs.Coded.{codes};

    ghost Value = { Flat };

    ghost coded = { Prim.hlevel (codes, op.the_row.coded) };

    ghost view = { λ c. record { operations = c.ops; locals = c.locals } };

    ghost invariant = { λ c. IsFlat (record { operations = c.ops; locals = c.locals }) };
}

/// Flat code, by a handle: those that `share` gives hold the same operations.
#[derive(Debug, Drop)]
pub struct Code {
    shared: Arc<Shared, Global>,
}

impl Model for Code {
    ghost use Rattle.std.specs.Arc.{arc_value};
    ghost use Rattle.flat_code.specs.Operation.{Flat};
    ghost use Rattle.flat_code.specs.contracts.op.Op as op;
    ghost use Rattle.std.specs.Coded.{codes};

    ghost Value = { Flat };

    ghost coded = { Prim.hlevel (codes, op.the_row.coded) };

    ghost view = { λ c. arc_value c.shared };
}

impl Code {
    pub(crate) fn new(alloc: Global, ops: List<Op>, locals: usize) -> Result<Code, NoMemory>
        requires { IsFlat (record { operations = ops; locals = locals }) }
        ensures { IfOk result (λ code. code ≡ record { operations = ops; locals = locals }) }
    {
        let shared = Arc::new(alloc, Shared { ops, locals })?;
        Ok(Code { shared })
    }

    /// One more handle of this code. It counts, and copies nothing.
    pub fn share(&self) -> Result<Code, NoMemory>
        ensures { IfOk result (λ code. code ≡ self.now) }
    {
        let shared = Arc::try_clone(&self.shared)?;
        Ok(Code { shared })
    }

    fn op_at(&self, at: &Frame) -> &Op
        requires { IsPlace self.now at.now }
        ensures fetched { fetched self.now at.now.pc ≡ Some (operation result.now) }
        ensures valid { IsValid (length at.now.locals) (2 ^ 32) at.now.pc (operation result.now) }
    {
        &self.shared.ops.as_slice()[at.pc as usize]
    }

    /// Whether the operation at a place begins a statement.
    pub fn begins(&self, at: &Frame) -> bool
        requires { IsReached self.now at.now }
        ensures { ticks self.now at.now ≡ ticks_of result }
    {
        begins(self.op_at(at))
    }

    /// The key that the read at a place asks for.
    pub fn asked(&self, at: &Frame) -> Key
        requires { IsAsking self.now at.now }
        ensures { performed self.now at.now ≡ gives (OpOut.Asks result) at.now }
    {
        let Op::Read(_, table, index) = self.op_at(at) else {
            unreachable!();
        };
        let Ok(index) = eval(index, at.locals.as_slice()) else {
            unreachable!();
        };
        Key {
            table: *table,
            index,
        }
    }
}

/// The place before the first operation.
pub fn first_frame(alloc: Global, code: &Code) -> Result<Frame, NoMemory>
    ensures { IfOk result (λ f. f ≡ first_frame code.now) }
{
    Ok(Frame {
        pc: 0,
        loops: List::new(alloc),
        locals: List::from_vec(vec![in alloc; 0; code.shared.locals]?),
    })
}

/// Runs one operation. It needs a place that some run of the code reaches; where a question was asked, that its answer
/// was given.
pub fn step_op<L: Ledger>(
    code: &Code,
    at: &mut Frame,
    steps: &mut Steps<L>,
) -> Result<OpOut, NoMemory>
    requires { IsReached code.now at.old }
    ensures step { IfOk result (λ out. gives out at.new ≡ performed code.now at.old) }
    ensures counted { OnOk result (steps.new ≡ steps.old + ticks code.now at.old) }
    ensures at_most { steps.new ≤ steps.old + ticks code.now at.old }
{
    let op = code.op_at(at);
    if begins(op) {
        steps.tick();
    }
    perform(op, at)
}

/// Gives the read that was asked its value.
pub fn give_answer(code: &Code, at: &mut Frame, value: i64)
    requires { IsAsking code.now at.old }
    ensures { at.new ≡ answered_at (fetched code.now at.old.pc) at.old value }
{
    let Op::Read(v, _, _) = code.op_at(at) else {
        unreachable!();
    };
    at.locals.set(usize::from(*v), value);
    at.pc += 1;
}
