ghost use Rattle.std.specs.Prelude.{◌≡◌, ◌+◌, ◌≤◌, IfOk};
ghost use Rattle.txn_lang.specs.Program.{Program};
ghost use Rattle.flat_code.specs.Does.{IsCodeOf};
ghost use Rattle.continuation.specs.Place.{Question, StandsFor};
ghost use Rattle.continuation.specs.Job.{IsJobRun, CountsAtMost};

use crate::running::run_on;
use crate::segment::{Cont, JobAt, Known, Seg};
use flat_code::{Code, Frame, first_frame, give_answer};
use morty_base::{Ledger, List, NoMemory, Steps};
use std::alloc::Global;

/// The first segment of a program.
pub fn start<L: Ledger>(alloc: Global, code: &Code, steps: &mut Steps<L>) -> Result<Seg, NoMemory>
    requires { (p : Program) × IsCodeOf code.now p }
    ensures run { IfOk result (λ seg. IsJobRun code.now JobAt.Start seg) }
    ensures counted { IfOk result (λ seg. steps.new ≡ steps.old + seg.ran) }
    ensures at_most { CountsAtMost code.now JobAt.Start steps.old steps.new }
{
    run_on(alloc, code, first_frame(alloc, code)?, &[], steps)
}

/// The segment that follows the answer to the read at a place.
pub fn resume<L: Ledger>(
    alloc: Global,
    code: &Code,
    cont: &Cont,
    value: i64,
    known: &[Known],
    steps: &mut Steps<L>,
) -> Result<Seg, NoMemory>
    requires { (q : Question) × StandsFor code.now q cont.now known.now }
    ensures run { IfOk result (λ seg. IsJobRun code.now (JobAt.From cont.now value known.now) seg) }
    ensures counted { IfOk result (λ seg. steps.new ≡ steps.old + seg.ran) }
    ensures at_most { CountsAtMost code.now (JobAt.From cont.now value known.now) steps.old steps.new }
{
    let mut at = Frame {
        pc: cont.pc,
        loops: cont.loops.copy(alloc)?,
        locals: cont.locals.copy(alloc)?,
    };
    let mut seen = List::new(alloc);
    let key = code.asked(&at);
    seen.push(Known { key, value })?;
    seen.extend_from_slice(known)?;
    give_answer(code, &mut at, value);
    run_on(alloc, code, at, seen.as_slice(), steps)
}
