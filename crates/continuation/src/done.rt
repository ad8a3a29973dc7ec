ghost use Rattle.std.specs.Prelude.{◌≡◌, ◌+◌, ◌≤◌, Some, slice_get, IfOk};
ghost use Rattle.flat_code.specs.Operation.{Flat};
ghost use Rattle.continuation.specs.Job.{IsJobRun, CountsAtMost, FitsCode, FitsCodes};

use crate::segment::{Job, JobAt, Seg};
use crate::segments::{resume, start};
use flat_code::Code;
use morty_base::{Ledger, NoMemory, Steps};
use std::alloc::Global;
use std::marker::Model;

/// A job with its run. It shares the code on which it ran.
#[derive(Debug, Drop)]
pub struct Done {
    job: Job,
    seg: Seg,
    code: Code,
}

impl Model for Done {
    ghost use Rattle.continuation.specs.Job.{Finished, IsJobRun};
    ghost use Rattle.flat_code.specs.contracts.op.Op as op;
    ghost use Rattle.std.specs.Coded.{codes};

    ghost Value = { Finished };

    ghost coded = { Prim.hlevel (codes, op.the_row.coded) };

    ghost view = { λ d. record { job = d.job; seg = d.seg; code = d.code } };

    ghost invariant = { λ d. IsJobRun d.code d.job.at d.seg };
}

impl Done {
    pub fn job(&self) -> &Job
        ensures { result.now ≡ self.now.job }
    {
        &self.job
    }

    pub fn seg(&self) -> &Seg
        ensures value { result.now ≡ self.now.seg }
        ensures run { IsJobRun self.now.code self.now.job.at result.now }
    {
        &self.seg
    }

    pub fn code(&self) -> &Code
        ensures { result.now ≡ self.now.code }
    {
        &self.code
    }
}

fn run_at<L: Ledger>(
    alloc: Global,
    code: &Code,
    at: &JobAt,
    steps: &mut Steps<L>,
) -> Result<Seg, NoMemory>
    requires { FitsCode code.now at.now }
    ensures run { IfOk result (λ seg. IsJobRun code.now at.now seg) }
    ensures counted { IfOk result (λ seg. steps.new ≡ steps.old + seg.ran) }
    ensures at_most { CountsAtMost code.now at.now steps.old steps.new }
{
    match at {
        JobAt::Start => start(alloc, code, steps),
        JobAt::From { cont, value, known } => {
            resume(alloc, code, cont, *value, known.as_slice(), steps)
        }
    }
}

/// Runs a job on its program's code. A refused job is dropped.
pub fn run_job<L: Ledger>(
    alloc: Global,
    codes: &[Code],
    job: Job,
    steps: &mut Steps<L>,
) -> Result<Done, NoMemory>
    requires { FitsCodes codes.now job }
    ensures job { IfOk result (λ d. d.job ≡ job) }
    ensures code { IfOk result (λ d. slice_get codes.now job.prog ≡ Some d.code) }
    ensures counted { IfOk result (λ d. steps.new ≡ steps.old + d.seg.ran) }
    ensures at_most { (code : Flat) → slice_get codes.now job.prog ≡ Some code → CountsAtMost code job.at steps.old steps.new }
{
    let code = codes[usize::from(job.prog)].share()?;
    let seg = run_at(alloc, &code, &job.at, steps)?;
    Ok(Done { job, seg, code })
}
