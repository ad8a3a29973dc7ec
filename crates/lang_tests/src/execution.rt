//! An execution that runs each job as soon as it is pending.

ghost use Rattle.std.specs.Prelude.{IfOk};
ghost use Rattle.lang_tests.specs.Execution.{Stands, IsPending};

use continuation::{Done, Job, JobAt, run_job};
use exec_log::ExecLog;
use flat_code::{Code, flatten};
use morty_base::{NoMemory, Steps, Wid};
use std::alloc::Global;
use std::test::Fail;
use txn_lang::Prog;

/// The code of a program, the log of its execution, and its last job, which was run.
#[derive(Drop)]
pub(crate) struct Execution {
    pub(crate) code: Code,
    pub(crate) log: ExecLog,
    pub(crate) last: Done,
}

// Runs the last job of a log and takes its segment.
fn run_last(alloc: Global, code: Code, mut log: ExecLog, at: JobAt) -> Result<Execution, NoMemory>
    requires { IsPending code log at }
    ensures { IfOk result (λ x. Stands x.code x.log) }
{
    let codes = vec![in alloc; code.share()?]?;
    let job = Job {
        client: 1,
        prog: 0,
        serial: 0,
        at,
    };
    let last = run_job(alloc, codes.as_slice(), job, &mut Steps::<()>::new())?;
    log.take(alloc, last.seg())?;
    Ok(Execution { code, log, last })
}

/// An execution to its first question or its ending.
pub(crate) fn begin(alloc: Global, prog: &Prog) -> Result<Execution, NoMemory>
    ensures { IfOk result (λ x. Stands x.code x.log) }
{
    let code = flatten(alloc, prog)?;
    run_last(alloc, code, ExecLog::new(alloc), JobAt::Start)
}

/// Answers the question.
pub(crate) fn answer(
    alloc: Global,
    execution: Execution,
    wid: Wid,
    value: i64,
) -> Result<Execution, Fail>
    requires { Stands execution.code execution.log }
    ensures { IfOk result (λ x. Stands x.code x.log) }
{
    let Execution { code, mut log, .. } = execution;
    log.asked().ok_or("nothing is asked")?;
    let at = log.answer(alloc, wid, value, true)?;
    Ok(run_last(alloc, code, log, at)?)
}

/// Answers a read anew.
pub(crate) fn rewind(
    alloc: Global,
    execution: Execution,
    i: usize,
    wid: Wid,
    value: i64,
) -> Result<Execution, Fail>
    requires { Stands execution.code execution.log }
    ensures { IfOk result (λ x. Stands x.code x.log) }
{
    let Execution { code, mut log, .. } = execution;
    if i >= log.reads() {
        return Err("there is no such read".into());
    }
    let at = log.rewind(alloc, i, wid, value, true)?;
    Ok(run_last(alloc, code, log, at)?)
}
