use crate::execution::begin;
use crate::programs::{FIVE, program};
use continuation::{Done, Job, JobAt};
use std::test::Fail;
use std::thread;
use std::thread::Threads;

// Another thread takes both, and reads them.
fn read_there(rt: &impl Threads, job: Job, done: Done) -> (u64, u32) {
    let (read, ()) = thread::join(rt, move || (job.serial, done.seg().ran), || ());
    read
}

#[test]
fn jobs_and_what_is_done_cross_threads(rt: HostRuntime) -> Result<(), Fail> {
    let alloc = rt.alloc();
    let prog = program(alloc, &rt, FIVE)?;
    let first = begin(alloc, &prog)?;
    let job = Job {
        client: 1,
        prog: 0,
        serial: 7,
        at: JobAt::Start,
    };
    assert_eq!(rt; read_there(&rt, job, first.last), (7, 4));
    Ok(())
}
