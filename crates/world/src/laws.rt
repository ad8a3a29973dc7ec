//! What holds of each World, whatever events it took: the laws of the protocol, whose worlds it stands for.

ghost use Rattle.world.specs.Laws.{Agreement, OneExecution, SerialReads, FirstCommits, OnePendingJob};

/// No two nodes decide an execution differently.
pub fn agreement()
    ensures { Agreement }
{}

/// At most one execution of a transaction is committed.
pub fn one_execution()
    ensures { OneExecution }
{}

/// What is committed did what the programs do one after another, by rising version, on the first values; and each Drop that
/// was sent carries the map of that run at its version.
pub fn serial_reads()
    ensures { SerialReads }
{}

/// Where nothing disturbs and all that was sent arrived, a transaction that shares no key with another is committed at its
/// first execution.
pub fn first_commits()
    ensures { FirstCommits }
{}

/// The events that a World took fix each pending job, to its place in the code, whether the jobs before it were run by the World or
/// given back to it.
pub fn one_pending_job()
    ensures { OnePendingJob }
{}
