//! Bodies of envelopes as data of constant size.

use morty_base::{Ending, Exec, Key, List, NoMemory, Version, Wid};
use msg::{Body, Choice, Content, Read, Vote, Write};
use std::alloc::Global;

/// What an execution read, wrote and printed. It ended Done.
#[derive(Clone, Copy)]
pub(crate) struct Made {
    pub reads: &'static [Read],
    pub writes: &'static [Write],
    pub out: &'static [i64],
}

/// What clients, a replica and a warden say in these runs. Proposals are in view 0 and of Abandon, and a base is empty.
#[derive(Clone, Copy)]
pub(crate) enum Said {
    Get(Exec, Key),
    Note(Version, Key, Wid, i64, bool, Option<Wid>),
    Puts(Exec, &'static [Write]),
    Prepare(Exec, Made),
    Vote(Exec, Vote),
    Propose(Exec),
    Accepted(Exec),
    Commit(Exec, Made),
    Abandon(Exec),
    Drop(Version),
    TooOld(Version, Version),
}

fn content(alloc: Global, made: Made) -> Result<Content, NoMemory> {
    let reads = List::from_slice(alloc, made.reads)?;
    let writes = List::from_slice(alloc, made.writes)?;
    let out = List::from_slice(alloc, made.out)?;
    Ok(Content {
        reads,
        writes,
        out,
        ending: Ending::Done,
    })
}

fn puts(alloc: Global, exec: Exec, writes: &[Write]) -> Result<Body, NoMemory> {
    let writes = List::from_slice(alloc, writes)?;
    Ok(Body::Puts { exec, writes })
}

fn prepare(alloc: Global, exec: Exec, made: Made) -> Result<Body, NoMemory> {
    let content = content(alloc, made)?;
    Ok(Body::Prepare { exec, content })
}

fn commit(alloc: Global, exec: Exec, made: Made) -> Result<Body, NoMemory> {
    let content = content(alloc, made)?;
    Ok(Body::Decide {
        exec,
        choice: Choice::Commit,
        content: Some(content),
    })
}

/// The body that is said.
pub(crate) fn body(alloc: Global, said: Said) -> Result<Body, NoMemory> {
    match said {
        Said::Get(exec, key) => Ok(Body::Get { exec, key }),
        Said::Note(ver, key, wid, value, sure, gone) => Ok(Body::Note {
            ver,
            key,
            wid,
            value,
            sure,
            gone,
        }),
        Said::Puts(exec, writes) => puts(alloc, exec, writes),
        Said::Prepare(exec, made) => prepare(alloc, exec, made),
        Said::Vote(exec, vote) => Ok(Body::Vote { exec, vote }),
        Said::Propose(exec) => Ok(Body::Finalize {
            exec,
            view: 0,
            choice: Choice::Abandon,
            content: None,
        }),
        Said::Accepted(exec) => Ok(Body::Accepted { exec, view: 0 }),
        Said::Commit(exec, made) => commit(alloc, exec, made),
        Said::Abandon(exec) => Ok(Body::Decide {
            exec,
            choice: Choice::Abandon,
            content: None,
        }),
        Said::Drop(w) => Ok(Body::Drop {
            w,
            base: List::new(alloc),
        }),
        Said::TooOld(ver, w) => Ok(Body::TooOld { ver, w }),
    }
}
