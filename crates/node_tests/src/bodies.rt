//! Bodies of envelopes as data of constant size.

use crate::checks::MEMORY;
use morty_base::{Ending, Exec, Key, List, Version, Wid};
use msg::{Accept, BaseEntry, Body, Choice, Content, Kept, Read, Vote, Write};
use std::alloc::Global;
use std::process::Abort;

/// What an execution read, wrote and printed, and how it ended.
pub(crate) struct Made {
    pub reads: &'static [Read],
    pub writes: &'static [Write],
    pub out: &'static [i64],
    pub ending: Ending,
}

/// What a node says.
pub(crate) enum Said {
    Get(Exec, Key),
    Note(Version, Key, Wid, i64, bool, Option<Wid>),
    Puts(Exec, &'static [Write]),
    Prepare(Exec, Made),
    Vote(Exec, Vote),
    Finalize(Exec, u32, Choice, Option<Made>),
    Accepted(Exec, u32),
    Decide(Exec, Choice, Option<Made>),
    Ask(Exec, u32),
    Told(Exec, u32, Option<Vote>, Option<Accept>, Option<Choice>, Option<Made>),
    Fence(Version),
    Fenced(Version, &'static [BaseEntry], &'static [(Exec, Made)], &'static [(Exec, Made)]),
    Drop(Version, &'static [BaseEntry]),
    TooOld(Version, Version),
}

/// The content.
pub(crate) fn content(rt: &impl Abort, alloc: Global, made: &Made) -> Content {
    Content {
        reads: List::from_slice(alloc, made.reads).expect(rt, MEMORY),
        writes: List::from_slice(alloc, made.writes).expect(rt, MEMORY),
        out: List::from_slice(alloc, made.out).expect(rt, MEMORY),
        ending: made.ending,
    }
}

fn content_if(rt: &impl Abort, alloc: Global, made: &Option<Made>) -> Option<Content> {
    match made {
        None => None,
        Some(made) => Some(content(rt, alloc, made)),
    }
}

fn base(rt: &impl Abort, alloc: Global, entries: &[BaseEntry]) -> List<BaseEntry> {
    List::from_slice(alloc, entries).expect(rt, MEMORY)
}

fn kept(rt: &impl Abort, alloc: Global, made: &[(Exec, Made)]) -> List<Kept> {
    let mut kept = List::new(alloc);
    for (exec, made) in made {
        let content = content(rt, alloc, made);
        kept.push(Kept {
            exec: *exec,
            content,
        })
        .expect(rt, MEMORY);
    }
    kept
}

/// The body that is said.
pub(crate) fn body(rt: &impl Abort, alloc: Global, said: &Said) -> Body {
    match said {
        Said::Get(exec, key) => Body::Get {
            exec: *exec,
            key: *key,
        },
        Said::Note(ver, key, wid, value, sure, gone) => Body::Note {
            ver: *ver,
            key: *key,
            wid: *wid,
            value: *value,
            sure: *sure,
            gone: *gone,
        },
        Said::Puts(exec, writes) => Body::Puts {
            exec: *exec,
            writes: List::from_slice(alloc, writes).expect(rt, MEMORY),
        },
        Said::Prepare(exec, made) => Body::Prepare {
            exec: *exec,
            content: content(rt, alloc, made),
        },
        Said::Vote(exec, vote) => Body::Vote {
            exec: *exec,
            vote: *vote,
        },
        Said::Finalize(exec, view, choice, made) => Body::Finalize {
            exec: *exec,
            view: *view,
            choice: *choice,
            content: content_if(rt, alloc, made),
        },
        Said::Accepted(exec, view) => Body::Accepted {
            exec: *exec,
            view: *view,
        },
        Said::Decide(exec, choice, made) => Body::Decide {
            exec: *exec,
            choice: *choice,
            content: content_if(rt, alloc, made),
        },
        Said::Ask(exec, view) => Body::Ask {
            exec: *exec,
            view: *view,
        },
        Said::Told(exec, view, vote, accepted, decided, made) => Body::Told {
            exec: *exec,
            view: *view,
            vote: *vote,
            accepted: *accepted,
            decided: *decided,
            content: content_if(rt, alloc, made),
        },
        Said::Fence(w) => Body::Fence { w: *w },
        Said::Fenced(w, entries, committed, voted) => Body::Fenced {
            w: *w,
            base: base(rt, alloc, entries),
            committed: kept(rt, alloc, committed),
            voted: kept(rt, alloc, voted),
        },
        Said::Drop(w, entries) => Body::Drop {
            w: *w,
            base: base(rt, alloc, entries),
        },
        Said::TooOld(ver, w) => Body::TooOld { ver: *ver, w: *w },
    }
}
