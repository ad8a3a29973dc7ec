//! The messages of the protocol as plain values, and the events of a run.
//!
//! What a message means to those who send and take it is said in `protocol`. Here a body, an envelope and what stands in
//! them can be copied (`copies`); `specs/Events` says which node an event moves.
#![tactic(auto)]

mod copies;

pub use copies::{copy_content, copy_kept};
use morty_base::{Ending, Exec, Key, List, NodeId, Version, Wid};

/// What a replica thinks of an execution: commit it, not for now, or never.
#[derive(Clone, Copy, Debug, PartialEq, Eq)]
pub enum Vote {
    Commit,
    Tentative,
    Final,
}

/// What is decided about an execution.
#[derive(Clone, Copy, Debug, PartialEq, Eq)]
pub enum Choice {
    Abandon,
    Commit,
}

/// A read that was answered: which write it saw, and that write's value.
#[derive(Clone, Copy, Debug, PartialEq, Eq)]
pub struct Read {
    pub key: Key,
    pub wid: Wid,
    pub value: i64,
}

/// A write. Its name is its execution with its place, from 1, in the list that it stands in.
#[derive(Clone, Copy, Debug, PartialEq, Eq)]
pub struct Write {
    pub key: Key,
    pub value: i64,
}

/// All that an execution did: its reads in order, the writes that it keeps, its printed numbers, its ending.
#[derive(Debug, Drop)]
pub struct Content {
    pub reads: List<Read>,
    pub writes: List<Write>,
    pub out: List<i64>,
    pub ending: Ending,
}

/// The pair that a replica accepted: a view, and the choice that was proposed in it.
#[derive(Clone, Copy, Debug, PartialEq, Eq)]
pub struct Accept {
    pub view: u32,
    pub choice: Choice,
}

/// An execution with its content.
#[derive(Debug, Drop)]
pub struct Kept {
    pub exec: Exec,
    pub content: Content,
}

/// The last write of a key at or below a dropped version.
#[derive(Clone, Copy, Debug, PartialEq, Eq)]
pub struct BaseEntry {
    pub key: Key,
    pub wid: Wid,
    pub value: i64,
}

/// What an envelope says. In `Finalize` and `Decide` a content is there exactly for `Commit`.
#[derive(Debug, Drop)]
pub enum Body {
    /// A client reads a key.
    Get {
        exec: Exec,
        key: Key,
    },
    /// The write that a reader of this version sees of the key now. `gone` names the write that it was told
    /// before, where the replica no longer holds that.
    Note {
        ver: Version,
        key: Key,
        wid: Wid,
        value: i64,
        sure: bool,
        gone: Option<Wid>,
    },
    /// All writes that an execution has made so far.
    Puts {
        exec: Exec,
        writes: List<Write>,
    },
    /// A client asks for votes on an execution that has ended.
    Prepare {
        exec: Exec,
        content: Content,
    },
    /// A replica's vote on an execution.
    Vote {
        exec: Exec,
        vote: Vote,
    },
    /// A choice is proposed in a view. View 0 is the client's own, those above belong to wardens.
    Finalize {
        exec: Exec,
        view: u32,
        choice: Choice,
        content: Option<Content>,
    },
    /// A replica accepted what was proposed in the view.
    Accepted {
        exec: Exec,
        view: u32,
    },
    /// The choice is made.
    Decide {
        exec: Exec,
        choice: Choice,
        content: Option<Content>,
    },
    /// A warden asks for a promise in its view, and for what is known of the execution.
    Ask {
        exec: Exec,
        view: u32,
    },
    /// A replica promised the view, and tells what it knows.
    Told {
        exec: Exec,
        view: u32,
        vote: Option<Vote>,
        accepted: Option<Accept>,
        decided: Option<Choice>,
        content: Option<Content>,
    },
    /// A warden asks replicas to vote Commit on nothing more at or below `w`.
    Fence {
        w: Version,
    },
    /// A replica's answer: what it dropped before, and what it knows at or below `w`.
    Fenced {
        w: Version,
        base: List<BaseEntry>,
        committed: List<Kept>,
        voted: List<Kept>,
    },
    /// All at or below `w` may go; `base` stands for it.
    Drop {
        w: Version,
        base: List<BaseEntry>,
    },
    /// The version is at or below the dropped `w`, and can read nothing any more.
    TooOld {
        ver: Version,
        w: Version,
    },
}

/// A body on its way between two nodes.
#[derive(Debug, Drop)]
pub struct Envelope {
    pub from: NodeId,
    pub to: NodeId,
    pub body: Body,
}

/// What a node's link picks to happen next. `Deliver` names an envelope by its place, from 0, in the order of
/// sending.
#[derive(Clone, Copy, Debug, PartialEq, Eq)]
pub enum Pick {
    Idle,
    Deliver(u64),
    Go,
    Hurry,
    Recover(Exec),
    Truncate(Version),
    Stop,
}

/// What happens in a run: a pick of a node, or the pending segment of a client's program is given back.
#[derive(Clone, Copy, Debug, PartialEq, Eq)]
pub enum Event {
    Picked(NodeId, Pick),
    Ran(u32),
}
