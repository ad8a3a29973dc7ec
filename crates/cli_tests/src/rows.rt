//! Rows of the tables: a call of the program, and what it answers.

use crate::fixture::{Answer, EACH_SLOT, Handed, Outside, SCRIPT, SOUND, call_by, listed};
use morty_base::NoMemory;
use msg::Event;
use node_future::OpenGate;
use std::alloc::{AllocGlobal, Global};
use std::random::RandomSource;
use std::sync::Wait;
use std::thread::Threads;

/// The words of a call.
pub type Words = &'static [&'static [u8]];

/// What the sink takes.
#[derive(Clone, Copy)]
pub enum Taken {
    /// These bytes.
    All(&'static [u8]),
    /// These bytes and more.
    Front(&'static [u8]),
    /// These bytes somewhere.
    Part(&'static [u8]),
}

impl Taken {
    pub fn is_met(&self, taken: &[u8]) -> bool {
        match self {
            Taken::All(text) => taken == *text,
            Taken::Front(text) => taken.starts_with(*text),
            Taken::Part(text) => (0..taken.len()).any(|place| taken[place..].starts_with(*text)),
        }
    }
}

/// A call of the program, and what it answers.
#[derive(Clone, Copy)]
pub struct Row {
    pub shows: &'static str,
    pub words: Words,
    pub text: &'static [u8],
    pub outside: Outside,
    pub handed: Handed,
    /// Whether it goes through the call that runs in this thread alone.
    pub here: bool,
    pub status: u8,
    pub taken: Taken,
    /// The events that come back, where the row tells them.
    pub events: Option<&'static [Event]>,
    /// How many links come back, where the row tells it.
    pub links: Option<usize>,
}

/// A run of the script where nothing fails.
pub const RUN: Row = Row {
    shows: "",
    words: &[b"run"],
    text: SCRIPT,
    outside: SOUND,
    handed: EACH_SLOT,
    here: false,
    status: 0,
    taken: Taken::All(b""),
    events: None,
    links: None,
};

/// A call with no run behind it.
pub const UNRUN: Row = Row {
    events: Some(&[]),
    ..RUN
};

/// A text that is no script.
pub const REFUSED: Row = Row { status: 3, ..UNRUN };

/// A check of the script.
pub const CHECK: Row = Row {
    words: &[b"check"],
    ..UNRUN
};

impl Row {
    /// What the program answers.
    pub fn answer<R>(&self, rt: &R, alloc: Global) -> Result<Answer, NoMemory>
    where
        R: Threads + Wait + Sync + RandomSource + AllocGlobal,
    {
        let words = listed(alloc, self.words)?;
        call_by(
            rt,
            alloc,
            words.as_slice(),
            self.text,
            &self.outside,
            &self.handed,
            self.here,
            &OpenGate,
        )
    }
}
