use continuation::Cont;
use morty_base::{Key, Wid};

/// A read that was answered, with its label: the write that it saw, and whether that write is sure to stay.
#[derive(Clone, Copy, Debug, PartialEq, Eq)]
pub struct LogRead {
    pub key: Key,
    pub wid: Wid,
    pub value: i64,
    pub sure: bool,
}

// The place at a read, and how much was written and printed before it.
#[derive(Debug, Drop)]
pub(crate) struct Place {
    pub(crate) cont: Cont,
    pub(crate) wrote: usize,
    pub(crate) printed: usize,
}
