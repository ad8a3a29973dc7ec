//! Bytes to values. A reader answers what its field judges the bytes to be, so the first bad field decides.

pub(crate) mod bodies;
pub(crate) mod codes;
pub(crate) mod contents;
pub(crate) mod head;
pub(crate) mod names;
pub(crate) mod numbers;
