//! Values to bytes.

pub(crate) mod bodies;
pub(crate) mod codes;
pub(crate) mod contents;
pub(crate) mod head;
pub(crate) mod names;
pub(crate) mod numbers;
