//! The numbers that frames stay within.

/// The first byte of a frame.
pub(crate) const WIRE_VERSION: u8 = 1;

/// The most items that a count of 2 bytes may name.
pub(crate) const MAX_SHORT: u16 = 64;

/// The most items that a count of 4 bytes may name.
pub(crate) const MAX_LONG: u32 = 67_108_864;

pub(crate) const MAX_CLIENTS: u8 = 16;

pub(crate) const MAX_REPLICAS: u8 = 5;

pub(crate) const MAX_WARDENS: u8 = 2;
