/// How long a script may be, in bytes.
pub const LONGEST_SCRIPT: usize = 1_048_576;

pub const MOST_WARDENS: u64 = 2;

pub const MOST_TRIES: u64 = 8;

pub const MOST_EXECS: u64 = 64;

pub const GREATEST_GAP: u64 = 1_000_000;

/// How many turns each node may make.
pub const MOST_TURNS: u64 = 20_000;

pub const MOST_TABLES: usize = 256;

pub const MOST_PROGRAMS: usize = 1024;

pub const MOST_CLIENTS: usize = 16;

/// How many transactions a client may have.
pub const MOST_TRANSACTIONS: usize = 64;

/// The latest time at which a transaction may be allowed to start.
pub const LATEST_START: u64 = 1_000_000_000_000;

/// The greatest percentage of a net.
pub const GREATEST_PERCENTAGE: u64 = 100;

/// For how many calls an entry of a list may stand.
pub const MOST_CALLS: u64 = 20_000;

/// The greatest client of a version and the greatest execution that a plan may name.
pub const GREATEST_PLANNED: u64 = 4_294_967_295;
