//! How large a machine may be. The definitions of `specs/Limits.antt` have the same numbers.

/// The most workers of a machine.
pub const MOST_WORKERS: u8 = 32;

/// The most rows of each worker.
pub const MOST_ROWS: u16 = 1024;

/// The most calls of one worker.
pub const MOST_TIMES: u32 = 1_000_000;
