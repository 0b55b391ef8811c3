//! Statuses that no line tells.

/// The status of a call whose sink failed.
pub const WRITE_FAILED: u8 = 5;

/// The status of a call that found no memory.
pub const NO_MEMORY: u8 = 6;
