//! What became of a command (Ravana, 4.2), as a number in the message that tells it.

/// It was done.
pub const DONE: u16 = 0;

/// It was refused, with an error.
pub const FAILED: u16 = 1;

/// It was carried out before, and what became of it isn't kept.
pub const CLEARED: u16 = 2;
