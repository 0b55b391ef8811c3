//! How a closing ends, and what a turn of it comes to.
use vr_log::LogFull;

/// How a closing ended.
#[derive(Clone, Copy, PartialEq, Eq, Debug)]
pub enum ClosingOutcome {
    /// Nothing waits any more.
    Done { primary: u8 },
    /// Too few controllers take part.
    NoQuorum { up: u64, needed: u64 },
    /// A proposal found no room in the log.
    Overfull(LogFull),
}

/// What the turn of a member of the quorum came to.
#[derive(Clone, Copy, PartialEq, Eq, Debug)]
pub enum TurnOutcome {
    ToRest,
    ToAFailedSave,
    ToTheLimit(LogFull),
}
