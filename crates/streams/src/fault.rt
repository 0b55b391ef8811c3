//! Why bytes were not moved.
ghost use Rattle.std.specs.Prelude.{◌≡◌};
ghost use Rattle.streams.specs.declared.fault.StreamFault.TheVariants as faults;

use journal::Failed;
use std::alloc::AllocError;

/// Why bytes were not read or written.
#[derive(Clone, Copy, PartialEq, Eq, Debug)]
pub enum StreamFault {
    /// The source or the sink failed.
    Failed,
    /// There was no memory for the bytes.
    OutOfMemory,
}

impl From<Failed> for StreamFault {
    ghost from_gives = { λ _ fault. fault ≡ faults.Failed };

    fn from(_: Failed) -> StreamFault {
        StreamFault::Failed
    }
}

impl From<AllocError> for StreamFault {
    ghost from_gives = { λ _ fault. fault ≡ faults.OutOfMemory };

    fn from(_: AllocError) -> StreamFault {
        StreamFault::OutOfMemory
    }
}
