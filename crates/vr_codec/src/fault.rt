//! Why bytes spell no message.
ghost use Rattle.std.specs.Prelude.{◌≡◌};
ghost use Rattle.vr_codec.specs.declared.fault.VrFault.TheVariants as fault;

use std::alloc::{AllocError, AllocFailed};

/// The first thing that is wrong with bytes.
#[derive(Clone, Copy, PartialEq, Eq, Debug)]
pub enum VrRefusal {
    /// The bytes end too early.
    Short,
    /// The kind of a message or of an entry, or the flag of a log, is not known.
    BadKind,
    /// Bytes are left over, the length of an event's message is not its own, or a log is past its limits.
    BadLength,
    /// The message of an event is refused, or is none of PACKET_IN, PORT_STATUS and FLOW_REMOVED.
    BadEvent,
}

/// Why no message was read.
#[derive(Clone, Copy, PartialEq, Eq, Debug)]
pub enum VrFault {
    Refused(VrRefusal),
    OutOfMemory,
}

impl From<VrRefusal> for VrFault {
    ghost from_gives = { λ refused f. f ≡ fault.Refused refused };

    fn from(refused: VrRefusal) -> VrFault {
        VrFault::Refused(refused)
    }
}

impl From<AllocError> for VrFault {
    ghost from_gives = { λ _ f. f ≡ fault.OutOfMemory };

    fn from(_refused: AllocError) -> VrFault {
        VrFault::OutOfMemory
    }
}

impl<T: Drop> From<AllocFailed<T>> for VrFault {
    ghost from_gives = { λ _ f. f ≡ fault.OutOfMemory };

    fn from(_refused: AllocFailed<T>) -> VrFault {
        VrFault::OutOfMemory
    }
}
