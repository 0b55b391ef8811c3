//! Why bytes spell no message.
ghost use Rattle.std.specs.Prelude.{◌≡◌};
ghost use Rattle.of_messages.specs.declared.fault.BodyFault.TheVariants as body_fault;
ghost use Rattle.of_messages.specs.Errors.{of_match_fault};

use of_match::MatchFault;
use of_types::{
    BAD_FIELD, BAD_MASK, BAD_MATCH_LENGTH, BAD_MATCH_TYPE, BAD_PREREQUISITE, BAD_WILDCARD,
    REPEATED_FIELD, Refusal,
};
use std::alloc::{AllocError, AllocFailed};

/// The first error of bytes, as an ERROR message has it (OpenFlow 1.3, 7.4.4), with the number of the
/// request, or 0 where no whole header is there.
#[derive(Clone, Copy, PartialEq, Eq, Debug)]
pub enum OfFault {
    Wire { kind: u16, code: u16, xid: u32 },
    OutOfMemory,
}

/// The first error of a part of a message.
#[derive(Clone, Copy, PartialEq, Eq, Debug)]
pub enum BodyFault {
    Wire(Refusal),
    OutOfMemory,
}

impl From<AllocError> for BodyFault {
    ghost from_gives = { λ _ fault. fault ≡ body_fault.OutOfMemory };

    fn from(_refused: AllocError) -> BodyFault {
        BodyFault::OutOfMemory
    }
}

impl<T: Drop> From<AllocFailed<T>> for BodyFault {
    ghost from_gives = { λ _ fault. fault ≡ body_fault.OutOfMemory };

    fn from(_refused: AllocFailed<T>) -> BodyFault {
        BodyFault::OutOfMemory
    }
}

impl From<Refusal> for BodyFault {
    ghost from_gives = { λ refused fault. fault ≡ body_fault.Wire refused };

    fn from(refused: Refusal) -> BodyFault {
        BodyFault::Wire(refused)
    }
}

/// The error of a refused match.
pub fn refused_match(fault: MatchFault) -> Refusal
    ensures { result ≡ of_match_fault fault }
{
    match fault {
        MatchFault::BadType => BAD_MATCH_TYPE,
        MatchFault::BadLength => BAD_MATCH_LENGTH,
        MatchFault::BadWildcard => BAD_WILDCARD,
        MatchFault::BadField => BAD_FIELD,
        MatchFault::BadMask => BAD_MASK,
        MatchFault::Prerequisite => BAD_PREREQUISITE,
        MatchFault::Repeated => REPEATED_FIELD,
    }
}

impl From<MatchFault> for BodyFault {
    ghost from_gives = { λ refused fault. fault ≡ body_fault.Wire (of_match_fault refused) };

    fn from(fault: MatchFault) -> BodyFault {
        BodyFault::Wire(refused_match(fault))
    }
}
