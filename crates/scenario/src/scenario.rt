//! What a scenario says, and why bytes are none.
ghost use Rattle.std.specs.Prelude.{◌≡◌};

use journal::Turn;
use of_types::{Items, Setup};
use std::alloc::{AllocError, AllocFailed};

/// The steps of a script, in order.
pub type Steps = Items<Turn>;

/// A setup, and what happens in it.
#[derive(Drop)]
pub struct Scenario {
    pub setup: Setup,
    pub steps: Steps,
}

/// What kind of fault bytes have.
#[derive(Clone, Copy, PartialEq, Eq, Debug)]
pub enum FaultKind {
    /// There are too many bytes.
    Size,
    /// They are no JSON text.
    Json,
    /// A member is missing, further or of another kind.
    Shape,
    /// A value passes a limit, or names what is not there.
    Limit,
}

/// Where a fault stands: at the scenario as a whole, or at an item of one of its lists, counted from 0.
#[derive(Clone, Copy, PartialEq, Eq, Debug)]
pub enum FaultPlace {
    Top,
    Switch(u64),
    Link(u64),
    Deny(u64),
    Step(u64),
}

/// The first fault of bytes that are no scenario.
#[derive(Clone, Copy, PartialEq, Eq, Debug)]
pub struct Fault {
    pub kind: FaultKind,
    pub place: FaultPlace,
}

/// Why no scenario was read: the bytes have a fault, or there was no memory.
#[derive(Clone, Copy, PartialEq, Eq, Debug)]
pub enum ScenarioFault {
    Refused(Fault),
    OutOfMemory,
}

impl ScenarioFault {
    ghost use Rattle.scenario.specs.declared.scenario.Fault.{Fault};
    ghost use Rattle.scenario.specs.declared.scenario.ScenarioFault.TheVariants as faults;

    /// A refusal of this kind, at this place.
    pub(crate) fn refused(kind: FaultKind, place: FaultPlace) -> ScenarioFault
        ensures { result ≡ faults.Refused (record { kind = kind; place = place }) }
    {
        ScenarioFault::Refused(Fault { kind, place })
    }
}

impl From<AllocError> for ScenarioFault {
    ghost use Rattle.scenario.specs.declared.scenario.ScenarioFault.TheVariants.{OutOfMemory};

    ghost from_gives = { λ _ fault. fault ≡ OutOfMemory };

    fn from(_refused: AllocError) -> ScenarioFault {
        ScenarioFault::OutOfMemory
    }
}

impl<T: Drop> From<AllocFailed<T>> for ScenarioFault {
    ghost use Rattle.scenario.specs.declared.scenario.ScenarioFault.TheVariants.{OutOfMemory};

    ghost from_gives = { λ _ fault. fault ≡ OutOfMemory };

    fn from(_refused: AllocFailed<T>) -> ScenarioFault {
        ScenarioFault::OutOfMemory
    }
}
