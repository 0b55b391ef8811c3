//! What a run of a group is, as definitions alone. They are read in this order: `Messages`, and what bodies say; `States`, what an
//! actor holds and owes after its part of a journal, with `Inputs`; `Legal`, which journals may come about; `Committed`, what is
//! committed and decided; and `Laws`, what is promised of each run. Apart from these stand `Script`, in which order steps are
//! taken; `Closing`, the schedule that brings a run to rest; `Limit`, the journals that its limit cuts short; `Play`, the one
//! journal that a script gives; and `Bound`, how many turns a closing takes. `Bodies` has the two kinds of bodies.
#![tactic(auto)]

ghost use Rattle.run_spec.specs.States.{IsFaithful};
ghost use Rattle.run_spec.specs.Bodies.{own_bodies, byte_bodies};

mod messages;

pub use messages::{Message, Unsealed, Way};

/// A message that is its own body is read again as it was.
pub fn own_bodies_are_faithful()
    ensures { IsFaithful own_bodies }
{}

/// The bytes of a valid message, whose numbers fit their fields, are read again as that message.
pub fn bodies_of_bytes_are_faithful()
    ensures { IsFaithful byte_bodies }
{}
