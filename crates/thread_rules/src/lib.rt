//! Rules of threads that play apart: whose a step is, and which of two causes to stop counts.
#![tactic(auto)]

ghost use Rattle.std.specs.Prelude.{◌≡◌};
ghost use Rattle.journal.specs.Actors.{same_actor};
ghost use Rattle.journal.specs.Turns.{turn_actor};
ghost use Rattle.thread_rules.specs.Rules.{worst};

use journal::{Actor, Stop, Turn};

/// Whether a step is an actor's own. It takes each of these, and no other.
pub fn is_own(step: &Turn, actor: Actor) -> bool
    ensures { result ≡ same_actor (turn_actor step.now) actor }
{
    step.actor().is(actor)
}

/// The first of two causes, but want of memory before a full journal.
pub fn worst(first: Option<Stop>, next: Option<Stop>) -> Option<Stop>
    ensures { result ≡ worst first next }
{
    match (first, next) {
        (Some(Stop::OutOfMemory), _) => Some(Stop::OutOfMemory),
        (_, Some(Stop::OutOfMemory)) => Some(Stop::OutOfMemory),
        (Some(stop), _) => Some(stop),
        (None, next) => next,
    }
}
