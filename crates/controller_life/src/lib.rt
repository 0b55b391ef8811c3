//! What ends the life of a controller, and what begins its next one.
#![tactic(auto)]

ghost use Rattle.std.specs.Prelude.{◌≡◌};
ghost use Rattle.controller_life.specs.Life as life;

use journal::Local;

/// Whether a controller falls by a local input, and knows what is stable alone from then on.
pub fn is_crash(input: &Local) -> bool
    ensures { result ≡ life.is_crash input.now }
{
    matches!(input, Local::Crash)
}

/// Whether one that is down begins its next life by it.
pub fn is_restart(input: &Local) -> bool
    ensures { result ≡ life.is_restart input.now }
{
    matches!(input, Local::Restart)
}
