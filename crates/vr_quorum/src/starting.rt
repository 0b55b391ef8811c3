//! Which log a view starts with.
ghost use Rattle.std.specs.Prelude.{◌≡◌};
ghost use Rattle.vr_log.specs.Choosing as choosing;

use vr_log::{Collected, best_of};

/// The log that a view starts with, of those of a majority, of which this is the first: of the greatest last
/// normal view, and of these the longest.
pub fn starting_log<'a>(first: &'a Collected, rest: &'a [Collected]) -> &'a Collected
    ensures { result.now ≡ choosing.best_of first.now rest.now }
{
    best_of(first, rest)
}
