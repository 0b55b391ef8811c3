//! What a packet is for the actor that it goes to.
ghost use Rattle.std.specs.Prelude.{◌≡◌, ◌<◌, length, slice_get, IfOk, IfSome};
ghost use Rattle.run_spec.specs.Messages.{way_of};

use crate::body::Body;
use crate::player::Player;
use journal::{Actor, Mailbag};
use run_spec::Way;
use std::alloc::{AllocError, Global};

/// What a letter is for the actor that it goes to.
pub fn heard<P: Player, B: Body>(
    alloc: Global,
    from: Actor,
    to: Actor,
    letters: &Mailbag<B>,
    index: usize,
) -> Result<P::Input, AllocError>
    requires { index < length letters.now }
    ensures { IfSome (slice_get letters.now index) (λ letter. IfOk result (λ input. input ≡ P.hears from (B.sealing.spelled (way_of from to) letter.body))) }
{
    let unsealed = B::unseal(alloc, letters, index, way_between(from, to))?;
    Ok(P::hear(alloc, from, unsealed))
}

/// Between whom a packet goes.
fn way_between(from: Actor, to: Actor) -> Way
    ensures { result ≡ way_of from to }
{
    match (from, to) {
        (Actor::Controller(_), Actor::Controller(_)) => Way::Vr,
        (Actor::Switch(_), Actor::Switch(_)) => Way::Link,
        (Actor::Controller(_), Actor::Switch(_)) => Way::Of,
        (Actor::Switch(_), Actor::Controller(_)) => Way::Of,
    }
}
