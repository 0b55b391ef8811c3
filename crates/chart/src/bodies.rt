//! What a body says.
ghost use Rattle.std.specs.Prelude.{◌≡◌, length, IfOk};
ghost use Rattle.of_messages.specs.Reading.{message_at};
ghost use Rattle.of_ravana.specs.Reading.{extension_at};
ghost use Rattle.vr_codec.specs.Reading.{vr_at};
ghost use Rattle.chart.specs.Carried.{carried_by, carried_extension, carried_frame, member_said, message_said};

use crate::shapes::Carried;
use journal::Actor;
use of_bytes::u32_at;
use of_messages::{OfFault, decode};
use of_ravana::decode_extension;
use of_types::{OfMessage, Spoken};
use std::alloc::{AllocError, Global};
use vr_codec::{VrFault, decode_vr};

/// How many bytes the number of a port has in front of a frame on a link.
const PORT: usize = 4;

/// What a body says that one actor sends to another.
#[tactic(auto, unfolding(crate::specs::Carried::carried_by))]
pub fn carried(
    alloc: Global,
    sender: Actor,
    receiver: Actor,
    body: &[u8],
) -> Result<Carried, AllocError>
    ensures { IfOk result (λ carried. carried ≡ carried_by sender receiver body.now) }
{
    match (sender, receiver) {
        (Actor::Controller(_), Actor::Controller(_)) => member(alloc, body),
        (Actor::Switch(_), Actor::Switch(_)) => Ok(on_link(body)),
        _ => spoken(alloc, body),
    }
}

/// What an EXPERIMENTER of so many bytes says with this body.
fn experimenter(alloc: Global, body: &[u8], bytes: usize) -> Result<Carried, AllocError>
    ensures { IfOk result (λ carried. carried ≡ carried_extension bytes (extension_at body.now)) }
{
    match decode_extension(alloc, body) {
        Ok(said) => Ok(Carried::Spoken(Spoken::Ravana(said))),
        Err(OfFault::Wire { .. }) => Ok(Carried::Unread { bytes }),
        Err(OfFault::OutOfMemory) => Err(AllocError),
    }
}

fn spoken(alloc: Global, body: &[u8]) -> Result<Carried, AllocError>
    ensures { IfOk result (λ carried. carried ≡ message_said (length body.now) (message_at body.now)) }
{
    match decode(alloc, body) {
        Ok((_, OfMessage::Experimenter { body: said })) => {
            experimenter(alloc, said.as_slice(), body.len())
        }
        Ok((_, message)) => Ok(Carried::Spoken(Spoken::Plain(message))),
        Err(OfFault::Wire { .. }) => Ok(Carried::Unread { bytes: body.len() }),
        Err(OfFault::OutOfMemory) => Err(AllocError),
    }
}

fn member(alloc: Global, body: &[u8]) -> Result<Carried, AllocError>
    ensures { IfOk result (λ carried. carried ≡ member_said (length body.now) (vr_at body.now)) }
{
    match decode_vr(alloc, body) {
        Ok(message) => Ok(Carried::Member(message)),
        Err(VrFault::Refused(_)) => Ok(Carried::Unread { bytes: body.len() }),
        Err(VrFault::OutOfMemory) => Err(AllocError),
    }
}

fn on_link(body: &[u8]) -> Carried
    ensures { result ≡ carried_frame body.now }
{
    if body.len() < PORT {
        return Carried::Unread { bytes: body.len() };
    }
    Carried::Frame {
        port: u32_at(body, 0),
        bytes: body.len() - PORT,
    }
}
