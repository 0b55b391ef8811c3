//! Reading a message from left to right.
ghost use Rattle.std.specs.Prelude.{◌≡◌, ◌≤◌, ◌<◌, ◌^◌, ◌↔◌, ℕ, List, Ok, length, drop, IfOk, IfSome, IsSome, IsTrue};
ghost use Rattle.of_types.specs.declared.message.OfMessage.{OfMessage};
ghost use Rattle.of_types.specs.declared.message.OfMessage.TheVariants as plain;
ghost use Rattle.of_bytes.specs.Numbers.{number};
ghost use Rattle.of_bytes.specs.Reading.{Gives};
ghost use Rattle.of_messages.specs.Answers.{GivesBody, IsFirstMessage, IsRead};
ghost use Rattle.of_types.specs.Sizes.{plain_size};
ghost use Rattle.of_types.specs.Valid.{IsValidPlain};
ghost use Rattle.of_messages.specs.Canonical.{canonical};
ghost use Rattle.of_messages.specs.Fits.{FitsPlain};
ghost use Rattle.of_messages.specs.Grammar.{Spells};
ghost use Rattle.of_messages.specs.Reading.{role_at, body_at, message_at, xid_of};

use crate::bodies::{
    read_error, read_experimenter, read_features, read_flow_mod, read_flow_removed, read_packet_in,
    read_packet_out, read_port_status, refuse_body,
};
use crate::fault::{BodyFault, OfFault};
use of_bytes::{u8_at, u16_at, u32_at, u64_at};
use of_types::{
    BAD_LENGTH, BAD_TYPE, BAD_VERSION, Octets, OfMessage, Refusal, VERSION, message_type,
};
use std::alloc::Global;

/// The length of a header.
const HEADER: usize = 8;

/// How many bytes of the body of an EXPERIMENTER are always there.
const EXPERIMENTER_FRONT: usize = 8;

/// Reads a message without the number of its request, with the errors of `decode`.
#[tactic(auto, unfolding(crate::specs::Reading::message_at))]
pub fn read_message(alloc: Global, bytes: &[u8]) -> Result<OfMessage, BodyFault>
    ensures { GivesBody (λ m. m) result (message_at bytes.now) }
{
    if !bytes.is_empty() && u8_at(bytes, 0) != VERSION {
        return Err(BodyFault::Wire(BAD_VERSION));
    }
    if bytes.len() < HEADER || usize::from(u16_at(bytes, 2)) != bytes.len() {
        return Err(BodyFault::Wire(BAD_LENGTH));
    }
    read_body(alloc, u8_at(bytes, 1), &bytes[HEADER..])
}

/// The number of a request, and 0 where there is no header.
#[tactic(auto, unfolding(crate::specs::Reading::xid_of))]
pub fn xid_of(bytes: &[u8]) -> u32
    ensures { result ≡ xid_of bytes.now }
{
    if bytes.len() < HEADER {
        return 0;
    }
    u32_at(bytes, 4)
}

/// Reads a message, which is all of the frame, and the number of its request. The first error that
/// holds is the answer, in this order: the version; the length of the whole; the type; the length of
/// the body; and then what the body has, from left to right. What stands behind the header of an
/// EXPERIMENTER is passed on unread.
pub fn decode(alloc: Global, frame: &[u8]) -> Result<(u32, OfMessage), OfFault>
    // What is read is spelled so.
    ensures found { IfOk result (λ x. Spells frame.now x.0 x.1) }
    // What is spelled so is read, unless memory runs out.
    ensures only { (xid : ℕ) (m : OfMessage) → Spells frame.now xid m → IsRead (xid, m) result }
    // Which answer it is.
    ensures exact { IsFirstMessage frame.now result }
    // What is read is valid.
    ensures valid { IfOk result (λ x. IsValidPlain x.1) }
    // It is written in no more bytes than it was read from, and so its length fits the header.
    ensures short { IfOk result (λ x. (plain_size x.1 ≤ length frame.now) × (length frame.now ≤ 65535)) }
{
    first_answer(alloc, frame)
}

/// The body of an EXPERIMENTER as it stands in the frame, where the frame is such a message: what `decode` would copy.
pub fn experimenter_body(frame: &[u8]) -> Option<&[u8]>
    // What is lent is the body of the message that the frame is.
    ensures found { IfSome result (λ body. message_at frame.now ≡ Ok (plain.Experimenter body.now)) }
    // One is lent wherever the frame is such a message.
    ensures only { (body : List ℕ) → message_at frame.now ≡ Ok (plain.Experimenter body) → IsSome result }
{
    if is_experimenter(frame) {
        Some(&frame[HEADER..])
    } else {
        None
    }
}

/// Laws of messages as bytes.
pub fn message_law()
    // What is written is read again.
    ensures again { (xid : ℕ) (m : OfMessage) → IsValidPlain m → FitsPlain m → plain_size m ≤ 65535 → xid < 2 ^ 32 → message_at (canonical xid m) ≡ Ok m }
    // Bytes spell at most one message.
    ensures one { (bytes : List ℕ) (xid other : ℕ) (m n : OfMessage) → Spells bytes xid m → Spells bytes other n → (xid ≡ other) × (m ≡ n) }
    // With the number of the request.
    ensures xid { (xid : ℕ) (m : OfMessage) → xid < 2 ^ 32 → xid_of (canonical xid m) ≡ xid }
    // A message is written in as many bytes as its size tells.
    ensures size { (xid : ℕ) (m : OfMessage) → length (canonical xid m) ≡ plain_size m }
{}

/// Whether the frame is one EXPERIMENTER, with the number of any request.
fn is_experimenter(frame: &[u8]) -> bool
    ensures { IsTrue result ↔ Spells frame.now (number 4 4 frame.now) (plain.Experimenter (drop 8 frame.now)) }
{
    frame.len() >= HEADER + EXPERIMENTER_FRONT
        && u8_at(frame, 0) == VERSION
        && u8_at(frame, 1) == message_type::EXPERIMENTER
        && usize::from(u16_at(frame, 2)) == frame.len()
}

/// A role and a generation.
#[tactic(auto, unfolding(crate::specs::Reading::role_at))]
fn read_role(body: &[u8]) -> Result<(u32, u64), Refusal>
    ensures { Gives (λ x. x) result (role_at body.now) }
{
    if body.len() != 16 {
        return Err(BAD_LENGTH);
    }
    Ok((u32_at(body, 0), u64_at(body, 8)))
}

/// The body of a message of this type.
#[tactic(auto, unfolding(crate::specs::Reading::body_at))]
fn read_body(alloc: Global, kind: u8, body: &[u8]) -> Result<OfMessage, BodyFault>
    ensures { GivesBody (λ m. m) result (body_at kind body.now) }
{
    match kind {
        message_type::HELLO => Ok(OfMessage::Hello),
        message_type::ERROR => read_error(alloc, body),
        message_type::ECHO_REQUEST => Ok(OfMessage::EchoRequest {
            body: Octets::from_slice(alloc, body)?,
        }),
        message_type::ECHO_REPLY => Ok(OfMessage::EchoReply {
            body: Octets::from_slice(alloc, body)?,
        }),
        message_type::EXPERIMENTER => read_experimenter(alloc, body),
        message_type::FEATURES_REQUEST => {
            refuse_body(body)?;
            Ok(OfMessage::FeaturesRequest)
        }
        message_type::FEATURES_REPLY => read_features(body),
        message_type::PACKET_IN => Ok(OfMessage::PacketIn(read_packet_in(alloc, body)?)),
        message_type::FLOW_REMOVED => Ok(OfMessage::FlowRemoved(read_flow_removed(alloc, body)?)),
        message_type::PORT_STATUS => Ok(OfMessage::PortStatus(read_port_status(body)?)),
        message_type::PACKET_OUT => Ok(OfMessage::PacketOut(read_packet_out(alloc, body)?)),
        message_type::FLOW_MOD => Ok(OfMessage::FlowMod(read_flow_mod(alloc, body)?)),
        message_type::BARRIER_REQUEST => {
            refuse_body(body)?;
            Ok(OfMessage::BarrierRequest)
        }
        message_type::BARRIER_REPLY => {
            refuse_body(body)?;
            Ok(OfMessage::BarrierReply)
        }
        message_type::ROLE_REQUEST => {
            let (role, generation) = read_role(body)?;
            Ok(OfMessage::RoleRequest { role, generation })
        }
        message_type::ROLE_REPLY => {
            let (role, generation) = read_role(body)?;
            Ok(OfMessage::RoleReply { role, generation })
        }
        _ => Err(BodyFault::Wire(BAD_TYPE)),
    }
}

fn first_answer(alloc: Global, frame: &[u8]) -> Result<(u32, OfMessage), OfFault>
    ensures { IsFirstMessage frame.now result }
{
    let xid = xid_of(frame);
    match read_message(alloc, frame) {
        Ok(message) => Ok((xid, message)),
        Err(BodyFault::Wire(Refusal { kind, code })) => Err(OfFault::Wire { kind, code, xid }),
        Err(BodyFault::OutOfMemory) => Err(OfFault::OutOfMemory),
    }
}
