//! Reading a message of the extension from left to right.
ghost use Rattle.std.specs.Prelude.{◌≡◌, ◌≤◌, ◌+◌, ℕ, List, Ok, length, IfOk};
ghost use Rattle.of_bytes.specs.Reading.{Gives};
ghost use Rattle.of_messages.specs.Answers.{GivesBody, IsRead};
ghost use Rattle.of_types.specs.declared.message.Extension.{Extension};
ghost use Rattle.of_types.specs.declared.message.OfMessage.{OfMessage};
ghost use Rattle.of_types.specs.declared.message.Spoken.{Spoken};
ghost use Rattle.of_types.specs.declared.message.Spoken.TheVariants as spoken;
ghost use Rattle.of_types.specs.Sizes.{extension_size};
ghost use Rattle.of_types.specs.Valid.{IsValidExtension};
ghost use Rattle.of_ravana.specs.Answers.{IsFirstExtension};
ghost use Rattle.of_ravana.specs.Canonical.{canonical_extension};
ghost use Rattle.of_ravana.specs.Fits.{FitsExtension};
ghost use Rattle.of_ravana.specs.Grammar.{SpellsExtension, SpellsSpoken};
ghost use Rattle.of_ravana.specs.Reading.{inner_at, as_happening, as_order, happening_at, order_at, extension_event_at, through_at, extension_command_at, outcome_at, cmd_ack_at, extension_body_at, extension_at};

use of_bytes::{u8_at, u16_at, u32_at, u64_at};
use of_messages::{BodyFault, OfFault, read_message};
use of_types::{
    BAD_EXPERIMENTER, BAD_EXPERIMENTER_TYPE, BAD_LENGTH, BAD_TYPE, Extension, Happening,
    NOT_PERMITTED, OfMessage, Order, Outcome, RAVANA, Refusal, command_status, extension_type,
    message_type,
};
use std::alloc::Global;

/// Reads what stands behind the header of an EXPERIMENTER. The first error that holds is the answer, in
/// this order: the number and the type of the experimenter; the length of the body; and of a message
/// inside it the length, the type, and then its own first error. Errors have no number of a request.
pub fn decode_extension(alloc: Global, body: &[u8]) -> Result<Extension, OfFault>
    // What is read is spelled so.
    ensures found { IfOk result (λ said. SpellsExtension body.now said) }
    // What is spelled so is read, unless memory runs out.
    ensures only { (said : Extension) → SpellsExtension body.now said → IsRead said result }
    // Which answer it is.
    ensures exact { IsFirstExtension body.now result }
    // What is read is valid.
    ensures valid { IfOk result (λ said. IsValidExtension said) }
    // With a header it is written in no more bytes than it was read from.
    ensures short { IfOk result (λ said. extension_size said ≤ 8 + length body.now) }
{
    first_answer(alloc, body)
}

/// Laws of the extension's messages as bytes.
pub fn extension_law()
    // What is written is read again.
    ensures again { (said : Extension) → IsValidExtension said → FitsExtension said → extension_size said ≤ 65535 → extension_at (canonical_extension said) ≡ Ok said }
    // Bytes spell at most one message.
    ensures one { (body : List ℕ) (said other : Extension) → SpellsExtension body said → SpellsExtension body other → said ≡ other }
    // Bytes spell at most one of what a controller and a switch say, and one number of a request.
    ensures one_spoken { (bytes : List ℕ) (xid other : ℕ) (said told : Spoken) → SpellsSpoken bytes xid said → SpellsSpoken bytes other told → (xid ≡ other) × (said ≡ told) }
    // The bytes of a message of the extension spell no plain message.
    ensures no_plain { (bytes : List ℕ) (xid other : ℕ) (said : Extension) (m : OfMessage) → SpellsSpoken bytes xid (spoken.Ravana said) → SpellsSpoken bytes other (spoken.Plain m) → ⊥ }
    // What is written has its size.
    ensures size { (said : Extension) → 8 + length (canonical_extension said) ≡ extension_size said }
{}

/// A message inside another one, which has one of these types.
#[tactic(auto, unfolding(crate::specs::Reading::inner_at))]
fn read_inner(
    alloc: Global,
    types: &[u8],
    wrong_type: Refusal,
    bytes: &[u8],
) -> Result<OfMessage, BodyFault>
    ensures { GivesBody (λ m. m) result (inner_at types.now wrong_type bytes.now) }
{
    if bytes.len() < 4 || usize::from(u16_at(bytes, 2)) != bytes.len() {
        return Err(BodyFault::Wire(BAD_LENGTH));
    }
    if !types.contains(&u8_at(bytes, 1)) {
        return Err(BodyFault::Wire(wrong_type));
    }
    read_message(alloc, bytes)
}

fn as_happening(message: OfMessage) -> Result<Happening, Refusal>
    ensures { result ≡ as_happening message }
{
    match message {
        OfMessage::PacketIn(packet) => Ok(Happening::PacketIn(packet)),
        OfMessage::FlowRemoved(removed) => Ok(Happening::FlowRemoved(removed)),
        OfMessage::PortStatus(status) => Ok(Happening::PortStatus(status)),
        _ => Err(BAD_TYPE),
    }
}

fn as_order(message: OfMessage) -> Result<Order, Refusal>
    ensures { result ≡ as_order message }
{
    match message {
        OfMessage::FlowMod(change) => Ok(Order::FlowMod(change)),
        OfMessage::PacketOut(packet) => Ok(Order::PacketOut(packet)),
        _ => Err(NOT_PERMITTED),
    }
}

#[tactic(auto, unfolding(crate::specs::Reading::happening_at))]
fn read_happening(alloc: Global, bytes: &[u8]) -> Result<Happening, BodyFault>
    ensures { GivesBody (λ what. what) result (happening_at bytes.now) }
{
    let message = read_inner(
        alloc,
        &[
            message_type::PACKET_IN,
            message_type::FLOW_REMOVED,
            message_type::PORT_STATUS,
        ],
        BAD_TYPE,
        bytes,
    )?;
    let what = as_happening(message)?;
    Ok(what)
}

#[tactic(auto, unfolding(crate::specs::Reading::order_at))]
fn read_order(alloc: Global, bytes: &[u8]) -> Result<Order, BodyFault>
    ensures { GivesBody (λ what. what) result (order_at bytes.now) }
{
    let message = read_inner(
        alloc,
        &[message_type::PACKET_OUT, message_type::FLOW_MOD],
        NOT_PERMITTED,
        bytes,
    )?;
    let what = as_order(message)?;
    Ok(what)
}

#[tactic(auto, unfolding(crate::specs::Reading::extension_event_at))]
fn read_event(alloc: Global, body: &[u8]) -> Result<Extension, BodyFault>
    ensures { GivesBody (λ said. said) result (extension_event_at body.now) }
{
    if body.len() < 24 {
        return Err(BodyFault::Wire(BAD_LENGTH));
    }
    let (_, inner) = body.split_at(24);
    let what = read_happening(alloc, inner)?;
    Ok(Extension::Event {
        life: u32_at(body, 8),
        number: u64_at(body, 16),
        what,
    })
}

/// A life, and the number up to which it is meant.
#[tactic(auto, unfolding(crate::specs::Reading::through_at))]
fn read_through(body: &[u8]) -> Result<(u32, u64), Refusal>
    ensures { Gives (λ x. x) result (through_at body.now) }
{
    if body.len() != 24 {
        return Err(BAD_LENGTH);
    }
    Ok((u32_at(body, 8), u64_at(body, 16)))
}

#[tactic(auto, unfolding(crate::specs::Reading::extension_command_at))]
fn read_command(alloc: Global, body: &[u8]) -> Result<Extension, BodyFault>
    ensures { GivesBody (λ said. said) result (extension_command_at body.now) }
{
    if body.len() < 40 {
        return Err(BodyFault::Wire(BAD_LENGTH));
    }
    let (_, inner) = body.split_at(40);
    let order = read_order(alloc, inner)?;
    Ok(Extension::Command {
        life: u32_at(body, 8),
        generation: u64_at(body, 16),
        number: u64_at(body, 24),
        settled: u64_at(body, 32),
        order,
    })
}

#[tactic(auto, unfolding(crate::specs::Reading::outcome_at))]
fn read_outcome(body: &[u8]) -> Result<Outcome, Refusal>
    requires { 32 ≤ length body.now }
    ensures { result ≡ outcome_at body.now }
{
    match u16_at(body, 24) {
        command_status::DONE => Ok(Outcome::Done),
        command_status::FAILED => Ok(Outcome::Failed {
            kind: u16_at(body, 26),
            code: u16_at(body, 28),
        }),
        command_status::CLEARED => Ok(Outcome::Cleared),
        _ => Err(BAD_LENGTH),
    }
}

#[tactic(auto, unfolding(crate::specs::Reading::cmd_ack_at))]
fn read_cmd_ack(body: &[u8]) -> Result<Extension, Refusal>
    ensures { Gives (λ said. said) result (cmd_ack_at body.now) }
{
    if body.len() != 32 {
        return Err(BAD_LENGTH);
    }
    let outcome = read_outcome(body)?;
    Ok(Extension::CmdAck {
        life: u32_at(body, 8),
        number: u64_at(body, 16),
        outcome,
    })
}

/// The body of a message of this type.
#[tactic(auto, unfolding(crate::specs::Reading::extension_body_at))]
fn read_body(alloc: Global, kind: u32, body: &[u8]) -> Result<Extension, BodyFault>
    ensures { GivesBody (λ said. said) result (extension_body_at kind body.now) }
{
    match kind {
        extension_type::EVENT => read_event(alloc, body),
        extension_type::EVENT_ACK => {
            let (life, through) = read_through(body)?;
            Ok(Extension::EventAck { life, through })
        }
        extension_type::COMMAND => read_command(alloc, body),
        extension_type::CMD_ACK => {
            let said = read_cmd_ack(body)?;
            Ok(said)
        }
        extension_type::CBUF_CLEAR => {
            let (life, through) = read_through(body)?;
            Ok(Extension::Clear { life, through })
        }
        _ => Err(BodyFault::Wire(BAD_EXPERIMENTER_TYPE)),
    }
}

#[tactic(auto, unfolding(crate::specs::Reading::extension_at))]
fn read_extension(alloc: Global, body: &[u8]) -> Result<Extension, BodyFault>
    ensures { GivesBody (λ said. said) result (extension_at body.now) }
{
    if body.len() < 8 {
        return Err(BodyFault::Wire(BAD_LENGTH));
    }
    if u32_at(body, 0) != RAVANA {
        return Err(BodyFault::Wire(BAD_EXPERIMENTER));
    }
    read_body(alloc, u32_at(body, 4), body)
}

fn first_answer(alloc: Global, body: &[u8]) -> Result<Extension, OfFault>
    ensures { IsFirstExtension body.now result }
{
    match read_extension(alloc, body) {
        Ok(said) => Ok(said),
        Err(BodyFault::Wire(Refusal { kind, code })) => Err(OfFault::Wire { kind, code, xid: 0 }),
        Err(BodyFault::OutOfMemory) => Err(OfFault::OutOfMemory),
    }
}
