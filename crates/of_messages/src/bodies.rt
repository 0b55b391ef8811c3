//! Reading what stands behind the header of a message.
ghost use Rattle.std.specs.Prelude.{◌≡◌, ◌≤◌, length};
ghost use Rattle.of_types.specs.declared.message.OfMessage.{OfMessage};
ghost use Rattle.of_bytes.specs.Reading.{Gives};
ghost use Rattle.of_messages.specs.Answers.{GivesBody};
ghost use Rattle.of_messages.specs.Reading.{error_at, experimenter_at, empty_at, features_at, port_in, port_and_frame_at, packet_in_at, only_match_at, flow_removed_of, flow_removed_at, port_status_at, packet_out_at, flow_command_of, command_at, match_and_actions_at, flow_mod_of, flow_mod_behind, flow_mod_at};

use crate::actions::{read_actions, read_instructions};
use crate::fault::BodyFault;
use of_bytes::{u8_at, u16_at, u32_at, u64_at};
use of_match::{PORT_ALONE, port_alone, read_match};
use of_types::{
    Actions, BAD_COMMAND, BAD_FIELD, BAD_LENGTH, Boxed, FlowCommand, FlowMod, FlowRemoved, Match,
    Octets, OfMessage, PacketIn, PacketOut, PortStatus, Refusal, flow_command,
};
use std::alloc::Global;

#[tactic(auto, unfolding(crate::specs::Reading::error_at))]
pub fn read_error(alloc: Global, body: &[u8]) -> Result<OfMessage, BodyFault>
    ensures { GivesBody (λ m. m) result (error_at body.now) }
{
    if body.len() < 4 {
        return Err(BodyFault::Wire(BAD_LENGTH));
    }
    Ok(OfMessage::Error {
        kind: u16_at(body, 0),
        code: u16_at(body, 2),
        head: Octets::from_slice(alloc, &body[4..])?,
    })
}

#[tactic(auto, unfolding(crate::specs::Reading::experimenter_at))]
pub fn read_experimenter(alloc: Global, body: &[u8]) -> Result<OfMessage, BodyFault>
    ensures { GivesBody (λ m. m) result (experimenter_at body.now) }
{
    if body.len() < 8 {
        return Err(BodyFault::Wire(BAD_LENGTH));
    }
    Ok(OfMessage::Experimenter {
        body: Octets::from_slice(alloc, body)?,
    })
}

/// Refuses what stands behind the header of a message without a body.
#[tactic(auto, unfolding(crate::specs::Reading::empty_at))]
pub fn refuse_body(body: &[u8]) -> Result<(), Refusal>
    ensures { (message : OfMessage) → Gives (λ _. message) result (empty_at message body.now) }
{
    if !body.is_empty() {
        return Err(BAD_LENGTH);
    }
    Ok(())
}

#[tactic(auto, unfolding(crate::specs::Reading::features_at))]
pub fn read_features(body: &[u8]) -> Result<OfMessage, BodyFault>
    ensures { GivesBody (λ m. m) result (features_at body.now) }
{
    if body.len() != 24 {
        return Err(BodyFault::Wire(BAD_LENGTH));
    }
    Ok(OfMessage::FeaturesReply {
        datapath: u64_at(body, 0),
    })
}

fn port_in(matching: Match) -> Result<u32, Refusal>
    ensures { result ≡ port_in matching }
{
    match matching.in_port {
        Some(port) => Ok(port),
        None => Err(BAD_FIELD),
    }
}

/// A match that has a port, two bytes of padding, and a frame.
#[tactic(auto, unfolding(crate::specs::Reading::port_and_frame_at))]
fn port_and_frame(bytes: &[u8]) -> Result<(u32, &[u8]), BodyFault>
    ensures { GivesBody (λ x. (x.0, x.1.now)) result (port_and_frame_at bytes.now) }
{
    // Most such matches have their port alone, which is read at one look.
    if let Some(port) = port_alone(bytes) {
        let after = &bytes[PORT_ALONE..];
        if after.len() >= 2 {
            return Ok((port, &after[2..]));
        }
    }
    let (matching, taken) = read_match(bytes)?;
    let after = &bytes[taken..];
    if after.len() < 2 {
        return Err(BodyFault::Wire(BAD_LENGTH));
    }
    let port = port_in(matching)?;
    Ok((port, &after[2..]))
}

#[tactic(auto, unfolding(crate::specs::Reading::packet_in_at))]
pub fn read_packet_in(alloc: Global, body: &[u8]) -> Result<PacketIn, BodyFault>
    ensures { GivesBody (λ p. p) result (packet_in_at body.now) }
{
    if body.len() < 16 {
        return Err(BodyFault::Wire(BAD_LENGTH));
    }
    let (in_port, frame) = port_and_frame(&body[16..])?;
    Ok(PacketIn {
        reason: u8_at(body, 6),
        cookie: u64_at(body, 8),
        in_port,
        payload: Octets::from_slice(alloc, frame)?,
    })
}

/// A match, and nothing behind it.
#[tactic(auto, unfolding(crate::specs::Reading::only_match_at))]
fn only_match(bytes: &[u8]) -> Result<Match, BodyFault>
    ensures { GivesBody (λ m. m) result (only_match_at bytes.now) }
{
    let (matching, taken) = read_match(bytes)?;
    if !bytes[taken..].is_empty() {
        return Err(BodyFault::Wire(BAD_LENGTH));
    }
    Ok(matching)
}

/// The numbers of a FLOW_REMOVED, beside this match.
#[tactic(auto, unfolding(crate::specs::Reading::flow_removed_of))]
fn flow_removed_of(body: &[u8], matching: Match) -> FlowRemoved
    requires { 40 ≤ length body.now }
    ensures { result ≡ flow_removed_of body.now matching }
{
    FlowRemoved {
        cookie: u64_at(body, 0),
        priority: u16_at(body, 8),
        reason: u8_at(body, 10),
        duration: u32_at(body, 12),
        idle: u16_at(body, 20),
        hard: u16_at(body, 22),
        packets: u64_at(body, 24),
        octets: u64_at(body, 32),
        matching,
    }
}

/// The last of the reasons for which a row leaves (OpenFlow 1.3, 7.4.2).
const GROUP_DELETE: u8 = 3;

#[tactic(auto, unfolding(crate::specs::Reading::flow_removed_at))]
pub fn read_flow_removed(alloc: Global, body: &[u8]) -> Result<Boxed<FlowRemoved>, BodyFault>
    ensures { GivesBody (λ r. r) result (flow_removed_at body.now) }
{
    if body.len() < 40 || u8_at(body, 10) > GROUP_DELETE {
        return Err(BodyFault::Wire(BAD_LENGTH));
    }
    let (_, behind) = body.split_at(40);
    let matching = only_match(behind)?;
    let removed = Boxed::new(alloc, flow_removed_of(body, matching))?;
    Ok(removed)
}

#[tactic(auto, unfolding(crate::specs::Reading::port_status_at))]
pub fn read_port_status(body: &[u8]) -> Result<PortStatus, BodyFault>
    ensures { GivesBody (λ p. p) result (port_status_at body.now) }
{
    if body.len() != 72 {
        return Err(BodyFault::Wire(BAD_LENGTH));
    }
    Ok(PortStatus {
        reason: u8_at(body, 0),
        port: u32_at(body, 8),
        up: u32_at(body, 44) % 2 == 0,
    })
}

#[tactic(auto, unfolding(crate::specs::Reading::packet_out_at))]
pub fn read_packet_out(alloc: Global, body: &[u8]) -> Result<PacketOut, BodyFault>
    ensures { GivesBody (λ p. p) result (packet_out_at body.now) }
{
    if body.len() < 16 {
        return Err(BodyFault::Wire(BAD_LENGTH));
    }
    let rest = &body[16..];
    let len = usize::from(u16_at(body, 8));
    if rest.len() < len {
        return Err(BodyFault::Wire(BAD_LENGTH));
    }
    Ok(PacketOut {
        buffer: u32_at(body, 0),
        in_port: u32_at(body, 4),
        actions: read_actions(alloc, &rest[..len])?,
        payload: Octets::from_slice(alloc, &rest[len..])?,
    })
}

#[tactic(auto, unfolding(crate::specs::Reading::flow_command_of))]
fn command_of(number: u8) -> Result<FlowCommand, Refusal>
    ensures { result ≡ flow_command_of number }
{
    match number {
        flow_command::ADD => Ok(FlowCommand::Add),
        flow_command::MODIFY => Ok(FlowCommand::Modify),
        flow_command::MODIFY_STRICT => Ok(FlowCommand::ModifyStrict),
        flow_command::DELETE => Ok(FlowCommand::Delete),
        flow_command::DELETE_STRICT => Ok(FlowCommand::DeleteStrict),
        _ => Err(BAD_COMMAND),
    }
}

#[tactic(auto, unfolding(crate::specs::Reading::command_at))]
fn command_at(body: &[u8]) -> Result<FlowCommand, Refusal>
    requires { 40 ≤ length body.now }
    ensures { result ≡ command_at body.now }
{
    command_of(u8_at(body, 17))
}

/// A match, and the ports of the instructions behind it.
#[tactic(auto, unfolding(crate::specs::Reading::match_and_actions_at))]
fn match_and_actions(alloc: Global, bytes: &[u8]) -> Result<(Match, Actions), BodyFault>
    ensures { GivesBody (λ x. (x.0, x.1)) result (match_and_actions_at bytes.now) }
{
    let (matching, taken) = read_match(bytes)?;
    let actions = read_instructions(alloc, &bytes[taken..])?;
    Ok((matching, actions))
}

/// The numbers of a FLOW_MOD, beside these.
#[tactic(auto, unfolding(crate::specs::Reading::flow_mod_of))]
fn flow_mod_of(body: &[u8], command: FlowCommand, matching: Match, actions: Actions) -> FlowMod
    requires { 40 ≤ length body.now }
    ensures { result ≡ flow_mod_of body.now command matching actions }
{
    FlowMod {
        cookie: u64_at(body, 0),
        cookie_mask: u64_at(body, 8),
        table: u8_at(body, 16),
        command,
        idle: u16_at(body, 18),
        hard: u16_at(body, 20),
        priority: u16_at(body, 22),
        buffer: u32_at(body, 24),
        out_port: u32_at(body, 28),
        out_group: u32_at(body, 32),
        flags: u16_at(body, 36),
        matching,
        actions,
    }
}

/// What stands behind the numbers of a FLOW_MOD.
#[tactic(auto, unfolding(crate::specs::Reading::flow_mod_behind))]
fn flow_mod_behind(alloc: Global, body: &[u8], command: FlowCommand) -> Result<FlowMod, BodyFault>
    requires { 40 ≤ length body.now }
    ensures { GivesBody (λ c. c) result (flow_mod_behind body.now command) }
{
    let (_, behind) = body.split_at(40);
    let (matching, actions) = match_and_actions(alloc, behind)?;
    Ok(flow_mod_of(body, command, matching, actions))
}

#[tactic(auto, unfolding(crate::specs::Reading::flow_mod_at))]
pub fn read_flow_mod(alloc: Global, body: &[u8]) -> Result<Boxed<FlowMod>, BodyFault>
    ensures { GivesBody (λ c. c) result (flow_mod_at body.now) }
{
    if body.len() < 40 {
        return Err(BodyFault::Wire(BAD_LENGTH));
    }
    let command = command_at(body)?;
    let change = flow_mod_behind(alloc, body, command)?;
    Ok(Boxed::new(alloc, change)?)
}
