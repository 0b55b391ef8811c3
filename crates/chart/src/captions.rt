//! What is written beside arrows and lifelines.

use crate::shapes::Carried;
use app_core::asked_by;
use journal::{Actor, Local};
use of_types::{EQUAL, Extension, MASTER, NO_CHANGE, Octets, OfMessage, Outcome, SLAVE, Spoken};
use report::write_number;
use std::alloc::AllocError;
use vr_log::VrMessage;

/// Writes a name, and a number behind it.
pub fn named(out: &mut Octets, name: &[u8], number: u64) -> Result<(), AllocError> {
    out.append(name)?;
    write_number(out, number)
}

/// Writes how many there are of what one is called so, and several so.
pub fn counted(out: &mut Octets, number: u8, one: &[u8], several: &[u8]) -> Result<(), AllocError> {
    write_number(out, number)?;
    out.append(if number == 1 { one } else { several })
}

fn role_name(role: u32) -> &'static [u8] {
    match role {
        NO_CHANGE => b" NOCHANGE",
        EQUAL => b" EQUAL",
        MASTER => b" MASTER",
        SLAVE => b" SLAVE",
        _ => b" of no known role",
    }
}

fn role(out: &mut Octets, name: &[u8], role: u32, generation: u64) -> Result<(), AllocError> {
    out.append(name)?;
    named(out, role_name(role), generation)
}

fn plain(out: &mut Octets, message: &OfMessage) -> Result<(), AllocError> {
    match message {
        OfMessage::Hello => out.append(b"HELLO"),
        OfMessage::Error { kind, code, .. } => {
            named(out, b"ERROR type", u64::from(*kind))?;
            named(out, b", code", u64::from(*code))
        }
        OfMessage::EchoRequest { .. } => out.append(b"ECHO_REQUEST"),
        OfMessage::EchoReply { .. } => out.append(b"ECHO_REPLY"),
        OfMessage::Experimenter { .. } => out.append(b"EXPERIMENTER"),
        OfMessage::FeaturesRequest => out.append(b"FEATURES_REQUEST"),
        OfMessage::FeaturesReply { datapath } => named(out, b"FEATURES_REPLY", *datapath),
        OfMessage::PacketIn(_) => out.append(b"PACKET_IN"),
        OfMessage::FlowRemoved(_) => out.append(b"FLOW_REMOVED"),
        OfMessage::PortStatus(_) => out.append(b"PORT_STATUS"),
        OfMessage::PacketOut(_) => out.append(b"PACKET_OUT"),
        OfMessage::FlowMod(_) => out.append(b"FLOW_MOD"),
        OfMessage::BarrierRequest => out.append(b"BARRIER_REQUEST"),
        OfMessage::BarrierReply => out.append(b"BARRIER_REPLY"),
        OfMessage::RoleRequest {
            role: asked,
            generation,
        } => { role(out, b"ROLE_REQUEST", *asked, *generation) }
        OfMessage::RoleReply {
            role: given,
            generation,
        } => { role(out, b"ROLE_REPLY", *given, *generation) }
    }
}

/// Writes of which life what stands before is, but for the first.
fn of_life(out: &mut Octets, life: u32) -> Result<(), AllocError> {
    if life == 0 {
        return Ok(());
    }
    named(out, b", life", u64::from(life))
}

fn outcome_words(outcome: Outcome) -> &'static [u8] {
    match outcome {
        Outcome::Done => b"",
        Outcome::Failed { .. } => b", failed",
        Outcome::Cleared => b", cleared",
    }
}

fn extension(out: &mut Octets, said: &Extension) -> Result<(), AllocError> {
    match said {
        Extension::Event { life, number, .. } => {
            named(out, b"EVENT", *number)?;
            of_life(out, *life)
        }
        Extension::EventAck { life, through } => {
            named(out, b"EVENT_ACK", *through)?;
            of_life(out, *life)
        }
        Extension::Command {
            life,
            number,
            settled,
            ..
        } => {
            named(out, b"COMMAND", *number)?;
            named(out, b", settled", *settled)?;
            of_life(out, *life)
        }
        Extension::CmdAck {
            life,
            number,
            outcome,
        } => {
            named(out, b"CMD_ACK", *number)?;
            out.append(outcome_words(*outcome))?;
            of_life(out, *life)
        }
        Extension::Clear { life, through } => {
            named(out, b"CBUF_CLEAR", *through)?;
            of_life(out, *life)
        }
    }
}

fn member(out: &mut Octets, message: &VrMessage) -> Result<(), AllocError> {
    match message {
        VrMessage::Prepare { op, .. } => named(out, b"PREPARE", *op),
        VrMessage::PrepareOk { op, .. } => named(out, b"PREPAREOK", *op),
        VrMessage::Commit { commit, .. } => named(out, b"COMMIT", *commit),
        VrMessage::StartViewChange { view } => named(out, b"STARTVIEWCHANGE", u64::from(*view)),
        VrMessage::DoViewChange { view, .. } => named(out, b"DOVIEWCHANGE", u64::from(*view)),
        VrMessage::StartView { view, .. } => named(out, b"STARTVIEW", u64::from(*view)),
        VrMessage::Recovery { .. } => out.append(b"RECOVERY"),
        VrMessage::RecoveryResponse { view, .. } => named(
            out,
            b"RECOVERYRESPONSE",
            u64::from(*view),
        ),
        VrMessage::GetState { op, .. } => named(out, b"GETSTATE", *op),
        VrMessage::NewState { first, .. } => named(out, b"NEWSTATE", *first),
        VrMessage::Fetch { op, .. } => named(out, b"FETCH", *op),
        VrMessage::Supply { first, .. } => named(out, b"SUPPLY", *first),
    }
}

/// Writes the name of what an arrow carries.
pub fn caption(out: &mut Octets, carried: &Carried) -> Result<(), AllocError> {
    match carried {
        Carried::Spoken(Spoken::Plain(message)) => plain(out, message),
        Carried::Spoken(Spoken::Ravana(said)) => extension(out, said),
        Carried::Member(message) => member(out, message),
        Carried::Frame { port, bytes } => {
            named(out, b"frame to port", u64::from(*port))?;
            named(out, b", bytes", *bytes as u64)
        }
        Carried::Unread { bytes } => named(out, b"unread, bytes", *bytes as u64),
    }
}

/// The version that an operator asks for by a frame that comes in at a port of an actor, if it is such.
fn asked_of(actor: Actor, port: u32, frame: &[u8]) -> Option<u8> {
    match actor {
        Actor::Switch(switch) => asked_by(switch, port, frame),
        Actor::Controller(_) => None,
    }
}

/// Writes the name of a frame that comes in at a port of an actor: that of an operator names the version that it asks for.
fn frame_words(out: &mut Octets, actor: Actor, port: u32, frame: &[u8]) -> Result<(), AllocError> {
    named(out, b"frame at port", u64::from(port))?;
    match asked_of(actor, port, frame) {
        Some(version) => named(out, b", asks for version", u64::from(version)),
        None => named(out, b", bytes", frame.len() as u64),
    }
}

/// Writes the name of a local input of an actor.
pub fn input_words(out: &mut Octets, actor: Actor, input: &Local) -> Result<(), AllocError> {
    match input {
        Local::Frame { port, bytes } => frame_words(out, actor, *port, bytes.as_slice()),
        Local::Port { port, up: true } => named(out, b"up: port", u64::from(*port)),
        Local::Port { port, up: false } => named(out, b"down: port", u64::from(*port)),
        Local::Tick => out.append(b"tick"),
        Local::Suspect { view } => named(out, b"suspects view", u64::from(*view)),
        Local::Crash => out.append(b"crash"),
        Local::Restart => out.append(b"restart"),
    }
}
