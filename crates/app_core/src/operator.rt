//! How an operator asks for another version of an application.
ghost use Rattle.std.specs.Prelude.{◌≡◌, ℕ, List, length, slice_get, Some};
ghost use Rattle.of_types.specs.declared.message.Event.{Event};
ghost use Rattle.of_types.specs.declared.setup.Setup.{Setup};
ghost use Rattle.of_types.specs.Setups.{IsSetup};
ghost use Rattle.app_core.specs.Chain.{chain_after, slot, starting_chain, versions};
ghost use Rattle.app_core.specs.Operator.{asked_by, asked_version, version_after};
ghost use Rattle.app_core.specs.Slot.{IsAtVersion};

use of_types::{Event, Happening, fields};

/// The switch and the port at which an operator asks.
pub const OPERATOR_SWITCH: u8 = 0;

pub const OPERATOR_PORT: u32 = 48;

/// The Ethernet type of an operator's frame: one that is free for experiments (IEEE 802).
pub const OPERATOR_TYPE: u16 = 0x88b6;

/// Where the version stands in an operator's frame: behind its header.
pub const VERSION_PLACE: usize = 14;

/// The version that an operator asks for by a frame that comes in at a port of a switch, if it is such.
pub fn asked_by(switch: u8, port: u32, frame: &[u8]) -> Option<u8>
    ensures { result ≡ asked_by switch port frame.now }
{
    if switch == OPERATOR_SWITCH
        && port == OPERATOR_PORT
        && fields(frame).eth_type == Some(OPERATOR_TYPE)
    {
        return frame.get(VERSION_PLACE).copied();
    }
    None
}

/// The version that an operator asks for by an event, if it is such.
pub fn asked_version(event: &Event) -> Option<u8>
    ensures { result ≡ asked_version event.now }
{
    match &event.what {
        Happening::PacketIn(packet) => asked_by(
            event.switch,
            packet.in_port,
            packet.payload.as_slice(),
        ),
        Happening::PortStatus(_) | Happening::FlowRemoved(_) => None,
    }
}

/// Which version of a slot is active is for the operator alone: wherever the slot stands in a chain, and whatever events came, it
/// is what their asking makes of version 0. No part in front of it stops an event that asks.
pub fn operators_choose_versions()
    ensures { (setup : Setup) (kinds : List ℕ) (place : ℕ) (events : List Event) → IsSetup setup → slice_get kinds place ≡ Some slot →
        IsAtVersion (version_after (length versions) events) (slice_get (chain_after kinds setup (starting_chain kinds) events) place) }
{}
