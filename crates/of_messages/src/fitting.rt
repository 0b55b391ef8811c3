//! What the types of messages say of their numbers.
ghost use Rattle.std.specs.Prelude.{◌<◌, ◌^◌, length};
ghost use Rattle.of_match.specs.Spelling.{Fits};
ghost use Rattle.of_messages.specs.Fits.{FitPorts, FitsPacketIn, FitsFlowRemoved, FitsPortStatus, FitsPacketOut, FitsFlowMod, FitsPlain};

use of_bytes::{u8_fits, u16_fits, u32_fits, u64_fits};
use of_types::{FlowMod, FlowRemoved, Match, OfMessage, PacketIn, PacketOut, PortStatus};

/// A PACKET_IN: each number fits its field.
pub fn packet_in_fits(packet: &PacketIn)
    ensures { FitsPacketIn packet.now }
{
    u8_fits(packet.reason);
    u64_fits(packet.cookie);
    u32_fits(packet.in_port);
}

/// A FLOW_REMOVED: each number fits its field.
pub fn flow_removed_fits(removed: &FlowRemoved)
    ensures { FitsFlowRemoved removed.now }
{
    u64_fits(removed.cookie);
    u16_fits(removed.priority);
    u8_fits(removed.reason);
    u32_fits(removed.duration);
    u16_fits(removed.idle);
    u16_fits(removed.hard);
    u64_fits(removed.packets);
    u64_fits(removed.octets);
    match_fits(removed.matching);
}

/// A PORT_STATUS: each number fits its field.
pub fn port_status_fits(status: PortStatus)
    ensures { FitsPortStatus status }
{}

/// A PACKET_OUT: each number fits its field.
pub fn packet_out_fits(packet: &PacketOut)
    ensures { FitsPacketOut packet.now }
{
    u32_fits(packet.buffer);
    u32_fits(packet.in_port);
    ports_fit(packet.actions.as_slice());
}

/// A FLOW_MOD: each number fits its field.
pub fn flow_mod_fits(change: &FlowMod)
    ensures { FitsFlowMod change.now }
{
    u64_fits(change.cookie);
    u64_fits(change.cookie_mask);
    u8_fits(change.table);
    u16_fits(change.idle);
    u16_fits(change.hard);
    u16_fits(change.priority);
    u32_fits(change.buffer);
    u32_fits(change.out_port);
    u32_fits(change.out_group);
    u16_fits(change.flags);
    match_fits(change.matching);
    ports_fit(change.actions.as_slice());
}

/// Each number fits its field.
pub fn message_fits(message: &OfMessage)
    ensures { FitsPlain message.now }
{
    match message {
        OfMessage::Error { kind, code, .. } => {
            u16_fits(*kind);
            u16_fits(*code);
        }
        OfMessage::FeaturesReply { datapath } => u64_fits(*datapath),
        OfMessage::PacketIn(packet) => packet_in_fits(packet),
        OfMessage::FlowRemoved(removed) => flow_removed_fits(removed.get()),
        OfMessage::PortStatus(status) => port_status_fits(*status),
        OfMessage::PacketOut(packet) => packet_out_fits(packet),
        OfMessage::FlowMod(change) => flow_mod_fits(change.get()),
        OfMessage::RoleRequest { role, generation } | OfMessage::RoleReply { role, generation } => {
            u32_fits(*role);
            u64_fits(*generation);
        }
        OfMessage::Hello
        | OfMessage::EchoRequest { .. }
        | OfMessage::EchoReply { .. }
        | OfMessage::Experimenter { .. }
        | OfMessage::FeaturesRequest
        | OfMessage::BarrierRequest
        | OfMessage::BarrierReply => {}
    }
}

fn match_fits(matching: Match)
    ensures { Fits matching }
{}

fn ports_fit(ports: &[u32])
    ensures { FitPorts ports.now }
{
    let _first = ports.first().copied();
}
