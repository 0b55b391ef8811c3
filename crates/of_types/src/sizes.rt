//! How many bytes messages take. Where a number passes 64 bits, the greatest one stands for it.
ghost use Rattle.std.specs.Prelude.{◌≡◌, ◌≤◌, ◌+◌, ◌*◌, ◌-◌, ◌^◌, min, length};
ghost use Rattle.of_types.specs.Sizes.{field_size, masked48_size, masked32_size, match_size, instruction_size, happening_size, order_size, plain_size, extension_size};

use crate::message::{
    Extension, FlowMod, Happening, Masked32, Masked48, Match, OfMessage, Order, PacketOut,
};
use crate::numbers::{ONES32, ONES48};

/// The bytes of a match: a header, its fields, and no padding but up to the next multiple of eight.
pub fn size_of_match(matching: &Match) -> usize
    ensures exact { result ≡ match_size matching.now }
    ensures small { result ≤ 208 }
{
    let fields = size_of_ethernet(matching) + size_of_ipv4(matching) + size_of_ports(matching);
    (4 + fields + 7) / 8 * 8
}

/// The bytes of the message that an event tells.
pub fn size_of_happening(what: &Happening) -> u64
    ensures { result ≡ min (2 ^ 64 - 1) (happening_size what.now) }
{
    match what {
        Happening::PacketIn(packet) => (packet.payload.len() as u64).saturating_add(42),
        Happening::PortStatus(_) => 80,
        Happening::FlowRemoved(removed) => size_of_match(&removed.get().matching) as u64 + 48,
    }
}

/// The bytes of a message of OpenFlow.
pub fn size_of_plain(message: &OfMessage) -> u64
    ensures { result ≡ min (2 ^ 64 - 1) (plain_size message.now) }
{
    match message {
        OfMessage::Error { head, .. } => (head.len() as u64).saturating_add(12),
        OfMessage::EchoRequest { body } => (body.len() as u64).saturating_add(8),
        OfMessage::EchoReply { body } => (body.len() as u64).saturating_add(8),
        OfMessage::Experimenter { body } => (body.len() as u64).saturating_add(8),
        OfMessage::FeaturesReply { .. } => 32,
        OfMessage::PacketIn(packet) => (packet.payload.len() as u64).saturating_add(42),
        OfMessage::PortStatus(_) => 80,
        OfMessage::FlowRemoved(removed) => size_of_match(&removed.get().matching) as u64 + 48,
        OfMessage::PacketOut(out) => size_of_packet_out(out),
        OfMessage::FlowMod(change) => size_of_flow_mod(change.get()),
        OfMessage::RoleRequest { .. } => 24,
        OfMessage::RoleReply { .. } => 24,
        OfMessage::Hello => 8,
        OfMessage::FeaturesRequest => 8,
        OfMessage::BarrierRequest => 8,
        OfMessage::BarrierReply => 8,
    }
}

/// The bytes of a message of the extension.
pub fn size_of_extension(message: &Extension) -> u64
    ensures { result ≡ min (2 ^ 64 - 1) (extension_size message.now) }
{
    match message {
        Extension::Event { what, .. } => size_of_happening(what).saturating_add(32),
        Extension::EventAck { .. } => 32,
        Extension::Command { order, .. } => size_of_order(order).saturating_add(48),
        Extension::CmdAck { .. } => 40,
        Extension::Clear { .. } => 32,
    }
}

fn size_of_u8(field: Option<u8>) -> usize
    ensures { result ≡ field_size 1 field }
{
    match field {
        None => 0,
        Some(_) => 5,
    }
}

fn size_of_u16(field: Option<u16>) -> usize
    ensures { result ≡ field_size 2 field }
{
    match field {
        None => 0,
        Some(_) => 6,
    }
}

fn size_of_u32(field: Option<u32>) -> usize
    ensures { result ≡ field_size 4 field }
{
    match field {
        None => 0,
        Some(_) => 8,
    }
}

fn size_of_masked48(field: Option<Masked48>) -> usize
    ensures exact { result ≡ masked48_size field }
    ensures small { result ≤ 16 }
{
    match field {
        None => 0,
        Some(address) => { if address.mask == ONES48 { 10 } else { 16 } }
    }
}

fn size_of_masked32(field: Option<Masked32>) -> usize
    ensures exact { result ≡ masked32_size field }
    ensures small { result ≤ 12 }
{
    match field {
        None => 0,
        Some(address) => { if address.mask == ONES32 { 8 } else { 12 } }
    }
}

/// The bytes of the port that a frame came in by, and of its Ethernet header.
fn size_of_ethernet(matching: &Match) -> usize
    ensures exact { result ≡ field_size 4 matching.now.in_port + masked48_size matching.now.eth_dst + masked48_size matching.now.eth_src + field_size 2 matching.now.eth_type }
    ensures small { result ≤ 46 }
{
    size_of_u32(matching.in_port)
        + size_of_masked48(matching.eth_dst)
        + size_of_masked48(matching.eth_src)
        + size_of_u16(matching.eth_type)
}

/// The bytes of the fields of an IPv4 header.
fn size_of_ipv4(matching: &Match) -> usize
    ensures exact { result ≡ field_size 1 matching.now.ip_proto + masked32_size matching.now.ipv4_src + masked32_size matching.now.ipv4_dst }
    ensures small { result ≤ 29 }
{
    size_of_u8(matching.ip_proto)
        + size_of_masked32(matching.ipv4_src)
        + size_of_masked32(matching.ipv4_dst)
}

/// The bytes of the ports of TCP and UDP.
fn size_of_ports(matching: &Match) -> usize
    ensures exact { result ≡ field_size 2 matching.now.tcp_src + field_size 2 matching.now.tcp_dst + field_size 2 matching.now.udp_src + field_size 2 matching.now.udp_dst }
    ensures small { result ≤ 24 }
{
    size_of_u16(matching.tcp_src)
        + size_of_u16(matching.tcp_dst)
        + size_of_u16(matching.udp_src)
        + size_of_u16(matching.udp_dst)
}

/// The bytes of so many actions.
fn size_of_actions(count: usize) -> u64
    ensures { result ≡ min (2 ^ 64 - 1) (16 * count) }
{
    (count as u64).saturating_mul(16)
}

fn size_of_packet_out(out: &PacketOut) -> u64
    ensures { result ≡ min (2 ^ 64 - 1) (24 + 16 * length out.now.actions + length out.now.payload) }
{
    size_of_actions(out.actions.len())
        .saturating_add(24)
        .saturating_add(out.payload.len() as u64)
}

fn size_of_flow_mod(change: &FlowMod) -> u64
    ensures { result ≡ min (2 ^ 64 - 1) (48 + match_size change.now.matching + instruction_size change.now.actions) }
{
    let front = 48 + size_of_match(&change.matching) as u64;
    match change.actions.as_slice() {
        [] => front,
        [_, rest @ ..] => size_of_actions(rest.len())
            .saturating_add(24)
            .saturating_add(front),
    }
}

fn size_of_order(what: &Order) -> u64
    ensures { result ≡ min (2 ^ 64 - 1) (order_size what.now) }
{
    match what {
        Order::PacketOut(out) => size_of_packet_out(out),
        Order::FlowMod(change) => size_of_flow_mod(change.get()),
    }
}
