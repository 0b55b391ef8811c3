//! The header fields of an Ethernet frame.

ghost use Rattle.std.specs.Prelude.{◌≡◌, ◌≤◌, ◌+◌, ◌^◌, ◌<◌, ◌%◌, ◌==◌, length, drop};
ghost use Rattle.byteorder.specs.Endian.{big_number};
ghost use Rattle.of_types.specs.Header.{number_at, number_within, has_ipv4, has_ports, transport_place, fields_of};

use crate::message::Fields;
use crate::numbers::{IPV4, TCP, UDP};
use byteorder::{BigEndian, ByteOrder};

/// The header fields of a frame. The caller sets the port that it came in by.
pub fn fields(frame: &[u8]) -> Fields
    ensures { result ≡ fields_of frame.now }
{
    let (ip_proto, ipv4_src, ipv4_dst) = ipv4(frame);
    let (tcp_src, tcp_dst) = ports(TCP, frame);
    let (udp_src, udp_dst) = ports(UDP, frame);
    Fields {
        in_port: None,
        eth_dst: eth_dst(frame),
        eth_src: eth_src(frame),
        eth_type: u16_at(frame, 12),
        ip_proto,
        ipv4_src,
        ipv4_dst,
        tcp_src,
        tcp_dst,
        udp_src,
        udp_dst,
    }
}

/// The Ethernet address that a frame goes to.
pub fn eth_dst(frame: &[u8]) -> Option<u64>
    ensures { result ≡ number_at 6 0 frame.now }
{
    u48_at(frame, 0)
}

/// The Ethernet address that a frame comes from.
pub fn eth_src(frame: &[u8]) -> Option<u64>
    ensures { result ≡ number_at 6 6 frame.now }
{
    u48_at(frame, 6)
}

fn u8_at(frame: &[u8], place: usize) -> Option<u8>
    ensures { result ≡ number_at 1 place frame.now }
{
    frame.get(place).copied()
}

fn u16_at(frame: &[u8], place: usize) -> Option<u16>
    requires { place < 2 ^ 32 }
    ensures { result ≡ number_at 2 place frame.now }
{
    if frame.len() < place + 2 {
        return None;
    }
    Some(BigEndian::read_u16(&frame[place..]))
}

fn u32_at(frame: &[u8], place: usize) -> Option<u32>
    requires { place < 2 ^ 32 }
    ensures { result ≡ number_at 4 place frame.now }
{
    if frame.len() < place + 4 {
        return None;
    }
    Some(BigEndian::read_u32(&frame[place..]))
}

fn u48_at(frame: &[u8], place: usize) -> Option<u64>
    requires { place < 2 ^ 32 }
    ensures { result ≡ number_at 6 place frame.now }
{
    if frame.len() < place + 6 {
        return None;
    }
    Some(BigEndian::read_u48(&frame[place..]))
}

/// Whether the Ethernet header says that a packet of IPv4 follows.
fn says_ipv4(frame: &[u8]) -> bool
    requires { 34 ≤ length frame.now }
    ensures { result ≡ (big_number 2 (drop 12 frame.now) == IPV4) }
{
    BigEndian::read_u16(&frame[12..]) == IPV4
}

/// Whether an IPv4 header stands behind the Ethernet header.
fn has_ipv4(frame: &[u8]) -> bool
    ensures { result ≡ has_ipv4 frame.now }
{
    frame.len() >= 34 && says_ipv4(frame) && frame[14] / 16 == 4 && frame[14] % 16 >= 5
}

/// Where the header behind the IPv4 header begins.
fn transport_place(frame: &[u8]) -> usize
    requires { 34 ≤ length frame.now }
    ensures { result ≡ transport_place frame.now }
{
    14 + 4 * usize::from(frame[14] % 16)
}

/// Whether the packet is whole, or the first fragment of one: its offset is 0.
fn is_first_fragment(frame: &[u8]) -> bool
    requires { 34 ≤ length frame.now }
    ensures { result ≡ (big_number 2 (drop 20 frame.now) % 2 ^ 13 == 0) }
{
    BigEndian::read_u16(&frame[20..]) % (1 << 13) == 0
}

/// Whether two ports of this protocol stand behind the IPv4 header.
fn has_ports(protocol: u8, frame: &[u8]) -> bool
    ensures { result ≡ has_ports protocol frame.now }
{
    has_ipv4(frame)
        && frame[23] == protocol
        && is_first_fragment(frame)
        && frame.len() >= transport_place(frame) + 4
}

/// The two ports behind the IPv4 header, where they are there and of this protocol.
fn ports(protocol: u8, frame: &[u8]) -> (Option<u16>, Option<u16>)
    ensures { result ≡ (
      number_within (has_ports protocol frame.now) 2 (transport_place frame.now) frame.now,
      number_within (has_ports protocol frame.now) 2 (transport_place frame.now + 2) frame.now,
    ) }
{
    if !has_ports(protocol, frame) {
        return (None, None);
    }
    let place = transport_place(frame);
    (u16_at(frame, place), u16_at(frame, place + 2))
}

/// The protocol and the two addresses of the IPv4 header, where there is one.
fn ipv4(frame: &[u8]) -> (Option<u8>, Option<u32>, Option<u32>)
    ensures { result ≡ (
      number_within (has_ipv4 frame.now) 1 23 frame.now,
      number_within (has_ipv4 frame.now) 4 26 frame.now,
      number_within (has_ipv4 frame.now) 4 30 frame.now,
    ) }
{
    if !has_ipv4(frame) {
        return (None, None, None);
    }
    (u8_at(frame, 23), u32_at(frame, 26), u32_at(frame, 30))
}
