//! When a frame's fields meet a match.
ghost use Rattle.std.specs.Prelude.{◌≡◌};
ghost use Rattle.of_types.specs.Matching.{has_value, has_address48, has_address32, matches as is_match, any_match as open_match, is_any as is_open, same_match as is_same};

use crate::message::{Fields, Masked32, Masked48, Match};

pub fn has_u8(asked: Option<u8>, found: Option<u8>) -> bool
    ensures { result ≡ has_value asked found }
{
    match (asked, found) {
        (None, _) => true,
        (Some(_), None) => false,
        (Some(asked), Some(found)) => found == asked,
    }
}

pub fn has_u16(asked: Option<u16>, found: Option<u16>) -> bool
    ensures { result ≡ has_value asked found }
{
    match (asked, found) {
        (None, _) => true,
        (Some(_), None) => false,
        (Some(asked), Some(found)) => found == asked,
    }
}

pub fn has_u32(asked: Option<u32>, found: Option<u32>) -> bool
    ensures { result ≡ has_value asked found }
{
    match (asked, found) {
        (None, _) => true,
        (Some(_), None) => false,
        (Some(asked), Some(found)) => found == asked,
    }
}

/// Whether each field of the match is there, and equal under its mask (OpenFlow 1.3, 5.3). The port
/// that the frame came in by is one of its fields.
pub fn matches(matching: &Match, fields: &Fields) -> bool
    ensures { result ≡ is_match matching.now fields.now }
{
    has_u32(matching.in_port, fields.in_port)
        && has_address48(matching.eth_dst, fields.eth_dst)
        && has_address48(matching.eth_src, fields.eth_src)
        && has_u16(matching.eth_type, fields.eth_type)
        && has_u8(matching.ip_proto, fields.ip_proto)
        && has_address32(matching.ipv4_src, fields.ipv4_src)
        && has_address32(matching.ipv4_dst, fields.ipv4_dst)
        && has_u16(matching.tcp_src, fields.tcp_src)
        && has_u16(matching.tcp_dst, fields.tcp_dst)
        && has_u16(matching.udp_src, fields.udp_src)
        && has_u16(matching.udp_dst, fields.udp_dst)
}

/// The match of every frame.
pub fn any_match() -> Match
    ensures { result ≡ open_match }
{
    Match {
        in_port: None,
        eth_dst: None,
        eth_src: None,
        eth_type: None,
        ip_proto: None,
        ipv4_src: None,
        ipv4_dst: None,
        tcp_src: None,
        tcp_dst: None,
        udp_src: None,
        udp_dst: None,
    }
}

/// Whether a match asks for nothing.
pub fn is_any(matching: &Match) -> bool
    ensures { result ≡ is_open matching.now }
{
    *matching == any_match()
}

/// Whether two matches are equal.
pub fn same_match(a: &Match, b: &Match) -> bool
    ensures { result ≡ is_same a.now b.now }
{
    a == b
}

fn has_address48(asked: Option<Masked48>, found: Option<u64>) -> bool
    ensures { result ≡ has_address48 asked found }
{
    match (asked, found) {
        (None, _) => true,
        (Some(_), None) => false,
        (Some(asked), Some(found)) => found & asked.mask == asked.value & asked.mask,
    }
}

fn has_address32(asked: Option<Masked32>, found: Option<u32>) -> bool
    ensures { result ≡ has_address32 asked found }
{
    match (asked, found) {
        (None, _) => true,
        (Some(_), None) => false,
        (Some(asked), Some(found)) => found & asked.mask == asked.value & asked.mask,
    }
}
