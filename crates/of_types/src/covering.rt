//! When one match covers another.
ghost use Rattle.std.specs.Prelude.{◌≡◌, true};
ghost use Rattle.of_types.specs.declared.message.Fields.{Fields};
ghost use Rattle.of_types.specs.Matching.{covers_address48, covers_address32, covers as is_covering, matches as is_match};

use crate::matching::{has_u8, has_u16, has_u32};
use crate::message::{Masked32, Masked48, Match};

/// Whether every field of the wide match stands in the narrow one, with at least its mask and equal
/// under it (OpenFlow 1.3, 6.4).
pub fn covers(wide: &Match, narrow: &Match) -> bool
    ensures exact { result ≡ is_covering wide.now narrow.now }
    // Then each frame that the narrow one takes, the wide one takes.
    ensures taken { (found : Fields) → result ≡ true → is_match narrow.now found ≡ true → is_match wide.now found ≡ true }
{
    covers_each_field(wide, narrow)
}

fn covers_address48(wide: Option<Masked48>, narrow: Option<Masked48>) -> bool
    ensures { result ≡ covers_address48 wide narrow }
{
    match (wide, narrow) {
        (None, _) => true,
        (Some(_), None) => false,
        (Some(wide), Some(narrow)) => {
            narrow.mask & wide.mask == wide.mask
                && narrow.value & wide.mask == wide.value & wide.mask
        }
    }
}

fn covers_address32(wide: Option<Masked32>, narrow: Option<Masked32>) -> bool
    ensures { result ≡ covers_address32 wide narrow }
{
    match (wide, narrow) {
        (None, _) => true,
        (Some(_), None) => false,
        (Some(wide), Some(narrow)) => {
            narrow.mask & wide.mask == wide.mask
                && narrow.value & wide.mask == wide.value & wide.mask
        }
    }
}

fn covers_each_field(wide: &Match, narrow: &Match) -> bool
    ensures { result ≡ is_covering wide.now narrow.now }
{
    has_u32(wide.in_port, narrow.in_port)
        && covers_address48(wide.eth_dst, narrow.eth_dst)
        && covers_address48(wide.eth_src, narrow.eth_src)
        && has_u16(wide.eth_type, narrow.eth_type)
        && has_u8(wide.ip_proto, narrow.ip_proto)
        && covers_address32(wide.ipv4_src, narrow.ipv4_src)
        && covers_address32(wide.ipv4_dst, narrow.ipv4_dst)
        && has_u16(wide.tcp_src, narrow.tcp_src)
        && has_u16(wide.tcp_dst, narrow.tcp_dst)
        && has_u16(wide.udp_src, narrow.udp_src)
        && has_u16(wide.udp_dst, narrow.udp_dst)
}
