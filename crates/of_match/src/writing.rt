//! Writing a match in its one form.

ghost use Rattle.std.specs.Prelude.{◌≡◌, ◌≤◌, ◌<◌, ◌+◌, ◌++◌, ◌∷◌, ◌-◌, ◌^◌, length, IfOk, IfSome, OnOk, OnErr};
ghost use Rattle.of_bytes.specs.Numbers.{big_bytes};
ghost use Rattle.of_match.specs.Field.{field_bytes, width_of};
ghost use Rattle.of_types.specs.Sizes.{padded};
ghost use Rattle.of_match.specs.Spelling.{IsSpelled, Fits};
ghost use Rattle.of_types.specs.Valid.{IsValidMatch};
ghost use Rattle.of_match.specs.Writing.{exact, address48, address32, link_fields, network_fields, transport_fields, written_of, spelled, bare_match, padding, canonical_bare_match, canonical_match, match_of_pair};

use crate::kind::{FieldHeader, FieldKind};
use crate::reading::{DESTINATION_FRONT, PORT_THEN_MORE};
use of_bytes::{Front, four, six, zeros};
use of_types::{
    MATCH_OF_FIELDS, Masked32, Masked48, Match, ONES32, ONES48, OPENFLOW_BASIC, Octets,
};
use std::alloc::{AllocError, Global};

/// Room for any match: eleven fields of at most sixteen bytes, a header and padding.
const ROOM: usize = 192;

/// A match as it is written, or a part of it.
pub type MatchFront = Front<ROOM>;

/// A match in its canonical form, padding included: fields by ascending number, and a mask of ones written as no mask.
/// It takes no memory.
#[tactic(auto, unfolding(crate::specs::Writing::canonical_match))]
pub fn match_front(matching: &Match) -> MatchFront
    ensures { result ≡ canonical_match matching.now }
{
    if let Some((port, destination)) = port_and_destination(matching) {
        return port_and_destination_front(port, destination);
    }
    let mut front = bare_front(matching);
    let len = front.as_slice().len();
    put_padding(&mut front, len);
    front
}

/// The port and the destination that a match asks for, where it asks for these alone, and for the whole destination.
fn port_and_destination(matching: &Match) -> Option<(u32, u64)>
    ensures { IfSome result (λ x. matching.now ≡ match_of_pair x.0 x.1) }
{
    match matching {
        Match {
            in_port: Some(port),
            eth_dst: Some(
                Masked48 {
                    value,
                    mask: ONES48,
                },
            ),
            eth_src: None,
            eth_type: None,
            ip_proto: None,
            ipv4_src: None,
            ipv4_dst: None,
            tcp_src: None,
            tcp_dst: None,
            udp_src: None,
            udp_dst: None,
        } => Some((*port, *value)),
        _ => None,
    }
}

/// A match that asks for a port and a whole destination alone, in its canonical form.
#[tactic(auto, using(crate::proofs::Pair::pair_written))]
fn port_and_destination_front(port: u32, destination: u64) -> MatchFront
    ensures { result ≡ canonical_match (match_of_pair port destination) }
{
    let mut front = Front::new();
    front.put(PORT_THEN_MORE);
    front.put(four(port));
    front.put(DESTINATION_FRONT);
    front.put(six(destination));
    front.put(zeros::<2>());
    front
}

/// The canonical form of a match without its padding.
pub fn bare_match(alloc: Global, matching: &Match) -> Result<Octets, AllocError>
    ensures { IfOk result (λ bytes. bytes ≡ canonical_bare_match matching.now) }
{
    Octets::from_slice(alloc, bare_front(matching).as_slice())
}

/// Adds the match in its canonical form, padding included: fields by ascending number, and a mask of
/// ones written as no mask. An `Err` changes nothing.
pub fn write_match(_alloc: Global, matching: &Match, out: &mut Octets) -> Result<(), AllocError>
    ensures ok { OnOk result (out.new ≡ out.old ++ canonical_match matching.now) }
    // Of a valid match that is one of the forms that spell it.
    ensures spelled { IsValidMatch matching.now → IsSpelled (canonical_match matching.now) matching.now }
    ensures err { OnErr result (out.new ≡ out.old) }
{
    fits(*matching);
    out.append(match_front(matching).as_slice())
}

/// Adds the lowest bytes of a number, as many as the kind's values have.
fn put_number(front: &mut MatchFront, kind: FieldKind, number: u64)
    requires { length front.old + 8 ≤ ROOM }
    ensures bytes { front.new ≡ front.old ++ big_bytes (width_of kind) number }
    ensures len { length front.new ≡ length front.old + width_of kind }
{
    front.put_slice(&number.to_be_bytes()[8 - kind.width()..]);
}

/// Adds a field with its value and the mask, if any.
fn put_field(front: &mut MatchFront, kind: FieldKind, value: u64, mask: Option<u64>)
    requires { length front.old + 18 ≤ ROOM }
    ensures bytes { front.new
        ≡ front.old ++ field_bytes (record { kind = kind; value = value; mask = mask }) }
    ensures short { length front.new ≤ length front.old + 16 }
{
    let header = FieldHeader {
        kind,
        has_mask: mask.is_some(),
    };
    front.put(OPENFLOW_BASIC.to_be_bytes());
    front.put([
        2 * kind.number() + u8::from(header.has_mask),
        header.payload_length() as u8,
    ]);
    put_number(front, kind, value);
    if let Some(mask) = mask {
        put_number(front, kind, mask);
    }
}

/// Adds a field without a mask, where there is one.
#[tactic(auto, unfolding(crate::specs::Writing::exact, crate::specs::Writing::spelled))]
fn put_exact(front: &mut MatchFront, kind: FieldKind, value: Option<u64>)
    requires { length front.old + 18 ≤ ROOM }
    ensures bytes { front.new ≡ front.old ++ spelled (exact kind value) }
    ensures short { length front.new ≤ length front.old + 16 }
{
    if let Some(value) = value {
        put_field(front, kind, value, None);
    }
}

/// Adds an Ethernet address, where there is one.
#[tactic(auto, unfolding(crate::specs::Writing::address48, crate::specs::Writing::spelled))]
fn put_address48(front: &mut MatchFront, kind: FieldKind, address: Option<Masked48>)
    requires room { length front.old + 18 ≤ ROOM }
    requires width { width_of kind ≡ 6 }
    ensures bytes { front.new ≡ front.old ++ spelled (address48 kind address) }
    ensures short { length front.new ≤ length front.old + 16 }
{
    match address {
        Some(Masked48 { value, mask }) if mask == ONES48 => put_field(front, kind, value, None),
        Some(Masked48 { value, mask }) => put_field(front, kind, value, Some(mask)),
        None => {}
    }
}

/// Adds an IPv4 address, where there is one.
#[tactic(auto, unfolding(crate::specs::Writing::address32, crate::specs::Writing::spelled))]
fn put_address32(front: &mut MatchFront, kind: FieldKind, address: Option<Masked32>)
    requires room { length front.old + 18 ≤ ROOM }
    requires width { width_of kind ≡ 4 }
    ensures bytes { front.new ≡ front.old ++ spelled (address32 kind address) }
    ensures short { length front.new ≤ length front.old + 16 }
{
    match address {
        Some(Masked32 { value, mask }) if mask == ONES32 => {
            put_field(front, kind, u64::from(value), None);
        }
        Some(Masked32 { value, mask }) => {
            put_field(front, kind, u64::from(value), Some(u64::from(mask)));
        }
        None => {}
    }
}

/// Adds the fields on the port and of the Ethernet header.
#[tactic(auto, unfolding(crate::specs::Writing::link_fields))]
fn put_link_fields(front: &mut MatchFront, matching: &Match)
    requires { length front.old + 66 ≤ ROOM }
    ensures bytes { front.new ≡ front.old ++ spelled (link_fields matching.now) }
    ensures short { length front.new ≤ length front.old + 64 }
{
    put_exact(front, FieldKind::InPort, matching.in_port.map(u64::from));
    put_address48(front, FieldKind::EthDst, matching.eth_dst);
    put_address48(front, FieldKind::EthSrc, matching.eth_src);
    put_exact(front, FieldKind::EthType, matching.eth_type.map(u64::from));
}

/// Adds the fields of the IPv4 header.
#[tactic(auto, unfolding(crate::specs::Writing::network_fields))]
fn put_network_fields(front: &mut MatchFront, matching: &Match)
    requires { length front.old + 50 ≤ ROOM }
    ensures bytes { front.new ≡ front.old ++ spelled (network_fields matching.now) }
    ensures short { length front.new ≤ length front.old + 48 }
{
    put_exact(front, FieldKind::IpProto, matching.ip_proto.map(u64::from));
    put_address32(front, FieldKind::Ipv4Src, matching.ipv4_src);
    put_address32(front, FieldKind::Ipv4Dst, matching.ipv4_dst);
}

/// Adds the ports of TCP and UDP.
#[tactic(auto, unfolding(crate::specs::Writing::transport_fields))]
fn put_transport_fields(front: &mut MatchFront, matching: &Match)
    requires { length front.old + 66 ≤ ROOM }
    ensures bytes { front.new ≡ front.old ++ spelled (transport_fields matching.now) }
    ensures short { length front.new ≤ length front.old + 64 }
{
    put_exact(front, FieldKind::TcpSrc, matching.tcp_src.map(u64::from));
    put_exact(front, FieldKind::TcpDst, matching.tcp_dst.map(u64::from));
    put_exact(front, FieldKind::UdpSrc, matching.udp_src.map(u64::from));
    put_exact(front, FieldKind::UdpDst, matching.udp_dst.map(u64::from));
}

/// The fields by ascending number.
#[tactic(auto, unfolding(crate::specs::Writing::written_of))]
fn fields_of(matching: &Match) -> MatchFront
    ensures bytes { result ≡ spelled (written_of matching.now) }
    ensures short { length result ≤ 176 }
{
    let mut fields = Front::new();
    put_link_fields(&mut fields, matching);
    put_network_fields(&mut fields, matching);
    put_transport_fields(&mut fields, matching);
    fields
}

/// A match without its padding: its type, its length and its fields.
#[tactic(auto, unfolding(crate::specs::Writing::canonical_bare_match))]
fn bare_front(matching: &Match) -> MatchFront
    ensures bytes { result ≡ canonical_bare_match matching.now }
    ensures short { length result ≤ 180 }
{
    let fields = fields_of(matching);
    let fields = fields.as_slice();
    let mut bare = Front::new();
    bare.put(MATCH_OF_FIELDS.to_be_bytes());
    bare.put(((4 + fields.len()) as u16).to_be_bytes());
    bare.put_slice(fields);
    bare
}

/// Adds zeros up to a multiple of eight.
fn put_padding(front: &mut MatchFront, len: usize)
    requires { length front.old + 7 ≤ ROOM }
    ensures { front.new ≡ front.old ++ padding len }
{
    front.put_slice(&[0; 8][..(8 - len % 8) % 8]);
}

/// What the types of a match say of its numbers.
fn fits(matching: Match)
    ensures { Fits matching }
{}
