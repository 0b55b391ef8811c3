//! Reading a match from left to right.

ghost use Rattle.std.specs.Prelude.{◌≡◌, ◌<◌, ◌≤◌, ◌^◌, ◌++◌, ℕ, List, Ok, Some, length, take, IfOk, IfSome, true};
ghost use Rattle.of_types.specs.declared.message.Match.{Match};
ghost use Rattle.of_match.specs.Writing.{canonical_match};
ghost use Rattle.of_match.specs.Spelling.{IsSpelled, Fits};
ghost use Rattle.of_types.specs.Valid.{IsValidMatch};
ghost use Rattle.of_types.specs.Sizes.{match_size};
ghost use Rattle.of_bytes.specs.Reading.{Gives};
ghost use Rattle.of_match.specs.Field.{width_of, can_mask};
ghost use Rattle.of_match.specs.Reading.{header_at, payload_length, masked48_at, masked32_at, put_at, said_at, match_body_at, match_of_port, match_at, needs, is_ipv4, has_protocol, has_prerequisites};

use crate::fault::MatchFault;
use crate::kind::{FieldHeader, FieldKind};
use kind_set::KindSet;
use of_bytes::{u16_at, u32_at, u48_at};
use of_types::{
    IPV4, MATCH_OF_FIELDS, Masked32, Masked48, Match, ONES32, ONES48, OPENFLOW_BASIC, TCP, UDP,
    any_match,
};

/// Reads one match with its padding, and tells how many bytes it takes. Bytes may follow it.
pub fn read_match(bytes: &[u8]) -> Result<(Match, usize), MatchFault>
    // What is read is spelled so.
    ensures found { IfOk result (λ x. (x.1 ≤ length bytes.now) × IsSpelled (take x.1 bytes.now) x.0) }
    // What is spelled so is read, whatever follows.
    ensures only { (m : Match) (text rest : List ℕ) → bytes.now ≡ text ++ rest → IsSpelled text m → result ≡ Ok (m, length text) }
    // Which fault it is.
    ensures exact { result ≡ match_at bytes.now }
    // What is read is valid.
    ensures valid { IfOk result (λ x. IsValidMatch x.0) }
    // It is written in no more bytes than it was read from.
    ensures short { IfOk result (λ x. match_size x.0 ≤ x.1) }
{
    first_match(bytes)
}

/// The bytes of a match that asks for a port alone.
pub const PORT_ALONE: usize = 16;

/// Its first bytes: its type and its length, and the class, the number and the length of its field.
const PORT_FRONT: [u8; 8] = [0, 1, 0, 12, 0x80, 0, 0, 4];

/// The port of a match that asks for a port alone. None where it may ask for more, which `read_match` tells.
pub fn port_alone(bytes: &[u8]) -> Option<u32>
    // The match is that of the port.
    ensures alone { IfSome result (λ port. match_at bytes.now ≡ Ok (match_of_port port, 16)) }
    // All its bytes are there.
    ensures there { IfSome result (λ _. 16 ≤ length bytes.now) }
    // The one written form of such a match is met, whatever follows.
    ensures met { (port : ℕ) (rest : List ℕ) → port < 2 ^ 32 → bytes.now ≡ canonical_match (match_of_port port) ++ rest → result ≡ Some port }
{
    if bytes.len() >= PORT_ALONE && bytes.starts_with(&PORT_FRONT) {
        Some(u32_at(bytes, 8))
    } else {
        None
    }
}

/// The bytes of a match that asks for a port and a whole destination alone.
const PORT_AND_DESTINATION: usize = 24;

/// Its first bytes: its type and its length, and the class, the number and the length of its first field.
pub(crate) const PORT_THEN_MORE: [u8; 8] = [0, 1, 0, 22, 0x80, 0, 0, 4];

/// The class, the number and the length of its second field.
pub(crate) const DESTINATION_FRONT: [u8; 4] = [0x80, 0, 6, 6];

/// A match that asks for a port and a whole destination alone. None where it may ask for others.
fn port_and_destination(bytes: &[u8]) -> Option<Match>
    ensures { IfSome result (λ m. match_at bytes.now ≡ Ok (m, 24)) }
{
    if bytes.len() >= PORT_AND_DESTINATION
        && bytes.starts_with(&PORT_THEN_MORE)
        && bytes[12..].starts_with(&DESTINATION_FRONT)
    {
        let mut matching = any_match();
        matching.in_port = Some(u32_at(bytes, 8));
        matching.eth_dst = Some(Masked48 {
            value: u48_at(bytes, 16),
            mask: ONES48,
        });
        Some(matching)
    } else {
        None
    }
}

/// Laws of the one written form of a match.
pub fn match_law()
    // It is read again, whatever follows it.
    ensures again { (m : Match) (rest : List ℕ) → IsValidMatch m → Fits m → match_at (canonical_match m ++ rest) ≡ Ok (m, match_size m) }
    // It is one of the forms that spell the match.
    ensures spelled { (m : Match) → IsValidMatch m → Fits m → IsSpelled (canonical_match m) m }
    // It has the stated size.
    ensures size { (m : Match) → length (canonical_match m) ≡ match_size m }
{}

/// The next field's header, its value and mask, and what comes after it.
#[tactic(auto, unfolding(crate::specs::Reading::header_at))]
fn header_at(bytes: &[u8]) -> Result<(FieldHeader, &[u8], &[u8]), MatchFault>
    ensures field { Gives (λ x. (x.0, x.1.now, x.2.now)) result (header_at bytes.now) }
    ensures payload { IfOk result (λ x. length x.1.now ≡ payload_length x.0) }
    ensures shorter { IfOk result (λ x. length x.2.now < length bytes.now) }
{
    if bytes.len() < 4 {
        return Err(MatchFault::BadLength);
    }
    let (front, rest) = bytes.split_at(4);
    if u16_at(front, 0) != OPENFLOW_BASIC {
        return Err(MatchFault::BadField);
    }
    let Some(kind) = FieldKind::from_number(front[2] / 2) else {
        return Err(MatchFault::BadField);
    };
    let header = FieldHeader {
        kind,
        has_mask: front[2] % 2 == 1,
    };
    let len = usize::from(front[3]);
    if rest.len() < len || len != header.payload_length() {
        return Err(MatchFault::BadLength);
    }
    let (payload, rest) = rest.split_at(len);
    Ok((header, payload, rest))
}

/// An Ethernet address under its mask, or none under a mask of zero.
#[tactic(auto, unfolding(crate::specs::Reading::value_at, crate::specs::Reading::masked48_at))]
fn read_masked48(header: FieldHeader, payload: &[u8]) -> Result<Option<Masked48>, MatchFault>
    requires width { width_of header.kind ≡ 6 }
    requires can_mask { can_mask header.kind ≡ true }
    requires length { length payload.now ≡ payload_length header }
    ensures { Gives (λ x. x) result (masked48_at header payload.now) }
{
    let value = u48_at(payload, 0);
    if !header.has_mask {
        return Ok(Some(Masked48 {
            value,
            mask: ONES48,
        }));
    }
    let mask = u48_at(payload, 6);
    if value & mask != value {
        return Err(MatchFault::BadWildcard);
    }
    Ok((mask != 0).then_some(Masked48 { value, mask }))
}

/// An IPv4 address under its mask, or none under a mask of zero.
#[tactic(auto, unfolding(crate::specs::Reading::value_at, crate::specs::Reading::masked32_at))]
fn read_masked32(header: FieldHeader, payload: &[u8]) -> Result<Option<Masked32>, MatchFault>
    requires width { width_of header.kind ≡ 4 }
    requires can_mask { can_mask header.kind ≡ true }
    requires length { length payload.now ≡ payload_length header }
    ensures { Gives (λ x. x) result (masked32_at header payload.now) }
{
    let value = u32_at(payload, 0);
    if !header.has_mask {
        return Ok(Some(Masked32 {
            value,
            mask: ONES32,
        }));
    }
    let mask = u32_at(payload, 4);
    if value & mask != value {
        return Err(MatchFault::BadWildcard);
    }
    Ok((mask != 0).then_some(Masked32 { value, mask }))
}

/// Sets what the field asks for.
#[tactic(auto, unfolding(crate::specs::Reading::value_at, crate::specs::Reading::put_at, crate::specs::Reading::masked48_at, crate::specs::Reading::masked32_at))]
fn put_field(matching: &mut Match, header: FieldHeader, payload: &[u8]) -> Result<(), MatchFault>
    requires { length payload.now ≡ payload_length header }
    ensures { Gives (λ _. matching.new) result (put_at matching.old header payload.now) }
{
    if header.has_mask && !header.kind.can_mask() {
        return Err(MatchFault::BadMask);
    }
    match header.kind {
        FieldKind::InPort => matching.in_port = Some(u32_at(payload, 0)),
        FieldKind::EthDst => matching.eth_dst = read_masked48(header, payload)?,
        FieldKind::EthSrc => matching.eth_src = read_masked48(header, payload)?,
        FieldKind::EthType => matching.eth_type = Some(u16_at(payload, 0)),
        FieldKind::IpProto => matching.ip_proto = Some(payload[0]),
        FieldKind::Ipv4Src => matching.ipv4_src = read_masked32(header, payload)?,
        FieldKind::Ipv4Dst => matching.ipv4_dst = read_masked32(header, payload)?,
        FieldKind::TcpSrc => matching.tcp_src = Some(u16_at(payload, 0)),
        FieldKind::TcpDst => matching.tcp_dst = Some(u16_at(payload, 0)),
        FieldKind::UdpSrc => matching.udp_src = Some(u16_at(payload, 0)),
        FieldKind::UdpDst => matching.udp_dst = Some(u16_at(payload, 0)),
    }
    Ok(())
}

/// The bytes of the fields, and how many bytes the match takes with its padding.
#[tactic(auto, unfolding(crate::specs::Reading::match_body_at))]
fn body_of(bytes: &[u8]) -> Result<(&[u8], usize), MatchFault>
    ensures { Gives (λ x. (x.0.now, x.1)) result (match_body_at bytes.now) }
{
    if bytes.len() >= 2 && u16_at(bytes, 0) != MATCH_OF_FIELDS {
        return Err(MatchFault::BadType);
    }
    if bytes.len() < 4 {
        return Err(MatchFault::BadLength);
    }
    let len = usize::from(u16_at(bytes, 2));
    let padded = len.div_ceil(8) * 8;
    if len < 4 || bytes.len() < padded {
        return Err(MatchFault::BadLength);
    }
    Ok((&bytes[4..len], padded))
}

/// The match that these fields make, without its prerequisites.
fn read_fields(body: &[u8]) -> Result<Match, MatchFault>
    ensures { Gives (λ m. m) result (said_at body.now) }
{
    let mut matching = any_match();
    let mut seen = KindSet::new();
    let mut rest = body;
    'fields: while !rest.is_empty() {
        let (header, payload, after) = header_at(rest)?;
        if !seen.insert(header.kind.number()) {
            return Err(MatchFault::Repeated);
        }
        put_field(&mut matching, header, payload)?;
        rest = after;
    }
    Ok(matching)
}

/// Where the field stands, the condition holds.
fn needs<T>(field: &Option<T>, condition: bool) -> bool
    ensures { result ≡ needs field.now condition }
{
    field.is_none() || condition
}

fn is_ipv4(matching: &Match) -> bool
    ensures { result ≡ is_ipv4 matching.now }
{
    matching.eth_type == Some(IPV4)
}

fn has_protocol(protocol: u8, matching: &Match) -> bool
    requires { 0 < protocol }
    ensures { result ≡ has_protocol protocol matching.now }
{
    matching.ip_proto == Some(protocol)
}

/// Whether each field that needs another stands with it.
fn has_prerequisites(matching: &Match) -> bool
    ensures { result ≡ has_prerequisites matching.now }
{
    let is_ipv4 = is_ipv4(matching);
    let is_tcp = has_protocol(TCP, matching);
    let is_udp = has_protocol(UDP, matching);
    needs(&matching.ip_proto, is_ipv4)
        && needs(&matching.ipv4_src, is_ipv4)
        && needs(&matching.ipv4_dst, is_ipv4)
        && needs(&matching.tcp_src, is_tcp)
        && needs(&matching.tcp_dst, is_tcp)
        && needs(&matching.udp_src, is_udp)
        && needs(&matching.udp_dst, is_udp)
}

#[tactic(auto, unfolding(crate::specs::Reading::match_at))]
fn first_match(bytes: &[u8]) -> Result<(Match, usize), MatchFault>
    ensures { result ≡ match_at bytes.now }
{
    if let Some(matching) = port_and_destination(bytes) {
        return Ok((matching, PORT_AND_DESTINATION));
    }
    let (body, taken) = body_of(bytes)?;
    let matching = read_fields(body)?;
    if !has_prerequisites(&matching) {
        return Err(MatchFault::Prerequisite);
    }
    Ok((matching, taken))
}
