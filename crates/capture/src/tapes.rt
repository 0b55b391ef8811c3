//! The streams of TCP of a capture.
ghost use Rattle.std.specs.Prelude.{◌≡◌, ◌<◌, ◌≤◌, ◌^◌, ◌++◌, ◌∷◌, [], ℕ, nat_le, length, take, drop, OnOk};
ghost use Rattle.std.specs.BTreeMap.{get};
ghost use Rattle.std.specs.Ordering.{nat_cmp};
ghost use Rattle.capture_laws.specs.Streams as streams;
ghost use Rattle.capture_laws.specs.Streams.{segment, with_body};
ghost use Rattle.capture.specs.Tapes.{IsTape, next_behind, next_tape};

use capture_laws::{Captured, Piece, Way};
use journal::Actor;
use of_types::{Items, Octets};
use std::alloc::{AllocError, Global};
use std::collections::BTreeMap;

/// The packets so far, and the number of the next byte of each direction that has said any.
#[derive(Drop)]
pub struct Tape<'a> {
    pub next: BTreeMap<u32, u32>,
    pub packets: Items<Captured<'a>>,
}

/// When a letter was posted, by whom and to whom.
#[derive(Clone, Copy)]
pub struct Heading {
    pub time: u64,
    pub from: Actor,
    pub to: Actor,
}

/// The most bytes of a segment: a packet of IPv4 has at most 65,535.
const MOST_BYTES: usize = 65_495;

/// Adds a letter, in pieces.
pub fn add_body<'a>(
    tape: &mut Tape<'a>,
    alloc: Global,
    heading: Heading,
    comment: &[u8],
    body: &'a [u8],
) -> Result<(), AllocError>
    requires { IsTape tape.old }
    ensures counted { OnOk result (IsTape tape.new) }
    ensures added { OnOk result (tape.new.packets ≡ with_body (length body.now) heading.time heading.from heading.to comment.now body.now tape.old.packets) }
{
    let mut rest = body;
    'pieces: while !rest.is_empty() {
        let (piece, more) = first_piece(rest);
        add_segment(tape, alloc, heading, comment, piece, is_last(rest))?;
        rest = more;
    }
    Ok(())
}

/// The first piece of a body, and what comes behind it.
fn first_piece(body: &[u8]) -> (&[u8], &[u8])
    ensures front { result.0.now ≡ take (streams.piece_of body.now) body.now }
    ensures back { result.1.now ≡ drop (streams.piece_of body.now) body.now }
    ensures small { length result.0.now ≤ 65495 }
{
    body.split_at(body.len().min(MOST_BYTES))
}

/// Whether a body is one piece.
fn is_last(body: &[u8]) -> bool
    ensures { result ≡ nat_le (length body.now) streams.most_bytes }
{
    body.len() <= MOST_BYTES
}

/// Adds a piece of a letter, and counts its bytes.
fn add_segment<'a>(
    tape: &mut Tape<'a>,
    alloc: Global,
    heading: Heading,
    comment: &[u8],
    piece: &'a [u8],
    ends: bool,
) -> Result<(), AllocError>
    requires small { length piece.now < 2 ^ 32 }
    requires counted { IsTape tape.old }
    ensures counted { OnOk result (IsTape tape.new) }
    ensures added { OnOk result (tape.new.packets ≡ tape.old.packets
        ++ segment heading.time heading.from heading.to comment.now piece.now ends tape.old.packets ∷ []) }
{
    push_segment(tape, alloc, heading, comment, piece, ends)?;
    count(
        &mut tape.next,
        direction(heading.from, heading.to),
        piece.len(),
    )?;
    Ok(())
}

/// Adds a piece of a letter as a packet.
fn push_segment<'a>(
    tape: &mut Tape<'a>,
    alloc: Global,
    heading: Heading,
    comment: &[u8],
    piece: &'a [u8],
    ends: bool,
) -> Result<(), AllocError>
    requires { IsTape tape.old }
    ensures next { tape.new.next ≡ tape.old.next }
    ensures added { OnOk result (tape.new.packets ≡ tape.old.packets
        ++ segment heading.time heading.from heading.to comment.now piece.now ends tape.old.packets ∷ []) }
{
    let way = Way::Segment {
        from: heading.from,
        to: heading.to,
        sequence: next_byte(&tape.next, direction(heading.from, heading.to)),
        acknowledged: next_byte(&tape.next, direction(heading.to, heading.from)),
        ends,
    };
    let comment = Octets::from_slice(alloc, comment)?;
    tape.packets.push(Captured {
        time: heading.time,
        way,
        payload: Piece::new(piece),
        comment,
    })?;
    Ok(())
}

/// Counts bytes of a direction.
fn count(next: &mut BTreeMap<u32, u32>, direction: u32, bytes: usize) -> Result<(), AllocError>
    requires { bytes < 2 ^ 32 }
    ensures { OnOk result ((k : ℕ) → next_tape (get nat_cmp next.new k) ≡ next_behind direction bytes (get nat_cmp next.old) k) }
{
    let number = u64::from(next_byte(next, direction)) + bytes as u64;
    next.insert(direction, (number % 4_294_967_296) as u32)?;
    Ok(())
}

/// The number of the next byte of a direction.
fn next_byte(next: &BTreeMap<u32, u32>, direction: u32) -> u32
    ensures { result ≡ next_tape (get nat_cmp next.now direction) }
{
    match next.get(&direction) {
        Some(number) => *number,
        None => 1,
    }
}

/// The number of the direction from one actor to another.
fn direction(from: Actor, to: Actor) -> u32
    ensures { result ≡ streams.direction from to }
{
    end_number(from) * 512 + end_number(to)
}

/// The number of an end of a stream.
fn end_number(actor: Actor) -> u32
    ensures exact { result ≡ streams.end_number actor }
    ensures most { result < 512 }
{
    match actor {
        Actor::Controller(c) => u32::from(c),
        Actor::Switch(s) => 256 + u32::from(s),
    }
}
