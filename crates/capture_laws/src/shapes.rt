//! What a capture holds.
ghost use Rattle.std.specs.Prelude.{◌≡◌};

use journal::Actor;
use of_types::Octets;
use std::marker::Model;

/// A packet of a capture. Its time is the number of a journal's entry, from 1 on.
#[derive(Drop)]
pub struct Captured<'a> {
    pub time: u64,
    pub way: Way,
    pub payload: Piece<'a>,
    pub comment: Octets,
}

/// Bytes of a journal, which stay where they are. Contracts see them as a list.
#[derive(Drop)]
pub struct Piece<'a> {
    bytes: &'a [u8],
}

impl<'a> Model for Piece<'a> {
    ghost use Rattle.std.specs.Prelude.{List, ℕ};

    ghost Value = { List ℕ };

    ghost view = { λ piece. piece.bytes.now };
}

impl<'a> Piece<'a> {
    /// These bytes.
    pub fn new(bytes: &'a [u8]) -> Piece<'a>
        ensures { result ≡ bytes.now }
    {
        Piece { bytes }
    }

    /// The bytes.
    pub fn as_slice(&self) -> &[u8]
        ensures { result.now ≡ self.now }
    {
        self.bytes
    }
}

/// A port of a switch.
#[derive(Clone, Copy)]
pub struct Port {
    pub switch: u8,
    pub port: u32,
}

/// Where a packet is seen: on the stream of TCP from one actor to another, with the number of its first byte there and that of
/// the next byte of the other direction, or at a port that takes a frame in. `ends` tells that a letter ends with it.
#[derive(Clone, Copy)]
pub enum Way {
    Segment {
        from: Actor,
        to: Actor,
        sequence: u32,
        acknowledged: u32,
        ends: bool,
    },
    Frame(Port),
}

/// What became of a letter: how often it was drawn and kept, and whether it was lost.
#[derive(Clone, Copy)]
pub struct Fate {
    pub kept: u64,
    pub lost: bool,
}
