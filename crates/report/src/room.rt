//! The bytes of a text that wait to be moved to its list.
ghost use Rattle.std.specs.Prelude.{◌≡◌, ◌≤◌, ◌<◌, ◌+◌, ◌*◌, ◌++◌, [], length, drop};
ghost use Rattle.report.specs.Report.{hex_digit, hex_of};

use std::marker::Model;

/// How many bytes wait at most: some lines, so that a move to the list is rare.
pub const ROOM: usize = 2048;

/// At most `ROOM` bytes, which lie in the value itself. Contracts see it as its bytes.
#[derive(Drop)]
pub struct Room {
    bytes: [u8; ROOM],
    len: usize,
}

impl Model for Room {
    ghost use Rattle.std.specs.Prelude.{List, ℕ, ◌≤◌, take};

    ghost Value = { List ℕ };

    ghost view = { λ room. take room.len room.bytes };

    ghost invariant = { λ room. room.len ≤ 2048 };
}

impl Room {
    /// No bytes yet.
    pub fn new() -> Room
        ensures { result ≡ [] }
    {
        Room {
            bytes: [0; ROOM],
            len: 0,
        }
    }

    /// The bytes.
    pub fn as_slice(&self) -> &[u8]
        ensures { result.now ≡ self.now }
    {
        &self.bytes[..self.len]
    }

    /// How many more bytes there is room for.
    #[inline]
    pub fn free(&self) -> usize
        ensures { result + length self.now ≡ ROOM }
    {
        ROOM - self.len
    }

    /// Adds bytes. There must be room.
    #[inline]
    pub fn put(&mut self, bytes: &[u8])
        requires { length self.old + length bytes.now ≤ ROOM }
        ensures { self.new ≡ self.old ++ bytes.now }
    {
        let end = self.len + bytes.len();
        self.bytes[self.len..end].copy_from_slice(bytes);
        self.len = end;
    }

    /// Adds the digits of bytes, two for each. There must be room.
    pub fn spell(&mut self, bytes: &[u8])
        requires { length self.old + 2 * length bytes.now ≤ ROOM }
        ensures { self.new ≡ self.old ++ hex_of bytes.now }
    {
        spell_pairs(&mut self.bytes[self.len..], bytes);
        self.len += 2 * bytes.len();
    }

    /// Leaves no bytes.
    pub fn clear(&mut self)
        ensures { self.new ≡ [] }
    {
        self.len = 0;
    }
}

fn hex_digit(n: u8) -> u8
    requires { n < 16 }
    ensures { result ≡ hex_digit n }
{
    n + b'0' + if n >= 10 { b'a' - b'0' - 10 } else { 0 }
}

/// Spells bytes by two digits each in the front of a place.
fn spell_pairs(place: &mut [u8], bytes: &[u8])
    requires { 2 * length bytes.now ≤ length place.old }
    ensures { place.new ≡ hex_of bytes.now ++ drop (2 * length bytes.now) place.old }
{
    for index in 0..bytes.len() {
        let byte = bytes[index];
        place[2 * index] = hex_digit(byte / 16);
        place[2 * index + 1] = hex_digit(byte % 16);
    }
}
