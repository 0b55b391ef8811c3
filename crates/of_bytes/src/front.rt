//! The front of a message: what stands in fixed places, made in one value and then written at once.
ghost use Rattle.std.specs.Prelude.{◌≡◌, ◌≤◌, ◌+◌, ◌++◌, [], length};

use arrayvec::ArrayVec;
use std::marker::Model;

/// At most `N` bytes, which lie in the value itself: numbers and padding are put one behind the other, and then written at
/// once. Contracts see it as its bytes.
#[derive(Drop)]
pub struct Front<const N: usize> {
    bytes: ArrayVec<u8, N>,
}

impl<const N: usize> Model for Front<N> {
    ghost use Rattle.std.specs.Prelude.{List, ℕ};

    ghost Value = { List ℕ };

    ghost view = { λ front. front.bytes.items };
}

impl<const N: usize> Front<N> {
    /// No bytes yet.
    pub fn new() -> Front<N>
        ensures bytes { result ≡ [] }
        ensures len { length result ≡ 0 }
    {
        Front {
            bytes: ArrayVec::new(),
        }
    }

    /// Adds a number, or padding. There must be room.
    pub fn put<const K: usize>(&mut self, piece: [u8; K])
        requires { length self.old + K ≤ N }
        ensures bytes { self.new ≡ self.old ++ piece.entry }
        ensures len { length self.new ≡ length self.old + K }
    {
        self.put_slice(&piece);
    }

    /// Adds bytes. There must be room.
    pub fn put_slice(&mut self, piece: &[u8])
        requires { length self.old + length piece.now ≤ N }
        ensures bytes { self.new ≡ self.old ++ piece.now }
        ensures len { length self.new ≡ length self.old + length piece.now }
    {
        let _ = self.bytes.try_extend_from_slice(piece);
    }

    /// The bytes.
    pub fn as_slice(&self) -> &[u8]
        ensures { result.now ≡ self.now }
    {
        self.bytes.as_slice()
    }
}
