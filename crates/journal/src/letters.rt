//! The letters of one outbox, which contracts see as the list of them.
ghost use Rattle.std.specs.Prelude.{◌≡◌, [], ◌∷◌, length, ◌==◌};
ghost use Rattle.journal.specs.Letters.{letters_held};

use crate::journal::Letter;
use of_types::Octets;
use std::alloc::Global;
use std::marker::Model;
use std::slice;

/// The letters of one outbox, in order. One letter, as most outboxes have, takes no list of its own.
#[derive(Drop)]
pub struct Letters<B> {
    letters: OneOrMany<B>,
}

/// One letter, or a list of any length.
#[derive(Drop)]
pub enum OneOrMany<B> {
    One(Letter<B>),
    Many(Vec<Letter<B>>),
}

impl<B> Model for Letters<B> {
    ghost use Rattle.std.specs.Prelude.{List};
    ghost use Rattle.journal.specs.declared.journal.Letter.{Letter};
    ghost use Rattle.journal.specs.Letters.{letters_held};

    ghost Value = { List (Letter B) };

    ghost view = { λ l. letters_held l.letters };
}

impl<B> Letters<B> {
    /// No letter, which takes no memory.
    pub fn new(alloc: Global) -> Letters<B>
        ensures { result ≡ [] }
    {
        Letters::from_vec(Vec::new(alloc))
    }

    /// One letter, which takes no memory.
    pub fn one(letter: Letter<B>) -> Letters<B>
        ensures { result ≡ letter ∷ [] }
    {
        Letters {
            letters: OneOrMany::One(letter),
        }
    }

    /// The letters of a vector, which takes no memory.
    pub fn from_vec(letters: Vec<Letter<B>>) -> Letters<B>
        ensures { result ≡ letters.items }
    {
        Letters {
            letters: OneOrMany::Many(letters),
        }
    }

    /// The letters as `into_inner` gave them, which takes no memory.
    pub fn from_inner(letters: OneOrMany<B>) -> Letters<B>
        ensures { result ≡ letters_held letters }
    {
        Letters { letters }
    }

    /// Gives the letters as they are kept, which takes no memory.
    pub fn into_inner(self) -> OneOrMany<B>
        ensures { letters_held result ≡ self }
    {
        self.letters
    }

    pub fn len(&self) -> usize
        ensures { result ≡ length self.now }
    {
        match &self.letters {
            OneOrMany::One(_) => 1,
            OneOrMany::Many(letters) => letters.len(),
        }
    }

    pub fn is_empty(&self) -> bool
        ensures { result ≡ (length self.now == 0) }
    {
        self.len() == 0
    }
}

impl Letters<Octets> {
    /// The letters, in order.
    pub fn as_slice(&self) -> &[Letter<Octets>]
        ensures { result.now ≡ self.now }
    {
        match &self.letters {
            OneOrMany::One(letter) => slice::from_ref(letter),
            OneOrMany::Many(letters) => letters.as_slice(),
        }
    }
}
