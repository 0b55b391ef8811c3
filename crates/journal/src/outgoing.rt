//! What is to be posted, and its letters once they stand behind those of a journal.
ghost use Rattle.std.specs.Prelude.{◌≡◌, ◌<◌, ◌≤◌, ◌++◌, List, length, drop, slice_get, ◌==◌, IfSome, OnOk, OnErr};
ghost use Rattle.list_facts.specs.Lists.{IsPrefix};
ghost use Rattle.journal.specs.declared.journal.Letter.{Letter};

use crate::journal::{Actor, Weight};
use crate::mailbag::Mailbag;
use std::alloc::AllocError;
use std::marker::Model;

/// What can be posted.
pub trait Outgoing<B: Weight> {
    /// Its letters.
    ghost letters: { Self → List (Letter B) };

    /// Adds its letters to others. An `Err` leaves those as they are, and may leave some of its own behind them.
    fn add_to(&self, bag: &mut Mailbag<B>) -> Result<(), AllocError>
        ensures ok { OnOk result (bag.new ≡ bag.old ++ letters self.now) }
        ensures err { OnErr result (IsPrefix bag.old bag.new) };
}

impl<B: Weight> Outgoing<B> for Mailbag<B> {
    ghost letters = { λ letters. letters };

    fn add_to(&self, bag: &mut Mailbag<B>) -> Result<(), AllocError> {
        bag.append(self)
    }
}

/// The letters of a bag behind so many. Contracts see the list of them.
#[derive(Drop)]
pub struct Coming<'a, B: Weight> {
    letters: &'a Mailbag<B>,
    /// How many stand before them.
    first: usize,
    /// How many they are.
    count: usize,
}

impl<'a, B: Weight> Model for Coming<'a, B> {
    ghost use Rattle.std.specs.Prelude.{◌≡◌, ◌<◌, ◌+◌, ◌^◌, List, drop, length};
    ghost use Rattle.journal.specs.declared.journal.Letter.{Letter};

    ghost Value = { List (Letter B) };

    ghost view = { λ c. drop c.first c.letters.now };

    ghost invariant = { λ c. (c.first + c.count ≡ length c.letters.now) × (length c.letters.now < 2 ^ 64) };
}

impl<'a, B: Weight> Coming<'a, B> {
    /// The letters behind so many.
    #[inline(always)]
    pub fn new(letters: &'a Mailbag<B>, first: usize) -> Coming<'a, B>
        requires { first ≤ length letters.now }
        ensures { result ≡ drop first letters.now }
    {
        let count = letters.len() - first;
        Coming {
            letters,
            first,
            count,
        }
    }

    #[inline(always)]
    pub fn len(&self) -> usize
        ensures { result ≡ length self.now }
    {
        self.count
    }

    #[inline(always)]
    pub fn is_empty(&self) -> bool
        ensures { result ≡ (length self.now == 0) }
    {
        self.count == 0
    }

    /// To whom a letter goes.
    #[inline(always)]
    pub fn receiver(&self, index: usize) -> Actor
        requires { index < length self.now }
        ensures { IfSome (slice_get self.now index) (λ letter. result ≡ letter.to) }
    {
        self.letters.receiver(self.first + index)
    }

    /// The size of a letter's body, in bytes.
    #[inline(always)]
    pub fn size(&self, index: usize) -> u64
        requires { index < length self.now }
        ensures { IfSome (slice_get self.now index) (λ letter. result ≡ B.size letter.body) }
    {
        self.letters.size(self.first + index)
    }
}
