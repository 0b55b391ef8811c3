//! Letters with their bodies one behind another.
ghost use Rattle.std.specs.Prelude.{◌≡◌, ◌<◌, ◌++◌, [], ◌∷◌, length, take, slice_get, ◌==◌, IfOk, IfSome, IfNone, OnOk, OnErr};
ghost use Rattle.journal.specs.Mailbags.{HasBody, emptied, AddsPut};

use crate::journal::{Actor, Letter, Weight};
use of_types::Octets;
use std::alloc::{AllocError, Global};
use std::marker::Model;

/// Letters in order. The memory stays as they are taken out. Contracts see the list of them.
#[derive(Drop)]
pub struct Mailbag<B: Weight> {
    bag: B::Bag,
}

impl<B: Weight> Model for Mailbag<B> {
    ghost use Rattle.std.specs.Prelude.{List};
    ghost use Rattle.journal.specs.declared.journal.Letter.{Letter};

    ghost Value = { List (Letter B) };

    ghost view = { λ m. B.letters m.bag };
}

impl<B: Weight> Mailbag<B> {
    /// No letter, which takes no memory.
    pub fn new(alloc: Global) -> Mailbag<B>
        ensures { result ≡ [] }
    {
        Mailbag { bag: B::bag(alloc) }
    }

    /// The letters of a bag.
    pub fn from_bag(bag: B::Bag) -> Mailbag<B>
        ensures { result ≡ B.letters bag }
    {
        Mailbag { bag }
    }

    /// Makes memory for the first letters of a journal. It does nothing where letters are there.
    pub fn make_room(&mut self) -> Result<(), AllocError>
        ensures { self.new ≡ self.old }
    {
        B::make_room(&mut self.bag)
    }

    pub fn len(&self) -> usize
        ensures { result ≡ length self.now }
    {
        B::count(&self.bag)
    }

    pub fn is_empty(&self) -> bool
        ensures { result ≡ (length self.now == 0) }
    {
        self.len() == 0
    }

    /// To whom a letter goes.
    pub fn receiver(&self, index: usize) -> Actor
        requires { index < length self.now }
        ensures { IfSome (slice_get self.now index) (λ letter. result ≡ letter.to) }
    {
        B::receiver(&self.bag, index)
    }

    /// The size of a letter's body, in bytes.
    pub fn size(&self, index: usize) -> u64
        requires { index < length self.now }
        ensures { IfSome (slice_get self.now index) (λ letter. result ≡ B.size letter.body) }
    {
        B::size_at(&self.bag, index)
    }

    /// Adds a copy of one letter. An `Err` changes nothing.
    pub fn copy(&mut self, from: &Mailbag<B>, index: usize) -> Result<(), AllocError>
        requires { index < length from.now }
        ensures ok { OnOk result (IfSome (slice_get from.now index) (λ letter. self.new ≡ self.old ++ letter ∷ [])) }
        ensures err { OnErr result (self.new ≡ self.old) }
    {
        B::copy(&mut self.bag, &from.bag, index)
    }

    /// Adds a letter with the body of one that is there. An `Err` changes nothing.
    pub fn repeat(&mut self, to: Actor, index: usize) -> Result<(), AllocError>
        requires { index < length self.old }
        ensures ok { OnOk result (IfSome (slice_get self.old index) (λ letter. self.new ≡ self.old ++ record { to = to; body = letter.body } ∷ [])) }
        ensures err { OnErr result (self.new ≡ self.old) }
    {
        B::repeat(&mut self.bag, to, index)
    }

    /// Adds copies of letters. An `Err` changes nothing.
    pub fn append(&mut self, letters: &Mailbag<B>) -> Result<(), AllocError>
        ensures ok { OnOk result (self.new ≡ self.old ++ letters.now) }
        ensures err { OnErr result (self.new ≡ self.old) }
    {
        B::append(&mut self.bag, &letters.bag)
    }

    /// Takes the letters behind so many out.
    pub fn truncate(&mut self, count: usize)
        ensures { self.new ≡ take count self.old }
    {
        B::truncate(&mut self.bag, count);
    }

    /// The letters, each with a body of its own.
    pub fn into_letters(self) -> Result<Vec<Letter<B>>, AllocError>
        ensures { IfOk result (λ letters. letters.items ≡ self) }
    {
        B::into_letters(self.bag)
    }

    /// Takes all letters out. The memory stays.
    pub fn clear(&mut self)
        ensures { self.new ≡ [] }
    {
        self.truncate(0);
    }
}

impl Mailbag<Octets> {
    /// The bytes of a letter's body.
    pub fn bytes(&self, index: usize) -> &[u8]
        requires { index < length self.now }
        ensures { IfSome (slice_get self.now index) (λ letter. result.now ≡ letter.body) }
    {
        self.bag.body(index)
    }

    /// Moves the body of a letter out, where it has a list of its own. An empty one is left there. `None` changes nothing.
    pub fn take_own(&mut self, index: usize) -> Option<Octets>
        requires { index < length self.old }
        ensures body { IfSome result (λ own. HasBody self.old index own) }
        ensures left { IfSome result (λ _. self.new ≡ emptied index self.old) }
        ensures none { IfNone result (self.new ≡ self.old) }
    {
        self.bag.take_own(index)
    }

    /// Adds a letter with what `put` puts into an empty list for its body. An `Err` changes nothing.
    pub fn write<F: FnOnce(&mut Octets) -> Result<(), AllocError>>(
        &mut self,
        to: Actor,
        put: F,
    ) -> Result<(), AllocError>
        requires { F.IsAlwaysCallable put }
        ensures ok { OnOk result (AddsPut F.FnOnce put to self.old self.new) }
        ensures err { OnErr result (self.new ≡ self.old) }
    {
        self.bag.write(to, put)
    }
}
