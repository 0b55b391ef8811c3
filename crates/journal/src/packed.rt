//! Letters whose bodies are bytes, one behind another.
ghost use Rattle.std.specs.Prelude.{◌≡◌, ◌<◌, ◌≤◌, ℕ, ◌+◌, ◌++◌, List, [], ◌∷◌, length, ◌-◌, ◌^◌, map, take, drop, vec_len, slice_get, IfOk, IfSome, IfNone, OnOk, OnErr};
ghost use Rattle.list_facts.specs.Lists.{IsPrefix};
ghost use Rattle.journal.specs.Mailbags.{body_of, letter_of, moved, ShareWithin, IsWithin, HasBody, emptied, AddsPut};
ghost use Rattle.journal.specs.declared.packed.Stored.TheVariants as stored;

use crate::journal::{Actor, Letter};
use of_types::Octets;
use std::alloc::{AllocError, Global};
use std::marker::Model;
use std::mem::replace;

/// A body of so many bytes or more has a list of its own, so that it can be moved.
const LONG: usize = 512;

/// A journal begins with memory for so many letters.
const FIRST_LETTERS: usize = 4096;

/// It begins with memory for so many bytes of their bodies.
const FIRST_BYTES: usize = 262_144;

/// A body: a list of its own, or bytes of the bag.
#[derive(Drop)]
pub enum Stored {
    Own(Octets),
    Shared { start: usize, len: usize },
}

/// A letter by its receiver, and where its body is.
#[derive(Drop)]
pub struct Slip {
    pub to: Actor,
    pub body: Stored,
}

/// Letters whose bodies are bytes. Contracts see the list of the letters.
#[derive(Drop)]
pub struct Packed {
    /// The letters. What they share is within the bytes.
    slips: Vec<Slip>,
    /// The short bodies, one behind another. Several letters may have the same bytes.
    bytes: Octets,
    /// Room for a body as it is written, so that a refusal leaves the others as they are.
    draft: Octets,
}

impl Model for Packed {
    ghost use Rattle.std.specs.Prelude.{List, ℕ, length, map};
    ghost use Rattle.journal.specs.declared.journal.Letter.{Letter};
    ghost use Rattle.journal.specs.Mailbags.{letter_of, ShareWithin};

    ghost Value = { List (Letter (List ℕ)) };

    ghost view = { λ p. map (letter_of p.bytes) p.slips.items };

    ghost invariant = { λ p. ShareWithin (length p.bytes) p.slips.items };
}

/// The bytes of a body.
fn bytes_of<'a>(bytes: &'a [u8], body: &'a Stored) -> &'a [u8]
    requires { IsWithin (length bytes.now) body.now }
    ensures { result.now ≡ body_of bytes.now body.now }
{
    match body {
        Stored::Own(octets) => octets.as_slice(),
        Stored::Shared { start, len } => &bytes[*start..*start + *len],
    }
}

/// A body for a bag with these bytes: a short one comes behind them. An `Err` changes nothing.
fn store_body(alloc: Global, bytes: &mut Octets, body: &[u8]) -> Result<Stored, AllocError>
    ensures body { IfOk result (λ stored. body_of bytes.new stored ≡ body.now) }
    ensures within { IfOk result (λ stored. IsWithin (length bytes.new) stored) }
    ensures behind { IsPrefix bytes.old bytes.new }
    ensures err { OnErr result (bytes.new ≡ bytes.old) }
{
    let len = body.len();
    if len >= LONG {
        return Ok(Stored::Own(Octets::from_slice(alloc, body)?));
    }
    let start = bytes.len();
    bytes.append(body)?;
    Ok(Stored::Shared { start, len })
}

impl Packed {
    /// No letter, which takes no memory.
    pub fn new(alloc: Global) -> Packed
        ensures { result ≡ [] }
    {
        Packed {
            slips: Vec::new(alloc),
            bytes: Octets::new(alloc),
            draft: Octets::new(alloc),
        }
    }

    /// Makes memory for the first letters of a journal. It does nothing where letters are there.
    pub fn make_room(&mut self) -> Result<(), AllocError>
        ensures { self.new ≡ self.old }
    {
        if self.slips.is_empty() {
            self.slips.reserve(FIRST_LETTERS)?;
            let bytes = Vec::with_capacity(*self.slips.allocator(), FIRST_BYTES)?;
            self.bytes = Octets::from_vec(bytes);
        }
        Ok(())
    }

    pub fn len(&self) -> usize
        ensures { result ≡ length self.now }
    {
        self.slips.len()
    }

    /// To whom a letter goes.
    pub fn receiver(&self, index: usize) -> Actor
        requires { index < length self.now }
        ensures { IfSome (slice_get self.now index) (λ letter. result ≡ letter.to) }
    {
        self.slips[index].to
    }

    /// How many bytes the body of a letter has.
    pub fn size(&self, index: usize) -> u64
        requires { index < length self.now }
        ensures { IfSome (slice_get self.now index) (λ letter. result ≡ length letter.body) }
    {
        match &self.slips[index].body {
            Stored::Own(octets) => octets.len() as u64,
            Stored::Shared { len, .. } => *len as u64,
        }
    }

    /// The bytes of a letter's body.
    pub fn body(&self, index: usize) -> &[u8]
        requires { index < length self.now }
        ensures { IfSome (slice_get self.now index) (λ letter. result.now ≡ letter.body) }
    {
        bytes_of(self.bytes.as_slice(), &self.slips[index].body)
    }

    /// Moves the body of a letter out, where it has a list of its own. An empty one is left there. `None` changes nothing.
    pub fn take_own(&mut self, index: usize) -> Option<Octets>
        requires { index < length self.old }
        ensures body { IfSome result (λ own. HasBody self.old index own) }
        ensures left { IfSome result (λ _. self.new ≡ emptied index self.old) }
        ensures none { IfNone result (self.new ≡ self.old) }
    {
        let none = Octets::new(*self.slips.allocator());
        self.slips[index].take_own(none)
    }

    /// Adds a copy of one letter. An `Err` changes nothing.
    pub fn copy(&mut self, from: &Packed, index: usize) -> Result<(), AllocError>
        requires { index < length from.now }
        ensures ok { OnOk result (IfSome (slice_get from.now index) (λ letter. self.new ≡ self.old ++ letter ∷ [])) }
        ensures err { OnErr result (self.new ≡ self.old) }
    {
        let own = Octets::from_slice(*self.slips.allocator(), from.body(index))?;
        self.slips.push(Slip {
            to: from.receiver(index),
            body: Stored::Own(own),
        })?;
        Ok(())
    }

    /// Adds a letter with what `put` puts into an empty list for its body. An `Err` changes nothing.
    pub fn write<F: FnOnce(&mut Octets) -> Result<(), AllocError>>(
        &mut self,
        to: Actor,
        put: F,
    ) -> Result<(), AllocError>
        requires { F.IsAlwaysCallable put }
        ensures ok { OnOk result (AddsPut F.FnOnce put to self.old self.new) }
        ensures err { OnErr result (self.new ≡ self.old) }
    {
        self.draft.clear();
        put(&mut self.draft)?;
        let alloc = *self.slips.allocator();
        let body = store_body(alloc, &mut self.bytes, self.draft.as_slice())?;
        self.slips.push(Slip { to, body })?;
        Ok(())
    }

    /// Adds a letter with the body of one that is there. An `Err` changes nothing.
    pub fn repeat(&mut self, to: Actor, index: usize) -> Result<(), AllocError>
        requires { index < length self.old }
        ensures ok { OnOk result (IfSome (slice_get self.old index) (λ letter. self.new ≡ self.old ++ record { to = to; body = letter.body } ∷ [])) }
        ensures err { OnErr result (self.new ≡ self.old) }
    {
        let slip = self.slips[index].copy(0, self.bytes.len())?;
        self.slips.push(Slip { to, ..slip })?;
        Ok(())
    }

    /// Adds copies of letters. An `Err` changes nothing.
    pub fn append(&mut self, letters: &Packed) -> Result<(), AllocError>
        ensures ok { OnOk result (self.new ≡ self.old ++ letters.now) }
        ensures err { OnErr result (self.new ≡ self.old) }
    {
        let (count, base) = (self.slips.len(), self.bytes.len());
        self.bytes.append(letters.bytes.as_slice())?;
        let end = self.bytes.len();
        match add_slips(&mut self.slips, letters.slips.as_slice(), base, end) {
            Ok(()) => Ok(()),
            Err(error) => {
                self.slips.truncate(count);
                Err(error)
            }
        }
    }

    /// Takes the letters behind so many out. The memory stays.
    pub fn truncate(&mut self, count: usize)
        ensures { self.new ≡ take count self.old }
    {
        self.slips.truncate(count);
        if count == 0 {
            self.bytes.clear();
        }
    }

    /// The letters, each with a body of its own. A long one is moved.
    pub fn into_letters(self) -> Result<Vec<Letter<Octets>>, AllocError>
        ensures { IfOk result (λ letters. letters.items ≡ self) }
    {
        let Packed { slips, bytes, .. } = self;
        let alloc = *slips.allocator();
        letters_of(alloc, bytes.as_slice(), slips)
    }
}

/// Letters with bodies of their own.
fn letters_of(
    alloc: Global,
    bytes: &[u8],
    slips: Vec<Slip>,
) -> Result<Vec<Letter<Octets>>, AllocError>
    requires { ShareWithin (length bytes.now) slips.items }
    ensures { IfOk result (λ letters. letters.items ≡ map (letter_of bytes.now) slips.items) }
{
    let mut letters = Vec::with_capacity(alloc, slips.len())?;
    for slip in slips {
        letters.push(letter_of(alloc, bytes, slip)?)?;
    }
    Ok(letters)
}

/// A letter with a body of its own.
fn letter_of(alloc: Global, bytes: &[u8], slip: Slip) -> Result<Letter<Octets>, AllocError>
    requires { IsWithin (length bytes.now) slip.body }
    ensures { IfOk result (λ letter. letter ≡ letter_of bytes.now slip) }
{
    let Slip { to, body } = slip;
    let body = match body {
        Stored::Own(octets) => octets,
        Stored::Shared { start, len } => Octets::from_slice(alloc, &bytes[start..start + len])?,
    };
    Ok(Letter { to, body })
}

impl Slip {
    /// The body, where it has a list of its own. Another one is left there.
    fn take_own(&mut self, other: Octets) -> Option<Octets>
        ensures own { IfSome result (λ own. self.old.body ≡ stored.Own own) }
        ensures left { IfSome result (λ _. self.new ≡ record { to = self.old.to; body = stored.Own other }) }
        ensures none { IfNone result (self.new ≡ self.old) }
    {
        match &mut self.body {
            Stored::Own(octets) => Some(replace(octets, other)),
            Stored::Shared { .. } => None,
        }
    }

    /// A copy, for a bag that ends with the bytes of this one: from `base` up to `end`.
    fn copy(&self, base: usize, end: usize) -> Result<Slip, AllocError>
        requires low { base ≤ end }
        requires within { IsWithin (end - base) self.now.body }
        ensures { IfOk result (λ slip. slip ≡ moved base self.now) }
    {
        let body = match &self.body {
            Stored::Own(octets) => Stored::Own(octets.copy()?),
            Stored::Shared { start, len } => Stored::Shared {
                start: base + *start,
                len: *len,
            },
        };
        Ok(Slip { to: self.to, body })
    }
}

/// Adds copies of slips, for a bag that ends with the bytes of theirs: from `base` up to `end`.
fn add_slips(
    slips: &mut Vec<Slip>,
    more: &[Slip],
    base: usize,
    end: usize,
) -> Result<(), AllocError>
    requires low { base ≤ end }
    requires within { ShareWithin (end - base) more.now }
    ensures ok { OnOk result (slips.new.items ≡ slips.old.items ++ map (moved base) more.now) }
    ensures front { take (vec_len slips.old) slips.new.items ≡ slips.old.items }
{
    slips.reserve(more.len())?;
    for slip in more {
        slips.push_reserved(slip.copy(base, end)?);
    }
    Ok(())
}
