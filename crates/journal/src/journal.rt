//! The journal of a run, and what its entries hold.
ghost use Rattle.std.specs.Prelude.{◌≡◌, ◌<◌, ◌++◌, ℕ, List, [], ◌∷◌, length, take, slice_get, IfOk, IfSome, OnOk, OnErr};
ghost use Rattle.journal.specs.Actors.{same_actor};
ghost use Rattle.journal.specs.Turns.{turn_actor};

use crate::letters::Letters;
use crate::packed::Packed;
use of_types::{Items, Octets};
use std::alloc::{AllocError, Global};

/// A controller or a switch, by its number.
#[derive(Clone, Copy, PartialEq, Eq, Debug)]
pub enum Actor {
    Controller(u8),
    Switch(u8),
}

impl Actor {
    /// Whether the two are one.
    pub fn is(self, other: Actor) -> bool
        ensures { result ≡ same_actor self other }
    {
        self == other
    }
}

/// An input that comes from outside the wire.
#[derive(Drop)]
pub enum Local {
    Frame { port: u32, bytes: Octets },
    Port { port: u32, up: bool },
    Tick,
    Suspect { view: u32 },
    Crash,
    Restart,
}

impl Clone for Local {
    ghost is_clone = { λ local copied. copied ≡ local };

    fn clone(&self) -> Result<Local, AllocError> {
        match *self {
            Local::Frame { port, ref bytes } => {
                let bytes = bytes.copy()?;
                Ok(Local::Frame { port, bytes })
            }
            Local::Port { port, up } => Ok(Local::Port { port, up }),
            Local::Tick => Ok(Local::Tick),
            Local::Suspect { view } => Ok(Local::Suspect { view }),
            Local::Crash => Ok(Local::Crash),
            Local::Restart => Ok(Local::Restart),
        }
    }
}

impl Local {
    /// An equal input.
    pub fn copy(&self) -> Result<Local, AllocError>
        ensures { IfOk result (λ copied. copied ≡ self.now) }
    {
        self.clone()
    }
}

/// A body with its destination.
#[derive(Drop)]
pub struct Letter<B> {
    pub to: Actor,
    pub body: B,
}

/// What an actor says in one turn, in order.
pub type Said<S> = Items<Letter<S>>;

/// A posted letter. Packets are numbered from 0 over the whole run, in the order of posting.
#[derive(Drop)]
pub struct Packet<B> {
    pub id: u64,
    pub from: Actor,
    pub to: Actor,
    pub body: B,
}

/// One entry of a journal, which names its actor.
#[derive(Drop)]
pub enum JournalEntry<B> {
    /// The whole outbox of the actor's last input. `lost` letters at its end found no room.
    Post {
        actor: Actor,
        first: u64,
        letters: Letters<B>,
        lost: u64,
    },
    /// A packet of the pool is the actor's input. It stays in the pool where `keep`.
    Draw {
        actor: Actor,
        id: u64,
        keep: bool,
    },
    /// A packet for the actor leaves the pool.
    Lose {
        actor: Actor,
        id: u64,
    },
    /// A local input.
    Local {
        actor: Actor,
        input: Local,
    },
    /// A draw or a loss found no packet for the actor.
    Idle {
        actor: Actor,
    },
    /// The actor's last input found no memory.
    Refused {
        actor: Actor,
    },
}

/// The entries of a run, the oldest first.
pub type Journal<B> = Items<JournalEntry<B>>;

/// A step of a script: an actor draws a packet, or loses one, or takes a local input.
#[derive(Drop)]
pub enum Turn {
    Draw {
        actor: Actor,
        choice: u64,
        keep: bool,
    },
    Lose {
        actor: Actor,
        choice: u64,
    },
    Local {
        actor: Actor,
        input: Local,
    },
}

impl Clone for Turn {
    ghost is_clone = { λ turn copied. copied ≡ turn };

    fn clone(&self) -> Result<Turn, AllocError> {
        match *self {
            Turn::Draw {
                actor,
                choice,
                keep,
            } => Ok(Turn::Draw {
                actor,
                choice,
                keep,
            }),
            Turn::Lose { actor, choice } => Ok(Turn::Lose { actor, choice }),
            Turn::Local { actor, ref input } => {
                let input = input.clone()?;
                Ok(Turn::Local { actor, input })
            }
        }
    }
}

impl Turn {
    /// Who takes the step.
    pub fn actor(&self) -> Actor
        ensures { result ≡ turn_actor self.now }
    {
        match self {
            Turn::Draw { actor, .. } | Turn::Lose { actor, .. } | Turn::Local { actor, .. } =>
                *actor,
        }
    }

    /// An equal turn.
    pub fn copy(&self) -> Result<Turn, AllocError>
        ensures { IfOk result (λ copied. copied ≡ self.now) }
    {
        self.clone()
    }
}

/// A body that has a size, and a form in which many letters with such bodies are kept.
pub trait Weight: Drop {
    ghost use Rattle.journal.specs.declared.journal.Letter.{Letter};

    /// Its size in bytes.
    ghost size: { Self → ℕ };

    /// Letters with such bodies, in order.
    type Bag: Drop;

    /// The letters of a bag.
    ghost letters: { Self.Bag → List (Letter Self) };

    /// No letter, which takes no memory.
    fn bag(alloc: Global) -> Self::Bag
        ensures { letters result ≡ [] };

    /// Makes memory for the first letters of a journal. It does nothing where letters are there.
    fn make_room(bag: &mut Self::Bag) -> Result<(), AllocError>
        ensures { letters bag.new ≡ letters bag.old };

    /// How many letters there are.
    fn count(bag: &Self::Bag) -> usize
        ensures { result ≡ length (letters bag.now) };

    /// To whom a letter goes.
    fn receiver(bag: &Self::Bag, index: usize) -> Actor
        requires { index < length (letters bag.now) }
        ensures { IfSome (slice_get (letters bag.now) index) (λ letter. result ≡ letter.to) };

    /// The size of a letter's body, in bytes.
    fn size_at(bag: &Self::Bag, index: usize) -> u64
        requires { index < length (letters bag.now) }
        ensures { IfSome (slice_get (letters bag.now) index) (λ letter. result ≡ size letter.body) };

    /// Adds a copy of one letter. An `Err` changes nothing.
    fn copy(bag: &mut Self::Bag, from: &Self::Bag, index: usize) -> Result<(), AllocError>
        requires { index < length (letters from.now) }
        ensures ok { OnOk result (IfSome (slice_get (letters from.now) index) (λ letter. letters bag.new ≡ letters bag.old ++ letter ∷ [])) }
        ensures err { OnErr result (letters bag.new ≡ letters bag.old) };

    /// Adds a letter with the body of one that is there. An `Err` changes nothing.
    fn repeat(bag: &mut Self::Bag, to: Actor, index: usize) -> Result<(), AllocError>
        requires { index < length (letters bag.old) }
        ensures ok { OnOk result (IfSome (slice_get (letters bag.old) index) (λ letter. letters bag.new ≡ letters bag.old ++ record { to = to; body = letter.body } ∷ [])) }
        ensures err { OnErr result (letters bag.new ≡ letters bag.old) };

    /// Adds copies of letters. An `Err` changes nothing.
    fn append(bag: &mut Self::Bag, more: &Self::Bag) -> Result<(), AllocError>
        ensures ok { OnOk result (letters bag.new ≡ letters bag.old ++ letters more.now) }
        ensures err { OnErr result (letters bag.new ≡ letters bag.old) };

    /// Takes the letters behind so many out.
    fn truncate(bag: &mut Self::Bag, count: usize)
        ensures { letters bag.new ≡ take count (letters bag.old) };

    /// The letters, each with a body of its own.
    fn into_letters(bag: Self::Bag) -> Result<Vec<Letter<Self>>, AllocError>
        ensures { IfOk result (λ each. each.items ≡ letters bag) };
}

impl Weight for Octets {
    ghost size = { λ bytes. length bytes };

    type Bag = Packed;

    ghost letters = { λ letters. letters };

    fn bag(alloc: Global) -> Packed {
        Packed::new(alloc)
    }

    fn make_room(bag: &mut Packed) -> Result<(), AllocError> {
        bag.make_room()
    }

    fn count(bag: &Packed) -> usize {
        bag.len()
    }

    fn receiver(bag: &Packed, index: usize) -> Actor {
        bag.receiver(index)
    }

    fn size_at(bag: &Packed, index: usize) -> u64 {
        bag.size(index)
    }

    fn copy(bag: &mut Packed, from: &Packed, index: usize) -> Result<(), AllocError> {
        bag.copy(from, index)
    }

    fn repeat(bag: &mut Packed, to: Actor, index: usize) -> Result<(), AllocError> {
        bag.repeat(to, index)
    }

    fn append(bag: &mut Packed, more: &Packed) -> Result<(), AllocError> {
        bag.append(more)
    }

    fn truncate(bag: &mut Packed, count: usize) {
        bag.truncate(count);
    }

    fn into_letters(bag: Packed) -> Result<Vec<Letter<Octets>>, AllocError> {
        bag.into_letters()
    }
}

/// What became of a save of a stable pair: the new pair stands and the save succeeded, or it failed
/// and the old or the new pair stands.
#[derive(Clone, Copy, PartialEq, Eq, Debug)]
pub enum SaveResult {
    Saved,
    KeptOld,
    KeptNew,
}
