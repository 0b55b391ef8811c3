//! The entries of a journal, and the letters of all its posts.
ghost use Rattle.std.specs.Prelude.{◌≡◌, ◌<◌, ◌≤◌, ℕ, ◌+◌, ◌^◌, ◌++◌, [], ◌∷◌, length, map, take, drop, IsSome, IfSome, IfOk, OnOk, OnErr};
ghost use Rattle.std.specs.Vec.Iter.{into_iter_items};
ghost use Rattle.journal.specs.declared.journal.JournalEntry.TheVariants as entries;
ghost use Rattle.journal.specs.Entries.{IsBare, Tile, entry_without, letter_count, whole_entry, entry_with, head_of};
ghost use Rattle.journal.specs.Mailbags.{HasBody};
ghost use Rattle.journal.specs.Places.{packet_at};

use crate::journal::{Actor, Journal, JournalEntry, Letter, Local, Weight};
use crate::letters::Letters;
use crate::mailbag::Mailbag;
use crate::outgoing::{Coming, Outgoing};
use crate::place::PacketPlace;
use of_types::Items;
use std::alloc::{AllocError, Global};
use std::marker::Model;
use std::vec::IntoIter;

/// A journal begins with memory for so many entries, so that a list that has little need not be moved often.
const FIRST_ENTRIES: usize = 4096;

/// An entry without its letters: a post has only their count, the lost ones too.
#[derive(Drop)]
pub enum Head {
    Post {
        actor: Actor,
        first: usize,
        count: usize,
        lost: u64,
    },
    Draw {
        actor: Actor,
        id: u64,
        keep: bool,
    },
    Lose {
        actor: Actor,
        id: u64,
    },
    Local {
        actor: Actor,
        input: Local,
    },
    Idle {
        actor: Actor,
    },
    Refused {
        actor: Actor,
    },
}

/// The entries of a journal. Contracts see them, the letters of a post that is to come, and for how many more entries there is
/// memory.
#[derive(Drop)]
pub struct Entries<B: Weight> {
    /// The entries without their letters, the oldest first.
    heads: Vec<Head>,
    /// The letters of all posts, in order, and then those of one that is to come.
    letters: Mailbag<B>,
    /// How many letters the posts have.
    posted: usize,
}

impl<B: Weight> Model for Entries<B> {
    ghost use Rattle.std.specs.Prelude.{◌-◌, ◌≤◌, List, drop, length, map, vec_len, vec_capacity};
    ghost use Rattle.journal.specs.Entries.{EntriesState, Tile, whole_entry};

    ghost Value = { EntriesState B };

    ghost view = { λ e. record {
      items = map (whole_entry e.letters) e.heads.items;
      coming = drop e.posted e.letters;
      next = e.posted;
      room = vec_capacity e.heads - vec_len e.heads;
    } };

    ghost invariant = { λ e. (e.posted ≤ length e.letters) × Tile 0 e.heads.items e.posted };
}

impl<B: Weight> Entries<B> {
    /// No entry.
    pub fn new(alloc: Global) -> Entries<B>
        ensures { result ≡ record { items = []; coming = []; next = 0; room = 0 } }
    {
        Entries {
            heads: Vec::new(alloc),
            letters: Mailbag::new(alloc),
            posted: 0,
        }
    }

    pub fn len(&self) -> usize
        ensures { result ≡ length self.now.items }
    {
        self.heads.len()
    }

    /// The entries without their letters.
    pub fn heads(&self) -> &[Head]
        ensures { result.now ≡ map head_of self.now.items }
    {
        self.heads.as_slice()
    }

    /// Makes memory for so many more entries.
    pub fn reserve(&mut self, more: usize) -> Result<(), AllocError>
        ensures same { self.new ≡ record self.old { room = self.new.room } }
        ensures ok { OnOk result (more ≤ self.new.room) }
        ensures grows { self.old.room ≤ self.new.room }
    {
        self.heads.reserve(more)
    }

    /// Makes memory for the first entries, and for their letters.
    pub fn make_room(&mut self) -> Result<(), AllocError>
        ensures same { self.new ≡ record self.old { room = self.new.room } }
        ensures grows { self.old.room ≤ self.new.room }
    {
        self.heads.reserve(FIRST_ENTRIES)?;
        self.letters.make_room()
    }

    /// Adds an entry that is no post. There is memory for it.
    pub fn push(&mut self, head: Head)
        requires room { 0 < self.old.room }
        requires bare { IsBare head }
        ensures items { self.new.items ≡ self.old.items ++ entry_without head ∷ [] }
        ensures letters { (self.new.coming ≡ self.old.coming) × (self.new.next ≡ self.old.next) }
        ensures room { self.new.room + 1 ≡ self.old.room }
    {
        self.heads.push_reserved(head);
    }

    /// Adds letters, for a post that is to come. An `Err` changes nothing.
    #[inline(always)]
    pub fn prepare<P: Outgoing<B>>(&mut self, post: &P) -> Result<(), AllocError>
        requires { self.old.coming ≡ [] }
        ensures ok { OnOk result (self.new ≡ record self.old { coming = P.letters post.now }) }
        ensures err { OnErr result (self.new ≡ self.old) }
    {
        match post.add_to(&mut self.letters) {
            Ok(()) => Ok(()),
            Err(error) => {
                self.letters.truncate(self.posted);
                Err(error)
            }
        }
    }

    /// The letters of a post that is to come.
    pub fn coming(&self) -> Coming<'_, B>
        ensures { result ≡ self.now.coming }
    {
        Coming::new(&self.letters, self.posted)
    }

    /// No post is to come.
    pub fn forget(&mut self)
        ensures { self.new ≡ record self.old { coming = [] } }
    {
        self.letters.truncate(self.posted);
    }

    /// Adds the post that was to come. There is memory for it.
    pub fn post(&mut self, actor: Actor, lost: u64)
        requires { 0 < self.old.room }
        ensures items { self.new.items ≡ self.old.items ++ entries.Post actor self.old.next self.old.coming lost ∷ [] }
        ensures coming { self.new.coming ≡ [] }
        ensures next { self.new.next ≡ self.old.next + length self.old.coming }
        ensures room { self.new.room + 1 ≡ self.old.room }
    {
        let first = self.posted;
        self.posted = self.letters.len();
        self.heads.push_reserved(Head::Post {
            actor,
            first,
            count: self.posted - first,
            lost,
        });
    }

    /// The size of the body of the letter at a place.
    pub fn size(&self, place: PacketPlace) -> u64
        requires { IsSome (packet_at place self.now.items) }
        ensures { IfSome (packet_at place self.now.items) (λ packet. result ≡ B.size packet.body) }
    {
        self.letters.size(place.id as usize)
    }

    /// The letters, and which of them is at a place.
    pub fn letter(&self, place: PacketPlace) -> (&Mailbag<B>, usize)
        requires { IsSome (packet_at place self.now.items) }
        ensures { IfSome (packet_at place self.now.items) (λ packet. HasBody result.0.now result.1 packet.body) }
    {
        (&self.letters, place.id as usize)
    }

    /// The entries without their letters, and the letters: those of each post behind those of the one before, and then
    /// those of one that is to come.
    pub fn into_parts(self) -> (Vec<Head>, Mailbag<B>)
        ensures whole { map (whole_entry result.1) result.0.items ≡ self.items }
        ensures tiled { Tile 0 result.0.items self.next }
        ensures coming { drop self.next result.1 ≡ self.coming }
        ensures long { self.next ≤ length result.1 }
    {
        let Entries { heads, letters, .. } = self;
        (heads, letters)
    }

    /// The entries with their letters.
    pub fn into_journal(self) -> Result<Journal<B>, AllocError>
        ensures { IfOk result (λ journal. journal ≡ self.items) }
    {
        let Entries { heads, letters, .. } = self;
        let alloc = *heads.allocator();
        let journal = entries_of(alloc, heads, letters.into_letters()?)?;
        Ok(Items::from_vec(journal))
    }
}

/// Entries with their letters.
fn entries_of<B: Weight>(
    alloc: Global,
    heads: Vec<Head>,
    letters: Vec<Letter<B>>,
) -> Result<Vec<JournalEntry<B>>, AllocError>
    requires { (end : ℕ) × Tile 0 heads.items end × (end ≤ length letters.items) }
    ensures { IfOk result (λ journal. journal.items ≡ map (whole_entry letters.items) heads.items) }
{
    let mut letters = letters.into_iter();
    let mut journal = Vec::with_capacity(alloc, heads.len())?;
    for head in heads {
        journal.push(entry_of(alloc, head, &mut letters)?)?;
    }
    Ok(journal)
}

/// So many letters, as those of a post.
fn next_letters<B: Weight>(
    alloc: Global,
    count: usize,
    letters: &mut IntoIter<Letter<B>, Global>,
) -> Result<Letters<B>, AllocError>
    requires { count ≤ length (into_iter_items letters.old) }
    ensures post { IfOk result (λ post. post ≡ take count (into_iter_items letters.old)) }
    ensures left { OnOk result (into_iter_items letters.new ≡ drop count (into_iter_items letters.old)) }
{
    if count == 1 {
        return match letters.next() {
            Some(letter) => Ok(Letters::one(letter)),
            None => unreachable!(),
        };
    }
    let mut post = Vec::with_capacity(alloc, count)?;
    for _ in 0..count {
        match letters.next() {
            Some(letter) => post.push(letter)?,
            None => unreachable!(),
        }
    }
    Ok(Letters::from_vec(post))
}

/// An entry with its letters, which come next.
fn entry_of<B: Weight>(
    alloc: Global,
    head: Head,
    letters: &mut IntoIter<Letter<B>, Global>,
) -> Result<JournalEntry<B>, AllocError>
    requires { letter_count head ≤ length (into_iter_items letters.old) }
    ensures entry { IfOk result (λ entry. entry ≡ entry_with (take (letter_count head) (into_iter_items letters.old)) head) }
    ensures left { OnOk result (into_iter_items letters.new ≡ drop (letter_count head) (into_iter_items letters.old)) }
{
    match head {
        Head::Post {
            actor,
            first,
            count,
            lost,
        } => {
            let letters = next_letters(alloc, count, letters)?;
            Ok(JournalEntry::Post {
                actor,
                first: first as u64,
                letters,
                lost,
            })
        }
        Head::Draw { actor, id, keep } => Ok(JournalEntry::Draw { actor, id, keep }),
        Head::Lose { actor, id } => Ok(JournalEntry::Lose { actor, id }),
        Head::Local { actor, input } => Ok(JournalEntry::Local { actor, input }),
        Head::Idle { actor } => Ok(JournalEntry::Idle { actor }),
        Head::Refused { actor } => Ok(JournalEntry::Refused { actor }),
    }
}
