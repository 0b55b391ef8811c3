//! A journal beside the queues of what waits, and the two steps of a turn on it.
ghost use Rattle.std.specs.Prelude.{◌≡◌, ◌<◌, ◌≤◌, ◌⊎◌, ◌+◌, ◌-◌, ◌++◌, [], ◌∷◌, length, true, false, Some, IfOk, IfErr, OnOk, OnErr};
ghost use Rattle.journal.specs.Answers.{RefusedBy};
ghost use Rattle.journal.specs.Entries.{IsBare, entry_without};
ghost use Rattle.journal.specs.declared.journal.JournalEntry.{JournalEntry};
ghost use Rattle.journal.specs.declared.journal.JournalEntry.TheVariants as entries;
ghost use Rattle.journal.specs.declared.journal.Turn.TheVariants as turn;
ghost use Rattle.journal.specs.Limits.{letters_limit, bytes_limit};
ghost use Rattle.journal.specs.Ledger.{entry_by, found_in, IsSummed, IsRefusal, IsUnchanged, ArePlaced, IsReady, Waits, IsLedger};
ghost use Rattle.journal.specs.Order.{HaveNumbersBelow};
ghost use Rattle.journal.specs.Places.{IsFound, queue_of};
ghost use Rattle.journal.specs.Pool.{past, pool, pick};
ghost use Rattle.journal.specs.Refusals.{MayBeRefused};
ghost use Rattle.journal.specs.Turns.{posting, drawn_entry, entry_of};

use crate::entries::{Entries, Head};
use crate::journal::{Actor, Turn, Weight};
use crate::outgoing::{Coming, Outgoing};
use crate::place::PacketPlace;
use crate::pool::{self, Sums};
use crate::queues::Queues;
use crate::wire::{BYTES_LIMIT, LETTERS_LIMIT, Stop};
use std::alloc::{AllocError, Global};

/// What is to be written of a post: how many letters are lost, and the sums with it.
#[derive(Clone, Copy)]
pub struct Ready {
    pub lost: u64,
    pub posted: Sums,
    pub waiting: Sums,
}

/// A journal beside the queues of the packets that wait, and the sums of what it posts and of what
/// waits. Bodies stand in the journal alone.
#[derive(Drop)]
pub struct Ledger<B: Weight> {
    /// The journal, the oldest entry first, with no post that is to come.
    pub entries: Entries<B>,
    /// The packets that wait, by the place of their bodies in the journal.
    pub queues: Queues,
    /// The letters that the entries post, and the bytes of their bodies.
    pub posted: Sums,
    /// The packets that wait, and the bytes of their bodies.
    pub waiting: Sums,
}

/// Whether one of the two sums passes its limit.
fn is_past_limit(bytes: u64, letters: u64) -> bool
    ensures past { result ≡ true → (bytes_limit < bytes) ⊎ (letters_limit < letters) }
    ensures within { result ≡ false → (bytes ≤ bytes_limit) × (letters ≤ letters_limit) }
{
    bytes > BYTES_LIMIT || letters > LETTERS_LIMIT
}

/// The sums with those of an outbox, where they pass no limit.
fn sums_with<B: Weight>(sums: Sums, letters: &Coming<'_, B>) -> Result<Sums, Stop>
    ensures ok { IfOk result (IsSummed B.size sums.letters sums.bytes letters.now) }
    ensures err { IfErr result (IsRefusal B.size sums.letters sums.bytes letters.now) }
{
    let bytes = sums.bytes.saturating_add(pool::letters_size(letters));
    let letters = sums.letters.saturating_add(letters.len() as u64);
    if is_past_limit(bytes, letters) {
        return Err(Stop::JournalFull { bytes, letters });
    }
    Ok(Sums { letters, bytes })
}

/// The letters of a post that find room come into the queues. An `Err` changes none.
#[inline(always)]
fn place_letters<B: Weight>(
    queues: &mut Queues,
    posted: Sums,
    waiting: Sums,
    actor: Actor,
    letters: &Coming<'_, B>,
) -> Result<Ready, Stop>
    requires above { HaveNumbersBelow posted.letters queues.old.order }
    ensures ok { IfOk result (ArePlaced B.size actor letters.now posted waiting queues.old queues.new) }
    ensures err { IfErr result (IsRefusal B.size posted.letters posted.bytes letters.now) }
    ensures queues { OnErr result ((a : Actor) → queue_of queues.new a ≡ queue_of queues.old a) }
    ensures order { OnErr result (queues.new.order ≡ queues.old.order) }
{
    let first = posted.letters;
    let with = sums_with(posted, letters)?;
    let (count, waiting) = pool::count_fitting(waiting, letters, with.bytes - posted.bytes);
    queues.append(first, actor, letters, count)?;
    Ok(Ready {
        lost: (letters.len() - count) as u64,
        posted: with,
        waiting,
    })
}

/// The entry of a step, by what it found.
fn entry_by<B>(step: Turn, found: Option<PacketPlace>) -> Head
    ensures bare { IsBare result }
    ensures is { ◌≡◌ {A = JournalEntry B} (entry_without result) (entry_by step found) }
{
    match step {
        Turn::Draw { actor, keep, .. } => match found {
            Some(place) => Head::Draw {
                actor,
                id: place.id,
                keep,
            },
            None => Head::Idle { actor },
        },
        Turn::Lose { actor, .. } => match found {
            Some(place) => Head::Lose {
                actor,
                id: place.id,
            },
            None => Head::Idle { actor },
        },
        Turn::Local { actor, input } => Head::Local { actor, input },
    }
}

impl<B: Weight> Ledger<B> {
    /// The ledger of the empty journal.
    pub fn new(alloc: Global) -> Ledger<B>
        ensures entries { result.entries.items ≡ [] }
        ensures kept { IsLedger B.size result }
    {
        let none = Sums {
            letters: 0,
            bytes: 0,
        };
        Ledger {
            entries: Entries::new(alloc),
            queues: Queues::new(alloc),
            posted: none,
            waiting: none,
        }
    }

    /// All of a post that may fail, with memory for its entry and `more` further ones. An `Err` changes
    /// nothing.
    #[inline(always)]
    fn prepare<P: Outgoing<B>>(
        &mut self,
        actor: Actor,
        post: &P,
        more: usize,
    ) -> Result<Ready, Stop>
        requires small { more ≤ 2 }
        requires kept { IsLedger B.size self.old }
        ensures ok { IfOk result (IsReady B.size actor (P.letters post.now) self.old self.new) }
        ensures room { OnOk result (1 + more ≤ self.new.entries.room) }
        ensures grows { self.old.entries.room ≤ self.new.entries.room }
        ensures err { IfErr result (λ r. IsUnchanged self.old self.new × IsRefusal B.size self.old.posted.letters self.old.posted.bytes (P.letters post.now) r) }
    {
        self.entries.reserve(1 + more)?;
        self.entries.prepare(post)?;
        let letters = self.entries.coming();
        match place_letters(&mut self.queues, self.posted, self.waiting, actor, &letters) {
            Ok(ready) => Ok(ready),
            Err(stop) => {
                self.entries.forget();
                Err(stop)
            }
        }
    }

    /// Makes memory for the first entries, and for their letters.
    pub fn make_room(&mut self) -> Result<(), AllocError>
        requires kept { IsLedger B.size self.old }
        ensures kept { IsLedger B.size self.new }
        ensures entries { self.new.entries.items ≡ self.old.entries.items }
    {
        self.entries.make_room()
    }

    /// Makes memory for the entry of a step, and for that of a refusal.
    pub fn reserve(&mut self) -> Result<(), AllocError>
        requires kept { IsLedger B.size self.old }
        ensures kept { IsLedger B.size self.new }
        ensures entries { self.new.entries.items ≡ self.old.entries.items }
        ensures room { OnOk result (2 ≤ self.new.entries.room) }
    {
        self.entries.reserve(2)
    }

    /// Posts an outbox, with memory for `more` further entries. An `Err` changes nothing. One with no letter makes no entry.
    #[inline(always)]
    pub fn post<P: Outgoing<B>>(&mut self, actor: Actor, post: &P, more: usize) -> Result<(), Stop>
        requires small { more ≤ 2 }
        requires kept { IsLedger B.size self.old }
        ensures kept { IsLedger B.size self.new }
        ensures ok { OnOk result (self.new.entries.items ≡ self.old.entries.items ++ posting B.size actor (P.letters post.now) (past self.old.entries.items)) }
        ensures room { OnOk result (more ≤ self.new.entries.room) }
        ensures err { IfErr result (λ stop. (self.new.entries.items ≡ self.old.entries.items) × RefusedBy B.size stop (P.letters post.now) (past self.old.entries.items)) }
    {
        let ready = self.prepare(actor, post, more)?;
        if !self.entries.coming().is_empty() {
            self.write(actor, ready);
        }
        Ok(())
    }

    /// Writes the entry of a post.
    fn write(&mut self, actor: Actor, ready: Ready)
        requires { 0 < self.old.entries.room }
        ensures entries { self.new.entries.items ≡ self.old.entries.items ++ entries.Post actor self.old.entries.next self.old.entries.coming ready.lost ∷ [] }
        ensures coming { self.new.entries.coming ≡ [] }
        ensures next { self.new.entries.next ≡ self.old.entries.next + length self.old.entries.coming }
        ensures room { self.new.entries.room + 1 ≡ self.old.entries.room }
        ensures queues { self.new.queues ≡ self.old.queues }
        ensures posted { self.new.posted ≡ ready.posted }
        ensures waiting { self.new.waiting ≡ ready.waiting }
    {
        self.posted = ready.posted;
        self.waiting = ready.waiting;
        self.entries.post(actor, ready.lost);
    }

    /// The packet at a place, which is that of a choice, waits no more, unless it is kept.
    #[inline(always)]
    fn leave(&mut self, place: PacketPlace, actor: Actor, choice: u64, keep: bool)
        requires kept { IsLedger B.size self.old }
        requires found { IsFound self.old.entries.items (Some place) (pick actor choice (past self.old.entries.items)) }
        ensures entries { self.new.entries ≡ self.old.entries }
        ensures posted { self.new.posted ≡ self.old.posted }
        ensures left { Waits B.size self.old.entries.items (pool (drawn_entry actor keep (pick actor choice (past self.old.entries.items)) ∷ past self.old.entries.items)) self.new.queues self.new.waiting }
    {
        if keep {
            return;
        }
        self.queues.leave(actor, choice, place.id);
        self.waiting.letters -= 1;
        self.waiting.bytes -= self.entries.size(place);
    }

    /// The packet of a choice, which waits no more, unless it is kept.
    fn pick(&mut self, actor: Actor, choice: u64, keep: bool) -> Option<PacketPlace>
        requires { IsLedger B.size self.old }
        ensures entries { self.new.entries ≡ self.old.entries }
        ensures posted { self.new.posted ≡ self.old.posted }
        ensures found { IsFound self.old.entries.items result (pick actor choice (past self.old.entries.items)) }
        ensures left { Waits B.size self.old.entries.items (pool (drawn_entry actor keep (pick actor choice (past self.old.entries.items)) ∷ past self.old.entries.items)) self.new.queues self.new.waiting }
    {
        let found = self.look(actor, choice)?;
        self.leave(found, actor, choice, keep);
        Some(found)
    }

    /// What a step finds, which waits no more, unless it is kept.
    fn find(&mut self, step: &Turn) -> Option<PacketPlace>
        requires { IsLedger B.size self.old }
        ensures entries { self.new.entries ≡ self.old.entries }
        ensures posted { self.new.posted ≡ self.old.posted }
        ensures found { IsFound self.old.entries.items result (found_in step.now (pool (past self.old.entries.items))) }
        ensures left { Waits B.size self.old.entries.items (pool (entry_of step.now (past self.old.entries.items) ∷ past self.old.entries.items)) self.new.queues self.new.waiting }
    {
        match step {
            Turn::Draw {
                actor,
                choice,
                keep,
            } => self.pick(*actor, *choice, *keep),
            Turn::Lose { actor, choice } => self.pick(*actor, *choice, false),
            Turn::Local { .. } => None,
        }
    }

    /// The packet of a choice, which goes on waiting.
    pub fn look(&self, actor: Actor, choice: u64) -> Option<PacketPlace>
        requires { IsLedger B.size self.now }
        ensures { IsFound self.now.entries.items result (pick actor choice (past self.now.entries.items)) }
    {
        self.queues.look(actor, choice)
    }

    /// Takes a step, and gives what it finds. There is memory for the entry, and for that of a refusal.
    #[inline(always)]
    pub fn take(&mut self, step: Turn) -> Option<PacketPlace>
        requires room { 2 ≤ self.old.entries.room }
        requires kept { IsLedger B.size self.old }
        ensures kept { IsLedger B.size self.new }
        ensures entries { self.new.entries.items ≡ self.old.entries.items ++ entry_of step (past self.old.entries.items) ∷ [] }
        ensures found { IsFound self.new.entries.items result (found_in step (pool (past self.old.entries.items))) }
    {
        let found = self.find(&step);
        self.entries.push(entry_by::<B>(step, found));
        found
    }

    /// Takes a draw of the packet at a place, which is that of a choice, as `take` does.
    #[inline(always)]
    pub fn draw(&mut self, place: PacketPlace, actor: Actor, choice: u64, keep: bool)
        requires room { 2 ≤ self.old.entries.room }
        requires kept { IsLedger B.size self.old }
        requires found { IsFound self.old.entries.items (Some place) (pick actor choice (past self.old.entries.items)) }
        ensures kept { IsLedger B.size self.new }
        ensures entries { self.new.entries.items ≡ self.old.entries.items ++ entry_of (turn.Draw actor choice keep) (past self.old.entries.items) ∷ [] }
    {
        self.leave(place, actor, choice, keep);
        self.entries.push(Head::Draw {
            actor,
            id: place.id,
            keep,
        });
    }

    /// The input of the newest entry found no memory. There is memory for this entry.
    pub fn refuse(&mut self, actor: Actor)
        requires fresh { MayBeRefused (past self.old.entries.items) }
        requires kept { IsLedger B.size self.old }
        ensures kept { IsLedger B.size self.new }
        ensures entries { self.new.entries.items ≡ self.old.entries.items ++ entries.Refused actor ∷ [] }
    {
        self.entries.push(Head::Refused { actor });
    }
}
