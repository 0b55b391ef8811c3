//! The journal beside the queues of what waits: what one turn of an actor adds to it.
ghost use Rattle.std.specs.Prelude.{◌≡◌, [], ◌∷◌, ◌++◌, length, map, slice_get, Some, OnOk, IfOk, IfErr, OnErr, IfSome, IsSome};
ghost use Rattle.journal.specs.Pool.{past, pool, pick};
ghost use Rattle.journal.specs.Orderly.{IsOrderly};
ghost use Rattle.journal.specs.Refusals.{MayBeRefused};
ghost use Rattle.journal.specs.Turns.{entry_of, posting, posted, turn_actor, turn_entries, IsWithinLimits};
ghost use Rattle.journal.specs.Answers.{RefusedBy};
ghost use Rattle.journal.specs.Entries.{Tile, head_of, whole_entry};
ghost use Rattle.journal.specs.Mailbags.{HasBody};
ghost use Rattle.journal.specs.Places.{packet_at, IsFound};
ghost use Rattle.journal.specs.Ledger.{found_in};
ghost use Rattle.journal.specs.declared.journal.JournalEntry.TheVariants as entries;
ghost use Rattle.journal.specs.declared.journal.Turn.TheVariants as turn;
ghost use Rattle.journal.specs.declared.wire.Stop.TheVariants as refusals;

use crate::entries::Head;
use crate::journal::{Actor, Journal, Local, Turn, Weight};
use crate::ledger::Ledger;
use crate::mailbag::Mailbag;
use crate::outgoing::Outgoing;
use crate::place::PacketPlace;
use std::alloc::{AllocError, Global};
use std::marker::Model;

/// The most packets that the pool holds.
pub const POOL_PACKETS: usize = 32_768;

/// The most bytes of bodies that the pool holds.
pub const POOL_BYTES: u64 = 67_108_864;

/// The most letters that a journal posts.
pub const LETTERS_LIMIT: u64 = 1_000_000;

/// The most bytes of bodies that a journal posts.
pub const BYTES_LIMIT: u64 = 67_108_864;

/// Why a turn was refused: want of memory, or the sums of bytes and letters with those of the outbox,
/// one of them past its limit.
#[derive(Clone, Copy, PartialEq, Eq, Debug)]
pub enum Stop {
    OutOfMemory,
    JournalFull { bytes: u64, letters: u64 },
}

impl From<AllocError> for Stop {
    ghost from_gives = { λ _ refusal. refusal ≡ refusals.OutOfMemory };

    fn from(_: AllocError) -> Stop {
        Stop::OutOfMemory
    }
}

/// A journal beside what waits, which contracts see as the list of its entries, the oldest first.
#[derive(Drop)]
pub struct Wire<B: Weight> {
    ledger: Ledger<B>,
}

impl<B: Weight> Model for Wire<B> {
    ghost use Rattle.std.specs.Prelude.{List};
    ghost use Rattle.journal.specs.declared.journal.JournalEntry.{JournalEntry};
    ghost use Rattle.journal.specs.Ledger.{IsLedger};

    ghost Value = { List (JournalEntry B) };

    ghost view = { λ w. w.ledger.entries.items };

    ghost invariant = { λ w. IsLedger B.size w.ledger };
}

impl<B: Weight> Wire<B> {
    /// The empty journal.
    pub fn new(alloc: Global) -> Wire<B>
        ensures { result ≡ [] }
    {
        Wire {
            ledger: Ledger::new(alloc),
        }
    }

    /// The empty journal, with memory for its first entries and their letters.
    pub fn with_room(alloc: Global) -> Result<Wire<B>, AllocError>
        ensures { IfOk result (λ wire. wire ≡ []) }
    {
        let mut ledger = Ledger::new(alloc);
        ledger.make_room()?;
        Ok(Wire { ledger })
    }

    /// Each journal is orderly, and within its limits.
    pub fn lawful(&self)
        ensures orderly { IsOrderly B.size (past self.now) }
        ensures within { IsWithinLimits B.size (past self.now) }
    {
        let _ = &self.ledger;
    }

    /// How many entries there are.
    pub fn len(&self) -> usize
        ensures { result ≡ length self.now }
    {
        self.ledger.entries.len()
    }

    /// The entries without their letters, the oldest first.
    pub fn heads(&self) -> &[Head]
        ensures { result.now ≡ map head_of self.now }
    {
        self.ledger.entries.heads()
    }

    /// The packet of the lowest number that waits.
    pub fn first(&self) -> Option<PacketPlace>
        ensures { IsFound self.now result (slice_get (pool (past self.now)) 0) }
    {
        self.ledger.queues.first()
    }

    /// The packet of a choice, if one waits for the actor. It goes on waiting. It takes no memory.
    pub fn look(&self, actor: Actor, choice: u64) -> Option<PacketPlace>
        ensures { IsFound self.now result (pick actor choice (past self.now)) }
    {
        self.ledger.look(actor, choice)
    }

    /// All letters, and which of them is at a place that `draw`, `lose`, `look` or `first` gave. It stands from then on.
    pub fn letter(&self, place: PacketPlace) -> (&Mailbag<B>, usize)
        requires { IsSome (packet_at place self.now) }
        ensures { IfSome (packet_at place self.now) (λ packet. HasBody result.0.now result.1 packet.body) }
    {
        self.ledger.entries.letter(place)
    }

    /// The entries without their letters, the oldest first, and the letters: those of each post behind those of the one
    /// before. It takes no memory.
    pub fn into_parts(self) -> (Vec<Head>, Mailbag<B>)
        ensures whole { map (whole_entry result.1) result.0.items ≡ self }
        ensures tiled { Tile 0 result.0.items (length result.1) }
    {
        self.ledger.entries.into_parts()
    }

    /// Gives the journal.
    pub fn into_journal(self) -> Result<Journal<B>, AllocError>
        ensures { IfOk result (λ journal. journal ≡ self) }
    {
        self.ledger.entries.into_journal()
    }

    /// Posts an outbox.
    #[inline(always)]
    pub fn post<P: Outgoing<B>>(&mut self, actor: Actor, post: &P) -> Result<(), Stop>
        ensures ok { OnOk result (self.new ≡ self.old ++ posting B.size actor (P.letters post.now) (past self.old)) }
        ensures err { IfErr result (λ stop. (self.new ≡ self.old) × RefusedBy B.size stop (P.letters post.now) (past self.old)) }
    {
        self.ledger.post(actor, post, 0)
    }

    /// Takes a step, behind all that was posted. An `Err` changes nothing.
    pub fn take(&mut self, step: Turn) -> Result<(), AllocError>
        ensures ok { OnOk result (self.new ≡ self.old ++ entry_of step (past self.old) ∷ []) }
        ensures err { OnErr result (self.new ≡ self.old) }
    {
        self.ledger.reserve()?;
        let _ = self.ledger.take(step);
        Ok(())
    }

    /// Draws the packet at a place, which is that of a choice, behind all that was posted. An `Err` changes nothing.
    #[inline(always)]
    pub fn take_draw(
        &mut self,
        place: PacketPlace,
        actor: Actor,
        choice: u64,
        keep: bool,
    ) -> Result<(), AllocError>
        requires { IsFound self.old (Some place) (pick actor choice (past self.old)) }
        ensures ok { OnOk result (self.new ≡ self.old ++ entry_of (turn.Draw actor choice keep) (past self.old) ∷ []) }
        ensures err { OnErr result (self.new ≡ self.old) }
    {
        self.ledger.reserve()?;
        self.ledger.draw(place, actor, choice, keep);
        Ok(())
    }

    /// Loses the packet of a choice behind all that was posted, if one waits for the actor. An `Err` changes nothing.
    #[inline(always)]
    pub fn take_loss(&mut self, actor: Actor, choice: u64) -> Result<(), AllocError>
        ensures ok { OnOk result (self.new ≡ self.old ++ entry_of (turn.Lose actor choice) (past self.old) ∷ []) }
        ensures err { OnErr result (self.new ≡ self.old) }
    {
        self.ledger.reserve()?;
        let _ = self.ledger.take(Turn::Lose { actor, choice });
        Ok(())
    }

    /// Posts, and then draws the packet of a choice, if one waits for the actor. Where `keep`, it goes on
    /// waiting.
    pub fn draw(
        &mut self,
        actor: Actor,
        post: &Mailbag<B>,
        choice: u64,
        keep: bool,
    ) -> Result<Option<PacketPlace>, Stop>
        ensures ok { OnOk result (self.new ≡ self.old ++ turn_entries B.size post.now (turn.Draw actor choice keep) (past self.old)) }
        ensures found { IfOk result (λ found. IsFound self.new found (pick actor choice (posted B.size actor post.now (past self.old)))) }
        ensures err { IfErr result (λ stop. (self.new ≡ self.old) × RefusedBy B.size stop post.now (past self.old)) }
    {
        self.turn(
            Turn::Draw {
                actor,
                choice,
                keep,
            },
            post,
        )
    }

    /// Posts, and then loses the packet of a choice, if one waits for the actor.
    pub fn lose(
        &mut self,
        actor: Actor,
        post: &Mailbag<B>,
        choice: u64,
    ) -> Result<Option<PacketPlace>, Stop>
        ensures ok { OnOk result (self.new ≡ self.old ++ turn_entries B.size post.now (turn.Lose actor choice) (past self.old)) }
        ensures found { IfOk result (λ found. IsFound self.new found (pick actor choice (posted B.size actor post.now (past self.old)))) }
        ensures err { IfErr result (λ stop. (self.new ≡ self.old) × RefusedBy B.size stop post.now (past self.old)) }
    {
        self.turn(Turn::Lose { actor, choice }, post)
    }

    /// Posts, and then takes a local input, which is dropped at a refusal.
    pub fn local(&mut self, actor: Actor, post: &Mailbag<B>, input: Local) -> Result<(), Stop>
        ensures ok { OnOk result (self.new ≡ self.old ++ turn_entries B.size post.now (turn.Local actor input) (past self.old)) }
        ensures err { IfErr result (λ stop. (self.new ≡ self.old) × RefusedBy B.size stop post.now (past self.old)) }
    {
        self.turn(Turn::Local { actor, input }, post)?;
        Ok(())
    }

    /// Posts, and then takes a step.
    fn turn(&mut self, step: Turn, post: &Mailbag<B>) -> Result<Option<PacketPlace>, Stop>
        ensures ok { OnOk result (self.new ≡ self.old ++ turn_entries B.size post.now step (past self.old)) }
        ensures found { IfOk result (λ found. IsFound self.new found (found_in step (pool (posted B.size (turn_actor step) post.now (past self.old))))) }
        ensures err { IfErr result (λ stop. (self.new ≡ self.old) × RefusedBy B.size stop post.now (past self.old)) }
    {
        self.ledger.post(step.actor(), post, 2)?;
        Ok(self.ledger.take(step))
    }

    /// Says that the input of the newest entry, a draw or a local one, found no memory. It takes none itself: each such
    /// entry came with room for this one.
    pub fn refuse(&mut self, actor: Actor)
        requires { MayBeRefused (past self.old) }
        ensures { self.new ≡ self.old ++ entries.Refused actor ∷ [] }
    {
        self.ledger.refuse(actor);
    }
}
