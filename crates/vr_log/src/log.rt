//! A log in which each entry may follow those before it.
ghost use Rattle.std.specs.Prelude.{◌≡◌, ◌++◌, ◌∷◌, [], ◌<◌, ◌≤◌, ◌+◌, ◌^◌, length, take, drop, true, ◌==◌, if◌then◌else◌, vec_len, vec_capacity, IfOk, OnOk, OnErr};
ghost use Rattle.vr_log.specs.Log.{log_entries, log_size, is_past_limits, may_follow, next_place, received, processed, fits, follows, is_log, IsLog, FrontsAreLogs, full_at, Pushes};
ghost use Rattle.vr_log.specs.Tally.{IsTally};

use crate::entry::{Entries, Entry, LogFull, copy_entries, size_of_entry};
use crate::tally::Tally;
use std::alloc::{AllocError, Global};
use std::marker::Model;

/// The most entries of a log.
pub const LOG_ENTRIES: u64 = 4096;

/// The most bytes of a log.
pub const LOG_BYTES: u64 = 4_194_304;

/// The replicated log with what is counted of it, so that appending costs the entry. Each entry may follow
/// those before it.
#[derive(Drop)]
pub struct Log {
    /// Each may follow those before it.
    entries: Vec<Entry>,
    /// What is counted of the entries.
    tally: Tally,
}

impl Model for Log {
    ghost use Rattle.std.specs.Prelude.{List};
    ghost use Rattle.vr_log.specs.declared.entry.Entry.{Entry};
    ghost use Rattle.vr_log.specs.Log.{IsLog};
    ghost use Rattle.vr_log.specs.Tally.{IsTally};

    ghost Value = { List Entry };

    ghost view = { λ l. l.entries.items };

    ghost invariant = { λ l. IsLog l.entries.items × IsTally l.entries.items l.tally };
}

/// Why an entry was not appended.
#[derive(Debug, Drop)]
pub enum PushFault {
    LogFull(LogFull),
    Misplaced,
    OutOfMemory,
}

/// A theorem on which entries may follow.
pub fn logs_have_fronts()
    ensures { FrontsAreLogs }
{}

/// The counts of a log.
fn tally_of(alloc: Global, entries: &[Entry]) -> Result<Tally, AllocError>
    requires { is_log entries.now ≡ true }
    ensures { IfOk result (λ tally. IsTally entries.now tally) }
{
    let mut tally = Tally::new(alloc);
    for entry in entries {
        tally.add(entry)?;
    }
    Ok(tally)
}

/// Makes memory for one more entry. The first makes it for all that a log can have, so that none is moved.
fn reserve_one(entries: &mut Vec<Entry>) -> Result<(), AllocError>
    ensures same { entries.new.items ≡ entries.old.items }
    ensures room { OnOk result (vec_len entries.new < vec_capacity entries.new) }
{
    if entries.is_empty() {
        entries.reserve(LOG_ENTRIES as usize)?;
    }
    entries.reserve(1)
}

/// Makes memory for the first entries with so many behind them, whatever stands behind the first ones now.
fn reserve_after(entries: &mut Vec<Entry>, first: usize, more: usize) -> Result<(), AllocError>
    requires first { first ≤ vec_len entries.old }
    requires few { first + more < 2 ^ 64 }
    ensures same { entries.new.items ≡ entries.old.items }
    ensures len { vec_len entries.new ≡ vec_len entries.old }
    ensures room { OnOk result (first + more ≤ vec_capacity entries.new) }
{
    entries.reserve((first + more).saturating_sub(entries.len()))
}

impl Log {
    /// The empty log.
    pub fn new(alloc: Global) -> Log
        ensures { result ≡ [] }
    {
        Log {
            entries: Vec::new(alloc),
            tally: Tally::new(alloc),
        }
    }

    pub fn as_slice(&self) -> &[Entry]
        ensures entries { result.now ≡ self.now }
        ensures lawful { IsLog self.now }
    {
        let _ = &self.tally;
        &self.entries
    }

    /// Its first entries, so many at most. They are moved.
    pub fn into_first(self, count: usize) -> Entries
        ensures { result ≡ take count self }
    {
        let Log {
            entries,
            tally: _tally,
        } = self;
        let mut entries = entries;
        entries.truncate(count);
        Entries::from_vec(entries)
    }

    pub fn len(&self) -> usize
        ensures count { result ≡ length self.now }
        ensures small { length self.now ≤ log_entries }
    {
        let _ = &self.tally;
        self.entries.len()
    }

    pub fn is_empty(&self) -> bool
        ensures { result ≡ (length self.now == 0) }
    {
        self.entries.is_empty()
    }

    /// The bytes of the entries.
    pub fn size(&self) -> u64
        ensures { result ≡ log_size self.now }
    {
        self.tally.bytes
    }

    /// How many events it has received.
    pub fn received(&self) -> u64
        ensures { result ≡ length (received self.now) }
    {
        self.tally.received
    }

    /// How many of these are processed.
    pub fn processed(&self) -> u64
        ensures { result ≡ processed self.now }
    {
        self.tally.processed
    }

    /// The life that a switch has in the log, and the number that its next event of that life has.
    pub fn next_place(&self, switch: u8) -> (u32, u64)
        ensures { result ≡ next_place self.now switch }
    {
        let place = self.tally.places.of(switch);
        (place.life, place.number)
    }

    /// Where the log takes its memory.
    pub fn allocator(&self) -> Global {
        *self.entries.allocator()
    }

    /// Whether the log with this entry would be past its limits.
    #[tactic(auto, using(crate::proofs::Tallies::full_is))]
    pub fn is_past_limits(&self, entry: &Entry) -> bool
        ensures { result ≡ is_past_limits self.now entry.now }
    {
        self.tally.is_full(entry)
    }

    /// Whether the entry may follow the log.
    #[tactic(auto, using(crate::proofs::Tallies::may_is))]
    pub fn may_follow(&self, entry: &Entry) -> bool
        ensures { result ≡ may_follow self.now entry.now }
    {
        self.tally.may_join(entry)
    }

    /// The three numbers of an entry that finds no room.
    pub fn full_at(&self, entry: &Entry) -> LogFull
        ensures { result ≡ full_at self.now entry.now }
    {
        LogFull {
            length: self.entries.len() as u64,
            bytes: self.tally.bytes,
            next: size_of_entry(entry),
        }
    }

    /// Whether the entry is within the limits and may follow.
    pub fn takes(&self, entry: &Entry) -> bool
        ensures { result ≡ fits self.now entry.now }
    {
        !self.is_past_limits(entry) && self.may_follow(entry)
    }

    /// Appends an entry that the log takes. An `Err` changes nothing.
    #[inline(always)]
    pub fn append(&mut self, entry: Entry) -> Result<(), AllocError>
        requires { fits self.old entry ≡ true }
        ensures ok { OnOk result (self.new ≡ self.old ++ entry ∷ []) }
        ensures err { OnErr result (self.new ≡ self.old) }
    {
        reserve_one(&mut self.entries)?;
        self.tally.add(&entry)?;
        self.entries.push_reserved(entry);
        Ok(())
    }

    /// Appends an entry, where it is within the limits and may follow. A refusal changes nothing.
    pub fn push(&mut self, entry: Entry) -> Result<(), PushFault>
        ensures { Pushes self.old entry result self.new }
    {
        if self.is_past_limits(&entry) {
            return Err(PushFault::LogFull(self.full_at(&entry)));
        }
        if !self.may_follow(&entry) {
            return Err(PushFault::Misplaced);
        }
        match self.append(entry) {
            Ok(()) => Ok(()),
            Err(AllocError) => Err(PushFault::OutOfMemory),
        }
    }

    /// The counts of its first entries.
    fn tally_through(&self, first: usize) -> Result<Tally, AllocError>
        requires { first ≤ length self.now }
        ensures { IfOk result (λ tally. IsTally (take first self.now) tally) }
    {
        if first == self.entries.len() {
            self.tally.copy()
        } else {
            tally_of(*self.entries.allocator(), &self.entries[..first])
        }
    }

    /// Keeps the first entries and puts these behind them, or changes nothing where one of them does not
    /// fit, and tells which. An `Err` changes nothing.
    pub fn replace_after(&mut self, first: usize, entries: Entries) -> Result<bool, AllocError>
        requires { first ≤ length self.old }
        ensures answer { IfOk result (λ taken. taken ≡ follows (take first self.old) entries) }
        ensures after { IfOk result (λ taken. self.new ≡ (if taken then take first self.old ++ entries else self.old)) }
        ensures err { OnErr result (self.new ≡ self.old) }
    {
        let mut tally = self.tally_through(first)?;
        if !tally.add_all(entries.as_slice())? {
            return Ok(false);
        }
        let mut entries = entries.into_vec();
        reserve_after(&mut self.entries, first, entries.len())?;
        self.entries.truncate(first);
        self.entries.append(&mut entries)?;
        self.tally = tally;
        Ok(true)
    }

    /// The entries behind a place, which are none past the end.
    pub fn entries_after(&self, place: usize) -> Result<Entries, AllocError>
        ensures { IfOk result (λ entries. entries ≡ drop place self.now) }
    {
        let _ = &self.tally;
        let rest = self.entries.get(place..).unwrap_or_default();
        copy_entries(*self.entries.allocator(), rest)
    }
}
