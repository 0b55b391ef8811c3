//! How a log that came from others takes the place of a member's own.
ghost use Rattle.std.specs.Prelude.{◌≡◌, ◌≤◌, ◌+◌, ◌++◌, ◌&&◌, nat_le, length, take, if◌then◌else◌, IfOk, OnErr};
ghost use Rattle.vr_log.specs.Log.{IsLog};
ghost use Rattle.vr_log.specs.Same.{same_entries};
ghost use Rattle.vr_log.specs.Steps.{with_log, is_sound};

use crate::entry::{Entries, Entry};
use crate::same::same_entries;
use crate::state::VrState;
use std::alloc::AllocError;

impl VrState {
    /// Whether entries behind the first ones of the log leave each committed entry in its place.
    fn keeps_committed(&self, first: usize, entries: &[Entry]) -> bool
        requires first { first ≤ self.now.commit }
        requires commit { self.now.commit ≤ length self.now.log }
        ensures lawful { IsLog self.now.log }
        ensures exact { result ≡ same_entries (take self.now.commit self.now.log) (take self.now.commit (take first self.now.log ++ entries.now)) }
    {
        let commit = self.commit as usize;
        let committed = &self.log.as_slice()[first..commit];
        let told = &entries[..(commit - first).min(entries.len())];
        same_entries(committed, told)
    }

    /// Whether, further, that log reaches a commit number.
    fn may_replace(&self, first: u64, entries: &[Entry], commit: u64) -> bool
        requires first { first ≤ self.now.commit }
        requires commit { self.now.commit ≤ length self.now.log }
        ensures lawful { IsLog self.now.log }
        ensures exact { result ≡ (nat_le commit (first + length entries.now) && same_entries (take self.now.commit self.now.log) (take self.now.commit (take first self.now.log ++ entries.now))) }
    {
        let keeps = self.keeps_committed(first as usize, entries);
        commit.saturating_sub(first) <= entries.len() as u64 && keeps
    }

    /// Keeps the first entries of the log, puts these behind them and takes a commit number, where this leaves
    /// a log that reaches the commit number and has each entry that was committed; else changes nothing.
    /// Tells which. An `Err` changes nothing.
    #[tactic(auto, using(crate::proofs::Steps::sound_with))]
    pub fn replace_log(
        &mut self,
        first: u64,
        entries: Entries,
        commit: u64,
    ) -> Result<bool, AllocError>
        requires first { first ≤ self.old.commit }
        requires commit { self.old.commit ≤ length self.old.log }
        ensures answer { IfOk result (λ kept. kept ≡ is_sound self.old (with_log self.old first entries commit)) }
        ensures after { IfOk result (λ kept. self.new ≡ (if kept then with_log self.old first entries commit else self.old)) }
        ensures err { OnErr result (self.new ≡ self.old) }
    {
        if !self.may_replace(first, entries.as_slice(), commit) {
            return Ok(false);
        }
        if !self.log.replace_after(first as usize, entries)? {
            return Ok(false);
        }
        self.commit = commit;
        Ok(true)
    }
}
