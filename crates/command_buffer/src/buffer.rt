//! The command buffer (Ravana, 4.2).
ghost use Rattle.std.specs.Prelude.{◌≡◌, ◌≢◌, ◌<◌, ◌-◌, ◌^◌, ◌↔◌, length, IfOk};
ghost use Rattle.of_types.specs.declared.message.Outcome.TheVariants as outcomes;
ghost use Rattle.command_buffer.specs.declared.buffer.Offer.TheVariants as offers;
ghost use Rattle.command_buffer.specs.Results.{most_kept, no_results, first_kept, without_results_below, with_result, kept_result, offer_of, AreResults};

use circular_buffer::HeapCircularBuffer;
use of_types::Outcome;
use std::alloc::{AllocError, Global};
use std::marker::Model;

/// The most results that are kept.
pub const MOST_KEPT: usize = 256;

/// What the command buffer says of a number.
#[derive(Clone, Copy, PartialEq, Eq, Debug)]
pub enum Offer {
    /// The next number, and there is room for its result.
    Execute,
    /// A number that was carried out, with its result: `Cleared` where it is no longer kept.
    Repeat(Outcome),
    /// A number that comes too early.
    Ahead,
    /// The next number, and there is no room for its result.
    Full,
}

/// How many commands were carried out, and the latest of their results.
#[derive(Drop)]
pub struct CommandBuffer {
    /// How many commands were carried out.
    executed: u64,
    /// The results of the latest of them, the oldest first.
    outcomes: HeapCircularBuffer<Outcome>,
}

impl Model for CommandBuffer {
    ghost use Rattle.std.specs.Prelude.{◌≡◌};
    ghost use Rattle.command_buffer.specs.Results.{Results, AreResults, most_kept};

    ghost Value = { Results };

    ghost view = { λ a. record { executed = a.executed; outcomes = a.outcomes.items } };

    ghost invariant = { λ a.
        AreResults (record { executed = a.executed; outcomes = a.outcomes.items }) × (a.outcomes.capacity ≡ most_kept) };
}

impl CommandBuffer {
    /// No command was carried out. It takes all its memory now.
    pub fn new(alloc: Global) -> Result<CommandBuffer, AllocError>
        ensures { IfOk result (λ b. b ≡ no_results) }
    {
        Ok(CommandBuffer {
            executed: 0,
            outcomes: HeapCircularBuffer::with_capacity(alloc, MOST_KEPT)?,
        })
    }

    /// What becomes of a command with a number. The results below `settled` are dropped first.
    pub fn offer(&mut self, number: u64, settled: u64) -> Offer
        ensures after { self.new ≡ without_results_below self.old settled }
        ensures answer { result ≡ offer_of self.new number }
        ensures cleared { (result ≡ offers.Repeat outcomes.Cleared) ↔ (number < first_kept self.new) }
    {
        self.clear(settled);
        if number == self.executed {
            if self.outcomes.len() < MOST_KEPT {
                Offer::Execute
            } else {
                Offer::Full
            }
        } else if number < self.executed {
            Offer::Repeat(self.kept_result(number))
        } else {
            Offer::Ahead
        }
    }

    /// Counts the command that was carried out, and keeps its result.
    pub fn done(&mut self, outcome: Outcome)
        requires room { length self.old.outcomes < most_kept }
        requires countable { self.old.executed < 2 ^ 64 - 1 }
        requires result { outcome ≢ outcomes.Cleared }
        ensures { self.new ≡ with_result self.old outcome }
    {
        let _ = self.outcomes.push_back(outcome);
        self.executed += 1;
    }

    /// Drops the results below a number.
    pub fn clear(&mut self, through: u64)
        ensures { self.new ≡ without_results_below self.old through }
    {
        let through = through.min(self.executed);
        let gone = through.saturating_sub(self.first_kept()) as usize;
        self.outcomes.truncate_front(self.outcomes.len() - gone);
    }

    /// How many commands were carried out.
    pub fn executed(&self) -> u64
        ensures { result ≡ self.now.executed }
    {
        self.executed
    }

    /// How many results are kept.
    pub fn kept(&self) -> u64
        ensures kept { result ≡ length self.now.outcomes }
        ensures lawful { AreResults self.now }
    {
        self.outcomes.len() as u64
    }

    /// The number of the first result that is kept.
    fn first_kept(&self) -> u64
        ensures { result ≡ first_kept self.now }
    {
        self.executed - self.outcomes.len() as u64
    }

    /// The kept result of a number.
    fn kept_result(&self, number: u64) -> Outcome
        ensures { result ≡ kept_result self.now number }
    {
        let first = self.first_kept();
        if number < first {
            return Outcome::Cleared;
        }
        match self.outcomes.get((number - first) as usize) {
            Some(outcome) => *outcome,
            None => Outcome::Cleared,
        }
    }
}
