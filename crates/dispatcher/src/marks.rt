//! The marks of a view.
ghost use Rattle.std.specs.Prelude.{◌≡◌, ◌+◌, ◌<◌, ◌≤◌, false, filter, length, true, OnOk};
ghost use Rattle.std.specs.HashSet.{spare};
ghost use Rattle.std.specs.Vec.{vec_capacity};
ghost use Rattle.dispatcher.specs.Ledger.{has_pending};
ghost use Rattle.dispatcher.specs.Marks as marks;
ghost use Rattle.dispatcher.specs.Marks.{confirmed_by, has_result, is_confirmed, no_marks, with_mark};

use crate::highest::Highest;
use crate::ledger::Ledger;
use of_types::SmallSet;
use std::alloc::{AllocError, Global};
use std::collections::HashSet;
use std::marker::Model;

/// What came from switches in a view: which of them took this controller as master, and of which commands results
/// came, by switch, life and number.
#[derive(Drop)]
pub(crate) struct ViewMarks {
    /// The switches that took this controller as master.
    confirmed: SmallSet,
    /// The commands of which results came, in the order in which they first did.
    acked: Vec<(u8, u32, u64)>,
    /// The same commands, as they are found.
    found: HashSet<(u8, u32, u64)>,
    /// Of each switch, the highest number among them: a higher one is looked for no further.
    highest: Highest,
}

impl Model for ViewMarks {
    ghost use Rattle.std.specs.Prelude.{◌+◌, length, min};
    ghost use Rattle.std.specs.List.Sorted.{IsPermutation};
    ghost use Rattle.std.specs.HashSet.{spare};
    ghost use Rattle.std.specs.Vec.{vec_capacity};
    ghost use Rattle.dispatcher.specs.Marks.{KeptMarks, AreWithin};

    ghost Value = { KeptMarks };

    ghost view = { λ m. record {
      marks = record { confirmed = m.confirmed; acked = m.acked.items };
      room = min (vec_capacity m.acked) (length m.found.keys + spare m.found);
    } };

    ghost invariant = { λ m. IsPermutation m.acked.items m.found.keys × AreWithin (record { confirmed = m.confirmed; acked = m.acked.items }) m.highest };
}

impl ViewMarks {
    /// Nothing came yet. It takes no memory.
    pub(crate) fn new(alloc: Global) -> ViewMarks
        ensures { result.marks ≡ no_marks }
    {
        ViewMarks {
            confirmed: SmallSet::new(),
            acked: Vec::new(alloc),
            found: HashSet::new(alloc),
            highest: Highest::new(),
        }
    }

    /// What came is forgotten, and the room stays.
    pub(crate) fn clear(&mut self)
        ensures marks { self.new.marks ≡ no_marks }
        ensures room { self.old.room ≤ self.new.room }
    {
        self.confirmed = SmallSet::new();
        self.acked.clear();
        self.found.clear();
        self.highest = Highest::new();
    }

    /// A switch took this controller as master.
    pub(crate) fn confirm(&mut self, switch: u8)
        ensures { self.new ≡ record self.old { marks = confirmed_by self.old.marks switch } }
    {
        self.confirmed.insert(switch);
    }

    /// A switch no longer has this controller as master.
    pub(crate) fn unconfirm(&mut self, switch: u8)
        ensures { self.new ≡ record self.old { marks = marks.off_role self.old.marks switch } }
    {
        self.confirmed.remove(switch);
    }

    pub(crate) fn is_confirmed(&self, switch: u8) -> bool
        ensures { result ≡ is_confirmed self.now.marks switch }
    {
        self.confirmed.contains(switch)
    }

    /// Of how many commands results are kept.
    pub(crate) fn len(&self) -> usize
        ensures { result ≡ length self.now.marks.acked }
    {
        self.acked.len()
    }

    /// Of commands that are not pending the results are forgotten. It takes no memory, and leaves as much room for
    /// further results.
    pub(crate) fn forget_settled(&mut self, ledger: &Ledger)
        ensures marks { self.new.marks ≡ record self.old.marks { acked = filter (λ a. has_pending ledger.now a.0 a.1 a.2) self.old.marks.acked } }
        ensures room { self.old.room + length self.new.marks.acked ≤ self.new.room + length self.old.marks.acked }
    {
        keep_listed(&mut self.acked, ledger);
        keep_found(&mut self.found, ledger);
    }

    /// Whether a result of a command came. One that is asked for mostly is among the last ones.
    #[inline(always)]
    pub(crate) fn has_result(&self, switch: u8, life: u32, number: u64) -> bool
        ensures { result ≡ has_result self.now.marks switch life number }
    {
        number <= self.highest.of(switch)
            && (self.came_last(switch, life, number) || self.finds_result(switch, life, number))
    }

    /// Whether a command is one of the last two of which results came, as those of one event are.
    #[inline(always)]
    fn came_last(&self, switch: u8, life: u32, number: u64) -> bool
        ensures { result ≡ true → has_result self.now.marks switch life number ≡ true }
    {
        let command = (switch, life, number);
        match self.acked.split_last() {
            Some((last, earlier)) => {
                *last == command || earlier.last().is_some_and(|before| *before == command)
            }
            None => false,
        }
    }

    /// Whether a command is found among those of which results came.
    #[inline(never)]
    fn finds_result(&self, switch: u8, life: u32, number: u64) -> bool
        ensures { result ≡ has_result self.now.marks switch life number }
    {
        self.found.contains(&(switch, life, number))
    }

    /// Makes room for so many results more.
    pub(crate) fn reserve(&mut self, results: usize) -> Result<(), AllocError>
        ensures marks { self.new.marks ≡ self.old.marks }
        ensures room { OnOk result (length self.new.marks.acked + results ≤ self.new.room) }
    {
        self.acked.reserve(results)?;
        self.found.reserve(results)
    }

    /// A result of a command came. Where there is room for it, it is noted.
    pub(crate) fn note_result(&mut self, switch: u8, life: u32, number: u64)
        ensures first { has_result self.old.marks switch life number ≡ false → length self.old.marks.acked < self.old.room → self.new.marks ≡ with_mark self.old.marks switch life number }
        ensures again { has_result self.old.marks switch life number ≡ true → self.new.marks ≡ self.old.marks }
        ensures room { self.old.room ≤ self.new.room }
    {
        if self.has_result(switch, life, number) || self.acked.len() == self.acked.capacity() {
            return;
        }
        // (They fail only where there is no room, and `fold` makes room for each result that counts.)
        let command = (switch, life, number);
        if self.found.insert(command).is_ok() {
            let _ = self.acked.push(command);
            self.highest.raise(switch, number);
        }
    }
}

/// Those that are pending stay in a list, in their order.
fn keep_listed(commands: &mut Vec<(u8, u32, u64)>, ledger: &Ledger)
    ensures kept { commands.new.items ≡ filter (λ a. has_pending ledger.now a.0 a.1 a.2) commands.old.items }
    ensures room { vec_capacity commands.new ≡ vec_capacity commands.old }
{
    commands.retain(|command| ledger.has_pending(command.0, command.1, command.2));
}

/// They stay in a set.
fn keep_found(commands: &mut HashSet<(u8, u32, u64)>, ledger: &Ledger)
    ensures kept { commands.new.keys ≡ filter (λ a. has_pending ledger.now a.0 a.1 a.2) commands.old.keys }
    ensures room { spare commands.old ≤ spare commands.new }
{
    commands.retain(|command| ledger.has_pending(command.0, command.1, command.2));
}
