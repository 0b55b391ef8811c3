//! The order in which packets wait.
ghost use Rattle.std.specs.Prelude.{◌≡◌, ◌<◌, ◌≤◌, ◌+◌, ◌^◌, ◌++◌, [], length, take, map, slice_get, option_map, vec_len, vec_capacity, Some, OnOk, OnErr};
ghost use Rattle.journal.specs.Order.{addressed, without_packet, HaveNumbersBelow, IsClearBelow, IsLowest};

use crate::journal::{Actor, Weight};
use crate::outgoing::Coming;
use std::alloc::{AllocError, Global};
use std::marker::Model;

/// The numbers and the receivers of the packets that wait. Contracts see the list of them, the lowest number first.
#[derive(Drop)]
pub struct Order {
    /// The lowest number that waits, or that of the next to come.
    lowest: usize,
    /// The receiver of each number so far, or none where it waits no more or was lost.
    slots: Vec<Option<Actor>>,
}

impl Model for Order {
    ghost use Rattle.std.specs.Prelude.{List, ℕ};
    ghost use Rattle.journal.specs.declared.journal.Actor.{Actor};
    ghost use Rattle.journal.specs.Order.{awaited, IsLowest};

    ghost Value = { List (ℕ × Actor) };

    ghost view = { λ o. awaited 0 o.slots.items };

    ghost invariant = { λ o. IsLowest o.lowest o.slots.items };
}

/// The lowest number that waits, where none waits below this one.
fn lowest_from(slots: &[Option<Actor>], number: usize) -> usize
    requires { IsClearBelow number slots.now }
    ensures { IsLowest result slots.now }
{
    let mut lowest = number;
    while lowest < slots.len() && slots[lowest].is_none() {
        lowest += 1;
    }
    lowest
}

/// Adds a slot for each of so many letters. There is memory for them.
fn push_each<B: Weight>(slots: &mut Vec<Option<Actor>>, letters: &Coming<'_, B>, count: usize)
    requires within { count ≤ length letters.now }
    requires room { vec_len slots.old + count ≤ vec_capacity slots.old }
    ensures { slots.new.items ≡ slots.old.items ++ map (λ letter. Some letter.to) (take count letters.now) }
{
    for index in 0..count {
        slots.push_reserved(Some(letters.receiver(index)));
    }
}

impl Order {
    /// Nothing waits.
    pub fn new(alloc: Global) -> Order
        ensures { result ≡ [] }
    {
        Order {
            lowest: 0,
            slots: Vec::new(alloc),
        }
    }

    /// Adds so many letters, numbered from there on, above all that wait. An `Err` changes nothing.
    pub fn append<B: Weight>(
        &mut self,
        number: u64,
        letters: &Coming<'_, B>,
        count: usize,
    ) -> Result<(), AllocError>
        requires within { count ≤ length letters.now }
        requires above { HaveNumbersBelow number self.old }
        ensures ok { OnOk result (self.new ≡ self.old ++ addressed number (take count letters.now)) }
        ensures err { OnErr result (self.new ≡ self.old) }
    {
        let number = number as usize;
        // The letters that were lost since have numbers too, and no receiver.
        self.slots.resize(number, None)?;
        self.lowest = lowest_from(self.slots.as_slice(), self.lowest.min(number));
        self.slots.reserve(count)?;
        push_each(&mut self.slots, letters, count);
        Ok(())
    }

    /// The packet of this number waits no more.
    pub fn remove(&mut self, number: u64)
        ensures { self.new ≡ without_packet number self.old }
    {
        let index = number as usize;
        if index < self.slots.len() {
            self.slots[index] = None;
            self.lowest = lowest_from(self.slots.as_slice(), self.lowest);
        }
    }

    /// The receiver of the packet of the lowest number.
    pub fn first(&self) -> Option<Actor>
        ensures { result ≡ option_map (λ w. w.1) (slice_get self.now 0) }
    {
        match self.slots.get(self.lowest) {
            Some(receiver) => *receiver,
            None => None,
        }
    }
}
