//! A set of small numbers, as ports and controllers have, which contracts see as an ascending list.
ghost use Rattle.std.specs.Prelude.{◌≡◌, [], nat_eq, nat_lt, not, length, IfOk};
ghost use Rattle.std.specs.List.{list_any};
ghost use Rattle.of_types.specs.SmallSets.{with_number, without_number, AscendWithin};

use std::alloc::{AllocError, Global};
use std::marker::Model;

/// A set of numbers of 8 bits. It stands in place and takes no memory.
#[derive(Drop)]
pub struct SmallSet {
    members: [bool; 256],
}

impl Model for SmallSet {
    ghost use Rattle.std.specs.Prelude.{List, ℕ};
    ghost use Rattle.of_types.specs.SmallSets.{places_from};

    ghost Value = { List ℕ };

    ghost view = { λ a. places_from 0 a.members };
}

impl SmallSet {
    /// The empty set.
    pub fn new() -> SmallSet
        ensures { result ≡ [] }
    {
        SmallSet {
            members: [false; 256],
        }
    }

    /// What holds of every set: its numbers ascend and have 8 bits.
    pub fn lawful(&self)
        ensures { AscendWithin 0 255 self.now }
    {
        let _members = &self.members;
    }

    /// Adds a number.
    pub fn insert(&mut self, number: u8)
        ensures { self.new ≡ with_number number self.old }
    {
        self.members[usize::from(number)] = true;
    }

    /// Takes a number out.
    pub fn remove(&mut self, number: u8)
        ensures { self.new ≡ without_number number self.old }
    {
        self.members[usize::from(number)] = false;
    }

    /// Whether a number is in it.
    pub fn contains(&self, number: u8) -> bool
        ensures { result ≡ list_any (λ n. nat_eq n number) self.now }
    {
        self.members[usize::from(number)]
    }

    /// Whether no number is in it.
    pub fn is_empty(&self) -> bool
        ensures { result ≡ not (nat_lt 0 (length self.now)) }
    {
        // (A loop with no way out goes through many places at once.)
        let mut has_member = false;
        'members: for is_member in &self.members {
            has_member |= *is_member;
        }
        !has_member
    }

    /// Its numbers, ascending.
    pub fn to_vec(&self, alloc: Global) -> Result<Vec<u8>, AllocError>
        ensures { IfOk result (λ numbers. numbers.items ≡ self.now) }
    {
        let mut numbers = Vec::new(alloc);
        for (number, is_member) in self.members.iter().enumerate() {
            if *is_member {
                numbers.push(number as u8)?;
            }
        }
        Ok(numbers)
    }
}
