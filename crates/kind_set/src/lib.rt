//! Which kinds of field were seen in a match.
#![tactic(auto)]

ghost use Rattle.std.specs.Prelude.{◌≡◌, not, replicate, false, true, slice_set};
ghost use Rattle.kind_set.specs.Seen.{has_number};

use std::marker::Model;

/// The kinds that were seen, by their numbers. It stands in place and takes no memory.
#[derive(Drop)]
pub struct KindSet {
    numbers: [bool; 256],
}

impl Model for KindSet {
    ghost use Rattle.std.specs.Prelude.{Bool, List};

    ghost Value = { List Bool };

    ghost view = { λ s. s.numbers };
}

impl KindSet {
    /// No kind was seen.
    pub fn new() -> KindSet
        ensures { result ≡ replicate 256 false }
    {
        KindSet {
            numbers: [false; 256],
        }
    }

    /// Adds the number of a kind, and tells whether it is new.
    pub fn insert(&mut self, number: u8) -> bool
        ensures new { result ≡ not (has_number self.old number) }
        ensures after { self.new ≡ slice_set self.old number true }
    {
        let number = usize::from(number);
        let is_new = !self.numbers[number];
        self.numbers[number] = true;
        is_new
    }
}
