//! How many cases were played, and how many differ.

use crate::difference::Difference;
use std::io;

/// The counts so far.
#[derive(Clone, Copy)]
pub struct Tally {
    played: u64,
    differing: u64,
}

impl Tally {
    pub fn new() -> Tally {
        Tally {
            played: 0,
            differing: 0,
        }
    }

    /// Counts what became of a case, and prints what differs.
    pub fn count(
        &mut self,
        rt: &impl Print,
        name: &str,
        outcome: Result<(), Difference>,
    ) -> io::Result<()> {
        self.played = self.played.saturating_add(1);
        match outcome {
            Ok(()) => Ok(()),
            Err(difference) => {
                self.differing = self.differing.saturating_add(1);
                println!(rt; "{name}: {difference}")
            }
        }
    }

    /// Prints the counts.
    pub fn print(&self, rt: &impl Print) -> io::Result<()> {
        let played = self.played;
        let differing = self.differing;
        println!(rt; "{played} played, {differing} differ")
    }

    /// Whether there were cases, and none differs.
    pub fn is_sound(&self) -> bool {
        self.played > 0 && self.differing == 0
    }
}
