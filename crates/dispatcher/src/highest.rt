//! The highest numbers of which results came.
ghost use Rattle.std.specs.Prelude.{◌≡◌, ◌≤◌, replicate, get_or, ℕ};

use std::marker::Model;

/// A number for each switch that is only raised. It stands in place and takes no memory.
#[derive(Drop)]
pub(crate) struct Highest {
    numbers: [u64; 256],
}

impl Model for Highest {
    ghost use Rattle.std.specs.Prelude.{List, ℕ};

    ghost Value = { List ℕ };

    ghost view = { λ h. h.numbers };
}

impl Highest {
    /// That of each switch is zero.
    pub(crate) fn new() -> Highest
        ensures { result ≡ replicate 256 0 }
    {
        Highest { numbers: [0; 256] }
    }

    pub(crate) fn of(&self, switch: u8) -> u64
        ensures { result ≡ get_or self.now switch 0 }
    {
        self.numbers[usize::from(switch)]
    }

    /// That of the switch is no lower than this from now on.
    pub(crate) fn raise(&mut self, switch: u8, number: u64)
        ensures reached { number ≤ get_or self.new switch 0 }
        ensures kept { (s : ℕ) → get_or self.old s 0 ≤ get_or self.new s 0 }
    {
        let highest = self.numbers[usize::from(switch)];
        if highest < number {
            self.numbers[usize::from(switch)] = number;
        }
    }
}
