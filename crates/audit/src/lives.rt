//! The present lives of switches.
ghost use Rattle.std.specs.Prelude.{◌≡◌, replicate, get_or, if◌then◌else◌, nat_eq, ℕ};

use std::marker::Model;

/// The life that each switch has. It stands in place and takes no memory.
#[derive(Drop)]
pub struct Lives {
    lives: [u32; 256],
}

impl Model for Lives {
    ghost use Rattle.std.specs.Prelude.{List, ℕ};

    ghost Value = { List ℕ };

    ghost view = { λ l. l.lives };
}

impl Lives {
    /// Each switch is in its first life.
    pub fn new() -> Lives
        ensures { result ≡ replicate 256 0 }
    {
        Lives { lives: [0; 256] }
    }

    /// The life of a switch.
    pub fn of(&self, switch: usize) -> u32
        ensures { result ≡ get_or self.now switch 0 }
    {
        match self.lives.get(switch) {
            Some(life) => *life,
            None => 0,
        }
    }

    /// The switch is in this life from now on.
    pub fn begin(&mut self, switch: u8, life: u32)
        ensures { (s : ℕ) → get_or self.new s 0 ≡ (if nat_eq switch s then life else get_or self.old s 0) }
    {
        self.lives[usize::from(switch)] = life;
    }
}
