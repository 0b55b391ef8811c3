//! How many cases were looked at.
ghost use Rattle.std.specs.Prelude.{◌≡◌, ◌<◌, ◌↔◌, IsTrue};

/// The cases that were looked at, and those of them that differ. A count that stands at its type's end rises no further.
#[derive(Drop)]
pub struct Tally {
    lines: u64,
    differing: u64,
}

impl Tally {
    pub fn new() -> Tally {
        Tally {
            lines: 0,
            differing: 0,
        }
    }

    pub fn count(&mut self, differs: bool) {
        self.lines = self.lines.saturating_add(1);
        if differs {
            self.differing = self.differing.saturating_add(1);
        }
    }

    pub fn lines(&self) -> u64 {
        self.lines
    }

    pub fn differing(&self) -> u64 {
        self.differing
    }

    /// Whether there were cases, and none of them differs.
    pub fn is_clean(&self) -> bool
        ensures { IsTrue result ↔ (0 < self.now.lines) × (self.now.differing ≡ 0) }
    {
        self.lines > 0 && self.differing == 0
    }
}
