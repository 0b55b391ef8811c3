//! Lines of which it is told how many follow.
ghost use Rattle.std.specs.Prelude.{ℕ, List, Option};
ghost use Rattle.report.specs.Lines.{GivesLines, each_at};
ghost use Rattle.report.specs.Spelled.{GivesText};

use crate::fault::{Broken, Misfit, on_line};
use of_types::Items;
use std::alloc::Global;

/// What stands on a line of its own.
pub trait CountedLine: Drop {
    ghost line_at: { ℕ → List ℕ → Option (Self × List ℕ) };

    /// Reads the line at the front, which is of this switch where it names one, and gives what comes behind it.
    fn read_line(alloc: Global, switch: usize, bytes: &[u8]) -> Result<(Self, &[u8]), Misfit>
        ensures { GivesText (λ x. (x.0, x.1.now)) result (line_at switch bytes.now) };
}

/// Reads so many lines.
#[tactic(auto, unfolding(crate::specs::Lines::each_at))]
pub fn read_each<L: CountedLine>(
    alloc: Global,
    switch: usize,
    count: u64,
    bytes: &[u8],
) -> Result<(Items<L>, &[u8]), Broken>
    ensures { GivesLines (λ x. (x.0, x.1.now)) result (each_at (L.line_at switch) count bytes.now) }
{
    let mut items = Items::new(alloc);
    let mut rest = bytes;
    for place in 0..count {
        let (item, after) = on_line(rest, L::read_line(alloc, switch, rest))?;
        items.push(item)?;
        rest = after;
    }
    Ok((items, rest))
}
