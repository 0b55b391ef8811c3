//! The stable pairs of a group in memory.
ghost use Rattle.std.specs.Prelude.{IfOk};
ghost use Rattle.top_call.specs.Play.{AreFresh};

use crate::shelves::CONTROLLERS;
use journal::{MemoryStable, Stable};
use std::alloc::{AllocError, Global};

/// The stable pairs of the most controllers. No save of theirs fails.
pub fn stables(alloc: Global) -> Result<Vec<MemoryStable>, AllocError>
    ensures { IfOk result (λ stables. AreFresh ⟦<MemoryStable as Stable>⟧.saving stables.items) }
{
    let mut stables = Vec::new(alloc);
    'making: for _ in 0..CONTROLLERS {
        stables.push(MemoryStable::new(Vec::new(alloc)))?;
    }
    Ok(stables)
}
