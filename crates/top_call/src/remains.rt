//! What becomes of a run that was played.

use std::mem::forget;

/// What becomes of the memory of a run, once all is told of it.
#[derive(Clone, Copy)]
pub enum Remains {
    /// It is given back.
    Freed,
    /// It is left to the end of the process, which comes next: to free each part of a long run would take time and change nothing.
    Left,
}

impl Remains {
    /// Lets go of a part of the run.
    pub fn let_go<T: Drop>(self, part: T) {
        match self {
            Remains::Freed => drop(part),
            Remains::Left => forget(part),
        }
    }
}
