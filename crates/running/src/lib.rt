//! Actors as threads over one board: each does its own steps of a script.
#![tactic(auto)]

ghost use Rattle.running.specs.Laws.{PartsJoin, StepsStay};

mod job;
mod leaving;
mod next;
mod ready;
mod run;
mod seated;
mod seating;
mod task;

use app_core::App;
pub use run::{Halt, Played, run_threads};
pub use seated::{Seated, Served};

/// A past in which each actor stands behind its part is that of a run.
pub fn parts_join<B, A: App>()
    ensures { PartsJoin B A.law }
{}

/// Each actor follows the same steps in a journal that others have made longer.
pub fn steps_stay<B>()
    ensures { StepsStay B }
{}
