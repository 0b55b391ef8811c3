//! Whether the views of a closing have room.
ghost use Rattle.std.specs.Prelude.{◌↔◌, IsTrue};
ghost use Rattle.journal.specs.Pool.{past};
ghost use Rattle.run_laws.specs.Laws.{IsSuspectedUpTo};
ghost use Rattle.closing.specs.Views.{most_view_of_a_script, HeadSuspectsUpTo};

use app_core::App;
use journal::{Head, Local};
use players::Body;
use world::World;

/// The greatest view that a step of a script suspects.
const MOST_VIEW_OF_A_SCRIPT: u32 = 4_000_000_000;

/// Whether `run` may close a world: no view above 4,000,000,000 was suspected in it.
pub fn may_close<B: Body, A: App>(world: &World<B, A>) -> bool
    ensures { IsTrue result ↔ IsSuspectedUpTo most_view_of_a_script (past world.now.journal) }
{
    for head in world.heads() {
        if !suspects_within(head) {
            return false;
        }
    }
    true
}

/// Whether an entry suspects no greater view.
fn suspects_within(head: &Head) -> bool
    ensures { IsTrue result ↔ HeadSuspectsUpTo most_view_of_a_script head.now }
{
    match head {
        Head::Local { input, .. } => match input {
            Local::Suspect { view } => *view <= MOST_VIEW_OF_A_SCRIPT,
            _ => true,
        },
        _ => true,
    }
}
