//! The controllers of a group follow the rules of agreement: each turn of a controller, with its save, is a turn of moves.
//! Each law is a function that does nothing, and whose clause says it.
#![tactic(auto)]

pub mod controller_laws;
pub mod member_moves;

ghost use Rattle.controller_moves.specs.Laws.{ControllersFollow, WorksStandOnSteps};
ghost use Rattle.controller_moves.specs.Spelling.{TurnsCanBeSpelled};

/// What a turn leaves and says stands on at most one step of the member, behind which the primary proposes entries and
/// tells switches.
pub fn works_stand_on_steps()
    ensures { WorksStandOnSteps }
{}

/// The rules of controllers follow the moves of agreement, in any group of 2 f + 1, for any applications, any setup, and
/// whatever the saves come to.
pub fn controllers_follow()
    ensures { ControllersFollow }
{}

/// Where what a controller holds and hears can be spelled, what it holds then and says to members can be spelled.
pub fn turns_can_be_spelled()
    ensures { TurnsCanBeSpelled }
{}
