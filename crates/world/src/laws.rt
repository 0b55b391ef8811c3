//! The laws of every world of a group of controllers and its switches, whatever its turns were. Each is a function that does
//! nothing, and whose clause says it.
ghost use Rattle.journal.specs.Pool.{past};
ghost use Rattle.run_laws.specs.Laws.{AreAgreed, AreValidLogs};
ghost use Rattle.run_spec.specs.Laws.{IsExactlyOnce, IsFenced, IsLasting};
ghost use Rattle.world.specs.Folds.{HaveFolded, RunVersions};
ghost use Rattle.world.specs.World.{ForEachScene, results_in};

use crate::world::World;
use app_core::App;
use players::Body;

/// Of the logs that any two controllers have committed, at any two times, one begins the other.
pub fn agreement<B: Body, A: App>(world: &World<B, A>)
    ensures { ForEachScene A.law B.sealing world.now (λ scene.
        AreAgreed scene (results_in world.now.controllers) (past world.now.journal)) }
{
    let _ = world;
}

/// What is decided, and each log that a controller had committed at any time, has the events of each life of a switch by number, and
/// so each at most once; and an event is processed only behind the entry that it was received.
pub fn logs_are_valid<B: Body, A: App>(world: &World<B, A>)
    ensures { ForEachScene A.law B.sealing world.now (λ scene.
        AreValidLogs scene (results_in world.now.controllers) (past world.now.journal)) }
{
    let _ = world;
}

/// What was decided stays decided.
pub fn lasting<B: Body, A: App>(world: &World<B, A>)
    ensures { ForEachScene A.law B.sealing world.now (λ scene.
        IsLasting scene (results_in world.now.controllers) (past world.now.journal)) }
{
    let _ = world;
}

/// Each life of each switch carried out, each once and in order, a prefix of what one fault-free controller issues to it on
/// the decided log; what is processed is carried out, or its life was over by then; and an event was dropped only once it
/// was processed.
pub fn exactly_once<B: Body, A: App>(world: &World<B, A>)
    ensures { ForEachScene A.law B.sealing world.now (λ scene.
        IsExactlyOnce scene (results_in world.now.controllers) (past world.now.journal)) }
{
    let _ = world;
}

/// No switch carried out a command of a stale generation, in any of its lives.
pub fn fence<B: Body, A: App>(world: &World<B, A>)
    ensures { ForEachScene A.law B.sealing world.now (λ scene.
        IsFenced scene (past world.now.journal)) }
{
    let _ = world;
}

/// The application of each controller that is not down is where a chain of its kinds comes to by the events that this controller
/// has committed: a fold over its committed log. So two that have committed the same have the same application.
pub fn folds<B: Body, A: App>(world: &World<B, A>)
    ensures { HaveFolded A.law B.sealing world.now }
{
    let _ = world;
}

/// So a slot is at the same version in every replica, after the same committed log: at the one to which operators have brought it
/// in the events of that log.
pub fn versions_are_one<B: Body, A: App>(world: &World<B, A>)
    ensures { RunVersions A.law B.sealing world.now }
{
    let _ = world;
}
