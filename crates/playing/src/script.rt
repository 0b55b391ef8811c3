//! A script whose steps are done in order.
ghost use Rattle.std.specs.Prelude.{◌≡◌, ℕ, List, None, [], OnOk, IfOk, IfErr};
ghost use Rattle.std.specs.List.{AllByRecursion};
ghost use Rattle.journal.specs.Actors.{IsActor};
ghost use Rattle.journal.specs.Pool.{past};
ghost use Rattle.journal.specs.Turns.{turn_actor};
ghost use Rattle.run_laws.specs.Laws.{IsSuspectedUpTo};
ghost use Rattle.world.specs.World.{ForEachScene, Holds, Keeps, PairsStand};
ghost use Rattle.closing.specs.Closing.{HasMajority};
ghost use Rattle.closing.specs.Views.{most_view_of_a_script, StepSuspectsUpTo};
ghost use Rattle.playing.specs.Manners.{In_order};
ghost use Rattle.playing.specs.Played.{HasFollowed, HasPlayedTo, RunStops};

use app_core::App;
use closing::ClosingOutcome;
use journal::{Stable, Stop, Turn};
use of_types::Items;
use players::Body;
use std::alloc::Global;
use world::World;

/// Does the steps of a script in a world with an empty journal, and brings it to rest. Tells how the closing ended, and how
/// many entries the script made. No step suspects a view above 4,000,000,000 (`most_view_of_a_script`).
pub fn play<B: Body, A: App, W: Stable>(
    alloc: Global,
    world: &mut World<B, A>,
    stables: &mut [W],
    steps: Items<Turn>,
) -> Result<(ClosingOutcome, usize), Stop>
    requires holds { (kinds : List ℕ) × Holds A.law B.sealing world.old kinds }
    requires pairs { PairsStand W.saving stables.old world.old.controllers }
    requires rests { world.old.owed ≡ None }
    requires fresh { world.old.journal ≡ [] }
    requires named { AllByRecursion (λ t. IsActor world.old.setup (turn_actor t)) steps }
    requires views { AllByRecursion (λ t. StepSuspectsUpTo most_view_of_a_script t) steps }
    ensures keeps { Keeps A.law W.saving B.sealing world.old stables.old world.new stables.new }
    ensures rests { OnOk result (world.new.owed ≡ None) }
    ensures played { ForEachScene A.law B.sealing world.old (λ scene. IfOk result (HasPlayedTo scene steps world.new)) }
    ensures up { IfOk result (λ played. HasMajority played.0 world.old world.new) }
    ensures stops { ForEachScene A.law B.sealing world.old (λ scene. IfErr result (RunStops scene steps world.new)) }
{
    do_steps(world, stables, steps)?;
    let script = world.len();
    let closed = closing::run(alloc, world, stables)?;
    Ok((closed, script))
}

/// Does the steps of a script in order.
fn do_steps<B: Body, A: App, W: Stable>(
    world: &mut World<B, A>,
    stables: &mut [W],
    steps: Items<Turn>,
) -> Result<(), Stop>
    requires holds { (kinds : List ℕ) × Holds A.law B.sealing world.old kinds }
    requires pairs { PairsStand W.saving stables.old world.old.controllers }
    requires rests { world.old.owed ≡ None }
    requires fresh { world.old.journal ≡ [] }
    requires named { AllByRecursion (λ t. IsActor world.old.setup (turn_actor t)) steps }
    requires views { AllByRecursion (λ t. StepSuspectsUpTo most_view_of_a_script t) steps }
    ensures keeps { Keeps A.law W.saving B.sealing world.old stables.old world.new stables.new }
    ensures rests { OnOk result (world.new.owed ≡ None) }
    ensures views { OnOk result (IsSuspectedUpTo most_view_of_a_script (past world.new.journal)) }
    ensures follows { ForEachScene A.law B.sealing world.old (λ scene.
        OnOk result (HasFollowed In_order scene steps world.new)) }
    ensures stops { ForEachScene A.law B.sealing world.old (λ scene.
        IfErr result (RunStops scene steps world.new)) }
{
    for step in steps.into_vec() {
        world.take(stables, step)?;
    }
    Ok(())
}
