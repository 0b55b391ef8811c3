//! A script whose actors play apart: each does its own steps in a thread of its own.
ghost use Rattle.std.specs.Prelude.{◌≡◌, ℕ, List, None, [], IfOk, IfErr};
ghost use Rattle.std.specs.List.{AllByRecursion};
ghost use Rattle.journal.specs.Actors.{IsActor};
ghost use Rattle.journal.specs.Turns.{IsWithinLimits, turn_actor};
ghost use Rattle.journal.specs.Pool.{past};
ghost use Rattle.world.specs.World.{ForEachScene, Holds, Keeps, PairsStand};
ghost use Rattle.closing.specs.Closing.{HasMajority};
ghost use Rattle.closing.specs.Views.{most_view_of_a_script, StepSuspectsUpTo};
ghost use Rattle.playing.specs.Manners.{Apart};
ghost use Rattle.playing.specs.Played.{HaltsAs, HasPlayed};

use app_core::App;
use closing::ClosingOutcome;
use journal::{Gate, Stable, Turn};
use players::Body;
use running::{Halt, run_threads};
use std::alloc::Global;
use std::sync::Wait;
use std::thread::Threads;
use world::World;

/// A world that has played its script and is at rest, how its closing ended, and how many entries the script made.
#[derive(Drop)]
pub struct Rested<B: Body, A: App> {
    pub world: World<B, A>,
    pub closed: ClosingOutcome,
    pub script: usize,
}

/// Does the steps of a script in a world with an empty journal, each actor its own in a thread of its own, and brings the world
/// to rest. No step suspects a view above 4,000,000,000 (`most_view_of_a_script`).
pub fn play_apart<
    B: Body + Send,
    A: App + Send,
    W: Stable + Drop + Send,
    G: Gate + Sync,
    R: Threads + Wait + Sync,
>(
    rt: &R,
    alloc: Global,
    gate: &G,
    world: World<B, A>,
    stables: &mut Vec<W>,
    steps: &[Turn],
) -> Result<Rested<B, A>, Halt<B, A>>
where
    B::Bag: Send,
    requires holds { (kinds : List ℕ) × Holds A.law B.sealing world kinds }
    requires pairs { PairsStand W.saving stables.old.items world.controllers }
    requires rests { world.owed ≡ None }
    requires fresh { world.journal ≡ [] }
    requires named { AllByRecursion (λ t. IsActor world.setup (turn_actor t)) steps.now }
    requires views { AllByRecursion (λ t. StepSuspectsUpTo most_view_of_a_script t) steps.now }
    ensures keeps { IfOk result (λ r. Keeps A.law W.saving B.sealing world stables.old.items r.world stables.new.items) }
    ensures rests { IfOk result (λ r. r.world.owed ≡ None) }
    ensures within { IfOk result (λ r. IsWithinLimits B.sealing.size (past r.world.journal)) }
    ensures played { ForEachScene A.law B.sealing world (λ scene. IfOk result (λ r. HasPlayed Apart scene steps.now r.script r.closed r.world)) }
    ensures up { IfOk result (λ r. HasMajority r.closed world r.world) }
    ensures halts { (kinds : List ℕ) → Holds A.law B.sealing world kinds → IfErr result (λ halt.
        HaltsAs A.law W.saving B.sealing steps.now kinds world stables.old.items stables.new.items halt.played halt.stop) }
{
    let mut world = run_threads::<B, A, W, G, R>(rt, alloc, gate, world, stables, steps)?;
    let script = world.len();
    let ended = closing::run(alloc, &mut world, stables);
    world.lawful();
    match ended {
        Ok(closed) => Ok(Rested {
            world,
            closed,
            script,
        }),
        Err(stop) => Err(Halt::of(stop, world)),
    }
}
