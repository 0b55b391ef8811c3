//! A run that goes on behind turns that find no memory: the run of a scenario, one of whose controllers finds none for one of its
//! events. It comes to rest, and the audit holds what its switches did against one controller that never fails.
ghost use Rattle.std.specs.Prelude.{◌<◌, ℕ, List, length, IfSome};
ghost use Rattle.std.specs.List.{AllByRecursion};
ghost use Rattle.journal.specs.Actors.{IsActor};
ghost use Rattle.journal.specs.Turns.{turn_actor};
ghost use Rattle.world.specs.World.{Holds, Keeps, PairsStand};
ghost use Rattle.scenario.specs.Scenario.{IsScenario};

use crate::wanting::{Wanting, app_of, shelves_of};
use app_core::App;
use audit::{Verdict, check};
use cases::Difference;
use closing::{ClosingOutcome, may_close};
use journal::{Head, MemorySink, MemoryStable, Stable, Stop, Turn};
use of_types::Octets;
use players::{Body, Bytes};
use report::write_report;
use scenario::{Scenario, read_scenario};
use std::alloc::{AllocError, Global};
use top_call::stables;
use world::World;
use world_record::record_of;

/// How a run came out: its switches did what one controller that never fails issues, and so many inputs were refused; or it differs.
#[derive(Drop)]
enum Outcome {
    Same { refused: u64 },
    Differs,
}

/// How often a closing may find no memory.
const ATTEMPTS: usize = 8;

/// What a run lacks.
const NO_SCENARIO: Difference = Difference::Row("a scenario");

const NOT_REFUSED: Difference = Difference::Row("an input that is refused for want of memory");

const NOT_SOUND: Difference = Difference::Row("a rest at which its report is sound");

/// Takes the steps in order, and goes on behind those that find no memory.
fn take_steps<B: Body, A: App, W: Stable>(
    world: &mut World<B, A>,
    stables: &mut [W],
    steps: &[Turn],
) -> Result<(), Stop>
    requires holds { (kinds : List ℕ) × Holds A.law B.sealing world.old kinds }
    requires pairs { PairsStand W.saving stables.old world.old.controllers }
    requires named { AllByRecursion (λ t. IsActor world.old.setup (turn_actor t)) steps.now }
    ensures { Keeps A.law W.saving B.sealing world.old stables.old world.new stables.new }
{
    for step in steps {
        match world.apply(stables, step) {
            Ok(()) | Err(Stop::OutOfMemory) => {}
            Err(full) => return Err(full),
        }
    }
    Ok(())
}

/// Brings a world to rest, and begins again where that finds no memory. Tells who is primary then, if anybody is.
fn come_to_rest<B: Body, A: App, W: Stable>(
    alloc: Global,
    world: &mut World<B, A>,
    stables: &mut [W],
) -> Option<u8>
    requires holds { (kinds : List ℕ) × Holds A.law B.sealing world.old kinds }
    requires pairs { PairsStand W.saving stables.old world.old.controllers }
    ensures { IfSome result (λ primary. primary < length world.new.controllers) }
{
    'attempts: for _ in 0..ATTEMPTS {
        if !may_close(world) {
            return None;
        }
        match closing::run(alloc, world, stables) {
            Ok(ClosingOutcome::Done { primary }) => return Some(primary),
            Err(Stop::OutOfMemory) => {}
            _ => return None,
        }
    }
    None
}

/// How many inputs were refused.
fn count_refused(entries: &[Head]) -> u64 {
    let refused = entries
        .iter()
        .filter(|entry| matches!(entry, Head::Refused { .. }));
    refused.count() as u64
}

/// The report of a world without its journal.
fn bare_report(
    alloc: Global,
    world: World<Bytes, Wanting>,
    primary: u8,
) -> Result<Octets, AllocError>
    requires { primary < length world.controllers }
{
    let mut told = record_of(alloc, world, primary, 0, 0)?;
    let mut sink = MemorySink::new(alloc, usize::MAX, Vec::new(alloc));
    match write_report(alloc, &mut told.record, &mut sink) {
        Ok(()) => Octets::from_slice(alloc, sink.taken()),
        Err(_) => Err(AllocError),
    }
}

/// Whether the audit finds nothing in the report of a world, by its committed log and its switches.
fn is_sound(alloc: Global, world: World<Bytes, Wanting>, primary: u8) -> Result<bool, AllocError>
    requires { primary < length world.controllers }
{
    let report = bare_report(alloc, world, primary)?;
    let verdict = check(alloc, report, &mut app_of(alloc, None)?)?;
    Ok(verdict == Verdict::Same)
}

/// Plays these steps in a world, and brings it to rest.
fn play_in<W: Stable>(
    alloc: Global,
    world: World<Bytes, Wanting>,
    stables: &mut [W],
    steps: &[Turn],
) -> Result<Outcome, AllocError>
    requires holds { (kinds : List ℕ) × Holds ⟦<Wanting as App>⟧.law ⟦<Bytes as Body>⟧.sealing world kinds }
    requires pairs { PairsStand W.saving stables.old world.controllers }
    requires named { AllByRecursion (λ t. IsActor world.setup (turn_actor t)) steps.now }
{
    let mut world = world;
    if take_steps(&mut world, stables, steps).is_err() {
        return Ok(Outcome::Differs);
    }
    let refused = count_refused(world.heads());
    let Some(primary) = come_to_rest(alloc, &mut world, stables) else {
        return Ok(Outcome::Differs);
    };
    if is_sound(alloc, world, primary)? {
        Ok(Outcome::Same { refused })
    } else {
        Ok(Outcome::Differs)
    }
}

/// Plays a scenario whose controller of a number finds no memory once it has taken so many events.
fn play(
    alloc: Global,
    scenario: &Scenario,
    controller: u8,
    events: u64,
) -> Result<Outcome, AllocError>
    requires { IsScenario scenario.now }
{
    let shelves = shelves_of(alloc, scenario.setup.controllers, controller, events)?;
    let mut stables: Vec<MemoryStable> = stables(alloc)?;
    let world = World::<Bytes, Wanting>::new(alloc, &scenario.setup, shelves)?;
    let steps = scenario.steps.as_slice();
    play_in(alloc, world, stables.as_mut_slice(), steps)
}

/// Plays the scenario of these bytes so, and tells what it lacks. One that takes no event finds no memory for the first that it
/// hears of.
pub fn go_on(alloc: Global, bytes: &[u8], controller: u8, events: u64) -> Result<(), Difference> {
    let Ok(scenario) = read_scenario(alloc, bytes) else {
        return Err(NO_SCENARIO);
    };
    match play(alloc, &scenario, controller, events)? {
        Outcome::Same { refused: 0 } if events == 0 => Err(NOT_REFUSED),
        Outcome::Same { .. } => Ok(()),
        Outcome::Differs => Err(NOT_SOUND),
    }
}
