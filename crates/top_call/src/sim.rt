//! Playing a scenario from its first step to its report.
ghost use Rattle.std.specs.Prelude.{◌≡◌, ◌<◌, ◌≤◌, ℕ, List, length, IfOk};
ghost use Rattle.world.specs.World.{AreStocked};
ghost use Rattle.playing.specs.Manners.{In_order, Apart};
ghost use Rattle.journal.specs.Entries.{Tile};
ghost use Rattle.world_record.specs.Told.{whole_record};
ghost use Rattle.world_record.specs.Shows.{told_by};
ghost use Rattle.scenario.specs.Scenario.{IsScenario};
ghost use Rattle.top_call.specs.declared.sim.Output.TheVariants as told_as;
ghost use Rattle.top_call.specs.Ending.{EndsRun};
ghost use Rattle.report.specs.Fits.{FitsRecord};
ghost use Rattle.report.specs.Report.{text};
ghost use Rattle.top_call.specs.Play.{AreFresh, IfDone, IfReport, StopsAs, ending_by, told_text};
ghost use Rattle.top_call.specs.Runs.{StablesStay, StablesTell};

use crate::ending::Ending;
use crate::remains::Remains;
use app_core::App;
use closing::ClosingOutcome;
use journal::{Gate, Stable, Stop};
use players::Bytes;
use playing::{play, play_apart};
use report::{ReportText, journal_fits, last_line, record_fits, text_of_run};
use scenario::Scenario;
use std::alloc::{AllocError, Global};
use std::sync::Wait;
use std::thread::Threads;
use world::World;
use world_record::{ToldRun, record_of, sums_of};

/// What is told of a run that came to rest: its report, or the report's last line alone.
#[derive(Clone, Copy)]
pub enum Output {
    Report,
    LastLine,
}

impl Output {
    /// What is told of a world, with the log of a primary, and with so many steps of a script, which made so many of
    /// its entries.
    fn text_of<A: App>(
        self,
        alloc: Global,
        world: World<Bytes, A>,
        primary: u8,
        steps: usize,
        script: usize,
        remains: Remains,
    ) -> Result<ReportText, AllocError>
        requires led { primary < length world.controllers }
        requires script { script ≤ length world.journal }
        ensures text { IfOk result (λ made. made ≡ told_text self (told_by world primary steps script)) }
        ensures fits { IfOk result (λ _. IfReport self (FitsRecord (told_by world primary steps script))) }
    {
        match self {
            Output::Report => {
                let told = record_of(alloc, world, primary, steps, script)?;
                tell_run(alloc, told, remains)
            }
            Output::LastLine => {
                let sums = sums_of(&world, primary, steps, script);
                remains.let_go(world);
                last_line(alloc, &sums)
            }
        }
    }
}

/// The report of a run, whose memory is let go.
fn tell_run<A: App>(
    alloc: Global,
    told: ToldRun<A>,
    remains: Remains,
) -> Result<ReportText, AllocError>
    requires { Tile 0 told.heads.items (length told.letters) }
    ensures text { IfOk result (λ made. made ≡ text (whole_record told)) }
    ensures fits { FitsRecord (whole_record told) }
{
    let ToldRun {
        record,
        mut heads,
        mut letters,
        actors,
    } = told;
    remains.let_go(actors);
    record_fits(&record);
    journal_fits(&heads, &letters);
    let made = text_of_run(alloc, &record, &mut heads, &mut letters);
    remains.let_go(record);
    remains.let_go(heads);
    remains.let_go(letters);
    made
}

/// How a call ends by the end of a closing.
fn rested<A: App>(
    alloc: Global,
    world: World<Bytes, A>,
    output: Output,
    ended: ClosingOutcome,
    steps: usize,
    script: usize,
    remains: Remains,
) -> Result<Ending, AllocError>
    requires led { IfDone ended (λ primary. primary < length world.controllers) }
    requires script { script ≤ length world.journal }
    ensures ending { IfOk result (λ ending. ending ≡ ending_by ended (λ primary. told_text output (told_by world primary steps script))) }
    ensures fits { IfOk result (λ _. IfDone ended (λ primary. IfReport output (FitsRecord (told_by world primary steps script)))) }
{
    match ended {
        ClosingOutcome::Done { primary } => {
            let words = output.text_of(alloc, world, primary, steps, script, remains)?;
            Ok(Ending::Report(words))
        }
        ClosingOutcome::NoQuorum { up, needed } => {
            remains.let_go(world);
            Ok(Ending::NoQuorum { up, needed })
        }
        ClosingOutcome::Overfull(limit) => {
            remains.let_go(world);
            Ok(Ending::Overfull(limit))
        }
    }
}

/// How a call ends where playing stopped.
fn stopped(stop: Stop) -> Result<Ending, AllocError>
    ensures { IfOk result (λ ending. StopsAs stop ending) }
{
    match stop {
        Stop::OutOfMemory => Err(AllocError),
        Stop::JournalFull { bytes, letters } => Ok(Ending::Unposted { bytes, letters }),
    }
}

/// Plays a scenario turn by turn, with the applications of the lives of each controller.
pub fn simulate<A: App, W: Stable>(
    alloc: Global,
    scenario: Scenario,
    output: Output,
    stables: &mut [W],
    shelves: Vec<Vec<A>>,
    remains: Remains,
) -> Result<Ending, AllocError>
    requires is { IsScenario scenario }
    requires each { length shelves.items ≡ scenario.setup.controllers }
    requires stocked { (kinds : List ℕ) × AreStocked A.law kinds shelves.items }
    requires fresh { AreFresh W.saving stables.old }
    ensures ends { (kinds : List ℕ) → AreStocked A.law kinds shelves.items →
        IfOk result (EndsRun In_order kinds (StablesTell W.saving stables.old stables.new) output scenario) }
    ensures stay { StablesStay W.saving stables.old stables.new }
{
    let Scenario { setup, steps } = scenario;
    let mut world = World::<Bytes, A>::new(alloc, &setup, shelves)?;
    let count = steps.len();
    let ended = play(alloc, &mut world, stables, steps);
    world.lawful();
    match ended {
        Ok((closed, script)) => rested(alloc, world, output, closed, count, script, remains),
        Err(stop) => {
            remains.let_go(world);
            stopped(stop)
        }
    }
}

/// The same with each actor in a thread of its own. What is told is the report.
pub fn simulate_apart<
    A: App + Send,
    W: Stable + Drop + Send,
    G: Gate + Sync,
    R: Threads + Wait + Sync,
>(
    rt: &R,
    alloc: Global,
    gate: &G,
    scenario: &Scenario,
    stables: &mut Vec<W>,
    shelves: Vec<Vec<A>>,
    remains: Remains,
) -> Result<Ending, AllocError>
    requires is { IsScenario scenario.now }
    requires each { length shelves.items ≡ scenario.now.setup.controllers }
    requires stocked { (kinds : List ℕ) × AreStocked A.law kinds shelves.items }
    requires fresh { AreFresh W.saving stables.old.items }
    ensures ends { (kinds : List ℕ) → AreStocked A.law kinds shelves.items →
        IfOk result (EndsRun Apart kinds (StablesTell W.saving stables.old.items stables.new.items) told_as.Report scenario.now) }
    ensures stay { StablesStay W.saving stables.old.items stables.new.items }
{
    let world = World::<Bytes, A>::new(alloc, &scenario.setup, shelves)?;
    match play_apart(rt, alloc, gate, world, stables, scenario.steps.as_slice()) {
        Ok(rest) => {
            let steps = scenario.steps.len();
            rested(
                alloc,
                rest.world,
                Output::Report,
                rest.closed,
                steps,
                rest.script,
                remains,
            )
        }
        Err(halt) => {
            let stop = halt.stop;
            drop(halt);
            stopped(stop)
        }
    }
}
