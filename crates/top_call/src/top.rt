//! The top call.
ghost use Rattle.std.specs.Prelude.{◌≡◌, ◌≢◌, ◌≤◌, ℕ, List, map, string_bytes, Contains, IfOk, OnErr};
ghost use Rattle.journal.specs.Causes.{Rose};
ghost use Rattle.command_line.specs.Words.{job_of};
ghost use Rattle.scenario.specs.Scenario.{IsScenario};
ghost use Rattle.playing.specs.Manners.{In_order, Apart};
ghost use Rattle.top_call.specs.declared.service.Reader.TheVariants as readers;
ghost use Rattle.top_call.specs.declared.sim.Output.TheVariants as told_as;
ghost use Rattle.top_call.specs.Call.{ForChains, IsAnswered, IsCompleted, IsMadeOfNumbers, stream};
ghost use Rattle.top_call.specs.Outcome.{IsOneLine, IsWritten, IsUnserved, IsAudit, IsOfFourNumbers, AsksToPlay, IsUnplayed, PlaysNothing, ReadsNothing, service_for, statuses, statuses_of_usage, statuses_of_audit, statuses_of_made, statuses_of_played};
ghost use Rattle.top_call.specs.Ending.{ending_status, EndsRead, EndsScenario, EndsRun};
ghost use Rattle.top_call.specs.Cause.{HasEndingCause, IsOfNumbers, TellsCause};
ghost use Rattle.top_call.specs.Play.{AreChains, AreFresh};
ghost use Rattle.top_call.specs.Runs.{AreCalm, StablesStay, StablesTell};

use crate::auditing::audited;
use crate::ending::Ending;
use crate::remains::Remains;
use crate::service::{Reader, Service};
use crate::shelves::shelves_of;
use crate::sim::{Output, simulate, simulate_apart};
use app_core::App;
use command_line::{NO_MEMORY, WRITE_FAILED, read_words};
use journal::{Gate, Sink, Source, Stable};
use of_types::Octets;
use scenario::{Scenario, ScenarioFault, generate, read_scenario};
use std::alloc::{AllocError, Global};
use std::sync::Wait;
use std::thread::Threads;
use streams::{StreamFault, read_input};

/// Serves one call. `sim` reads a scenario from the source, plays it turn by turn, brings it to rest and writes its report;
/// `run` does the same with a thread for each actor, which passes the gate before each of its turns; `gen` does it with the
/// scenario that its numbers make, turn by turn, and writes the report's last line; `audit` reads a report and tells whether a
/// line differs, and which. Else one line tells why not. It answers the status.
///
/// The words are those behind the program's name. There are seven stable pairs, and the applications of the sixteen lives
/// of seven controllers, in order and all of the same kinds: a group of fewer leaves the rest alone. Only at the word `run` does
/// it start threads or wait. What it played is let go as the caller says.
pub fn ravana<
    A: App + Send,
    S: Source,
    K: Sink,
    W: Stable + Drop + Send,
    G: Gate + Sync,
    R: Threads + Wait + Sync,
>(
    rt: &R,
    alloc: Global,
    gate: &G,
    words: &[String],
    source: &mut S,
    sink: &mut K,
    stables: &mut Vec<W>,
    chains: Vec<A>,
    remains: Remains,
) -> u8
    requires chains { (kinds : List ℕ) × AreChains A.law kinds chains.items }
    requires fresh { AreFresh W.saving stables.old.items }
    ensures answer { ForChains A.law chains.items (λ kinds. IsAnswered kinds (StablesTell W.saving stables.old.items stables.new.items) (map string_bytes words.now) (stream S.left S.faults source.old source.new) (stream K.taken K.faults sink.old sink.new) result) }
    ensures usage { result ≡ 2 → IsUnserved (map string_bytes words.now) }
    ensures words { IsUnserved (map string_bytes words.now) → Contains statuses_of_usage result }
    ensures audit { IsAudit (map string_bytes words.now) → Contains statuses_of_audit result }
    ensures complete { ForChains A.law chains.items (λ kinds. IsCompleted kinds (map string_bytes words.now) (stream S.left S.faults source.old source.new) (stream K.taken K.faults sink.old sink.new) (AreCalm W.saving stables.old.items stables.new.items) result) }
    ensures made { IsOfFourNumbers (map string_bytes words.now) → Contains statuses_of_made result }
    ensures played { AsksToPlay (map string_bytes words.now) → Contains statuses_of_played result }
    ensures unread { result ≡ 4 → Rose (S.faults source.old) (S.faults source.new) }
    ensures unwritten { result ≡ 5 → Rose (K.faults sink.old) (K.faults sink.new) }
    ensures range { Contains statuses result }
    ensures later_read { S.faults source.old ≤ S.faults source.new }
    ensures later_write { K.faults sink.old ≤ K.faults sink.new }

    // A call that failed is not tried again.
    ensures every_write { result ≢ 5 → K.faults sink.new ≡ K.faults sink.old }
    ensures every_read { result ≢ 4 → result ≢ 5 → S.faults source.new ≡ S.faults source.old }

    // What is not asked for is not touched.
    ensures unasked { ReadsNothing (map string_bytes words.now) → source.new ≡ source.old }
    ensures unplayed { PlaysNothing (map string_bytes words.now) → stables.new.items ≡ stables.old.items }
    ensures untouched { IsUnplayed result → stables.new.items ≡ stables.old.items }

    // Whatever the answer is, 6 too.
    ensures stay { StablesStay W.saving stables.old.items stables.new.items }

    // What needs nothing of a source: these lines and the words of a made scenario.
    ensures lines { IsWritten (K.taken sink.old) (K.taken sink.new) (IsOneLine result) }
    ensures numbers { ForChains A.law chains.items (λ kinds. IsMadeOfNumbers kinds (StablesTell W.saving stables.old.items stables.new.items) (map string_bytes words.now) (stream S.left S.faults source.old source.new) (stream K.taken K.faults sink.old sink.new) result) }
{
    let Ok(ending) = outcome(rt, alloc, gate, words, source, stables, chains, remains) else {
        return NO_MEMORY;
    };
    let status = ending.status();
    let Ok(text) = ending.into_text(alloc) else {
        return NO_MEMORY;
    };
    match text.write_to(sink) {
        Ok(()) => status,
        Err(_) => WRITE_FAILED,
    }
}

/// What serves the job that words ask for.
fn service_for(words: &[String]) -> Option<Service>
    ensures { result ≡ service_for (job_of (map string_bytes words.now)) }
{
    match read_words(words) {
        Ok(job) => Some(Service::of(job)),
        Err(_) => None,
    }
}

/// How the run of a scenario ends.
fn end_of_scenario<A: App, W: Stable>(
    alloc: Global,
    scenario: Scenario,
    output: Output,
    stables: &mut Vec<W>,
    chains: Vec<A>,
    remains: Remains,
) -> Result<Ending, AllocError>
    requires is { IsScenario scenario }
    requires chains { (kinds : List ℕ) × AreChains A.law kinds chains.items }
    requires fresh { AreFresh W.saving stables.old.items }
    ensures ends { (kinds : List ℕ) → AreChains A.law kinds chains.items →
        IfOk result (EndsRun In_order kinds (StablesTell W.saving stables.old.items stables.new.items) output scenario) }
    ensures unplayed { IfOk result (λ ending. IsUnplayed (ending_status ending) → stables.new.items ≡ stables.old.items) }
    ensures stay { StablesStay W.saving stables.old.items stables.new.items }
{
    let shelves = shelves_of(alloc, chains, scenario.setup.controllers, remains)?;
    simulate(alloc, scenario, output, stables, shelves, remains)
}

/// How the bytes of a scenario end, played turn by turn.
fn simulated<A: App, W: Stable>(
    alloc: Global,
    bytes: Octets,
    stables: &mut Vec<W>,
    chains: Vec<A>,
    remains: Remains,
) -> Result<Ending, AllocError>
    requires chains { (kinds : List ℕ) × AreChains A.law kinds chains.items }
    requires fresh { AreFresh W.saving stables.old.items }
    ensures ends { (kinds : List ℕ) → AreChains A.law kinds chains.items →
        IfOk result (EndsScenario In_order kinds (StablesTell W.saving stables.old.items stables.new.items) bytes) }
    ensures unplayed { IfOk result (λ ending. IsUnplayed (ending_status ending) → stables.new.items ≡ stables.old.items) }
    ensures stay { StablesStay W.saving stables.old.items stables.new.items }
{
    match read_scenario(alloc, bytes.as_slice()) {
        Ok(scenario) => {
            drop(bytes);
            end_of_scenario(alloc, scenario, Output::Report, stables, chains, remains)
        }
        Err(ScenarioFault::Refused(fault)) => Ok(Ending::Refused(fault)),
        Err(ScenarioFault::OutOfMemory) => Err(AllocError),
    }
}

/// How the run of a scenario ends, with each actor in a thread of its own.
fn end_of_threads<A: App + Send, W: Stable + Drop + Send, G: Gate + Sync, R: Threads + Wait + Sync>(
    rt: &R,
    alloc: Global,
    gate: &G,
    scenario: &Scenario,
    stables: &mut Vec<W>,
    chains: Vec<A>,
    remains: Remains,
) -> Result<Ending, AllocError>
    requires is { IsScenario scenario.now }
    requires chains { (kinds : List ℕ) × AreChains A.law kinds chains.items }
    requires fresh { AreFresh W.saving stables.old.items }
    ensures ends { (kinds : List ℕ) → AreChains A.law kinds chains.items →
        IfOk result (EndsRun Apart kinds (StablesTell W.saving stables.old.items stables.new.items) told_as.Report scenario.now) }
    ensures unplayed { IfOk result (λ ending. IsUnplayed (ending_status ending) → stables.new.items ≡ stables.old.items) }
    ensures stay { StablesStay W.saving stables.old.items stables.new.items }
{
    let shelves = shelves_of(alloc, chains, scenario.setup.controllers, remains)?;
    simulate_apart(rt, alloc, gate, scenario, stables, shelves, remains)
}

/// How the bytes of a scenario end, played with a thread for each actor.
fn simulated_apart<
    A: App + Send,
    W: Stable + Drop + Send,
    G: Gate + Sync,
    R: Threads + Wait + Sync,
>(
    rt: &R,
    alloc: Global,
    gate: &G,
    bytes: Octets,
    stables: &mut Vec<W>,
    chains: Vec<A>,
    remains: Remains,
) -> Result<Ending, AllocError>
    requires chains { (kinds : List ℕ) × AreChains A.law kinds chains.items }
    requires fresh { AreFresh W.saving stables.old.items }
    ensures ends { (kinds : List ℕ) → AreChains A.law kinds chains.items →
        IfOk result (EndsScenario Apart kinds (StablesTell W.saving stables.old.items stables.new.items) bytes) }
    ensures unplayed { IfOk result (λ ending. IsUnplayed (ending_status ending) → stables.new.items ≡ stables.old.items) }
    ensures stay { StablesStay W.saving stables.old.items stables.new.items }
{
    match read_scenario(alloc, bytes.as_slice()) {
        Ok(scenario) => {
            drop(bytes);
            let ending = end_of_threads(rt, alloc, gate, &scenario, stables, chains, remains);
            remains.let_go(scenario);
            ending
        }
        Err(ScenarioFault::Refused(fault)) => Ok(Ending::Refused(fault)),
        Err(ScenarioFault::OutOfMemory) => Err(AllocError),
    }
}

/// How what was read ends.
fn end_of_reading<A: App + Send, W: Stable + Drop + Send, G: Gate + Sync, R: Threads + Wait + Sync>(
    rt: &R,
    alloc: Global,
    gate: &G,
    reader: Reader,
    bytes: Octets,
    stables: &mut Vec<W>,
    chains: Vec<A>,
    remains: Remains,
) -> Result<Ending, AllocError>
    requires chains { (kinds : List ℕ) × AreChains A.law kinds chains.items }
    requires fresh { AreFresh W.saving stables.old.items }
    ensures ends { (kinds : List ℕ) → AreChains A.law kinds chains.items →
        IfOk result (EndsRead kinds (StablesTell W.saving stables.old.items stables.new.items) reader bytes) }
    ensures unplayed { IfOk result (λ ending. IsUnplayed (ending_status ending) → stables.new.items ≡ stables.old.items) }
    ensures stay { StablesStay W.saving stables.old.items stables.new.items }
    ensures audited { reader ≡ readers.Audit → stables.new.items ≡ stables.old.items }
{
    match reader {
        Reader::Sim => simulated(alloc, bytes, stables, chains, remains),
        Reader::Run => simulated_apart(rt, alloc, gate, bytes, stables, chains, remains),
        Reader::Audit => audited(alloc, bytes, chains),
    }
}

/// How a call with these words ends, before anything is written.
fn outcome<
    A: App + Send,
    S: Source,
    W: Stable + Drop + Send,
    G: Gate + Sync,
    R: Threads + Wait + Sync,
>(
    rt: &R,
    alloc: Global,
    gate: &G,
    words: &[String],
    source: &mut S,
    stables: &mut Vec<W>,
    chains: Vec<A>,
    remains: Remains,
) -> Result<Ending, AllocError>
    requires chains { (kinds : List ℕ) × AreChains A.law kinds chains.items }
    requires fresh { AreFresh W.saving stables.old.items }
    ensures cause { (kinds : List ℕ) → AreChains A.law kinds chains.items →
        IfOk result (HasEndingCause kinds (StablesTell W.saving stables.old.items stables.new.items) (map string_bytes words.now)
        (Rose (S.faults source.old) (S.faults source.new)) (S.left source.old) (S.left source.new)) }
    ensures told { IfOk result (TellsCause (map string_bytes words.now)
        (Rose (S.faults source.old) (S.faults source.new)) (S.faults source.new ≡ S.faults source.old)) }
    ensures numbers { (kinds : List ℕ) → AreChains A.law kinds chains.items →
        IfOk result (IsOfNumbers kinds (StablesTell W.saving stables.old.items stables.new.items) (map string_bytes words.now) (Rose (S.faults source.old) (S.faults source.new))) }
    ensures unread { ReadsNothing (map string_bytes words.now) → source.new ≡ source.old }
    ensures unplayed { PlaysNothing (map string_bytes words.now) → stables.new.items ≡ stables.old.items }
    ensures untouched { IfOk result (λ ending. IsUnplayed (ending_status ending) → stables.new.items ≡ stables.old.items) }
    ensures stay { StablesStay W.saving stables.old.items stables.new.items }
    ensures memory { OnErr result (S.faults source.new ≡ S.faults source.old) }
    ensures later { S.faults source.old ≤ S.faults source.new }
{
    match service_for(words) {
        None => Ok(Ending::Usage),
        Some(
            Service::Gen {
                number,
                controllers,
                switches,
                frames,
            },
        ) => {
            let scenario = generate(alloc, number, controllers, switches, frames)?;
            end_of_scenario(alloc, scenario, Output::LastLine, stables, chains, remains)
        }
        Some(Service::Reads(reader)) => match read_input(alloc, source, reader.limit()) {
            Ok(bytes) => {
                end_of_reading(rt, alloc, gate, reader, bytes, stables, chains, remains)
            }
            Err(StreamFault::Failed) => Ok(Ending::Unread),
            Err(StreamFault::OutOfMemory) => Err(AllocError),
        },
    }
}
