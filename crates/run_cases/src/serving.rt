//! Calls of the program, whose ends are in memory.
ghost use Rattle.std.specs.Prelude.{◌≡◌, ℕ, List, IfOk};
ghost use Rattle.app_core.specs.Chain.{learning};
ghost use Rattle.app_upgrade.specs.Versions.{kind_in};
ghost use Rattle.top_call.specs.Play.{AreChains, AreFresh};

use app_core::{App, Part};
use app_upgrade::{Slot, Version, versions_from};
use cases::{Answer, Call, ControllerSave};
use firewall_app::Firewall;
use journal::{FailingSave, FreeGate, Gate, MemorySink, MemorySource, MemoryStable, Stable};
use learning_app::{Learning, PlainLearning};
use of_types::Octets;
use std::alloc::{AllocError, Global};
use std::sync::Wait;
use std::thread::Threads;
use top_call::{CONTROLLERS, LIVES, Remains, push_life, ravana};

/// How a call is played.
#[derive(Clone, Copy)]
pub struct Way {
    /// The most bytes that a read or a write moves.
    pub most: usize,
    /// The number of the read that fails, from 0.
    pub failing_read: Option<u64>,
    /// The number of the write that fails, from 0.
    pub failing_write: Option<u64>,
    /// The controllers from this one on learn in a list at first, and those before it in a map.
    pub lists: usize,
}

/// Reads and writes don't fail, and all controllers learn in maps.
pub const PLAIN: Way = Way {
    most: 65_536,
    failing_read: None,
    failing_write: None,
    lists: CONTROLLERS,
};

/// The status of a call, and what it wrote.
#[derive(Drop)]
pub struct Served {
    pub status: u8,
    pub written: Octets,
}

/// Serves a call in a way.
pub fn serve<R: Threads + Wait + Sync>(
    rt: &R,
    alloc: Global,
    call: &Call,
    way: Way,
) -> Result<Answer, AllocError> {
    serve_at(rt, alloc, &FreeGate, call, way)
}

/// Serves a call in a way, at a gate.
pub fn serve_at<G: Gate + Sync, R: Threads + Wait + Sync>(
    rt: &R,
    alloc: Global,
    gate: &G,
    call: &Call,
    way: Way,
) -> Result<Answer, AllocError> {
    let mut stables = stables(alloc, &call.saves)?;
    let served = serve_by(rt, alloc, gate, call, way, &mut stables)?;
    Ok(Answer {
        status: served.status,
        written: served.written,
        failed_saves: failed_of(&stables),
    })
}

/// Serves a call in a way, at a gate, with these stable pairs. Each controller runs a firewall before a slot.
pub fn serve_by<W: Stable + Drop + Send, G: Gate + Sync, R: Threads + Wait + Sync>(
    rt: &R,
    alloc: Global,
    gate: &G,
    call: &Call,
    way: Way,
    stables: &mut Vec<W>,
) -> Result<Served, AllocError>
    requires { AreFresh W.saving stables.old.items }
{
    let mut chains = Vec::new(alloc);
    'making: for number in 0..(CONTROLLERS * LIVES) as u8 {
        let mut parts: Vec<Box<dyn Part + Send>> = Vec::new(alloc);
        parts.push(Box::new(alloc, Firewall::new(alloc))?)?;
        let first = first_version(alloc, usize::from(number) / LIVES >= way.lists);
        parts.push(Box::new(alloc, Slot::new(versions_from(alloc, first)?))?)?;
        push_life(&mut chains, number, parts)?;
    }
    serve_chains(rt, alloc, gate, call, way, stables, chains)
}

/// The version that a controller runs first: it learns in a list, or in a map.
fn first_version(alloc: Global, in_list: bool) -> Version
    ensures { kind_in result ≡ learning }
{
    if in_list {
        Version::PlainLearning(PlainLearning::new(alloc))
    } else {
        Version::Learning(Learning::new(alloc))
    }
}

/// Serves a call in a way, by these applications.
fn serve_chains<A: App + Send, W: Stable + Drop + Send, G: Gate + Sync, R: Threads + Wait + Sync>(
    rt: &R,
    alloc: Global,
    gate: &G,
    call: &Call,
    way: Way,
    stables: &mut Vec<W>,
    chains: Vec<A>,
) -> Result<Served, AllocError>
    requires chains { (kinds : List ℕ) × AreChains A.law kinds chains.items }
    requires fresh { AreFresh W.saving stables.old.items }
{
    let mut source = source_of(alloc, call, way)?;
    let mut sink = sink_of(alloc, way)?;
    let status = ravana(
        rt,
        alloc,
        gate,
        &call.words,
        &mut source,
        &mut sink,
        stables,
        chains,
        Remains::Freed,
    );
    Ok(Served {
        status,
        written: Octets::from_slice(alloc, sink.taken())?,
    })
}

/// What a call reads, in a way.
fn source_of(alloc: Global, call: &Call, way: Way) -> Result<MemorySource, AllocError> {
    let failing = listed(alloc, way.failing_read)?;
    let bytes = Octets::from_slice(alloc, call.input.as_slice())?;
    Ok(MemorySource::new(bytes, way.most.max(1), failing))
}

/// Where it writes.
fn sink_of(alloc: Global, way: Way) -> Result<MemorySink, AllocError> {
    let failing = listed(alloc, way.failing_write)?;
    Ok(MemorySink::new(alloc, way.most.max(1), failing))
}

/// The one number, if any.
fn listed(alloc: Global, number: Option<u64>) -> Result<Vec<u64>, AllocError> {
    let mut numbers = Vec::new(alloc);
    if let Some(number) = number {
        numbers.push(number)?;
    }
    Ok(numbers)
}

/// The saves of a controller that fail.
fn failing_of(
    alloc: Global,
    saves: &[ControllerSave],
    controller: usize,
) -> Result<Vec<FailingSave>, AllocError> {
    let mut failing = Vec::new(alloc);
    for own in saves {
        if own.controller == controller {
            failing.push(own.save)?;
        }
    }
    Ok(failing)
}

/// The stable pairs of the most controllers.
fn stables(alloc: Global, saves: &[ControllerSave]) -> Result<Vec<MemoryStable>, AllocError>
    ensures { IfOk result (λ stables. AreFresh ⟦<MemoryStable as Stable>⟧.saving stables.items) }
{
    let mut stables = Vec::new(alloc);
    'making: for controller in 0..CONTROLLERS {
        stables.push(MemoryStable::new(failing_of(alloc, saves, controller)?))?;
    }
    Ok(stables)
}

/// How many saves have failed.
fn failed_of(stables: &[MemoryStable]) -> u64 {
    let mut failed = 0u64;
    for stable in stables {
        failed = failed.saturating_add(stable.faults());
    }
    failed
}
