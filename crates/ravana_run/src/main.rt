//! The program: plays a scenario and writes its report, or audits a report.
#![tactic(auto)]

use app_core::Part;
use app_upgrade::Slot;
use command_line::{NO_MEMORY, words_of};
use firewall_app::Firewall;
use journal::{FreeGate, Sink, Source, StdSink, StdSource};
use std::alloc::{AllocError, Global};
use std::io::ErrorKind;
use std::process::ExitCode;
use std::sync::Wait;
use std::thread::Threads;
use top_call::{CONTROLLERS, LIVES, Remains, push_life, ravana, stables};

/// Serves the words, with these ends. Each life of each controller runs a firewall before a slot of all versions: a learning, a
/// hub, a learning that pins, one whose rows age, and shortest paths.
fn serve<S: Source, K: Sink, R: Threads + Wait + Sync>(
    rt: &R,
    alloc: Global,
    words: &[String],
    source: &mut S,
    sink: &mut K,
) -> Result<u8, AllocError> {
    let mut stables = stables(alloc)?;
    let mut chains = Vec::with_capacity(alloc, CONTROLLERS * LIVES)?;
    'making: for number in 0..(CONTROLLERS * LIVES) as u8 {
        let mut parts: Vec<Box<dyn Part + Send>> = Vec::with_capacity(alloc, 2)?;
        parts.push(Box::new(alloc, Firewall::new(alloc))?)?;
        parts.push(Box::new(alloc, Slot::unstarted(alloc))?)?;
        push_life(&mut chains, number, parts)?;
    }
    Ok(ravana(
        rt,
        alloc,
        &FreeGate,
        words,
        source,
        sink,
        &mut stables,
        chains,
        Remains::Left,
    ))
}

/// A faulty command line is served as one of no words.
fn main(rt: HostRuntime) -> ExitCode {
    let alloc = rt.alloc();
    let words = match words_of(&rt) {
        Ok(words) => words,
        Err(error) if error.kind() == ErrorKind::OutOfMemory => return ExitCode::from(NO_MEMORY),
        Err(_) => Vec::new(alloc),
    };
    let mut source = StdSource::new(rt.stdin());
    let mut sink = StdSink::new(rt.stdout());
    let served = serve(&rt, alloc, &words, &mut source, &mut sink);
    ExitCode::from(served.unwrap_or(NO_MEMORY))
}
