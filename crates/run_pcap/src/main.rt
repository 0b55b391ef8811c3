//! The program: reads a report and writes the capture of its run.
#![tactic(auto)]

mod outcome;

use command_line::{NO_MEMORY, accepted_words};
use journal::{StdSink, StdSource};
use std::io;
use std::process::ExitCode;

/// The status of a call with the program's words, input and output.
fn serve(rt: &HostRuntime) -> io::Result<u8> {
    let words = accepted_words(rt)?;
    let mut source = StdSource::new(rt.stdin());
    let mut sink = StdSink::new(rt.stdout());
    Ok(outcome::pcap(rt.alloc(), &words, &mut source, &mut sink))
}

fn main(rt: HostRuntime) -> ExitCode {
    ExitCode::from(serve(&rt).unwrap_or(NO_MEMORY))
}
