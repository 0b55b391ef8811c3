//! The program: plays the cases that an index names, each a call of the whole program with its ends in memory, and tells
//! those that differ.
#![tactic(auto)]

mod counting;
mod index;
mod meeting;
mod play;
mod refusals;
mod serving;
mod wanting;

use crate::index::play_index;
use cases::Tally;
use std::process::ExitCode;
use std::{env, io};

/// Plays the index that each word names, and tells whether all is as it is to be.
fn main(rt: HostRuntime) -> io::Result<ExitCode> {
    let mut tally = Tally::new();
    for path in env::args(&rt)?.skip(1) {
        play_index(&rt, path.as_str(), &mut tally)?;
    }
    tally.print(&rt)?;
    if tally.is_sound() {
        Ok(ExitCode::SUCCESS)
    } else {
        Ok(ExitCode::FAILURE)
    }
}
