//! The program: reads files of bytes with the answers that an implementation of its own gives, and tells each line where
//! the codecs answer otherwise.
#![tactic(auto)]

mod answer;
mod case;
mod tally;

use crate::case::{difference, is_remark};
use crate::tally::Tally;
use std::process::ExitCode;
use std::{env, fs, io};

/// Looks at each case of a file. A file that cannot be read differs.
fn check_file(rt: &HostRuntime, name: &str, tally: &mut Tally) -> io::Result<()> {
    let Ok(text) = fs::read_to_string(rt, name) else {
        tally.count(true);
        return println!(rt; "{name}: cannot be read");
    };
    for (place, line) in text.as_str().lines().enumerate() {
        if is_remark(line) {
            continue;
        }
        let difference = difference(rt.alloc(), line)?;
        tally.count(difference.is_some());
        if let Some(difference) = difference {
            println!(rt; "{name}, line {}: {difference}", place.saturating_add(1))?;
        }
    }
    Ok(())
}

/// Looks at each file that the words behind the program's name tell.
fn check_files(rt: &HostRuntime) -> io::Result<Tally> {
    let mut tally = Tally::new();
    for name in env::args(rt)?.skip(1) {
        check_file(rt, name.as_str(), &mut tally)?;
    }
    println!(rt; "{} lines, {} differ", tally.lines(), tally.differing())?;
    Ok(tally)
}

fn main(rt: HostRuntime) -> ExitCode {
    match check_files(&rt) {
        Ok(tally) if tally.is_clean() => ExitCode::SUCCESS,
        _ => ExitCode::FAILURE,
    }
}
