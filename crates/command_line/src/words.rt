//! The words of a command line: how they are read, and what the program is asked to do by them.
ghost use Rattle.std.specs.Prelude.{◌≡◌, ◌≤◌, ◌<◌, map, string_bytes};
ghost use Rattle.std.specs.Result.{result_ok};
ghost use Rattle.command_line.specs.Words as said;

use numerals::numeral;
use std::io::ErrorKind;
use std::{env, io};

/// What the program is asked to do.
#[derive(Clone, Copy, PartialEq, Eq, Debug)]
pub enum Job {
    /// To read a scenario, play it turn by turn and report the run.
    Sim,
    /// To read a scenario, play it with a thread for each actor and report the run.
    Run,
    /// To read a report and tell whether it holds.
    Audit,
    /// To make a scenario, play it and tell the last line of its report.
    Gen {
        number: u32,
        controllers: u8,
        switches: u8,
        frames: u32,
    },
}

/// Why words are not accepted.
#[derive(Clone, Copy, PartialEq, Eq, Debug)]
pub enum WordsFault {
    /// They are none of the lists of words that the program takes.
    Usage,
}

/// The words behind the program's name. One that is no text is an error.
pub fn words_of(rt: &HostRuntime) -> io::Result<Vec<String>> {
    let mut words = Vec::new(rt.alloc());
    for word in env::args(rt)?.skip(1) {
        words.push(word)?;
    }
    Ok(words)
}

/// The same, but words of which one is no text are given as one empty word. Only want of memory is an error.
pub fn accepted_words(rt: &HostRuntime) -> io::Result<Vec<String>> {
    match words_of(rt) {
        Err(error) if error.kind() != ErrorKind::OutOfMemory => {
            Ok(vec![in rt.alloc(); String::new(rt.alloc())]?)
        }
        words => words,
    }
}

/// What the program is asked to do by the words behind its name: exactly `sim`, `run`, `audit`, or
/// `gen NUMBER CONTROLLERS SWITCHES FRAMES`, in which the four are decimal numerals without leading zeros,
/// of a number below 4,294,967,296, of 1, 3, 5 or 7, of 1 to 64, and of 0 to 2,048.
///
/// # Errors
///
/// `Usage` exactly where the words are any others.
pub fn read_words(words: &[String]) -> Result<Job, WordsFault>
    ensures { result_ok result ≡ said.job_of (map string_bytes words.now) }
{
    job_of(words).ok_or(WordsFault::Usage)
}

/// A number within bounds, as a numeral.
fn number_within(low: u32, high: u32, word: &str) -> Option<u32>
    ensures { result ≡ said.word_within low high word.now }
{
    let number = numeral(word.as_bytes(), 1 << 32)?;
    if (u64::from(low)..=u64::from(high)).contains(&number) {
        Some(number as u32)
    } else {
        None
    }
}

/// How many controllers there are.
fn group_of(word: &str) -> Option<u8>
    ensures { result ≡ said.group_in_words word.now }
{
    let number = number_within(1, 7, word)?;
    if matches!(number, 1 | 3 | 5 | 7) {
        Some(number as u8)
    } else {
        None
    }
}

/// What the generator is given.
fn generator_of(number: &str, controllers: &str, switches: &str, frames: &str) -> Option<Job>
    ensures { result ≡ said.generator_of number.now controllers.now switches.now frames.now }
{
    let number = number_within(0, u32::MAX, number)?;
    let controllers = group_of(controllers)?;
    let switches = number_within(1, 64, switches)? as u8;
    let frames = number_within(0, 2048, frames)?;
    Some(Job::Gen {
        number,
        controllers,
        switches,
        frames,
    })
}

/// The job of one word.
fn plain_job(word: &str) -> Option<Job>
    ensures { result ≡ said.plain_job word.now }
{
    match word {
        "sim" => Some(Job::Sim),
        "run" => Some(Job::Run),
        "audit" => Some(Job::Audit),
        _ => None,
    }
}

/// The job of these words, if they are accepted.
fn job_of(words: &[String]) -> Option<Job>
    ensures { result ≡ said.job_of (map string_bytes words.now) }
{
    match words {
        [word] => plain_job(word.as_str()),
        [word, number, controllers, switches, frames] if word.as_str() == "gen" => generator_of(
            number.as_str(),
            controllers.as_str(),
            switches.as_str(),
            frames.as_str(),
        ),
        _ => None,
    }
}
