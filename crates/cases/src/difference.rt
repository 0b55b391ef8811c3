//! What differs in a case.

use journal::Actor;
use std::alloc::{AllocError, AllocFailed, Global};
use std::fmt;
use std::io::{self, ErrorKind};

/// The most characters of a line that are told.
const SHOWN: usize = 160;

/// The first thing that differs.
#[derive(Drop)]
pub enum Difference {
    /// A line of what was written, counted from 1. `None` where there is no such line.
    Line {
        number: usize,
        found: Option<String>,
        wanted: Option<String>,
    },
    /// The last line of what was written.
    LastLine {
        found: Option<String>,
        wanted: Option<String>,
    },
    /// Lines in succession, of which this is the first, are nowhere in what was written.
    NotShown {
        first: Option<String>,
    },
    /// What was written is no text.
    NotText,
    /// The status.
    Status {
        found: u8,
        wanted: u8,
    },
    /// How many saves failed.
    FailedSaves {
        found: u64,
        wanted: u64,
    },
    /// How often an actor of `run` passed the gate. `None` where it passed before a turn that was not its next.
    Passes {
        actor: Actor,
        found: Option<u64>,
        wanted: u64,
    },
    /// The audit of the report that was written.
    Audit,
    /// What is written where controllers from this one on learn in lists.
    Lists {
        from: usize,
    },
    /// What is written where reads and writes move so many bytes at most.
    Pieces {
        most: usize,
    },
    /// How the call ends where also the read of this number fails.
    FailingRead {
        most: usize,
        number: usize,
    },
    /// How the call ends where also the write of this number fails.
    FailingWrite {
        most: usize,
        number: usize,
    },
    /// A file that can't be read, or isn't of its form.
    File {
        path: String,
    },
    /// A line that is not of the grammar, or doesn't fit those before it, counted from 1.
    Grammar {
        number: usize,
        line: Option<String>,
    },
    /// What a row as a whole lacks or has too much of.
    Row(&'static str),
    /// There was no memory.
    OutOfMemory,
}

/// A line as it is told.
pub fn shown(alloc: Global, line: Option<&str>) -> Result<Option<String>, AllocError> {
    match line {
        None => Ok(None),
        Some(line) => Ok(Some(line.chars().take(SHOWN).collect(alloc)?)),
    }
}

impl Difference {
    /// That a file can't be read, by the error of reading it.
    pub fn of_file(alloc: Global, path: &str, error: &io::Error) -> Difference {
        if error.kind() == ErrorKind::OutOfMemory {
            return Difference::OutOfMemory;
        }
        match String::from_str(alloc, path) {
            Ok(path) => Difference::File { path },
            Err(AllocError) => Difference::OutOfMemory,
        }
    }
}

impl From<AllocError> for Difference {
    fn from(_error: AllocError) -> Difference {
        Difference::OutOfMemory
    }
}

impl<T: Drop> From<AllocFailed<T>> for Difference {
    fn from(_refused: AllocFailed<T>) -> Difference {
        Difference::OutOfMemory
    }
}

/// A line in quotes, or that there is none.
fn write_line<W: fmt::Write>(f: &mut fmt::Formatter<W>, line: &Option<String>) -> fmt::Result {
    match line {
        Some(line) => write!(f, "{line:?}"),
        None => write!(f, "nothing"),
    }
}

/// Two lines, of which one was found and the other is wanted.
fn write_lines<W: fmt::Write>(
    f: &mut fmt::Formatter<W>,
    found: &Option<String>,
    wanted: &Option<String>,
) -> fmt::Result {
    write_line(f, found)?;
    write!(f, ", wanted ")?;
    write_line(f, wanted)
}

/// A line that differs, by its number.
fn write_numbered<W: fmt::Write>(
    f: &mut fmt::Formatter<W>,
    number: usize,
    found: &Option<String>,
    wanted: &Option<String>,
) -> fmt::Result {
    write!(f, "line {number} is ")?;
    write_lines(f, found, wanted)
}

/// The last line, where it differs.
fn write_last<W: fmt::Write>(
    f: &mut fmt::Formatter<W>,
    found: &Option<String>,
    wanted: &Option<String>,
) -> fmt::Result {
    write!(f, "the last line is ")?;
    write_lines(f, found, wanted)
}

/// The first of lines that are not shown.
fn write_hidden<W: fmt::Write>(f: &mut fmt::Formatter<W>, first: &Option<String>) -> fmt::Result {
    write!(f, "not shown, or not with what stands behind it: ")?;
    write_line(f, first)
}

/// A status that differs.
fn write_status<W: fmt::Write>(f: &mut fmt::Formatter<W>, found: u8, wanted: u8) -> fmt::Result {
    write!(f, "status {found}, wanted {wanted}")
}

/// A number of failed saves that differs.
fn write_saves<W: fmt::Write>(f: &mut fmt::Formatter<W>, found: u64, wanted: u64) -> fmt::Result {
    write!(f, "{found} saves failed, wanted {wanted}")
}

/// A count of passes that differs.
fn write_passes<W: fmt::Write>(
    f: &mut fmt::Formatter<W>,
    actor: Actor,
    found: Option<u64>,
    wanted: u64,
) -> fmt::Result {
    match found {
        Some(found) => write!(
            f,
            "{actor:?} passed the gate {found} times, wanted {wanted}"
        ),
        None => write!(
            f,
            "{actor:?} passed the gate before a turn that was not its next"
        ),
    }
}

/// The read or the write that failed, where a call ends otherwise for it.
fn write_failing<W: fmt::Write>(
    f: &mut fmt::Formatter<W>,
    most: usize,
    call: &str,
    number: usize,
) -> fmt::Result {
    write!(f, "in pieces of {most} bytes, where {call} {number} fails")
}

/// A line that is not of the grammar.
fn write_refused<W: fmt::Write>(
    f: &mut fmt::Formatter<W>,
    number: usize,
    line: &Option<String>,
) -> fmt::Result {
    write!(f, "line {number} is not of the grammar: ")?;
    write_line(f, line)
}

impl fmt::Display for Difference {
    fn fmt<W: fmt::Write>(&self, f: &mut fmt::Formatter<W>) -> fmt::Result {
        match self {
            Difference::Line {
                number,
                found,
                wanted,
            } => write_numbered(f, *number, found, wanted),
            Difference::LastLine { found, wanted } => write_last(f, found, wanted),
            Difference::NotShown { first } => write_hidden(f, first),
            Difference::NotText => write!(f, "no text is written"),
            Difference::Status { found, wanted } => write_status(f, *found, *wanted),
            Difference::FailedSaves { found, wanted } => write_saves(f, *found, *wanted),
            Difference::Passes {
                actor,
                found,
                wanted,
            } => write_passes(f, *actor, *found, *wanted),
            Difference::Audit => write!(f, "the audit of its report differs"),
            Difference::Lists { from } => write!(f, "with lists from controller {from} on"),
            Difference::Pieces { most } => write!(f, "in pieces of {most} bytes"),
            Difference::FailingRead { most, number } => write_failing(f, *most, "read", *number),
            Difference::FailingWrite { most, number } => write_failing(f, *most, "write", *number),
            Difference::File { path } => write!(f, "can't be read: {path}"),
            Difference::Grammar { number, line } => write_refused(f, *number, line),
            Difference::Row(fault) => write!(f, "{fault}"),
            Difference::OutOfMemory => write!(f, "out of memory"),
        }
    }
}
