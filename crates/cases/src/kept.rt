//! Cases that are kept in files, a file for each thing that is given or wanted.

use crate::call::{Call, ControllerSave, words_of};
use crate::case::Case;
use crate::difference::{Difference, shown};
use crate::files::{read_bytes, read_text};
use crate::wanted::Wanted;
use of_types::Octets;
use std::alloc::{AllocError, Global};
use std::rt::Files;

/// What a case has besides the text that is wanted, `.out`, and the status, `.status`.
#[derive(Clone, Copy)]
pub enum Kind {
    /// A scenario, `.json`.
    Sim,
    /// A scenario, and the saves that fail in it, `.saves`.
    Saves,
    /// A report to audit, `.report`.
    Audit,
}

impl Kind {
    /// The words of the call, and the end of the name of the file that it reads.
    fn reads(self) -> (&'static str, &'static str) {
        match self {
            Kind::Sim | Kind::Saves => ("sim", ".json"),
            Kind::Audit => ("audit", ".report"),
        }
    }
}

/// Reads a case from its files.
pub fn read_case<R: Files + AllocGlobal>(
    rt: &R,
    kind: Kind,
    path: &str,
) -> Result<Case, Difference> {
    let call = read_call(rt, kind, path)?;
    let wanted = read_wanted(rt, path)?;
    Ok(Case {
        call,
        wanted,
        lists: None,
        pieces: Vec::new(rt.alloc()),
        waits: Vec::new(rt.alloc()),
        passes: Vec::new(rt.alloc()),
    })
}

/// The call of a case.
fn read_call<R: Files + AllocGlobal>(rt: &R, kind: Kind, path: &str) -> Result<Call, Difference> {
    let (words, ending) = kind.reads();
    let saves = match kind {
        Kind::Saves => read_saves(rt, path)?,
        Kind::Sim | Kind::Audit => Vec::new(rt.alloc()),
    };
    let words = words_of(rt.alloc(), words)?;
    let input = read_input(rt, path, ending)?;
    Ok(Call {
        words,
        input,
        saves,
    })
}

/// What the call reads.
fn read_input<R: Files + AllocGlobal>(
    rt: &R,
    path: &str,
    ending: &str,
) -> Result<Octets, Difference> {
    let path = path_of(rt.alloc(), path, ending)?;
    read_bytes(rt, path.as_str())
}

/// The saves that fail in the call.
fn read_saves<R: Files + AllocGlobal>(
    rt: &R,
    path: &str,
) -> Result<Vec<ControllerSave>, Difference> {
    let text = read_part(rt, path, ".saves")?;
    saves_of(rt.alloc(), text.as_str())
}

/// What is wanted of the call.
fn read_wanted<R: Files + AllocGlobal>(rt: &R, path: &str) -> Result<Wanted, Difference> {
    let status = read_status(rt, path)?;
    let whole = read_part(rt, path, ".out")?;
    Ok(Wanted {
        status,
        failed_saves: None,
        whole: Some(whole),
        last: None,
        passages: Vec::new(rt.alloc()),
    })
}

/// The text of one of a case's files.
fn read_part<R: Files + AllocGlobal>(
    rt: &R,
    path: &str,
    ending: &str,
) -> Result<String, Difference> {
    let path = path_of(rt.alloc(), path, ending)?;
    read_text(rt, path.as_str())
}

/// The saves that the lines of a text tell.
fn saves_of(alloc: Global, text: &str) -> Result<Vec<ControllerSave>, Difference> {
    let mut saves = Vec::new(alloc);
    let mut number = 1usize;
    for line in text.lines() {
        let Some(save) = ControllerSave::of(line) else {
            let line = shown(alloc, Some(line))?;
            return Err(Difference::Grammar { number, line });
        };
        saves.push(save)?;
        number = number.saturating_add(1);
    }
    Ok(saves)
}

/// The path of one of a case's files.
fn path_of(alloc: Global, path: &str, ending: &str) -> Result<String, AllocError> {
    let mut whole = String::from_str(alloc, path)?;
    whole.push_str(ending)?;
    Ok(whole)
}

/// The status that is wanted.
fn read_status<R: Files + AllocGlobal>(rt: &R, path: &str) -> Result<u8, Difference> {
    let path = path_of(rt.alloc(), path, ".status")?;
    let text = read_text(rt, path.as_str())?;
    match text.as_str().trim_end().parse() {
        Ok(status) => Ok(status),
        Err(_) => Err(Difference::File { path }),
    }
}
