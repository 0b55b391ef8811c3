//! What is wanted of a call.

use crate::call::Answer;
use crate::difference::{Difference, shown};
use std::alloc::Global;

/// Lines in succession. One that begins or ends in two dots may have more there.
pub type Passage = Vec<String>;

/// What is wanted of a call.
#[derive(Drop)]
pub struct Wanted {
    pub status: u8,
    /// How many saves fail, where that is told.
    pub failed_saves: Option<u64>,
    /// All that is written.
    pub whole: Option<String>,
    /// The last line of it.
    pub last: Option<String>,
    /// What stands somewhere in it.
    pub passages: Vec<Passage>,
}

impl Wanted {
    /// The first thing in which an answer differs, if any.
    pub fn check(&self, alloc: Global, answer: &Answer) -> Result<(), Difference> {
        let Ok(text) = str::from_utf8(answer.written.as_slice()) else {
            return Err(Difference::NotText);
        };
        if let Some(whole) = &self.whole {
            check_whole(alloc, text, whole.as_str())?;
        }
        if let Some(last) = &self.last {
            check_last(alloc, text, last.as_str())?;
        }
        for passage in &self.passages {
            check_passage(alloc, text, passage)?;
        }
        if answer.status != self.status {
            return Err(Difference::Status {
                found: answer.status,
                wanted: self.status,
            });
        }
        match self.failed_saves {
            Some(wanted) if wanted != answer.failed_saves => Err(Difference::FailedSaves {
                found: answer.failed_saves,
                wanted,
            }),
            _ => Ok(()),
        }
    }
}

/// Compares line by line.
fn check_whole(alloc: Global, text: &str, whole: &str) -> Result<(), Difference> {
    let mut wanted = whole.split('\n');
    let mut number = 1usize;
    for line in text.split('\n') {
        let next = wanted.next();
        if next != Some(line) {
            return Err(Difference::Line {
                number,
                found: shown(alloc, Some(line))?,
                wanted: shown(alloc, next)?,
            });
        }
        number = number.saturating_add(1);
    }
    match wanted.next() {
        None => Ok(()),
        next => Err(Difference::Line {
            number,
            found: None,
            wanted: shown(alloc, next)?,
        }),
    }
}

fn check_last(alloc: Global, text: &str, last: &str) -> Result<(), Difference> {
    let found = text.lines().last();
    if found == Some(last) {
        return Ok(());
    }
    Err(Difference::LastLine {
        found: shown(alloc, found)?,
        wanted: shown(alloc, Some(last))?,
    })
}

/// Whether a line is as one of a passage says.
fn is_like(line: &str, pattern: &str) -> bool {
    match (pattern.strip_prefix(".."), pattern.strip_suffix("..")) {
        (Some(end), _) => line.ends_with(end),
        (None, Some(front)) => line.starts_with(front),
        (None, None) => line == pattern,
    }
}

fn check_passage(alloc: Global, text: &str, passage: &[String]) -> Result<(), Difference> {
    let lines: Vec<&str> = text.lines().collect(alloc)?;
    let is_shown = lines.windows(passage.len().max(1)).any(|run| {
        run.iter()
            .zip(passage)
            .all(|(line, pattern)| is_like(line, pattern.as_str()))
    });
    if is_shown {
        return Ok(());
    }
    Err(Difference::NotShown {
        first: shown(alloc, passage.first().map(String::as_str))?,
    })
}
