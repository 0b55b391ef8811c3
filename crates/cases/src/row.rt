//! Rows of a table: cases that stand in one file.

use crate::call::{Call, ControllerSave, words_of};
use crate::case::Case;
use crate::difference::{Difference, shown};
use crate::files::{read_bytes, read_text};
use crate::passing::{Passes, Waits};
use crate::wanted::{Passage, Wanted};
use of_types::Octets;
use std::alloc::{AllocError, Global};
use std::rt::Files;

/// A row as its lines tell it, each by its first word.
#[derive(Drop)]
pub struct Row<'a> {
    name: Option<&'a str>,
    words: Option<&'a str>,
    input: Vec<&'a str>,
    file: Option<&'a str>,
    blanks: Option<u32>,
    saves: Vec<ControllerSave>,
    lists: Option<usize>,
    status: Option<u8>,
    failed: Option<u64>,
    last: Option<&'a str>,
    only: Option<&'a str>,
    whole: Option<&'a str>,
    passages: Vec<Passage>,
    pieces: Vec<usize>,
    waits: Vec<Waits>,
    passes: Vec<Passes>,
}

/// What the name of a row is, or that of its table where it has none.
pub fn name_of<'a>(block: &'a str, table: &'a str) -> &'a str {
    block
        .lines()
        .find_map(|line| line.strip_prefix("name "))
        .unwrap_or(table)
}

/// Reads the case of a row from a block of lines. So many lines stand before it.
pub fn read_row<R: Files + AllocGlobal>(
    rt: &R,
    block: &str,
    before: usize,
) -> Result<Case, Difference> {
    let alloc = rt.alloc();
    let mut row = Row::new(alloc);
    let mut number = before;
    for line in block.lines() {
        number = number.saturating_add(1);
        if !row.take(alloc, line)? {
            let line = shown(alloc, Some(line))?;
            return Err(Difference::Grammar { number, line });
        }
    }
    row.into_case(rt)
}

impl<'a> Row<'a> {
    /// A row of no lines.
    fn new(alloc: Global) -> Row<'a> {
        Row {
            name: None,
            words: None,
            input: Vec::new(alloc),
            file: None,
            blanks: None,
            saves: Vec::new(alloc),
            lists: None,
            status: None,
            failed: None,
            last: None,
            only: None,
            whole: None,
            passages: Vec::new(alloc),
            pieces: Vec::new(alloc),
            waits: Vec::new(alloc),
            passes: Vec::new(alloc),
        }
    }

    /// Takes a line, and tells whether it is of the grammar.
    fn take(&mut self, alloc: Global, line: &'a str) -> Result<bool, AllocError> {
        let (word, text) = line.split_once(' ').unwrap_or((line, ""));
        match word {
            "note" => Ok(true),
            "name" => Ok(put(&mut self.name, Some(text))),
            "words" => Ok(put(&mut self.words, Some(text))),
            "input" => add(&mut self.input, Some(text)),
            "file" => Ok(put(&mut self.file, Some(text))),
            "blanks" => Ok(put(&mut self.blanks, text.parse().ok())),
            "save" => add(&mut self.saves, ControllerSave::of(text)),
            "lists" => Ok(put(&mut self.lists, text.parse().ok())),
            "status" => Ok(put(&mut self.status, text.parse().ok())),
            "failed" => Ok(put(&mut self.failed, text.parse().ok())),
            "last" => Ok(put(&mut self.last, Some(text))),
            "only" => Ok(put(&mut self.only, Some(text))),
            "whole" => Ok(put(&mut self.whole, Some(text))),
            "line" => self.begin_passage(alloc, text),
            "then" => self.go_on(alloc, text),
            "pieces" => add(&mut self.pieces, text.parse().ok()),
            "waits" => add(&mut self.waits, Waits::of(text)),
            "passes" => add(&mut self.passes, Passes::of(text)),
            _ => Ok(false),
        }
    }

    fn begin_passage(&mut self, alloc: Global, line: &str) -> Result<bool, AllocError> {
        let mut passage = Vec::new(alloc);
        passage.push(String::from_str(alloc, line)?)?;
        self.passages.push(passage)?;
        Ok(true)
    }

    fn go_on(&mut self, alloc: Global, line: &str) -> Result<bool, AllocError> {
        let Some(passage) = self.passages.last_mut() else {
            return Ok(false);
        };
        passage.push(String::from_str(alloc, line)?)?;
        Ok(true)
    }

    /// What the call reads.
    fn read_input<R: Files + AllocGlobal>(&self, rt: &R) -> Result<Octets, Difference> {
        let alloc = rt.alloc();
        match (self.input.as_slice(), self.file, self.blanks) {
            ([], Some(path), None) => read_bytes(rt, path),
            ([], None, Some(count)) => Ok(Octets::from_vec([b' '].repeat(alloc, count as usize)?)),
            (lines, None, None) => {
                Ok(Octets::from_slice(alloc, lines.join(alloc, "\n")?.as_bytes())?)
            }
            _ => Err(Difference::Row("the row has two inputs")),
        }
    }

    /// All that the call is to write, where the row tells it.
    fn read_whole<R: Files + AllocGlobal>(&self, rt: &R) -> Result<Option<String>, Difference> {
        match (self.only, self.whole) {
            (None, None) => Ok(None),
            (Some(line), None) => Ok(Some(format!(in rt.alloc(); "{line}\n")?)),
            (None, Some(path)) => Ok(Some(read_text(rt, path)?)),
            (Some(_), Some(_)) => Err(Difference::Row("the row tells twice what is written")),
        }
    }

    /// The status, what the call reads, and all that it is to write.
    fn read_ends<R: Files + AllocGlobal>(
        &self,
        rt: &R,
    ) -> Result<(u8, Octets, Option<String>), Difference> {
        let Some(status) = self.status else {
            return Err(Difference::Row("the row has no status"));
        };
        let input = self.read_input(rt)?;
        let whole = self.read_whole(rt)?;
        if whole.is_none() && self.last.is_none() && self.passages.is_empty() {
            return Err(Difference::Row("the row doesn't tell what is written"));
        }
        Ok((status, input, whole))
    }

    /// The words of the call, and the last line that it is to write.
    fn copy_lines(&self, alloc: Global) -> Result<(Vec<String>, Option<String>), AllocError> {
        let words = match self.words {
            Some(line) => words_of(alloc, line)?,
            None => Vec::new(alloc),
        };
        match self.last {
            Some(line) => Ok((words, Some(String::from_str(alloc, line)?))),
            None => Ok((words, None)),
        }
    }

    /// The case of the row.
    fn into_case<R: Files + AllocGlobal>(self, rt: &R) -> Result<Case, Difference> {
        let (status, input, whole) = self.read_ends(rt)?;
        let (words, last) = self.copy_lines(rt.alloc())?;
        Ok(Case {
            call: Call {
                words,
                input,
                saves: self.saves,
            },
            wanted: Wanted {
                status,
                failed_saves: self.failed,
                whole,
                last,
                passages: self.passages,
            },
            lists: self.lists,
            pieces: self.pieces,
            waits: self.waits,
            passes: self.passes,
        })
    }
}

/// Fills an empty place with what was read, and tells whether it could.
fn put<T: Drop>(place: &mut Option<T>, read: Option<T>) -> bool {
    if place.is_some() || read.is_none() {
        return false;
    }
    *place = read;
    true
}

/// Puts what was read behind a list, and tells whether there was something.
fn add<T: Drop>(list: &mut Vec<T>, read: Option<T>) -> Result<bool, AllocError> {
    let Some(value) = read else {
        return Ok(false);
    };
    list.push(value)?;
    Ok(true)
}
