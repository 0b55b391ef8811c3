//! The index: a line names a case that is kept in files, or a table of rows.

use crate::meeting::{meet_at_gate, meet_in_saves};
use crate::play::play;
use crate::refusals::go_on;
use cases::{Difference, Kind, Tally, name_of, read_case, read_row, read_text, shown};
use std::io;
use std::rt::Files;
use std::sync::Wait;
use std::thread::Threads;

/// The controllers that find no memory, one in each run, and the most events that such a one takes before.
const WANTING_CONTROLLERS: u8 = 5;

const MOST_EVENTS: u64 = 3;

/// What a line of an index names, and its path.
enum Entry<'a> {
    Case(Kind, &'a str),
    Rows(&'a str),
    MeetAtGate(&'a str),
    MeetInSaves(&'a str),
    Refusals(&'a str),
}

impl<'a> Entry<'a> {
    fn of(line: &'a str) -> Option<Entry<'a>> {
        match line.split_once(' ')? {
            ("sim", path) => Some(Entry::Case(Kind::Sim, path)),
            ("saves", path) => Some(Entry::Case(Kind::Saves, path)),
            ("audit", path) => Some(Entry::Case(Kind::Audit, path)),
            ("rows", path) => Some(Entry::Rows(path)),
            ("gate", path) => Some(Entry::MeetAtGate(path)),
            ("save", path) => Some(Entry::MeetInSaves(path)),
            ("refusals", path) => Some(Entry::Refusals(path)),
            _ => None,
        }
    }
}

/// Plays all that an index names.
pub fn play_index<R: Files + AllocGlobal + Print + Threads + Wait + Sync>(
    rt: &R,
    path: &str,
    tally: &mut Tally,
) -> io::Result<()> {
    let text = match read_text(rt, path) {
        Ok(text) => text,
        Err(difference) => return tally.count(rt, path, Err(difference)),
    };
    let mut number = 0usize;
    for line in text.lines() {
        number = number.saturating_add(1);
        match Entry::of(line) {
            Some(Entry::Case(kind, path)) => tally.count(rt, path, play_case(rt, kind, path))?,
            Some(Entry::Rows(path)) => play_table(rt, path, tally)?,
            Some(Entry::MeetAtGate(path)) => tally.count(rt, path, play_at_gate(rt, path))?,
            Some(Entry::MeetInSaves(path)) => tally.count(rt, path, play_in_saves(rt, path))?,
            Some(Entry::Refusals(path)) => play_refusals(rt, path, tally)?,
            None => {
                let line = shown(rt.alloc(), Some(line))?;
                tally.count(rt, path, Err(Difference::Grammar { number, line }))?;
            }
        }
    }
    Ok(())
}

fn play_case<R: Files + AllocGlobal + Threads + Wait + Sync>(
    rt: &R,
    kind: Kind,
    path: &str,
) -> Result<(), Difference> {
    play(rt, rt.alloc(), &read_case(rt, kind, path)?)
}

fn play_row<R: Files + AllocGlobal + Threads + Wait + Sync>(
    rt: &R,
    block: &str,
    before: usize,
) -> Result<(), Difference> {
    play(rt, rt.alloc(), &read_row(rt, block, before)?)
}

fn play_at_gate<R: Files + AllocGlobal + Threads + Wait + Sync>(
    rt: &R,
    path: &str,
) -> Result<(), Difference> {
    let scenario = read_text(rt, path)?;
    meet_at_gate(rt, rt.alloc(), scenario.as_bytes())
}

fn play_in_saves<R: Files + AllocGlobal + Threads + Wait + Sync>(
    rt: &R,
    path: &str,
) -> Result<(), Difference> {
    let scenario = read_text(rt, path)?;
    meet_in_saves(rt, rt.alloc(), scenario.as_bytes())
}

/// Plays the rows of a table, which are parted by one empty line.
fn play_table<R: Files + AllocGlobal + Print + Threads + Wait + Sync>(
    rt: &R,
    path: &str,
    tally: &mut Tally,
) -> io::Result<()> {
    let text = match read_text(rt, path) {
        Ok(text) => text,
        Err(difference) => return tally.count(rt, path, Err(difference)),
    };
    let mut before = 0usize;
    for block in text.split("\n\n") {
        tally.count(rt, name_of(block, path), play_row(rt, block, before))?;
        before = before
            .saturating_add(block.lines().count())
            .saturating_add(1);
    }
    Ok(())
}

/// Plays a scenario of five controllers behind each refusal.
fn play_refusals<R: Files + AllocGlobal + Print>(
    rt: &R,
    path: &str,
    tally: &mut Tally,
) -> io::Result<()> {
    for controller in 0..WANTING_CONTROLLERS {
        for events in 0..=MOST_EVENTS {
            tally.count(rt, path, play_refused(rt, path, controller, events))?;
        }
    }
    Ok(())
}

fn play_refused<R: Files + AllocGlobal>(
    rt: &R,
    path: &str,
    controller: u8,
    events: u64,
) -> Result<(), Difference> {
    let scenario = read_text(rt, path)?;
    go_on(rt.alloc(), scenario.as_bytes(), controller, events)
}
