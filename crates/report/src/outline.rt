//! Reading a report of which no entry of the journal is kept.
ghost use Rattle.std.specs.Prelude.{◌≡◌, ◌+◌, ◌≤◌, ℕ, List, length, IfOk};
ghost use Rattle.report.specs.Lines.{KeepsLines, PassesLines, each_at};
ghost use Rattle.report.specs.OneLine.{letter_at};
ghost use Rattle.report.specs.Outline.{count_entry_lines, outline_of, IsKeptAs};
ghost use Rattle.report.specs.Reading.{journal_entry_at};
ghost use Rattle.report.specs.Spelled.{PassesText};

use crate::fault::{Broken, Misfit, ReportFault, on_line};
use crate::journal_lines::{PostLine, post_line, short_entry};
use crate::reading::{FromJournal, whole};
use crate::record::Record;
use crate::spelled::{actor, after, pass_hex};
use std::alloc::Global;

/// A report without its journal.
#[derive(Drop)]
pub struct Outline {
    /// The record, with no entry in its journal.
    pub bare: Record,
    /// How many lines the journal takes.
    pub journal_lines: u64,
}

/// The outline of the record that bytes are the text of. Each line is read as `read_report` reads it.
pub fn read_outline(alloc: Global, bytes: &[u8]) -> Result<Outline, ReportFault>
    // It is that of what reading gives, or the first line that does not fit.
    ensures { IsKeptAs outline_of bytes.now result }
{
    let (bare, LineCount { lines }) = whole(alloc, bytes)?;
    Ok(Outline {
        bare,
        journal_lines: lines,
    })
}

/// How many lines a journal takes.
#[derive(Drop)]
pub struct LineCount {
    lines: u64,
}

#[tactic(auto, unfolding(crate::specs::OneLine::letter_at, crate::specs::Spelled::last_hex_at))]
fn pass_letter(bytes: &[u8]) -> Result<&[u8], Misfit>
    ensures { PassesText result (letter_at bytes.now) }
{
    let rest = after(b"letter", bytes)?;
    let (_, rest) = actor(rest)?;
    pass_hex(rest)
}

/// Reads so many letters, and gives what comes behind them.
fn pass_letters(count: u64, bytes: &[u8]) -> Result<&[u8], Broken>
    ensures exact { PassesLines result (each_at letter_at count bytes.now) }
    ensures many { IfOk result (λ rest. count + length rest.now ≤ length bytes.now) }
{
    let mut rest = bytes;
    for place in 0..count {
        rest = on_line(rest, pass_letter(rest))?;
    }
    Ok(rest)
}

/// Reads an entry, and tells how many lines it takes.
#[tactic(auto, unfolding(crate::specs::Reading::journal_entry_at, crate::specs::Reading::post_at))]
fn pass_entry(alloc: Global, bytes: &[u8]) -> Result<(u64, &[u8]), Broken>
    ensures exact { KeepsLines count_entry_lines result (journal_entry_at bytes.now) }
    ensures many { IfOk result (λ x. x.0 + length x.1.now ≤ length bytes.now) }
{
    if bytes.starts_with(b"post") {
        let (PostLine { count, .. }, rest) = on_line(bytes, post_line(bytes))?;
        let rest = pass_letters(count, rest)?;
        Ok((1 + count, rest))
    } else {
        let (_, rest) = on_line(bytes, short_entry(alloc, bytes))?;
        Ok((1, rest))
    }
}

impl FromJournal for LineCount {
    ghost use Rattle.report.specs.Outline.{count_journal_lines};

    ghost of = { count_journal_lines };

    fn read(alloc: Global, bytes: &[u8]) -> Result<(LineCount, &[u8]), Broken> {
        let mut lines = 0;
        let mut rest = bytes;
        for place in 0..bytes.len() {
            if rest.starts_with(b"log") {
                return Ok((LineCount { lines }, rest));
            }
            let (more, after) = pass_entry(alloc, rest)?;
            lines += more;
            rest = after;
        }
        if !rest.starts_with(b"log") {
            return Err(Broken::Line { left: rest.len() });
        }
        Ok((LineCount { lines }, rest))
    }
}
