//! Reading a report.
ghost use Rattle.std.specs.Prelude.{◌≡◌, ℕ, List, IfOk};
ghost use Rattle.journal.specs.declared.journal.JournalEntry.{JournalEntry};
ghost use Rattle.report.specs.Lines.{GivesLines, KeepsLines, line_at};
ghost use Rattle.report.specs.OneLine.{first_line_at, last_line_at};
ghost use Rattle.report.specs.Outline.{bare, IsKeptAs};
ghost use Rattle.report.specs.Reading.{journal_at, history_at, outcome_in_text, record_at, line_number, IsReadAs};
ghost use Rattle.report.specs.Records.{IsRecord};
ghost use Rattle.report.specs.Report as report;
ghost use Rattle.report.specs.Report.{text};
ghost use Rattle.report.specs.Spelled.{GivesText};

use crate::fault::{Broken, Misfit, ReportFault, on_line};
use crate::log_lines::log;
use crate::record::{Record, SwitchRecord};
use crate::setup_lines::setup;
use crate::spelled::{after, end_of_line, ended, labelled};
use crate::sums::write_sum_words;
use crate::switch_lines::switches;
use of_types::{Items, Octets};
use std::alloc::{AllocError, Global};
use vr_log::Entries;

/// The most bytes of a report.
pub const REPORT_LIMIT: usize = 268_435_456;

/// What is kept of a journal as it is read.
pub trait FromJournal: Drop {
    ghost of: { List (JournalEntry (List ℕ)) → Self };

    /// Reads the entries up to the line of the log.
    fn read(alloc: Global, bytes: &[u8]) -> Result<(Self, &[u8]), Broken>
        ensures { KeepsLines of result (journal_at bytes.now) };
}

/// The record that bytes are the text of.
pub fn read_report(alloc: Global, bytes: &[u8]) -> Result<Record, ReportFault>
    // It is what reading gives, or the first line that does not fit.
    ensures exact { IsReadAs bytes.now result }
    // What is read is a record, and the bytes are its text.
    ensures found { IfOk result (λ r. IsRecord r × (text r ≡ bytes.now)) }
{
    let (mut record, journal) = whole(alloc, bytes)?;
    record.journal = journal;
    Ok(record)
}

#[tactic(auto, unfolding(crate::specs::OneLine::first_line_at))]
fn first_line(bytes: &[u8]) -> Result<&[u8], Misfit>
    ensures { GivesText (λ x. x.now) result (first_line_at bytes.now) }
{
    let rest = after(b"ravana report 1", bytes)?;
    end_of_line(rest)
}

/// The turns of the script and of the closing. The line ends with these words.
#[tactic(auto, unfolding(crate::specs::OneLine::last_line_at))]
fn last_line<'a>(sums: &[u8], bytes: &'a [u8]) -> Result<((u64, u64), &'a [u8]), Misfit>
    ensures { GivesText (λ x. (x.0, x.1.now)) result (last_line_at sums.now bytes.now) }
{
    let rest = after(b"end", bytes)?;
    let (script, rest) = labelled(b"script", rest)?;
    let (closing, rest) = labelled(b"closing", rest)?;
    let rest = after(sums, rest)?;
    ended((script, closing), rest)
}

/// The words of the sums.
fn sum_words(alloc: Global, entries: usize, switches: &[SwitchRecord]) -> Result<Octets, AllocError>
    ensures { IfOk result (λ words. words ≡ report.sum_words entries switches.now) }
{
    let mut words = Octets::new(alloc);
    write_sum_words(&mut words, entries, switches)?;
    Ok(words)
}

/// The turns of the script and of the closing, behind the lines of these switches.
fn turns<'a>(
    alloc: Global,
    entries: usize,
    switches: &[SwitchRecord],
    bytes: &'a [u8],
) -> Result<((u64, u64), &'a [u8]), Broken>
    ensures { GivesLines (λ x. (x.0, x.1.now)) result (line_at bytes.now (last_line_at (report.sum_words entries switches.now) bytes.now)) }
{
    let sums = sum_words(alloc, entries, switches)?;
    on_line(bytes, last_line(sums.as_slice(), bytes))
}

/// What is kept of the journal, and the log.
#[tactic(auto, unfolding(crate::specs::Reading::history_at))]
fn history<J: FromJournal>(alloc: Global, bytes: &[u8]) -> Result<((J, Entries), &[u8]), Broken>
    ensures { KeepsLines (λ history. (J.of history.0, history.1)) result (history_at bytes.now) }
{
    let (journal, rest) = J::read(alloc, bytes)?;
    let (log, rest) = log(alloc, rest)?;
    Ok(((journal, log), rest))
}

/// So many switches, and the turns. The log has so many entries.
#[tactic(auto, unfolding(crate::specs::Reading::outcome_in_text))]
fn outcome(
    alloc: Global,
    count: usize,
    entries: usize,
    bytes: &[u8],
) -> Result<((Items<SwitchRecord>, (u64, u64)), &[u8]), Broken>
    ensures { GivesLines (λ x. (x.0, x.1.now)) result (outcome_in_text count entries bytes.now) }
{
    let (switches, rest) = switches(alloc, count, bytes)?;
    let (turns, rest) = turns(alloc, entries, switches.as_slice(), rest)?;
    Ok(((switches, turns), rest))
}

/// The record that the front of these bytes is the text of, but for its journal; what is kept of that; and what comes behind.
#[tactic(auto, unfolding(crate::specs::Reading::record_at))]
fn record<J: FromJournal>(alloc: Global, bytes: &[u8]) -> Result<((Record, J), &[u8]), Broken>
    ensures { KeepsLines (λ r. (bare r, J.of r.journal)) result (record_at bytes.now) }
{
    let rest = on_line(bytes, first_line(bytes))?;
    let (setup, rest) = setup(alloc, rest)?;
    let ((journal, log), rest) = history(alloc, rest)?;
    let ((switches, (script, closing)), rest) = outcome(alloc, setup.ports.len(), log.len(), rest)?;
    let bare = Record {
        setup,
        journal: Items::new(alloc),
        log,
        switches,
        script,
        closing,
    };
    Ok(((bare, journal), rest))
}

/// The number, from 1 on, of the line with which so many bytes are left.
fn line_number(bytes: &[u8], left: usize) -> u64
    ensures { result ≡ line_number bytes.now left }
{
    let mut line = 1;
    for byte in &bytes[..bytes.len().saturating_sub(left)] {
        if *byte == b'\n' {
            line += 1;
        }
    }
    line
}

/// The record that bytes, all of them, are the text of, but for its journal; and what is kept of that.
#[tactic(auto, unfolding(crate::specs::Reading::report_at))]
pub fn whole<J: FromJournal>(alloc: Global, bytes: &[u8]) -> Result<(Record, J), ReportFault>
    ensures { IsKeptAs (λ r. (bare r, J.of r.journal)) bytes.now result }
{
    match record(alloc, bytes) {
        Ok((read, [])) => Ok(read),
        Ok((_, rest)) => Err(ReportFault::NotText {
            line: line_number(bytes, rest.len()),
        }),
        Err(Broken::Line { left }) => Err(ReportFault::NotText {
            line: line_number(bytes, left),
        }),
        Err(Broken::OutOfMemory) => Err(ReportFault::OutOfMemory),
    }
}
