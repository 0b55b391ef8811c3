//! The lines of a committed log as they are read.
ghost use Rattle.std.specs.Prelude.{◌≡◌};
ghost use Rattle.vr_log.specs.Same.{same_numbers};
ghost use Rattle.report.specs.Lines.{GivesLines};
ghost use Rattle.report.specs.OneLine.{event_words_at, received_in_text, processed_in_text, log_line_at};
ghost use Rattle.report.specs.Reading.{log_in_text};
ghost use Rattle.report.specs.Report as report;
ghost use Rattle.report.specs.Spelled.{GivesText};

use crate::canonical::{are_equal, happening};
use crate::counted::{CountedLine, read_each};
use crate::fault::{Broken, Misfit, on_line};
use crate::report_text::size_of_log;
use crate::spelled::{after, end_of_line, ended, number8, number32, number64, word};
use itoa::Buffer;
use numerals::is_numeral;
use of_types::Event;
use std::alloc::Global;
use vr_log::{Entries, Entry};

/// What a line says of an event, and what comes behind the line.
#[tactic(auto, unfolding(crate::specs::OneLine::event_words_at))]
pub fn event_words(alloc: Global, bytes: &[u8]) -> Result<(Event, &[u8]), Misfit>
    ensures { GivesText (λ x. (x.0, x.1.now)) result (event_words_at bytes.now) }
{
    let (switch, rest) = number8(bytes)?;
    let (life, rest) = number32(rest)?;
    let (number, rest) = number64(rest)?;
    let (what, rest) = happening(alloc, rest)?;
    ended(
        Event {
            switch,
            life,
            number,
            what,
        },
        rest,
    )
}

#[tactic(auto, unfolding(crate::specs::OneLine::received_in_text))]
fn received(alloc: Global, bytes: &[u8]) -> Result<(Entry, &[u8]), Misfit>
    ensures { GivesText (λ x. (x.0, x.1.now)) result (received_in_text bytes.now) }
{
    let rest = after(b"received", bytes)?;
    let (event, rest) = event_words(alloc, rest)?;
    Ok((Entry::Received(event), rest))
}

#[tactic(auto, unfolding(crate::specs::OneLine::processed_in_text))]
fn processed(bytes: &[u8]) -> Result<(Entry, &[u8]), Misfit>
    ensures { GivesText (λ x. (x.0, x.1.now)) result (processed_in_text bytes.now) }
{
    let rest = after(b"processed", bytes)?;
    let (place, rest) = number64(rest)?;
    ended(Entry::Processed(place), rest)
}

impl CountedLine for Entry {
    ghost use Rattle.report.specs.OneLine.{log_entry_at};

    ghost line_at = { λ switch bytes. log_entry_at bytes };

    #[tactic(auto, unfolding(crate::specs::OneLine::log_entry_at))]
    fn read_line(alloc: Global, _switch: usize, bytes: &[u8]) -> Result<(Entry, &[u8]), Misfit> {
        if bytes.starts_with(b"received") {
            received(alloc, bytes)
        } else {
            processed(bytes)
        }
    }
}

/// How many entries follow, and the numeral of the bytes that they take.
#[tactic(auto, unfolding(crate::specs::OneLine::log_line_at))]
fn log_line(bytes: &[u8]) -> Result<((u64, &[u8]), &[u8]), Misfit>
    ensures { GivesText (λ x. ((x.0.0, x.0.1.now), x.1.now)) result (log_line_at bytes.now) }
{
    let rest = after(b"log", bytes)?;
    let (count, rest) = number64(rest)?;
    let (size, rest) = word(rest)?;
    let rest = end_of_line(rest)?;
    if is_numeral(size) {
        Ok(((count, size), rest))
    } else {
        Err(Misfit::Text)
    }
}

/// Whether a text is what is written of a number.
#[tactic(auto, unfolding(crate::specs::Report::number_text))]
fn is_written(number: u128, text: &[u8]) -> bool
    ensures { result ≡ same_numbers (report.number_text number) text.now }
{
    are_equal(Buffer::new().format(number).as_bytes(), text)
}

/// The committed log. Its own line fails where it tells other bytes than those of the entries.
#[tactic(auto, unfolding(crate::specs::Reading::log_in_text))]
pub fn log(alloc: Global, bytes: &[u8]) -> Result<(Entries, &[u8]), Broken>
    ensures { GivesLines (λ x. (x.0, x.1.now)) result (log_in_text bytes.now) }
{
    let ((count, size), rest) = on_line(bytes, log_line(bytes))?;
    let (entries, rest) = read_each(alloc, 0, count, rest)?;
    if is_written(size_of_log(entries.as_slice()), size) {
        Ok((entries, rest))
    } else {
        Err(Broken::Line { left: bytes.len() })
    }
}
