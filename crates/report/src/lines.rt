//! The lines of a report.
ghost use Rattle.std.specs.Prelude.{◌≡◌, ◌≤◌, ◌++◌, ℕ, List, length, OnOk};
ghost use Rattle.journal.specs.declared.journal.JournalEntry.TheVariants as entry;
ghost use Rattle.journal.specs.Letters.{letters_held};
ghost use Rattle.report.specs.Report.{lines_of, line, entry_lines, event_words, letter_line, post_line};

use crate::line::Line;
use crate::sheet::Sheet;
use journal::{Actor, Journal, JournalEntry, Letter, Letters, Local, OneOrMany};
use of_ravana::canonical_happening;
use of_types::{Event, Items, Link, Octets, Rule};
use std::alloc::{AllocError, Global};
use std::mem::replace;
use vr_log::Entry;

/// What stands in a report as a line or as several.
pub trait Lines {
    ghost lines: { Self → List ℕ };

    /// Writes the lines.
    fn write_lines(&self, alloc: Global, out: &mut Sheet) -> Result<(), AllocError>
        ensures { OnOk result (out.new ≡ out.old ++ lines self.now) };
}

/// Writes the lines of each, one after another.
#[tactic(auto, unfolding(crate::specs::Report::lines_of))]
pub fn write_each<L: Lines>(alloc: Global, out: &mut Sheet, items: &[L]) -> Result<(), AllocError>
    ensures { OnOk result (out.new ≡ out.old ++ lines_of L.lines items.now) }
{
    for item in items {
        item.write_lines(alloc, out)?;
    }
    Ok(())
}

impl Lines for Link {
    ghost use Rattle.report.specs.Report.{link_line};

    ghost lines = { link_line };

    #[tactic(auto, unfolding(crate::specs::Report::line))]
    fn write_lines(&self, _: Global, out: &mut Sheet) -> Result<(), AllocError> {
        let mut line = Line::new();
        line.begin(b"link");
        line.number(u64::from(self.switch));
        line.number(u64::from(self.port));
        line.number(u64::from(self.peer));
        line.number(u64::from(self.peer_port));
        line.end(out)
    }
}

impl Lines for Rule {
    ghost use Rattle.report.specs.Report.{deny_line};

    ghost lines = { deny_line };

    #[tactic(auto, unfolding(crate::specs::Report::line))]
    fn write_lines(&self, _: Global, out: &mut Sheet) -> Result<(), AllocError> {
        let mut line = Line::new();
        line.begin(b"deny");
        line.number(u64::from(self.proto));
        line.address(self.src.address);
        line.number(u64::from(self.src.length));
        line.address(self.dst.address);
        line.number(u64::from(self.dst.length));
        line.number_or_dash(self.port.map(u64::from));
        line.end(out)
    }
}

/// Writes a letter. A long body is kept, and another is left in its place.
#[tactic(auto, unfolding(crate::specs::Report::line))]
fn write_letter(
    alloc: Global,
    out: &mut Sheet,
    letter: &mut Letter<Octets>,
) -> Result<(), AllocError>
    ensures { OnOk result (out.new ≡ out.old ++ letter_line letter.old) }
{
    let mut line = Line::new();
    line.begin(b"letter");
    line.actor(letter.to);
    line.end_with(alloc, out, &mut letter.body)
}

fn write_letters(
    alloc: Global,
    out: &mut Sheet,
    letters: &mut [Letter<Octets>],
) -> Result<(), AllocError>
    ensures { OnOk result (out.new ≡ out.old ++ lines_of letter_line letters.old) }
{
    for letter in letters.iter_mut() {
        write_letter(alloc, out, letter)?;
    }
    Ok(())
}

#[tactic(auto, unfolding(crate::specs::Report::lines_of))]
fn write_one_or_many(
    alloc: Global,
    out: &mut Sheet,
    letters: &mut OneOrMany<Octets>,
) -> Result<(), AllocError>
    ensures { OnOk result (out.new ≡ out.old ++ lines_of letter_line (letters_held letters.old)) }
{
    match letters {
        OneOrMany::One(letter) => write_letter(alloc, out, letter),
        OneOrMany::Many(letters) => write_letters(alloc, out, letters),
    }
}

/// Writes the first line of a post.
#[tactic(auto, unfolding(crate::specs::Report::line))]
pub fn write_post_line(
    out: &mut Sheet,
    actor: Actor,
    first: u64,
    count: u64,
    lost: u64,
) -> Result<(), AllocError>
    ensures { OnOk result (out.new ≡ out.old ++ post_line actor first count lost) }
{
    let mut line = Line::new();
    line.begin(b"post");
    line.actor(actor);
    line.number(first);
    line.number(count);
    line.number(lost);
    line.end(out)
}

/// Writes a post, and its letters.
fn write_post(
    alloc: Global,
    out: &mut Sheet,
    actor: Actor,
    first: u64,
    letters: &mut Letters<Octets>,
    lost: u64,
) -> Result<(), AllocError>
    ensures { OnOk result (out.new ≡ out.old ++ entry_lines (entry.Post actor first letters.old lost)) }
{
    write_post_line(out, actor, first, letters.len() as u64, lost)?;
    let mut each = replace(letters, Letters::new(alloc)).into_inner();
    let written = write_one_or_many(alloc, out, &mut each);
    *letters = Letters::from_inner(each);
    written
}

/// Writes a packet that was drawn.
#[tactic(auto, unfolding(crate::specs::Report::line))]
pub fn write_draw(out: &mut Sheet, actor: Actor, id: u64, keep: bool) -> Result<(), AllocError>
    ensures { OnOk result (out.new ≡ out.old ++ entry_lines (entry.Draw actor id keep)) }
{
    let mut line = Line::new();
    line.begin(b"draw");
    line.actor(actor);
    line.number(id);
    line.flag(keep);
    line.end(out)
}

/// Writes a packet that was lost.
#[tactic(auto, unfolding(crate::specs::Report::line))]
pub fn write_loss(out: &mut Sheet, actor: Actor, id: u64) -> Result<(), AllocError>
    ensures { OnOk result (out.new ≡ out.old ++ entry_lines (entry.Lose actor id)) }
{
    let mut line = Line::new();
    line.begin(b"lose");
    line.actor(actor);
    line.number(id);
    line.end(out)
}

/// Writes that an actor found no packet.
#[tactic(auto, unfolding(crate::specs::Report::line))]
pub fn write_idle(out: &mut Sheet, actor: Actor) -> Result<(), AllocError>
    ensures { OnOk result (out.new ≡ out.old ++ entry_lines (entry.Idle actor)) }
{
    let mut line = Line::new();
    line.begin(b"idle");
    line.actor(actor);
    line.end(out)
}

/// Writes a local input. A long frame is moved out, and another is left in its place.
#[tactic(auto, unfolding(crate::specs::Report::line))]
pub fn write_local(
    alloc: Global,
    out: &mut Sheet,
    actor: Actor,
    input: &mut Local,
) -> Result<(), AllocError>
    ensures { OnOk result (out.new ≡ out.old ++ entry_lines (entry.Local actor input.old)) }
{
    let mut line = Line::new();
    line.begin(b"local");
    line.actor(actor);
    match input {
        Local::Frame { port, bytes } => {
            line.text(b"frame");
            line.number(u64::from(*port));
            return line.end_with(alloc, out, bytes);
        }
        Local::Port { port, up } => {
            line.text(b"port");
            line.number(u64::from(*port));
            line.flag(*up);
        }
        Local::Suspect { view } => {
            line.text(b"suspect");
            line.number(u64::from(*view));
        }
        Local::Tick => line.text(b"tick"),
        Local::Crash => line.text(b"crash"),
        Local::Restart => line.text(b"restart"),
    }
    line.end(out)
}

fn write_entry(
    alloc: Global,
    out: &mut Sheet,
    told: &mut JournalEntry<Octets>,
) -> Result<(), AllocError>
    ensures { OnOk result (out.new ≡ out.old ++ entry_lines told.old) }
{
    match told {
        JournalEntry::Post {
            actor,
            first,
            letters,
            lost,
        } => write_post(alloc, out, *actor, *first, letters, *lost),
        JournalEntry::Draw { actor, id, keep } => write_draw(out, *actor, *id, *keep),
        JournalEntry::Lose { actor, id } => write_loss(out, *actor, *id),
        JournalEntry::Local { actor, input } => write_local(alloc, out, *actor, input),
        JournalEntry::Idle { actor } => write_idle(out, *actor),
        JournalEntry::Refused { .. } => Ok(()),
    }
}

fn write_entries(
    alloc: Global,
    out: &mut Sheet,
    entries: &mut [JournalEntry<Octets>],
) -> Result<(), AllocError>
    ensures { OnOk result (out.new ≡ out.old ++ lines_of entry_lines entries.old) }
{
    for told in entries.iter_mut() {
        write_entry(alloc, out, told)?;
    }
    Ok(())
}

/// Writes a journal. Its long bodies are kept, and others are left in their places.
pub fn write_journal(
    alloc: Global,
    out: &mut Sheet,
    journal: &mut Journal<Octets>,
) -> Result<(), AllocError>
    ensures { OnOk result (out.new ≡ out.old ++ lines_of entry_lines journal.old) }
{
    let mut entries = replace(journal, Items::new(alloc)).into_vec();
    let written = write_entries(alloc, out, &mut entries);
    *journal = Items::from_vec(entries);
    written
}

/// Writes a line that tells an event.
#[tactic(auto, unfolding(crate::specs::Report::line))]
fn write_event(
    alloc: Global,
    out: &mut Sheet,
    first: &[u8],
    event: &Event,
) -> Result<(), AllocError>
    requires { length first.now ≤ 16 }
    ensures { OnOk result (out.new ≡ out.old ++ line first.now (event_words event.now)) }
{
    let mut told = canonical_happening(alloc, &event.what)?;
    let mut line = Line::new();
    line.begin(first);
    line.number(u64::from(event.switch));
    line.number(u64::from(event.life));
    line.number(event.number);
    line.end_with(alloc, out, &mut told)
}

impl Lines for Entry {
    ghost use Rattle.report.specs.Report.{log_line};

    ghost lines = { log_line };

    #[tactic(auto, unfolding(crate::specs::Report::line))]
    fn write_lines(&self, alloc: Global, out: &mut Sheet) -> Result<(), AllocError> {
        match self {
            Entry::Received(event) => write_event(alloc, out, b"received", event),
            Entry::Processed(place) => {
                let mut line = Line::new();
                line.begin(b"processed");
                line.number(*place);
                line.end(out)
            }
        }
    }
}

impl Lines for Event {
    ghost use Rattle.report.specs.Report.{event_line};

    ghost lines = { event_line };

    fn write_lines(&self, alloc: Global, out: &mut Sheet) -> Result<(), AllocError> {
        write_event(alloc, out, b"event", self)
    }
}
