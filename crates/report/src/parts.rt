//! A text in parts, whose long bodies are spelled only as they are written.
ghost use Rattle.std.specs.Prelude.{◌≡◌, ◌++◌, OnOk, OnErr};
ghost use Rattle.std.specs.Io.KnownBytes.{Appends};
ghost use Rattle.journal.specs.Causes.{HasCause};
ghost use Rattle.report.specs.Report.{hex_of};
ghost use Rattle.report.specs.Parts.{part_text, parts_text};
ghost use Rattle.streams.specs.Fronts.{AppendsFront};

use crate::room::{ROOM, Room};
use journal::{Failed, Sink};
use of_types::{Items, Octets};
use std::marker::Model;
use streams::write_all;

/// Words of a text, and a body behind them, whose digits in base sixteen come next.
#[derive(Drop)]
pub struct Part {
    /// The words, as they stand in the text.
    pub words: Octets,
    /// The bytes whose digits stand behind the words.
    pub body: Octets,
}

/// A text that is made. Its long bodies lie in it as they are, since their digits would take twice the memory. Contracts see it as
/// all of its bytes.
#[derive(Drop)]
pub struct ReportText {
    /// The text up to the last long body, in order.
    parts: Items<Part>,
    /// The words behind the last long body.
    last: Octets,
}

impl Model for ReportText {
    ghost use Rattle.std.specs.Prelude.{List, ℕ, ◌++◌};
    ghost use Rattle.report.specs.Parts.{parts_text};

    ghost Value = { List ℕ };

    ghost view = { λ text. parts_text text.parts ++ text.last };
}

impl ReportText {
    /// The text of parts and of the words behind them.
    pub(crate) fn new(parts: Items<Part>, last: Octets) -> ReportText
        ensures { result ≡ parts_text parts ++ last }
    {
        ReportText { parts, last }
    }

    /// Writes the text to a sink until it has taken it all, and takes no memory. No refused write is tried again.
    pub fn write_to<K: Sink>(&self, sink: &mut K) -> Result<(), Failed>
        ensures ok { OnOk result (Appends (K.taken sink.old) (K.taken sink.new) self.now) }
        ensures err { OnErr result (AppendsFront (K.taken sink.old) (K.taken sink.new) self.now) }
        ensures cause { HasCause (K.faults sink.old) (K.faults sink.new) result }
    {
        write_parts(sink, self.parts.as_slice())?;
        write_all(sink, self.last.as_slice())
    }
}

/// Writes parts.
fn write_parts<K: Sink>(sink: &mut K, parts: &[Part]) -> Result<(), Failed>
    ensures ok { OnOk result (Appends (K.taken sink.old) (K.taken sink.new) (parts_text parts.now)) }
    ensures err { OnErr result (AppendsFront (K.taken sink.old) (K.taken sink.new) (parts_text parts.now)) }
    ensures cause { HasCause (K.faults sink.old) (K.faults sink.new) result }
{
    for part in parts {
        write_part(sink, part)?;
    }
    Ok(())
}

/// Writes a part.
fn write_part<K: Sink>(sink: &mut K, part: &Part) -> Result<(), Failed>
    ensures ok { OnOk result (Appends (K.taken sink.old) (K.taken sink.new) (part_text part.now)) }
    ensures err { OnErr result (AppendsFront (K.taken sink.old) (K.taken sink.new) (part_text part.now)) }
    ensures cause { HasCause (K.faults sink.old) (K.faults sink.new) result }
{
    write_all(sink, part.words.as_slice())?;
    spell_all(sink, part.body.as_slice())
}

/// Writes the digits of bytes, as many at a time as there is room for.
fn spell_all<K: Sink>(sink: &mut K, bytes: &[u8]) -> Result<(), Failed>
    ensures ok { OnOk result (Appends (K.taken sink.old) (K.taken sink.new) (hex_of bytes.now)) }
    ensures err { OnErr result (AppendsFront (K.taken sink.old) (K.taken sink.new) (hex_of bytes.now)) }
    ensures cause { HasCause (K.faults sink.old) (K.faults sink.new) result }
{
    let mut room = Room::new();
    let mut rest = bytes;
    'pieces: while !rest.is_empty() {
        let (piece, behind) = rest.split_at(rest.len().min(ROOM / 2));
        room.clear();
        room.spell(piece);
        write_all(sink, room.as_slice())?;
        rest = behind;
    }
    Ok(())
}
