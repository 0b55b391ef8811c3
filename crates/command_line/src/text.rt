//! What a program writes at its end.
ghost use Rattle.std.specs.Prelude.{◌≡◌, IfOk, OnOk, OnErr};
ghost use Rattle.std.specs.Io.KnownBytes.{Appends};
ghost use Rattle.journal.specs.Causes.{HasCause};
ghost use Rattle.streams.specs.Fronts.{AppendsFront};
ghost use Rattle.command_line.specs.Lines as lines;
ghost use Rattle.command_line.specs.Lines.{text_bytes};

use journal::{Failed, Sink};
use of_types::Octets;
use report::{ReportText, write_newline, write_number, write_word};
use std::alloc::{AllocError, Global};
use streams::write_all;

/// What is written: a line that is always the same, bytes of its own, or what is told of a run.
#[derive(Drop)]
pub enum Text {
    /// A line that takes no memory.
    Fixed(&'static [u8]),
    /// Bytes of their own.
    Own(Octets),
    /// A report, or its last line.
    Report(ReportText),
}

impl Text {
    /// Writes the text to a sink until it has taken it all, and takes no memory. No refused write is tried again.
    pub fn write_to<K: Sink>(&self, sink: &mut K) -> Result<(), Failed>
        ensures ok { OnOk result (Appends (K.taken sink.old) (K.taken sink.new) (text_bytes self.now)) }
        ensures err { OnErr result (AppendsFront (K.taken sink.old) (K.taken sink.new) (text_bytes self.now)) }
        ensures cause { HasCause (K.faults sink.old) (K.faults sink.new) result }
    {
        match self {
            Text::Fixed(line) => write_all(sink, line),
            Text::Own(bytes) => write_all(sink, bytes.as_slice()),
            Text::Report(text) => text.write_to(sink),
        }
    }
}

/// The line of a source that failed.
#[tactic(auto, unfolding(crate::specs::Lines::unread_line))]
pub fn unread_line() -> &'static [u8]
    ensures { result.now ≡ lines.unread_line }
{
    b"fault 4 read\n"
}

/// The line of a report that differs, with the number of the first line that does.
#[tactic(auto, unfolding(crate::specs::Lines::differs_line, report::specs::Report::line, report::specs::Report::number_text))]
pub fn differs_line(alloc: Global, number: u64) -> Result<Octets, AllocError>
    ensures { IfOk result (λ line. line ≡ lines.differs_line number) }
{
    let mut line = Octets::from_slice(alloc, b"differs")?;
    write_word(&mut line, b"line")?;
    write_number(&mut line, number)?;
    write_newline(&mut line)?;
    Ok(line)
}
