//! How a call ended, and what it has to write.
ghost use Rattle.std.specs.Prelude.{◌≡◌, ◌≢◌, [], ◌∷◌, ◌++◌, codes, IfOk, OnOk, OnErr};
ghost use Rattle.report.specs.Report.{word, further, number_text};
ghost use Rattle.command_line.specs.Lines.{text_bytes};
ghost use Rattle.top_call.specs.Lines as lines;
ghost use Rattle.top_call.specs.Ending.{outcome_text, ending_status};

use command_line::{Text, differs_line, unread_line};
use of_types::Octets;
use report::{ReportText, write_labelled, write_newline, write_word};
use scenario::{Fault, FaultKind, FaultPlace};
use std::alloc::{AllocError, Global};
use vr_log::LogFull;

/// How a call ended, before anything is written.
#[derive(Drop)]
pub enum Ending {
    /// The run came to rest. What is told of it.
    Report(ReportText),
    /// The words are not accepted.
    Usage,
    /// The bytes are no scenario, or more than a report has.
    Refused(Fault),
    /// The source failed.
    Unread,
    /// Too few controllers took part where the closing began.
    NoQuorum { up: u64, needed: u64 },
    /// A proposal found no room in the log.
    Overfull(LogFull),
    /// An outbox found no room in the journal.
    Unposted { bytes: u64, letters: u64 },
    /// No line of the report differs.
    Same,
    /// The first line of the report that differs.
    Differs { line: u64 },
}

#[tactic(auto, unfolding(crate::specs::Lines::usage_line))]
fn usage_line() -> &'static [u8]
    ensures { result.now ≡ lines.usage_line }
{
    b"fault 2 usage: sim, run, audit or gen NUMBER CONTROLLERS SWITCHES FRAMES\n"
}

#[tactic(auto, unfolding(crate::specs::Lines::same_line))]
fn same_line() -> &'static [u8]
    ensures { result.now ≡ lines.same_line }
{
    b"same\n"
}

fn kind_word(kind: FaultKind) -> &'static [u8]
    ensures { result.now ≡ lines.kind_word kind }
{
    match kind {
        FaultKind::Size => b"size",
        FaultKind::Json => b"json",
        FaultKind::Shape => b"shape",
        FaultKind::Limit => b"limit",
    }
}

/// The beginning of a line that tells a status.
fn fault(alloc: Global, status: &[u8]) -> Result<Octets, AllocError>
    ensures { IfOk result (λ line. line ≡ codes "fault" ++ word status.now) }
{
    let mut line = Octets::from_slice(alloc, b"fault")?;
    write_word(&mut line, status)?;
    Ok(line)
}

/// Writes a word and its number, and ends the line.
#[tactic(auto, unfolding(report::specs::Report::labelled, report::specs::Report::number_text))]
fn end_with(line: &mut Octets, name: &[u8], value: u64) -> Result<(), AllocError>
    ensures { OnOk result (line.new ≡ line.old ++ further (name.now ∷ number_text value ∷ [])) }
{
    write_labelled(line, name, value)?;
    write_newline(line)?;
    Ok(())
}

/// Writes where a fault stands, and ends the line.
fn write_place(line: &mut Octets, place: FaultPlace) -> Result<(), AllocError>
    ensures { OnOk result (line.new ≡ line.old ++ further (lines.place_words place)) }
{
    match place {
        FaultPlace::Top => {
            write_word(line, b"top")?;
            write_newline(line)?;
            Ok(())
        }
        FaultPlace::Switch(index) => end_with(line, b"switch", index),
        FaultPlace::Link(index) => end_with(line, b"link", index),
        FaultPlace::Deny(index) => end_with(line, b"deny", index),
        FaultPlace::Step(index) => end_with(line, b"step", index),
    }
}

#[tactic(auto, unfolding(crate::specs::Lines::fault_line, report::specs::Report::line))]
fn fault_line(alloc: Global, refused: Fault) -> Result<Octets, AllocError>
    ensures { IfOk result (λ line. line ≡ lines.fault_line refused) }
{
    let mut line = fault(alloc, b"3")?;
    write_word(&mut line, kind_word(refused.kind))?;
    write_place(&mut line, refused.place)?;
    Ok(line)
}

#[tactic(auto, unfolding(crate::specs::Lines::no_quorum_line, report::specs::Report::labelled, report::specs::Report::line, report::specs::Report::number_text))]
fn no_quorum_line(alloc: Global, up: u64, needed: u64) -> Result<Octets, AllocError>
    ensures { IfOk result (λ line. line ≡ lines.no_quorum_line up needed) }
{
    let mut line = fault(alloc, b"7")?;
    write_labelled(&mut line, b"up", up)?;
    write_labelled(&mut line, b"needed", needed)?;
    write_newline(&mut line)?;
    Ok(line)
}

#[tactic(auto, unfolding(crate::specs::Lines::overfull_line, report::specs::Report::labelled, report::specs::Report::line, report::specs::Report::number_text))]
fn overfull_line(alloc: Global, limit: LogFull) -> Result<Octets, AllocError>
    ensures { IfOk result (λ line. line ≡ lines.overfull_line limit) }
{
    let mut line = fault(alloc, b"9")?;
    write_labelled(&mut line, b"length", limit.length)?;
    write_labelled(&mut line, b"bytes", limit.bytes)?;
    write_labelled(&mut line, b"next", limit.next)?;
    write_newline(&mut line)?;
    Ok(line)
}

#[tactic(auto, unfolding(crate::specs::Lines::unposted_line, report::specs::Report::labelled, report::specs::Report::line, report::specs::Report::number_text))]
fn unposted_line(alloc: Global, bytes: u64, letters: u64) -> Result<Octets, AllocError>
    ensures { IfOk result (λ line. line ≡ lines.unposted_line bytes letters) }
{
    let mut line = fault(alloc, b"10")?;
    write_labelled(&mut line, b"bytes", bytes)?;
    write_labelled(&mut line, b"letters", letters)?;
    write_newline(&mut line)?;
    Ok(line)
}

impl Ending {
    /// The status of a call that ended so.
    pub fn status(&self) -> u8
        ensures { result ≡ ending_status self.now }
    {
        match self {
            Ending::Report(_) | Ending::Same => 0,
            Ending::Usage => 2,
            Ending::Refused(_) => 3,
            Ending::Unread => 4,
            Ending::NoQuorum { .. } => 7,
            Ending::Differs { .. } => 8,
            Ending::Overfull(_) => 9,
            Ending::Unposted { .. } => 10,
        }
    }

    /// What is written. That the source failed is told without memory.
    pub fn into_text(self, alloc: Global) -> Result<Text, AllocError>
        ensures ok { IfOk result (λ text. text_bytes text ≡ outcome_text self) }
        ensures err { OnErr result (ending_status self ≢ 4) }
    {
        match self {
            Ending::Report(text) => Ok(Text::Report(text)),
            Ending::Usage => Ok(Text::Fixed(usage_line())),
            Ending::Unread => Ok(Text::Fixed(unread_line())),
            Ending::Same => Ok(Text::Fixed(same_line())),
            Ending::Refused(fault) => Ok(Text::Own(fault_line(alloc, fault)?)),
            Ending::Differs { line } => Ok(Text::Own(differs_line(alloc, line)?)),
            Ending::NoQuorum { up, needed } => Ok(Text::Own(no_quorum_line(alloc, up, needed)?)),
            Ending::Overfull(limit) => Ok(Text::Own(overfull_line(alloc, limit)?)),
            Ending::Unposted { bytes, letters } => {
                Ok(Text::Own(unposted_line(alloc, bytes, letters)?))
            }
        }
    }
}
