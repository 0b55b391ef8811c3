//! A call that makes something of a report: how it takes the report, and how it ends.
ghost use Rattle.std.specs.Prelude.{◌≡◌, ◌≢◌, [], ◌∷◌, Contains, IfOk, IsOk, OnErr};
ghost use Rattle.std.specs.Io.KnownBytes.{Appends};
ghost use Rattle.journal.specs.Causes.{Rose};
ghost use Rattle.streams.specs.Fronts.{AppendsFront};
ghost use Rattle.command_line.specs.Conversion as call;
ghost use Rattle.command_line.specs.declared.conversion.Ending.TheVariants as endings;
ghost use Rattle.command_line.specs.Lines.{text_bytes};

use crate::status::{NO_MEMORY, WRITE_FAILED};
use crate::text::{Text, differs_line, unread_line};
use journal::{Sink, Source};
use of_types::Octets;
use report::{REPORT_LIMIT, Record, ReportFault, read_report};
use std::alloc::{AllocError, Global};
use streams::{StreamFault, read_input};

/// How a call ended, before anything is written.
#[derive(Drop)]
pub enum Ending {
    /// What was made of a report.
    Made(Octets),
    /// The words are not accepted.
    Usage,
    /// There are more bytes than a report has.
    TooLarge,
    /// The source failed.
    Unread,
    /// The first line that is none of a report's.
    Differs { line: u64 },
}

/// What a source gave: a report, or how the call ends without one.
#[derive(Drop)]
pub enum Taken {
    Told(Record),
    Ended(Ending),
}

/// What a source gives. No refused read is tried again.
pub fn take_report<S: Source>(alloc: Global, source: &mut S) -> Result<Taken, AllocError>
    ensures taken { IfOk result (call.IsTaken (S.left source.old) (S.left source.new) (Rose (S.faults source.old) (S.faults source.new))) }
    ensures every_read { IfOk result (λ taken. call.IfRead taken (S.faults source.new ≡ S.faults source.old)) }
    ensures memory { OnErr result (S.faults source.new ≡ S.faults source.old) }
{
    match read_input(alloc, source, REPORT_LIMIT) {
        Ok(bytes) => taken_bytes(alloc, bytes.as_slice()),
        Err(StreamFault::Failed) => Ok(Taken::Ended(Ending::Unread)),
        Err(StreamFault::OutOfMemory) => Err(AllocError),
    }
}

/// Writes the text of an ending, and answers the status. No refused write is tried again, and one that failed leaves a front of
/// the text. That the source failed takes no memory to tell.
pub fn end_call<K: Sink>(alloc: Global, ending: Ending, usage: &'static [u8], sink: &mut K) -> u8
    ensures told { result ≢ 5 → result ≢ 6 → (result ≡ call.status_of ending)
        × Appends (K.taken sink.old) (K.taken sink.new) (call.ending_text usage.now ending) }
    ensures unwritten { result ≡ 5 → Rose (K.faults sink.old) (K.faults sink.new) }
    ensures front { result ≡ 5 → AppendsFront (K.taken sink.old) (K.taken sink.new) (call.ending_text usage.now ending) }
    ensures every_write { result ≢ 5 → K.faults sink.new ≡ K.faults sink.old }
    ensures memory { result ≡ 6 → sink.new ≡ sink.old }
    ensures unread { ending ≡ endings.Unread → Contains (4 ∷ 5 ∷ []) result }
{
    let status = ending.status();
    let Ok(text) = ending.into_text(alloc, usage) else {
        return NO_MEMORY;
    };
    match text.write_to(sink) {
        Ok(()) => status,
        Err(_) => WRITE_FAILED,
    }
}

/// What bytes are.
fn taken_bytes(alloc: Global, bytes: &[u8]) -> Result<Taken, AllocError>
    ensures { IfOk result (call.AreTaken bytes.now) }
{
    if bytes.len() > REPORT_LIMIT {
        return Ok(Taken::Ended(Ending::TooLarge));
    }
    match read_report(alloc, bytes) {
        Ok(told) => Ok(Taken::Told(told)),
        Err(ReportFault::NotText { line }) => Ok(Taken::Ended(Ending::Differs { line })),
        Err(ReportFault::OutOfMemory) => Err(AllocError),
    }
}

impl Ending {
    /// The status of a call that ended so.
    fn status(&self) -> u8
        ensures { result ≡ call.status_of self.now }
    {
        match self {
            Ending::Made(_) => 0,
            Ending::Usage => 2,
            Ending::TooLarge => 3,
            Ending::Unread => 4,
            Ending::Differs { .. } => 8,
        }
    }

    /// What is written. Only what was made and a line that differs take memory.
    #[tactic(auto, unfolding(crate::specs::Conversion::size_line))]
    fn into_text(self, alloc: Global, usage: &'static [u8]) -> Result<Text, AllocError>
        ensures text { IfOk result (λ text. text_bytes text ≡ call.ending_text usage.now self) }
        ensures unread { self ≡ endings.Unread → IsOk result }
    {
        match self {
            Ending::Made(text) => Ok(Text::Own(text)),
            Ending::Usage => Ok(Text::Fixed(usage)),
            Ending::TooLarge => Ok(Text::Fixed(b"fault 3 size top\n")),
            Ending::Unread => Ok(Text::Fixed(unread_line())),
            Ending::Differs { line } => Ok(Text::Own(differs_line(alloc, line)?)),
        }
    }
}
