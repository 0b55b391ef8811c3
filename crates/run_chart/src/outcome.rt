//! How a call ends, and what it writes.
ghost use Rattle.std.specs.Prelude.{◌≡◌, ◌≢◌, map, string_bytes, IfOk, OnErr};
ghost use Rattle.std.specs.Io.KnownBytes.{Appends};
ghost use Rattle.journal.specs.Causes.{Rose};
ghost use Rattle.streams.specs.Fronts.{AppendsFront};
ghost use Rattle.command_line.specs.Conversion as call;
ghost use Rattle.command_line.specs.declared.conversion.Ending.{Ending};
ghost use Rattle.run_chart.specs.Outcome as out;

use crate::window::window_of;
use chart::{Window, draw, svg};
use command_line::{Ending, NO_MEMORY, Taken, end_call, take_report};
use journal::{Sink, Source};
use of_types::Octets;
use report::Record;
use std::alloc::{AllocError, Global};

/// The line that tells which words there are.
const USAGE: &[u8] = b"fault 2 usage: run_chart, or run_chart FIRST LAST\n";

/// Serves one call: reads a report from the source and writes the picture of its run, or one line that tells why not. It
/// answers the status. The words are those behind the program's name.
pub fn chart<S: Source, K: Sink>(
    alloc: Global,
    words: &[String],
    source: &mut S,
    sink: &mut K,
) -> u8
    // Where nothing failed and memory sufficed: an end that the words and the bytes have, and its text was written.
    ensures told { result ≢ 5 → result ≢ 6 → (ending : Ending) × (result ≡ call.status_of ending)
        × out.EndsChart (map string_bytes words.now) (S.left source.old) (S.left source.new) (Rose (S.faults source.old) (S.faults source.new)) ending
        × Appends (K.taken sink.old) (K.taken sink.new) (call.ending_text out.chart_usage_line ending) }
    ensures unwritten { result ≡ 5 → Rose (K.faults sink.old) (K.faults sink.new) }
    ensures memory { result ≡ 6 → sink.new ≡ sink.old }

    // Where a write failed, the sink has a front of such a text.
    ensures cut { result ≡ 5 → (ending : Ending)
        × out.EndsChart (map string_bytes words.now) (S.left source.old) (S.left source.new) (Rose (S.faults source.old) (S.faults source.new)) ending
        × AppendsFront (K.taken sink.old) (K.taken sink.new) (call.ending_text out.chart_usage_line ending) }

    // A call that failed is not tried again.
    ensures every_write { result ≢ 5 → K.faults sink.new ≡ K.faults sink.old }
    ensures every_read { result ≢ 4 → result ≢ 5 → S.faults source.new ≡ S.faults source.old }
{
    match outcome(alloc, words, source) {
        Ok(ending) => end_call(alloc, ending, USAGE, sink),
        Err(_) => NO_MEMORY,
    }
}

/// How a call with these words ends, before anything is written.
fn outcome<S: Source>(alloc: Global, words: &[String], source: &mut S) -> Result<Ending, AllocError>
    ensures ends { IfOk result (out.EndsChart (map string_bytes words.now) (S.left source.old) (S.left source.new) (Rose (S.faults source.old) (S.faults source.new))) }
    ensures every_read { IfOk result (λ ending. call.IfServed ending (S.faults source.new ≡ S.faults source.old)) }
    ensures memory { OnErr result (S.faults source.new ≡ S.faults source.old) }
{
    let Some(window) = window_of(words) else {
        return Ok(Ending::Usage);
    };
    match take_report(alloc, source)? {
        Taken::Told(told) => Ok(Ending::Made(picture(alloc, &told, window)?)),
        Taken::Ended(ending) => Ok(ending),
    }
}

/// The picture of a window of a record.
fn picture(alloc: Global, told: &Record, window: Window) -> Result<Octets, AllocError> {
    let drawing = draw(alloc, told, window)?;
    svg(alloc, &drawing)
}
