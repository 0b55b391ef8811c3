//! How a call ends, and what it writes.
ghost use Rattle.std.specs.Prelude.{◌≡◌, ◌≢◌, ◌<◌, length, IfOk, OnErr};
ghost use Rattle.std.specs.Io.KnownBytes.{Appends};
ghost use Rattle.journal.specs.Causes.{Rose};
ghost use Rattle.streams.specs.Fronts.{AppendsFront};
ghost use Rattle.command_line.specs.Conversion as call;
ghost use Rattle.command_line.specs.declared.conversion.Ending.{Ending};
ghost use Rattle.run_pcap.specs.Outcome as out;

use capture::{captured, pcapng};
use command_line::{Ending, NO_MEMORY, Taken, end_call, take_report};
use journal::{Sink, Source};
use of_types::Octets;
use report::Record;
use std::alloc::{AllocError, Global};

/// The line that tells which words there are.
const USAGE: &[u8] = b"fault 2 usage: run_pcap\n";

/// Serves one call: reads a report from the source and writes the capture of its run, or one line that tells why not. It
/// answers the status. The words are those behind the program's name, of which it takes none.
pub fn pcap<S: Source, K: Sink>(alloc: Global, words: &[String], source: &mut S, sink: &mut K) -> u8
    // Where nothing failed and memory sufficed: the one end that the words and the bytes have, and its text was written.
    ensures told { result ≢ 5 → result ≢ 6 → (ending : Ending) × (result ≡ call.status_of ending)
        × out.EndsCapture (length words.now) (S.left source.old) (S.left source.new) (Rose (S.faults source.old) (S.faults source.new)) ending
        × Appends (K.taken sink.old) (K.taken sink.new) (call.ending_text out.pcap_usage_line ending) }
    ensures unwritten { result ≡ 5 → Rose (K.faults sink.old) (K.faults sink.new) }
    ensures memory { result ≡ 6 → sink.new ≡ sink.old }

    // Where a write failed, the sink has a front of such a text.
    ensures cut { result ≡ 5 → (ending : Ending)
        × out.EndsCapture (length words.now) (S.left source.old) (S.left source.new) (Rose (S.faults source.old) (S.faults source.new)) ending
        × AppendsFront (K.taken sink.old) (K.taken sink.new) (call.ending_text out.pcap_usage_line ending) }

    // A call that failed is not tried again.
    ensures every_write { result ≢ 5 → K.faults sink.new ≡ K.faults sink.old }
    ensures every_read { result ≢ 4 → result ≢ 5 → S.faults source.new ≡ S.faults source.old }
    ensures unasked { 0 < length words.now → source.new ≡ source.old }
{
    match outcome(alloc, words, source) {
        Ok(ending) => end_call(alloc, ending, USAGE, sink),
        Err(_) => NO_MEMORY,
    }
}

/// How a call with these words ends, before anything is written.
fn outcome<S: Source>(alloc: Global, words: &[String], source: &mut S) -> Result<Ending, AllocError>
    ensures ends { IfOk result (out.EndsCapture (length words.now) (S.left source.old) (S.left source.new) (Rose (S.faults source.old) (S.faults source.new))) }
    ensures every_read { IfOk result (λ ending. call.IfServed ending (S.faults source.new ≡ S.faults source.old)) }
    ensures memory { OnErr result (S.faults source.new ≡ S.faults source.old) }
    ensures unasked { 0 < length words.now → source.new ≡ source.old }
{
    if !words.is_empty() {
        return Ok(Ending::Usage);
    }
    match take_report(alloc, source)? {
        Taken::Told(told) => Ok(Ending::Made(capture_of(alloc, &told)?)),
        Taken::Ended(ending) => Ok(ending),
    }
}

/// The capture of a record.
#[tactic(auto, unfolding(crate::specs::Outcome::pcap_of))]
fn capture_of(alloc: Global, told: &Record) -> Result<Octets, AllocError>
    ensures { IfOk result (λ bytes. bytes ≡ out.pcap_of told.now) }
{
    let packets = captured(alloc, told.journal.as_slice())?;
    pcapng(alloc, packets.as_slice())
}
