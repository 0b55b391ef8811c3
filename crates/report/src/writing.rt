//! Writing a report to a sink.
ghost use Rattle.std.specs.Prelude.{◌≡◌, ◌≤◌, Err, OnOk};
ghost use Rattle.std.specs.Io.KnownBytes.{Appends};
ghost use Rattle.journal.specs.Causes.{Rose};
ghost use Rattle.report.specs.Report.{text};
ghost use Rattle.streams.specs.Fronts.{AppendsFront};
ghost use Rattle.streams.specs.declared.fault.StreamFault.TheVariants as faults;

use crate::record::Record;
use crate::report_text::text;
use journal::Sink;
use std::alloc::Global;
use streams::StreamFault;

/// Writes the text of a report to a sink, once the whole text stands. No refused write is tried again.
pub fn write_report<K: Sink>(
    alloc: Global,
    told: &mut Record,
    sink: &mut K,
) -> Result<(), StreamFault>
    ensures ok { OnOk result (Appends (K.taken sink.old) (K.taken sink.new) (text told.old)) }
    ensures front { result ≡ Err faults.Failed → AppendsFront (K.taken sink.old) (K.taken sink.new) (text told.old) }
    ensures cause { result ≡ Err faults.Failed → Rose (K.faults sink.old) (K.faults sink.new) }
    ensures later { K.faults sink.old ≤ K.faults sink.new }
    ensures served { OnOk result (K.faults sink.new ≡ K.faults sink.old) }
    ensures unchanged { result ≡ Err faults.OutOfMemory → sink.new ≡ sink.old }
{
    let text = text(alloc, told)?;
    text.write_to(sink)?;
    Ok(())
}
