//! The text of a report.
ghost use Rattle.std.specs.Prelude.{◌≡◌, ◌≤◌, ◌^◌, ◌++◌, length, map, IfOk, OnOk};
ghost use Rattle.journal.specs.Entries.{Tile, whole_entry};
ghost use Rattle.vr_log.specs.Log.{entry_size, log_size};
ghost use Rattle.report.specs.Report.{end_line, port_line, port_lines, setup_line, setup_lines, log_lines, switch_lines, text};

use crate::heads::write_heads;
use crate::line::Line;
use crate::lines::{write_each, write_journal};
use crate::parts::ReportText;
use crate::record::Record;
use crate::sheet::Sheet;
use crate::sums::write_end;
use crate::switches::write_switches;
use journal::{Head, Mailbag};
use of_types::{Happening, Octets, Setup, size_of_match};
use std::alloc::{AllocError, Global};
use vr_log::Entry;

/// The bytes of a log.
pub fn size_of_log(log: &[Entry]) -> u128
    ensures { result ≡ log_size log.now }
{
    let mut size = 0u128;
    for entry in log {
        size += size_of_entry(entry);
    }
    size
}

/// The text of a report. It is made in a fixed number of passes over the record, whose long bodies go to the text.
#[tactic(auto, unfolding(crate::specs::Report::end_line, crate::specs::Report::text))]
pub fn text(alloc: Global, told: &mut Record) -> Result<ReportText, AllocError>
    ensures { IfOk result (λ made. made ≡ text told.old) }
{
    let mut out = Sheet::new(alloc);
    out.append(b"ravana report 1\n")?;
    write_setup(alloc, &mut out, &told.setup)?;
    write_journal(alloc, &mut out, &mut told.journal)?;
    write_behind_journal(alloc, &mut out, told)?;
    out.into_text()
}

/// The text of a report whose journal is kept apart from its letters, as a run leaves it. Long bodies go to the text.
#[tactic(auto, unfolding(crate::specs::Report::end_line, crate::specs::Report::text))]
pub fn text_of_run(
    alloc: Global,
    bare: &Record,
    heads: &mut [Head],
    letters: &mut Mailbag<Octets>,
) -> Result<ReportText, AllocError>
    requires { Tile 0 heads.old (length letters.old) }
    ensures { IfOk result (λ made. made ≡ text (record bare.now { journal = map (whole_entry letters.old) heads.old })) }
{
    let mut out = Sheet::new(alloc);
    out.append(b"ravana report 1\n")?;
    write_setup(alloc, &mut out, &bare.setup)?;
    write_heads(alloc, &mut out, heads, letters)?;
    write_behind_journal(alloc, &mut out, bare)?;
    out.into_text()
}

/// Writes what stands behind the journal.
fn write_behind_journal(alloc: Global, out: &mut Sheet, told: &Record) -> Result<(), AllocError>
    ensures { OnOk result (out.new ≡ out.old ++ (log_lines told.now.log ++ (switch_lines 0 told.now.switches ++ end_line told.now))) }
{
    write_log(alloc, out, told.log.as_slice())?;
    write_switches(alloc, out, told.switches.as_slice())?;
    write_end(out, told)
}

#[tactic(auto, unfolding(crate::specs::Report::line, crate::specs::Report::port_line))]
fn write_port_line(out: &mut Sheet, switch: usize, count: u32) -> Result<(), AllocError>
    ensures { OnOk result (out.new ≡ out.old ++ port_line switch count) }
{
    let mut line = Line::new();
    line.begin(b"ports");
    line.number(switch as u64);
    line.number(u64::from(count));
    line.end(out)
}

/// Writes how many ports each switch has.
#[tactic(auto, unfolding(crate::specs::Report::port_lines))]
fn write_ports(out: &mut Sheet, counts: &[u32]) -> Result<(), AllocError>
    ensures { OnOk result (out.new ≡ out.old ++ port_lines 0 counts.now) }
{
    for (switch, count) in counts.iter().enumerate() {
        write_port_line(out, switch, *count)?;
    }
    Ok(())
}

#[tactic(auto, unfolding(crate::specs::Report::line, crate::specs::Report::setup_line))]
fn write_setup_line(out: &mut Sheet, setup: &Setup) -> Result<(), AllocError>
    ensures { OnOk result (out.new ≡ out.old ++ setup_line setup.now) }
{
    let mut line = Line::new();
    line.begin(b"setup");
    line.number(u64::from(setup.controllers));
    line.number(setup.ports.len() as u64);
    line.end(out)
}

#[tactic(auto, unfolding(crate::specs::Report::setup_lines))]
fn write_setup(alloc: Global, out: &mut Sheet, setup: &Setup) -> Result<(), AllocError>
    ensures { OnOk result (out.new ≡ out.old ++ setup_lines setup.now) }
{
    write_setup_line(out, setup)?;
    write_ports(out, setup.ports.as_slice())?;
    write_each(alloc, out, setup.links.as_slice())?;
    write_each(alloc, out, setup.deny.as_slice())
}

/// The bytes of an entry of the log.
fn size_of_entry(entry: &Entry) -> u128
    ensures exact { result ≡ entry_size entry.now }
    ensures small { result ≤ 2 ^ 65 }
{
    match entry {
        Entry::Processed(_) => 9,
        Entry::Received(event) => match &event.what {
            Happening::PacketIn(packet) => 60 + packet.payload.len() as u128,
            Happening::FlowRemoved(removed) => 66 + size_of_match(&removed.get().matching) as u128,
            Happening::PortStatus(_) => 98,
        },
    }
}

#[tactic(auto, unfolding(crate::specs::Report::line, crate::specs::Report::log_lines))]
fn write_log(alloc: Global, out: &mut Sheet, log: &[Entry]) -> Result<(), AllocError>
    ensures { OnOk result (out.new ≡ out.old ++ log_lines log.now) }
{
    let mut line = Line::new();
    line.begin(b"log");
    line.number(log.len() as u64);
    line.sum(size_of_log(log));
    line.end(out)?;
    write_each(alloc, out, log)
}
