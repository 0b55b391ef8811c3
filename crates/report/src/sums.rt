//! What the last line of a report sums up.
ghost use Rattle.std.specs.Prelude.{◌≡◌, ◌++◌, length, sum_by, IfOk, OnOk};
ghost use Rattle.report.specs.Report.{end_line, sum_words, sums_words};
ghost use Rattle.report.specs.Sums.{sums_in, sums_line};

use crate::parts::ReportText;
use crate::record::{Record, SwitchRecord};
use crate::sheet::{Growing, Sheet};
use crate::words::{write_labelled, write_newline};
use std::alloc::{AllocError, Global};

/// How many turns the script and the closing of a run were, and how many events, entries of the log, executed commands and rows
/// there are of it.
#[derive(Clone, Copy)]
pub struct Sums {
    pub script: u64,
    pub closing: u64,
    pub events: u128,
    pub entries: u64,
    pub executed: u128,
    pub rows: u128,
}

/// How many events, executed commands and rows the switches have.
fn counts(switches: &[SwitchRecord]) -> (u128, u128, u128)
    ensures events { result.0 ≡ sum_by (λ t. length t.events) switches.now }
    ensures executed { result.1 ≡ sum_by (λ t. length t.executed) switches.now }
    ensures rows { result.2 ≡ sum_by (λ t. length t.rows) switches.now }
{
    let (mut events, mut executed, mut rows) = (0u128, 0u128, 0u128);
    for told in switches {
        events += told.events.len() as u128;
        executed += told.executed.len() as u128;
        rows += told.rows.len() as u128;
    }
    (events, executed, rows)
}

#[tactic(auto, unfolding(crate::specs::Report::number_text))]
fn write_counts<G: Growing>(
    out: &mut G,
    events: u128,
    entries: u64,
    executed: u128,
    rows: u128,
) -> Result<(), AllocError>
    ensures { OnOk result (G.bytes out.new ≡ G.bytes out.old ++ sums_words events entries executed rows) }
{
    write_labelled(out, b"events", events)?;
    write_labelled(out, b"log", entries)?;
    write_labelled(out, b"commands", executed)?;
    write_labelled(out, b"rows", rows)
}

#[tactic(auto, unfolding(crate::specs::Report::sum_words))]
pub fn write_sum_words<G: Growing>(
    out: &mut G,
    entries: usize,
    switches: &[SwitchRecord],
) -> Result<(), AllocError>
    ensures { OnOk result (G.bytes out.new ≡ G.bytes out.old ++ sum_words entries switches.now) }
{
    let (events, executed, rows) = counts(switches);
    write_counts(out, events, entries as u64, executed, rows)
}

/// The sums of a record.
fn sums_in(told: &Record) -> Sums
    ensures { result ≡ sums_in told.now }
{
    let (events, executed, rows) = counts(told.switches.as_slice());
    Sums {
        script: told.script,
        closing: told.closing,
        events,
        entries: told.log.len() as u64,
        executed,
        rows,
    }
}

#[tactic(auto, unfolding(crate::specs::Report::number_text, crate::specs::Sums::sums_line))]
fn write_sums(out: &mut Sheet, sums: &Sums) -> Result<(), AllocError>
    ensures { OnOk result (out.new ≡ out.old ++ sums_line sums.now) }
{
    out.append(b"end")?;
    write_labelled(out, b"script", sums.script)?;
    write_labelled(out, b"closing", sums.closing)?;
    write_counts(out, sums.events, sums.entries, sums.executed, sums.rows)?;
    write_newline(out)
}

/// Writes the last line of a report.
#[tactic(auto, unfolding(crate::specs::Report::end_line, crate::specs::Report::sum_words, crate::specs::Sums::sums_line))]
pub fn write_end(out: &mut Sheet, told: &Record) -> Result<(), AllocError>
    ensures { OnOk result (out.new ≡ out.old ++ end_line told.now) }
{
    write_sums(out, &sums_in(told))
}

/// The last line of each report with these sums, alone.
pub fn last_line(alloc: Global, sums: &Sums) -> Result<ReportText, AllocError>
    ensures { IfOk result (λ line. line ≡ sums_line sums.now) }
{
    let mut out = Sheet::new(alloc);
    write_sums(&mut out, sums)?;
    out.into_text()
}
