//! The lines of the switches.
ghost use Rattle.std.specs.Prelude.{◌≡◌, ◌++◌, OnOk};
ghost use Rattle.report.specs.Report.{lines_of, executed_line, row_line, role_words, count_words, switch_line, told_lines, switch_lines};

use crate::line::Line;
use crate::lines::write_each;
use crate::record::{RowRecord, SwitchRecord};
use crate::sheet::Sheet;
use crate::words::{write_hex, write_labelled, write_newline, write_number};
use journal::Actor;
use of_match::bare_match;
use of_messages::actions_of;
use of_ravana::canonical_order;
use of_types::Executed;
use std::alloc::{AllocError, Global};

#[tactic(auto, unfolding(crate::specs::Report::switch_lines))]
pub fn write_switches(
    alloc: Global,
    out: &mut Sheet,
    switches: &[SwitchRecord],
) -> Result<(), AllocError>
    ensures { OnOk result (out.new ≡ out.old ++ switch_lines 0 switches.now) }
{
    for (switch, told) in switches.iter().enumerate() {
        write_told(alloc, out, switch, told)?;
    }
    Ok(())
}

#[tactic(auto, unfolding(crate::specs::Report::line))]
fn write_executed(
    alloc: Global,
    out: &mut Sheet,
    switch: usize,
    command: &Executed,
) -> Result<(), AllocError>
    ensures { OnOk result (out.new ≡ out.old ++ executed_line switch command.now) }
{
    let mut held = canonical_order(alloc, &command.order)?;
    let mut line = Line::new();
    line.begin(b"executed");
    line.number(switch as u64);
    line.number(u64::from(command.life));
    line.number(command.number);
    line.number(command.generation);
    line.actor(Actor::Controller(command.from));
    line.end_with(alloc, out, &mut held)
}

#[tactic(auto, unfolding(crate::specs::Report::lines_of))]
fn write_executed_all(
    alloc: Global,
    out: &mut Sheet,
    switch: usize,
    commands: &[Executed],
) -> Result<(), AllocError>
    ensures { OnOk result (out.new ≡ out.old ++ lines_of (executed_line switch) commands.now) }
{
    for command in commands {
        write_executed(alloc, out, switch, command)?;
    }
    Ok(())
}

#[tactic(auto, unfolding(crate::specs::Report::line))]
fn write_row(
    alloc: Global,
    out: &mut Sheet,
    switch: usize,
    row: &RowRecord,
) -> Result<(), AllocError>
    ensures { OnOk result (out.new ≡ out.old ++ row_line switch row.now) }
{
    let matching = bare_match(alloc, &row.matching)?;
    let actions = actions_of(alloc, row.actions.as_slice())?;
    let mut line = Line::new();
    line.begin(b"row");
    line.number(switch as u64);
    line.number(u64::from(row.priority));
    line.write(out)?;
    write_hex(out, matching.as_slice())?;
    write_hex(out, actions.as_slice())?;
    write_newline(out)
}

#[tactic(auto, unfolding(crate::specs::Report::lines_of))]
fn write_rows(
    alloc: Global,
    out: &mut Sheet,
    switch: usize,
    rows: &[RowRecord],
) -> Result<(), AllocError>
    ensures { OnOk result (out.new ≡ out.old ++ lines_of (row_line switch) rows.now) }
{
    for row in rows {
        write_row(alloc, out, switch, row)?;
    }
    Ok(())
}

#[tactic(auto, unfolding(crate::specs::Report::labelled, crate::specs::Report::role_words))]
fn write_role_words(out: &mut Sheet, told: &SwitchRecord) -> Result<(), AllocError>
    ensures { OnOk result (out.new ≡ out.old ++ role_words told.now) }
{
    let mut line = Line::new();
    line.text(b"generation");
    line.number_or_dash(told.generation);
    line.text(b"master");
    line.master(told.master);
    line.text(b"life");
    line.number(u64::from(told.life));
    line.write(out)
}

#[tactic(auto, unfolding(crate::specs::Report::number_text, crate::specs::Report::count_words))]
fn write_count_words(out: &mut Sheet, told: &SwitchRecord) -> Result<(), AllocError>
    ensures { OnOk result (out.new ≡ out.old ++ count_words told.now) }
{
    write_labelled(out, b"events", told.events.len())?;
    write_labelled(out, b"held", told.held)?;
    write_labelled(out, b"executed", told.executed.len())?;
    write_labelled(out, b"rows", told.rows.len())?;
    write_labelled(out, b"sent", told.sent)
}

#[tactic(auto, unfolding(crate::specs::Report::number_text, crate::specs::Report::switch_line))]
fn write_switch_line(out: &mut Sheet, switch: usize, told: &SwitchRecord) -> Result<(), AllocError>
    ensures { OnOk result (out.new ≡ out.old ++ switch_line switch told.now) }
{
    out.append(b"switch")?;
    write_number(out, switch)?;
    write_role_words(out, told)?;
    write_count_words(out, told)?;
    write_newline(out)
}

#[tactic(auto, unfolding(crate::specs::Report::told_lines))]
fn write_told(
    alloc: Global,
    out: &mut Sheet,
    switch: usize,
    told: &SwitchRecord,
) -> Result<(), AllocError>
    ensures { OnOk result (out.new ≡ out.old ++ told_lines switch told.now) }
{
    write_switch_line(out, switch, told)?;
    write_each(alloc, out, told.events.as_slice())?;
    write_executed_all(alloc, out, switch, told.executed.as_slice())?;
    write_rows(alloc, out, switch, told.rows.as_slice())
}
