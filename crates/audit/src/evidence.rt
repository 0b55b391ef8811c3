//! What the lines of the switches tell of the log.
ghost use Rattle.std.specs.Prelude.{◌≡◌, ◌||◌, ℕ, false, length, get_or, replicate, is_some, IfOk, OnOk};
ghost use Rattle.std.specs.List.{list_any};
ghost use Rattle.audit.specs.Names.{Name, value_of};
ghost use Rattle.audit.specs.Judging.{tells_event, is_told_as_executed, executed_as_told, is_executed};

use crate::named::{Name, Named};
use crate::received::Received;
use of_types::{Event, Executed, Items};
use report::SwitchRecord;
use std::alloc::{AllocError, Global};

/// What the lines of a log are judged by: which received events have an equal event line, which commands have an executed
/// line, and the names of the commands for each event.
#[derive(Drop)]
pub struct Evidence {
    pub told: Vec<bool>,
    pub executed: Named<()>,
    pub names: Items<Items<Name>>,
}

/// Marks the event that a line tells of.
fn mark(told: &mut [bool], received: &Received, line: &Event)
    requires { length told.old ≡ length received.now }
    ensures { (i : ℕ) → get_or told.new i false ≡ (get_or told.old i false || tells_event received.now i line.now) }
{
    if let Some(at) = received.find(line) {
        told[at] = true;
    }
}

fn mark_each(told: &mut [bool], received: &Received, lines: &[Event])
    requires { length told.old ≡ length received.now }
    ensures { (i : ℕ) → get_or told.new i false ≡ (get_or told.old i false || list_any (tells_event received.now i) lines.now) }
{
    for line in lines {
        mark(told, received, line);
    }
}

fn mark_all(told: &mut [bool], received: &Received, switches: &[SwitchRecord])
    requires { length told.old ≡ length received.now }
    ensures { (i : ℕ) → get_or told.new i false ≡ (get_or told.old i false || is_told_as_executed received.now switches.now i) }
{
    for lines in switches {
        mark_each(told, received, lines.events.as_slice());
    }
}

fn unmarked(alloc: Global, count: usize) -> Result<Vec<bool>, AllocError>
    ensures { IfOk result (λ marks. marks.items ≡ replicate count false) }
{
    let mut marks = Vec::new(alloc);
    marks.resize(count, false)?;
    Ok(marks)
}

/// Which received events have an equal event line.
pub fn told_events(
    alloc: Global,
    received: &Received,
    switches: &[SwitchRecord],
) -> Result<Vec<bool>, AllocError>
    ensures { IfOk result (λ told. (i : ℕ) → get_or told.items i false ≡ is_told_as_executed received.now switches.now i) }
{
    let mut told = unmarked(alloc, received.len())?;
    mark_all(told.as_mut_slice(), received, switches);
    Ok(told)
}

fn note_each(names: &mut Named<()>, switch: usize, executed: &[Executed]) -> Result<(), AllocError>
    ensures { OnOk result ((q : Name) → is_some (value_of names.new q) ≡ (is_some (value_of names.old q) || list_any (executed_as_told switch q) executed.now)) }
{
    for command in executed {
        names.note((switch, command.life, command.number), ())?;
    }
    Ok(())
}

/// The names of the commands that have an executed line.
pub fn executed_names(alloc: Global, switches: &[SwitchRecord]) -> Result<Named<()>, AllocError>
    ensures { IfOk result (λ names. (q : Name) → is_some (value_of names q) ≡ is_executed 0 switches.now q) }
{
    let mut names = Named::new(alloc);
    let mut switch = 0usize;
    for lines in switches {
        note_each(&mut names, switch, lines.executed.as_slice())?;
        switch += 1;
    }
    Ok(names)
}
