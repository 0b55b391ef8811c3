//! The lines of the switches, held against the log.
ghost use Rattle.std.specs.Prelude.{◌≡◌, ◌+◌, ◌-◌, ◌&&◌, ℕ, not, nat_eq, nat_le, map, if◌then◌else◌, length, count_by, Option, IfOk};
ghost use Rattle.audit.specs.Audit.{first_failing};
ghost use Rattle.audit.specs.Judging.{is_processed_in, events_fail_by, executed_fails_by, told_fails_by, switches_fail_by};

use crate::counting::add;
use crate::named::Named;
use crate::received::Received;
use crate::same::same_order;
use of_types::{Event, Executed, Order};
use report::SwitchRecord;
use std::alloc::AllocError;

/// What the lines of the switches are judged by: the received events, how many of them are processed, and what is issued
/// for them.
#[derive(Drop)]
pub struct Committed {
    pub received: Received,
    pub processed: usize,
    pub orders: Named<Order>,
}

/// Whether an event stands among those that are processed.
fn is_processed(line: &Event, committed: &Committed) -> bool
    ensures { result ≡ is_processed_in committed.now line.now }
{
    match committed.received.find(line) {
        Some(place) => place < committed.processed,
        None => false,
    }
}

fn count_of_life(life: u32, events: &[Event]) -> u64
    ensures { result ≡ count_by (λ e. nat_eq e.life life) events.now }
{
    events.iter().filter(|event| event.life == life).count() as u64
}

/// How many lines of a life are left behind a line, of so many from it on.
fn left_behind(left: u64, life: u32, line: &Event) -> u64
    ensures { result ≡ left - (if nat_eq line.now.life life then 1 else 0) }
{
    if line.life == life {
        left.saturating_sub(1)
    } else {
        left
    }
}

/// Whether a line of the present life is neither among the last ones that are held, with so many behind it, nor processed.
fn event_fails(left: u64, told: &SwitchRecord, line: &Event, committed: &Committed) -> bool
    ensures { result ≡ (nat_eq line.now.life told.now.life && nat_le told.now.held left && not (is_processed_in committed.now line.now)) }
{
    line.life == told.life && told.held <= left && !is_processed(line, committed)
}

/// The first event line that fails. They are numbered from this line on.
fn first_of_events(
    line: u64,
    told: &SwitchRecord,
    committed: &Committed,
) -> Result<Option<u64>, AllocError>
    ensures { IfOk result (λ first. first ≡ first_failing line (events_fail_by committed.now told.now.life told.now.held told.now.events)) }
{
    let mut left = count_of_life(told.life, told.events.as_slice());
    let mut number = line;
    for event in told.events.as_slice() {
        left = left_behind(left, told.life, event);
        if event_fails(left, told, event, committed) {
            return Ok(Some(number));
        }
        number = add(number, 1)?;
    }
    Ok(None)
}

/// Whether an executed line is not what was issued.
fn fails(switch: usize, command: &Executed, committed: &Committed) -> bool
    ensures { result ≡ executed_fails_by committed.now switch command.now }
{
    match committed.orders.get((switch, command.life, command.number)) {
        Some(order) => !same_order(order, &command.order),
        None => true,
    }
}

/// The first executed line that fails. They are numbered from this line on.
fn first_of_executed(
    line: u64,
    switch: usize,
    executed: &[Executed],
    committed: &Committed,
) -> Result<Option<u64>, AllocError>
    ensures { IfOk result (λ first. first ≡ first_failing line (map (executed_fails_by committed.now switch) executed.now)) }
{
    let mut number = line;
    for command in executed {
        if fails(switch, command, committed) {
            return Ok(Some(number));
        }
        number = add(number, 1)?;
    }
    Ok(None)
}

/// The first line of a switch that fails, of its own line and those that it counts. They are numbered from this line on.
fn first_of_switch(
    line: u64,
    switch: usize,
    told: &SwitchRecord,
    committed: &Committed,
) -> Result<Option<u64>, AllocError>
    ensures { IfOk result (λ first. first ≡ first_failing line (told_fails_by committed.now switch told.now)) }
{
    let events = add(line, 1)?;
    match first_of_events(events, told, committed)? {
        Some(first) => Ok(Some(first)),
        None => {
            let executed = add(events, told.events.len() as u64)?;
            first_of_executed(executed, switch, told.executed.as_slice(), committed)
        }
    }
}

/// The line behind those of a switch.
fn behind(
    line: u64,
    switch: usize,
    told: &SwitchRecord,
    committed: &Committed,
) -> Result<u64, AllocError>
    ensures { IfOk result (λ next. next ≡ line + length (told_fails_by committed.now switch told.now)) }
{
    let events = add(line, 1)?;
    let executed = add(events, told.events.len() as u64)?;
    let rows = add(executed, told.executed.len() as u64)?;
    add(rows, told.rows.len() as u64)
}

/// The first line of the switches that fails. They are numbered from this line on.
pub fn first_of_switches(
    line: u64,
    switches: &[SwitchRecord],
    committed: &Committed,
) -> Result<Option<u64>, AllocError>
    ensures { IfOk result (λ first. first ≡ first_failing line (switches_fail_by committed.now 0 switches.now)) }
{
    let mut number = line;
    let mut switch = 0usize;
    for told in switches {
        match first_of_switch(number, switch, told, committed)? {
            Some(first) => return Ok(Some(first)),
            None => {}
        }
        number = behind(number, switch, told, committed)?;
        switch += 1;
    }
    Ok(None)
}
