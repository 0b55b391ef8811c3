//! The commands of the first event that is not processed.
ghost use Rattle.std.specs.Prelude.{◌≡◌, ◌<◌, ◌≤◌, ℕ, false, ◌&&◌, map, filter, nat_eq, nat_lt, get_or, length, IfOk};
ghost use Rattle.std.specs.List.{list_any, range_with_len};
ghost use Rattle.dispatcher.specs.Few.{values_in};
ghost use Rattle.dispatcher.specs.Ledger.{as_numbered, cleared_of_life, first_commands, has_told, is_addressed, is_outstanding, wants};

use crate::answers::AckThrough;
use crate::few::Few;
use crate::ledger::Ledger;
use crate::marks::ViewMarks;
use crate::numbered::NumberedOrder;
use app_core::Issued;
use std::alloc::{AllocError, Global};

/// Whether a command of the first event that is not processed wants a result. The last is asked first, since results
/// mostly come in the order of the commands.
pub(crate) fn wants_one(ledger: &Ledger, marks: &ViewMarks) -> bool
    ensures { result ≡ list_any (wants ledger.now marks.now.marks) (first_commands ledger.now.pending.items) }
{
    let mut commands = ledger.first();
    'commands: while let Some((last, earlier)) = commands.split_last() {
        if wants(ledger, marks, last) {
            return true;
        }
        commands = earlier;
    }
    false
}

/// The commands of the first event that is not processed that want a result, on switches that took this controller
/// as master.
pub(crate) fn outstanding(
    alloc: Global,
    ledger: &Ledger,
    marks: &ViewMarks,
) -> Result<Few<NumberedOrder>, AllocError>
    ensures { IfOk result (λ list. values_in list ≡ map (as_numbered ledger.now) (filter (is_outstanding ledger.now marks.now.marks) (first_commands ledger.now.pending.items))) }
{
    let mut list = Few::Nothing;
    for command in ledger.first() {
        if is_outstanding(ledger, marks, command) {
            list.push(alloc, number(ledger, command)?)?;
        }
    }
    Ok(list)
}

/// Those of them on one switch.
pub(crate) fn outstanding_on(
    alloc: Global,
    switch: u8,
    ledger: &Ledger,
    marks: &ViewMarks,
) -> Result<Few<NumberedOrder>, AllocError>
    ensures { IfOk result (λ list. values_in list ≡ map (as_numbered ledger.now) (filter (λ x. is_outstanding ledger.now marks.now.marks x && nat_eq x.switch switch) (first_commands ledger.now.pending.items))) }
{
    let mut list = Few::Nothing;
    for command in ledger.first() {
        if is_outstanding(ledger, marks, command) && command.switch == switch {
            list.push(alloc, number(ledger, command)?)?;
        }
    }
    Ok(list)
}

/// What each switch whose present life has one of these commands is told, ascending.
pub(crate) fn clears(
    alloc: Global,
    switches: u8,
    ledger: &Ledger,
    commands: &[Issued],
) -> Result<Few<AckThrough>, AllocError>
    ensures { IfOk result (λ list. values_in list ≡ map (cleared_of_life ledger.now) (filter (has_told ledger.now commands.now) (range_with_len 0 switches))) }
{
    let told = told_switches(ledger, commands);
    let (first, end) = span_of(switches, commands);
    let mut list = Few::Nothing;
    for switch in first..end {
        if told[usize::from(switch)] {
            list.push(alloc, cleared(ledger, switch))?;
        }
    }
    Ok(list)
}

/// Whether a command still wants a result: none came, and its life goes on.
fn wants(ledger: &Ledger, marks: &ViewMarks, command: &Issued) -> bool
    ensures { result ≡ wants ledger.now marks.now.marks command.now }
{
    !marks.has_result(command.switch, command.life, command.number)
        && !ledger.has_ended(command.switch, command.life)
}

/// Whether a command wants a result, and its switch took this controller as master.
fn is_outstanding(ledger: &Ledger, marks: &ViewMarks, command: &Issued) -> bool
    ensures { result ≡ is_outstanding ledger.now marks.now.marks command.now }
{
    wants(ledger, marks, command) && marks.is_confirmed(command.switch)
}

/// A command as it is sent.
fn number(ledger: &Ledger, command: &Issued) -> Result<NumberedOrder, AllocError>
    ensures { IfOk result (λ n. n ≡ as_numbered ledger.now command.now) }
{
    let counts = ledger.counts_of(command.switch, command.life);
    Ok(NumberedOrder {
        switch: command.switch,
        life: command.life,
        number: command.number,
        settled: counts.settled,
        order: command.order.copy()?,
    })
}

/// Of each switch, whether its present life has one of these commands.
fn told_switches(ledger: &Ledger, commands: &[Issued]) -> [bool; 256]
    ensures { (switch : ℕ) → switch < 256 → get_or result switch false ≡ has_told ledger.now commands.now switch }
{
    let mut told = [false; 256];
    for command in commands {
        if !ledger.has_ended(command.switch, command.life) {
            told[usize::from(command.switch)] = true;
        }
    }
    told
}

/// Between which numbers the switches of commands lie, of so many: from the first one on, and below the second.
fn span_of(switches: u8, commands: &[Issued]) -> (u8, u8)
    ensures within { (result.0 ≤ switches) × (result.1 ≤ switches) }
    ensures below { (switch : ℕ) → switch < result.0 → is_addressed commands.now switch ≡ false }
    ensures above { (switch : ℕ) → result.1 ≤ switch → switch < switches → is_addressed commands.now switch ≡ false }
{
    let (mut first, mut end) = (switches, 0);
    for command in commands {
        first = first.min(command.switch);
        end = end.max(command.switch.saturating_add(1).min(switches));
    }
    (first, end)
}

/// How many commands of the present life of a switch are settled.
fn cleared(ledger: &Ledger, switch: u8) -> AckThrough
    ensures { result ≡ cleared_of_life ledger.now switch }
{
    let life = ledger.life_of(switch);
    AckThrough {
        switch,
        life,
        through: ledger.counts_of(switch, life).settled,
    }
}
