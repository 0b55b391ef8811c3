//! The lines of the switches as they are read.
ghost use Rattle.std.specs.Prelude.{◌≡◌};
ghost use Rattle.report.specs.Lines.{GivesLines};
ghost use Rattle.report.specs.OneLine.{role_words_at, of_at, switch_counts_at, switch_line_at, executed_words_at};
ghost use Rattle.report.specs.Reading.{told_in_text, switches_at};
ghost use Rattle.report.specs.Spelled.{GivesText};

use crate::canonical::{actions, matching, order};
use crate::counted::{CountedLine, read_each};
use crate::fault::{Broken, Misfit, on_line};
use crate::log_lines::event_words;
use crate::record::{RowRecord, SwitchRecord};
use crate::spelled::{
    after, controller, ended, known, labelled, master, number8, number16, number32, number64,
    number64_or_dash,
};
use of_types::{Event, Executed, Items};
use std::alloc::Global;

/// What the line of a switch tells.
#[derive(Drop)]
struct SwitchLine {
    generation: Option<u64>,
    master: Option<u8>,
    life: u32,
    events: u64,
    held: u64,
    executed: u64,
    rows: u64,
    sent: u64,
}

/// The generation, the master and the life.
#[tactic(auto, unfolding(crate::specs::OneLine::role_words_at))]
fn role_words(bytes: &[u8]) -> Result<((Option<u64>, Option<u8>, u32), &[u8]), Misfit>
    ensures { GivesText (λ x. (x.0, x.1.now)) result (role_words_at bytes.now) }
{
    let rest = known(b"generation", bytes)?;
    let (generation, rest) = number64_or_dash(rest)?;
    let rest = known(b"master", rest)?;
    let (master, rest) = master(rest)?;
    let rest = known(b"life", rest)?;
    let (life, rest) = number32(rest)?;
    Ok(((generation, master, life), rest))
}

/// The number of the switch that a line is of.
#[tactic(auto, unfolding(crate::specs::OneLine::of_at))]
fn is_of(switch: usize, bytes: &[u8]) -> Result<&[u8], Misfit>
    ensures { GivesText (λ x. x.now) result (of_at switch bytes.now) }
{
    let (named, rest) = number8(bytes)?;
    if usize::from(named) == switch {
        Ok(rest)
    } else {
        Err(Misfit::Text)
    }
}

/// The counts, behind the generation, the master and the life.
#[tactic(auto, unfolding(crate::specs::OneLine::switch_counts_at))]
fn switch_counts(
    role: (Option<u64>, Option<u8>, u32),
    bytes: &[u8],
) -> Result<(SwitchLine, &[u8]), Misfit>
    ensures { GivesText (λ x. (x.0, x.1.now)) result (switch_counts_at role bytes.now) }
{
    let (generation, master, life) = role;
    let (events, rest) = labelled(b"events", bytes)?;
    let (held, rest) = labelled(b"held", rest)?;
    let (executed, rest) = labelled(b"executed", rest)?;
    let (rows, rest) = labelled(b"rows", rest)?;
    let (sent, rest) = labelled(b"sent", rest)?;
    ended(
        SwitchLine {
            generation,
            master,
            life,
            events,
            held,
            executed,
            rows,
            sent,
        },
        rest,
    )
}

#[tactic(auto, unfolding(crate::specs::OneLine::switch_line_at))]
fn switch_line(switch: usize, bytes: &[u8]) -> Result<(SwitchLine, &[u8]), Misfit>
    ensures { GivesText (λ x. (x.0, x.1.now)) result (switch_line_at switch bytes.now) }
{
    let rest = after(b"switch", bytes)?;
    let rest = is_of(switch, rest)?;
    let (role, rest) = role_words(rest)?;
    switch_counts(role, rest)
}

impl CountedLine for Event {
    ghost use Rattle.report.specs.OneLine.{event_in_text};

    ghost line_at = { event_in_text };

    #[tactic(auto, unfolding(crate::specs::OneLine::event_in_text))]
    fn read_line(alloc: Global, switch: usize, bytes: &[u8]) -> Result<(Event, &[u8]), Misfit> {
        let rest = after(b"event", bytes)?;
        let (event, rest) = event_words(alloc, rest)?;
        if usize::from(event.switch) == switch {
            Ok((event, rest))
        } else {
            drop(event);
            Err(Misfit::Text)
        }
    }
}

/// A command, behind the number of its switch.
#[tactic(auto, unfolding(crate::specs::OneLine::executed_words_at))]
fn executed_words(alloc: Global, bytes: &[u8]) -> Result<(Executed, &[u8]), Misfit>
    ensures { GivesText (λ x. (x.0, x.1.now)) result (executed_words_at bytes.now) }
{
    let (life, rest) = number32(bytes)?;
    let (number, rest) = number64(rest)?;
    let (generation, rest) = number64(rest)?;
    let (from, rest) = controller(rest)?;
    let (order, rest) = order(alloc, rest)?;
    ended(
        Executed {
            life,
            number,
            generation,
            from,
            order,
        },
        rest,
    )
}

impl CountedLine for Executed {
    ghost use Rattle.report.specs.OneLine.{executed_at};

    ghost line_at = { executed_at };

    #[tactic(auto, unfolding(crate::specs::OneLine::executed_at))]
    fn read_line(alloc: Global, switch: usize, bytes: &[u8]) -> Result<(Executed, &[u8]), Misfit> {
        let rest = after(b"executed", bytes)?;
        let rest = is_of(switch, rest)?;
        executed_words(alloc, rest)
    }
}

impl CountedLine for RowRecord {
    ghost use Rattle.report.specs.OneLine.{row_at};

    ghost line_at = { row_at };

    #[tactic(auto, unfolding(crate::specs::OneLine::row_at))]
    fn read_line(alloc: Global, switch: usize, bytes: &[u8]) -> Result<(RowRecord, &[u8]), Misfit> {
        let rest = after(b"row", bytes)?;
        let rest = is_of(switch, rest)?;
        let (priority, rest) = number16(rest)?;
        let (matching, rest) = matching(alloc, rest)?;
        let (actions, rest) = actions(alloc, rest)?;
        ended(
            RowRecord {
                priority,
                matching,
                actions,
            },
            rest,
        )
    }
}

#[tactic(auto, unfolding(crate::specs::Reading::told_in_text))]
fn told(alloc: Global, switch: usize, bytes: &[u8]) -> Result<(SwitchRecord, &[u8]), Broken>
    ensures { GivesLines (λ x. (x.0, x.1.now)) result (told_in_text switch bytes.now) }
{
    let (line, rest) = on_line(bytes, switch_line(switch, bytes))?;
    let SwitchLine {
        generation,
        master,
        life,
        events,
        held,
        executed,
        rows,
        sent,
    } = line;
    let (events, rest) = read_each(alloc, switch, events, rest)?;
    let (executed, rest) = read_each(alloc, switch, executed, rest)?;
    let (rows, rest) = read_each(alloc, switch, rows, rest)?;
    Ok((
        SwitchRecord {
            generation,
            master,
            life,
            held,
            sent,
            events,
            executed,
            rows,
        },
        rest,
    ))
}

/// What is told of so many switches.
#[tactic(auto, unfolding(crate::specs::Reading::switches_at))]
pub fn switches(
    alloc: Global,
    count: usize,
    bytes: &[u8],
) -> Result<(Items<SwitchRecord>, &[u8]), Broken>
    ensures { GivesLines (λ x. (x.0, x.1.now)) result (switches_at count 0 bytes.now) }
{
    let mut switches = Items::new(alloc);
    let mut rest = bytes;
    for switch in 0..count {
        let (told, after) = told(alloc, switch, rest)?;
        switches.push(told)?;
        rest = after;
    }
    Ok((switches, rest))
}
