//! What is told of the switches.
ghost use Rattle.std.specs.Prelude.{◌≡◌, length, map, sum_by, IfOk};
ghost use Rattle.world_record.specs.Shows as shows;

use app_core::App;
use of_switch::{Switch, SwitchRemains};
use of_types::{Items, Row};
use players::Bytes;
use report::{RowRecord, SwitchRecord};
use std::alloc::{AllocError, Global};
use world::World;

/// How many events, executed commands and rows are told of the switches.
pub fn told_counts<A: App>(world: &World<Bytes, A>) -> (u128, u128, u128)
    ensures events { result.0 ≡ sum_by (λ t. length t.events) (map shows.told_of world.now.switches) }
    ensures executed { result.1 ≡ sum_by (λ t. length t.executed) (map shows.told_of world.now.switches) }
    ensures rows { result.2 ≡ sum_by (λ t. length t.rows) (map shows.told_of world.now.switches) }
{
    let (mut events, mut executed, mut rows) = (0u128, 0u128, 0u128);
    for switch in world.switches() {
        events += switch.events().len() as u128;
        executed += switch.executed().len() as u128;
        rows += switch.count_rows() as u128;
    }
    (events, executed, rows)
}

/// What is told of switches, by number, and what is left of each. What they made and carried out is moved out of them.
pub fn told_all(
    alloc: Global,
    switches: Vec<Switch>,
) -> Result<(Items<SwitchRecord>, Vec<SwitchRemains>), AllocError>
    ensures { IfOk result (λ told. told.0 ≡ map shows.told_of switches.items) }
{
    let mut told = Items::from_vec(Vec::with_capacity(alloc, switches.len())?);
    let mut left = Vec::with_capacity(alloc, switches.len())?;
    for switch in switches {
        let (record, remains) = told_of(alloc, switch)?;
        told.push(record)?;
        left.push(remains)?;
    }
    Ok((told, left))
}

/// A row without its cookie.
fn shown_row(row: Row) -> RowRecord
    ensures { result ≡ shows.shown_row row }
{
    RowRecord {
        priority: row.priority,
        matching: row.matching,
        actions: row.actions,
    }
}

fn shown_rows(alloc: Global, rows: Vec<Row>) -> Result<Items<RowRecord>, AllocError>
    ensures { IfOk result (λ shown. shown ≡ map shows.shown_row rows.items) }
{
    let mut shown = Items::from_vec(Vec::with_capacity(alloc, rows.len())?);
    for row in rows {
        shown.push(shown_row(row))?;
    }
    Ok(shown)
}

/// What is told of a switch, and what is left of it.
fn told_of(alloc: Global, switch: Switch) -> Result<(SwitchRecord, SwitchRemains), AllocError>
    ensures { IfOk result (λ told. told.0 ≡ shows.told_of switch) }
{
    let rows = shown_rows(alloc, switch.rows()?)?;
    let (generation, master) = (switch.fence().generation(), switch.fence().master());
    let (life, held, sent) = (switch.life(), switch.held(), switch.sent());
    let told = switch.into_told();
    let record = SwitchRecord {
        generation,
        master,
        life,
        held,
        sent,
        events: Items::from_vec(told.events),
        executed: Items::from_vec(told.executed),
        rows,
    };
    Ok((record, told.remains))
}
