//! What an accepted FLOW_MOD does with rows (OpenFlow 1.3, 6.4).
ghost use Rattle.std.specs.Prelude.{ℕ, ◌≡◌, ◌≤◌, ◌<◌, ◌+◌, [], ◌∷◌, ◌++◌, length, map, take, drop, filter, not, nat_eq, replicate, IfOk, OnOk, OnErr};
ghost use Rattle.std.specs.List.{list_any, count_by};
ghost use Rattle.flow_table.specs.Table.{row_of, same_key, with_row, is_strict, is_named, is_deleted, modified};

use of_types::{ANY_GROUP, ANY_PORT, Actions, FlowCommand, FlowMod, Row, covers, same_match};
use std::alloc::{AllocError, Global};

/// Whether a row has the change's match and priority.
pub fn has_key(row: &Row, change: &FlowMod) -> bool
    ensures { result ≡ same_key row.now (row_of change.now) }
{
    row.priority == change.priority && same_match(&row.matching, &change.matching)
}

/// A copy of a change's actions.
pub fn copy_actions(change: &FlowMod) -> Result<Actions, AllocError>
    ensures { IfOk result (λ actions. actions ≡ change.now.actions) }
{
    change.actions.clone()
}

/// The row that an ADD tells of.
pub fn row_of(change: &FlowMod) -> Result<Row, AllocError>
    ensures { IfOk result (λ row. row ≡ row_of change.now) }
{
    Ok(Row {
        priority: change.priority,
        cookie: change.cookie,
        matching: change.matching,
        actions: copy_actions(change)?,
    })
}

/// The place of the row with the change's match and priority, or the number of rows.
fn place_of(rows: &[Row], change: &FlowMod) -> usize
    ensures within { result ≤ length rows.now }
    ensures known { result < length rows.now → with_row rows.now (row_of change.now) ≡ take result rows.now ++ row_of change.now ∷ drop (result + 1) rows.now }
    ensures new { result ≡ length rows.now → with_row rows.now (row_of change.now) ≡ rows.now ++ row_of change.now ∷ [] }
{
    for (place, row) in rows.iter().enumerate() {
        if has_key(row, change) {
            return place;
        }
    }
    rows.len()
}

/// Adds a row: in the place of the one of equal match and priority, or last.
pub fn add_row(rows: &mut Vec<Row>, change: &FlowMod) -> Result<(), AllocError>
    ensures ok { IfOk result (λ _. rows.new.items ≡ with_row rows.old.items (row_of change.now)) }
    ensures err { OnErr result (rows.new.items ≡ rows.old.items) }
{
    let place = place_of(rows, change);
    let row = row_of(change)?;
    if place < rows.len() {
        rows[place] = row;
    } else {
        rows.push(row)?;
    }
    Ok(())
}

/// Whether a change names the row of its own match and priority alone.
fn is_strict(command: FlowCommand) -> bool
    ensures { result ≡ is_strict command }
{
    match command {
        FlowCommand::ModifyStrict | FlowCommand::DeleteStrict => true,
        FlowCommand::Add | FlowCommand::Modify | FlowCommand::Delete => false,
    }
}

/// Whether a MODIFY or DELETE names a row, by its match and its cookie.
pub fn is_named(change: &FlowMod, row: &Row) -> bool
    ensures { result ≡ is_named change.now row.now }
{
    let meets = if is_strict(change.command) {
        has_key(row, change)
    } else {
        covers(&change.matching, &row.matching)
    };
    meets && row.cookie & change.cookie_mask == change.cookie & change.cookie_mask
}

/// Whether an output is this port.
fn has_output(actions: &Actions, port: u32) -> bool
    ensures { result ≡ list_any (λ output. nat_eq output port) actions.now }
{
    actions.as_slice().iter().any(|&output| output == port)
}

/// Whether a DELETE takes a row out.
pub fn is_deleted(change: &FlowMod, row: &Row) -> bool
    ensures { result ≡ is_deleted change.now row.now }
{
    is_named(change, row)
        && (change.out_port == ANY_PORT || has_output(&row.actions, change.out_port))
        && change.out_group == ANY_GROUP
}

/// So many copies of a change's actions.
pub fn copies_of(alloc: Global, change: &FlowMod, count: usize) -> Result<Vec<Actions>, AllocError>
    ensures { IfOk result (λ copies. copies.items ≡ replicate count change.now.actions) }
{
    let mut copies = Vec::with_capacity(alloc, count)?;
    for _ in 0..count {
        copies.push(copy_actions(change)?)?;
    }
    Ok(copies)
}

/// Gives a row the actions of a MODIFY, where it is named: the last of some copies, of which there are
/// enough.
pub fn write_row(row: &mut Row, change: &FlowMod, copies: &mut Vec<Actions>)
    ensures { (left : ℕ)
        → copies.old.items ≡ replicate (count_by (is_named change.now) (row.old ∷ []) + left) change.now.actions
        → (row.new ≡ modified change.now row.old) × (copies.new.items ≡ replicate left change.now.actions) }
{
    if is_named(change, row) {
        if let Some(actions) = copies.pop() {
            row.actions = actions;
        }
    }
}

/// Gives the rows that a MODIFY names its actions, of which there is a copy for each.
fn write_actions(rows: &mut [Row], change: &FlowMod, mut copies: Vec<Actions>)
    requires { copies.items ≡ replicate (count_by (is_named change.now) rows.old) change.now.actions }
    ensures { rows.new ≡ map (modified change.now) rows.old }
{
    for row in rows.iter_mut() {
        write_row(row, change, &mut copies);
    }
}

/// Gives the rows that a MODIFY names its actions. An `Err` changes nothing.
pub fn modify_rows(alloc: Global, rows: &mut [Row], change: &FlowMod) -> Result<(), AllocError>
    ensures ok { OnOk result (rows.new ≡ map (modified change.now) rows.old) }
    ensures err { OnErr result (rows.new ≡ rows.old) }
{
    let count = rows.iter().filter(|row| is_named(change, row)).count();
    let copies = copies_of(alloc, change, count)?;
    write_actions(rows, change, copies);
    Ok(())
}

/// Takes out the rows that a DELETE names.
pub fn delete_rows(rows: &mut Vec<Row>, change: &FlowMod)
    ensures { rows.new.items ≡ filter (λ row. not (is_deleted change.now row)) rows.old.items }
{
    rows.retain(|row| !is_deleted(change, row));
}
