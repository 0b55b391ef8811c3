//! What changes make of rows that are found by their places.
ghost use Rattle.std.specs.Prelude.{◌≡◌, ◌<◌, ◌^◌, ℕ, true, replicate, not, Some, IsSome, OnOk, OnErr};
ghost use Rattle.std.specs.BTreeMap.{is_at};
ghost use Rattle.std.specs.List.{count_by};
ghost use Rattle.std.specs.Map.{lookup, set_value, values_of};
ghost use Rattle.of_types.specs.declared.message.Row.{Row};
ghost use Rattle.flow_table.specs.Table.{is_deleted as is_taken_out, is_named as is_meant, is_strict, modified};
ghost use Rattle.flow_index.specs.Entries.{by_place};
ghost use Rattle.flow_index.specs.Index.{AreIndexed, each_row, rows_that};

use crate::entries::with_key;
use crate::place::Place;
use flow_table::{copies_of, copy_actions, is_deleted, is_named, write_row};
use of_types::{Actions, FlowMod, Row};
use std::alloc::{AllocError, Global};
use std::collections::BTreeMap;

/// Puts a row in the place of another.
pub fn replace(rows: &mut BTreeMap<Place, Row>, place: &Place, row: Row)
    ensures { IsSome (lookup (is_at (by_place place.now)) rows.old.entries) → rows.new.entries ≡ set_value (is_at (by_place place.now)) rows.old.entries row }
{
    if let Some(stored) = rows.get_mut(place) {
        *stored = row;
    }
}

/// Gives the row at a place its actions.
fn set_actions(rows: &mut BTreeMap<Place, Row>, place: &Place, actions: Actions)
    ensures { (row : Row) → lookup (is_at (by_place place.now)) rows.old.entries ≡ Some row → rows.new.entries ≡ set_value (is_at (by_place place.now)) rows.old.entries (record row { actions = actions }) }
{
    if let Some(row) = rows.get_mut(place) {
        row.actions = actions;
    }
}

/// Gives the row that a MODIFY_STRICT names its actions. An `Err` changes nothing.
pub fn modify_strict(rows: &mut BTreeMap<Place, Row>, change: &FlowMod) -> Result<(), AllocError>
    requires { is_strict change.now.command ≡ true }
    ensures ok { OnOk result ((next : ℕ) → next < 2 ^ 64 → AreIndexed next rows.old.entries → rows.new.entries ≡ each_row (modified change.now) rows.old.entries) }
    ensures err { OnErr result (rows.new.entries ≡ rows.old.entries) }
{
    let Some((place, row)) = with_key(rows, change) else {
        return Ok(());
    };
    if !is_named(change, row) {
        return Ok(());
    }
    let place = *place;
    let actions = copy_actions(change)?;
    set_actions(rows, &place, actions);
    Ok(())
}

/// Gives the rows that a MODIFY names its actions. An `Err` changes nothing.
pub fn modify(
    alloc: Global,
    rows: &mut BTreeMap<Place, Row>,
    change: &FlowMod,
) -> Result<(), AllocError>
    ensures ok { OnOk result (rows.new.entries ≡ each_row (modified change.now) rows.old.entries) }
    ensures err { OnErr result (rows.new.entries ≡ rows.old.entries) }
{
    let count = rows.values().filter(|row| is_named(change, row)).count();
    let copies = copies_of(alloc, change, count)?;
    write_actions(rows, change, copies);
    Ok(())
}

/// Gives the rows that a MODIFY names its actions, of which there is a copy for each.
fn write_actions(rows: &mut BTreeMap<Place, Row>, change: &FlowMod, mut copies: Vec<Actions>)
    requires { copies.items ≡ replicate (count_by (is_meant change.now) (values_of rows.old.entries)) change.now.actions }
    ensures { rows.new.entries ≡ each_row (modified change.now) rows.old.entries }
{
    rows.retain(|_, row| {
        write_row(row, change, &mut copies);
        true
    });
}

/// Takes out the row that a DELETE_STRICT names.
pub fn delete_strict(rows: &mut BTreeMap<Place, Row>, change: &FlowMod)
    requires { is_strict change.now.command ≡ true }
    ensures { (next : ℕ) → next < 2 ^ 64 → AreIndexed next rows.old.entries → rows.new.entries ≡ rows_that (λ row. not (is_taken_out change.now row)) rows.old.entries }
{
    let Some((place, row)) = with_key(rows, change) else {
        return;
    };
    if is_deleted(change, row) {
        let place = *place;
        rows.remove(&place);
    }
}

/// Takes out the rows that a DELETE names.
pub fn delete(rows: &mut BTreeMap<Place, Row>, change: &FlowMod)
    ensures { rows.new.entries ≡ rows_that (λ row. not (is_taken_out change.now row)) rows.old.entries }
{
    rows.retain(|_, row| !is_deleted(change, row));
}
