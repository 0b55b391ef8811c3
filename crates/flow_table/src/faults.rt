//! Why a FLOW_MOD is refused (OpenFlow 1.3, 6.4 and 7.4.4).
ghost use Rattle.std.specs.Prelude.{◌≡◌, not};
ghost use Rattle.std.specs.List.{list_any};
ghost use Rattle.flow_table.specs.Table.{is_delete, is_known_table, is_row_output, lacks_room, same_key, row_of, first_fault, table_fault};

use crate::changes::has_key;
use crate::rows::TableFault;
use crate::table::MOST_ROWS;
use of_types::{
    ALL_PORTS, ALL_TABLES, FLOOD, FlowCommand, FlowMod, IN_PORT, NO_BUFFER, Row, SEND_REMOVED,
    TO_CONTROLLER,
};

/// The first fault of a change that lacks room or not, at a switch with so many ports.
pub fn first_fault(lacks_room: bool, ports: u32, change: &FlowMod) -> Option<TableFault>
    ensures { result ≡ first_fault lacks_room ports change.now }
{
    if !is_known_table(change) {
        Some(TableFault::BadTable)
    } else if change.flags > SEND_REMOVED {
        Some(TableFault::BadFlags)
    } else if is_delete(change.command) {
        None
    } else if change.buffer != NO_BUFFER {
        Some(TableFault::BadBuffer)
    } else if has_bad_output(ports, change.actions.as_slice()) {
        Some(TableFault::BadPort)
    } else if lacks_room {
        Some(TableFault::TableFull)
    } else {
        None
    }
}

/// The first fault of a change of some rows, at a switch with so many ports.
pub fn table_fault(rows: &[Row], ports: u32, change: &FlowMod) -> Option<TableFault>
    ensures { result ≡ table_fault rows.now ports change.now }
{
    first_fault(lacks_room(rows, change), ports, change)
}

/// Whether a command takes rows out.
fn is_delete(command: FlowCommand) -> bool
    ensures { result ≡ is_delete command }
{
    match command {
        FlowCommand::Delete | FlowCommand::DeleteStrict => true,
        FlowCommand::Add | FlowCommand::Modify | FlowCommand::ModifyStrict => false,
    }
}

/// Whether a change names the one table, or may name all.
fn is_known_table(change: &FlowMod) -> bool
    ensures { result ≡ is_known_table change.now }
{
    change.table == 0 || is_delete(change.command) && change.table == ALL_TABLES
}

/// Whether a row may have an output, at a switch with so many ports.
fn is_row_output(ports: u32, output: u32) -> bool
    ensures { result ≡ is_row_output ports output }
{
    1 <= output && output <= ports
        || output == IN_PORT
        || output == FLOOD
        || output == ALL_PORTS
        || output == TO_CONTROLLER
}

/// Whether an output is one that a row may not have.
fn has_bad_output(ports: u32, outputs: &[u32]) -> bool
    ensures { result ≡ list_any (λ output. not (is_row_output ports output)) outputs.now }
{
    outputs.iter().any(|&output| !is_row_output(ports, output))
}

/// Whether a change adds a row for which there is no room.
fn lacks_room(rows: &[Row], change: &FlowMod) -> bool
    ensures { result ≡ lacks_room rows.now change.now }
{
    match change.command {
        FlowCommand::Add => rows.len() >= MOST_ROWS && !is_known(rows, change),
        FlowCommand::Modify
        | FlowCommand::ModifyStrict
        | FlowCommand::Delete
        | FlowCommand::DeleteStrict => false,
    }
}

/// Whether a row has the change's match and priority.
fn is_known(rows: &[Row], change: &FlowMod) -> bool
    ensures { result ≡ list_any (λ row. same_key row (row_of change.now)) rows.now }
{
    rows.iter().any(|row| has_key(row, change))
}
