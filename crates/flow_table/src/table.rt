//! A flow table as a list of rows.
ghost use Rattle.std.specs.Prelude.{◌≡◌, false, [], IfOk, OnOk, OnErr};
ghost use Rattle.flow_table.specs.Table.{table_miss, table_step, table_after, is_delete};

use crate::changes::{add_row, delete_rows, modify_rows};
use crate::faults::table_fault;
use crate::rows::{Rows, TableFault};
use of_types::{Actions, Fields, FlowCommand, FlowMod, Row, TO_CONTROLLER, any_match, matches};
use std::alloc::{AllocError, Global};
use std::marker::Model;

/// The most rows that a table has.
pub const MOST_ROWS: usize = 2048;

/// The row that sends a frame to the controller, where no other matches it (OpenFlow 1.3, 5.4).
pub fn table_miss(alloc: Global) -> Result<Row, AllocError>
    ensures { IfOk result (λ row. row ≡ table_miss) }
{
    let mut actions = Actions::new(alloc);
    actions.push(TO_CONTROLLER)?;
    Ok(Row {
        priority: 0,
        cookie: 0,
        matching: any_match(),
        actions,
    })
}

/// A flow table that goes through all its rows.
#[derive(Drop)]
pub struct FlowTable {
    rows: Vec<Row>,
}

impl Model for FlowTable {
    ghost use Rattle.std.specs.Prelude.{List};
    ghost use Rattle.of_types.specs.declared.message.Row.{Row};

    ghost Value = { List Row };

    ghost view = { λ a. a.rows.items };
}

impl FlowTable {
    /// The table as it starts: the table-miss row alone.
    pub fn new(alloc: Global) -> Result<FlowTable, AllocError>
        ensures { IfOk result (λ table. table ≡ table_after []) }
    {
        let mut rows = Vec::new(alloc);
        rows.push(table_miss(alloc)?)?;
        Ok(FlowTable { rows })
    }

    /// Does an accepted change. An `Err` changes nothing.
    fn change(&mut self, change: &FlowMod) -> Result<(), AllocError>
        ensures ok { OnOk result (self.new ≡ table_step self.old change.now) }
        ensures err { OnErr result (self.new ≡ self.old) }
        ensures memory { OnErr result (is_delete change.now.command ≡ false) }
    {
        match change.command {
            FlowCommand::Add => add_row(&mut self.rows, change),
            FlowCommand::Modify | FlowCommand::ModifyStrict => {
                let alloc = *self.rows.allocator();
                modify_rows(alloc, &mut self.rows, change)
            }
            FlowCommand::Delete | FlowCommand::DeleteStrict => {
                delete_rows(&mut self.rows, change);
                Ok(())
            }
        }
    }
}

impl Rows for FlowTable {
    ghost rows_of = { λ rows. rows };

    fn apply(&mut self, change: &FlowMod, ports: u32) -> Result<(), TableFault> {
        if let Some(fault) = table_fault(&self.rows, ports, change) {
            return Err(fault);
        }
        self.change(change)?;
        Ok(())
    }

    fn look_up(&self, fields: &Fields) -> Option<&Row> {
        let mut chosen: Option<&Row> = None;
        for row in &self.rows {
            if matches(&row.matching, fields) {
                chosen = match chosen {
                    Some(earlier) if row.priority <= earlier.priority => Some(earlier),
                    _ => Some(row),
                };
            }
        }
        chosen
    }

    fn count(&self) -> usize {
        self.rows.len()
    }

    fn rows(&self) -> Result<Vec<Row>, AllocError> {
        let mut rows = Vec::with_capacity(*self.rows.allocator(), self.rows.len())?;
        for row in &self.rows {
            rows.push(row.copy()?)?;
        }
        Ok(rows)
    }
}
