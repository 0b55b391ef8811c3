//! A flow table that finds its rows by their places.
ghost use Rattle.std.specs.Prelude.{◌≡◌, [], false, IfOk, OnOk, OnErr};
ghost use Rattle.flow_table.specs.Table.{is_delete, lacks_room, row_of as row_told, table_after, table_step, with_row};

use crate::changes::{delete, delete_strict, modify, modify_strict, replace};
use crate::entries::{first_exact, first_open, preferred, with_key};
use crate::place::{Place, place_of};
use flow_table::{MOST_ROWS, Rows, TableFault, first_fault, row_of, table_miss};
use of_types::{Fields, FlowCommand, FlowMod, Row};
use std::alloc::{AllocError, Global};
use std::collections::BTreeMap;
use std::marker::Model;

/// A flow table that finds its rows by priority and exact destination.
#[derive(Drop)]
pub struct FlowIndex {
    alloc: Global,
    /// Each row at its place, which is made of it and of its number.
    rows: BTreeMap<Place, Row>,
    /// The number of the next row. That of each row is below.
    next: u64,
}

impl Model for FlowIndex {
    ghost use Rattle.std.specs.Prelude.{◌<◌, ◌^◌, List};
    ghost use Rattle.of_types.specs.declared.message.Row.{Row};
    ghost use Rattle.flow_index.specs.Index.{AreIndexed, numbered_rows, rows_below};

    ghost Value = { List Row };

    ghost view = { λ a. rows_below (numbered_rows a.rows.entries) a.next };

    ghost invariant = { λ a. AreIndexed a.next a.rows.entries × (a.next < 2 ^ 64) };
}

impl FlowIndex {
    /// The table as it starts: the table-miss row alone.
    pub fn new(alloc: Global) -> Result<FlowIndex, AllocError>
        ensures { IfOk result (λ table. table ≡ table_after []) }
    {
        let row = table_miss(alloc)?;
        let mut rows = BTreeMap::new(alloc);
        rows.insert(place_of(&row, 0), row)?;
        Ok(FlowIndex {
            alloc,
            rows,
            next: 1,
        })
    }

    /// Whether a change adds a row for which there is no room.
    fn lacks_room(&self, change: &FlowMod) -> bool
        ensures { result ≡ lacks_room self.now change.now }
    {
        match change.command {
            FlowCommand::Add => {
                self.rows.len() >= MOST_ROWS && with_key(&self.rows, change).is_none()
            }
            FlowCommand::Modify
            | FlowCommand::ModifyStrict
            | FlowCommand::Delete
            | FlowCommand::DeleteStrict => false,
        }
    }

    /// Adds a row: in the place of the one of equal match and priority, or last. An `Err` changes nothing;
    /// that the numbers of rows end counts as no memory.
    fn add(&mut self, change: &FlowMod) -> Result<(), AllocError>
        ensures ok { OnOk result (self.new ≡ with_row self.old (row_told change.now)) }
        ensures err { OnErr result (self.new ≡ self.old) }
    {
        let row = row_of(change)?;
        if let Some((place, _)) = with_key(&self.rows, change) {
            let place = *place;
            replace(&mut self.rows, &place, row);
            return Ok(());
        }
        let Some(next) = self.next.checked_add(1) else {
            return Err(AllocError);
        };
        self.rows.insert(place_of(&row, self.next), row)?;
        self.next = next;
        Ok(())
    }

    /// Does an accepted change. An `Err` changes nothing.
    fn change(&mut self, change: &FlowMod) -> Result<(), AllocError>
        ensures ok { OnOk result (self.new ≡ table_step self.old change.now) }
        ensures err { OnErr result (self.new ≡ self.old) }
        ensures memory { OnErr result (is_delete change.now.command ≡ false) }
    {
        match change.command {
            FlowCommand::Add => self.add(change),
            FlowCommand::Modify => {
                modify(self.alloc, &mut self.rows, change)?;
                Ok(())
            }
            FlowCommand::ModifyStrict => {
                modify_strict(&mut self.rows, change)?;
                Ok(())
            }
            FlowCommand::Delete => {
                delete(&mut self.rows, change);
                Ok(())
            }
            FlowCommand::DeleteStrict => {
                delete_strict(&mut self.rows, change);
                Ok(())
            }
        }
    }
}

impl Rows for FlowIndex {
    ghost rows_of = { λ rows. rows };

    fn apply(&mut self, change: &FlowMod, ports: u32) -> Result<(), TableFault> {
        if let Some(fault) = first_fault(self.lacks_room(change), ports, change) {
            return Err(fault);
        }
        self.change(change)?;
        Ok(())
    }

    fn look_up(&self, fields: &Fields) -> Option<&Row> {
        preferred(
            first_exact(&self.rows, fields),
            first_open(&self.rows, fields),
        )
    }

    fn count(&self) -> usize {
        self.rows.len()
    }

    fn rows(&self) -> Result<Vec<Row>, AllocError> {
        let mut ordered = BTreeMap::new(self.alloc);
        for (place, row) in &self.rows {
            ordered.insert(place.number, row)?;
        }
        let mut rows = Vec::with_capacity(self.alloc, self.rows.len())?;
        for row in ordered.into_values() {
            rows.push(row.copy()?)?;
        }
        Ok(rows)
    }
}
