//! Rows that leave by a clock.
ghost use Rattle.std.specs.Prelude.{◌≡◌, ◌<◌, ◌+◌, ◌-◌, ◌^◌, ℕ, None, List, [], ◌∷◌, length, true, false, option_copied, IfOk, OnOk, OnErr, IfErr};
ghost use Rattle.flow_table.specs.Table.{opening_rows, chosen_row, table_fault};
ghost use Rattle.flow_clock.specs.History.{Act, Change, Tick, Frame, deeds_of, leaving_after, table_of};
ghost use Rattle.flow_clock.specs.Clocked.{Clocked, rows_in, clock_change, clock_hit, clock_tick, clock_told, IsTableRefusal, clock_left, clock_risen, leaves_times};
ghost use Rattle.flow_clock.specs.Holding.{clocked_of};

use crate::adding::add;
use crate::leaving::{leaving, purge, remove_all};
use crate::moments::count_at;
use crate::times::{Expired, Key, Times, key_of};
use flow_table::{Rows, TableFault};
use of_types::{Fields, FlowCommand, FlowMod, Row};
use std::alloc::{AllocError, Global};
use std::collections::BTreeMap;
use std::marker::Model;

/// The rows of a flow table, in whatever way they are kept, beside a clock. Only of rows that have a timeout are times
/// and counts kept. Those of a row that a DELETE took out stay until their time is over, and count for nothing.
#[derive(Drop)]
pub struct TimedRows<R: Rows> {
    alloc: Global,
    /// The rows, in whatever way they are kept.
    rows: R,
    /// Of each row that has a timeout, by its match and priority, its times and counts.
    times: BTreeMap<Key, Times>,
    /// How many ticks there were.
    clock: u64,
}

impl<R: Rows> Model for TimedRows<R> {
    ghost use Rattle.std.specs.Prelude.{◌<◌, ◌^◌, map};
    ghost use Rattle.std.specs.BTreeMap.{get};
    ghost use Rattle.flow_clock.specs.Clocked.{Clocked, kept_row, AreKeysApart};

    ghost Value = { Clocked };

    ghost view = { λ a. record { clock = a.clock; rows = map (kept_row (get ⟦<Key as Ord>⟧.cmp a.times)) (R.rows_of a.rows) } };

    ghost invariant = { λ a. AreKeysApart (R.rows_of a.rows) };
}

impl<R: Rows> TimedRows<R> {
    /// The table and its clock as a life begins.
    pub fn new(alloc: Global, rows: R) -> TimedRows<R>
        requires { R.rows_of rows ≡ opening_rows }
        ensures { result ≡ clocked_of [] }
    {
        TimedRows {
            alloc,
            rows,
            times: BTreeMap::new(alloc),
            clock: 0,
        }
    }

    /// Changes the rows as a FLOW_MOD says, at a switch with so many ports (OpenFlow 1.3, 6.4). A refusal changes
    /// nothing. A DELETE takes no memory.
    pub fn apply(&mut self, change: &FlowMod, ports: u32) -> Result<(), TableFault>
        ensures accepted { OnOk result (table_fault (rows_in self.old) ports change.now ≡ None) }
        ensures changed { OnOk result (self.new ≡ clock_change self.old change.now) }
        ensures table { OnOk result ((acts : List Act) → self.old ≡ clocked_of acts → self.new ≡ clocked_of (Change change.now ∷ acts)) }
        ensures refused { IfErr result (λ fault. IsTableRefusal (table_fault (rows_in self.old) ports change.now) change.now fault) }
        ensures unchanged { OnErr result (self.new ≡ self.old) }
    {
        self.change_by_command(change, ports)?;
        Ok(())
    }

    /// Does a FLOW_MOD by its command.
    fn change_by_command(&mut self, change: &FlowMod, ports: u32) -> Result<(), TableFault>
        ensures accepted { OnOk result (table_fault (rows_in self.old) ports change.now ≡ None) }
        ensures changed { OnOk result (self.new ≡ clock_change self.old change.now) }
        ensures refused { IfErr result (λ fault. IsTableRefusal (table_fault (rows_in self.old) ports change.now) change.now fault) }
        ensures unchanged { OnErr result (self.new ≡ self.old) }
    {
        match change.command {
            FlowCommand::Add => self.add(change, ports),
            FlowCommand::Modify
            | FlowCommand::ModifyStrict
            | FlowCommand::Delete
            | FlowCommand::DeleteStrict => self.change(change, ports),
        }
    }

    /// Does an ADD.
    fn add(&mut self, change: &FlowMod, ports: u32) -> Result<(), TableFault>
        requires { leaves_times change.now.command ≡ false }
        ensures accepted { OnOk result (table_fault (rows_in self.old) ports change.now ≡ None) }
        ensures changed { OnOk result (self.new ≡ clock_change self.old change.now) }
        ensures refused { IfErr result (λ fault. IsTableRefusal (table_fault (rows_in self.old) ports change.now) change.now fault) }
        ensures unchanged { OnErr result (self.new ≡ self.old) }
    {
        add(&mut self.rows, &mut self.times, self.clock, change, ports)?;
        Ok(())
    }

    /// Does a MODIFY or a DELETE.
    fn change(&mut self, change: &FlowMod, ports: u32) -> Result<(), TableFault>
        requires { leaves_times change.now.command ≡ true }
        ensures accepted { OnOk result (table_fault (rows_in self.old) ports change.now ≡ None) }
        ensures changed { OnOk result (self.new ≡ clock_change self.old change.now) }
        ensures refused { IfErr result (λ fault. IsTableRefusal (table_fault (rows_in self.old) ports change.now) change.now fault) }
        ensures unchanged { OnErr result (self.new ≡ self.old) }
    {
        self.rows.apply(change, ports)?;
        Ok(())
    }

    /// A frame with these fields, of so many bytes, is counted at the row that is chosen for it, if there is one. It takes
    /// no memory, and counts stop at their end. Where no row has a timeout nothing is looked up.
    pub fn hit(&mut self, fields: &Fields, length: u32)
        ensures counted { self.new ≡ clock_hit self.old fields.now length }
        ensures table { (acts : List Act) → self.old ≡ clocked_of acts → self.new ≡ clocked_of (Frame fields.now length ∷ acts) }
    {
        if !self.times.is_empty() {
            self.count(fields, length);
        }
    }

    /// A frame is counted at the row that is chosen for it.
    fn count(&mut self, fields: &Fields, length: u32)
        ensures { self.new ≡ clock_hit self.old fields.now length }
    {
        if let Some(row) = self.rows.look_up(fields) {
            count_at(&mut self.times, &key_of(row), self.clock, length);
        }
    }

    /// The clock rises, and the rows leave whose time is over, in the order of adding. Where memory is wanted, nothing
    /// has changed. At the end of its numbers the clock stands still, and no row leaves.
    pub fn tick(&mut self) -> Result<Vec<Expired>, AllocError>
        ensures left { IfOk result (λ left. left.items ≡ clock_told self.old) }
        ensures risen { OnOk result (self.new ≡ clock_tick self.old) }
        ensures table { IfOk result (λ left. (acts : List Act) → self.old ≡ clocked_of acts → self.old.clock < 2 ^ 64 - 1 → (self.new ≡ clocked_of (Tick ∷ acts)) × (left.items ≡ leaving_after (deeds_of acts))) }
        ensures err { OnErr result (self.new ≡ self.old) }
    {
        let left = self.leaving()?;
        self.rise(&left);
        Ok(left)
    }

    /// The rows that leave at the next tick, in the order of adding. It takes no memory where no times that are kept are over.
    pub fn leaving(&self) -> Result<Vec<Expired>, AllocError>
        ensures told { IfOk result (λ left. left.items ≡ clock_told self.now) }
        ensures table { IfOk result (λ left. (acts : List Act) → self.now ≡ clocked_of acts → self.now.clock < 2 ^ 64 - 1 → left.items ≡ leaving_after (deeds_of acts)) }
    {
        let Some(now) = self.clock.checked_add(1) else {
            return Ok(Vec::new(self.alloc));
        };
        let left = leaving(self.alloc, &self.rows, &self.times, now)?;
        Ok(left)
    }

    /// The clock rises, and these rows leave, which are those whose time is over then. It takes no memory.
    pub fn rise(&mut self, left: &[Expired])
        requires { left.now ≡ clock_told self.old }
        ensures risen { self.new ≡ clock_tick self.old }
        ensures table { (acts : List Act) → self.old ≡ clocked_of acts → self.old.clock < 2 ^ 64 - 1 → self.new ≡ clocked_of (Tick ∷ acts) }
    {
        if let Some(now) = self.clock.checked_add(1) {
            self.rise_to(now, left);
        }
    }

    /// The clock comes to its next moment.
    fn rise_to(&mut self, now: u64, left: &[Expired])
        requires next { now ≡ self.old.clock + 1 }
        requires left { left.now ≡ clock_left self.old }
        ensures { self.new ≡ clock_risen self.old }
    {
        remove_all(self.alloc, &mut self.rows, left);
        purge(&mut self.times, now);
        self.clock = now;
    }

    /// The row that a frame with these fields meets. It counts nothing.
    pub fn look_up(&self, fields: &Fields) -> Option<&Row>
        ensures chosen { option_copied result ≡ chosen_row (rows_in self.now) fields.now }
        ensures table { (acts : List Act) → self.now ≡ clocked_of acts → option_copied result ≡ chosen_row (table_of acts) fields.now }
    {
        self.rows.look_up(fields)
    }

    /// How many rows there are.
    pub fn count_rows(&self) -> usize
        ensures { result ≡ length (rows_in self.now) }
    {
        self.rows.count()
    }

    /// Copies of the rows, in the order of adding.
    pub fn rows(&self) -> Result<Vec<Row>, AllocError>
        ensures kept { IfOk result (λ rows. rows.items ≡ rows_in self.now) }
        ensures table { IfOk result (λ rows. (acts : List Act) → self.now ≡ clocked_of acts → rows.items ≡ table_of acts) }
    {
        let rows = self.rows.rows()?;
        Ok(rows)
    }
}
