//! The flow table of a switch: what a FLOW_MOD does with its rows, and which row a frame meets. The free
//! functions are for other forms of a table.
#![tactic(auto)]

mod changes;
mod choosing;
mod faults;
mod rows;
mod table;

pub use changes::{copies_of, copy_actions, has_key, is_deleted, is_named, row_of, write_row};
pub use choosing::chosen_row_law;
pub use faults::first_fault;
pub use rows::{Rows, TableFault};
pub use table::{FlowTable, MOST_ROWS, table_miss};
