//! The rows of a flow table that leave by a clock (OpenFlow 1.3, 5.5).
#![tactic(auto)]

mod adding;
mod laws;
mod leaving;
mod moments;
mod rows;
mod times;

pub use laws::{rows_stand, rows_stand_in_order};
pub use rows::TimedRows;
pub use times::Expired;
