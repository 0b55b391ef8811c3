//! The audit of a report: a second opinion on a run, from the report's lines alone.
#![tactic(auto)]

mod auditing;
mod counting;
mod evidence;
mod following;
mod issuing;
mod lives;
mod log_lines;
mod named;
mod received;
mod same;
mod switch_lines;

pub use auditing::{Verdict, check};
