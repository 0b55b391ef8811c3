//! Bringing a world of a group to rest: the closing schedule.
#![tactic(auto)]

mod closed;
mod quorum;
mod rest;
mod steps;
mod views;

pub use closed::ClosingOutcome;
pub use rest::run;
pub use views::may_close;
