//! The event buffer of a switch: events that wait to be processed, and ports that wait for room.
#![tactic(auto)]

mod buffer;
mod held;

pub use buffer::{EventBuffer, Full};
pub use held::{HeldEvents, MOST_HELD};
