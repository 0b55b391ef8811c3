//! Tables with a place for each port of each switch: a port that is marked as down, and the port at which a walk goes on.
#![tactic(auto)]

mod hops;
mod places;

pub use hops::next_hop;
pub use places::{WIDTH, is_marked, mark, place};
