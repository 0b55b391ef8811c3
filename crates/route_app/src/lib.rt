//! Routing, the part of kind 7: the first frame between two hosts installs the whole path, which is the shortest walk
//! over links that are up.
#![tactic(auto)]

mod commands;
mod part;
mod places;
mod routes;
mod search;
mod table;
mod up_links;
mod walk;
mod wires;

pub use part::Route;
pub use places::stays_orderly;
pub use routes::{levels, route};
pub use walk::Walk;
