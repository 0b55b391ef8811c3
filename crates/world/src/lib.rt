//! A world: its journal, its actors, and turns; and the laws of every world.
#![tactic(auto)]

mod actors;
mod laws;
mod outbox;
mod world;

pub use actors::{controllers_of, fits_types, switches_of, takes_part};
pub use laws::{agreement, exactly_once, fence, folds, lasting, logs_are_valid, versions_are_one};
pub use world::World;
