//! Playing a script in a world, from its first step until the world is at rest: its steps in order, or each actor in a thread of
//! its own.
#![tactic(auto)]

mod apart;
mod script;

pub use apart::{Rested, play_apart};
pub use script::play;
