//! A member of a replicated group (Viewstamped Replication Revisited): one step for each input.
#![tactic(auto)]

mod input;
mod replica;
mod stepping;

pub use input::VrInput;
pub use replica::Replica;
