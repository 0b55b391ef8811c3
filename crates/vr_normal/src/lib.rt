//! The normal case of a replicated group: proposals, PREPARE, PREPAREOK, COMMIT, and the tick
//! (Viewstamped Replication Revisited, 4.1).
#![tactic(auto)]

mod acks;
mod normal;
mod ticks;

pub use normal::{ProposeFault, on_commit, on_prepare, on_prepare_ok, propose};
pub use ticks::tick;
