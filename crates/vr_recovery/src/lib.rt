//! State transfer in a replicated group, and the recovery of a member that has lost its state (Viewstamped
//! Replication Revisited, 4.3 and 5.2).
#![tactic(auto)]

mod recovering;
mod responses;
mod transfer;

pub use recovering::{on_recovery, on_response, restart};
pub use transfer::{on_get_state, on_new_state};
