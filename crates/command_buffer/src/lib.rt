//! The command buffer of a switch: how many commands it has carried out, and their latest results.
#![tactic(auto)]

mod buffer;

pub use buffer::{CommandBuffer, MOST_KEPT, Offer};
