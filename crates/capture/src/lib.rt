//! The capture of a run: which packets the journal of a report gives, and their bytes as pcapng.
#![tactic(auto)]

mod blocks;
mod fates;
mod frames;
mod interfaces;
mod packets;
mod tapes;
mod written;

pub use packets::captured;
pub use written::pcapng;
