//! What the capture of a run is, packet by packet and byte by byte, and what holds of each capture.
#![tactic(auto)]

mod laws;
mod shapes;

pub use laws::{blocks_law, checksums_law, streams_law};
pub use shapes::{Captured, Fate, Piece, Port, Way};
