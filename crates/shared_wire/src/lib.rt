//! The board: one wire that actors share, each in a thread of its own.
#![tactic(auto)]

mod board;
mod hold;
mod place;
mod rule;

pub use board::Board;
pub use place::Place;
