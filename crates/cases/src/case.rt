//! A case: a call, and what is wanted of it.

use crate::call::Call;
use crate::passing::{Passes, Waits};
use crate::wanted::Wanted;

/// A case.
#[derive(Drop)]
pub struct Case {
    pub call: Call,
    pub wanted: Wanted,
    /// It is played also with lists from this controller on.
    pub lists: Option<usize>,
    /// It is played also with reads and writes of so many bytes at most.
    pub pieces: Vec<usize>,
    /// The actors that wait for others at the gate.
    pub waits: Vec<Waits>,
    /// How often actors pass the gate.
    pub passes: Vec<Passes>,
}
