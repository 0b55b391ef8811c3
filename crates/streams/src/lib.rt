//! Bytes moved whole: a source read to its end or past a limit, and a sink that takes them all.
#![tactic(auto)]

mod fault;
mod input;
mod output;

pub use fault::StreamFault;
pub use input::read_input;
pub use output::write_all;
