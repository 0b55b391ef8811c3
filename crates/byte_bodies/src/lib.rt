//! It makes no difference to a run whether its bodies are the bytes that a network would carry, or the messages themselves.
#![tactic(auto)]

mod laws;

pub use laws::{one_message, same_steps};
