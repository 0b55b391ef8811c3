//! The top call: what is read and asked for, the run that it plays or the report that it audits, and how it ends.
#![tactic(auto)]

mod auditing;
mod ending;
mod group;
mod remains;
mod service;
mod shelves;
mod sim;
mod top;

pub use group::stables;
pub use remains::Remains;
pub use shelves::{CONTROLLERS, LIVES, push_life};
pub use top::ravana;
