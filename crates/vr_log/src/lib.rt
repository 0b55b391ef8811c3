//! The replicated log of a group of controllers, and the plain data of its members: entries, messages
//! and states (Viewstamped Replication Revisited, 4; Ravana, 3.2).
#![tactic(auto)]

mod acked;
mod choosing;
mod entry;
mod letters;
mod log;
mod members;
mod message;
mod out;
mod replacing;
mod same;
pub mod sizes;
mod state;
mod tally;

pub use acked::Acked;
pub use choosing::best_of;
pub use entry::{Entries, Entry, LogFull, append_entries, copy_entries, size_of_entry};
pub use letters::{Mail, Receivers, VrLetters};
pub use log::{LOG_BYTES, LOG_ENTRIES, Log, PushFault, logs_have_fronts};
pub use message::{Filled, VrLetter, VrMessage};
pub use same::{same_entries, same_entry, same_event};
pub use state::{
    Collected, Collection, Members, Response, Responses, Status, Supplied, VrOut, VrState,
};
