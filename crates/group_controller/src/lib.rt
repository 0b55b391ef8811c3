//! A controller of a group: a member of the replicated log that, while it leads, processes the events of switches.
#![tactic(auto)]

mod active;
mod controller;
mod handled;
mod letters;
mod mails;
mod messages;

pub use controller::Controller;
pub use mails::{Mail, Mails};
pub use messages::{ControllerInput, ControllerSays};
