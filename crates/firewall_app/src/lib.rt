//! The firewall, the part of kind 1: a packet-in that a rule denies goes no further, and each switch gets a row
//! that drops such frames.
#![tactic(auto)]

mod denying;
mod firewall;
mod prefix;

pub use denying::drops_denied;
pub use firewall::Firewall;
