//! Matches as bytes of OpenFlow.
#![tactic(auto)]

mod fault;
mod kind;
mod reading;
mod writing;

pub use fault::MatchFault;
pub use kind::{FieldHeader, FieldKind};
pub use reading::{PORT_ALONE, match_law, port_alone, read_match};
pub use writing::{MatchFront, bare_match, match_front, write_match};
