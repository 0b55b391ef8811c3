//! The messages between members of a group as bytes: what is read, what is refused, and the one way in
//! which each is written.
#![tactic(auto)]

mod entries;
mod fault;
mod fitting;
mod reading;
mod writing;

pub use fault::{VrFault, VrRefusal};
pub use fitting::{reads_back, vr_fits};
pub use reading::{decode_vr, vr_law};
pub use writing::{encode_vr, write_vr};
