//! A part of a chain that is replaced by another, at the same place of the log in every replica: the slot, kind 3, and the hub,
//! kind 4, which is one of its versions. An operator asks for a version by a frame, which is logged as any other event.
#![tactic(auto)]

mod hub;
mod slot;
mod version;

pub use hub::Hub;
pub use slot::{Slot, all_versions, versions_from};
pub use version::Version;
