//! The one controller that never fails.
#![tactic(auto)]

mod single;

pub use single::Single;
