//! The role fence of a switch: which controller may command it (OpenFlow 1.3, 6.3.5).
#![tactic(auto)]

mod fence;

pub use fence::{RoleAnswer, RoleFence};
