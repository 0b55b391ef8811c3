//! A switch: what it makes of frames, of its ports and of what controllers say.
#![tactic(auto)]

mod draft;
mod history;
mod letters;
mod says;
mod switch;

pub use says::{SwitchInput, SwitchSays};
pub use switch::{Switch, SwitchRemains, ToldSwitch};
