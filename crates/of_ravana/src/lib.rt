//! The messages of Ravana's extension of OpenFlow 1.3 as bytes, and the one way in which a controller
//! and a switch write what they say.
#![tactic(auto)]

mod fitting;
mod reading;
mod writing;

pub use fitting::{extension_fits, happening_fits};
pub use reading::{decode_extension, extension_law};
pub use writing::{
    canonical, canonical_happening, canonical_order, encode_extension, happening_len,
    put_happening, put_spoken,
};
