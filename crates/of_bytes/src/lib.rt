//! What all codecs share: numbers as bytes, the highest byte first, padding, and the fronts of messages.
#![tactic(auto)]

mod front;
mod numbers;
mod ranges;

pub use front::Front;
pub use numbers::{
    eight, four, long_length, one, short_length, six, two, u8_at, u16_at, u32_at, u48_at, u64_at,
    zeros,
};
pub use ranges::{u8_fits, u16_fits, u32_fits, u64_fits};
