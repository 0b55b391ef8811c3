//! An actor of a run, and the bodies that it writes and reads: a body that is its message or the bytes of it, what the types of a message of OpenFlow
//! say of its numbers, and what an actor hears and says, unsealed from packets and sealed into letters.
#![tactic(auto)]

mod body;
mod bytes;
mod fitting;
mod hearing;
mod player;
mod reading;
mod sealing;
mod turns;

pub use body::{Body, seal};
pub use bytes::Bytes;
pub use fitting::spoken_fits;
pub use hearing::heard;
pub use player::Player;
pub use sealing::seal_mails;
pub use turns::{TakesTurns, sealed_turn, typed_turn};
