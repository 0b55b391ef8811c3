//! Where the letters of packets stand in a journal.
use crate::journal::Actor;

/// A packet by its number, its sender and its receiver. Packets are numbered in the order of posting, so the number is also the
/// place of its letter among all that a journal posts, counted from 0.
#[derive(Clone, Copy, PartialEq, Eq, Debug)]
pub struct PacketPlace {
    pub id: u64,
    pub from: Actor,
    pub to: Actor,
}
