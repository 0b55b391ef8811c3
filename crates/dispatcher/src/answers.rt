//! What is answered to switches.
use app_core::Issued;
use of_types::Items;

/// A switch in one of its lives is told up to where its events, or the results of its commands, are done with.
#[derive(Clone, Copy, PartialEq, Eq, Debug)]
pub struct AckThrough {
    pub switch: u8,
    pub life: u32,
    pub through: u64,
}

/// What is done with an event from a switch.
#[derive(Clone, Copy, PartialEq, Eq, Debug)]
pub enum EventAction {
    /// It is proposed as received.
    Propose,
    /// It was processed: so many events of its life are acknowledged.
    Acknowledge { through: u64 },
    Nothing,
}

/// A committed event: its switch and the life that made it, and the commands that are issued for it.
#[derive(Drop)]
pub struct HandledEvent {
    pub switch: u8,
    pub life: u32,
    pub commands: Items<Issued>,
}
