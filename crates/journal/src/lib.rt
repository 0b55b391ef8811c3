//! What every crate above stands on: actors, letters, packets and the journal; the journal beside
//! the queues of what waits, on which actors take their turns; the source and the sink of a run, and what is left of a
//! controller that crashes.
#![tactic(auto)]

mod entries;
mod gate;
mod journal;
mod ledger;
mod letters;
mod mailbag;
mod memory;
mod order;
mod outgoing;
mod outside;
mod packed;
mod place;
mod pool;
mod queues;
mod stable;
mod standard;
mod wire;

pub use entries::Head;
pub use gate::{FreeGate, Gate};
pub use journal::{
    Actor, Journal, JournalEntry, Letter, Local, Packet, Said, SaveResult, Turn, Weight,
};
pub use letters::{Letters, OneOrMany};
pub use mailbag::Mailbag;
pub use memory::{MemorySink, MemorySource};
pub use outgoing::Outgoing;
pub use outside::{Failed, Sink, Source, Stable};
pub use packed::Packed;
pub use place::PacketPlace;
pub use stable::{FailingSave, MemoryStable};
pub use standard::{StdSink, StdSource};
pub use wire::{BYTES_LIMIT, LETTERS_LIMIT, POOL_BYTES, POOL_PACKETS, Stop, Wire};
