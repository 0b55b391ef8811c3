//! What a report holds.

use journal::Journal;
use of_types::{Actions, Event, Executed, Items, Match, Octets, Setup};
use vr_log::Entries;

/// A row of a flow table, without its cookie.
#[derive(Drop)]
pub struct RowRecord {
    pub priority: u16,
    pub matching: Match,
    pub actions: Actions,
}

/// What a report tells of a switch: the generation and the master that it accepted, how many events it
/// holds, how many frames it sent, and its events, executed commands and rows.
#[derive(Drop)]
pub struct SwitchRecord {
    pub generation: Option<u64>,
    pub master: Option<u8>,
    pub life: u32,
    pub held: u64,
    pub sent: u64,
    pub events: Items<Event>,
    pub executed: Items<Executed>,
    pub rows: Items<RowRecord>,
}

/// What a report holds: the setup, the journal with each body as its bytes, the committed log, the
/// switches by number, and the turns of the script and of the closing.
#[derive(Drop)]
pub struct Record {
    pub setup: Setup,
    pub journal: Journal<Octets>,
    pub log: Entries,
    pub switches: Items<SwitchRecord>,
    pub script: u64,
    pub closing: u64,
}
