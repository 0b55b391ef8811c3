//! Events and entries of a log, in short.

use of_types::{Event, Happening, Octets, PacketIn, PortStatus, switch_up};
use std::alloc::{AllocError, Global};
use vr_log::{Entry, Log};

/// An entry: an event of a switch, its life and its number, that a port went down or that the switch is up; or that an
/// event is processed.
#[derive(Clone, Copy)]
pub(crate) enum Short {
    Down(u8, u32, u64),
    Up(u8, u32, u64),
    Processed(u64),
}

/// A port went down: an event of 98 bytes of a log, as that of a switch that is up.
const DOWN: Happening = Happening::PortStatus(PortStatus {
    reason: 2,
    port: 1,
    up: false,
});

fn received(switch: u8, life: u32, number: u64, what: Happening) -> Entry {
    Entry::Received(Event {
        switch,
        life,
        number,
        what,
    })
}

pub(crate) fn entry_of(short: Short) -> Entry {
    match short {
        Short::Down(switch, life, number) => received(switch, life, number, DOWN),
        Short::Up(switch, life, number) => received(switch, life, number, switch_up()),
        Short::Processed(place) => Entry::Processed(place),
    }
}

/// This frame came in at a port of a switch.
pub(crate) fn frame_event(
    alloc: Global,
    switch: u8,
    number: u64,
    in_port: u32,
    frame: &[u8],
) -> Result<Event, AllocError> {
    let payload = Octets::from_slice(alloc, frame)?;
    let packet = PacketIn {
        reason: 0,
        cookie: 0,
        in_port,
        payload,
    };
    Ok(Event {
        switch,
        life: 0,
        number,
        what: Happening::PacketIn(packet),
    })
}

/// This frame came in at switch 0.
pub(crate) fn frame_entry(alloc: Global, number: u64, frame: &[u8]) -> Result<Entry, AllocError> {
    Ok(Entry::Received(frame_event(alloc, 0, number, 1, frame)?))
}

/// Appends an entry that the log takes.
pub(crate) fn append(log: &mut Log, entry: Entry) -> Result<(), AllocError> {
    match log.push(entry) {
        Ok(()) => Ok(()),
        Err(_) => Err(AllocError),
    }
}

/// Whether the log takes an entry, which it then has.
pub(crate) fn takes(log: &mut Log, short: Short) -> bool {
    log.push(entry_of(short)).is_ok()
}
