//! Reading entries and logs.
ghost use Rattle.std.specs.Prelude.{◌≤◌, ◌<◌, [], length, IfOk};
ghost use Rattle.vr_codec.specs.Answers.{GivesVr};
ghost use Rattle.vr_codec.specs.Reading.{event_at, told_at, received_at, processed_at, entry_at, entries_at, log_at, last_entry_at, last_log_at};

use crate::fault::{VrFault, VrRefusal};
use of_bytes::{u8_at, u16_at, u32_at, u64_at};
use of_messages::{BodyFault, read_message};
use of_types::{Event, Happening, OfMessage};
use std::alloc::Global;
use vr_log::{Entries, Entry, LOG_BYTES, LOG_ENTRIES};

/// The entry that stands last in a message.
#[tactic(auto, unfolding(crate::specs::Reading::last_entry_at))]
pub fn read_last_entry(alloc: Global, bytes: &[u8]) -> Result<Entry, VrFault>
    ensures { GivesVr (λ entry. entry) result (last_entry_at bytes.now) }
{
    let (entry, rest) = read_entry(alloc, bytes)?;
    if rest.is_empty() {
        Ok(entry)
    } else {
        Err(VrFault::Refused(VrRefusal::BadLength))
    }
}

/// The log that stands last in a message.
#[tactic(auto, unfolding(crate::specs::Reading::last_log_at))]
pub fn read_last_log(alloc: Global, bytes: &[u8]) -> Result<Entries, VrFault>
    ensures { GivesVr (λ log. log) result (last_log_at bytes.now) }
{
    let (log, rest) = read_log(alloc, bytes)?;
    if rest.is_empty() {
        Ok(log)
    } else {
        Err(VrFault::Refused(VrRefusal::BadLength))
    }
}

/// The message of an event.
#[tactic(auto, unfolding(crate::specs::Reading::event_at))]
fn read_happening(alloc: Global, bytes: &[u8]) -> Result<Happening, VrFault>
    ensures { GivesVr (λ what. what) result (event_at bytes.now) }
{
    if bytes.len() < 4 || usize::from(u16_at(bytes, 2)) != bytes.len() {
        return Err(VrFault::Refused(VrRefusal::BadLength));
    }
    match read_message(alloc, bytes) {
        Ok(OfMessage::PacketIn(packet)) => Ok(Happening::PacketIn(packet)),
        Ok(OfMessage::FlowRemoved(removed)) => Ok(Happening::FlowRemoved(removed)),
        Ok(OfMessage::PortStatus(status)) => Ok(Happening::PortStatus(status)),
        Ok(_) => Err(VrFault::Refused(VrRefusal::BadEvent)),
        Err(BodyFault::Wire(_)) => Err(VrFault::Refused(VrRefusal::BadEvent)),
        Err(BodyFault::OutOfMemory) => Err(VrFault::OutOfMemory),
    }
}

/// An event whose message has this length, and what comes behind it.
#[tactic(auto, unfolding(crate::specs::Reading::told_at))]
fn read_told<'a>(
    alloc: Global,
    len: usize,
    bytes: &[u8],
    rest: &'a [u8],
) -> Result<(Entry, &'a [u8]), VrFault>
    requires { 18 ≤ length bytes.now }
    ensures exact { GivesVr (λ x. (x.0, x.1.now)) result (told_at len bytes.now rest.now) }
    ensures shorter { IfOk result (λ x. length x.1.now ≤ length rest.now) }
{
    if rest.len() < len {
        return Err(VrFault::Refused(VrRefusal::Short));
    }
    let (told, after) = rest.split_at(len);
    let what = read_happening(alloc, told)?;
    let event = Event {
        switch: u8_at(bytes, 1),
        life: u32_at(bytes, 2),
        number: u64_at(bytes, 6),
        what,
    };
    Ok((Entry::Received(event), after))
}

#[tactic(auto, unfolding(crate::specs::Reading::received_at))]
fn read_received(alloc: Global, bytes: &[u8]) -> Result<(Entry, &[u8]), VrFault>
    ensures exact { GivesVr (λ x. (x.0, x.1.now)) result (received_at bytes.now) }
    ensures shorter { IfOk result (λ x. length x.1.now < length bytes.now) }
{
    if bytes.len() < 18 {
        return Err(VrFault::Refused(VrRefusal::Short));
    }
    read_told(alloc, u32_at(bytes, 14) as usize, bytes, &bytes[18..])
}

#[tactic(auto, unfolding(crate::specs::Reading::processed_at))]
fn read_processed(bytes: &[u8]) -> Result<(Entry, &[u8]), VrFault>
    ensures exact { GivesVr (λ x. (x.0, x.1.now)) result (processed_at bytes.now) }
    ensures shorter { IfOk result (λ x. length x.1.now < length bytes.now) }
{
    if bytes.len() < 9 {
        return Err(VrFault::Refused(VrRefusal::Short));
    }
    Ok((Entry::Processed(u64_at(bytes, 1)), &bytes[9..]))
}

/// The entry at the front, and what comes behind it.
#[tactic(auto, unfolding(crate::specs::Reading::entry_at))]
fn read_entry(alloc: Global, bytes: &[u8]) -> Result<(Entry, &[u8]), VrFault>
    ensures exact { GivesVr (λ x. (x.0, x.1.now)) result (entry_at bytes.now) }
    ensures shorter { IfOk result (λ x. length x.1.now < length bytes.now) }
{
    if bytes.is_empty() {
        return Err(VrFault::Refused(VrRefusal::Short));
    }
    match u8_at(bytes, 0) {
        1 => read_received(alloc, bytes),
        2 => read_processed(bytes),
        _ => Err(VrFault::Refused(VrRefusal::BadKind)),
    }
}

/// So many entries, and what comes behind them.
#[tactic(auto, unfolding(crate::specs::Reading::entries_at))]
fn read_entries(alloc: Global, count: usize, bytes: &[u8]) -> Result<(Entries, &[u8]), VrFault>
    ensures { GivesVr (λ x. (x.0, x.1.now)) result (entries_at (length bytes.now) count [] bytes.now) }
{
    let mut entries = Entries::new(alloc);
    let mut rest = bytes;
    let mut left = count;
    'entries: while left > 0 {
        let (entry, after) = read_entry(alloc, rest)?;
        if (bytes.len() - after.len()) as u64 > LOG_BYTES {
            return Err(VrFault::Refused(VrRefusal::BadLength));
        }
        entries.push(entry)?;
        rest = after;
        left -= 1;
    }
    Ok((entries, rest))
}

/// A log, and what comes behind it.
#[tactic(auto, unfolding(crate::specs::Reading::log_at))]
fn read_log(alloc: Global, bytes: &[u8]) -> Result<(Entries, &[u8]), VrFault>
    ensures { GivesVr (λ x. (x.0, x.1.now)) result (log_at bytes.now) }
{
    if bytes.len() < 4 {
        return Err(VrFault::Refused(VrRefusal::Short));
    }
    let count = u32_at(bytes, 0) as usize;
    if count as u64 > LOG_ENTRIES {
        return Err(VrFault::Refused(VrRefusal::BadLength));
    }
    read_entries(alloc, count, &bytes[4..])
}
