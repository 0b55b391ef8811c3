//! The most bytes of a log, in its own count and in those of a message. A run reaches the most entries first.
use crate::entries::{Short, append, frame_entry, takes};
use of_types::Octets;
use std::alloc::{AllocError, Global};
use vr_codec::{VrFault, VrRefusal, decode_vr, encode_vr};
use vr_log::{Entries, Log, LogFull, PushFault, VrMessage};

/// The longest frame: its event has 1,574 bytes in a log.
const LONGEST: [u8; 1514] = [0; 1514];

/// So many of the longest events.
const MOST: u64 = 2664;

/// What a log of them tells of one more.
const FULL: LogFull = LogFull {
    length: MOST,
    bytes: 4_193_136,
    next: 1574,
};

/// What a log tells of one more of them, where it is too full for it.
fn one_more(alloc: Global, log: &mut Log) -> Result<Option<LogFull>, AllocError> {
    match log.push(frame_entry(alloc, MOST, &LONGEST)?) {
        Err(PushFault::LogFull(full)) => Ok(Some(full)),
        _ => Ok(None),
    }
}

/// Whether a log takes the most of them and no more, and then an event that is short.
fn fills(alloc: Global, log: &mut Log) -> Result<bool, AllocError> {
    for number in 0..MOST {
        append(log, frame_entry(alloc, number, &LONGEST)?)?;
    }
    Ok(one_more(alloc, log)? == Some(FULL) && takes(log, Short::Down(0, 0, MOST)))
}

#[test]
fn the_most_bytes_of_a_log(rt: HostRuntime) {
    let mut log = Log::new(rt.alloc());
    let filled = fills(rt.alloc(), &mut log);
    drop(log);
    assert!(rt; filled == Ok(true));
}

/// Appends so many events of 65,553 bytes each.
fn append_long(alloc: Global, entries: &mut Entries, count: u64) -> Result<(), AllocError> {
    for number in 0..count {
        entries.push(frame_entry(alloc, number, &[0; 65_493])?)?;
    }
    Ok(())
}

/// A STARTVIEW with so many of these events.
fn long_message(alloc: Global, count: u64) -> Result<Octets, AllocError> {
    let mut log = Entries::new(alloc);
    append_long(alloc, &mut log, count)?;
    let message = VrMessage::StartView {
        view: 1,
        first: 0,
        commit: 0,
        log,
    };
    let bytes = encode_vr(alloc, &message);
    drop(message);
    bytes
}

/// How many bytes such a message has, and why it is not read.
fn read_back(alloc: Global, count: u64) -> Result<(usize, Option<VrFault>), AllocError> {
    let bytes = long_message(alloc, count)?;
    let refused = decode_vr(alloc, bytes.as_slice()).err();
    Ok((bytes.len(), refused))
}

/// 64 such events have too many bytes for a log.
const TOO_LONG: Option<VrFault> = Some(VrFault::Refused(VrRefusal::BadLength));

/// 63 such events have 4,129,839 bytes, and 64 have 4,195,392.
#[test]
fn the_most_bytes_of_a_message(rt: HostRuntime) {
    assert!(rt;
        read_back(rt.alloc(), 63) == Ok((25 + 4_129_839, None))
            && read_back(rt.alloc(), 64) == Ok((25 + 4_195_392, TOO_LONG))
    );
}
