use of_frame::{FrameFault, Framer};
use std::alloc::AllocError;

/// A whole message, and a header with a length below eight.
const WHOLE: [u8; 8] = [4, 0, 0, 8, 0, 0, 0, 0];

const SHORT: [u8; 8] = [4, 0, 0, 7, 0, 0, 0, 0];

/// What is found next: nothing, the whole message, another one, a bad length or another fault.
fn next(framer: &mut Framer) -> u8 {
    match framer.next_frame() {
        Ok(None) => b'-',
        Ok(Some(frame)) if frame == WHOLE.as_slice() => b'M',
        Ok(Some(_)) => b'?',
        Err(FrameFault::BadLength) => b'L',
        Err(_) => b'!',
    }
}

/// Feeds bytes of a message one by one, and tells whether none is whole before each.
fn waits_for_each(framer: &mut Framer, bytes: &[u8]) -> Result<bool, AllocError> {
    for byte in bytes {
        if next(framer) != b'-' {
            return Ok(false);
        }
        framer.feed(&[*byte])?;
    }
    Ok(true)
}

/// A length below eight is refused, and all that comes behind it.
fn refuses_a_length(framer: &mut Framer) -> Result<bool, AllocError> {
    let refused = waits_for_each(framer, &SHORT)? && next(framer) == b'L';
    framer.feed(&WHOLE)?;
    Ok(refused && next(framer) == b'L')
}

/// A whole message is found, and a length below eight behind it is not.
fn takes_one(framer: &mut Framer) -> Result<bool, AllocError> {
    Ok(waits_for_each(framer, &WHOLE)? && next(framer) == b'M' && refuses_a_length(framer)?)
}

#[test]
fn byte_by_byte(rt: HostRuntime) {
    let mut framer = Framer::new(rt.alloc());
    let taken = takes_one(&mut framer);
    drop(framer);
    assert!(rt; taken == Ok(true));
}
