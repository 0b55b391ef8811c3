//! Bodies on their ways. The answers follow from the rules of reading, by hand; the good ones are vectors.

use journal::{Actor, Mailbag};
use players::{Body, Bytes, seal};
use run_spec::{Message, Unsealed, Way};
use std::alloc::{AllocError, Global};

/// To whom the letters of these tests go.
const SWITCH: Actor = Actor::Switch(0);

/// A ROLE_REQUEST, and the same with another version.
const ROLE_REQUEST: &[u8] = b"\x04\x18\0\x18\0\0\0\x07\0\0\0\x02\0\0\0\0\0\0\0\0\0\0\0\x01";

const OTHER_VERSION: &[u8] = b"\x05\x18\0\x18\0\0\0\x07\0\0\0\x02\0\0\0\0\0\0\0\0\0\0\0\x01";

/// A COMMAND of 102 bytes, the same with a length that is one too small, and the first 64 bytes of that.
const COMMAND: &[u8] =
    b"\x04\x04\0\x66\0\0\0\0\0\x02\x52\x56\0\0\0\x03\0\0\0\0\0\0\0\0\0\0\0\0\0\0\0\x01\0\0\0\0\0\0\0\0\0\0\0\0\0\0\0\0\x04\x0d\0\x36\0\0\0\0\xff\xff\xff\xff\0\0\0\x01\0\x10\0\0\0\0\0\0\0\0\0\x10\xff\xff\xff\xfb\0\0\0\0\0\0\0\0\x02\0\0\0\0\x02\x02\0\0\0\0\x01\x88\xb5";

const SHORT: &[u8] =
    b"\x04\x04\0\x65\0\0\0\0\0\x02\x52\x56\0\0\0\x03\0\0\0\0\0\0\0\0\0\0\0\0\0\0\0\x01\0\0\0\0\0\0\0\0\0\0\0\0\0\0\0\0\x04\x0d\0\x36\0\0\0\0\xff\xff\xff\xff\0\0\0\x01\0\x10\0\0\0\0\0\0\0\0\0\x10\xff\xff\xff\xfb\0\0\0\0\0\0\0\0\x02\0\0\0\0\x02\x02\0\0\0\0\x01\x88\xb5";

const SHORT_HEAD: &[u8] =
    b"\x04\x04\0\x65\0\0\0\0\0\x02\x52\x56\0\0\0\x03\0\0\0\0\0\0\0\0\0\0\0\0\0\0\0\x01\0\0\0\0\0\0\0\0\0\0\0\0\0\0\0\0\x04\x0d\0\x36\0\0\0\0\xff\xff\xff\xff\0\0\0\x01";

/// A COMMIT, and one with a byte more.
const COMMIT: &[u8] = b"\x03\0\0\0\0\0\0\0\0\0\0\0\0";

const LONG_COMMIT: &[u8] = b"\x03\0\0\0\0\0\0\0\0\0\0\0\0\0";

/// A frame of the shortest length.
const FRAME: &[u8] = b"\0\0\0\x02\x02\0\0\0\0\x02\x02\0\0\0\0\x01\x88\xb5";

/// An error by its type and code, and the number of the request, where a body says no message.
type Fault = Option<(u16, u16, u32)>;

/// A body on its way, and what it says: a message by its canonical bytes, or a fault with the head. The head of what a switch
/// refuses has at most 64 bytes; between controllers, and on a link, it has none.
const BODIES: &[(Way, &[u8], Fault, &[u8])] = &[
    (Way::Of, b"", Some((1, 6, 0)), b""),
    (Way::Vr, b"", Some((0, 0, 0)), b""),
    (Way::Link, b"", Some((0, 0, 0)), b""),
    (Way::Of, ROLE_REQUEST, None, ROLE_REQUEST),
    (Way::Of, OTHER_VERSION, Some((1, 0, 7)), OTHER_VERSION),
    (Way::Of, COMMAND, None, COMMAND),
    (Way::Of, SHORT, Some((1, 6, 0)), SHORT_HEAD),
    (Way::Vr, COMMIT, None, COMMIT),
    (Way::Vr, LONG_COMMIT, Some((0, 0, 0)), b""),
    (Way::Link, FRAME, None, FRAME),
];

/// Whether this was read: a message of these canonical bytes, or a fault with this head.
fn is_said(
    alloc: Global,
    unsealed: &Unsealed,
    fault: Fault,
    expected: &[u8],
) -> Result<bool, AllocError> {
    match unsealed {
        Unsealed::Message(message) => {
            let mut sealed = Mailbag::<Bytes>::new(alloc);
            seal(&mut sealed, SWITCH, message)?;
            Ok(fault.is_none() && sealed.len() == 1 && sealed.bytes(0) == expected)
        }
        Unsealed::Malformed {
            kind,
            code,
            xid,
            head,
        } => Ok(fault == Some((*kind, *code, *xid)) && head.as_slice() == expected),
    }
}

/// Whether bytes say this on a way.
fn says(
    alloc: Global,
    way: Way,
    bytes: &[u8],
    fault: Fault,
    expected: &[u8],
) -> Result<bool, AllocError> {
    let mut sealed = Mailbag::new(alloc);
    sealed.write(SWITCH, |body| body.append(bytes))?;
    if sealed.len() != 1 {
        return Ok(false);
    }
    let unsealed = Bytes::unseal(alloc, &sealed, 0, way);
    drop(sealed);
    let unsealed = unsealed?;
    let said = is_said(alloc, &unsealed, fault, expected);
    drop(unsealed);
    said
}

/// Whether each of these bodies says what stands beside it.
fn say(alloc: Global) -> Result<bool, AllocError> {
    for (way, bytes, fault, expected) in BODIES {
        if !says(alloc, *way, *bytes, *fault, *expected)? {
            return Ok(false);
        }
    }
    Ok(true)
}

#[test]
fn bodies_say_what_the_rules_say(rt: HostRuntime) {
    assert!(rt; say(rt.alloc()) == Ok(true));
}

/// The longest body of a link, and a byte more.
const FRAMES: [u8; 1519] = [0; 1519];

/// Lengths of bodies on a link, and what they say: such bytes, where they are those of a frame with its port, or a fault.
const LENGTHS: &[(usize, Fault)] = &[
    (0, Some((0, 0, 0))),
    (4, Some((0, 0, 0))),
    (17, Some((0, 0, 0))),
    (18, None),
    (1518, None),
    (1519, Some((0, 0, 0))),
];

/// Whether so many bytes say this on a link.
fn is_carried(alloc: Global, length: usize, fault: Fault) -> Result<bool, AllocError> {
    let Some(bytes) = FRAMES.get(..length) else {
        return Ok(false);
    };
    says(
        alloc,
        Way::Link,
        bytes,
        fault,
        if fault.is_none() { bytes } else { b"" },
    )
}

/// Whether each of these lengths is answered so.
fn are_carried(alloc: Global) -> Result<bool, AllocError> {
    for (length, fault) in LENGTHS {
        if !is_carried(alloc, *length, *fault)? {
            return Ok(false);
        }
    }
    Ok(true)
}

#[test]
fn links_carry_frames_of_their_lengths(rt: HostRuntime) {
    assert!(rt; are_carried(rt.alloc()) == Ok(true));
}
