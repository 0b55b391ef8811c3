//! What is said on each way.
use of_types::{Octets, Spoken};
use vr_log::VrMessage;

/// Between whom a packet goes: a controller and a switch, two controllers, or two switches.
#[derive(Clone, Copy, PartialEq, Eq, Debug)]
pub enum Way {
    Of,
    Vr,
    Link,
}

/// A message of a way.
#[derive(Drop)]
pub enum Message {
    Of { xid: u32, message: Spoken },
    Vr(VrMessage),
    Frame { port: u32, bytes: Octets },
}

/// What a body says: a message, or none, with the type and the code of the error that tells why, the number of the message, and
/// the beginning of the body.
#[derive(Drop)]
pub enum Unsealed {
    Message(Message),
    Malformed {
        kind: u16,
        code: u16,
        xid: u32,
        head: Octets,
    },
}
