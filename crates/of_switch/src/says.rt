//! What a switch takes, and what it says.

use journal::{Actor, Local};
use of_types::{Octets, Spoken};

/// What a switch says in a letter.
#[derive(Drop)]
pub enum SwitchSays {
    /// A message to a controller. `xid` is that of the request where it is an answer, and else 0.
    Of { xid: u32, message: Spoken },
    /// A frame over a link, which comes in by this port of the other switch.
    Frame { port: u32, bytes: Octets },
}

/// What a switch takes in one turn.
#[derive(Drop)]
pub enum SwitchInput {
    /// What comes from outside: a frame, the state of a port, a tick, a restart.
    Local(Local),
    /// A message of a controller.
    Of {
        from: u8,
        xid: u32,
        message: Spoken,
    },
    /// A body that spells no message, and why. `head` is its beginning.
    Malformed {
        from: Actor,
        kind: u16,
        code: u16,
        xid: u32,
        head: Octets,
    },
    /// A frame that another switch sent to this port.
    Frame {
        from: u8,
        port: u32,
        bytes: Octets,
    },
}
