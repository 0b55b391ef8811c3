//! What a controller hears and says.
use journal::{Actor, Local};
use of_types::Spoken;
use vr_log::VrMessage;

/// What a controller says in a letter: a message to a switch, or one to another controller.
#[derive(Drop)]
pub enum ControllerSays {
    Of { xid: u32, message: Spoken },
    Vr(VrMessage),
}

/// What a controller takes in one turn.
#[derive(Drop)]
pub enum ControllerInput {
    Local(Local),
    Of {
        switch: u8,
        xid: u32,
        message: Spoken,
    },
    /// A body that spells no message.
    Malformed {
        from: Actor,
    },
    Vr {
        from: u8,
        message: VrMessage,
    },
}
