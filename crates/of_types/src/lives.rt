//! The lives of switches and controllers: each restart begins the next one.
ghost use Rattle.std.specs.Prelude.{◌≡◌};
ghost use Rattle.of_types.specs.Lives as lives;

use crate::message::{Happening, PortStatus};
use crate::numbers::{ANY_PORT, REASON_ADD};

/// The last life that a switch or a controller can have.
pub const LAST_LIFE: u32 = 15;

/// The event with which a later life of a switch begins: a switch is up.
pub fn switch_up() -> Happening
    ensures { result ≡ lives.switch_up }
{
    Happening::PortStatus(PortStatus {
        reason: REASON_ADD,
        port: ANY_PORT,
        up: true,
    })
}

/// Whether an event tells that its switch is up.
pub fn is_switch_up(what: &Happening) -> bool
    ensures { result ≡ lives.is_switch_up what.now }
{
    match what {
        Happening::PacketIn(_) | Happening::FlowRemoved(_) => false,
        Happening::PortStatus(status) => {
            status.reason == REASON_ADD && status.port == ANY_PORT && status.up
        }
    }
}
