//! The hub.
ghost use Rattle.std.specs.Prelude.{◌≡◌, ◌≤◌, ◌+◌, ◌++◌, nat_lt, [], length, OnOk, if◌then◌else◌};
ghost use Rattle.app_core.specs.Chain.{hub};
ghost use Rattle.app_core.specs.Hub.{hub_commands};

use app_core::{Part, packet_out};
use of_types::{Commands, Event, FLOOD, Happening, Setup};
use std::alloc::{AllocError, Global};

/// A part that sends each frame out by all other ports. It knows how many switches there are, and nothing else.
#[derive(Drop)]
pub struct Hub {
    switches: usize,
}

/// What a hub asks for with what happened at a switch.
fn flood(alloc: Global, switch: u8, what: &Happening, out: &mut Commands) -> Result<(), AllocError>
    ensures { OnOk result (out.new ≡ out.old ++ hub_commands switch what.now) }
{
    match what {
        Happening::PacketIn(packet) => {
            out.push(packet_out(alloc, switch, packet.in_port, &packet.payload, FLOOD)?)?;
            Ok(())
        }
        Happening::PortStatus(_) | Happening::FlowRemoved(_) => Ok(()),
    }
}

/// What a hub asks for with an event, where there are so many switches.
fn on_event(
    alloc: Global,
    switches: usize,
    event: &Event,
    out: &mut Commands,
) -> Result<(), AllocError>
    ensures { OnOk result (out.new ≡ out.old ++ (if nat_lt event.now.switch switches then hub_commands event.now.switch event.now.what else [])) }
{
    if usize::from(event.switch) < switches {
        flood(alloc, event.switch, &event.what, out)?;
    }
    Ok(())
}

impl Hub {
    /// A part that is still to be started: it knows no switch. It takes no memory.
    pub fn new() -> Hub {
        Hub { switches: 0 }
    }
}

#[tactic(auto, unfolding(app_core::specs::Chain::rule_of))]
impl Part for Hub {
    ghost kind_of = { λ _. hub };

    ghost numbers = { λ _. [] };

    // A setup with so many switches.
    ghost is_fit = { λ h setup. h.switches ≡ length setup.ports };

    fn kind(&self) -> u8 {
        4
    }

    fn most(&self) -> u32 {
        1
    }

    fn start(&mut self, alloc: Global, setup: &Setup) -> Result<(), AllocError> {
        let _ = alloc;
        self.switches = setup.ports.len();
        Ok(())
    }

    fn react(
        &mut self,
        alloc: Global,
        event: &Event,
        out: &mut Commands,
    ) -> Result<bool, AllocError> {
        on_event(alloc, self.switches, event, out)?;
        Ok(false)
    }
}
