//! The ports of a switch (OpenFlow 1.3, 4.1 and 7.2.1).
ghost use Rattle.std.specs.Prelude.{◌≡◌, ◌≤◌, ◌<◌, length, IfOk};
ghost use Rattle.of_types.specs.SmallSets.{places_from};
ghost use Rattle.event_buffer.specs.Buffer.{highest_port};
ghost use Rattle.of_switch.specs.Events.{is_port, is_port_down, with_port, port_status};
ghost use Rattle.of_switch.specs.Forwarding.{is_port_up};

use super::Switch;
use of_types::{Happening, PortStatus, REASON_MODIFY};
use std::alloc::{AllocError, Global};

impl Switch {
    /// How many ports it has: at most 48.
    pub(super) fn ports(&self) -> u32
        ensures count { result ≡ self.now.ports }
        ensures few { self.now.ports ≤ highest_port }
    {
        self.down.len() as u32
    }

    /// Whether it has a port.
    pub(super) fn is_port(&self, port: u32) -> bool
        ensures { result ≡ is_port self.now port }
    {
        1 <= port && port <= self.ports()
    }

    /// Whether it has a port that is down.
    pub(super) fn is_down(&self, port: u32) -> bool
        ensures { result ≡ is_port_down self.now port }
    {
        self.is_port(port) && self.down[port as usize - 1]
    }

    /// Whether it has a port that is up.
    pub(super) fn is_up(&self, port: u32) -> bool
        ensures { result ≡ is_port_up self.now port }
    {
        self.is_port(port) && !self.is_down(port)
    }

    /// A port goes down, or comes up.
    pub(super) fn set_port(&mut self, port: u32, up: bool)
        requires { (1 ≤ port) × (port ≤ self.old.ports) }
        ensures { self.new ≡ with_port self.old port up }
    {
        self.down[port as usize - 1] = !up;
    }

    /// The present state of a port, as a change.
    pub(super) fn port_status(&self, port: u32) -> Happening
        ensures { result ≡ port_status self.now port }
    {
        Happening::PortStatus(PortStatus {
            reason: REASON_MODIFY,
            port,
            up: !self.is_down(port),
        })
    }

    /// Its ports that are down, ascending.
    pub(super) fn down_ports(&self) -> Result<Vec<u32>, AllocError>
        ensures ports { IfOk result (λ ports. ports.items ≡ self.now.down) }
        ensures few { IfOk result (λ ports. length ports.items ≤ highest_port) }
    {
        down_among(self.alloc, &self.down)
    }
}

/// The ports, numbered from 1, that are down.
fn down_among(alloc: Global, down: &[bool]) -> Result<Vec<u32>, AllocError>
    requires { length down.now ≤ highest_port }
    ensures ports { IfOk result (λ ports. ports.items ≡ places_from 1 down.now) }
    ensures few { IfOk result (λ ports. length ports.items ≤ highest_port) }
{
    let mut ports = Vec::new(alloc);
    for (index, is_down) in down.iter().enumerate() {
        if *is_down {
            ports.push(index as u32 + 1)?;
        }
    }
    Ok(ports)
}
