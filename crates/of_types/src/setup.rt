//! The controllers, switches and wires of a run.
ghost use Rattle.std.specs.Prelude.{◌≡◌, IfOk};

use crate::items::{Links, PortCounts, Rules};
use std::alloc::AllocError;

/// A wire between a port of one switch and a port of another.
#[derive(Clone, Copy, PartialEq, Eq, Debug)]
pub struct Link {
    pub switch: u8,
    pub port: u32,
    pub peer: u8,
    pub peer_port: u32,
}

/// The IPv4 addresses that begin with the first `length` bits of one.
#[derive(Clone, Copy, PartialEq, Eq, Debug)]
pub struct Prefix {
    pub address: u32,
    pub length: u8,
}

/// What the firewall denies: a protocol (0 is any) between two prefixes, and a destination port.
#[derive(Clone, Copy, PartialEq, Eq, Debug)]
pub struct Rule {
    pub proto: u8,
    pub src: Prefix,
    pub dst: Prefix,
    pub port: Option<u16>,
}

/// What a run is about: how many controllers there are, the ports of each switch, the wires, and
/// what the firewall denies.
#[derive(Drop)]
pub struct Setup {
    pub controllers: u8,
    pub ports: PortCounts,
    pub links: Links,
    pub deny: Rules,
}

impl Clone for Setup {
    ghost is_clone = { λ x y. y ≡ x };

    fn clone(&self) -> Result<Setup, AllocError> {
        Ok(Setup {
            ports: self.ports.copied()?,
            links: self.links.copied()?,
            deny: self.deny.copied()?,
            ..*self
        })
    }
}

impl Setup {
    /// An equal setup.
    pub fn copy(&self) -> Result<Setup, AllocError>
        ensures { IfOk result (λ copied. copied ≡ self.now) }
    {
        self.clone()
    }
}
