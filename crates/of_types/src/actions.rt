//! The actions of a row or of a frame that is sent, which contracts see as the list of their ports.
ghost use Rattle.std.specs.Prelude.{◌≡◌, ◌++◌, [], ◌∷◌, length, IfOk, if◌then◌else◌, is_ok, ◌==◌};

use std::alloc::{AllocError, Global};
use std::marker::Model;

/// Output ports, in the order in which they are done. One port, as most rows and frames have, takes no memory.
#[derive(Drop)]
pub struct Actions {
    alloc: Global,
    ports: Ports,
}

/// Ports, in order. A list stands apart, so that what holds the ports is small and cheap to hand on.
#[derive(Drop)]
enum Ports {
    None,
    One([u32; 1]),
    Many(Box<Vec<u32>>),
}

impl Model for Actions {
    ghost use Rattle.std.specs.Prelude.{List, ℕ};
    ghost use Rattle.of_types.specs.Actions.{ports_in};

    ghost Value = { List ℕ };

    ghost view = { λ a. ports_in a.ports };
}

impl Actions {
    /// No action, which takes no memory.
    pub fn new(alloc: Global) -> Actions
        ensures { result ≡ [] }
    {
        Actions {
            alloc,
            ports: Ports::None,
        }
    }

    /// Appends a port. An `Err` changes nothing.
    #[inline(always)]
    pub fn push(&mut self, port: u32) -> Result<(), AllocError>
        ensures { self.new ≡ (if is_ok result then self.old ++ port ∷ [] else self.old) }
    {
        let ports = match &mut self.ports {
            Ports::None => Ports::One([port]),
            Ports::One(first) => {
                let mut ports = Vec::with_capacity(self.alloc, 2)?;
                ports.push_reserved(first[0]);
                ports.push_reserved(port);
                Ports::Many(Box::new(self.alloc, ports)?)
            }
            Ports::Many(ports) => {
                ports.push(port)?;
                return Ok(());
            }
        };
        self.ports = ports;
        Ok(())
    }

    /// The ports, in order.
    pub fn as_slice(&self) -> &[u32]
        ensures { result.now ≡ self.now }
    {
        match &self.ports {
            Ports::None => &[],
            Ports::One(port) => port,
            Ports::Many(ports) => ports.as_slice(),
        }
    }

    pub fn len(&self) -> usize
        ensures { result ≡ length self.now }
    {
        self.as_slice().len()
    }

    pub fn is_empty(&self) -> bool
        ensures { result ≡ (length self.now == 0) }
    {
        self.as_slice().is_empty()
    }
}

impl Clone for Actions {
    ghost is_clone = { λ x y. y ≡ x };

    fn clone(&self) -> Result<Actions, AllocError> {
        let ports = match &self.ports {
            Ports::None => Ports::None,
            Ports::One(port) => Ports::One(*port),
            Ports::Many(ports) => {
                let ports = Vec::from_slice(self.alloc, ports.as_slice())?;
                Ports::Many(Box::new(self.alloc, ports)?)
            }
        };
        Ok(Actions {
            alloc: self.alloc,
            ports,
        })
    }
}
