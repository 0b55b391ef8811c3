//! A chain of parts.
ghost use Rattle.std.specs.Prelude.{◌≡◌, ◌≤◌, map, IfOk};
ghost use Rattle.app_core.specs.Chain.{given_by};
ghost use Rattle.app_core.specs.Law.{chain_law};

use app_core::{App, Part, joined_reactions, start_parts};
use of_types::{Commands, Event, Setup};
use std::alloc::{AllocError, Global};
use std::marker::Model;

/// The most commands that a chain may give for an event.
pub const MOST_COMMANDS: u32 = 128;

/// Parts that are asked in order until one stops. Contracts see the parts.
#[derive(Drop)]
pub struct ChainOf<P> {
    parts: Vec<P>,
}

/// A chain of boxes.
pub type Chain = ChainOf<Box<dyn Part + Send>>;

impl<P> Model for ChainOf<P> {
    ghost use Rattle.std.specs.Prelude.{List};

    ghost Value = { List P };

    ghost view = { λ c. c.parts.items };
}

impl<P: Part> ChainOf<P> {
    /// A chain of these parts, in order.
    pub fn new(parts: Vec<P>) -> ChainOf<P>
        requires { given_by (map P.kind_of parts.items) ≤ MOST_COMMANDS }
        ensures { result ≡ parts.items }
    {
        ChainOf { parts }
    }

    /// The kinds of its parts, in order.
    pub fn kinds(&self, alloc: Global) -> Result<Vec<u8>, AllocError>
        ensures { IfOk result (λ kinds. kinds.items ≡ map P.kind_of self.now) }
    {
        let mut kinds = Vec::with_capacity(alloc, self.parts.len())?;
        for part in &self.parts {
            kinds.push(part.kind())?;
        }
        Ok(kinds)
    }
}

impl<P: Part> App for ChainOf<P> {
    ghost law = { chain_law P.kind_of P.numbers P.is_fit (λ parts. parts) };

    fn start(&mut self, alloc: Global, setup: &Setup) -> Result<(), AllocError> {
        start_parts(alloc, self.parts.as_mut_slice(), setup)
    }

    fn react(&mut self, alloc: Global, event: &Event) -> Result<Commands, AllocError> {
        joined_reactions(alloc, &mut self.parts, event)
    }
}
