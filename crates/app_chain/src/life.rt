//! The chain of one life of a controller.
ghost use Rattle.app_core.specs.Law.{chain_law};

use app_core::{App, Part, joined_reactions, start_parts};
use of_types::{Commands, Event, Setup};
use std::alloc::{AllocError, Global};

/// The parts of one life of a controller, in order. It is an application, too.
#[derive(Drop)]
pub struct LifeOf<P> {
    pub controller: u8,
    pub life: u32,
    pub parts: Vec<P>,
}

/// A life whose parts are boxes.
pub type LifeChain = LifeOf<Box<dyn Part + Send>>;

impl<P: Part> App for LifeOf<P> {
    ghost law = { chain_law P.kind_of P.numbers P.is_fit (λ life. life.parts.items) };

    fn start(&mut self, alloc: Global, setup: &Setup) -> Result<(), AllocError> {
        start_parts(alloc, self.parts.as_mut_slice(), setup)
    }

    fn react(&mut self, alloc: Global, event: &Event) -> Result<Commands, AllocError> {
        joined_reactions(alloc, &mut self.parts, event)
    }
}
