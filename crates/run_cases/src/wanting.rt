//! Applications that find no memory once.
ghost use Rattle.std.specs.Prelude.{◌≡◌, ◌∷◌, [], length, IfOk, OnOk};
ghost use Rattle.app_core.specs.Chain.{learning};
ghost use Rattle.group_controller.specs.Turns.{AreAlike};
ghost use Rattle.world.specs.World.{AreStocked, IsStocked};

use app_chain::ChainOf;
use app_core::App;
use learning_app::Learning;
use of_types::{Commands, Event, LAST_LIFE, Setup};
use std::alloc::{AllocError, Global};

/// An application that learns. It takes so many events, and finds no memory for the next one, if so many are told.
#[derive(Drop)]
pub struct Wanting {
    pub chain: ChainOf<Learning>,
    pub events: Option<u64>,
}

impl App for Wanting {
    ghost law = { record {
      kinds = λ w. ⟦<ChainOf<Learning> as App>⟧.law.kinds w.chain;
      states = λ w. ⟦<ChainOf<Learning> as App>⟧.law.states w.chain;
      suits = λ w. ⟦<ChainOf<Learning> as App>⟧.law.suits w.chain;
    } };

    fn start(&mut self, alloc: Global, setup: &Setup) -> Result<(), AllocError> {
        self.chain.start(alloc, setup)
    }

    fn react(&mut self, alloc: Global, event: &Event) -> Result<Commands, AllocError> {
        match self.events {
            Some(0) => return Err(AllocError),
            Some(events) => self.events = Some(events - 1),
            None => {}
        }
        self.chain.react(alloc, event)
    }
}

/// One that takes so many events.
#[tactic(auto, unfolding(app_core::specs::Chain::rule_of))]
pub fn app_of(alloc: Global, events: Option<u64>) -> Result<Wanting, AllocError>
    ensures { IfOk result (λ w. ⟦<Wanting as App>⟧.law.kinds w ≡ learning ∷ []) }
{
    let mut parts = Vec::with_capacity(alloc, 1)?;
    parts.push(Learning::new(alloc))?;
    Ok(Wanting {
        chain: ChainOf::new(parts),
        events,
    })
}

/// The applications of the lives of one controller. That of its first life takes so many events.
#[tactic(auto, unfolding(app_core::specs::Chain::rule_of))]
fn shelf_of(alloc: Global, events: Option<u64>) -> Result<Vec<Wanting>, AllocError>
    ensures { IfOk result (λ shelf. IsStocked ⟦<Wanting as App>⟧.law (learning ∷ []) shelf.items) }
{
    let mut shelf = Vec::new(alloc);
    shelf.push(app_of(alloc, events)?)?;
    'lives: for _ in 0..LAST_LIFE {
        shelf.push(app_of(alloc, None)?)?;
    }
    Ok(shelf)
}

/// Those of the controllers of a group, one of which takes so many events in its first life.
pub fn shelves_of(
    alloc: Global,
    controllers: u8,
    controller: u8,
    events: u64,
) -> Result<Vec<Vec<Wanting>>, AllocError>
    ensures count { IfOk result (λ shelves. length shelves.items ≡ controllers) }
    ensures stocked { IfOk result (λ shelves. AreStocked ⟦<Wanting as App>⟧.law (learning ∷ []) shelves.items) }
{
    let mut shelves = Vec::new(alloc);
    'controllers: for number in 0..controllers {
        let events = if number == controller {
            Some(events)
        } else {
            None
        };
        shelves.push(shelf_of(alloc, events)?)?;
    }
    Ok(shelves)
}
