//! How each actor stands along its lifeline.

use crate::shapes::{Life, Standing};
use journal::Actor;
use std::alloc::{AllocError, Global};

/// The lifelines up to an entry. The last part of each is open, since its end isn't known yet.
#[derive(Drop)]
pub struct Lifelines {
    controllers: u8,
    generation: u64,
    open: Vec<Life>,
    ended: Vec<Life>,
}

/// A lifeline from the first place on.
fn begun(actor: Actor) -> Life {
    Life {
        actor,
        standing: Standing::Up,
        from: 0,
        to: 0,
    }
}

/// How a controller stands behind a grant of the role of master, to it or to another.
fn behind_grant(standing: Standing, is_granted: bool) -> Standing {
    match standing {
        Standing::Down => Standing::Down,
        _ if is_granted => Standing::Master,
        _ => Standing::Up,
    }
}

impl Lifelines {
    /// Each of so many actors is up.
    pub fn new(alloc: Global, controllers: u8, switches: u8) -> Result<Lifelines, AllocError> {
        let mut open = Vec::new(alloc);
        for number in 0..controllers {
            open.push(begun(Actor::Controller(number)))?;
        }
        for number in 0..switches {
            open.push(begun(Actor::Switch(number)))?;
        }
        Ok(Lifelines {
            controllers,
            generation: 0,
            open,
            ended: Vec::new(alloc),
        })
    }

    /// From a place on the actor of a lifeline stands so.
    fn stand(
        &mut self,
        lifeline: usize,
        standing: Standing,
        place: usize,
    ) -> Result<(), AllocError> {
        let Some(life) = self.open.get_mut(lifeline) else {
            return Ok(());
        };
        if life.standing == standing {
            return Ok(());
        }
        let ended = Life { to: place, ..*life };
        life.from = place;
        life.standing = standing;
        if ended.from < place {
            self.ended.push(ended)?;
        }
        Ok(())
    }

    /// From a place on an actor stands so.
    pub fn turn(
        &mut self,
        actor: Actor,
        standing: Standing,
        place: usize,
    ) -> Result<(), AllocError> {
        let lifeline = match actor {
            Actor::Controller(number) => usize::from(number),
            Actor::Switch(number) => usize::from(self.controllers) + usize::from(number),
        };
        self.stand(lifeline, standing, place)
    }

    /// At a place a switch grants a controller the role of master. A smaller generation than the greatest so far changes nothing.
    pub fn grant(
        &mut self,
        controller: u8,
        generation: u64,
        place: usize,
    ) -> Result<(), AllocError> {
        if generation < self.generation {
            return Ok(());
        }
        self.generation = generation;
        for number in 0..self.controllers {
            self.stand_behind_grant(number, number == controller, place)?;
        }
        Ok(())
    }

    fn stand_behind_grant(
        &mut self,
        controller: u8,
        is_granted: bool,
        place: usize,
    ) -> Result<(), AllocError> {
        let lifeline = usize::from(controller);
        let Some(life) = self.open.get(lifeline) else {
            return Ok(());
        };
        let standing = behind_grant(life.standing, is_granted);
        self.stand(lifeline, standing, place)
    }

    /// All parts of all lifelines, which end at a place.
    pub fn end(self, place: usize) -> Result<Vec<Life>, AllocError> {
        let mut ended = self.ended;
        for life in &self.open {
            ended.push(Life { to: place, ..*life })?;
        }
        Ok(ended)
    }
}
