//! A gate that counts: before its turn of number N an actor has passed N times. Actors may wait there for others.

use cases::{Difference, Passes, Waits};
use journal::{Actor, Gate};
use std::alloc::{AllocError, Global};
use std::sync::atomic::{AtomicU64, Ordering};
use std::thread::yield_now;
use top_call::CONTROLLERS;

/// The most switches of a scenario.
const SWITCHES: usize = 64;

/// How often one looks whether another has passed.
const LOOKS: u64 = 1_000_000_000;

/// What stands for the count of an actor that passed before a turn that is not its next.
const SPOILED: u64 = u64::MAX;

/// How often an actor passed.
#[derive(Drop)]
struct Counter {
    count: AtomicU64,
}

impl Counter {
    fn new() -> Counter {
        Counter {
            count: AtomicU64::new(0),
        }
    }

    /// It passes before its turn of this number.
    fn pass(&self, turn: u64) {
        let next = if self.count.load(Ordering::SeqCst) == turn {
            turn.saturating_add(1)
        } else {
            SPOILED
        };
        self.count.store(next, Ordering::SeqCst);
    }

    /// Looks until it has passed before its turn of this number.
    fn await_pass(&self, turn: u64) {
        for _ in 0..LOOKS {
            if self.count.load(Ordering::SeqCst) > turn {
                return;
            }
            yield_now();
        }
    }

    /// How often it passed, if each time before its next turn.
    fn passed(&self) -> Option<u64> {
        match self.count.load(Ordering::SeqCst) {
            SPOILED => None,
            count => Some(count),
        }
    }
}

/// Counters for so many actors.
fn counters(alloc: Global, count: usize) -> Result<Vec<Counter>, AllocError> {
    let mut counters = Vec::with_capacity(alloc, count)?;
    for _ in 0..count {
        counters.push(Counter::new())?;
    }
    Ok(counters)
}

/// A gate that counts the passes of each actor.
#[derive(Drop)]
pub struct CountingGate<'a> {
    controllers: Vec<Counter>,
    switches: Vec<Counter>,
    waits: &'a [Waits],
}

impl<'a> CountingGate<'a> {
    /// One that nobody has passed, at which these actors wait.
    pub fn new(alloc: Global, waits: &'a [Waits]) -> Result<CountingGate<'a>, AllocError> {
        Ok(CountingGate {
            controllers: counters(alloc, CONTROLLERS)?,
            switches: counters(alloc, SWITCHES)?,
            waits,
        })
    }

    fn counter(&self, actor: Actor) -> Option<&Counter> {
        match actor {
            Actor::Controller(number) => self.controllers.get(usize::from(number)),
            Actor::Switch(number) => self.switches.get(usize::from(number)),
        }
    }

    /// Lets an actor wait for those for which it is to wait.
    fn hold(&self, actor: Actor) {
        for wait in self.waits {
            if wait.actor == actor
                && let Some(other) = self.counter(wait.other)
            {
                other.await_pass(wait.turn);
            }
        }
    }

    /// Each of these actors has passed so often, each time before its next turn.
    pub fn check(&self, wanted: &[Passes]) -> Result<(), Difference> {
        for passes in wanted {
            let found = self.counter(passes.actor).and_then(Counter::passed);
            if found != Some(passes.count) {
                return Err(Difference::Passes {
                    actor: passes.actor,
                    found,
                    wanted: passes.count,
                });
            }
        }
        Ok(())
    }
}

impl Gate for CountingGate<'_> {
    fn pass(&self, actor: Actor, turn: u64) {
        if turn == 0 {
            self.hold(actor);
        }
        if let Some(counter) = self.counter(actor) {
            counter.pass(turn);
        }
    }
}
