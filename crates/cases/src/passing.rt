//! What actors of `run` do at the gate, which each passes before each of its turns.

use journal::Actor;

/// The actor that a word names: a letter, and its number.
fn actor_of(word: &str) -> Option<Actor> {
    if let Some(number) = word.strip_prefix("c") {
        return Some(Actor::Controller(number.parse().ok()?));
    }
    Some(Actor::Switch(word.strip_prefix("s")?.parse().ok()?))
}

/// How often an actor passes.
#[derive(Clone, Copy)]
pub struct Passes {
    pub actor: Actor,
    pub count: u64,
}

impl Passes {
    /// As a line tells it: the actor, and the count.
    pub fn of(line: &str) -> Option<Passes> {
        let (actor, count) = line.split_once(' ')?;
        Some(Passes {
            actor: actor_of(actor)?,
            count: count.parse().ok()?,
        })
    }
}

/// An actor that waits, before its first turn, until another passes before its turn of a number.
#[derive(Clone, Copy)]
pub struct Waits {
    pub actor: Actor,
    pub other: Actor,
    pub turn: u64,
}

impl Waits {
    /// As a line tells it: the actor, the other, and the number of the other's turn, from 0.
    pub fn of(line: &str) -> Option<Waits> {
        let (actor, rest) = line.split_once(' ')?;
        let (other, turn) = rest.split_once(' ')?;
        Some(Waits {
            actor: actor_of(actor)?,
            other: actor_of(other)?,
            turn: turn.parse().ok()?,
        })
    }
}
