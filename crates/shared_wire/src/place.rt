//! An actor's place at a board.
ghost use Rattle.std.specs.Prelude.{◌≡◌};
ghost use Rattle.shared_wire.specs.Places.{IsPlace};

use crate::rule::WireSeat;
use journal::{Actor, Weight};
use std::marker::Model;

/// An actor's place. Contracts see its actor, its own entries, the front of the journal that it has seen,
/// and which board it is of.
#[derive(Drop)]
pub struct Place<B: Weight> {
    pub(crate) actor: Actor,
    pub(crate) seat: WireSeat<B>,
}

impl<B: Weight> Model for Place<B> {
    ghost use Rattle.shared_wire.specs.Places.{PlaceState, IsPlace, IsFree, actor_place_of, known_of};

    ghost Value = { PlaceState B };

    ghost view = { λ p. actor_place_of p.actor p.seat.table_id p.seat.me.0 };

    ghost invariant = { λ p.
        IsFree (known_of (actor_place_of p.actor p.seat.table_id p.seat.me.0)) p.seat.me
        × IsPlace B.size (actor_place_of p.actor p.seat.table_id p.seat.me.0) };
}

impl<B: Weight> Place<B> {
    /// The actor of this place.
    pub fn actor(&self) -> Actor
        ensures { result ≡ self.now.actor }
    {
        self.actor
    }

    /// What each place has seen is orderly and within the limits, and its own entries are its part of it.
    pub fn lawful(&self)
        ensures { IsPlace B.size self.now }
    {
        let _ = &self.seat;
    }
}
