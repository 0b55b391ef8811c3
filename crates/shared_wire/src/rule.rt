//! The rule of the board's table, and what its steps tell. Of these types, no value but of a slot, a seat
//! and a table is made: the others are for proofs alone.
use atomic_table::{Join, Play, Seat, Shared, Split, TableRule};
use journal::{Actor, Journal, JournalEntry, Packet, Weight, Wire};
use of_types::Items;
use std::marker::PhantomData;

/// What a seat knows of an actor: its own entries, the newest first and each draw beside its packet, and
/// the front of the journal that was seen.
pub struct Known<B> {
    pub actor: Actor,
    pub own: Items<(JournalEntry<B>, Option<Packet<B>>)>,
    pub seen: Journal<B>,
}

/// The view of a seat: what it knows, which actors have a seat and which don't yet, and the journal that
/// it holds.
pub struct View<B> {
    pub known: Items<Known<B>>,
    pub seated: Items<Actor>,
    pub unseated: Items<Actor>,
    pub held: Option<Journal<B>>,
}

/// The rule, for the actors that are the table's key.
pub struct WireRule<B> {
    marker: PhantomData<B>,
}

/// Where the wire lies, unless a seat holds it.
pub type Slot<B> = Option<Wire<B>>;

/// A seat at the board's table.
pub type WireSeat<B> = Seat<Slot<B>, View<B>>;

/// The board's table, as its seats share it.
pub type WireTable<B> = Shared<Slot<B>, View<B>, Vec<Actor>, WireRule<B>>;

impl<B: Weight> TableRule<Slot<B>, View<B>, Vec<Actor>> for WireRule<B> {
    ghost use Rattle.shared_wire.specs.Rule.{IsRuled, first_view};

    ghost holds = { λ actors. IsRuled actors.items };

    ghost first = { λ actors. first_view actors.items };
}

/// Takes the wire, or finds none.
pub struct Take;

impl<B: Weight> Play<Slot<B>, View<B>> for Take {
    ghost use Rattle.shared_wire.specs.Rule.{took};

    ghost then = { took };
}

/// Gives the wire back.
pub struct Give;

impl<B: Weight> Play<Slot<B>, View<B>> for Give {
    ghost use Rattle.shared_wire.specs.Rule.{gave};

    ghost then = { gave };
}

/// The next actor gets a seat.
pub struct SeatNext;

impl<B> Split<View<B>> for SeatNext {
    ghost use Rattle.shared_wire.specs.Rule.{after_seating, newly_seated};

    ghost left = { after_seating };

    ghost right = { newly_seated };
}

/// What a seat knew goes to the seat that stays.
pub struct EndSeat;

impl<B> Join<View<B>> for EndSeat {
    ghost use Rattle.shared_wire.specs.Rule.{joined, spent};

    ghost both = { joined };

    ghost spent = { spent };
}
