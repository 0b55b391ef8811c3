//! The board.
ghost use Rattle.std.specs.Prelude.{◌≡◌, ◌<◌, ◌≤◌, ◌++◌, ◌∷◌, [], Some, None, List, IfOk, OnOk, IfErr, IfSome, IsSome, All, Contains, map, drop, length, vec_len, vec_capacity};
ghost use Rattle.std.specs.List.{IsDistinct};
ghost use Rattle.std.specs.Mem.Slots.{slots_items, slots_len, IsFull};
ghost use mathlib.Core.Option.{some};
ghost use lib.ListN.{get_elem?};
ghost use Rattle.journal.specs.Actors.{same_actor};
ghost use Rattle.journal.specs.Orderly.{IsOrderly};
ghost use Rattle.journal.specs.Places.{packet_at, IsFound};
ghost use Rattle.journal.specs.Pool.{past, pick};
ghost use Rattle.journal.specs.Turns.{posting, turn_entries, IsWithinLimits};
ghost use Rattle.journal.specs.declared.journal.Actor.{Actor as AnActor};
ghost use Rattle.journal.specs.declared.journal.JournalEntry.{JournalEntry as AnEntry};
ghost use Rattle.journal.specs.declared.journal.Turn.TheVariants as turn;
ghost use Rattle.shared_wire.specs.declared.rule.Known.{Known};
ghost use Rattle.shared_wire.specs.Rule.{seat_view_of, after_seating, AreNamed};
ghost use Rattle.shared_wire.specs.Places.{fresh, known_of, KnowsEach, IsSamePlace, IsPartOf};
ghost use Rattle.shared_wire.specs.Calls.{Adds, AddsNothing, Refuses};

use crate::hold::{give_wire, take_wire};
use crate::place::Place;
use crate::rule::{EndSeat, SeatNext, Slot, View, WireRule, WireSeat, WireTable};
use atomic_table::{Closed, Table};
use journal::{Actor, Local, Mailbag, PacketPlace, Stop, Weight, Wire};
use std::alloc::{AllocError, Global};
use std::marker::Model;
use std::sync::Wait;

/// One wire that actors share. Contracts see its actors, and which board it is.
#[derive(Drop)]
pub struct Board<B: Weight> {
    table: Table<Slot<B>, View<B>, Vec<Actor>, WireRule<B>, Global>,
}

impl<B: Weight> Model for Board<B> {
    ghost use Rattle.std.specs.Prelude.{◌≡◌, ◌<◌, length};
    ghost use Rattle.shared_wire.specs.Places.{BoardState};

    ghost Value = { BoardState };

    ghost view = { λ b. record { actors = b.table.shared.key.items; id = b.table.shared.table_id } };

    ghost invariant = { λ b.
        (b.table.shared.table_id.words ≡ 1)
        × (b.table.shared.table_id.slots ≡ 1)
        × (0 < length b.table.shared.key.items) };
}

/// The next actor gets a seat.
fn seat_next<B: Weight>(table: &WireTable<B>, first: &mut WireSeat<B>, actor: Actor) -> Place<B>
    requires table { (table.now.table_id.words ≡ 1)
        × (first.old.table_id ≡ table.now.table_id)
        × (first.old.id ≡ 0) }
    requires next { (seated : List AnActor) × (more : List AnActor)
        × (first.old.me ≡ (seat_view_of [] seated (actor ∷ more) None, [])) }
    ensures first { (first.new.table_id ≡ first.old.table_id)
        × (first.new.id ≡ 0)
        × (first.new.me ≡ (after_seating first.old.me.0, [])) }
    ensures place { result ≡ fresh table.now.table_id actor }
{
    let seat = table.split_seat::<SeatNext>(first);
    Place { actor, seat }
}

/// Each actor gets a seat, in order.
fn seat_all<B: Weight>(
    table: &WireTable<B>,
    first: &mut WireSeat<B>,
    actors: &[Actor],
    places: &mut Vec<Place<B>>,
)
    requires table { (table.now.table_id.words ≡ 1)
        × (first.old.table_id ≡ table.now.table_id)
        × (first.old.id ≡ 0) }
    requires first { first.old.me ≡ (seat_view_of [] [] actors.now None, []) }
    requires places { (places.old.items ≡ []) × (length actors.now ≤ vec_capacity places.old) }
    ensures first { (first.new.table_id ≡ first.old.table_id)
        × (first.new.id ≡ 0)
        × (first.new.me ≡ (seat_view_of [] actors.now [] None, [])) }
    ensures places { places.new.items ≡ map (fresh table.now.table_id) actors.now }
{
    for actor in actors {
        let place = seat_next(table, first, *actor);
        places.push_reserved(place);
    }
}

/// What a place knew goes to the seat that stays.
fn end_place<B: Weight>(table: &WireTable<B>, last: &mut WireSeat<B>, place: Place<B>)
    requires table { (table.now.table_id.words ≡ 1) × (last.old.table_id ≡ table.now.table_id) }
    requires free { (last.old.me.0.held ≡ None)
        × (last.old.me.1 ≡ [])
        × ((k : Known B) × (get_elem? last.old.me.0.known 0 ≡ some k)) }
    requires place { place.board ≡ table.now.table_id }
    ensures last { (last.new.table_id ≡ last.old.table_id)
        × (last.new.me.0.held ≡ None)
        × (last.new.me.1 ≡ []) }
    ensures known { last.new.me.0.known ≡ last.old.me.0.known ++ known_of place ∷ [] }
{
    let Place { actor: _, seat } = place;
    table.join_seat::<EndSeat>(last, seat);
}

/// What all places knew goes to the seat of the last one.
fn end_all<B: Weight>(table: &WireTable<B>, mut places: Vec<Place<B>>) -> WireSeat<B>
    requires table { table.now.table_id.words ≡ 1 }
    requires some { 0 < vec_len places }
    requires places { All (λ p. p.board ≡ table.now.table_id) places.items }
    ensures last { (result.table_id ≡ table.now.table_id) × (result.me.0.held ≡ None) × (result.me.1 ≡ []) }
    ensures known { KnowsEach result.me.0 places.items }
{
    let Some(stays) = places.pop() else {
        unreachable!()
    };
    let Place {
        actor: _,
        seat: mut last,
    } = stays;
    while let Some(place) = places.pop() {
        end_place(table, &mut last, place);
    }
    places.destroy_empty();
    last
}

/// Takes the wire out of the closed table.
fn take_home<B: Weight>(mut closed: Closed<Slot<B>, Global>) -> Wire<B>
    requires one { (slots_len closed.slots ≡ 1) × IsFull closed.slots }
    requires there { (journal : List (AnEntry B)) × (get_elem? (slots_items closed.slots) 0 ≡ some (Some journal)) }
    ensures { get_elem? (slots_items closed.slots) 0 ≡ some (Some result) }
{
    let slot = closed.take(0);
    closed.free();
    match slot {
        Some(wire) => wire,
        None => unreachable!(),
    }
}

impl<B: Weight> Board<B> {
    /// A board with the empty journal, and a place for each actor, in order.
    pub fn new(alloc: Global, actors: &[Actor]) -> Result<(Board<B>, Vec<Place<B>>), AllocError>
        requires some { 0 < length actors.now }
        requires distinct { IsDistinct same_actor actors.now }
        ensures actors { IfOk result (λ r. r.0.actors ≡ actors.now) }
        ensures places { IfOk result (λ r. r.1.items ≡ map (fresh r.0.id) actors.now) }
    {
        let key = Vec::from_slice(alloc, actors)?;
        let mut places = Vec::with_capacity(alloc, actors.len())?;
        let mut slots = Vec::with_capacity(alloc, 1)?;
        slots.push_reserved(Some(Wire::new(alloc)));
        match Table::new(alloc, &[0], slots, &key) {
            Err(_) => Err(AllocError),
            Ok((table, mut first)) => {
                seat_all(&table.shared, &mut first, actors, &mut places);
                Ok((Board { table }, places))
            }
        }
    }

    /// Posts an outbox, in one exchange.
    pub fn post<R: Wait>(&self, rt: &R, place: &mut Place<B>, post: &Mailbag<B>) -> Result<(), Stop>
        requires { place.old.board ≡ self.now.id }
        ensures place { IsSamePlace place.old place.new }
        ensures ok { OnOk result (Adds place.old place.new (posting B.size place.old.actor post.now)) }
        ensures err { IfErr result (Refuses B.size place.old place.new post.now) }
    {
        let mut wire = take_wire(rt, &self.table.shared, &mut place.seat);
        let answer = wire.post(place.actor, post);
        wire.lawful();
        give_wire(&self.table.shared, &mut place.seat, wire);
        answer
    }

    /// Posts, and then draws the packet of a choice, in one exchange, and tells its place. Where `keep`, it
    /// stays in the pool.
    pub fn draw<R: Wait>(
        &self,
        rt: &R,
        place: &mut Place<B>,
        post: &Mailbag<B>,
        choice: u64,
        keep: bool,
    ) -> Result<Option<PacketPlace>, Stop>
        requires { place.old.board ≡ self.now.id }
        ensures place { IsSamePlace place.old place.new }
        ensures ok { OnOk result (Adds place.old place.new (turn_entries B.size post.now (turn.Draw place.old.actor choice keep))) }
        ensures found { IfOk result (λ found. IsFound place.new.seen found (pick place.old.actor choice (drop 1 (past place.new.seen)))) }
        ensures err { IfErr result (Refuses B.size place.old place.new post.now) }
    {
        let mut wire = take_wire(rt, &self.table.shared, &mut place.seat);
        let answer = wire.draw(place.actor, post, choice, keep);
        wire.lawful();
        give_wire(&self.table.shared, &mut place.seat, wire);
        answer
    }

    /// Posts, and then loses the packet of a choice, in one exchange, and tells its place.
    pub fn lose<R: Wait>(
        &self,
        rt: &R,
        place: &mut Place<B>,
        post: &Mailbag<B>,
        choice: u64,
    ) -> Result<Option<PacketPlace>, Stop>
        requires { place.old.board ≡ self.now.id }
        ensures place { IsSamePlace place.old place.new }
        ensures ok { OnOk result (Adds place.old place.new (turn_entries B.size post.now (turn.Lose place.old.actor choice))) }
        ensures found { IfOk result (λ found. IsFound place.new.seen found (pick place.old.actor choice (drop 1 (past place.new.seen)))) }
        ensures err { IfErr result (Refuses B.size place.old place.new post.now) }
    {
        let mut wire = take_wire(rt, &self.table.shared, &mut place.seat);
        let answer = wire.lose(place.actor, post, choice);
        wire.lawful();
        give_wire(&self.table.shared, &mut place.seat, wire);
        answer
    }

    /// Posts, and then takes a local input, in one exchange. At a refusal the input is dropped.
    pub fn local<R: Wait>(
        &self,
        rt: &R,
        place: &mut Place<B>,
        post: &Mailbag<B>,
        input: Local,
    ) -> Result<(), Stop>
        requires { place.old.board ≡ self.now.id }
        ensures place { IsSamePlace place.old place.new }
        ensures ok { OnOk result (Adds place.old place.new (turn_entries B.size post.now (turn.Local place.old.actor input))) }
        ensures err { IfErr result (Refuses B.size place.old place.new post.now) }
    {
        let mut wire = take_wire(rt, &self.table.shared, &mut place.seat);
        let answer = wire.local(place.actor, post, input);
        wire.lawful();
        give_wire(&self.table.shared, &mut place.seat, wire);
        answer
    }

    /// Adds a copy of the letter of a packet that this place has seen, by an exchange of its own, which adds
    /// nothing to the wire. The letter stays there, so after an `Err` the call may be made again.
    pub fn copy_letter<R: Wait>(
        &self,
        rt: &R,
        place: &mut Place<B>,
        packet: PacketPlace,
        into: &mut Mailbag<B>,
    ) -> Result<(), AllocError>
        requires board { place.old.board ≡ self.now.id }
        requires seen { IsSome (packet_at packet place.old.seen) }
        ensures place { IsSamePlace place.old place.new }
        ensures nothing { AddsNothing place.old place.new }
        ensures stays { packet_at packet place.new.seen ≡ packet_at packet place.old.seen }
        ensures copied { OnOk result (IfSome (packet_at packet place.old.seen) (λ p. (letter : _) × (into.new ≡ into.old ++ letter ∷ []) × (letter.body ≡ p.body))) }
    {
        let wire = take_wire(rt, &self.table.shared, &mut place.seat);
        let (letters, index) = wire.letter(packet);
        let copied = into.copy(letters, index);
        wire.lawful();
        give_wire(&self.table.shared, &mut place.seat, wire);
        copied
    }

    /// Ends the board, with all its places, and gives the wire. It takes no memory.
    pub fn close(self, places: Vec<Place<B>>) -> Wire<B>
        requires board { All (λ p. p.board ≡ self.id) places.items }
        requires all { All (Contains (map (λ p. p.actor) places.items)) self.actors }
        ensures orderly { IsOrderly B.size (past result) }
        ensures within { IsWithinLimits B.size (past result) }
        ensures named { AreNamed self.actors result }
        ensures parts { All (IsPartOf result) places.items }
    {
        let Board { table } = self;
        let last = end_all(&table.shared, places);
        let wire = take_home(table.close_with(last));
        wire.lawful();
        wire
    }
}
