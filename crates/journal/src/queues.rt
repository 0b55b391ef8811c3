//! The packets that wait, in a queue for each actor.
ghost use Rattle.std.specs.Prelude.{◌≡◌, ℕ, ◌<◌, ◌≤◌, ◌+◌, ◌-◌, ◌^◌, ◌%◌, ◌++◌, [], ◌∷◌, nat_eq, length, take, drop, get_or, filter, slice_get, OnOk, OnErr, Option, if◌then◌else◌};
ghost use Rattle.journal.specs.Actors.{same_actor};
ghost use Rattle.journal.specs.Order.{addressed, without_packet, HaveNumbersBelow};
ghost use Rattle.journal.specs.Places.{placed, queue_of, left_in, picked, sent_to, letters_to, first_of};

use crate::journal::{Actor, Weight};
use crate::order::Order;
use crate::outgoing::Coming;
use crate::place::PacketPlace;
use std::alloc::{AllocError, Global};
use std::collections::VecDeque;
use std::marker::Model;

/// The queues of controllers, or those of switches, by the number of their actor. Contracts see the
/// list of their lists. Past its end all are empty.
#[derive(Drop)]
struct Row {
    queues: Vec<VecDeque<PacketPlace>>,
}

impl Model for Row {
    ghost use Rattle.std.specs.Prelude.{List, map};
    ghost use Rattle.journal.specs.declared.place.PacketPlace.{PacketPlace};

    ghost Value = { List (List PacketPlace) };

    ghost view = { λ row. map (λ q. q.items) row.queues.items };
}

/// Adds a packet to the end of a queue. An `Err` changes nothing.
#[inline(always)]
fn push(queue: &mut VecDeque<PacketPlace>, place: PacketPlace) -> Result<(), AllocError>
    ensures ok { OnOk result (queue.new.items ≡ queue.old.items ++ place ∷ []) }
    ensures err { OnErr result (queue.new.items ≡ queue.old.items) }
{
    if queue.len() == queue.capacity() {
        queue.reserve(1)?;
    }
    queue.push_back_reserved(place);
    Ok(())
}

/// The packet of a choice, counted round, leaves the queue, if there is one.
#[inline(always)]
fn leave(queue: &mut VecDeque<PacketPlace>, choice: u64)
    ensures { queue.new.items ≡ left_in choice queue.old.items }
{
    let count = queue.len() as u64;
    if count == 0 {
        return;
    }
    let index = (choice % count) as usize;
    if index == 0 {
        // Most packets are drawn so, and this takes less than to close a gap.
        let _ = queue.pop_front();
    } else {
        let _ = queue.remove(index);
    }
}

/// The packet of a choice, counted round. It stays in the queue.
fn look(queue: &VecDeque<PacketPlace>, choice: u64) -> Option<PacketPlace>
    ensures { result ≡ picked choice queue.now.items }
{
    let count = queue.len() as u64;
    if count == 0 {
        return None;
    }
    queue.get((choice % count) as usize).copied()
}

impl Row {
    /// All queues are empty.
    fn new(alloc: Global) -> Row
        ensures { result ≡ [] }
    {
        Row {
            queues: Vec::new(alloc),
        }
    }

    /// Makes the row long enough for this number.
    #[inline(always)]
    fn reach(&mut self, number: usize) -> Result<(), AllocError>
        ensures same { (n : ℕ) → get_or self.new n [] ≡ get_or self.old n [] }
        ensures ok { OnOk result (number < length self.new) }
    {
        if number < self.queues.len() {
            return Ok(());
        }
        self.lengthen(number)
    }

    /// Makes the row longer, up to this number.
    #[inline(never)]
    fn lengthen(&mut self, number: usize) -> Result<(), AllocError>
        ensures same { (n : ℕ) → get_or self.new n [] ≡ get_or self.old n [] }
        ensures ok { OnOk result (number < length self.new) }
    {
        let alloc = *self.queues.allocator();
        while self.queues.len() <= number {
            self.queues.push(VecDeque::new(alloc))?;
        }
        Ok(())
    }

    /// Adds a packet to the end of a queue. An `Err` changes none.
    #[inline(always)]
    fn push(&mut self, number: u8, place: PacketPlace) -> Result<(), AllocError>
        ensures ok { OnOk result ((n : ℕ) → get_or self.new n [] ≡ (if nat_eq n number then get_or self.old n [] ++ place ∷ [] else get_or self.old n [])) }
        ensures err { OnErr result ((n : ℕ) → get_or self.new n [] ≡ get_or self.old n []) }
    {
        let index = number as usize;
        self.reach(index)?;
        push(&mut self.queues[index], place)
    }

    /// Takes the last packet of a queue away, if it has one.
    fn pop(&mut self, number: u8)
        ensures { (n : ℕ) → get_or self.new n [] ≡ (if nat_eq n number then take (length (get_or self.old n []) - 1) (get_or self.old n []) else get_or self.old n []) }
    {
        let index = number as usize;
        if index < self.queues.len() {
            let _ = self.queues[index].pop_back();
        }
    }

    /// The packet of a choice, counted round, leaves its queue, if there is one.
    #[inline(always)]
    fn leave(&mut self, number: u8, choice: u64)
        ensures { (n : ℕ) → get_or self.new n [] ≡ (if nat_eq n number then left_in choice (get_or self.old n []) else get_or self.old n []) }
    {
        let index = number as usize;
        if index < self.queues.len() {
            leave(&mut self.queues[index], choice);
        }
    }

    /// The packet of a choice, counted round. It stays in its queue.
    fn look(&self, number: u8, choice: u64) -> Option<PacketPlace>
        ensures { result ≡ picked choice (get_or self.now number []) }
    {
        let index = number as usize;
        if index >= self.queues.len() {
            return None;
        }
        look(&self.queues[index], choice)
    }
}

/// The packets that wait for each actor, by number.
#[derive(Drop)]
pub struct Queues {
    /// A queue for each controller, by number.
    controllers: Row,
    /// A queue for each switch, by number.
    switches: Row,
    /// All of them, whoever they are for, by number.
    order: Order,
}

impl Queues {
    /// All queues are empty.
    pub fn new(alloc: Global) -> Queues
        ensures { result ≡ record { controllers = []; switches = []; order = [] } }
    {
        Queues {
            controllers: Row::new(alloc),
            switches: Row::new(alloc),
            order: Order::new(alloc),
        }
    }

    /// Adds a packet to the end of its receiver's queue. An `Err` changes none.
    #[inline(always)]
    fn push(&mut self, place: PacketPlace) -> Result<(), AllocError>
        ensures ok { OnOk result ((a : Actor) → queue_of self.new a ≡ (if same_actor place.to a then queue_of self.old a ++ place ∷ [] else queue_of self.old a)) }
        ensures err { OnErr result ((a : Actor) → queue_of self.new a ≡ queue_of self.old a) }
        ensures order { self.new.order ≡ self.old.order }
    {
        match place.to {
            Actor::Controller(number) => self.controllers.push(number, place),
            Actor::Switch(number) => self.switches.push(number, place),
        }
    }

    /// Takes the last packet of a queue away, if it has one.
    fn pop(&mut self, actor: Actor)
        ensures queues { (a : Actor) → queue_of self.new a ≡ (if same_actor actor a then take (length (queue_of self.old a) - 1) (queue_of self.old a) else queue_of self.old a) }
        ensures order { self.new.order ≡ self.old.order }
    {
        match actor {
            Actor::Controller(number) => self.controllers.pop(number),
            Actor::Switch(number) => self.switches.pop(number),
        }
    }

    /// For each of so many letters, takes the last packet of its receiver away.
    fn pop_each<B: Weight>(&mut self, letters: &Coming<'_, B>, count: usize)
        requires { count ≤ length letters.now }
        ensures queues { (a : Actor) → queue_of self.new a ≡ take (length (queue_of self.old a) - length (letters_to a (take count letters.now))) (queue_of self.old a) }
        ensures order { self.new.order ≡ self.old.order }
    {
        for index in 0..count {
            self.pop(letters.receiver(index));
        }
    }

    /// Adds so many letters to the queues of their receivers, as `append` does.
    fn push_each<B: Weight>(
        &mut self,
        first: u64,
        from: Actor,
        letters: &Coming<'_, B>,
        count: usize,
    ) -> Result<(), AllocError>
        requires within { count ≤ length letters.now }
        requires small { first + count < 2 ^ 64 }
        ensures ok { OnOk result ((a : Actor) → queue_of self.new a ≡ queue_of self.old a ++ sent_to a (placed first from (take count letters.now))) }
        ensures err { OnErr result ((a : Actor) → queue_of self.new a ≡ queue_of self.old a) }
        ensures order { self.new.order ≡ self.old.order }
    {
        for letter in 0..count {
            let place = PacketPlace {
                id: first + letter as u64,
                from,
                to: letters.receiver(letter),
            };
            if let Err(error) = self.push(place) {
                self.pop_each(letters, letter);
                return Err(error);
            }
        }
        Ok(())
    }

    /// Adds so many letters of a post, numbered from `first` on. An `Err` changes no queue.
    pub fn append<B: Weight>(
        &mut self,
        first: u64,
        from: Actor,
        letters: &Coming<'_, B>,
        count: usize,
    ) -> Result<(), AllocError>
        requires within { count ≤ length letters.now }
        requires small { first + count < 2 ^ 64 }
        requires above { HaveNumbersBelow first self.old.order }
        ensures ok { OnOk result ((a : Actor) → queue_of self.new a ≡ queue_of self.old a ++ sent_to a (placed first from (take count letters.now))) }
        ensures err { OnErr result ((a : Actor) → queue_of self.new a ≡ queue_of self.old a) }
        ensures order_ok { OnOk result (self.new.order ≡ self.old.order ++ addressed first (take count letters.now)) }
        ensures order_err { OnErr result (self.new.order ≡ self.old.order) }
    {
        self.push_each(first, from, letters, count)?;
        if let Err(error) = self.order.append(first, letters, count) {
            self.pop_each(letters, count);
            return Err(error);
        }
        Ok(())
    }

    /// The packet of a choice, counted round, leaves the actor's queue. It is that of a number.
    #[inline(always)]
    pub fn leave(&mut self, actor: Actor, choice: u64, id: u64)
        ensures left { (a : Actor) → queue_of self.new a ≡ (if same_actor actor a then left_in choice (queue_of self.old a) else queue_of self.old a) }
        ensures order { self.new.order ≡ without_packet id self.old.order }
    {
        match actor {
            Actor::Controller(number) => self.controllers.leave(number, choice),
            Actor::Switch(number) => self.switches.leave(number, choice),
        }
        self.order.remove(id);
    }

    /// The packet of a choice, counted round. It stays in the actor's queue.
    pub fn look(&self, actor: Actor, choice: u64) -> Option<PacketPlace>
        ensures { result ≡ picked choice (queue_of self.now actor) }
    {
        match actor {
            Actor::Controller(number) => self.controllers.look(number, choice),
            Actor::Switch(number) => self.switches.look(number, choice),
        }
    }

    /// The packet of the lowest number: the first in the queue of whom the order names first.
    pub fn first(&self) -> Option<PacketPlace>
        ensures { result ≡ first_of self.now }
    {
        self.look(self.order.first()?, 0)
    }
}
