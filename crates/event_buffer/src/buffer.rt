//! The event buffer (Ravana, 4.1).
ghost use Rattle.std.specs.Prelude.{◌≡◌, ◌≤◌, ◌<◌, ◌-◌, ◌^◌, Ok, Err, [], ◌∷◌, ◌++◌, length, slice_get, option_copied, nat_eq, nat_lt, IfOk, drop, vec_capacity, if◌then◌else◌};
ghost use Rattle.std.specs.List.{list_any};
ghost use Rattle.event_buffer.specs.Buffer.{highest_port, empty_buffer, next_number, full, is_full, with_posted, cleared_to, without_events_below, with_dirty, without_dirty, IsBuffer};

use crate::held::{HeldEvents, MOST_HELD};
use of_types::{Event, Happening};
use std::alloc::{AllocError, Global};
use std::marker::Model;

/// The most events that have left and still stand at the front of the buffer. They are dropped together, since each
/// drop there moves all events that are held.
const MOST_GONE: usize = 32;

/// The buffer has no room for an event.
#[derive(Clone, Copy, PartialEq, Eq, Debug)]
pub struct Full;

/// The events of one life of a switch that wait to be processed, and the ports whose change found no room.
#[derive(Drop)]
pub struct EventBuffer {
    /// How many events wait, and the ports.
    held: HeldEvents,
    /// Events that have left, and behind them those that wait, without a gap in their numbers.
    events: Vec<Event>,
}

impl Model for EventBuffer {
    ghost use Rattle.std.specs.Prelude.{◌≤◌, ◌+◌, ◌<◌, length, vec_capacity};
    ghost use Rattle.event_buffer.specs.Buffer.{Buffer, AreNumbered, buffer_of, newest};

    ghost Value = { Buffer };

    ghost view = { λ a. buffer_of a.held a.events.items };

    ghost invariant = { λ a.
        AreNumbered a.held.switch a.held.life a.held.cleared (newest a.held.count a.events.items)
        × (256 + 32 ≤ vec_capacity a.events)
        × (a.held.count ≤ length a.events.items) × (length a.events.items < a.held.count + 32) };
}

impl EventBuffer {
    /// An empty buffer for the events of a life of a switch. It takes all its memory now.
    pub fn new(alloc: Global, switch: u8, life: u32) -> Result<EventBuffer, AllocError>
        ensures { IfOk result (λ b. b ≡ empty_buffer switch life) }
    {
        Ok(EventBuffer {
            held: HeldEvents::new(switch, life),
            events: Vec::with_capacity(alloc, MOST_HELD + MOST_GONE)?,
        })
    }

    /// Something happened: it gets the next number and joins the buffer, where there is room.
    pub fn post(&mut self, what: Happening) -> Result<u64, Full>
        requires { next_number self.old < 2 ^ 64 - 1 }
        ensures answer { result ≡ (if is_full self.old then Err full else Ok (next_number self.old)) }
        ensures after { self.new ≡ (if is_full self.old then self.old else with_posted self.old what) }
    {
        if self.is_full() {
            return Err(Full);
        }
        let number = self.next_number();
        let event = Event {
            switch: self.switch(),
            life: self.life(),
            number,
            what,
        };
        push_within(&mut self.events, event);
        self.held.add(1);
        Ok(number)
    }

    /// Whether no event can join.
    pub fn is_full(&self) -> bool
        ensures { result ≡ is_full self.now }
    {
        self.held.is_full()
    }

    /// Remembers a port.
    pub fn mark_dirty(&mut self, port: u32)
        requires { (1 ≤ port) × (port ≤ highest_port) }
        ensures { self.new ≡ with_dirty self.old port }
    {
        self.held.mark_dirty(port);
    }

    /// Forgets a port.
    pub fn forget_dirty(&mut self, port: u32)
        requires { (1 ≤ port) × (port ≤ highest_port) }
        ensures { self.new ≡ without_dirty self.old port }
    {
        self.held.forget_dirty(port);
    }

    /// Drops the events below a number, and tells how many.
    #[inline(always)]
    pub fn clear(&mut self, through: u64) -> u64
        ensures after { self.new ≡ without_events_below self.old through }
        ensures count { result ≡ cleared_to self.old through - self.old.cleared }
    {
        let count = self.held.clear(through);
        let gone = self.events.len() - self.held.count();
        if gone >= MOST_GONE {
            drop_front(&mut self.events, gone);
        }
        count
    }

    /// The event of the lowest number, if one is held.
    pub fn front(&self) -> Option<&Event>
        ensures { option_copied result ≡ slice_get self.now.held 0 }
    {
        self.held().first()
    }

    /// The held events, the lowest number first: at most `MOST_HELD`, numbered on from those that left.
    pub fn held(&self) -> &[Event]
        ensures events { result.now ≡ self.now.held }
        ensures lawful { IsBuffer self.now }
    {
        self.held.among(&self.events)
    }

    /// Copies of the held events, the lowest number first.
    pub fn items(&self) -> Result<Vec<Event>, AllocError>
        ensures { IfOk result (λ events. events.items ≡ self.now.held) }
    {
        let held = self.held();
        let mut events = Vec::with_capacity(*self.events.allocator(), held.len())?;
        for event in held {
            events.push(event.copy()?)?;
        }
        Ok(events)
    }

    /// The number that the next event gets.
    pub fn next_number(&self) -> u64
        ensures { result ≡ next_number self.now }
    {
        self.held.next_number()
    }

    /// The switch whose events it holds.
    pub fn switch(&self) -> u8
        ensures { result ≡ self.now.switch }
    {
        self.held.switch()
    }

    /// The life whose events it holds.
    pub fn life(&self) -> u32
        ensures { result ≡ self.now.life }
    {
        self.held.life()
    }

    /// How many events have left.
    pub fn cleared(&self) -> u64
        ensures { result ≡ self.now.cleared }
    {
        self.held.cleared()
    }

    /// Whether a port is remembered.
    pub fn is_dirty(&self, port: u32) -> bool
        requires { (1 ≤ port) × (port ≤ highest_port) }
        ensures { result ≡ list_any (λ p. nat_eq p port) self.now.dirty }
    {
        self.held.is_dirty(port)
    }

    /// Whether any port is remembered.
    pub fn has_dirty(&self) -> bool
        ensures { result ≡ nat_lt 0 (length self.now.dirty) }
    {
        self.held.has_dirty()
    }

    /// The ports that are remembered, ascending.
    pub fn dirty(&self) -> Result<Vec<u32>, AllocError>
        ensures ports { IfOk result (λ ports. ports.items ≡ self.now.dirty) }
        ensures lawful { IsBuffer self.now }
    {
        self.held.dirty(*self.events.allocator())
    }
}

/// Appends an event where there is room for it.
fn push_within(events: &mut Vec<Event>, event: Event)
    requires { length events.old.items < vec_capacity events.old }
    ensures items { events.new.items ≡ events.old.items ++ event ∷ [] }
    ensures room { vec_capacity events.old ≤ vec_capacity events.new }
{
    let _ = events.push(event);
}

/// Takes events off the front.
fn drop_front(events: &mut Vec<Event>, count: usize)
    requires { count ≤ length events.old.items }
    ensures rest { events.new.items ≡ drop count events.old.items }
    ensures room { vec_capacity events.new ≡ vec_capacity events.old }
{
    events.drain(..count);
}
