//! The events of a switch (Ravana, 4.1).
ghost use Rattle.std.specs.Prelude.{◌≡◌, ◌≤◌, ◌<◌, ◌+◌, ◌-◌, ◌^◌, length, OnOk, OnErr};
ghost use Rattle.of_types.specs.Lives.{last_life};
ghost use Rattle.event_buffer.specs.Buffer.{most_held, highest_port, next_number, counted, with_dirty, without_dirty};
ghost use Rattle.of_switch.specs.History.{starting_history, with_joined, with_cleared, with_past_forgotten, in_next_life};

use event_buffer::HeldEvents;
use of_types::Event;
use std::alloc::{AllocError, Global};
use std::marker::Model;

/// All events that a switch made and didn't forget, and how many of them wait to be processed: the newest.
#[derive(Drop)]
pub struct History {
    /// The events of all lives that were made, but those that were forgotten, in order.
    events: Vec<Event>,
    /// How many of the present life wait, and the ports whose change found no room.
    held: HeldEvents,
}

impl Model for History {
    ghost use Rattle.std.specs.Prelude.{◌≤◌, length};
    ghost use Rattle.event_buffer.specs.Buffer.{buffer_of};
    ghost use Rattle.of_switch.specs.History.{History as Told};

    ghost Value = { Told };

    ghost view = { λ a. record { events = a.events.items; buffer = buffer_of a.held a.events.items } };

    ghost invariant = { λ a. a.held.count ≤ length a.events.items };
}

impl History {
    /// No event of a switch, which begins its first life.
    pub fn new(alloc: Global, switch: u8) -> History
        ensures { result ≡ starting_history switch }
    {
        History {
            events: Vec::new(alloc),
            held: HeldEvents::new(switch, 0),
        }
    }

    /// All events that were not forgotten, in order.
    pub fn events(&self) -> &[Event]
        ensures { result.now ≡ self.now.events }
    {
        &self.events
    }

    /// All events that were not forgotten, taken out.
    pub fn into_events(self) -> Vec<Event>
        ensures { result.items ≡ self.events }
    {
        let History { events, .. } = self;
        events
    }

    /// The events that wait, the lowest number first.
    #[inline(always)]
    pub fn held(&self) -> &[Event]
        ensures { result.now ≡ self.now.buffer.held }
    {
        self.held.among(&self.events)
    }

    /// How many wait, and the ports whose change found no room. All events stand in memory.
    #[inline(always)]
    pub fn counts(&self) -> &HeldEvents
        ensures counts { result.now ≡ counted self.now.buffer }
        ensures few { length self.now.events < 2 ^ 63 }
    {
        &self.held
    }

    /// The events below a number need not wait any more.
    #[inline(always)]
    pub fn clear(&mut self, through: u64)
        ensures { self.new ≡ with_cleared through self.old }
    {
        self.held.clear(through);
    }

    /// Remembers a port.
    pub fn mark_dirty(&mut self, port: u32)
        requires { (1 ≤ port) × (port ≤ highest_port) }
        ensures { self.new ≡ record self.old { buffer = with_dirty self.old.buffer port } }
    {
        self.held.mark_dirty(port);
    }

    /// Forgets a port.
    pub fn forget_dirty(&mut self, port: u32)
        requires { (1 ≤ port) × (port ≤ highest_port) }
        ensures { self.new ≡ record self.old { buffer = without_dirty self.old.buffer port } }
    {
        self.held.forget_dirty(port);
    }

    /// Events are new.
    #[inline(always)]
    pub fn join(&mut self, mut events: Vec<Event>) -> Result<(), AllocError>
        requires room { length self.old.buffer.held + length events.items ≤ most_held }
        requires countable { next_number self.old.buffer + length events.items < 2 ^ 64 }
        ensures ok { OnOk result (self.new ≡ with_joined events.items self.old) }
        ensures err { OnErr result (self.new ≡ self.old) }
        ensures memory { OnErr result (0 < length events.items) }
    {
        let more = events.len();
        self.events.append(&mut events)?;
        self.held.add(more);
        Ok(())
    }

    /// The events below a number need not wait any more, and others are new.
    pub fn replace(&mut self, through: u64, mut events: Vec<Event>) -> Result<(), AllocError>
        requires room { length (with_cleared through self.old).buffer.held + length events.items ≤ most_held }
        requires countable { next_number self.old.buffer + length events.items < 2 ^ 64 }
        ensures ok { OnOk result (self.new ≡ with_joined events.items (with_cleared through self.old)) }
        ensures err { OnErr result (self.new ≡ self.old) }
        ensures memory { OnErr result (0 < length events.items) }
    {
        let more = events.len();
        self.events.append(&mut events)?;
        self.held.clear(through);
        self.held.add(more);
        Ok(())
    }

    /// How many events don't wait any more.
    pub fn past(&self) -> usize
        ensures { result ≡ length self.now.events - length self.now.buffer.held }
    {
        self.events.len() - self.held.count()
    }

    /// Forgets the events that don't wait any more. The list keeps its room.
    pub fn forget(&mut self)
        ensures { self.new ≡ with_past_forgotten self.old }
    {
        let past = self.past();
        self.events.drain(..past);
    }

    /// The next life begins, with these events. No other waits.
    pub fn begin_life(&mut self, mut events: Vec<Event>) -> Result<(), AllocError>
        requires life { self.old.buffer.life < last_life }
        requires room { length events.items ≤ most_held }
        ensures ok { OnOk result (self.new ≡ with_joined events.items (in_next_life self.old)) }
        ensures err { OnErr result (self.new ≡ self.old) }
    {
        let more = events.len();
        self.events.append(&mut events)?;
        self.held = HeldEvents::new(self.held.switch(), self.held.life() + 1);
        self.held.add(more);
        Ok(())
    }
}
