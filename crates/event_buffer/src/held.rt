//! The events of an event buffer, by count.
ghost use Rattle.std.specs.Prelude.{◌≡◌, ◌≤◌, ◌<◌, ◌+◌, ◌-◌, ◌^◌, length, nat_eq, nat_lt, IfOk};
ghost use Rattle.std.specs.List.{list_any};
ghost use Rattle.of_types.specs.SmallSets.{with_number, without_number};
ghost use Rattle.event_buffer.specs.Buffer.{most_held, highest_port, nothing_held, newest, number_after, lacks_room, left_below, with_left, IsHeld};

use of_types::{Event, SmallSet};
use std::alloc::{AllocError, Global};
use std::marker::Model;

/// The most events that are held.
pub const MOST_HELD: usize = 256;

/// How many events of one life of a switch wait to be processed, and the ports whose change found no room. The events
/// themselves are the newest of a list that stands elsewhere. It takes no memory.
#[derive(Drop)]
pub struct HeldEvents {
    /// Whose events they are.
    switch: u8,
    /// The life that makes them.
    life: u32,
    /// How many events of this life have left. The first that is held has this number.
    cleared: u64,
    /// How many events are held.
    count: usize,
    /// The ports whose change found no room.
    dirty: SmallSet,
}

impl Model for HeldEvents {
    ghost use Rattle.event_buffer.specs.Buffer.{Held, IsHeld};

    ghost Value = { Held };

    ghost view = { λ a. record { switch = a.switch; life = a.life; cleared = a.cleared; count = a.count; dirty = a.dirty } };

    ghost invariant = { λ a. IsHeld (record { switch = a.switch; life = a.life; cleared = a.cleared; count = a.count; dirty = a.dirty }) };
}

impl HeldEvents {
    /// No event of a life of a switch.
    pub fn new(switch: u8, life: u32) -> HeldEvents
        ensures { result ≡ nothing_held switch life }
    {
        HeldEvents {
            switch,
            life,
            cleared: 0,
            count: 0,
            dirty: SmallSet::new(),
        }
    }

    /// So many events join.
    pub fn add(&mut self, more: usize)
        requires room { self.old.count + more ≤ most_held }
        requires countable { number_after self.old + more < 2 ^ 64 }
        ensures { self.new ≡ record self.old { count = self.old.count + more } }
    {
        self.count += more;
    }

    /// Whether no event can join.
    pub fn is_full(&self) -> bool
        ensures { result ≡ lacks_room self.now }
    {
        self.count >= MOST_HELD
    }

    /// The events below a number leave. Tells how many.
    #[inline(always)]
    pub fn clear(&mut self, through: u64) -> u64
        ensures after { self.new ≡ with_left self.old through }
        ensures count { result ≡ left_below self.old through - self.old.cleared }
    {
        let cleared = self.cleared.max(through.min(self.next_number()));
        let left = cleared - self.cleared;
        self.count -= left as usize;
        self.cleared = cleared;
        left
    }

    /// How many events are held.
    pub fn count(&self) -> usize
        ensures count { result ≡ self.now.count }
        ensures lawful { IsHeld self.now }
    {
        self.count
    }

    /// Those that are held, of events of which they are the newest.
    pub fn among<'a>(&self, events: &'a [Event]) -> &'a [Event]
        requires { self.now.count ≤ length events.now }
        ensures events { result.now ≡ newest self.now.count events.now }
        ensures lawful { IsHeld self.now }
    {
        &events[events.len() - self.count..]
    }

    /// The number that the next event gets.
    pub fn next_number(&self) -> u64
        ensures { result ≡ number_after self.now }
    {
        self.cleared + self.count as u64
    }

    /// The switch whose events they are.
    pub fn switch(&self) -> u8
        ensures { result ≡ self.now.switch }
    {
        self.switch
    }

    /// The life whose events they are.
    pub fn life(&self) -> u32
        ensures { result ≡ self.now.life }
    {
        self.life
    }

    /// How many events have left.
    pub fn cleared(&self) -> u64
        ensures { result ≡ self.now.cleared }
    {
        self.cleared
    }

    /// Remembers a port.
    pub fn mark_dirty(&mut self, port: u32)
        requires { (1 ≤ port) × (port ≤ highest_port) }
        ensures { self.new ≡ record self.old { dirty = with_number port self.old.dirty } }
    {
        self.dirty.insert(port as u8);
    }

    /// Forgets a port.
    pub fn forget_dirty(&mut self, port: u32)
        requires { (1 ≤ port) × (port ≤ highest_port) }
        ensures { self.new ≡ record self.old { dirty = without_number port self.old.dirty } }
    {
        self.dirty.remove(port as u8);
    }

    /// Whether a port is remembered.
    pub fn is_dirty(&self, port: u32) -> bool
        requires { (1 ≤ port) × (port ≤ highest_port) }
        ensures { result ≡ list_any (λ p. nat_eq p port) self.now.dirty }
    {
        self.dirty.contains(port as u8)
    }

    /// Whether any port is remembered.
    pub fn has_dirty(&self) -> bool
        ensures { result ≡ nat_lt 0 (length self.now.dirty) }
    {
        !self.dirty.is_empty()
    }

    /// The ports that are remembered, ascending.
    pub fn dirty(&self, alloc: Global) -> Result<Vec<u32>, AllocError>
        ensures ports { IfOk result (λ ports. ports.items ≡ self.now.dirty) }
        ensures lawful { IsHeld self.now }
    {
        let ports = self.dirty.to_vec(alloc)?;
        let mut wide = Vec::with_capacity(alloc, ports.len())?;
        for port in &ports {
            wide.push(u32::from(*port))?;
        }
        Ok(wide)
    }
}
