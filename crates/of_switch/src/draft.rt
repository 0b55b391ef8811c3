//! What a turn is to add to a switch, while memory for it is still being found.
ghost use Rattle.std.specs.Prelude.{◌≡◌, ◌≤◌, ◌<◌, ◌+◌, ◌-◌, ◌^◌, [], ◌∷◌, ◌++◌, min, nat_le, nat_lt, is_none, ◌&&◌, take, length, map, if◌then◌else◌, OnOk, OnErr};
ghost use Rattle.std.specs.List.{range_with_len};
ghost use Rattle.of_types.specs.declared.message.OfMessage.TheVariants as plain;
ghost use Rattle.of_types.specs.declared.message.Spoken.TheVariants as spoken;
ghost use Rattle.event_buffer.specs.Buffer.{most_held, number_after};
ghost use Rattle.of_switch.specs.State.{to_controller};
ghost use Rattle.of_switch.specs.Events.{window, event_letters};
ghost use Rattle.of_switch.specs.Drafts.{draft_from, with_letters, with_told, with_raised, with_noted, with_first, drafted_event, KeepsToRoom};

use crate::letters::{push_events, push_greetings};
use crate::says::SwitchSays;
use event_buffer::{HeldEvents, MOST_HELD};
use journal::Letter;
use of_types::{Event, Happening};
use std::alloc::{AllocError, Global};
use std::marker::Model;
use std::slice;

/// How many events may be under way at once.
pub const WINDOW: usize = 8;

/// What a turn is to add to a switch: events, frames sent out, and letters.
#[derive(Drop)]
pub struct Draft {
    /// Whose turn it is.
    switch: u8,
    /// The life of the switch.
    life: u32,
    /// To whom events are told.
    master: Option<u8>,
    /// How many events of this life have left the buffer.
    cleared: u64,
    /// How many events the buffer will hold, those that the turn raised with them.
    held: usize,
    /// The events that the turn raised, by number.
    raised: Vec<Event>,
    /// How many frames the turn sends out.
    sent: u64,
    /// What the turn says.
    letters: Vec<Letter<SwitchSays>>,
}

impl Model for Draft {
    ghost use Rattle.of_switch.specs.Drafts.{Draft as Drafted, KeepsToRoom};

    ghost Value = { Drafted };

    ghost view = { λ a. record {
      switch = a.switch;
      life = a.life;
      master = a.master;
      cleared = a.cleared;
      held = a.held;
      raised = a.raised.items;
      sent = a.sent;
      letters = a.letters.items;
    } };

    ghost invariant = { λ a. KeepsToRoom (record {
      switch = a.switch;
      life = a.life;
      master = a.master;
      cleared = a.cleared;
      held = a.held;
      raised = a.raised.items;
      sent = a.sent;
      letters = a.letters.items;
    }) };
}

/// The parts of a draft.
#[derive(Drop)]
pub struct Parts {
    pub events: Vec<Event>,
    pub sent: u64,
    pub letters: Vec<Letter<SwitchSays>>,
}

impl Draft {
    /// Nothing is new where the first of the held events leave, `left` of them. It takes no memory.
    pub fn new(
        alloc: Global,
        held: &HeldEvents,
        left: usize,
        master: Option<u8>,
        sent: u64,
    ) -> Draft
        requires left { left ≤ held.now.count }
        requires countable { number_after held.now + most_held < 2 ^ 64 }
        ensures { result ≡ record (draft_from held.now master sent) { cleared = held.now.cleared + left; held = held.now.count - left } }
    {
        Draft {
            switch: held.switch(),
            life: held.life(),
            master,
            cleared: held.cleared() + left as u64,
            held: held.count() - left,
            raised: Vec::new(alloc),
            sent,
            letters: Vec::new(alloc),
        }
    }

    /// How many events the buffer has room for by then.
    pub fn room(&self) -> usize
        ensures room { result ≡ most_held - self.now.held }
        ensures kept { self.now.held ≤ most_held }
    {
        MOST_HELD - self.held
    }

    /// Whether the buffer has no room by then.
    pub fn is_full(&self) -> bool
        ensures { result ≡ nat_le most_held self.now.held }
    {
        self.held >= MOST_HELD
    }

    /// Something happened: it is the next event, and is told to the master where it comes among the first.
    pub fn raise(&mut self, what: Happening) -> Result<(), AllocError>
        requires { self.old.held < most_held }
        ensures { OnOk result (self.new ≡ with_raised what self.old) }
    {
        let event = self.next_event(what);
        self.tell_among_first(&event)?;
        self.join(event)
    }

    /// Something happened: it is the next event, and isn't told.
    pub fn note(&mut self, what: Happening) -> Result<(), AllocError>
        requires { self.old.held < most_held }
        ensures { OnOk result (self.new ≡ with_noted what self.old) }
    {
        let event = self.next_event(what);
        self.join(event)
    }

    /// What happened, as the next event.
    fn next_event(&self, what: Happening) -> Event
        ensures { result ≡ drafted_event self.now what }
    {
        Event {
            switch: self.switch,
            life: self.life,
            number: self.cleared + self.held as u64,
            what,
        }
    }

    /// An event is told to the master where it comes among the first.
    fn tell_among_first(&mut self, event: &Event) -> Result<(), AllocError>
        ensures { OnOk result (self.new ≡ with_letters self.old (if nat_lt self.old.held window then event_letters self.old.master (event.now ∷ []) else [])) }
    {
        if self.held < WINDOW {
            push_events(&mut self.letters, self.master, slice::from_ref(event))?;
        }
        Ok(())
    }

    /// The next event is new.
    fn join(&mut self, event: Event) -> Result<(), AllocError>
        requires { self.old.held < most_held }
        ensures { OnOk result (self.new ≡ record self.old { held = self.old.held + 1; raised = self.old.raised ++ event ∷ [] }) }
    {
        self.raised.push(event)?;
        self.held += 1;
        Ok(())
    }

    /// Events are told to the master. It takes no memory for no event.
    pub fn tell(&mut self, events: &[Event]) -> Result<(), AllocError>
        ensures ok { OnOk result (self.new ≡ with_told events.now self.old) }
        ensures memory { OnErr result (0 < length events.now) }
    {
        push_events(&mut self.letters, self.master, events)
    }

    /// The first events are told to the master: those that the buffer holds, and then those that are new.
    pub fn tell_first(&mut self, held: &[Event]) -> Result<(), AllocError>
        ensures { OnOk result (self.new ≡ with_first held.now self.old) }
    {
        let old = first(held, WINDOW);
        push_events(&mut self.letters, self.master, old)?;
        let new = first(&self.raised, WINDOW - old.len());
        push_events(&mut self.letters, self.master, new)?;
        Ok(())
    }

    /// Whether a later life lacks a master.
    pub fn lacks_master(&self) -> bool
        ensures { result ≡ (is_none self.now.master && nat_lt 0 self.now.life) }
    {
        self.master.is_none() && self.life > 0
    }

    /// Each controller is greeted.
    pub fn greet(&mut self, controllers: u8) -> Result<(), AllocError>
        ensures { OnOk result (self.new ≡ with_letters self.old (map (λ c. to_controller c 0 (spoken.Plain plain.Hello)) (range_with_len 0 controllers))) }
    {
        push_greetings(&mut self.letters, controllers)
    }

    /// A letter is said.
    pub fn say(&mut self, letter: Letter<SwitchSays>) -> Result<(), AllocError>
        ensures { OnOk result (self.new ≡ with_letters self.old (letter ∷ [])) }
    {
        self.letters.push(letter)?;
        Ok(())
    }

    /// Frames were sent out.
    pub fn count_sent(&mut self, more: u64)
        ensures { self.new ≡ record self.old { sent = min (2 ^ 64 - 1) (self.old.sent + more) } }
    {
        self.sent = self.sent.saturating_add(more);
    }

    /// Its parts.
    pub fn into_parts(self) -> Parts
        ensures events { result.events.items ≡ self.raised }
        ensures kept { KeepsToRoom self }
        ensures sent { result.sent ≡ self.sent }
        ensures letters { result.letters.items ≡ self.letters }
    {
        let Draft {
            raised,
            sent,
            letters,
            ..
        } = self;
        Parts {
            events: raised,
            sent,
            letters,
        }
    }
}

/// The first events of some, at most so many.
pub fn first(events: &[Event], most: usize) -> &[Event]
    ensures { result.now ≡ take most events.now }
{
    if events.len() < most {
        events
    } else {
        &events[..most]
    }
}
