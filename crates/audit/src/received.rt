//! The events of a log.
ghost use Rattle.std.specs.Prelude.{◌≡◌, ◌<◌, ◌++◌, ◌∷◌, [], List, length, IfOk, IfSome, OnOk};
ghost use Rattle.of_types.specs.declared.message.Event.{Event};
ghost use Rattle.vr_log.specs.Log as logs;
ghost use Rattle.audit.specs.Received.{ArePlaces, equal_at};

use crate::named::{Named, name_of};
use of_types::Event;
use std::alloc::{AllocError, Global};
use std::marker::Model;
use vr_log::{Entry, same_event};

/// The received events of a log in order, and where each stands by its name.
#[derive(Drop)]
pub struct Received {
    /// In the order of the log.
    events: Vec<Event>,
    /// Where each event stands among them, by its name.
    places: Named<usize>,
}

impl Model for Received {
    ghost use Rattle.std.specs.Prelude.{List};
    ghost use Rattle.of_types.specs.declared.message.Event.{Event};
    ghost use Rattle.audit.specs.Received.{ArePlaces};

    ghost Value = { List Event };

    ghost view = { λ r. r.events.items };

    ghost invariant = { λ r. ArePlaces r.events.items r.places };
}

/// An event more.
fn keep(events: &mut Vec<Event>, places: &mut Named<usize>, event: &Event) -> Result<(), AllocError>
    ensures events { OnOk result (events.new.items ≡ events.old.items ++ event.now ∷ []) }
    ensures places { ArePlaces events.old.items places.old → OnOk result (ArePlaces events.new.items places.new) }
{
    places.note(name_of(event), events.len())?;
    events.push(event.clone()?)?;
    Ok(())
}

/// The events of a log.
pub fn events_of(alloc: Global, log: &[Entry]) -> Result<Received, AllocError>
    ensures { IfOk result (λ events. events ≡ logs.received log.now) }
{
    let mut events = Vec::new(alloc);
    let mut places = Named::new(alloc);
    for entry in log {
        match entry {
            Entry::Received(event) => keep(&mut events, &mut places, event)?,
            Entry::Processed(_) => {}
        }
    }
    Ok(Received { events, places })
}

impl Received {
    /// The events, in order.
    pub fn as_slice(&self) -> &[Event]
        ensures { result.now ≡ self.now }
    {
        self.events.as_slice()
    }

    /// How many events there are.
    pub fn len(&self) -> usize
        ensures { result ≡ length self.now }
    {
        self.events.len()
    }

    /// The place of the first event that has the name of this one, where it is equal.
    pub fn find(&self, line: &Event) -> Option<usize>
        ensures place { result ≡ equal_at self.now line.now }
        ensures within { IfSome result (λ at. at < length self.now) }
    {
        let at = *self.places.get(name_of(line))?;
        if same_event(&self.events[at], line) {
            Some(at)
        } else {
            None
        }
    }
}
