//! What is counted of a log, beside it.
ghost use Rattle.std.specs.Prelude.{◌≡◌, [], true, IfOk, OnOk, OnErr};
ghost use Rattle.vr_log.specs.declared.entry.Entry.TheVariants.{Received};
ghost use Rattle.vr_log.specs.Tally.{next_place_of, IsPut, is_log_full, may_join, joins, IsCounted, Tells};

use crate::entry::{Entry, size_of_entry};
use crate::log::{LOG_BYTES, LOG_ENTRIES};
use of_types::{Event, is_switch_up};
use std::alloc::{AllocError, Global};
use std::marker::Model;

/// Where an event of a switch stands: its life, and its number in that life.
#[derive(Clone, Copy, PartialEq, Eq, Debug)]
pub(crate) struct Place {
    pub(crate) life: u32,
    pub(crate) number: u64,
}

/// Where the first event of a switch stands.
const FIRST_PLACE: Place = Place { life: 0, number: 0 };

/// The place of each switch's next event, by the switch's number, as far as switches have events.
#[derive(Drop)]
pub(crate) struct Places {
    places: Vec<Place>,
}

impl Model for Places {
    ghost use Rattle.std.specs.Prelude.{List};
    ghost use Rattle.vr_log.specs.declared.tally.Place.{Place};

    ghost Value = { List Place };

    ghost view = { λ p. p.places.items };
}

impl Places {
    fn new(alloc: Global) -> Places
        ensures { result ≡ [] }
    {
        Places {
            places: Vec::new(alloc),
        }
    }

    fn copy(&self) -> Result<Places, AllocError>
        ensures { IfOk result (λ copied. copied ≡ self.now) }
    {
        Ok(Places {
            places: Vec::from_slice(*self.places.allocator(), &self.places)?,
        })
    }

    pub(crate) fn of(&self, switch: u8) -> Place
        ensures { result ≡ next_place_of self.now switch }
    {
        match self.places.get(usize::from(switch)) {
            Some(place) => *place,
            None => FIRST_PLACE,
        }
    }

    /// This is the place of the switch's next event from now on.
    fn put(&mut self, switch: u8, place: Place) -> Result<(), AllocError>
        ensures ok { OnOk result (IsPut self.old switch place self.new) }
        ensures err { OnErr result (self.new ≡ self.old) }
    {
        let at = usize::from(switch);
        if self.places.len() <= at {
            self.places.resize(at + 1, FIRST_PLACE)?;
        }
        self.places[at] = place;
        Ok(())
    }
}

/// The counts of a log.
#[derive(Drop)]
pub(crate) struct Tally {
    pub(crate) bytes: u64,
    pub(crate) received: u64,
    pub(crate) processed: u64,
    pub(crate) places: Places,
}

impl Tally {
    /// The counts of the empty log.
    pub(crate) fn new(alloc: Global) -> Tally
        ensures { result ≡ record { bytes = 0; received = 0; processed = 0; places = [] } }
    {
        Tally {
            bytes: 0,
            received: 0,
            processed: 0,
            places: Places::new(alloc),
        }
    }

    /// Equal counts.
    pub(crate) fn copy(&self) -> Result<Tally, AllocError>
        ensures { IfOk result (λ copied. copied ≡ self.now) }
    {
        Ok(Tally {
            places: self.places.copy()?,
            ..*self
        })
    }

    /// Whether the log with this entry would be past its limits.
    pub(crate) fn is_full(&self, entry: &Entry) -> bool
        ensures { result ≡ is_log_full self.now entry.now }
    {
        let few = self.received < LOG_ENTRIES && self.processed < LOG_ENTRIES - self.received;
        !(few && self.bytes <= LOG_BYTES && size_of_entry(entry) <= LOG_BYTES - self.bytes)
    }

    fn may_be_received(&self, event: &Event) -> bool
        ensures { result ≡ may_join self.now (Received event.now) }
    {
        let place = self.places.of(event.switch);
        if event.life == place.life {
            event.number == place.number
        } else {
            place.life < event.life && event.number == 0 && is_switch_up(&event.what)
        }
    }

    /// Whether the entry may follow the log.
    pub(crate) fn may_join(&self, entry: &Entry) -> bool
        ensures { result ≡ may_join self.now entry.now }
    {
        match entry {
            Entry::Received(event) => self.may_be_received(event),
            Entry::Processed(place) => *place == self.processed && *place < self.received,
        }
    }

    /// Whether the entry is within the limits and may follow the log.
    pub(crate) fn joins(&self, entry: &Entry) -> bool
        ensures { result ≡ joins self.now entry.now }
    {
        !self.is_full(entry) && self.may_join(entry)
    }

    /// Counts one entry more. After an `Err` the counts are as they were.
    #[inline(always)]
    pub(crate) fn add(&mut self, entry: &Entry) -> Result<(), AllocError>
        requires { joins self.old entry.now ≡ true }
        ensures ok { OnOk result (IsCounted self.old entry.now self.new) }
        ensures err { OnErr result (self.new ≡ self.old) }
    {
        match entry {
            Entry::Received(event) => {
                let place = Place {
                    life: event.life,
                    number: event.number.saturating_add(1),
                };
                self.places.put(event.switch, place)?;
                self.received += 1;
            }
            Entry::Processed(_) => self.processed += 1,
        }
        self.bytes += size_of_entry(entry);
        Ok(())
    }

    /// Counts entries one after another, where each fits behind those before it, and tells whether. Where
    /// one does not, or after an `Err`, the counts are to be dropped.
    pub(crate) fn add_all(&mut self, entries: &[Entry]) -> Result<bool, AllocError>
        ensures { IfOk result (λ taken. Tells self.old entries.now taken self.new) }
    {
        for entry in entries {
            if !self.joins(entry) {
                return Ok(false);
            }
            self.add(entry)?;
        }
        Ok(true)
    }
}
