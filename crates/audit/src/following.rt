//! A log, followed from entry to entry.
ghost use Rattle.std.specs.Prelude.{◌≡◌, OnOk};
ghost use Rattle.vr_log.specs.declared.entry.Entry.TheVariants as entries;
ghost use Rattle.audit.specs.Following.{IsFollowingStart, may_go_behind, Joins, Joined, has_begun};

use crate::counting::add;
use crate::lives::Lives;
use of_types::{Event, is_switch_up};
use std::alloc::AllocError;
use vr_log::Entry;

/// What the next entry of a log is judged by: the life of each switch and the number of its next event there, and how
/// many events are received and processed.
#[derive(Drop)]
pub struct Following {
    pub lives: Lives,
    pub numbers: [u64; 256],
    pub received: u64,
    pub processed: u64,
}

impl Following {
    /// Before the first entry.
    pub fn new() -> Following
        ensures { IsFollowingStart result }
    {
        Following {
            lives: Lives::new(),
            numbers: [0; 256],
            received: 0,
            processed: 0,
        }
    }

    /// Whether a later life of a switch has begun.
    pub fn has_begun(&self, switch: usize, life: u32) -> bool
        ensures { result ≡ has_begun self.now switch life }
    {
        life < self.lives.of(switch)
    }

    fn may_be_received(&self, event: &Event) -> bool
        ensures { result ≡ may_go_behind self.now (entries.Received event.now) }
    {
        let life = self.lives.of(usize::from(event.switch));
        if event.life == life {
            event.number == self.numbers[usize::from(event.switch)]
        } else {
            life < event.life && event.number == 0 && is_switch_up(&event.what)
        }
    }

    /// Whether an entry may follow.
    pub fn may_join(&self, entry: &Entry) -> bool
        ensures { result ≡ may_go_behind self.now entry.now }
    {
        match entry {
            Entry::Received(event) => self.may_be_received(event),
            Entry::Processed(place) => *place == self.processed && *place < self.received,
        }
    }

    fn receive(&mut self, event: &Event) -> Result<(), AllocError>
        ensures { OnOk result (Joined self.old event.now self.new) }
    {
        self.numbers[usize::from(event.switch)] = add(event.number, 1)?;
        self.received = add(self.received, 1)?;
        self.lives.begin(event.switch, event.life);
        Ok(())
    }

    /// One entry more.
    pub fn join(&mut self, entry: &Entry) -> Result<(), AllocError>
        ensures { OnOk result (Joins self.old entry.now self.new) }
    {
        match entry {
            Entry::Received(event) => self.receive(event)?,
            Entry::Processed(_) => self.processed = add(self.processed, 1)?,
        }
        Ok(())
    }
}
