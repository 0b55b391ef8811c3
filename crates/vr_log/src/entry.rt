//! The entries of a log.
ghost use Rattle.std.specs.Prelude.{◌≡◌, ◌++◌, ◌-◌, ◌^◌, min, IfOk, OnOk};
ghost use Rattle.vr_log.specs.Log.{entry_size};

use of_types::{Event, Items, size_of_happening};
use std::alloc::{AllocError, Global};

/// An entry of the replicated log (Ravana, 3.2): an event was received, or the event at a place of the
/// received ones was processed.
#[derive(Clone, Drop)]
pub enum Entry {
    Received(Event),
    Processed(u64),
}

/// A plain list of entries.
pub type Entries = Items<Entry>;

/// An entry that found no room in the log: the length and the bytes of the log, and the bytes of the
/// entry.
#[derive(Clone, Copy, PartialEq, Eq, Debug)]
pub struct LogFull {
    pub length: u64,
    pub bytes: u64,
    pub next: u64,
}

impl Entry {
    /// An equal entry.
    pub fn copy(&self) -> Result<Entry, AllocError>
        ensures { IfOk result (λ copied. copied ≡ self.now) }
    {
        self.clone()
    }
}

/// Appends equal entries to a list.
pub fn append_entries(list: &mut Entries, entries: &[Entry]) -> Result<(), AllocError>
    ensures { OnOk result (list.new ≡ list.old ++ entries.now) }
{
    for entry in entries {
        list.push(entry.copy()?)?;
    }
    Ok(())
}

/// Equal entries, in order.
pub fn copy_entries(alloc: Global, entries: &[Entry]) -> Result<Entries, AllocError>
    ensures { IfOk result (λ copied. copied ≡ entries.now) }
{
    let mut copied = Entries::new(alloc);
    append_entries(&mut copied, entries)?;
    Ok(copied)
}

/// The bytes of an entry, as far as numbers go.
pub fn size_of_entry(entry: &Entry) -> u64
    ensures { result ≡ min (2 ^ 64 - 1) (entry_size entry.now) }
{
    match entry {
        Entry::Received(event) => size_of_happening(&event.what).saturating_add(18),
        Entry::Processed(_) => 9,
    }
}
