//! What belongs to the events or the commands of switches, by name.
ghost use Rattle.std.specs.Prelude.{◌≡◌, [], is_some, option_copied, OnOk};
ghost use Rattle.of_types.specs.declared.message.Event.{Event};
ghost use Rattle.audit.specs.Names.{Name, name_of, same_name, value_of, or_new};

use indexmap::IndexMap;
use of_types::Event;
use std::alloc::{AllocError, Global};
use std::marker::Model;

/// The name of an event or of a command: its switch, its life there, and its number in that life.
pub type Name = (usize, u32, u64);

/// The name of an event.
pub fn name_of(event: &Event) -> Name
    ensures { result ≡ name_of event.now }
{
    (usize::from(event.switch), event.life, event.number)
}

/// Values by name.
#[derive(Drop)]
pub struct Named<V: Drop> {
    values: IndexMap<Name, V>,
}

impl<V: Drop> Model for Named<V> {
    ghost use Rattle.std.specs.Prelude.{List};
    ghost use Rattle.audit.specs.Names.{Name};

    ghost Value = { List (Name × V) };

    ghost view = { λ m. m.values.entries };
}

impl<V: Drop> Named<V> {
    /// No name has a value. It takes no memory.
    pub fn new(alloc: Global) -> Named<V>
        ensures { result ≡ [] }
    {
        Named {
            values: IndexMap::new(alloc),
        }
    }

    /// The value of a name.
    pub fn get(&self, name: Name) -> Option<&V>
        ensures { option_copied result ≡ value_of self.now name }
    {
        self.values.get(&name)
    }

    /// Whether a name has a value.
    pub fn has(&self, name: Name) -> bool
        ensures { result ≡ is_some (value_of self.now name) }
    {
        self.values.contains_key(&name)
    }

    /// This is the value of a name that has none yet.
    pub fn note(&mut self, name: Name, value: V) -> Result<(), AllocError>
        ensures { OnOk result ((q : Name) → value_of self.new q ≡ or_new (value_of self.old q) (same_name name q) value) }
    {
        if !self.values.contains_key(&name) {
            self.values.insert(name, value)?;
        }
        Ok(())
    }
}
