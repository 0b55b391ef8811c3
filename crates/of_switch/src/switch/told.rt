//! What a switch has to tell once it is done with, and how one that tells it to nobody forgets it.
ghost use Rattle.std.specs.Prelude.{◌≡◌, ◌-◌, ◌^◌, min};
ghost use Rattle.of_switch.specs.State.{without_past, forgets_past};

use super::{Switch, Table};
use command_buffer::CommandBuffer;
use of_types::{Event, Executed, Items, Link};

/// The most events and commands that a switch forgets. Its numbers stay below 2^64.
const MOST_GONE: u64 = 1 << 62;

/// What a switch has to tell, taken out of it.
#[derive(Drop)]
pub struct ToldSwitch {
    /// All events that it made in all its lives and didn't forget, in order.
    pub events: Vec<Event>,
    /// All commands that it carried out in all its lives and didn't forget, in order.
    pub executed: Vec<Executed>,
    /// What is left of it.
    pub remains: SwitchRemains,
}

/// What is left of a switch of which all is told. It is there so that its memory is freed where that is wanted.
#[derive(Drop)]
pub struct SwitchRemains {
    links: Items<Link>,
    down: Vec<bool>,
    results: CommandBuffer,
    table: Table,
    ended: Vec<u64>,
}

impl Switch {
    /// Forgets its past: the events that don't wait to be processed, the commands that it carried out, and how its lives
    /// ended. It is for a switch that runs for ever in a process of its own and tells its past to nobody. No rule asks for
    /// what goes, so each further turn says what it would have said. The lists keep their room: a switch that forgets at
    /// each turn takes no more memory. Once 2^62 events and commands are gone nothing more is forgotten.
    pub fn forget(&mut self)
        ensures { self.new ≡ forgets_past self.old }
    {
        let gone = self.gone_with_past();
        if gone <= MOST_GONE {
            self.history.forget();
            self.executed.clear();
            self.ended.clear();
            self.gone = gone;
        }
    }

    /// How many events and commands are gone with its past, up to the greatest number of 64 bits.
    fn gone_with_past(&self) -> u64
        ensures { result ≡ min (2 ^ 64 - 1) (without_past self.now).gone }
    {
        self.gone
            .saturating_add(self.history.past() as u64)
            .saturating_add(self.executed.len() as u64)
    }

    /// Takes out all events and all commands that it didn't forget. Nothing is copied, and nothing freed.
    pub fn into_told(self) -> ToldSwitch
        ensures events { result.events.items ≡ self.events }
        ensures executed { result.executed.items ≡ self.executed }
    {
        let Switch {
            links,
            down,
            history,
            results,
            table,
            executed,
            ended,
            ..
        } = self;
        let remains = SwitchRemains {
            links,
            down,
            results,
            table,
            ended,
        };
        ToldSwitch {
            events: history.into_events(),
            executed,
            remains,
        }
    }
}
