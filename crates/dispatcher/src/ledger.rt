//! What is kept of a committed log.
ghost use Rattle.std.specs.Prelude.{◌≡◌, ◌∷◌, ◌++◌, ◌<◌, ◌≤◌, ◌+◌, ◌^◌, ℕ, [], List, Option, None, Some, length, get_or, nat_lt, replicate, take, true, IfOk, OnOk};
ghost use Rattle.of_types.specs.declared.message.Event.{Event};
ghost use Rattle.of_types.specs.declared.setup.Setup.{Setup};
ghost use Rattle.vr_log.specs.declared.entry.Entry.{Entry};
ghost use Rattle.vr_log.specs.declared.entry.Entry.TheVariants.{Received, Processed};
ghost use Rattle.vr_log.specs.Log.{received, fits};
ghost use Rattle.app_core.specs.declared.issued.Issued.{Issued};
ghost use Rattle.app_core.specs.Chain.{chain_next, chain_after, starting_chain};
ghost use Rattle.app_core.specs.Issued.{issue_each};
ghost use Rattle.dispatcher.specs.Counted.{counts_of};
ghost use Rattle.dispatcher.specs.Ledger.{AreCounts, AreLives, IsCountedAs, IsLedgerOfLog, first_commands, handled_by, has_pending, most_commands, one_issued, one_processed, one_settled};

use crate::answers::HandledEvent;
use crate::counts::{Counts, LifeCounts, Progress};
use crate::lives::Lives;
use app_core::Issued;
use of_types::{Command, Commands, Event, Items};
use std::alloc::{AllocError, Global};
use std::collections::VecDeque;

/// What is kept of a committed log: the present life of each switch, what is counted of each life, and the events that
/// are received and not processed, with their commands. How many these are is kept beside them.
#[derive(Drop)]
pub(crate) struct Ledger {
    alloc: Global,
    /// The present life of each switch.
    lives: Lives,
    /// What is counted of each life of each switch.
    counts: LifeCounts,
    /// The events that are received and not processed, in the order of the log, with their commands.
    pending: VecDeque<HandledEvent>,
    /// How many events are processed.
    processed: u64,
    /// How many commands of pending events are not settled.
    unsettled: usize,
}

impl Ledger {
    /// That of the empty log. It takes no memory.
    pub(crate) fn new(alloc: Global) -> Ledger
        ensures { (kinds : List ℕ) (setup : Setup) → IsLedgerOfLog kinds setup [] result }
    {
        Ledger {
            alloc,
            lives: Lives::new(),
            counts: LifeCounts::new(alloc),
            pending: VecDeque::new(alloc),
            processed: 0,
            unsettled: 0,
        }
    }

    /// How many events it has as processed.
    pub(crate) fn processed(&self) -> u64
        ensures { result ≡ self.now.processed }
    {
        self.processed
    }

    /// How many commands are issued and not settled.
    pub(crate) fn unsettled(&self) -> usize
        ensures { result ≡ self.now.unsettled }
    {
        self.unsettled
    }

    /// Whether an event is received and not processed.
    pub(crate) fn has_unprocessed(&self) -> bool
        ensures { result ≡ nat_lt 0 (length self.now.pending.items) }
    {
        !self.pending.is_empty()
    }

    /// The commands of the first event that is not processed.
    pub(crate) fn first(&self) -> &[Issued]
        ensures { result.now ≡ first_commands self.now.pending.items }
    {
        match self.pending.front() {
            Some(handled) => handled.commands.as_slice(),
            None => &[],
        }
    }

    /// Whether a later life of a switch has begun.
    pub(crate) fn has_ended(&self, switch: u8, life: u32) -> bool
        ensures { result ≡ nat_lt life (get_or self.now.lives switch 0) }
    {
        life < self.lives.of(switch)
    }

    /// The present life of a switch.
    pub(crate) fn life_of(&self, switch: u8) -> u32
        ensures { result ≡ get_or self.now.lives switch 0 }
    {
        self.lives.of(switch)
    }

    /// What is counted of a life of a switch.
    pub(crate) fn counts_of(&self, switch: u8, life: u32) -> Counts
        ensures { result ≡ counts_of self.now.counts switch life }
    {
        self.counts.of(switch, life)
    }

    /// Whether a number is that of a command that is issued and not settled.
    pub(crate) fn has_pending(&self, switch: u8, life: u32, number: u64) -> bool
        ensures { result ≡ has_pending self.now switch life number }
    {
        let counts = self.counts.of(switch, life);
        counts.settled <= number && number < counts.issued
    }

    /// A command gets the present life of its switch, and the next number there.
    fn issue(&mut self, command: Command) -> Result<Issued, AllocError>
        ensures given { IfOk result (λ x. x ≡ record { switch = command.switch; life = get_or self.old.lives command.switch 0; number = (counts_of self.old.counts command.switch (get_or self.old.lives command.switch 0)).issued; order = command.order }) }
        ensures counted { IfOk result (λ x. IsCountedAs self.old.counts x.switch x.life (one_issued (counts_of self.old.counts x.switch x.life)) self.new.counts) }
        ensures same { self.new ≡ record self.old { counts = self.new.counts } }
    {
        let switch = command.switch;
        let life = self.lives.of(switch);
        let number = self.counts.count(switch, life, Progress::Issued)?;
        Ok(Issued {
            switch,
            life,
            number,
            order: command.order,
        })
    }

    fn issue_each(&mut self, commands: Commands) -> Result<Items<Issued>, AllocError>
        ensures issued { (events done : List Event) (before settled : List Issued) → AreLives events self.old.lives → AreCounts done before settled self.old.counts →
            length before + length commands < 2 ^ 64 → IfOk result (λ issued. (issued ≡ issue_each events before commands) × AreCounts done (before ++ issued) settled self.new.counts) }
        ensures same { self.new ≡ record self.old { counts = self.new.counts } }
    {
        let mut issued = Vec::with_capacity(self.alloc, commands.len())?;
        'commands: for command in commands.into_vec() {
            issued.push_reserved(self.issue(command)?);
        }
        Ok(Items::from_vec(issued))
    }

    /// An event is committed as received, and these commands are issued for it.
    pub(crate) fn receive(&mut self, event: &Event, commands: Commands) -> Result<(), AllocError>
        ensures { (kinds : List ℕ) (setup : Setup) (log : List Entry) → IsLedgerOfLog kinds setup log self.old → fits log (Received event.now) ≡ true →
            commands ≡ (chain_next kinds setup (chain_after kinds setup (starting_chain kinds) (received log)) event.now).commands → length commands ≤ most_commands →
            OnOk result (IsLedgerOfLog kinds setup (log ++ Received event.now ∷ []) self.new) }
    {
        self.lives.begin(event.switch, event.life);
        let commands = self.issue_each(commands)?;
        self.unsettled = self.unsettled.saturating_add(commands.len());
        self.pending.push_back(HandledEvent {
            switch: event.switch,
            life: event.life,
            commands,
        })?;
        Ok(())
    }

    fn count_processed(&mut self, switch: u8, life: u32) -> Result<(), AllocError>
        ensures counted { OnOk result (IsCountedAs self.old.counts switch life (one_processed (counts_of self.old.counts switch life)) self.new.counts) }
        ensures same { self.new ≡ record self.old { counts = self.new.counts } }
    {
        let _ = self.counts.count(switch, life, Progress::Processed)?;
        Ok(())
    }

    fn settle(&mut self, command: &Issued) -> Result<(), AllocError>
        ensures counted { OnOk result (IsCountedAs self.old.counts command.now.switch command.now.life (one_settled (counts_of self.old.counts command.now.switch command.now.life)) self.new.counts) }
        ensures same { self.new ≡ record self.old { counts = self.new.counts } }
    {
        let _ = self
            .counts
            .count(command.switch, command.life, Progress::Settled)?;
        Ok(())
    }

    fn settle_each(&mut self, commands: &[Issued]) -> Result<(), AllocError>
        ensures settled { (done : List Event) (issued settled : List Issued) → AreCounts done issued settled self.old.counts →
            length settled + length commands.now < 2 ^ 64 → OnOk result (AreCounts done issued (settled ++ commands.now) self.new.counts) }
        ensures same { self.new ≡ record self.old { counts = self.new.counts } }
    {
        'commands: for command in commands {
            self.settle(command)?;
        }
        Ok(())
    }

    /// The first event that is not processed is committed as processed, and its commands are settled.
    pub(crate) fn process(&mut self) -> Result<Option<HandledEvent>, AllocError>
        ensures { (kinds : List ℕ) (setup : Setup) (log : List Entry) (j : ℕ) → IsLedgerOfLog kinds setup log self.old → fits log (Processed j) ≡ true →
            IfOk result (λ handled. (handled ≡ handled_by kinds setup log (Processed j)) × IsLedgerOfLog kinds setup (log ++ Processed j ∷ []) self.new) }
    {
        let Some(handled) = self.pending.pop_front() else {
            return Ok(None);
        };
        self.processed = self.processed.saturating_add(1);
        self.count_processed(handled.switch, handled.life)?;
        self.settle_each(handled.commands.as_slice())?;
        self.unsettled = self.unsettled.saturating_sub(handled.commands.len());
        Ok(Some(handled))
    }
}
