//! The dispatcher of a primary.
ghost use Rattle.std.specs.Prelude.{◌≡◌, ◌≤◌, ◌∷◌, ◌++◌, [], Option, Some, None, length, map, filter, nat_eq, true, IfOk, if◌then◌else◌, OnOk};
ghost use Rattle.of_types.specs.declared.setup.Setup.{Setup};
ghost use Rattle.of_types.specs.Setups.{IsSetup};
ghost use Rattle.of_types.specs.Lives.{has_ended};
ghost use Rattle.app_core.specs.Chain.{given_by, starting_chain};
ghost use Rattle.vr_log.specs.declared.entry.Entry.{Entry};
ghost use Rattle.vr_log.specs.Log.{fits, follows, received, processed};
ghost use Rattle.two_stage_log.specs.Counts as counts;
ghost use Rattle.dispatcher.specs.Folding as folding;
ghost use Rattle.dispatcher.specs.Folding.{numbered, places_processed, wish};
ghost use Rattle.dispatcher.specs.Few.{values_in};
ghost use Rattle.dispatcher.specs.Ledger.{AreHandledAt, ForEachLog, StandsFor, handled_by, most_commands};
ghost use Rattle.dispatcher.specs.Marks as marks;
ghost use Rattle.dispatcher.specs.Marks.{confirmed_by, is_confirmed, is_finished, is_pending, no_marks, pending_alone, with_marked_result};

use crate::answers::{AckThrough, EventAction, HandledEvent};
use crate::commands;
use crate::few::Few;
use crate::ledger::Ledger;
use crate::marks::ViewMarks;
use crate::numbered::NumberedOrder;
use app_core::App;
use of_types::{Event, Setup};
use std::alloc::{AllocError, Global};
use std::marker::Model;
use two_stage_log::{is_processed_by, may_come, may_process};
use vr_log::{Entry, Log};

/// What a primary makes of the committed log: its application has taken the events of that log, each once and in
/// order. Beside it stand the marks of this view: which switches took the controller as master, and of which commands
/// results came. Contracts ask for the log that it stands for. At want of memory it is to be dropped.
#[derive(Drop)]
pub struct Dispatcher<A> {
    alloc: Global,
    /// It has taken the events of the committed log, each once and in order.
    app: A,
    /// How many switches the setup has.
    switches: u8,
    /// What is kept of the committed log.
    ledger: Ledger,
    /// What came from switches in this view.
    marks: ViewMarks,
}

impl<A> Model for Dispatcher<A> {
    ghost use Rattle.dispatcher.specs.Ledger.{Dispatching};

    ghost Value = { Dispatching A };

    ghost view = { λ d. record { app = d.app; switches = d.switches; ledger = d.ledger; marks = d.marks.marks; room = d.marks.room } };
}

impl<A: App> Dispatcher<A> {
    /// Owns the application of a life, which has started. No entry is committed. It takes no memory.
    pub fn new(alloc: Global, app: A, setup: &Setup) -> Dispatcher<A>
        requires setup { IsSetup setup.now }
        requires suits { A.law.suits app setup.now }
        requires starts { A.law.states app ≡ starting_chain (A.law.kinds app) }
        requires few { given_by (A.law.kinds app) ≤ most_commands }
        ensures stands { StandsFor A.law result (A.law.kinds app) setup.now [] }
        ensures marks { result.marks ≡ no_marks }
    {
        Dispatcher {
            alloc,
            app,
            switches: setup.ports.len() as u8,
            ledger: Ledger::new(alloc),
            marks: ViewMarks::new(alloc),
        }
    }

    /// How many switches there are.
    pub fn switches(&self) -> u8
        ensures { result ≡ self.now.switches }
    {
        self.switches
    }

    /// One entry more is committed: the application reacts to an event that is received, and room is made for the
    /// results of its commands. What is processed comes back.
    pub fn fold(&mut self, entry: &Entry) -> Result<Option<HandledEvent>, AllocError>
        ensures folds { ForEachLog (StandsFor A.law self.old) (λ kinds setup log. fits log entry.now ≡ true →
            IfOk result (λ handled. (handled ≡ handled_by kinds setup log entry.now) × StandsFor A.law self.new kinds setup (log ++ entry.now ∷ []))) }
        ensures marks { self.new.marks ≡ self.old.marks }
    {
        match entry {
            Entry::Received(event) => {
                let commands = self.app.react(self.alloc, event)?;
                self.ledger.receive(event, commands)?;
                self.marks.reserve(self.ledger.unsettled())?;
                Ok(None)
            }
            Entry::Processed(_) => self.ledger.process(),
        }
    }

    /// These entries more are committed. What they have as processed comes back, in order.
    pub fn fold_each(&mut self, entries: &[Entry]) -> Result<Vec<HandledEvent>, AllocError>
        ensures folds { ForEachLog (StandsFor A.law self.old) (λ kinds setup log. follows log entries.now ≡ true →
            IfOk result (λ list. AreHandledAt kinds setup (log ++ entries.now) (places_processed entries.now) list.items × StandsFor A.law self.new kinds setup (log ++ entries.now))) }
        ensures marks { self.new.marks ≡ self.old.marks }
    {
        let mut processed = Vec::new(self.alloc);
        'entries: for entry in entries {
            if let Some(handled) = self.fold(entry)? {
                processed.push(handled)?;
            }
        }
        Ok(processed)
    }

    /// These entries more are committed, and nobody is to be answered.
    pub fn fold_all(&mut self, entries: &[Entry]) -> Result<(), AllocError>
        ensures folds { ForEachLog (StandsFor A.law self.old) (λ kinds setup log. follows log entries.now ≡ true →
            OnOk result (StandsFor A.law self.new kinds setup (log ++ entries.now))) }
        ensures marks { self.new.marks ≡ self.old.marks }
    {
        'entries: for entry in entries {
            drop(self.fold(entry)?);
        }
        Ok(())
    }

    /// The application, for another dispatcher that starts it.
    pub fn into_app(self) -> A
        ensures { result ≡ self.app }
    {
        self.app
    }

    /// What is done with an event from a switch, by the log and what is committed of it.
    pub fn on_event(&self, event: &Event, log: &Log) -> EventAction
        ensures { ForEachLog (StandsFor A.law self.now) (λ kinds setup committed. result ≡ wish log.now committed event.now) }
    {
        let (life, next) = log.next_place(event.switch);
        if may_come(event, life, next) {
            return EventAction::Propose;
        }
        let through = self.ledger.counts_of(event.switch, event.life).processed;
        if is_processed_by(event, life, through) {
            EventAction::Acknowledge { through }
        } else {
            EventAction::Nothing
        }
    }

    /// A result of a command came: it counts where the command is of an event that is not processed, and tells
    /// whether it is. It takes no memory: `fold` made the room.
    pub fn on_result(&mut self, switch: u8, life: u32, number: u64) -> bool
        ensures pending { ForEachLog (StandsFor A.law self.old) (λ kinds setup log. result ≡ is_pending kinds setup log switch life number) }
        ensures marks { ForEachLog (StandsFor A.law self.old) (λ kinds setup log. self.new.marks ≡ with_marked_result kinds setup log self.old.marks switch life number) }
        ensures stands { ForEachLog (StandsFor A.law self.old) (StandsFor A.law self.new) }
        ensures same { self.new ≡ record self.old { marks = self.new.marks; room = self.new.room } }
    {
        let pending = self.ledger.has_pending(switch, life, number);
        if pending {
            self.marks.note_result(switch, life, number);
        }
        pending
    }

    /// A switch took this controller as master. It takes no memory.
    pub fn on_role(&mut self, switch: u8)
        ensures marks { self.new ≡ record self.old { marks = confirmed_by self.old.marks switch } }
        ensures stands { ForEachLog (StandsFor A.law self.old) (StandsFor A.law self.new) }
    {
        self.marks.confirm(switch);
    }

    /// A switch no longer has this controller as master. It takes no memory.
    pub fn off_role(&mut self, switch: u8)
        ensures marks { self.new ≡ record self.old { marks = marks.off_role self.old.marks switch } }
        ensures stands { ForEachLog (StandsFor A.law self.old) (StandsFor A.law self.new) }
    {
        self.marks.unconfirm(switch);
    }

    /// A view begins: what came in earlier ones is forgotten. It takes no memory.
    pub fn begin_view(&mut self)
        ensures marks { self.new ≡ record self.old { marks = no_marks; room = self.new.room } }
        ensures stands { ForEachLog (StandsFor A.law self.old) (StandsFor A.law self.new) }
    {
        self.marks.clear();
    }

    /// Of how many commands results are kept, since the view began or `forget` was called.
    pub fn marked(&self) -> usize
        ensures { result ≡ length self.now.marks.acked }
    {
        self.marks.len()
    }

    /// The results of commands that are settled are forgotten: no rule asks for them again. It takes no memory, and as
    /// many steps as there are results.
    pub fn forget(&mut self)
        ensures marks { ForEachLog (StandsFor A.law self.old) (λ kinds setup log. self.new.marks ≡ pending_alone kinds setup log self.old.marks) }
        ensures stands { ForEachLog (StandsFor A.law self.old) (StandsFor A.law self.new) }
        ensures same { self.new ≡ record self.old { marks = self.new.marks; room = self.new.room } }
    {
        self.marks.forget_settled(&self.ledger);
    }

    /// Whether a switch took this controller as master in this view.
    pub fn confirmed(&self, switch: u8) -> bool
        ensures { result ≡ is_confirmed self.now.marks switch }
    {
        self.marks.is_confirmed(switch)
    }

    /// How many events are processed: the place of the first one that is not.
    pub fn processed(&self) -> u64
        ensures { ForEachLog (StandsFor A.law self.now) (λ kinds setup log. result ≡ processed log) }
    {
        self.ledger.processed()
    }

    /// Whether an event is received and not processed.
    pub fn has_unprocessed(&self) -> bool
        ensures { ForEachLog (StandsFor A.law self.now) (λ kinds setup log. result ≡ counts.has_unprocessed log) }
    {
        self.ledger.has_unprocessed()
    }

    /// The commands of the first unprocessed event that want a result, on confirmed switches, in the order of issue.
    pub fn outstanding(&self) -> Result<Few<NumberedOrder>, AllocError>
        ensures { ForEachLog (StandsFor A.law self.now) (λ kinds setup log.
            IfOk result (λ list. values_in list ≡ map (numbered kinds setup log) (marks.outstanding kinds setup log self.now.marks))) }
    {
        commands::outstanding(self.alloc, &self.ledger, &self.marks)
    }

    /// Those of them on one switch.
    pub fn outstanding_on(&self, switch: u8) -> Result<Few<NumberedOrder>, AllocError>
        ensures { ForEachLog (StandsFor A.law self.now) (λ kinds setup log.
            IfOk result (λ list. values_in list ≡ map (numbered kinds setup log) (filter (λ x. nat_eq x.switch switch) (marks.outstanding kinds setup log self.now.marks)))) }
    {
        commands::outstanding_on(self.alloc, switch, &self.ledger, &self.marks)
    }

    /// Whether there is a first unprocessed event, and none of its commands wants a result.
    pub fn finished(&self) -> bool
        ensures { ForEachLog (StandsFor A.law self.now) (λ kinds setup log. result ≡ is_finished kinds setup log self.now.marks) }
    {
        let wanted = commands::wants_one(&self.ledger, &self.marks);
        may_process(self.ledger.has_unprocessed(), wanted)
    }

    /// What acknowledges an event that is processed: so many events of its life are, while that life goes on.
    pub fn acknowledgement(&self, handled: &HandledEvent) -> Option<AckThrough>
        ensures { ForEachLog (StandsFor A.law self.now) (λ kinds setup log.
            result ≡ (if has_ended handled.now.switch handled.now.life (received log) then None else Some (folding.acknowledgement log handled.now.switch handled.now.life))) }
    {
        if self.ledger.has_ended(handled.switch, handled.life) {
            return None;
        }
        Some(AckThrough {
            switch: handled.switch,
            life: handled.life,
            through: self
                .ledger
                .counts_of(handled.switch, handled.life)
                .processed,
        })
    }

    /// What is told to each switch whose present life has a command of an event that is processed, ascending: so
    /// many commands of that life are settled.
    pub fn clears(&self, handled: &HandledEvent) -> Result<Few<AckThrough>, AllocError>
        ensures { ForEachLog (StandsFor A.law self.now) (λ kinds setup log.
            IfOk result (λ list. values_in list ≡ folding.clears kinds setup log handled.now.commands)) }
    {
        commands::clears(
            self.alloc,
            self.switches,
            &self.ledger,
            handled.commands.as_slice(),
        )
    }
}
