//! A controller that is not down: a member of its group, with the dispatcher of its life.
ghost use Rattle.std.specs.Prelude.{◌≡◌, ◌≤◌, ◌∷◌, [], true, false, ◌&&◌, not, nat_eq, ℕ, Some, None, length, map, flat_map, IfOk, OnErr, OnOk};
ghost use Rattle.of_types.specs.declared.setup.Setup.{Setup};
ghost use Rattle.of_types.specs.Setups.{IsSetup};
ghost use Rattle.vr_log.specs.Log.{may_follow};
ghost use Rattle.vr_log.specs.Members as members;
ghost use Rattle.vr_log.specs.Valid.{IsValidState};
ghost use Rattle.vr_core.specs.Lasting.{CollectsItsOwn};
ghost use Rattle.vr_core.specs.Step.{vr_step};
ghost use Rattle.dispatcher.specs.Ledger.{most_commands};
ghost use Rattle.group_controller.specs.Acting.{Acts, ActsUpTo, answers_to, AreNewlyHandled, BeginsTurn, begun, ForEachGroup, InSomeGroup, Offers, posts_letters, TakesStep, with_out, with_state, Works};
ghost use Rattle.dispatcher.specs.Few.{values_in};
ghost use Rattle.group_controller.specs.Mails.{letters_mailed};
ghost use Rattle.group_controller.specs.Rules as rules;
ghost use Rattle.group_controller.specs.Rules.{after_step, starting_view, unconfirmed};
ghost use Rattle.group_controller.specs.Settling as settling;
ghost use Rattle.group_controller.specs.Settling.{after_finishing, after_proposal, command_letter, finishing, goes_on, role_letter, with_commands};
ghost use Rattle.group_controller.specs.State.{with_settled_forgotten, fresh, resting, with_no_met_limit};
ghost use Rattle.app_core.specs.Chain.{given_by};
ghost use Rattle.group_controller.specs.declared.messages.ControllerInput.TheVariants as controller_input;

use crate::handled::fold_new;
use crate::letters::{ack_letter, add, add_clears, add_commands, add_out, role_letter, to_switch};
use crate::mails::{Mail, Mails};
use crate::messages::ControllerInput;
use app_core::App;
use dispatcher::{AckThrough, Dispatcher, EventAction, Few, HandledEvent, NumberedOrder};
use journal::Local;
use of_types::{Event, Extension, MASTER, Octets, OfMessage, Setup, Spoken};
use std::alloc::{AllocError, Global};
use std::marker::Model;
use std::mem::replace;
use two_stage_log::committed_behind;
use vr_core::{Replica, VrInput};
use vr_log::{Entry, Log, LogFull, Status, VrOut};
use vr_normal::ProposeFault;

/// A member of the group, the dispatcher that stands for its committed log, the event whose commands were last sent in
/// this view, and of its turn: the proposal that met the log's limit, the promise that is to be saved before anything is
/// posted, and what is then posted. At want of memory it is to be dropped.
pub(crate) struct Active<A> {
    /// The member of the group.
    pub(crate) replica: Replica,
    /// It stands for the committed log of the member.
    dispatcher: Dispatcher<A>,
    /// The place of the event whose commands were last sent in this view.
    last_told: Option<u64>,
    /// The log's limit that a proposal of this turn met.
    pub(crate) full: Option<LogFull>,
    /// What this turn has to save before anything is posted.
    pub(crate) promise: Option<u32>,
    /// What this turn posts.
    mails: Vec<Mail>,
    /// What a step of the member wants to be saved and posted. It stands here so that no step makes its own.
    out: VrOut,
}

impl<A> Model for Active<A> {
    ghost use Rattle.group_controller.specs.Acting.{Acting, pair_with};
    ghost use Rattle.group_controller.specs.Mails.{mailed};

    ghost Value = { Acting A };

    ghost view = { λ a. record {
      work = record {
        state = record { vr = a.replica; marks = a.dispatcher.marks; last_told = a.last_told; full = a.full };
        save = pair_with a.replica.life a.promise;
        letters = mailed a.mails.items;
      };
      promise = a.promise;
      dispatcher = a.dispatcher;
    } };
}

/// By hand, so that it stands here alone: what is derived is spelled out wherever one is let go.
impl<A: Drop> Drop for Active<A> {
    fn drop(self) {
        let Active {
            replica: _replica,
            dispatcher: _dispatcher,
            last_told: _,
            full: _,
            promise: _,
            mails: _mails,
            out: _out,
        } = self;
    }
}

/// Whether a member started a view, by whether it led before, and in which view.
fn has_started(led: bool, before: u32, leads: bool, now: u32) -> bool
    ensures { result ≡ (leads && not (led && nat_eq before now)) }
{
    leads && !(led && before == now)
}

impl<A: App> Active<A> {
    /// A member that knows no committed entry, with the application of its life.
    pub(crate) fn new(
        alloc: Global,
        setup: &Setup,
        replica: Replica,
        app: A,
    ) -> Result<Active<A>, AllocError>
        requires setup { IsSetup setup.now }
        requires few { given_by (A.law.kinds app) ≤ most_commands }
        requires valid { IsValidState replica }
        requires own { CollectsItsOwn replica }
        requires none { replica.commit ≡ 0 }
        ensures begins { IfOk result (λ a. BeginsTurn A.law a (A.law.kinds app) setup.now) }
        ensures state { IfOk result (λ a. a.work.state ≡ fresh replica) }
    {
        let mut app = app;
        app.start(alloc, setup)?;
        Ok(Active {
            replica,
            dispatcher: Dispatcher::new(alloc, app, setup),
            last_told: None,
            full: None,
            promise: None,
            mails: Vec::new(alloc),
            out: VrOut::new(alloc),
        })
    }

    fn post(&mut self, mail: Mail) -> Result<(), AllocError>
        ensures { OnOk result (self.new ≡ posts_letters self.old (letters_mailed mail)) }
    {
        add(&mut self.mails, mail)
    }

    /// A switch is told how many of its events are done with.
    fn acknowledge(&mut self, told: AckThrough) -> Result<(), AllocError>
        ensures { OnOk result (self.new ≡ posts_letters self.old (settling.ack_letter told ∷ [])) }
    {
        self.mails.reserve(1)?;
        self.mails.push_reserved(ack_letter(told));
        Ok(())
    }

    /// What a step of the member wants to be saved and sent.
    pub(crate) fn take(&mut self, out: VrOut) -> Result<(), AllocError>
        ensures { OnOk result (self.new ≡ with_out self.old out) }
    {
        let mut out = out;
        add_out(&mut self.promise, &mut self.mails, &mut out)
    }

    /// The member takes a step, and what it wants to be saved and sent is taken.
    #[inline(always)]
    fn take_step(&mut self, input: VrInput) -> Result<(), AllocError>
        requires { IsValidState self.old.work.state.vr }
        ensures { OnOk result (TakesStep self.old (vr_step self.old.work.state.vr input) self.new) }
    {
        self.replica.step(input, &mut self.out)?;
        add_out(&mut self.promise, &mut self.mails, &mut self.out)
    }

    /// The member proposes an entry, and what it wants to be sent is taken.
    #[inline(always)]
    fn offer(&mut self, entry: Entry) -> Result<(), ProposeFault>
        requires valid { IsValidState self.old.work.state.vr }
        requires follows { may_follow self.old.work.state.vr.log entry ≡ true }
        ensures { Offers self.old entry result self.new }
    {
        self.replica.propose(entry, &mut self.out)?;
        match add_out(&mut self.promise, &mut self.mails, &mut self.out) {
            Ok(()) => Ok(()),
            Err(AllocError) => Err(ProposeFault::OutOfMemory),
        }
    }

    /// The application takes what was committed behind so many entries. What is processed of it comes back.
    #[inline(always)]
    fn fold_behind(&mut self, before: u64) -> Result<Few<HandledEvent>, AllocError>
        requires valid { IsValidState self.old.work.state.vr }
        requires reach { before ≤ self.old.work.state.vr.commit }
        ensures folds { ForEachGroup (ActsUpTo A.law before self.old) (λ kinds setup.
            IfOk result (λ handled. AreNewlyHandled kinds setup self.new.work.state before (values_in handled) × Acts A.law self.new kinds setup)) }
        ensures work { self.new.work ≡ self.old.work }
        ensures promise { self.new.promise ≡ self.old.promise }
    {
        let committed = self.replica.committed();
        let entries = committed_behind(self.replica.log(), before, committed);
        fold_new(&mut self.dispatcher, entries)
    }

    /// The same at a backup, which answers nobody.
    fn fold_unanswered(&mut self, before: u64) -> Result<(), AllocError>
        requires valid { IsValidState self.old.work.state.vr }
        requires reach { before ≤ self.old.work.state.vr.commit }
        ensures folds { ForEachGroup (ActsUpTo A.law before self.old) (λ kinds setup. OnOk result (Acts A.law self.new kinds setup)) }
        ensures work { self.new.work ≡ self.old.work }
        ensures promise { self.new.promise ≡ self.old.promise }
    {
        let committed = self.replica.committed();
        let behind = committed_behind(self.replica.log(), before, committed);
        self.dispatcher.fold_all(behind)
    }

    /// An event that is processed is answered.
    fn answer(&mut self, handled: &HandledEvent) -> Result<(), AllocError>
        ensures { ForEachGroup (Acts A.law self.old) (λ kinds setup. OnOk result (self.new ≡ posts_letters self.old (answers_to kinds setup self.old.work.state handled.now))) }
    {
        if let Some(told) = self.dispatcher.acknowledgement(handled) {
            self.acknowledge(told)?;
        }
        let clears = self.dispatcher.clears(handled)?;
        add_clears(&mut self.mails, clears.as_slice())
    }

    /// Settle, first step: events that are processed are answered.
    fn answer_each(&mut self, processed: &[HandledEvent]) -> Result<(), AllocError>
        ensures { ForEachGroup (Acts A.law self.old) (λ kinds setup. OnOk result (self.new ≡ posts_letters self.old (flat_map (answers_to kinds setup self.old.work.state) processed.now))) }
    {
        'processed: for handled in processed {
            self.answer(handled)?;
        }
        Ok(())
    }

    fn send(&mut self, commands: Few<NumberedOrder>) -> Result<(), AllocError>
        ensures { OnOk result (self.new ≡ posts_letters self.old (map (command_letter self.old.work.state.vr.view) (values_in commands))) }
    {
        add_commands(&mut self.mails, self.replica.view(), commands)
    }

    /// The commands of this event were the last that went out in this view.
    fn was_told(&self, place: u64) -> bool
        ensures { result ≡ settling.is_some_of place self.now.work.state.last_told }
    {
        match self.last_told {
            Some(told) => told == place,
            None => false,
        }
    }

    /// Settle, second step: the commands of the first unprocessed event go out, where they were not the last that did
    /// in this view.
    fn send_untold(&mut self) -> Result<(), AllocError>
        ensures { ForEachGroup (Acts A.law self.old) (λ kinds setup. OnOk result (Works A.law kinds setup self.old (with_commands kinds setup self.old.work) self.new)) }
    {
        let place = self.dispatcher.processed();
        if self.dispatcher.has_unprocessed() && !self.was_told(place) {
            let commands = self.dispatcher.outstanding()?;
            self.send(commands)?;
            self.last_told = Some(place);
        }
        Ok(())
    }

    /// The first unprocessed event is finished, and not yet proposed as processed.
    fn is_settled(&self) -> bool
        ensures { ForEachGroup (Acts A.law self.now) (λ kinds setup. result ≡ settling.is_settled kinds setup self.now.work.state) }
    {
        self.dispatcher.finished() && self.replica.log().processed() <= self.dispatcher.processed()
    }

    /// What a controller alone in its group commits at once is answered, and its next commands go out.
    fn follow(&mut self, before: u64) -> Result<(), AllocError>
        requires valid { IsValidState self.old.work.state.vr }
        requires reach { before ≤ self.old.work.state.vr.commit }
        ensures { ForEachGroup (ActsUpTo A.law before self.old) (λ kinds setup.
            OnOk result (Works A.law kinds setup self.old (with_commands kinds setup (settling.with_answers kinds setup before self.old.work)) self.new)) }
    {
        let processed = self.fold_behind(before)?;
        self.answer_each(processed.as_slice())?;
        self.send_untold()
    }

    /// A proposal of this turn met the log's limit.
    fn note_limit(&mut self, full: LogFull)
        ensures { self.new ≡ with_state self.old (record self.old.work.state { full = Some full }) }
    {
        self.full = Some(full);
    }

    /// Proposes an entry. A controller alone in its group commits it at once: then there may be more to settle, which
    /// is told. Past the limits of the log it doesn't join.
    fn propose(&mut self, entry: Entry) -> Result<bool, AllocError>
        requires acts { InSomeGroup (Acts A.law self.old) }
        requires leads { members.leads self.old.work.state.vr ≡ true }
        requires follows { may_follow self.old.work.state.vr.log entry ≡ true }
        ensures { ForEachGroup (Acts A.law self.old) (λ kinds setup. IfOk result (λ again.
            (again ≡ goes_on self.old.work.state entry) × Works A.law kinds setup self.old (after_proposal kinds setup self.old.work entry) self.new)) }
    {
        let before = self.replica.committed();
        match self.offer(entry) {
            Ok(()) => {}
            Err(ProposeFault::LogFull(full)) => self.note_limit(full),
            Err(ProposeFault::NotPrimary) => return Ok(false),
            Err(ProposeFault::OutOfMemory) => return Err(AllocError),
        }
        if self.replica.committed() == before {
            return Ok(false);
        }
        self.follow(before)?;
        Ok(true)
    }

    /// Settle, third step: the first unprocessed event is proposed as processed where it is finished, so many times at
    /// most.
    fn finish(&mut self, more: u64) -> Result<(), AllocError>
        requires acts { InSomeGroup (Acts A.law self.old) }
        requires leads { members.leads self.old.work.state.vr ≡ true }
        ensures { ForEachGroup (Acts A.law self.old) (λ kinds setup. OnOk result (Works A.law kinds setup self.old (finishing more kinds setup self.old.work) self.new)) }
    {
        if more == 0 || !self.is_settled() {
            return Ok(());
        }
        let place = self.dispatcher.processed();
        if self.propose(Entry::Processed(place))? {
            self.finish(more - 1)
        } else {
            Ok(())
        }
    }

    fn finish_all(&mut self) -> Result<(), AllocError>
        requires acts { InSomeGroup (Acts A.law self.old) }
        requires leads { members.leads self.old.work.state.vr ≡ true }
        ensures { ForEachGroup (Acts A.law self.old) (λ kinds setup. OnOk result (Works A.law kinds setup self.old (after_finishing kinds setup self.old.work) self.new)) }
    {
        let most = self.replica.log().received();
        self.finish(most)
    }

    /// Settle: these events were newly committed as processed.
    fn settle(&mut self, processed: &[HandledEvent]) -> Result<(), AllocError>
        requires acts { InSomeGroup (Acts A.law self.old) }
        requires leads { members.leads self.old.work.state.vr ≡ true }
        ensures { ForEachGroup (Acts A.law self.old) (λ kinds setup. (before : ℕ) → AreNewlyHandled kinds setup self.old.work.state before processed.now →
            OnOk result (Works A.law kinds setup self.old (settling.settling kinds setup before self.old.work) self.new)) }
    {
        self.answer_each(processed)?;
        self.send_untold()?;
        self.finish_all()
    }

    /// Each switch that did not take this controller as master in this view is asked for its role.
    fn ask_unconfirmed(&mut self) -> Result<(), AllocError>
        ensures { ForEachGroup (Acts A.law self.old) (λ kinds setup. OnOk result (self.new ≡ posts_letters self.old (map (role_letter self.old.work.state.vr.view) (unconfirmed setup self.old.work.state)))) }
    {
        'switches: for switch in 0..self.dispatcher.switches() {
            if !self.dispatcher.confirmed(switch) {
                let view = self.replica.view();
                self.post(role_letter(view, switch))?;
            }
        }
        Ok(())
    }

    /// The member started a view: what came in earlier ones is forgotten, and each switch is asked for its role. What
    /// the view begins with as processed is not answered.
    fn start_view(&mut self) -> Result<(), AllocError>
        requires acts { InSomeGroup (Acts A.law self.old) }
        requires leads { members.leads self.old.work.state.vr ≡ true }
        ensures { ForEachGroup (Acts A.law self.old) (λ kinds setup. OnOk result (Works A.law kinds setup self.old (starting_view kinds setup self.old.work) self.new)) }
    {
        self.dispatcher.begin_view();
        self.last_told = None;
        self.ask_unconfirmed()?;
        self.settle(&[])
    }

    /// A step of the member: a primary settles where it started a view, and where more is committed.
    #[inline(always)]
    fn step(&mut self, input: VrInput) -> Result<(), AllocError>
        requires begins { InSomeGroup (BeginsTurn A.law self.old) }
        ensures { ForEachGroup (BeginsTurn A.law self.old) (λ kinds setup.
            OnOk result (Works A.law kinds setup self.old (after_step kinds setup self.old.work.state (vr_step self.old.work.state.vr input)) self.new)) }
    {
        let led = self.replica.leads();
        let view = self.replica.view();
        let before = self.replica.committed();
        self.take_step(input)?;
        if !self.replica.leads() {
            return self.fold_unanswered(before);
        }
        let processed = self.fold_behind(before)?;
        if has_started(led, view, true, self.replica.view()) {
            return self.start_view();
        }
        if before < self.replica.committed() {
            self.settle(processed.as_slice())
        } else {
            Ok(())
        }
    }

    /// Time passes: what switches have not answered is sent again.
    fn tick(&mut self) -> Result<(), AllocError>
        requires begins { InSomeGroup (BeginsTurn A.law self.old) }
        ensures { ForEachGroup (BeginsTurn A.law self.old) (λ kinds setup. OnOk result (Works A.law kinds setup self.old (rules.on_tick kinds setup self.old.work.state) self.new)) }
    {
        self.take_step(VrInput::Tick)?;
        if self.replica.leads() {
            self.ask_unconfirmed()?;
            let commands = self.dispatcher.outstanding()?;
            self.send(commands)?;
        }
        Ok(())
    }

    /// An event comes: one that may follow is proposed, and one that was processed is acknowledged.
    fn on_event(&mut self, event: Event) -> Result<(), AllocError>
        requires begins { InSomeGroup (BeginsTurn A.law self.old) }
        requires leads { members.leads self.old.work.state.vr ≡ true }
        ensures { ForEachGroup (BeginsTurn A.law self.old) (λ kinds setup. OnOk result (Works A.law kinds setup self.old (rules.on_event kinds setup self.old.work.state event) self.new)) }
    {
        match self.dispatcher.on_event(&event, self.replica.log()) {
            EventAction::Propose => {
                if self.propose(Entry::Received(event))? {
                    self.finish_all()
                } else {
                    Ok(())
                }
            }
            EventAction::Acknowledge { through } => self.acknowledge(AckThrough {
                switch: event.switch,
                life: event.life,
                through,
            }),
            EventAction::Nothing => Ok(()),
        }
    }

    /// A result comes: where its command waits for one, the event may be finished.
    fn on_result(&mut self, switch: u8, life: u32, number: u64) -> Result<(), AllocError>
        requires begins { InSomeGroup (BeginsTurn A.law self.old) }
        requires leads { members.leads self.old.work.state.vr ≡ true }
        ensures { ForEachGroup (BeginsTurn A.law self.old) (λ kinds setup. OnOk result (Works A.law kinds setup self.old (rules.on_result kinds setup self.old.work.state switch life number) self.new)) }
    {
        if self.dispatcher.on_result(switch, life, number) {
            self.finish_all()
        } else {
            Ok(())
        }
    }

    /// A switch takes this controller as master: it gets its commands.
    fn on_role_reply(&mut self, switch: u8, role: u32, generation: u64) -> Result<(), AllocError>
        ensures { ForEachGroup (BeginsTurn A.law self.old) (λ kinds setup. OnOk result (Works A.law kinds setup self.old (rules.on_role_reply kinds setup self.old.work.state switch role generation) self.new)) }
    {
        if role != MASTER || generation != u64::from(self.replica.view()) {
            return Ok(());
        }
        self.dispatcher.on_role(switch);
        let commands = self.dispatcher.outstanding_on(switch)?;
        self.send(commands)
    }

    /// A switch greets: it may have lost its state, and is asked again.
    fn on_hello(&mut self, switch: u8) -> Result<(), AllocError>
        ensures { ForEachGroup (BeginsTurn A.law self.old) (λ kinds setup. OnOk result (Works A.law kinds setup self.old (rules.on_hello self.old.work.state switch) self.new)) }
    {
        self.dispatcher.off_role(switch);
        let view = self.replica.view();
        self.post(role_letter(view, switch))
    }

    /// What a switch says to a primary.
    fn on_spoken(&mut self, switch: u8, message: Spoken) -> Result<(), AllocError>
        requires begins { InSomeGroup (BeginsTurn A.law self.old) }
        requires leads { members.leads self.old.work.state.vr ≡ true }
        ensures { ForEachGroup (BeginsTurn A.law self.old) (λ kinds setup. OnOk result (Works A.law kinds setup self.old (rules.on_spoken kinds setup self.old.work.state switch message) self.new)) }
    {
        match message {
            Spoken::Plain(message) => {
                let answer = self.on_plain(switch, &message);
                drop(message);
                answer
            }
            Spoken::Ravana(message) => self.on_extension(switch, message),
        }
    }

    /// A message of OpenFlow itself.
    fn on_plain(&mut self, switch: u8, message: &OfMessage) -> Result<(), AllocError>
        ensures { ForEachGroup (BeginsTurn A.law self.old) (λ kinds setup. OnOk result (Works A.law kinds setup self.old (rules.on_plain kinds setup self.old.work.state switch message.now) self.new)) }
    {
        match message {
            OfMessage::RoleReply { role, generation } => {
                self.on_role_reply(switch, *role, *generation)
            }
            OfMessage::Hello => self.on_hello(switch),
            _ => Ok(()),
        }
    }

    /// A message of the extension: events and results.
    fn on_extension(&mut self, switch: u8, message: Extension) -> Result<(), AllocError>
        requires begins { InSomeGroup (BeginsTurn A.law self.old) }
        requires leads { members.leads self.old.work.state.vr ≡ true }
        ensures { ForEachGroup (BeginsTurn A.law self.old) (λ kinds setup. OnOk result (Works A.law kinds setup self.old (rules.on_extension kinds setup self.old.work.state switch message) self.new)) }
    {
        match message {
            Extension::Event { life, number, what } => self.on_event(Event {
                switch,
                life,
                number,
                what,
            }),
            Extension::CmdAck { life, number, .. } => self.on_result(switch, life, number),
            other => {
                drop(other);
                Ok(())
            }
        }
    }

    /// Whether it takes part in views: it is not recovering.
    fn is_up(&self) -> bool
        ensures { result ≡ members.is_up self.now.work.state.vr }
    {
        match self.replica.status() {
            Status::Normal | Status::ViewChange => true,
            Status::Recovering | Status::Down => false,
        }
    }

    fn echo(&mut self, switch: u8, xid: u32, body: Octets) -> Result<(), AllocError>
        ensures { ForEachGroup (BeginsTurn A.law self.old) (λ kinds setup. OnOk result (Works A.law kinds setup self.old (rules.on_echo self.old.work.state switch xid body) self.new)) }
    {
        if self.is_up() {
            let reply = OfMessage::EchoReply { body };
            self.post(to_switch(switch, xid, Spoken::Plain(reply)))
        } else {
            Ok(())
        }
    }

    /// What a switch says. Each controller that is up answers an ECHO_REQUEST; all else is for a primary.
    fn on_switch(&mut self, switch: u8, xid: u32, message: Spoken) -> Result<(), AllocError>
        requires begins { InSomeGroup (BeginsTurn A.law self.old) }
        ensures { ForEachGroup (BeginsTurn A.law self.old) (λ kinds setup. OnOk result (Works A.law kinds setup self.old (rules.on_switch kinds setup self.old.work.state switch xid message) self.new)) }
    {
        match message {
            Spoken::Plain(OfMessage::EchoRequest { body }) => self.echo(switch, xid, body),
            message => {
                if self.replica.leads() {
                    self.on_spoken(switch, message)
                } else {
                    drop(message);
                    Ok(())
                }
            }
        }
    }

    /// A turn begins with no proposal that met the limit.
    fn forget_limit(&mut self)
        ensures { self.new ≡ begun self.old }
    {
        self.full = None;
    }

    /// Of how many commands results are kept.
    pub(crate) fn marked(&self) -> usize
        ensures { result ≡ length self.now.work.state.marks.acked }
    {
        self.dispatcher.marked()
    }

    /// The results of commands that are settled are forgotten. It takes no memory.
    pub(crate) fn forget(&mut self)
        ensures state { ForEachGroup (Acts A.law self.old) (λ kinds setup. self.new.work.state ≡ with_settled_forgotten kinds setup self.old.work.state) }
        ensures begins { ForEachGroup (BeginsTurn A.law self.old) (BeginsTurn A.law self.new) }
    {
        self.dispatcher.forget();
    }

    /// What the turn posts. Nothing is left to be saved or posted.
    pub(crate) fn release(&mut self) -> Mails
        ensures letters { result ≡ self.old.work.letters }
        ensures rests { self.new ≡ record self.old { work = resting self.old.work.state; promise = None } }
    {
        self.promise = None;
        let none = Vec::new(self.replica.log().allocator());
        if self.mails.is_empty() {
            return Mails::from_vec(none);
        }
        Mails::from_vec(replace(&mut self.mails, none))
    }

    /// An empty list, with its memory for the mails of a later turn.
    pub(crate) fn reuse(&mut self, list: Vec<Mail>)
        requires { list.items ≡ [] }
        ensures { self.new ≡ self.old }
    {
        if self.mails.is_empty() {
            self.mails = list;
        }
    }

    /// Its application, for a later life.
    pub(crate) fn into_app(self) -> A
        ensures { result ≡ self.dispatcher.app }
    {
        let Active {
            replica: _replica,
            dispatcher,
            last_told: _,
            full: _,
            promise: _,
            mails: _mails,
            out: _out,
        } = self;
        dispatcher.into_app()
    }

    /// The log of its member.
    pub(crate) fn into_log(self) -> Log
        ensures { result ≡ self.work.state.vr.log }
    {
        let Active {
            replica,
            dispatcher: _dispatcher,
            last_told: _,
            full: _,
            promise: _,
            mails: _mails,
            out: _out,
        } = self;
        replica.into_log()
    }

    /// What it does with a local input. A crash takes no memory here.
    fn on_local(&mut self, local: &Local) -> Result<(), AllocError>
        requires begins { InSomeGroup (BeginsTurn A.law self.old) }
        ensures works { ForEachGroup (BeginsTurn A.law self.old) (λ kinds setup. rules.is_crash_input (controller_input.Local local.now) ≡ false →
            OnOk result (Works A.law kinds setup self.old (rules.on_local kinds setup self.old.work.state local.now) self.new)) }
        ensures crash { OnErr result (rules.is_crash_input (controller_input.Local local.now) ≡ false) }
    {
        match local {
            Local::Tick => self.tick(),
            Local::Suspect { view } => self.step(VrInput::Suspect { view: *view }),
            _ => Ok(()),
        }
    }

    /// What it does with an input. A crash is told by the caller, and takes no memory here.
    fn on_input(&mut self, input: ControllerInput) -> Result<(), AllocError>
        requires begins { InSomeGroup (BeginsTurn A.law self.old) }
        ensures works { ForEachGroup (BeginsTurn A.law self.old) (λ kinds setup. rules.is_crash_input input ≡ false →
            OnOk result (Works A.law kinds setup self.old (rules.on_input kinds setup self.old.work.state input) self.new)) }
        ensures crash { OnErr result (rules.is_crash_input input ≡ false) }
    {
        match input {
            ControllerInput::Local(local) => {
                let answer = self.on_local(&local);
                drop(local);
                answer
            }
            ControllerInput::Of {
                switch,
                xid,
                message,
            } => self.on_switch(switch, xid, message),
            ControllerInput::Vr { from, message } => self.step(VrInput::From { from, message }),
            ControllerInput::Malformed { .. } => Ok(()),
        }
    }

    /// What it does in a turn. The promise that it wants to be saved comes back.
    #[inline(always)]
    pub(crate) fn turn(&mut self, input: ControllerInput) -> Result<Option<u32>, AllocError>
        requires begins { InSomeGroup (BeginsTurn A.law self.old) }
        ensures works { ForEachGroup (BeginsTurn A.law self.old) (λ kinds setup. rules.is_crash_input input ≡ false →
            OnOk result (Works A.law kinds setup (begun self.old) (rules.on_input kinds setup (begun self.old).work.state input) self.new)) }
        ensures promise { IfOk result (λ promise. promise ≡ self.new.promise) }
        ensures crash { OnErr result (rules.is_crash_input input ≡ false) }
    {
        self.forget_limit();
        self.on_input(input)?;
        Ok(self.promise)
    }
}
