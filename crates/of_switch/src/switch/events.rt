//! What a switch makes of what happens (Ravana, 4.1).
ghost use Rattle.std.specs.Prelude.{◌≡◌, ◌≤◌, ◌<◌, ◌+◌, ◌-◌, [], true, false, length, take, drop, All, if◌then◌else◌, IfOk, OnOk, OnErr, ◌∷◌};
ghost use Rattle.event_buffer.specs.Buffer.{most_held, highest_port, is_full, cleared_to, with_dirty};
ghost use Rattle.of_switch.specs.State.{Turned, life_of};
ghost use Rattle.of_switch.specs.Events.{window, coming as coming_events, first_held, cleared, raised, port_status, port_raised, with_port, next_life, on_port, on_event_ack, brings, flow_removed as removal_told, switch_on_restart, switch_on_tick};
ghost use Rattle.of_types.specs.Lives.{last_life};
ghost use Rattle.role_fence.specs.Fence.{starting_fence};
ghost use Rattle.of_switch.specs.Drafts.{IsDraft, draft_of, drafted, with_raised, with_removed, with_greetings, with_first, with_ports, forgets, forgetting, changed_to, life_begun};

use super::{Switch, Table, new_table};
use crate::draft::{Draft, Parts, WINDOW, first};
use crate::history::History;
use crate::says::SwitchSays;
use command_buffer::CommandBuffer;
use event_buffer::HeldEvents;
use flow_clock::Expired;
use journal::Said;
use of_types::{
    Boxed, Event, FlowRemoved, Happening, Items, LAST_LIFE, PortStatus, REASON_MODIFY,
    SEND_REMOVED, switch_up,
};
use role_fence::RoleFence;
use std::alloc::{AllocError, Global};

impl Switch {
    /// The switch takes what a draft adds.
    pub(super) fn finish(&mut self, draft: Draft) -> Result<Said<SwitchSays>, AllocError>
        requires { IsDraft self.old draft }
        ensures ok { IfOk result (λ letters. Turned (drafted self.old draft) self.new letters) }
        ensures err { OnErr result (self.new ≡ self.old) }
    {
        let Parts {
            events,
            sent,
            letters,
        } = draft.into_parts();
        self.history.join(events)?;
        self.sent = sent;
        Ok(Items::from_vec(letters))
    }

    /// One of its ports goes down, or comes up. What changes nothing tells nothing.
    pub(super) fn on_port(&mut self, port: u32, up: bool) -> Result<Said<SwitchSays>, AllocError>
        ensures ok { IfOk result (λ letters. Turned (on_port self.old port up) self.new letters) }
        ensures err { OnErr result (self.new ≡ self.old) }
    {
        if self.is_port(port) && self.is_down(port) == up {
            self.change_port(port, up)
        } else {
            Ok(Items::new(self.alloc))
        }
    }

    /// The change of a port is told, or the port is remembered where the buffer is full.
    fn change_port(&mut self, port: u32, up: bool) -> Result<Said<SwitchSays>, AllocError>
        requires { (1 ≤ port) × (port ≤ self.old.ports) }
        ensures ok { IfOk result (λ letters. Turned (port_raised port (with_port self.old port up)) self.new letters) }
        ensures err { OnErr result (self.new ≡ self.old) }
    {
        if self.history.counts().is_full() {
            self.remember_change(port, up);
            Ok(Items::new(self.alloc))
        } else {
            self.tell_change(port, up)
        }
    }

    /// A port changes, and is remembered.
    fn remember_change(&mut self, port: u32, up: bool)
        requires { (1 ≤ port) × (port ≤ self.old.ports) }
        ensures { self.new ≡ record (with_port self.old port up) { buffer = with_dirty self.old.buffer port } }
    {
        self.history.mark_dirty(port);
        self.set_port(port, up);
    }

    /// A port changes, and the change is told.
    fn tell_change(&mut self, port: u32, up: bool) -> Result<Said<SwitchSays>, AllocError>
        requires port { (1 ≤ port) × (port ≤ self.old.ports) }
        requires room { is_full self.old.buffer ≡ false }
        ensures ok { IfOk result (λ letters. Turned (raised (port_status (with_port self.old port up) port) (with_port self.old port up)) self.new letters) }
        ensures err { OnErr result (self.new ≡ self.old) }
    {
        let draft = self.port_change(port, up)?;
        let letters = self.finish(draft)?;
        self.set_port(port, up);
        Ok(letters)
    }

    /// A port has changed.
    fn port_change(&self, port: u32, up: bool) -> Result<Draft, AllocError>
        requires { is_full self.now.buffer ≡ false }
        ensures { IfOk result (λ d. d ≡ with_raised (changed_to port up) (draft_of self.now)) }
    {
        let mut draft = self.draft();
        draft.raise(Happening::PortStatus(PortStatus {
            reason: REASON_MODIFY,
            port,
            up,
        }))?;
        Ok(draft)
    }

    /// Ports are told as they are, for which there is room.
    fn raise_ports(&self, draft: &mut Draft, ports: &[u32]) -> Result<(), AllocError>
        requires { draft.old.held + length ports.now ≤ most_held }
        ensures ok { OnOk result (draft.new ≡ with_ports self.now ports.now draft.old) }
        ensures memory { OnErr result (0 < length ports.now) }
    {
        for port in ports {
            draft.raise(self.port_status(*port))?;
        }
        Ok(())
    }

    /// What is acknowledged leaves the buffer, and what it makes room for comes. It takes memory only where events come
    /// among the first, or ports that were remembered are told.
    pub(super) fn on_event_ack(&mut self, through: u64) -> Result<Said<SwitchSays>, AllocError>
        ensures ok { IfOk result (λ letters. Turned (on_event_ack self.old through) self.new letters) }
        ensures err { OnErr result (self.new ≡ self.old) }
        ensures memory { OnErr result (brings self.old through ≡ true) }
    {
        if self.coming(through).is_empty() && !self.history.counts().has_dirty() {
            self.drop_events(through);
            return Ok(Items::new(self.alloc));
        }
        self.tell_coming(through)
    }

    /// What is acknowledged leaves the buffer, and nothing comes.
    fn drop_events(&mut self, through: u64)
        ensures { self.new ≡ cleared self.old through }
    {
        self.history.clear(through);
    }

    /// What is acknowledged leaves the buffer, and what it makes room for is told.
    fn tell_coming(&mut self, through: u64) -> Result<Said<SwitchSays>, AllocError>
        ensures ok { IfOk result (λ letters. Turned (on_event_ack self.old through) self.new letters) }
        ensures err { OnErr result (self.new ≡ self.old) }
        ensures memory { OnErr result (brings self.old through ≡ true) }
    {
        let mut draft = self.draft_past(through);
        draft.tell(self.coming(through))?;
        let ports = self.ports_to_tell(draft.room())?;
        self.raise_ports(&mut draft, &ports)?;
        self.acknowledge(through, &ports, draft)
    }

    /// How many events leave.
    fn leaving(&self, through: u64) -> usize
        ensures count { result ≡ cleared_to self.now.buffer through - self.now.buffer.cleared }
        ensures within { result ≤ length self.now.buffer.held }
    {
        let held = self.history.counts();
        let next = held.next_number();
        through.min(next).saturating_sub(held.cleared()) as usize
    }

    /// What a turn is to add once events have left.
    fn draft_past(&self, through: u64) -> Draft
        ensures { result ≡ draft_of (cleared self.now through) }
    {
        let left = self.leaving(through);
        Draft::new(
            self.alloc,
            self.history.counts(),
            left,
            self.fence.master(),
            self.sent,
        )
    }

    /// The events that come among the first once some have left.
    fn coming(&self, through: u64) -> &[Event]
        ensures { result.now ≡ coming_events (cleared self.now through) (cleared_to self.now.buffer through - self.now.buffer.cleared) }
    {
        coming(self.history.held(), self.leaving(through))
    }

    /// The ports that were remembered, as many as there is room for. It takes no memory for none.
    fn ports_to_tell(&self, room: usize) -> Result<Vec<u32>, AllocError>
        ensures ports { IfOk result (λ ports. ports.items ≡ take room self.now.buffer.dirty) }
        ensures within { IfOk result (λ ports. All (λ port. (1 ≤ port) × (port ≤ highest_port)) ports.items) }
        ensures memory { OnErr result ((0 < room) × (0 < length self.now.buffer.dirty)) }
    {
        let held = self.history.counts();
        if room == 0 || !held.has_dirty() {
            return Ok(Vec::new(self.alloc));
        }
        let mut ports = held.dirty(self.alloc)?;
        ports.truncate(room);
        Ok(ports)
    }

    /// Events leave the buffer, ports are forgotten, and the switch takes what a draft adds.
    fn acknowledge(
        &mut self,
        through: u64,
        ports: &[u32],
        draft: Draft,
    ) -> Result<Said<SwitchSays>, AllocError>
        requires kind { IsDraft (cleared self.old through) draft }
        requires within { All (λ port. (1 ≤ port) × (port ≤ highest_port)) ports.now }
        ensures ok { IfOk result (λ letters. Turned (drafted (forgetting ports.now (cleared self.old through)) draft) self.new letters) }
        ensures err { OnErr result (self.new ≡ self.old) }
        ensures memory { OnErr result (0 < length draft.raised) }
    {
        let Parts {
            events,
            sent,
            letters,
        } = draft.into_parts();
        self.history.replace(through, events)?;
        forget_all(&mut self.history, ports);
        self.sent = sent;
        Ok(Items::from_vec(letters))
    }

    /// A restart begins the next life, where there is one.
    pub(super) fn on_restart(&mut self) -> Result<Said<SwitchSays>, AllocError>
        ensures ok { IfOk result (λ letters. Turned (switch_on_restart self.old) self.new letters) }
        ensures err { OnErr result (self.new ≡ self.old) }
    {
        if self.life() < LAST_LIFE {
            self.restart()
        } else {
            Ok(Items::new(self.alloc))
        }
    }

    /// The next life begins.
    fn restart(&mut self) -> Result<Said<SwitchSays>, AllocError>
        requires { life_of self.old < last_life }
        ensures ok { IfOk result (λ letters. Turned (switch_on_restart self.old) self.new letters) }
        ensures err { OnErr result (self.new ≡ self.old) }
    {
        let draft = self.first_events()?;
        self.begin_life(draft)
    }

    /// The events with which the next life begins, and the greetings.
    fn first_events(&self) -> Result<Draft, AllocError>
        requires { life_of self.now < last_life }
        ensures { IfOk result (λ d. d ≡ life_begun self.now) }
    {
        let held = HeldEvents::new(self.number(), self.life() + 1);
        let mut draft = Draft::new(self.alloc, &held, 0, None, self.sent);
        draft.raise(switch_up())?;
        let ports = self.down_ports()?;
        self.raise_ports(&mut draft, &ports)?;
        draft.greet(self.controllers)?;
        Ok(draft)
    }

    /// What the switch held of its last life is gone, and it takes what a draft adds.
    fn begin_life(&mut self, draft: Draft) -> Result<Said<SwitchSays>, AllocError>
        requires life { life_of self.old < last_life }
        requires kind { IsDraft (next_life self.old) draft }
        ensures ok { IfOk result (λ letters. Turned (drafted (next_life self.old) draft) self.new letters) }
        ensures err { OnErr result (self.new ≡ self.old) }
    {
        let results = CommandBuffer::new(self.alloc)?;
        let table = new_table(self.alloc)?;
        self.ended.reserve(1)?;
        let Parts {
            events,
            sent,
            letters,
        } = draft.into_parts();
        let cleared = self.history.counts().cleared();
        self.history.begin_life(events)?;
        self.ended.push_reserved(cleared);
        self.renew(results, table);
        self.sent = sent;
        Ok(Items::from_vec(letters))
    }

    /// What the switch held of its last life gives way.
    fn renew(&mut self, results: CommandBuffer, table: Table)
        requires { results.executed ≤ length self.old.executed }
        ensures { self.new ≡ record self.old { results = results; table = table; fence = starting_fence } }
    {
        self.results = results;
        self.table = table;
        self.fence = RoleFence::new();
    }

    /// A tick: the table ages, and then the first events are sent. A later life without a master greets again.
    pub(super) fn on_tick(&mut self) -> Result<Said<SwitchSays>, AllocError>
        ensures ok { IfOk result (λ letters. Turned (switch_on_tick self.old) self.new letters) }
        ensures err { OnErr result (self.new ≡ self.old) }
    {
        let left = self.table.leaving()?;
        let draft = self.ticked(&left)?;
        let letters = self.finish(draft)?;
        self.table.rise(&left);
        Ok(letters)
    }

    /// What a tick at which these rows leave is to add.
    fn ticked(&self, left: &[Expired]) -> Result<Draft, AllocError>
        ensures { IfOk result (λ d. d ≡ with_first self.now.buffer.held (with_greetings self.now (with_removed left.now (draft_of self.now)))) }
    {
        let mut draft = self.draft();
        note_all(self.alloc, &mut draft, left)?;
        self.greet_again(&mut draft)?;
        draft.tell_first(self.history.held())?;
        Ok(draft)
    }

    /// Each controller is greeted in a later life without a master.
    fn greet_again(&self, draft: &mut Draft) -> Result<(), AllocError>
        ensures { OnOk result (draft.new ≡ with_greetings self.now draft.old) }
    {
        if draft.lacks_master() {
            draft.greet(self.controllers)?;
        }
        Ok(())
    }

    /// The events of the buffer that may be under way.
    pub(super) fn first_held(&self) -> &[Event]
        ensures { result.now ≡ first_held self.now }
    {
        first(self.history.held(), WINDOW)
    }
}

/// Rows that have left are noted where they ask for that.
fn note_all(alloc: Global, draft: &mut Draft, left: &[Expired]) -> Result<(), AllocError>
    ensures { OnOk result (draft.new ≡ with_removed left.now draft.old) }
{
    for expired in left {
        note_removed(alloc, draft, expired)?;
    }
    Ok(())
}

/// A row that has left is noted where it asks for that.
fn note_removed(alloc: Global, draft: &mut Draft, expired: &Expired) -> Result<(), AllocError>
    ensures { OnOk result (draft.new ≡ with_removed (expired.now ∷ []) draft.old) }
{
    if expired.flags == SEND_REMOVED && !draft.is_full() {
        draft.note(flow_removed(alloc, expired)?)?;
    }
    Ok(())
}

/// A row that has left, as an event.
fn flow_removed(alloc: Global, expired: &Expired) -> Result<Happening, AllocError>
    ensures { IfOk result (λ told. told ≡ removal_told expired.now) }
{
    let removed = FlowRemoved {
        cookie: expired.row.cookie,
        priority: expired.row.priority,
        reason: expired.reason,
        duration: expired.duration,
        idle: expired.idle,
        hard: expired.hard,
        packets: expired.hits,
        octets: expired.octets,
        matching: expired.row.matching,
    };
    Ok(Happening::FlowRemoved(Boxed::new(alloc, removed)?))
}

/// The events that come among the first where so many leave.
fn coming(held: &[Event], left: usize) -> &[Event]
    requires { left ≤ length held.now }
    ensures { result.now ≡ drop (window - left) (take window (drop left held.now)) }
{
    let first = first(&held[left..], WINDOW);
    let known = WINDOW.saturating_sub(left);
    if known < first.len() {
        &first[known..]
    } else {
        &[]
    }
}

/// Ports are forgotten.
fn forget_all(history: &mut History, ports: &[u32])
    requires { All (λ port. (1 ≤ port) × (port ≤ highest_port)) ports.now }
    ensures { history.new ≡ record history.old { buffer = forgets ports.now history.old.buffer } }
{
    for port in ports {
        history.forget_dirty(*port);
    }
}
