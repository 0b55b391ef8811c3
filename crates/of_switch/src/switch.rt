//! A switch, and its turn.
ghost use Rattle.std.specs.Prelude.{◌≡◌, ◌≤◌, [], true, length, filter, slice_index_or, IfOk, OnErr};
ghost use Rattle.of_types.specs.SmallSets.{places_from};
ghost use Rattle.event_buffer.specs.Buffer.{highest_port};
ghost use Rattle.of_switch.specs.Rules.{switch_turn, switch_on_local, takes_memory};
ghost use Rattle.of_switch.specs.State.{Turned, IsSwitch, starting_switch, is_at as is_link_at, rows_of, life_of, own_number_of};
ghost use Rattle.flow_clock.specs.Holding.{clocked_of};

mod commands;
mod events;
mod forwarding;
mod messages;
mod ports;
mod told;

use crate::history::History;
use crate::says::{SwitchInput, SwitchSays};
use command_buffer::CommandBuffer;
use flow_clock::TimedRows;
use flow_index::FlowIndex;
use journal::{Local, Said};
use of_types::{Event, Executed, Items, Link, Refusal, Row, Setup, Spoken};
use role_fence::RoleFence;
use std::alloc::{AllocError, Global};
use std::marker::Model;
pub use told::{SwitchRemains, ToldSwitch};

/// The table of a switch, beside its clock.
type Table = TimedRows<FlowIndex>;

/// A switch of the run.
#[derive(Drop)]
pub struct Switch {
    alloc: Global,
    /// How many controllers the setup has.
    controllers: u8,
    /// The links of the setup of which an end is here.
    links: Items<Link>,
    /// Of each port whether it is down, the first port first.
    down: Vec<bool>,
    /// How many frames it sent out.
    sent: u64,
    /// The events that it made and didn't forget, and those of this life that wait to be processed.
    history: History,
    /// How many commands of this life were carried out, and their latest results.
    results: CommandBuffer,
    /// The flow table.
    table: Table,
    /// Which controller may command.
    fence: RoleFence,
    /// The commands of all lives that were carried out and not forgotten, in order.
    executed: Vec<Executed>,
    /// Of each life that is over and not forgotten, how many events had left the buffer.
    ended: Vec<u64>,
    /// How many events and commands were forgotten.
    gone: u64,
}

impl Model for Switch {
    ghost use Rattle.std.specs.Prelude.{length};
    ghost use Rattle.of_types.specs.SmallSets.{places_from};
    ghost use Rattle.of_switch.specs.State.{SwitchState, IsSwitch};

    ghost Value = { SwitchState };

    ghost view = { λ a. record {
      controllers = a.controllers;
      ports = length a.down.items;
      links = a.links;
      down = places_from 1 a.down.items;
      sent = a.sent;
      buffer = a.history.buffer;
      results = a.results;
      table = a.table;
      fence = a.fence;
      events = a.history.events;
      executed = a.executed.items;
      ended = a.ended.items;
      gone = a.gone;
    } };

    ghost invariant = { λ a. IsSwitch (record {
      controllers = a.controllers;
      ports = length a.down.items;
      links = a.links;
      down = places_from 1 a.down.items;
      sent = a.sent;
      buffer = a.history.buffer;
      results = a.results;
      table = a.table;
      fence = a.fence;
      events = a.history.events;
      executed = a.executed.items;
      ended = a.ended.items;
      gone = a.gone;
    }) };
}

impl Switch {
    /// The switch of a number in a setup, as it starts.
    pub fn new(alloc: Global, number: u8, setup: &Setup) -> Result<Switch, AllocError>
        requires { slice_index_or setup.now.ports number 0 ≤ highest_port }
        ensures { IfOk result (λ s. s ≡ starting_switch number setup.now) }
    {
        Ok(Switch {
            alloc,
            controllers: setup.controllers,
            links: links_at(alloc, number, setup.links.as_slice())?,
            down: all_up(alloc, count_of_ports(setup, number) as usize)?,
            sent: 0,
            history: History::new(alloc, number),
            results: CommandBuffer::new(alloc)?,
            table: new_table(alloc)?,
            fence: RoleFence::new(),
            executed: Vec::new(alloc),
            ended: Vec::new(alloc),
            gone: 0,
        })
    }

    /// What holds of every switch.
    pub fn lawful(&self)
        ensures { IsSwitch self.now }
    {
        let _sent = self.sent;
    }

    /// All events that it made in all its lives and didn't forget, in order.
    pub fn events(&self) -> &[Event]
        ensures { result.now ≡ self.now.events }
    {
        self.history.events()
    }

    /// All commands that it carried out in all its lives and didn't forget, in order.
    pub fn executed(&self) -> &[Executed]
        ensures { result.now ≡ self.now.executed }
    {
        &self.executed
    }

    /// How many rows its table has.
    pub fn count_rows(&self) -> usize
        ensures { result ≡ length (rows_of self.now) }
    {
        self.table.count_rows()
    }

    /// Copies of the rows of its table, in the order of adding.
    pub fn rows(&self) -> Result<Vec<Row>, AllocError>
        ensures { IfOk result (λ rows. rows.items ≡ rows_of self.now) }
    {
        self.table.rows()
    }

    /// How many events are in its buffer.
    pub fn held(&self) -> u64
        ensures { result ≡ length self.now.buffer.held }
    {
        self.history.held().len() as u64
    }

    /// Its fence: the master, and the generation that was accepted last.
    pub fn fence(&self) -> &RoleFence
        ensures { result.now ≡ self.now.fence }
    {
        &self.fence
    }

    /// How many frames it has sent out, up to the greatest number of 64 bits.
    pub fn sent(&self) -> u64
        ensures { result ≡ self.now.sent }
    {
        self.sent
    }

    /// The number of its life: each restart begins the next one.
    pub fn life(&self) -> u32
        ensures { result ≡ life_of self.now }
    {
        self.history.counts().life()
    }

    /// One turn: the rule of its input. Where memory is wanted, nothing has changed. An acknowledgement that brings no
    /// event among the first of the buffer takes none, nor does a clear.
    #[inline(always)]
    #[tactic(auto, unfolding(crate::specs::Rules::switch_turn))]
    pub fn turn(&mut self, input: SwitchInput) -> Result<Said<SwitchSays>, AllocError>
        ensures ok { IfOk result (λ letters. Turned (switch_turn self.old input) self.new letters) }
        ensures err { OnErr result (self.new ≡ self.old) }
        ensures memory { OnErr result (takes_memory self.old input ≡ true) }
    {
        let letters = match input {
            SwitchInput::Local(local) => self.on_local(local)?,
            SwitchInput::Of { from, xid, message } => match message {
                Spoken::Plain(message) => self.on_plain(from, xid, message)?,
                Spoken::Ravana(message) => self.on_extension(from, xid, message)?,
            },
            SwitchInput::Malformed {
                from,
                kind,
                code,
                xid,
                head,
            } => self.on_malformed(from, Refusal { kind, code }, xid, head)?,
            SwitchInput::Frame { port, bytes, .. } => self.on_frame(port, bytes)?,
        };
        Ok(letters)
    }

    /// What comes from outside. A switch neither suspects nor stops.
    fn on_local(&mut self, input: Local) -> Result<Said<SwitchSays>, AllocError>
        ensures ok { IfOk result (λ letters. Turned (switch_on_local self.old input) self.new letters) }
        ensures err { OnErr result (self.new ≡ self.old) }
    {
        match input {
            Local::Frame { port, bytes } => self.on_frame(port, bytes),
            Local::Port { port, up } => self.on_port(port, up),
            Local::Tick => self.on_tick(),
            Local::Restart => self.on_restart(),
            Local::Suspect { .. } | Local::Crash => Ok(Items::new(self.alloc)),
        }
    }

    /// Its number.
    fn number(&self) -> u8
        ensures { result ≡ own_number_of self.now }
    {
        self.history.counts().switch()
    }
}

/// A table as a life begins.
fn new_table(alloc: Global) -> Result<Table, AllocError>
    ensures { IfOk result (λ table. table ≡ clocked_of []) }
{
    Ok(TimedRows::new(alloc, FlowIndex::new(alloc)?))
}

/// How many ports a switch has.
fn count_of_ports(setup: &Setup, number: u8) -> u32
    ensures { result ≡ slice_index_or setup.now.ports number 0 }
{
    match setup.ports.as_slice().get(usize::from(number)) {
        Some(count) => *count,
        None => 0,
    }
}

/// So many ports, none of them down.
fn all_up(alloc: Global, count: usize) -> Result<Vec<bool>, AllocError>
    ensures count { IfOk result (λ down. length down.items ≡ count) }
    ensures up { IfOk result (λ down. places_from 1 down.items ≡ []) }
{
    let mut down = Vec::new(alloc);
    down.resize(count, false)?;
    Ok(down)
}

/// Whether a wire begins, or ends, at a port of this switch.
fn is_at(number: u8, link: &Link) -> bool
    ensures { result ≡ is_link_at number link.now }
{
    link.switch == number || link.peer == number
}

/// The wires at the ports of a switch.
fn links_at(alloc: Global, number: u8, links: &[Link]) -> Result<Items<Link>, AllocError>
    ensures { IfOk result (λ own. own ≡ filter (is_link_at number) links.now) }
{
    let mut own = Items::new(alloc);
    for link in links {
        if is_at(number, link) {
            own.push(*link)?;
        }
    }
    Ok(own)
}
