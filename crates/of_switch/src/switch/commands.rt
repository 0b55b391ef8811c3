//! What a switch does with commands (Ravana, 4.2; OpenFlow 1.3, 6.4 and 7.3.7).
ghost use Rattle.std.specs.Prelude.{◌≡◌, ◌≢◌, ◌<◌, ◌-◌, ◌^◌, true, not, length, IfOk, OnErr};
ghost use Rattle.std.specs.List.{list_any};
ghost use Rattle.of_types.specs.declared.message.Order.TheVariants as orders;
ghost use Rattle.of_types.specs.declared.message.Outcome.TheVariants as outcomes;
ghost use Rattle.command_buffer.specs.Results.{most_kept, without_results_below, with_result, offer_of};
ghost use Rattle.flow_clock.specs.Clocked.{rows_in};
ghost use Rattle.flow_table.specs.Table.{table_fault};
ghost use Rattle.of_switch.specs.State.{Turned};
ghost use Rattle.of_switch.specs.Commands.{is_output, failed as failed_by, fault_result, table_result, result_of, letter_of_result, executes, settled as settled_below, on_command};
ghost use Rattle.of_switch.specs.Drafts.{draft_of, is_execute, table_as, sent_as, reported};

use super::forwarding::is_frame_of;
use super::{Switch, Table};
use crate::draft::Draft;
use crate::letters::to_controller;
use crate::says::SwitchSays;
use command_buffer::{CommandBuffer, MOST_KEPT, Offer};
use flow_table::TableFault;
use journal::{Letter, Said};
use of_types::{
    ALL_PORTS, BAD_FLAGS, BAD_OUT_PORT, BAD_PACKET, BAD_TABLE, Boxed, Executed, Extension, FLOOD,
    FlowMod, IN_PORT, Items, NO_BUFFER, NOT_MASTER, Order, Outcome, PacketOut, Refusal, Spoken,
    TABLE_FULL, UNKNOWN_BUFFER,
};
use std::alloc::AllocError;

/// Which command it is: who sent it, by which generation, its number, and what is settled.
#[derive(Clone, Copy)]
pub struct Issue {
    pub from: u8,
    pub generation: u64,
    pub number: u64,
    pub settled: u64,
}

impl Switch {
    /// A command of the master, and of its generation, is carried out once. What the controller knows as settled goes
    /// first.
    pub(super) fn on_command(
        &mut self,
        command: Issue,
        xid: u32,
        order: Order,
    ) -> Result<Said<SwitchSays>, AllocError>
        ensures ok { IfOk result (λ letters. Turned (on_command self.old command.from xid command.generation command.number command.settled order) self.new letters) }
        ensures err { OnErr result (self.new ≡ self.old) }
    {
        if !self.fence.may_execute(command.from, command.generation) {
            self.refuse(command.from, xid, NOT_MASTER)
        } else if self.executes(command.number, command.settled) {
            self.execute(command, order)
        } else {
            self.report(command)
        }
    }

    /// Whether a number will be carried out, once the results below another have gone.
    fn executes(&self, number: u64, settled: u64) -> bool
        ensures { result ≡ is_execute (offer_of (without_results_below self.now.results settled) number) }
    {
        let executed = self.results.executed();
        let kept = self.results.kept();
        let gone = settled.min(executed).saturating_sub(executed - kept);
        number == executed && kept - gone < MOST_KEPT as u64
    }

    /// A command that isn't carried out: a repeated one is told its result.
    fn report(&mut self, command: Issue) -> Result<Said<SwitchSays>, AllocError>
        ensures ok { IfOk result (λ letters. Turned (reported (settled_below self.old command.settled) command.from command.number (offer_of (settled_below self.old command.settled).results command.number)) self.new letters) }
        ensures err { OnErr result (self.new ≡ self.old) }
    {
        let life = self.life();
        let mut letters = Vec::with_capacity(self.alloc, 1)?;
        if let Offer::Repeat(outcome) = self.results.offer(command.number, command.settled) {
            letters.push_reserved(cmd_ack(command, life, outcome));
        }
        Ok(Items::from_vec(letters))
    }

    /// A command is carried out.
    fn execute(&mut self, command: Issue, order: Order) -> Result<Said<SwitchSays>, AllocError>
        requires { is_execute (offer_of (without_results_below self.old.results command.settled) command.number) ≡ true }
        ensures ok { IfOk result (λ letters. Turned (executes (settled_below self.old command.settled) command.from command.generation command.number order) self.new letters) }
        ensures err { OnErr result (self.new ≡ self.old) }
    {
        match order {
            Order::FlowMod(change) => self.change_table(command, change),
            Order::PacketOut(out) => self.send_packet(command, out),
        }
    }

    /// A FLOW_MOD is carried out.
    fn change_table(
        &mut self,
        command: Issue,
        change: Boxed<FlowMod>,
    ) -> Result<Said<SwitchSays>, AllocError>
        requires { is_execute (offer_of (without_results_below self.old.results command.settled) command.number) ≡ true }
        ensures ok { IfOk result (λ letters. Turned (executes (settled_below self.old command.settled) command.from command.generation command.number (orders.FlowMod change)) self.new letters) }
        ensures err { OnErr result (self.new ≡ self.old) }
    {
        let life = self.life();
        let ports = self.ports();
        let mut letters = Vec::with_capacity(self.alloc, 1)?;
        self.executed.reserve(1)?;
        let outcome = change_table(&mut self.table, change.get(), ports)?;
        letters.push_reserved(cmd_ack(command, life, outcome));
        count(&mut self.results, command.settled, outcome);
        self.executed
            .push_reserved(executed(command, life, Order::FlowMod(change)));
        Ok(Items::from_vec(letters))
    }

    /// A PACKET_OUT is carried out.
    fn send_packet(
        &mut self,
        command: Issue,
        out: PacketOut,
    ) -> Result<Said<SwitchSays>, AllocError>
        requires { is_execute (offer_of (without_results_below self.old.results command.settled) command.number) ≡ true }
        ensures ok { IfOk result (λ letters. Turned (executes (settled_below self.old command.settled) command.from command.generation command.number (orders.PacketOut out)) self.new letters) }
        ensures err { OnErr result (self.new ≡ self.old) }
    {
        let life = self.life();
        let outcome = self.packet_result(&out);
        let mut draft = self.sent_packet(&out, outcome)?;
        draft.say(cmd_ack(command, life, outcome))?;
        self.executed.reserve(1)?;
        let parts = draft.into_parts();
        self.sent = parts.sent;
        count(&mut self.results, command.settled, outcome);
        self.executed
            .push_reserved(executed(command, life, Order::PacketOut(out)));
        Ok(Items::from_vec(parts.letters))
    }

    /// The result of a PACKET_OUT: the first of its faults.
    fn packet_result(&self, out: &PacketOut) -> Outcome
        ensures result { result ≡ result_of self.now (orders.PacketOut out.now) }
        ensures kept { result ≢ outcomes.Cleared }
    {
        if out.buffer != NO_BUFFER {
            failed(UNKNOWN_BUFFER)
        } else if self.has_bad_output(out.actions.as_slice()) {
            failed(BAD_OUT_PORT)
        } else if !is_frame_of(out.payload.as_slice()) {
            failed(BAD_PACKET)
        } else {
            Outcome::Done
        }
    }

    /// Whether a PACKET_OUT may have an output.
    fn is_output(&self, output: u32) -> bool
        ensures { result ≡ is_output self.now output }
    {
        self.is_port(output) || output == IN_PORT || output == FLOOD || output == ALL_PORTS
    }

    /// Whether one of these outputs is one that a PACKET_OUT may not have.
    fn has_bad_output(&self, outputs: &[u32]) -> bool
        ensures { result ≡ list_any (λ output. not (is_output self.now output)) outputs.now }
    {
        outputs.iter().any(|&output| !self.is_output(output))
    }

    /// What a PACKET_OUT sends, by its result.
    fn sent_packet(&self, out: &PacketOut, outcome: Outcome) -> Result<Draft, AllocError>
        ensures { IfOk result (λ d. d ≡ sent_as self.now outcome out.now (draft_of self.now)) }
    {
        let mut draft = self.draft();
        match outcome {
            Outcome::Done => {
                self.send_all(
                    &mut draft,
                    out.in_port,
                    &out.payload,
                    out.actions.as_slice(),
                )?;
                Ok(draft)
            }
            Outcome::Failed { .. } | Outcome::Cleared => Ok(draft),
        }
    }

    /// The results below a number go.
    pub(super) fn settle(&mut self, through: u64)
        ensures { self.new ≡ settled_below self.old through }
    {
        self.results.clear(through);
    }
}

/// An error as a result.
fn failed(why: Refusal) -> Outcome
    ensures { result ≡ failed_by why }
{
    Outcome::Failed {
        kind: why.kind,
        code: why.code,
    }
}

/// How a fault of a FLOW_MOD is told. Want of memory is none.
fn outcome_of(fault: TableFault) -> Outcome
    ensures result { result ≡ fault_result fault }
    ensures kept { result ≢ outcomes.Cleared }
{
    match fault {
        TableFault::BadTable => failed(BAD_TABLE),
        TableFault::BadFlags => failed(BAD_FLAGS),
        TableFault::BadBuffer => failed(UNKNOWN_BUFFER),
        TableFault::BadPort => failed(BAD_OUT_PORT),
        TableFault::TableFull => failed(TABLE_FULL),
        TableFault::OutOfMemory => Outcome::Done,
    }
}

/// Changes a table as a FLOW_MOD says, and tells its result.
fn change_table(table: &mut Table, change: &FlowMod, ports: u32) -> Result<Outcome, AllocError>
    ensures result { IfOk result (λ outcome. outcome ≡ table_result (table_fault (rows_in table.old) ports change.now)) }
    ensures table { IfOk result (λ outcome. table.new ≡ table_as outcome table.old change.now) }
    ensures kept { IfOk result (λ outcome. outcome ≢ outcomes.Cleared) }
    ensures err { OnErr result (table.new ≡ table.old) }
{
    match table.apply(change, ports) {
        Ok(()) => Ok(Outcome::Done),
        Err(TableFault::OutOfMemory) => Err(AllocError),
        Err(fault) => Ok(outcome_of(fault)),
    }
}

/// Counts a command beside its result, once the results below a number have gone.
fn count(results: &mut CommandBuffer, settled: u64, outcome: Outcome)
    requires room { length (without_results_below results.old settled).outcomes < most_kept }
    requires countable { results.old.executed < 2 ^ 64 - 1 }
    requires result { outcome ≢ outcomes.Cleared }
    ensures { results.new ≡ with_result (without_results_below results.old settled) outcome }
{
    results.clear(settled);
    results.done(outcome);
}

/// A command as the switch keeps it.
fn executed(command: Issue, life: u32, order: Order) -> Executed
    ensures { result ≡ record { life = life; number = command.number; generation = command.generation; from = command.from; order = order } }
{
    Executed {
        life,
        number: command.number,
        generation: command.generation,
        from: command.from,
        order,
    }
}

/// The letter that tells a result.
fn cmd_ack(command: Issue, life: u32, outcome: Outcome) -> Letter<SwitchSays>
    ensures { result ≡ letter_of_result command.from life command.number outcome }
{
    to_controller(
        command.from,
        0,
        Spoken::Ravana(Extension::CmdAck {
            life,
            number: command.number,
            outcome,
        }),
    )
}
