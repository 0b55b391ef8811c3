//! What a switch makes of what controllers say (OpenFlow 1.3, 6.3.5, 7.3 and 7.5; Ravana, 4.1 and 4.2).
ghost use Rattle.std.specs.Prelude.{◌≡◌, ◌≤◌, ◌+◌, [], true, nat_eq, ◌&&◌, vec_len, vec_capacity, IfOk, OnErr};
ghost use Rattle.of_types.specs.declared.message.Spoken.TheVariants.{Plain};
ghost use Rattle.of_switch.specs.State.{Turned, answers, switch_refuses, life_of as present_life};
ghost use Rattle.of_switch.specs.Rules.{on_role_request, switch_on_plain, on_own_life, life_said, switch_on_extension, on_malformed, asks_memory};
ghost use Rattle.of_switch.specs.Drafts.{role_letters, told_events};

use super::Switch;
use super::commands::Issue;
use crate::letters::{error_letter, one_letter, push_events, to_controller};
use crate::says::SwitchSays;
use journal::{Actor, Letter, Said};
use of_types::{
    BAD_ROLE, BAD_TYPE, Extension, Items, MASTER, NOT_PERMITTED, Octets, OfMessage, Refusal,
    STALE_ROLE, Spoken,
};
use role_fence::RoleAnswer;
use std::alloc::{AllocError, Global};

impl Switch {
    /// A message of OpenFlow: a request is answered. An order is taken only as a command.
    pub(super) fn on_plain(
        &mut self,
        from: u8,
        xid: u32,
        message: OfMessage,
    ) -> Result<Said<SwitchSays>, AllocError>
        ensures ok { IfOk result (λ letters. Turned (switch_on_plain self.old from xid message) self.new letters) }
        ensures err { OnErr result (self.new ≡ self.old) }
    {
        match message {
            OfMessage::Hello | OfMessage::Error { .. } | OfMessage::EchoReply { .. } => {
                Ok(Items::new(self.alloc))
            }
            OfMessage::EchoRequest { body } => {
                self.answer(from, xid, OfMessage::EchoReply { body })
            }
            OfMessage::FeaturesRequest => {
                let datapath = u64::from(self.number());
                self.answer(from, xid, OfMessage::FeaturesReply { datapath })
            }
            OfMessage::BarrierRequest => self.answer(from, xid, OfMessage::BarrierReply),
            OfMessage::RoleRequest { role, generation } => {
                self.on_role_request(from, xid, role, generation)
            }
            OfMessage::PacketOut(_) | OfMessage::FlowMod(_) => self.refuse(
                from,
                xid,
                NOT_PERMITTED,
            ),
            OfMessage::Experimenter { .. }
            | OfMessage::FeaturesReply { .. }
            | OfMessage::PacketIn(_)
            | OfMessage::FlowRemoved(_)
            | OfMessage::PortStatus(_)
            | OfMessage::BarrierReply
            | OfMessage::RoleReply { .. } => self.refuse(from, xid, BAD_TYPE),
        }
    }

    /// A message of the extension. One of another life is dropped.
    #[inline(always)]
    pub(super) fn on_extension(
        &mut self,
        from: u8,
        xid: u32,
        message: Extension,
    ) -> Result<Said<SwitchSays>, AllocError>
        ensures ok { IfOk result (λ letters. Turned (switch_on_extension self.old from xid message) self.new letters) }
        ensures err { OnErr result (self.new ≡ self.old) }
        ensures memory { OnErr result ((nat_eq (life_said message) (present_life self.old) && asks_memory self.old message) ≡ true) }
    {
        if life_of(&message) == self.life() {
            self.on_own_life(from, xid, message)
        } else {
            Ok(Items::new(self.alloc))
        }
    }

    /// A message of the extension, of the switch's life.
    fn on_own_life(
        &mut self,
        from: u8,
        xid: u32,
        message: Extension,
    ) -> Result<Said<SwitchSays>, AllocError>
        ensures ok { IfOk result (λ letters. Turned (on_own_life self.old from xid message) self.new letters) }
        ensures err { OnErr result (self.new ≡ self.old) }
        ensures memory { OnErr result (asks_memory self.old message ≡ true) }
    {
        match message {
            Extension::Event { .. } | Extension::CmdAck { .. } => self.refuse(from, xid, BAD_TYPE),
            Extension::EventAck { through, .. } => self.on_event_ack(through),
            Extension::Command {
                generation,
                number,
                settled,
                order,
                ..
            } => {
                let command = Issue {
                    from,
                    generation,
                    number,
                    settled,
                };
                self.on_command(command, xid, order)
            }
            Extension::Clear { through, .. } => {
                self.settle(through);
                Ok(Items::new(self.alloc))
            }
        }
    }

    /// A body that spells no message: a controller is told why.
    pub(super) fn on_malformed(
        &self,
        from: Actor,
        why: Refusal,
        xid: u32,
        head: Octets,
    ) -> Result<Said<SwitchSays>, AllocError>
        ensures { IfOk result (λ letters. Turned (on_malformed self.now from why.kind why.code xid head) self.now letters) }
    {
        match from {
            Actor::Controller(controller) => one_letter(
                self.alloc,
                error_letter(controller, xid, why, head),
            ),
            Actor::Switch(_) => Ok(Items::new(self.alloc)),
        }
    }

    /// A controller asks for a role. A master is told the first events, after the reply.
    fn on_role_request(
        &mut self,
        from: u8,
        xid: u32,
        role: u32,
        generation: u64,
    ) -> Result<Said<SwitchSays>, AllocError>
        ensures ok { IfOk result (λ letters. Turned (on_role_request self.old from xid role generation) self.new letters) }
        ensures err { OnErr result (self.new ≡ self.old) }
    {
        let events = self.events_for(from, role)?;
        let letters = Vec::with_capacity(self.alloc, events.len() + 1)?;
        let answer = self.fence.role(from, role, generation);
        Ok(role_answered(self.alloc, letters, events, from, xid, answer))
    }

    /// The letters of events for a controller that asks for a role: the first ones for a master.
    fn events_for(&self, from: u8, role: u32) -> Result<Vec<Letter<SwitchSays>>, AllocError>
        ensures { IfOk result (λ letters. letters.items ≡ told_events self.now from role) }
    {
        let mut letters = Vec::new(self.alloc);
        if role == MASTER {
            push_events(&mut letters, Some(from), self.first_held())?;
        }
        Ok(letters)
    }

    /// An answer, with the number of its request.
    fn answer(&self, from: u8, xid: u32, message: OfMessage) -> Result<Said<SwitchSays>, AllocError>
        ensures { IfOk result (λ letters. Turned (answers self.now from xid (Plain message)) self.now letters) }
    {
        one_letter(self.alloc, to_controller(from, xid, Spoken::Plain(message)))
    }

    /// An ERROR, with the number of its request.
    pub(super) fn refuse(
        &self,
        from: u8,
        xid: u32,
        why: Refusal,
    ) -> Result<Said<SwitchSays>, AllocError>
        ensures { IfOk result (λ letters. Turned (switch_refuses self.now from xid why) self.now letters) }
    {
        let head = Items::new(self.alloc);
        one_letter(self.alloc, error_letter(from, xid, why, head))
    }
}

/// The letters for what the fence answers. There is room for them.
fn role_answered(
    alloc: Global,
    mut letters: Vec<Letter<SwitchSays>>,
    mut events: Vec<Letter<SwitchSays>>,
    from: u8,
    xid: u32,
    answer: RoleAnswer,
) -> Said<SwitchSays>
    requires none { letters.items ≡ [] }
    requires room { vec_len events + 1 ≤ vec_capacity letters }
    ensures { result ≡ role_letters from xid answer events.items }
{
    match answer {
        RoleAnswer::Reply { role, generation } => {
            letters.push_reserved(to_controller(
                from,
                xid,
                Spoken::Plain(OfMessage::RoleReply { role, generation }),
            ));
            let _ = letters.append(&mut events);
        }
        RoleAnswer::Stale { .. } => letters.push_reserved(error_letter(
            from,
            xid,
            STALE_ROLE,
            Items::new(alloc),
        )),
        RoleAnswer::BadRole => letters.push_reserved(error_letter(
            from,
            xid,
            BAD_ROLE,
            Items::new(alloc),
        )),
    }
    Items::from_vec(letters)
}

/// The life that a message of the extension names.
fn life_of(message: &Extension) -> u32
    ensures { result ≡ life_said message.now }
{
    match message {
        Extension::Event { life, .. }
        | Extension::EventAck { life, .. }
        | Extension::Command { life, .. }
        | Extension::CmdAck { life, .. }
        | Extension::Clear { life, .. } => *life,
    }
}
