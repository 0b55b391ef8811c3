//! The messages of OpenFlow 1.3 and of Ravana's extension, and the parts of messages.
ghost use Rattle.std.specs.Prelude.{◌≡◌, IfOk};

use crate::actions::Actions;
use crate::boxed::Boxed;
use crate::items::Octets;
use std::alloc::AllocError;

/// An Ethernet address of 48 bits, and which of its bits count. Without a mask all 48 do.
#[derive(Clone, Copy, PartialEq, Eq, PartialOrd, Ord, Debug)]
pub struct Masked48 {
    pub value: u64,
    pub mask: u64,
}

/// An IPv4 address, and which of its bits count. Without a mask all 32 do.
#[derive(Clone, Copy, PartialEq, Eq, PartialOrd, Ord, Debug)]
pub struct Masked32 {
    pub value: u32,
    pub mask: u32,
}

/// What a row asks of a frame (OpenFlow 1.3, 7.2.3). A field that is left out asks for nothing.
#[derive(Clone, Copy, PartialEq, Eq, PartialOrd, Ord, Debug)]
pub struct Match {
    pub in_port: Option<u32>,
    pub eth_dst: Option<Masked48>,
    pub eth_src: Option<Masked48>,
    pub eth_type: Option<u16>,
    pub ip_proto: Option<u8>,
    pub ipv4_src: Option<Masked32>,
    pub ipv4_dst: Option<Masked32>,
    pub tcp_src: Option<u16>,
    pub tcp_dst: Option<u16>,
    pub udp_src: Option<u16>,
    pub udp_dst: Option<u16>,
}

/// What a frame has: its header fields, and the port that it came in by.
#[derive(Clone, Copy, PartialEq, Eq, Debug)]
pub struct Fields {
    pub in_port: Option<u32>,
    pub eth_dst: Option<u64>,
    pub eth_src: Option<u64>,
    pub eth_type: Option<u16>,
    pub ip_proto: Option<u8>,
    pub ipv4_src: Option<u32>,
    pub ipv4_dst: Option<u32>,
    pub tcp_src: Option<u16>,
    pub tcp_dst: Option<u16>,
    pub udp_src: Option<u16>,
    pub udp_dst: Option<u16>,
}

/// A row of a flow table (OpenFlow 1.3, 5.2).
#[derive(Drop)]
pub struct Row {
    pub priority: u16,
    pub cookie: u64,
    pub matching: Match,
    pub actions: Actions,
}

impl Clone for Row {
    ghost is_clone = { λ x y. y ≡ x };

    fn clone(&self) -> Result<Row, AllocError> {
        Ok(Row {
            actions: self.actions.clone()?,
            ..*self
        })
    }
}

/// What a FLOW_MOD does with the table (OpenFlow 1.3, 6.4).
#[derive(Clone, Copy, PartialEq, Eq, Debug)]
pub enum FlowCommand {
    Add,
    Modify,
    ModifyStrict,
    Delete,
    DeleteStrict,
}

/// A FLOW_MOD (OpenFlow 1.3, 7.3.4.1). Its one instruction applies the actions.
#[derive(Drop)]
pub struct FlowMod {
    pub cookie: u64,
    pub cookie_mask: u64,
    pub table: u8,
    pub command: FlowCommand,
    pub idle: u16,
    pub hard: u16,
    pub priority: u16,
    pub buffer: u32,
    pub out_port: u32,
    pub out_group: u32,
    pub flags: u16,
    pub matching: Match,
    pub actions: Actions,
}

impl Clone for FlowMod {
    ghost is_clone = { λ x y. y ≡ x };

    fn clone(&self) -> Result<FlowMod, AllocError> {
        Ok(FlowMod {
            actions: self.actions.clone()?,
            ..*self
        })
    }
}

/// A PACKET_OUT (OpenFlow 1.3, 7.3.7): a frame to be sent out as its actions say.
#[derive(Drop)]
pub struct PacketOut {
    pub buffer: u32,
    pub in_port: u32,
    pub actions: Actions,
    pub payload: Octets,
}

impl Clone for PacketOut {
    ghost is_clone = { λ x y. y ≡ x };

    fn clone(&self) -> Result<PacketOut, AllocError> {
        Ok(PacketOut {
            actions: self.actions.clone()?,
            payload: self.payload.copy()?,
            ..*self
        })
    }
}

/// A PACKET_IN (OpenFlow 1.3, 7.4.1): reason 0 is NO_MATCH, 1 is ACTION. The whole frame is there.
#[derive(Drop)]
pub struct PacketIn {
    pub reason: u8,
    pub in_port: u32,
    pub cookie: u64,
    pub payload: Octets,
}

impl Clone for PacketIn {
    ghost is_clone = { λ x y. y ≡ x };

    fn clone(&self) -> Result<PacketIn, AllocError> {
        Ok(PacketIn {
            payload: self.payload.copy()?,
            ..*self
        })
    }
}

/// A PORT_STATUS (OpenFlow 1.3, 7.4.3): reason 0 is ADD, 1 is DELETE, 2 is MODIFY.
#[derive(Clone, Copy, PartialEq, Eq, Debug)]
pub struct PortStatus {
    pub reason: u8,
    pub port: u32,
    pub up: bool,
}

/// A FLOW_REMOVED (OpenFlow 1.3, 7.4.2): reason 0 is IDLE_TIMEOUT, 1 is HARD_TIMEOUT, 2 is DELETE, 3 is
/// GROUP_DELETE. `duration` is in seconds; `packets` and `octets` are what the row was chosen for.
#[derive(Clone, Copy, PartialEq, Eq, Debug)]
pub struct FlowRemoved {
    pub cookie: u64,
    pub priority: u16,
    pub reason: u8,
    pub duration: u32,
    pub idle: u16,
    pub hard: u16,
    pub packets: u64,
    pub octets: u64,
    pub matching: Match,
}

/// What an event tells of.
#[derive(Drop)]
pub enum Happening {
    PacketIn(PacketIn),
    PortStatus(PortStatus),
    FlowRemoved(Boxed<FlowRemoved>),
}

impl Clone for Happening {
    ghost is_clone = { λ x y. y ≡ x };

    fn clone(&self) -> Result<Happening, AllocError> {
        Ok(match self {
            Happening::PacketIn(packet) => Happening::PacketIn(packet.clone()?),
            Happening::PortStatus(status) => Happening::PortStatus(*status),
            Happening::FlowRemoved(removed) => Happening::FlowRemoved(removed.copied()?),
        })
    }
}

/// An event of a switch (Ravana, 4.1): the number counts the events of a life of the switch from 0.
#[derive(Drop)]
pub struct Event {
    pub switch: u8,
    pub life: u32,
    pub number: u64,
    pub what: Happening,
}

impl Clone for Event {
    ghost is_clone = { λ x y. y ≡ x };

    fn clone(&self) -> Result<Event, AllocError> {
        Ok(Event {
            what: self.what.clone()?,
            ..*self
        })
    }
}

/// What a command has a switch do.
#[derive(Drop)]
pub enum Order {
    FlowMod(Boxed<FlowMod>),
    PacketOut(PacketOut),
}

impl Clone for Order {
    ghost is_clone = { λ x y. y ≡ x };

    fn clone(&self) -> Result<Order, AllocError> {
        Ok(match self {
            Order::FlowMod(change) => Order::FlowMod(change.cloned()?),
            Order::PacketOut(out) => Order::PacketOut(out.clone()?),
        })
    }
}

/// A command of an application to a switch.
#[derive(Drop)]
pub struct Command {
    pub switch: u8,
    pub order: Order,
}

impl Clone for Command {
    ghost is_clone = { λ x y. y ≡ x };

    fn clone(&self) -> Result<Command, AllocError> {
        Ok(Command {
            order: self.order.clone()?,
            ..*self
        })
    }
}

/// What became of a command. `Failed` has the type and code of an OpenFlow error; the result of a
/// `Cleared` one is no longer kept.
#[derive(Clone, Copy, PartialEq, Eq, Debug)]
pub enum Outcome {
    Done,
    Failed { kind: u16, code: u16 },
    Cleared,
}

/// A message of OpenFlow 1.3.
#[derive(Drop)]
pub enum OfMessage {
    Hello,
    Error { kind: u16, code: u16, head: Octets },
    EchoRequest { body: Octets },
    EchoReply { body: Octets },
    Experimenter { body: Octets },
    FeaturesRequest,
    FeaturesReply { datapath: u64 },
    PacketIn(PacketIn),
    FlowRemoved(Boxed<FlowRemoved>),
    PortStatus(PortStatus),
    PacketOut(PacketOut),
    FlowMod(Boxed<FlowMod>),
    BarrierRequest,
    BarrierReply,
    RoleRequest { role: u32, generation: u64 },
    RoleReply { role: u32, generation: u64 },
}

impl Clone for OfMessage {
    ghost is_clone = { λ x y. y ≡ x };

    fn clone(&self) -> Result<OfMessage, AllocError> {
        Ok(match self {
            OfMessage::Hello => OfMessage::Hello,
            OfMessage::Error { kind, code, head } => OfMessage::Error {
                kind: *kind,
                code: *code,
                head: head.copy()?,
            },
            OfMessage::EchoRequest { body } => OfMessage::EchoRequest { body: body.copy()? },
            OfMessage::EchoReply { body } => OfMessage::EchoReply { body: body.copy()? },
            OfMessage::Experimenter { body } => OfMessage::Experimenter { body: body.copy()? },
            OfMessage::FeaturesRequest => OfMessage::FeaturesRequest,
            OfMessage::FeaturesReply { datapath } => OfMessage::FeaturesReply {
                datapath: *datapath,
            },
            OfMessage::PacketIn(packet) => OfMessage::PacketIn(packet.clone()?),
            OfMessage::FlowRemoved(removed) => OfMessage::FlowRemoved(removed.copied()?),
            OfMessage::PortStatus(status) => OfMessage::PortStatus(*status),
            OfMessage::PacketOut(out) => OfMessage::PacketOut(out.clone()?),
            OfMessage::FlowMod(change) => OfMessage::FlowMod(change.cloned()?),
            OfMessage::BarrierRequest => OfMessage::BarrierRequest,
            OfMessage::BarrierReply => OfMessage::BarrierReply,
            OfMessage::RoleRequest { role, generation } => OfMessage::RoleRequest {
                role: *role,
                generation: *generation,
            },
            OfMessage::RoleReply { role, generation } => OfMessage::RoleReply {
                role: *role,
                generation: *generation,
            },
        })
    }
}

/// A message of Ravana's extension of OpenFlow (Ravana, 4.1 and 4.2), sent as an EXPERIMENTER.
#[derive(Drop)]
pub enum Extension {
    Event {
        life: u32,
        number: u64,
        what: Happening,
    },
    EventAck {
        life: u32,
        through: u64,
    },
    Command {
        life: u32,
        generation: u64,
        number: u64,
        settled: u64,
        order: Order,
    },
    CmdAck {
        life: u32,
        number: u64,
        outcome: Outcome,
    },
    Clear {
        life: u32,
        through: u64,
    },
}

impl Clone for Extension {
    ghost is_clone = { λ x y. y ≡ x };

    fn clone(&self) -> Result<Extension, AllocError> {
        Ok(match self {
            Extension::Event { life, number, what } => Extension::Event {
                life: *life,
                number: *number,
                what: what.clone()?,
            },
            Extension::EventAck { life, through } => Extension::EventAck {
                life: *life,
                through: *through,
            },
            Extension::Command {
                life,
                generation,
                number,
                settled,
                order,
            } => Extension::Command {
                life: *life,
                generation: *generation,
                number: *number,
                settled: *settled,
                order: order.clone()?,
            },
            Extension::CmdAck {
                life,
                number,
                outcome,
            } => Extension::CmdAck {
                life: *life,
                number: *number,
                outcome: *outcome,
            },
            Extension::Clear { life, through } => Extension::Clear {
                life: *life,
                through: *through,
            },
        })
    }
}

/// What a controller and a switch say to each other.
#[derive(Drop)]
pub enum Spoken {
    Plain(OfMessage),
    Ravana(Extension),
}

impl Clone for Spoken {
    ghost is_clone = { λ x y. y ≡ x };

    fn clone(&self) -> Result<Spoken, AllocError> {
        Ok(match self {
            Spoken::Plain(message) => Spoken::Plain(message.clone()?),
            Spoken::Ravana(message) => Spoken::Ravana(message.clone()?),
        })
    }
}

/// A command that a switch has carried out, with the generation and the controller that sent it.
#[derive(Drop)]
pub struct Executed {
    pub life: u32,
    pub number: u64,
    pub generation: u64,
    pub from: u8,
    pub order: Order,
}

impl Clone for Executed {
    ghost is_clone = { λ x y. y ≡ x };

    fn clone(&self) -> Result<Executed, AllocError> {
        Ok(Executed {
            order: self.order.clone()?,
            ..*self
        })
    }
}

impl Event {
    /// An equal event.
    pub fn copy(&self) -> Result<Event, AllocError>
        ensures { IfOk result (λ copied. copied ≡ self.now) }
    {
        self.clone()
    }
}

impl Happening {
    /// An equal happening.
    pub fn copy(&self) -> Result<Happening, AllocError>
        ensures { IfOk result (λ copied. copied ≡ self.now) }
    {
        self.clone()
    }
}

impl Order {
    /// An equal order.
    pub fn copy(&self) -> Result<Order, AllocError>
        ensures { IfOk result (λ copied. copied ≡ self.now) }
    {
        self.clone()
    }
}

impl Command {
    /// An equal command.
    pub fn copy(&self) -> Result<Command, AllocError>
        ensures { IfOk result (λ copied. copied ≡ self.now) }
    {
        self.clone()
    }
}

impl Spoken {
    /// An equal message.
    pub fn copy(&self) -> Result<Spoken, AllocError>
        ensures { IfOk result (λ copied. copied ≡ self.now) }
    {
        self.clone()
    }
}

impl OfMessage {
    /// An equal message.
    pub fn copy(&self) -> Result<OfMessage, AllocError>
        ensures { IfOk result (λ copied. copied ≡ self.now) }
    {
        self.clone()
    }
}

impl Extension {
    /// An equal message.
    pub fn copy(&self) -> Result<Extension, AllocError>
        ensures { IfOk result (λ copied. copied ≡ self.now) }
    {
        self.clone()
    }
}

impl Row {
    /// An equal row.
    pub fn copy(&self) -> Result<Row, AllocError>
        ensures { IfOk result (λ copied. copied ≡ self.now) }
    {
        self.clone()
    }
}

impl Executed {
    /// An equal command.
    pub fn copy(&self) -> Result<Executed, AllocError>
        ensures { IfOk result (λ copied. copied ≡ self.now) }
    {
        self.clone()
    }
}
