//! Writing a message in its one form: its numbers are made in fronts, and each is added to a list at once.
ghost use Rattle.std.specs.Prelude.{◌≡◌, ◌≤◌, ◌<◌, ◌+◌, ◌-◌, ◌^◌, ◌++◌, [], length, IfOk, OnOk};
ghost use Rattle.of_types.specs.Valid.{IsValidPlain};
ghost use Rattle.of_types.specs.declared.message.OfMessage.TheVariants as plain;
ghost use Rattle.of_types.specs.Sizes.{plain_size, instruction_size};
ghost use Rattle.of_messages.specs.Grammar.{Spells};
ghost use Rattle.of_bytes.specs.Numbers.{two};
ghost use Rattle.of_messages.specs.Canonical.{max_len, action, actions_of, apply_front, instruction_of, packet_in_front, in_port_front, flow_removed_front, flow_removed_times, flow_removed_counts, port_state, port_status_body, packet_out_front, command_number, flow_mod_cookies, flow_mod_times, flow_mod_filter, role_body, error_body, features_body, plain_type, header, framed, canonical};

use crate::fitting::message_fits;
use of_bytes::{Front, eight, four, long_length, one, two, u32_fits, zeros};
use of_match::match_front;
use of_types::{
    APPLY_ACTIONS, FlowCommand, FlowMod, FlowRemoved, LINK_DOWN, MATCH_OF_FIELDS, NO_BUFFER,
    OPENFLOW_BASIC, OUTPUT, OUTPUT_LENGTH, Octets, OfMessage, PacketIn, PacketOut, PortStatus,
    TO_CONTROLLER, VERSION, WHOLE_FRAME, field_number, flow_command, message_type, size_of_match,
    size_of_plain,
};
use std::alloc::{AllocError, Global};

/// An empty list with room for so many bytes.
pub fn with_room(alloc: Global, len: usize) -> Result<Octets, AllocError>
    ensures { IfOk result (λ out. out ≡ []) }
{
    Ok(Octets::from_vec(Vec::with_capacity(alloc, len)?))
}

/// A size as a length. The greatest number stands for all that pass it, and there is no room for as many bytes.
pub fn exact_len(size: u64) -> Result<usize, AllocError>
    ensures same { IfOk result (λ len. len ≡ size) }
    ensures small { IfOk result (λ len. len < 2 ^ 64 - 1) }
{
    if size == u64::MAX {
        return Err(AllocError);
    }
    Ok(size as usize)
}

/// The bytes of a header.
const HEADER: usize = 8;

/// Puts the header of a message of so many bytes.
#[tactic(auto, unfolding(crate::specs::Canonical::header))]
pub fn put_header<const N: usize>(front: &mut Front<N>, kind: u8, len: usize, xid: u32)
    requires { length front.old + 8 ≤ N }
    ensures bytes { front.new ≡ front.old ++ header kind len xid }
    ensures len { length front.new ≡ length front.old + 8 }
{
    front.put(one(VERSION));
    front.put(one(kind));
    front.put(long_length(len));
    front.put(four(xid));
}

/// Adds a message with its header.
#[tactic(auto, using(crate::proofs::Fronts::framed_put))]
fn put_framed(out: &mut Octets, kind: u8, xid: u32, body: &[u8]) -> Result<(), AllocError>
    ensures { OnOk result (out.new ≡ out.old ++ framed kind xid body.now) }
{
    let mut front = Front::<HEADER>::new();
    put_header(&mut front, kind, HEADER + body.len(), xid);
    out.append(front.as_slice())?;
    out.append(body)?;
    Ok(())
}

#[tactic(auto, unfolding(crate::specs::Canonical::max_len))]
fn max_len(port: u32) -> u16
    ensures { result ≡ max_len port }
{
    if port == TO_CONTROLLER {
        WHOLE_FRAME
    } else {
        0
    }
}

#[tactic(auto, unfolding(crate::specs::Canonical::action))]
fn action(port: u32) -> Front<16>
    ensures { result ≡ action port }
{
    let mut front = Front::new();
    front.put(two(OUTPUT));
    front.put(two(OUTPUT_LENGTH));
    front.put(four(port));
    front.put(two(max_len(port)));
    front.put(zeros::<6>());
    front
}

/// Adds outputs to ports, in order.
#[tactic(auto, unfolding(crate::specs::Canonical::actions_of))]
fn put_actions(out: &mut Octets, ports: &[u32]) -> Result<(), AllocError>
    ensures { OnOk result (out.new ≡ out.old ++ actions_of ports.now) }
{
    for port in ports {
        out.append(action(*port).as_slice())?;
    }
    Ok(())
}

/// How many bytes the outputs take. For more than a number tells there is no room.
#[tactic(auto, using(crate::proofs::Written::actions_size))]
fn actions_len(ports: &[u32]) -> Result<usize, AllocError>
    ensures { IfOk result (λ len. len ≡ length (actions_of ports.now)) }
{
    ports
        .len()
        .checked_mul(usize::from(OUTPUT_LENGTH))
        .ok_or(AllocError)
}

/// Outputs to ports, in order.
pub fn actions_of(alloc: Global, ports: &[u32]) -> Result<Octets, AllocError>
    ensures { IfOk result (λ bytes. bytes ≡ actions_of ports.now) }
{
    let mut out = with_room(alloc, actions_len(ports)?)?;
    put_actions(&mut out, ports)?;
    Ok(out)
}

#[tactic(auto, unfolding(crate::specs::Canonical::apply_front))]
fn apply_front(len: usize) -> Front<8>
    ensures { result ≡ apply_front len }
{
    let mut front = Front::new();
    front.put(two(APPLY_ACTIONS));
    front.put(long_length(len));
    front.put(zeros::<4>());
    front
}

/// How many bytes the instruction takes that applies outputs to ports.
#[tactic(auto, using(crate::proofs::Written::actions_size))]
fn instruction_len(ports: &[u32]) -> Result<usize, AllocError>
    ensures { IfOk result (λ len. len ≡ instruction_size ports.now) }
{
    if ports.is_empty() {
        return Ok(0);
    }
    actions_len(ports)?.checked_add(APPLY).ok_or(AllocError)
}

/// The bytes of an instruction that stand before its actions.
const APPLY: usize = 8;

/// Adds the instruction, of so many bytes, that applies outputs to ports: none for no port.
#[tactic(auto, using(crate::proofs::Fronts::instruction_put), unfolding(crate::specs::Canonical::instruction_of))]
fn put_instruction(out: &mut Octets, ports: &[u32], len: usize) -> Result<(), AllocError>
    requires { len ≡ instruction_size ports.now }
    ensures { OnOk result (out.new ≡ out.old ++ instruction_of ports.now) }
{
    if ports.is_empty() {
        return Ok(());
    }
    out.append(apply_front(len).as_slice())?;
    put_actions(out, ports)?;
    Ok(())
}

/// The bytes of a PACKET_IN that stand before its frame.
const PACKET_IN: usize = 42;

#[tactic(auto, unfolding(crate::specs::Canonical::packet_in_front))]
fn put_packet_in_numbers(front: &mut Front<PACKET_IN>, packet: &PacketIn)
    requires { length front.old + 16 ≤ PACKET_IN }
    ensures bytes { front.new ≡ front.old ++ packet_in_front packet.now }
    ensures len { length front.new ≡ length front.old + 16 }
{
    front.put(four(NO_BUFFER));
    front.put(long_length(packet.payload.len()));
    front.put(one(packet.reason));
    front.put(one(0));
    front.put(eight(packet.cookie));
}

/// The match of a PACKET_IN asks for the port that the frame came in by.
#[tactic(auto, unfolding(crate::specs::Canonical::in_port_front))]
fn put_in_port(front: &mut Front<PACKET_IN>, port: u32)
    requires { length front.old + 18 ≤ PACKET_IN }
    ensures { front.new ≡ front.old ++ in_port_front port }
{
    front.put(two(MATCH_OF_FIELDS));
    front.put(two(IN_PORT_MATCH));
    front.put(two(OPENFLOW_BASIC));
    front.put(one(field_number::IN_PORT));
    front.put(one(IN_PORT_VALUE));
    front.put(four(port));
    front.put(zeros::<4>());
    front.put(zeros::<2>());
}

/// The bytes of a match of one port, without padding.
const IN_PORT_MATCH: u16 = 12;

/// The bytes of a port in a match.
const IN_PORT_VALUE: u8 = 4;

/// What stands before the frame of a PACKET_IN.
fn packet_in_front(xid: u32, packet: &PacketIn) -> Front<PACKET_IN>
    ensures { result ≡ header 10 (42 + length packet.now.payload) xid ++ (packet_in_front packet.now ++ in_port_front packet.now.in_port) }
{
    let mut front = Front::new();
    let len = PACKET_IN + packet.payload.as_slice().len();
    put_header(&mut front, message_type::PACKET_IN, len, xid);
    put_packet_in_numbers(&mut front, packet);
    put_in_port(&mut front, packet.in_port);
    front
}

/// Adds a PACKET_IN.
#[tactic(auto, using(crate::proofs::Fronts::packet_in_put))]
pub fn put_packet_in(out: &mut Octets, xid: u32, packet: &PacketIn) -> Result<(), AllocError>
    ensures { OnOk result (out.new ≡ out.old ++ canonical xid (plain.PacketIn packet.now)) }
{
    out.append(packet_in_front(xid, packet).as_slice())?;
    out.append(packet.payload.as_slice())?;
    Ok(())
}

/// The bytes of a FLOW_REMOVED that stand before its match.
const FLOW_REMOVED: usize = 48;

#[tactic(auto, unfolding(crate::specs::Canonical::flow_removed_front))]
fn put_flow_removed_front(front: &mut Front<FLOW_REMOVED>, removed: &FlowRemoved)
    requires { length front.old + 12 ≤ FLOW_REMOVED }
    ensures bytes { front.new ≡ front.old ++ flow_removed_front removed.now }
    ensures len { length front.new ≡ length front.old + 12 }
{
    front.put(eight(removed.cookie));
    front.put(two(removed.priority));
    front.put(one(removed.reason));
    front.put(one(0));
}

#[tactic(auto, unfolding(crate::specs::Canonical::flow_removed_times))]
fn put_flow_removed_times(front: &mut Front<FLOW_REMOVED>, removed: &FlowRemoved)
    requires { length front.old + 12 ≤ FLOW_REMOVED }
    ensures bytes { front.new ≡ front.old ++ flow_removed_times removed.now }
    ensures len { length front.new ≡ length front.old + 12 }
{
    front.put(four(removed.duration));
    front.put(zeros::<4>());
    front.put(two(removed.idle));
    front.put(two(removed.hard));
}

#[tactic(auto, unfolding(crate::specs::Canonical::flow_removed_counts))]
fn put_flow_removed_counts(front: &mut Front<FLOW_REMOVED>, removed: &FlowRemoved)
    requires { length front.old + 16 ≤ FLOW_REMOVED }
    ensures { front.new ≡ front.old ++ flow_removed_counts removed.now }
{
    front.put(eight(removed.packets));
    front.put(eight(removed.octets));
}

/// What stands before the match of a FLOW_REMOVED of so many bytes.
fn flow_removed_front(xid: u32, len: usize, removed: &FlowRemoved) -> Front<FLOW_REMOVED>
    ensures { result ≡ header 11 len xid ++ (flow_removed_front removed.now ++ (flow_removed_times removed.now ++ flow_removed_counts removed.now)) }
{
    let mut front = Front::new();
    put_header(&mut front, message_type::FLOW_REMOVED, len, xid);
    put_flow_removed_front(&mut front, removed);
    put_flow_removed_times(&mut front, removed);
    put_flow_removed_counts(&mut front, removed);
    front
}

/// Adds a FLOW_REMOVED.
#[tactic(auto, using(crate::proofs::Fronts::flow_removed_put))]
pub fn put_flow_removed(out: &mut Octets, xid: u32, removed: &FlowRemoved) -> Result<(), AllocError>
    ensures { OnOk result (out.new ≡ out.old ++ canonical xid (plain.FlowRemoved removed.now)) }
{
    let matching = match_front(&removed.matching);
    let matching = matching.as_slice();
    let len = FLOW_REMOVED + matching.len();
    out.append(flow_removed_front(xid, len, removed).as_slice())?;
    out.append(matching)?;
    Ok(())
}

#[tactic(auto, unfolding(crate::specs::Canonical::port_state))]
fn port_state(up: bool) -> u32
    ensures { result ≡ port_state up }
{
    if up { 0 } else { LINK_DOWN }
}

#[tactic(auto, unfolding(crate::specs::Canonical::port_status_body))]
fn port_status_body(status: &PortStatus) -> Front<72>
    ensures { result ≡ port_status_body status.now }
{
    let mut front = Front::new();
    front.put(one(status.reason));
    front.put(zeros::<7>());
    front.put(four(status.port));
    front.put(zeros::<28>());
    front.put(zeros::<4>());
    front.put(four(port_state(status.up)));
    front.put(zeros::<24>());
    front
}

/// The bytes of a PORT_STATUS.
const PORT_STATUS: usize = 80;

/// Adds a PORT_STATUS.
#[tactic(auto, unfolding(crate::specs::Canonical::canonical))]
pub fn put_port_status(out: &mut Octets, xid: u32, status: &PortStatus) -> Result<(), AllocError>
    ensures { OnOk result (out.new ≡ out.old ++ canonical xid (plain.PortStatus status.now)) }
{
    put_framed(
        out,
        message_type::PORT_STATUS,
        xid,
        port_status_body(status).as_slice(),
    )
}

/// The bytes of a PACKET_OUT that stand before its actions.
const PACKET_OUT: usize = 24;

#[tactic(auto, unfolding(crate::specs::Canonical::packet_out_front))]
fn put_packet_out_numbers(front: &mut Front<PACKET_OUT>, packet: &PacketOut, len: usize)
    requires { length front.old + 16 ≤ PACKET_OUT }
    ensures { front.new ≡ front.old ++ packet_out_front packet.now len }
{
    front.put(four(packet.buffer));
    front.put(four(packet.in_port));
    front.put(long_length(len));
    front.put(zeros::<6>());
}

/// Adds a PACKET_OUT.
#[tactic(auto, using(crate::proofs::Fronts::packet_out_put))]
pub fn put_packet_out(out: &mut Octets, xid: u32, packet: &PacketOut) -> Result<(), AllocError>
    ensures { OnOk result (out.new ≡ out.old ++ canonical xid (plain.PacketOut packet.now)) }
{
    let (ports, payload) = (packet.actions.as_slice(), packet.payload.as_slice());
    let actions = actions_len(ports)?;
    let len = actions
        .checked_add(PACKET_OUT + payload.len())
        .ok_or(AllocError)?;
    let mut front = Front::new();
    put_header(&mut front, message_type::PACKET_OUT, len, xid);
    put_packet_out_numbers(&mut front, packet, actions);
    out.append(front.as_slice())?;
    put_actions(out, ports)?;
    out.append(payload)?;
    Ok(())
}

#[tactic(auto, unfolding(crate::specs::Canonical::command_number))]
fn command_number(command: FlowCommand) -> u8
    ensures { result ≡ command_number command }
{
    match command {
        FlowCommand::Add => flow_command::ADD,
        FlowCommand::Modify => flow_command::MODIFY,
        FlowCommand::ModifyStrict => flow_command::MODIFY_STRICT,
        FlowCommand::Delete => flow_command::DELETE,
        FlowCommand::DeleteStrict => flow_command::DELETE_STRICT,
    }
}

/// The bytes of a FLOW_MOD that stand before its match.
const FLOW_MOD: usize = 48;

#[tactic(auto, unfolding(crate::specs::Canonical::flow_mod_cookies))]
fn put_flow_mod_cookies(front: &mut Front<FLOW_MOD>, change: &FlowMod)
    requires { length front.old + 18 ≤ FLOW_MOD }
    ensures bytes { front.new ≡ front.old ++ flow_mod_cookies change.now }
    ensures len { length front.new ≡ length front.old + 18 }
{
    front.put(eight(change.cookie));
    front.put(eight(change.cookie_mask));
    front.put(one(change.table));
    front.put(one(command_number(change.command)));
}

#[tactic(auto, unfolding(crate::specs::Canonical::flow_mod_times))]
fn put_flow_mod_times(front: &mut Front<FLOW_MOD>, change: &FlowMod)
    requires { length front.old + 10 ≤ FLOW_MOD }
    ensures bytes { front.new ≡ front.old ++ flow_mod_times change.now }
    ensures len { length front.new ≡ length front.old + 10 }
{
    front.put(two(change.idle));
    front.put(two(change.hard));
    front.put(two(change.priority));
    front.put(four(change.buffer));
}

#[tactic(auto, unfolding(crate::specs::Canonical::flow_mod_filter))]
fn put_flow_mod_filter(front: &mut Front<FLOW_MOD>, change: &FlowMod)
    requires { length front.old + 12 ≤ FLOW_MOD }
    ensures { front.new ≡ front.old ++ flow_mod_filter change.now }
{
    front.put(four(change.out_port));
    front.put(four(change.out_group));
    front.put(two(change.flags));
    front.put(zeros::<2>());
}

/// What stands before the match of a FLOW_MOD of so many bytes.
fn flow_mod_front(xid: u32, len: usize, change: &FlowMod) -> Front<FLOW_MOD>
    ensures { result ≡ header 14 len xid ++ (flow_mod_cookies change.now ++ (flow_mod_times change.now ++ flow_mod_filter change.now)) }
{
    let mut front = Front::new();
    put_header(&mut front, message_type::FLOW_MOD, len, xid);
    put_flow_mod_cookies(&mut front, change);
    put_flow_mod_times(&mut front, change);
    put_flow_mod_filter(&mut front, change);
    front
}

/// Adds a FLOW_MOD.
#[tactic(auto, using(crate::proofs::Fronts::flow_mod_put))]
pub fn put_flow_mod(out: &mut Octets, xid: u32, change: &FlowMod) -> Result<(), AllocError>
    ensures { OnOk result (out.new ≡ out.old ++ canonical xid (plain.FlowMod change.now)) }
{
    let matching = match_front(&change.matching);
    let (matching, ports) = (matching.as_slice(), change.actions.as_slice());
    let instruction = instruction_len(ports)?;
    let len = instruction
        .checked_add(FLOW_MOD + matching.len())
        .ok_or(AllocError)?;
    out.append(flow_mod_front(xid, len, change).as_slice())?;
    out.append(matching)?;
    put_instruction(out, ports, instruction)?;
    Ok(())
}

#[tactic(auto, unfolding(crate::specs::Canonical::role_body))]
fn role_body(role: u32, generation: u64) -> Front<16>
    ensures { result ≡ role_body role generation }
{
    let mut front = Front::new();
    front.put(four(role));
    front.put(zeros::<4>());
    front.put(eight(generation));
    front
}

#[tactic(auto, unfolding(crate::specs::Canonical::features_body))]
fn features_body(datapath: u64) -> Front<24>
    ensures { result ≡ features_body datapath }
{
    let mut front = Front::new();
    front.put(eight(datapath));
    front.put(zeros::<4>());
    front.put(one(1));
    front.put(zeros::<11>());
    front
}

/// The bytes of an ERROR that stand before what it cites.
const ERROR: usize = 12;

/// What stands before what an ERROR of so many bytes cites.
fn error_front(xid: u32, len: usize, kind: u16, code: u16) -> Front<ERROR>
    ensures { result ≡ header 1 len xid ++ (two kind ++ two code) }
{
    let mut front = Front::new();
    put_header(&mut front, message_type::ERROR, len, xid);
    front.put(two(kind));
    front.put(two(code));
    front
}

/// Adds an ERROR.
#[tactic(auto, using(crate::proofs::Fronts::error_put))]
fn put_error(
    out: &mut Octets,
    xid: u32,
    kind: u16,
    code: u16,
    head: &[u8],
) -> Result<(), AllocError>
    ensures { OnOk result (out.new ≡ out.old ++ canonical xid (plain.Error kind code head.now)) }
{
    out.append(error_front(xid, ERROR + head.len(), kind, code).as_slice())?;
    out.append(head)?;
    Ok(())
}

fn plain_type(message: &OfMessage) -> u8
    ensures { result ≡ plain_type message.now }
{
    match message {
        OfMessage::Hello => message_type::HELLO,
        OfMessage::Error { .. } => message_type::ERROR,
        OfMessage::EchoRequest { .. } => message_type::ECHO_REQUEST,
        OfMessage::EchoReply { .. } => message_type::ECHO_REPLY,
        OfMessage::Experimenter { .. } => message_type::EXPERIMENTER,
        OfMessage::FeaturesRequest => message_type::FEATURES_REQUEST,
        OfMessage::FeaturesReply { .. } => message_type::FEATURES_REPLY,
        OfMessage::PacketIn(_) => message_type::PACKET_IN,
        OfMessage::FlowRemoved(_) => message_type::FLOW_REMOVED,
        OfMessage::PortStatus(_) => message_type::PORT_STATUS,
        OfMessage::PacketOut(_) => message_type::PACKET_OUT,
        OfMessage::FlowMod(_) => message_type::FLOW_MOD,
        OfMessage::BarrierRequest => message_type::BARRIER_REQUEST,
        OfMessage::BarrierReply => message_type::BARRIER_REPLY,
        OfMessage::RoleRequest { .. } => message_type::ROLE_REQUEST,
        OfMessage::RoleReply { .. } => message_type::ROLE_REPLY,
    }
}

/// Adds the bytes of a message, with the number of its request.
#[tactic(auto, unfolding(crate::specs::Canonical::canonical))]
pub fn put_message(out: &mut Octets, xid: u32, message: &OfMessage) -> Result<(), AllocError>
    ensures { OnOk result (out.new ≡ out.old ++ canonical xid message.now) }
{
    let kind = plain_type(message);
    match message {
        OfMessage::Hello
        | OfMessage::FeaturesRequest
        | OfMessage::BarrierRequest
        | OfMessage::BarrierReply => put_framed(out, kind, xid, &[]),
        OfMessage::EchoRequest { body }
        | OfMessage::EchoReply { body }
        | OfMessage::Experimenter { body } => put_framed(out, kind, xid, body.as_slice()),
        OfMessage::FeaturesReply { datapath } => {
            put_framed(out, kind, xid, features_body(*datapath).as_slice())
        }
        OfMessage::RoleRequest { role, generation } | OfMessage::RoleReply { role, generation } => {
            put_framed(out, kind, xid, role_body(*role, *generation).as_slice())
        }
        OfMessage::Error {
            kind: error,
            code,
            head,
        } => put_error(out, xid, *error, *code, head.as_slice()),
        OfMessage::PacketIn(packet) => put_packet_in(out, xid, packet),
        OfMessage::FlowRemoved(removed) => put_flow_removed(out, xid, removed.get()),
        OfMessage::PortStatus(status) => put_port_status(out, xid, status),
        OfMessage::PacketOut(packet) => put_packet_out(out, xid, packet),
        OfMessage::FlowMod(change) => put_flow_mod(out, xid, change.get()),
    }
}

fn written(alloc: Global, xid: u32, message: &OfMessage) -> Result<Octets, AllocError>
    ensures { IfOk result (λ bytes. bytes ≡ canonical xid message.now) }
{
    let mut out = with_room(alloc, size_of_plain(message) as usize)?;
    put_message(&mut out, xid, message)?;
    Ok(out)
}

/// The bytes of a message, with the number of its request. The length is written in two bytes; of a
/// longer message its lowest two bytes stand there.
pub fn encode(alloc: Global, xid: u32, message: &OfMessage) -> Result<Octets, AllocError>
    ensures bytes { IfOk result (λ bytes. bytes ≡ canonical xid message.now) }
    // Those of a valid message spell it.
    ensures spelled { IsValidPlain message.now → plain_size message.now ≤ 65535 → Spells (canonical xid message.now) xid message.now }
    // They are as many as its size tells.
    ensures size { length (canonical xid message.now) ≡ plain_size message.now }
{
    message_fits(message);
    u32_fits(xid);
    written(alloc, xid, message)
}

/// A PACKET_IN, as `encode` writes it.
pub fn encode_packet_in(alloc: Global, xid: u32, packet: &PacketIn) -> Result<Octets, AllocError>
    ensures { IfOk result (λ bytes. bytes ≡ canonical xid (plain.PacketIn packet.now)) }
{
    let len = PACKET_IN + packet.payload.as_slice().len();
    let mut out = with_room(alloc, len)?;
    put_packet_in(&mut out, xid, packet)?;
    Ok(out)
}

/// A FLOW_REMOVED, as `encode` writes it.
pub fn encode_flow_removed(
    alloc: Global,
    xid: u32,
    removed: &FlowRemoved,
) -> Result<Octets, AllocError>
    ensures { IfOk result (λ bytes. bytes ≡ canonical xid (plain.FlowRemoved removed.now)) }
{
    let mut out = with_room(alloc, FLOW_REMOVED + size_of_match(&removed.matching))?;
    put_flow_removed(&mut out, xid, removed)?;
    Ok(out)
}

/// A PORT_STATUS, as `encode` writes it.
pub fn encode_port_status(
    alloc: Global,
    xid: u32,
    status: &PortStatus,
) -> Result<Octets, AllocError>
    ensures { IfOk result (λ bytes. bytes ≡ canonical xid (plain.PortStatus status.now)) }
{
    let mut out = with_room(alloc, PORT_STATUS)?;
    put_port_status(&mut out, xid, status)?;
    Ok(out)
}

/// Room for most orders.
const ORDER: usize = 128;

/// A PACKET_OUT, as `encode` writes it.
pub fn encode_packet_out(alloc: Global, xid: u32, packet: &PacketOut) -> Result<Octets, AllocError>
    ensures { IfOk result (λ bytes. bytes ≡ canonical xid (plain.PacketOut packet.now)) }
{
    let mut out = with_room(alloc, ORDER)?;
    put_packet_out(&mut out, xid, packet)?;
    Ok(out)
}

/// A FLOW_MOD, as `encode` writes it.
pub fn encode_flow_mod(alloc: Global, xid: u32, change: &FlowMod) -> Result<Octets, AllocError>
    ensures { IfOk result (λ bytes. bytes ≡ canonical xid (plain.FlowMod change.now)) }
{
    let mut out = with_room(alloc, ORDER)?;
    put_flow_mod(&mut out, xid, change)?;
    Ok(out)
}
