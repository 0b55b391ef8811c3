//! Writing what a controller and a switch say in its one form, each into one list.
ghost use Rattle.std.specs.Prelude.{◌≡◌, ◌≤◌, ◌+◌, ◌++◌, length, IfOk, OnOk};
ghost use Rattle.of_types.specs.Sizes.{extension_size};
ghost use Rattle.of_types.specs.Valid.{IsValidExtension};
ghost use Rattle.of_types.specs.declared.message.OfMessage.TheVariants as plain;
ghost use Rattle.of_types.specs.declared.message.Spoken.TheVariants as spoken;
ghost use Rattle.of_messages.specs.Canonical as messages;
ghost use Rattle.of_ravana.specs.Canonical.{canonical_happening, canonical_order, result_bytes, outcome_bytes, command_front, extension_type, extension_life, extension_front, extension_behind, canonical_extension, canonical_spoken};
ghost use Rattle.of_ravana.specs.Grammar.{SpellsExtension, SpellsSpoken, IsValidSpoken, spoken_size};

use crate::fitting::extension_fits;
use of_bytes::{Front, eight, four, two, u32_fits, zeros};
use of_messages::{
    encode, encode_flow_mod, encode_flow_removed, encode_packet_in, encode_packet_out,
    encode_port_status, exact_len, put_flow_mod, put_flow_removed, put_header, put_message,
    put_packet_in, put_packet_out, put_port_status, with_room,
};
use of_types::{
    Extension, Happening, Octets, Order, Outcome, RAVANA, Spoken, command_status, extension_type,
    message_type, size_of_extension, size_of_happening,
};
use std::alloc::{AllocError, Global};

/// The most bytes that stand before the message inside: a header, the experimenter's numbers and those of a command.
const FRONT: usize = 48;

/// How many bytes the message of an event takes. For more than a number tells there is no room.
#[tactic(auto, using(crate::proofs::Written::happening_length))]
pub fn happening_len(what: &Happening) -> Result<usize, AllocError>
    ensures { IfOk result (λ len. len ≡ length (canonical_happening what.now)) }
{
    let len = exact_len(size_of_happening(what))?;
    Ok(len)
}

/// Adds the message that an event tells, with number 0.
#[tactic(auto, unfolding(crate::specs::Canonical::canonical_happening))]
pub fn put_happening(out: &mut Octets, what: &Happening) -> Result<(), AllocError>
    ensures { OnOk result (out.new ≡ out.old ++ canonical_happening what.now) }
{
    match what {
        Happening::PacketIn(packet) => put_packet_in(out, 0, packet),
        Happening::FlowRemoved(removed) => put_flow_removed(out, 0, removed.get()),
        Happening::PortStatus(status) => put_port_status(out, 0, status),
    }
}

/// The bytes of the message that an event tells, with number 0.
#[tactic(auto, unfolding(crate::specs::Canonical::canonical_happening))]
pub fn canonical_happening(alloc: Global, what: &Happening) -> Result<Octets, AllocError>
    ensures { IfOk result (λ bytes. bytes ≡ canonical_happening what.now) }
{
    match what {
        Happening::PacketIn(packet) => encode_packet_in(alloc, 0, packet),
        Happening::FlowRemoved(removed) => encode_flow_removed(alloc, 0, removed.get()),
        Happening::PortStatus(status) => encode_port_status(alloc, 0, status),
    }
}

/// Adds the message that a command holds, with number 0.
#[tactic(auto, unfolding(crate::specs::Canonical::canonical_order))]
fn put_order(out: &mut Octets, what: &Order) -> Result<(), AllocError>
    ensures { OnOk result (out.new ≡ out.old ++ canonical_order what.now) }
{
    match what {
        Order::FlowMod(change) => put_flow_mod(out, 0, change.get()),
        Order::PacketOut(packet) => put_packet_out(out, 0, packet),
    }
}

/// The bytes of the message that a command holds, with number 0.
#[tactic(auto, unfolding(crate::specs::Canonical::canonical_order))]
pub fn canonical_order(alloc: Global, what: &Order) -> Result<Octets, AllocError>
    ensures { IfOk result (λ bytes. bytes ≡ canonical_order what.now) }
{
    match what {
        Order::FlowMod(change) => encode_flow_mod(alloc, 0, change.get()),
        Order::PacketOut(packet) => encode_packet_out(alloc, 0, packet),
    }
}

#[tactic(auto, unfolding(crate::specs::Canonical::result_bytes))]
fn put_result(front: &mut Front<FRONT>, status: u16, kind: u16, code: u16)
    requires { length front.old + 8 ≤ FRONT }
    ensures bytes { front.new ≡ front.old ++ result_bytes status kind code }
{
    front.put(two(status));
    front.put(two(kind));
    front.put(two(code));
    front.put(zeros::<2>());
}

fn put_outcome(front: &mut Front<FRONT>, outcome: Outcome)
    requires { length front.old + 8 ≤ FRONT }
    ensures { front.new ≡ front.old ++ outcome_bytes outcome }
{
    match outcome {
        Outcome::Done => put_result(front, command_status::DONE, 0, 0),
        Outcome::Failed { kind, code } => put_result(front, command_status::FAILED, kind, code),
        Outcome::Cleared => put_result(front, command_status::CLEARED, 0, 0),
    }
}

/// The three numbers of a command.
#[tactic(auto, unfolding(crate::specs::Canonical::command_front))]
fn put_command_front(front: &mut Front<FRONT>, generation: u64, number: u64, settled: u64)
    requires { length front.old + 24 ≤ FRONT }
    ensures { front.new ≡ front.old ++ command_front generation number settled }
{
    front.put(eight(generation));
    front.put(eight(number));
    front.put(eight(settled));
}

fn extension_type(said: &Extension) -> u32
    ensures { result ≡ extension_type said.now }
{
    match said {
        Extension::Event { .. } => extension_type::EVENT,
        Extension::EventAck { .. } => extension_type::EVENT_ACK,
        Extension::Command { .. } => extension_type::COMMAND,
        Extension::CmdAck { .. } => extension_type::CMD_ACK,
        Extension::Clear { .. } => extension_type::CBUF_CLEAR,
    }
}

fn extension_life(said: &Extension) -> u32
    ensures { result ≡ extension_life said.now }
{
    match said {
        Extension::Event { life, .. }
        | Extension::EventAck { life, .. }
        | Extension::Command { life, .. }
        | Extension::CmdAck { life, .. }
        | Extension::Clear { life, .. } => *life,
    }
}

/// The experimenter's number, the type and the life.
#[tactic(auto, unfolding(crate::specs::Canonical::extension_front))]
fn put_extension_front(front: &mut Front<FRONT>, kind: u32, life: u32)
    requires { length front.old + 16 ≤ FRONT }
    ensures bytes { front.new ≡ front.old ++ extension_front kind life }
    ensures len { length front.new ≡ length front.old + 16 }
{
    front.put(four(RAVANA));
    front.put(four(kind));
    front.put(four(life));
    front.put(zeros::<4>());
}

/// Adds what stands in a front, and behind it the numbers of a message and the message inside, if there is one. Each kind
/// adds the front itself, since it knows how long that is.
#[inline(always)]
fn put_said(out: &mut Octets, mut front: Front<FRONT>, said: &Extension) -> Result<(), AllocError>
    requires { length front + 40 ≤ FRONT }
    ensures { OnOk result (out.new ≡ out.old ++ extension_behind front said.now) }
{
    put_extension_front(&mut front, extension_type(said), extension_life(said));
    match said {
        Extension::Event { number, what, .. } => {
            front.put(eight(*number));
            out.append(front.as_slice())?;
            put_happening(out, what)
        }
        Extension::Command {
            generation,
            number,
            settled,
            order,
            ..
        } => {
            put_command_front(&mut front, *generation, *number, *settled);
            out.append(front.as_slice())?;
            put_order(out, order)
        }
        Extension::CmdAck {
            number,
            outcome,
            ..
        } => {
            front.put(eight(*number));
            put_outcome(&mut front, *outcome);
            out.append(front.as_slice())
        }
        Extension::EventAck { through, .. } | Extension::Clear { through, .. } => {
            front.put(eight(*through));
            out.append(front.as_slice())
        }
    }
}

#[tactic(auto, using(crate::proofs::Written::extension_is))]
fn written(alloc: Global, said: &Extension) -> Result<Octets, AllocError>
    ensures { IfOk result (λ bytes. bytes ≡ canonical_extension said.now) }
{
    let mut out = with_room(alloc, size_of_extension(said) as usize)?;
    put_said(&mut out, Front::new(), said)?;
    Ok(out)
}

/// What stands behind the header of an EXPERIMENTER that says this. A message inside it has its length
/// in two bytes; of a longer message its lowest two bytes stand there.
pub fn encode_extension(alloc: Global, said: &Extension) -> Result<Octets, AllocError>
    ensures bytes { IfOk result (λ bytes. bytes ≡ canonical_extension said.now) }
    // Those of a valid message spell it.
    ensures spelled { IsValidExtension said.now → extension_size said.now ≤ 65535 → SpellsExtension (canonical_extension said.now) said.now }
    // With a header they are as many as its size tells.
    ensures size { 8 + length (canonical_extension said.now) ≡ extension_size said.now }
{
    extension_fits(said);
    written(alloc, said)
}

/// How many bytes a message takes. For more than a number tells there is no room.
fn extension_len(said: &Extension) -> Result<usize, AllocError>
    ensures { IfOk result (λ len. len ≡ extension_size said.now) }
{
    let len = exact_len(size_of_extension(said))?;
    Ok(len)
}

/// Adds a message of the extension, which has so many bytes, behind the header of an EXPERIMENTER.
#[tactic(auto, using(crate::proofs::Written::experimenter_is))]
fn put_experimenter(
    out: &mut Octets,
    len: usize,
    xid: u32,
    said: &Extension,
) -> Result<(), AllocError>
    requires { len ≡ extension_size said.now }
    ensures { OnOk result (out.new ≡ out.old ++ messages.canonical xid (plain.Experimenter (canonical_extension said.now))) }
{
    let mut front = Front::new();
    put_header(&mut front, message_type::EXPERIMENTER, len, xid);
    put_said(out, front, said)
}

/// The bytes of a message of the extension behind the header of an EXPERIMENTER.
fn framed(alloc: Global, xid: u32, said: &Extension) -> Result<Octets, AllocError>
    ensures { IfOk result (λ bytes. bytes ≡ messages.canonical xid (plain.Experimenter (canonical_extension said.now))) }
{
    let len = extension_len(said)?;
    let mut out = with_room(alloc, len)?;
    put_experimenter(&mut out, len, xid, said)?;
    Ok(out)
}

/// Adds the bytes of what a controller and a switch say to each other, with the number of the request.
#[tactic(auto, unfolding(crate::specs::Canonical::canonical_spoken))]
pub fn put_spoken(out: &mut Octets, xid: u32, said: &Spoken) -> Result<(), AllocError>
    ensures { OnOk result (out.new ≡ out.old ++ canonical_spoken xid said.now) }
{
    match said {
        Spoken::Plain(message) => put_message(out, xid, message),
        Spoken::Ravana(said) => {
            let len = extension_len(said)?;
            put_experimenter(out, len, xid, said)
        }
    }
}

/// The same, which spells a valid message and is as long as its size tells.
fn experimenter(alloc: Global, xid: u32, said: &Extension) -> Result<Octets, AllocError>
    ensures bytes { IfOk result (λ bytes. bytes ≡ messages.canonical xid (plain.Experimenter (canonical_extension said.now))) }
    ensures spelled { IsValidExtension said.now → extension_size said.now ≤ 65535 → SpellsSpoken (messages.canonical xid (plain.Experimenter (canonical_extension said.now))) xid (spoken.Ravana said.now) }
    ensures size { length (messages.canonical xid (plain.Experimenter (canonical_extension said.now))) ≡ extension_size said.now }
{
    extension_fits(said);
    u32_fits(xid);
    framed(alloc, xid, said)
}

/// The bytes of what a controller and a switch say to each other, with the number of the request.
#[tactic(auto, unfolding(crate::specs::Canonical::canonical_spoken))]
pub fn canonical(alloc: Global, xid: u32, said: &Spoken) -> Result<Octets, AllocError>
    ensures bytes { IfOk result (λ bytes. bytes ≡ canonical_spoken xid said.now) }
    // Those of what is valid spell it.
    ensures spelled { IfOk result (λ bytes. IsValidSpoken said.now → SpellsSpoken bytes xid said.now) }
    // They are as many as its size tells.
    ensures size { IfOk result (λ bytes. length bytes ≡ spoken_size said.now) }
{
    match said {
        Spoken::Plain(message) => encode(alloc, xid, message),
        Spoken::Ravana(said) => experimenter(alloc, xid, said),
    }
}
