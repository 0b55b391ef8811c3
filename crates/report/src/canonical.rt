//! What is told in the bytes of OpenFlow. Only the one written form is read.
ghost use Rattle.std.specs.Prelude.{◌≡◌, ◌≤◌, ◌*◌, ℕ, List, length, IfOk};
ghost use Rattle.std.specs.Result.{result_ok};
ghost use Rattle.of_match.specs.Reading.{match_at};
ghost use Rattle.of_messages.specs.Reading.{message_at};
ghost use Rattle.vr_log.specs.Same.{same_numbers};
ghost use Rattle.report.specs.Spelled.{GivesText};
ghost use Rattle.report.specs.Canonical as canonical;

use crate::fault::Misfit;
use crate::spelled::hex;
use of_bytes::u32_at;
use of_match::{bare_match, read_match};
use of_messages::{BodyFault, actions_of, read_message};
use of_ravana::{canonical_happening, canonical_order};
use of_types::{Actions, Happening, Match, Octets, OfMessage, Order};
use std::alloc::{AllocError, Global};

/// The most output ports in the bytes of a message.
const MOST_ACTIONS: usize = 4095;

/// The bytes of an output.
const OUTPUT_SIZE: usize = 16;

/// Whether two texts are equal.
pub fn are_equal(a: &[u8], b: &[u8]) -> bool
    ensures { result ≡ same_numbers a.now b.now }
{
    a == b
}

/// What has one written form.
trait Written: Drop {
    ghost written: { Self → List ℕ };

    /// The written form.
    fn write(&self, alloc: Global) -> Result<Octets, AllocError>
        ensures { IfOk result (λ bytes. bytes ≡ written self.now) };
}

/// A value whose written form is these bytes.
fn if_written<W: Written>(alloc: Global, told: W, bytes: &[u8]) -> Result<W, Misfit>
    ensures { GivesText (λ x. x) result (canonical.if_written W.written bytes.now told) }
{
    let written = told.write(alloc)?;
    if are_equal(written.as_slice(), bytes) {
        Ok(told)
    } else {
        Err(Misfit::Text)
    }
}

fn message(alloc: Global, bytes: &[u8]) -> Result<OfMessage, Misfit>
    ensures { GivesText (λ m. m) result (result_ok (message_at bytes.now)) }
{
    match read_message(alloc, bytes) {
        Ok(message) => Ok(message),
        Err(BodyFault::Wire(_)) => Err(Misfit::Text),
        Err(BodyFault::OutOfMemory) => Err(Misfit::OutOfMemory),
    }
}

fn happening_in(message: OfMessage) -> Option<Happening>
    ensures { result ≡ canonical.happening_in message }
{
    match message {
        OfMessage::PacketIn(packet) => Some(Happening::PacketIn(packet)),
        OfMessage::FlowRemoved(removed) => Some(Happening::FlowRemoved(removed)),
        OfMessage::PortStatus(status) => Some(Happening::PortStatus(status)),
        other => {
            drop(other);
            None
        }
    }
}

impl Written for Happening {
    ghost use Rattle.of_ravana.specs.Canonical.{canonical_happening};

    ghost written = { canonical_happening };

    fn write(&self, alloc: Global) -> Result<Octets, AllocError> {
        canonical_happening(alloc, self)
    }
}

#[tactic(auto, unfolding(crate::specs::Canonical::happening_of))]
fn happening_of(alloc: Global, bytes: &[u8]) -> Result<Happening, Misfit>
    ensures { GivesText (λ x. x) result (canonical.happening_of bytes.now) }
{
    let message = message(alloc, bytes)?;
    let Some(what) = happening_in(message) else {
        return Err(Misfit::Text);
    };
    if_written(alloc, what, bytes)
}

/// What an event tells.
#[tactic(auto, unfolding(crate::specs::Canonical::happening_in_text))]
pub fn happening(alloc: Global, bytes: &[u8]) -> Result<(Happening, &[u8]), Misfit>
    ensures { GivesText (λ x. (x.0, x.1.now)) result (canonical.happening_in_text bytes.now) }
{
    let (told, rest) = hex(alloc, bytes)?;
    let what = happening_of(alloc, told.as_slice())?;
    Ok((what, rest))
}

fn order_in(message: OfMessage) -> Option<Order>
    ensures { result ≡ canonical.canonical_order_in message }
{
    match message {
        OfMessage::FlowMod(change) => Some(Order::FlowMod(change)),
        OfMessage::PacketOut(packet) => Some(Order::PacketOut(packet)),
        other => {
            drop(other);
            None
        }
    }
}

impl Written for Order {
    ghost use Rattle.of_ravana.specs.Canonical.{canonical_order};

    ghost written = { canonical_order };

    fn write(&self, alloc: Global) -> Result<Octets, AllocError> {
        canonical_order(alloc, self)
    }
}

#[tactic(auto, unfolding(crate::specs::Canonical::order_of))]
fn order_of(alloc: Global, bytes: &[u8]) -> Result<Order, Misfit>
    ensures { GivesText (λ x. x) result (canonical.order_of bytes.now) }
{
    let message = message(alloc, bytes)?;
    let Some(order) = order_in(message) else {
        return Err(Misfit::Text);
    };
    if_written(alloc, order, bytes)
}

/// What a command asks for.
#[tactic(auto, unfolding(crate::specs::Canonical::order_in_text))]
pub fn order(alloc: Global, bytes: &[u8]) -> Result<(Order, &[u8]), Misfit>
    ensures { GivesText (λ x. (x.0, x.1.now)) result (canonical.order_in_text bytes.now) }
{
    let (told, rest) = hex(alloc, bytes)?;
    let order = order_of(alloc, told.as_slice())?;
    Ok((order, rest))
}

/// Bytes with zeros up to a multiple of eight.
#[tactic(auto, unfolding(crate::specs::Canonical::padded_text))]
fn padded(bare: &Octets) -> Result<Octets, AllocError>
    ensures { IfOk result (λ bytes. bytes ≡ canonical.padded_text bare.now) }
{
    let missing = (8 - bare.len() % 8) % 8;
    let mut bytes = bare.copy()?;
    for added in 0..missing {
        bytes.push(0)?;
    }
    Ok(bytes)
}

/// A match that bytes begin with.
fn first_match(bytes: &[u8]) -> Option<(Match, usize)>
    ensures { result ≡ result_ok (match_at bytes.now) }
{
    read_match(bytes).ok()
}

impl Written for Match {
    ghost use Rattle.of_match.specs.Writing.{canonical_bare_match};

    ghost written = { canonical_bare_match };

    fn write(&self, alloc: Global) -> Result<Octets, AllocError> {
        bare_match(alloc, self)
    }
}

#[tactic(auto, unfolding(crate::specs::Canonical::matching_of))]
fn matching_of(alloc: Global, bare: &Octets) -> Result<Match, Misfit>
    ensures { GivesText (λ x. x) result (canonical.matching_of bare.now) }
{
    let bytes = padded(bare)?;
    let Some((matching, _)) = first_match(bytes.as_slice()) else {
        return Err(Misfit::Text);
    };
    if_written(alloc, matching, bare.as_slice())
}

/// What a row matches, without padding.
#[tactic(auto, unfolding(crate::specs::Canonical::matching_at))]
pub fn matching(alloc: Global, bytes: &[u8]) -> Result<(Match, &[u8]), Misfit>
    ensures { GivesText (λ x. (x.0, x.1.now)) result (canonical.matching_at bytes.now) }
{
    let (told, rest) = hex(alloc, bytes)?;
    let matching = matching_of(alloc, &told)?;
    Ok((matching, rest))
}

/// The ports of so many outputs.
fn ports_of(alloc: Global, count: usize, bytes: &[u8]) -> Result<Actions, AllocError>
    requires { OUTPUT_SIZE * count ≤ length bytes.now }
    ensures { IfOk result (λ ports. ports ≡ canonical.output_ports_of count bytes.now) }
{
    let mut ports = Actions::new(alloc);
    let mut rest = bytes;
    for done in 0..count {
        ports.push(u32_at(rest, 4))?;
        let (_, after) = rest.split_at(OUTPUT_SIZE);
        rest = after;
    }
    Ok(ports)
}

impl Written for Actions {
    ghost use Rattle.of_messages.specs.Canonical.{actions_of};

    ghost written = { actions_of };

    fn write(&self, alloc: Global) -> Result<Octets, AllocError> {
        actions_of(alloc, self.as_slice())
    }
}

#[tactic(auto, unfolding(crate::specs::Canonical::actions_in, crate::specs::Canonical::most_actions))]
fn actions_in(alloc: Global, bytes: &[u8]) -> Result<Actions, Misfit>
    ensures { GivesText (λ x. x) result (canonical.actions_in bytes.now) }
{
    if bytes.len() > OUTPUT_SIZE * MOST_ACTIONS {
        return Err(Misfit::Text);
    }
    let ports = ports_of(alloc, bytes.len() / OUTPUT_SIZE, bytes)?;
    if_written(alloc, ports, bytes)
}

/// The actions of a row.
#[tactic(auto, unfolding(crate::specs::Canonical::actions_told))]
pub fn actions(alloc: Global, bytes: &[u8]) -> Result<(Actions, &[u8]), Misfit>
    ensures { GivesText (λ x. (x.0, x.1.now)) result (canonical.actions_told bytes.now) }
{
    let (told, rest) = hex(alloc, bytes)?;
    let ports = actions_in(alloc, told.as_slice())?;
    Ok((ports, rest))
}
