//! Writing a message in its one form, into one list: its numbers are made in fronts, and each is added at once.
ghost use Rattle.std.specs.Prelude.{◌≡◌, ◌++◌, length, flat_map, IfOk, OnOk};
ghost use Rattle.of_bytes.specs.Numbers.{one, four, eight};
ghost use Rattle.of_ravana.specs.Canonical as told;
ghost use Rattle.vr_codec.specs.Canonical.{received_front, received_bytes, processed_bytes, canonical_entry, canonical_log, front_bytes, pair, recovery_bytes, filled_bytes, canonical_vr};
ghost use Rattle.vr_codec.specs.Grammar.{SpellsVr};
ghost use Rattle.vr_log.specs.Sizes.{IsValidVr, vr_size};

use crate::fitting::reads_back;
use of_bytes::{Front, eight, four, one};
use of_messages::with_room;
use of_ravana::{happening_len, put_happening};
use of_types::{Event, Octets};
use std::alloc::{AllocError, Global};
use vr_log::{Entry, Filled, VrMessage, size_of_entry};

/// The bytes of a message without an entry or a log, at most.
const PLAIN: u64 = 14;

/// The bytes of a PREPARE that stand before its entry.
const PREPARE: u64 = 21;

/// The bytes of other messages that stand before a log, at most, with those of the count.
const LOG: u64 = 26;

/// The bytes of a message between members of a group. Counts and lengths stand in four bytes; of greater
/// ones their lowest four bytes stand there.
#[tactic(auto, using(crate::proofs::Written::vr_length))]
pub fn encode_vr(alloc: Global, message: &VrMessage) -> Result<Octets, AllocError>
    ensures bytes { IfOk result (λ bytes. bytes ≡ canonical_vr message.now) }
    // Those of a valid message spell it.
    ensures spelled { IsValidVr message.now → SpellsVr (canonical_vr message.now) message.now }
    // They are as many as its size tells.
    ensures size { length (canonical_vr message.now) ≡ vr_size message.now }
{
    reads_back(message);
    let mut out = with_room(alloc, room_of(message) as usize)?;
    write_vr(&mut out, message)?;
    Ok(out)
}

/// The lowest four bytes of a length.
#[tactic(auto, unfolding(of_bytes::specs::Numbers::four))]
fn length_bytes(len: usize) -> [u8; 4]
    ensures { result ≡ four len }
{
    ((len % (1 << 32)) as u32).to_be_bytes()
}

/// What stands in front of the message of an event, which has so many bytes.
#[tactic(auto, unfolding(crate::specs::Canonical::received_front))]
fn received_front(event: &Event, len: usize) -> Front<18>
    ensures { result ≡ received_front event.now.switch event.now.life event.now.number len }
{
    let mut front = Front::new();
    front.put(one(1));
    front.put(one(event.switch));
    front.put(four(event.life));
    front.put(eight(event.number));
    front.put(length_bytes(len));
    front
}

#[tactic(auto, unfolding(crate::specs::Canonical::received_bytes))]
fn write_received(out: &mut Octets, event: &Event) -> Result<(), AllocError>
    ensures { OnOk result (out.new ≡ out.old ++ received_bytes event.now.switch event.now.life event.now.number (told.canonical_happening event.now.what)) }
{
    let len = happening_len(&event.what)?;
    out.append(received_front(event, len).as_slice())?;
    put_happening(out, &event.what)?;
    Ok(())
}

#[tactic(auto, unfolding(crate::specs::Canonical::processed_bytes))]
fn processed_bytes(place: u64) -> Front<9>
    ensures { result ≡ processed_bytes place }
{
    let mut front = Front::new();
    front.put(one(2));
    front.put(eight(place));
    front
}

fn write_entry(out: &mut Octets, entry: &Entry) -> Result<(), AllocError>
    ensures { OnOk result (out.new ≡ out.old ++ canonical_entry entry.now) }
{
    match entry {
        Entry::Received(event) => write_received(out, event),
        Entry::Processed(place) => out.append(processed_bytes(*place).as_slice()),
    }
}

fn write_entries(out: &mut Octets, entries: &[Entry]) -> Result<(), AllocError>
    ensures { OnOk result (out.new ≡ out.old ++ flat_map canonical_entry entries.now) }
{
    for entry in entries {
        write_entry(out, entry)?;
    }
    Ok(())
}

#[tactic(auto, unfolding(crate::specs::Canonical::canonical_log))]
fn write_log(out: &mut Octets, log: &[Entry]) -> Result<(), AllocError>
    ensures { OnOk result (out.new ≡ out.old ++ canonical_log log.now) }
{
    out.append(&length_bytes(log.len()))?;
    write_entries(out, log)?;
    Ok(())
}

/// A kind and a view.
#[tactic(auto, unfolding(crate::specs::Canonical::front_bytes))]
fn viewed(kind: u8, view: u32) -> Front<5>
    ensures { result ≡ front_bytes kind view }
{
    let mut front = Front::new();
    front.put(one(kind));
    front.put(four(view));
    front
}

/// A kind, a view and a number.
#[tactic(auto, unfolding(crate::specs::Canonical::front_bytes))]
fn numbered(kind: u8, view: u32, number: u64) -> Front<13>
    ensures { result ≡ front_bytes kind view ++ eight number }
{
    let mut front = Front::new();
    front.put(one(kind));
    front.put(four(view));
    front.put(eight(number));
    front
}

/// A kind, a view and two numbers.
#[tactic(auto, unfolding(crate::specs::Canonical::front_bytes, crate::specs::Canonical::pair))]
fn paired(kind: u8, view: u32, first: u64, second: u64) -> Front<21>
    ensures { result ≡ front_bytes kind view ++ pair first second }
{
    let mut front = Front::new();
    front.put(one(kind));
    front.put(four(view));
    front.put(eight(first));
    front.put(eight(second));
    front
}

/// What stands in front of the log of a DOVIEWCHANGE.
#[tactic(auto, unfolding(crate::specs::Canonical::front_bytes))]
fn do_view_change_front(view: u32, normal: u32, commit: u64) -> Front<17>
    ensures { result ≡ front_bytes 5 view ++ (four normal ++ eight commit) }
{
    let mut front = Front::new();
    front.put(one(5));
    front.put(four(view));
    front.put(four(normal));
    front.put(eight(commit));
    front
}

#[tactic(auto, unfolding(crate::specs::Canonical::recovery_bytes))]
fn recovery_bytes(nonce: u64, promise: u32) -> Front<13>
    ensures { result ≡ recovery_bytes nonce promise }
{
    let mut front = Front::new();
    front.put(one(7));
    front.put(eight(nonce));
    front.put(four(promise));
    front
}

fn write_filled(out: &mut Octets, filled: &Option<Filled>) -> Result<(), AllocError>
    ensures { OnOk result (out.new ≡ out.old ++ filled_bytes filled.now) }
{
    match filled {
        None => out.append(&one(0)),
        Some(filled) => {
            out.append(&one(1))?;
            out.append(&eight(filled.commit))?;
            write_log(out, filled.log.as_slice())?;
            Ok(())
        }
    }
}

fn write_prepare(
    out: &mut Octets,
    view: u32,
    op: u64,
    commit: u64,
    entry: &Entry,
) -> Result<(), AllocError>
    ensures { OnOk result (out.new ≡ out.old ++ (front_bytes 1 view ++ (pair op commit ++ canonical_entry entry.now))) }
{
    out.append(paired(1, view, op, commit).as_slice())?;
    write_entry(out, entry)?;
    Ok(())
}

fn write_do_view_change(
    out: &mut Octets,
    view: u32,
    normal: u32,
    commit: u64,
    log: &[Entry],
) -> Result<(), AllocError>
    ensures { OnOk result (out.new ≡ out.old ++ (front_bytes 5 view ++ (four normal ++ (eight commit ++ canonical_log log.now)))) }
{
    out.append(do_view_change_front(view, normal, commit).as_slice())?;
    write_log(out, log)?;
    Ok(())
}

fn write_supply(out: &mut Octets, view: u32, first: u64, log: &[Entry]) -> Result<(), AllocError>
    ensures { OnOk result (out.new ≡ out.old ++ (front_bytes 12 view ++ (eight first ++ canonical_log log.now))) }
{
    out.append(numbered(12, view, first).as_slice())?;
    write_log(out, log)?;
    Ok(())
}

fn write_response(
    out: &mut Octets,
    view: u32,
    nonce: u64,
    filled: &Option<Filled>,
) -> Result<(), AllocError>
    ensures { OnOk result (out.new ≡ out.old ++ (front_bytes 8 view ++ (eight nonce ++ filled_bytes filled.now))) }
{
    out.append(numbered(8, view, nonce).as_slice())?;
    write_filled(out, filled)?;
    Ok(())
}

/// STARTVIEW and NEWSTATE, by their kind.
fn write_log_behind(
    out: &mut Octets,
    kind: u8,
    view: u32,
    first: u64,
    commit: u64,
    log: &[Entry],
) -> Result<(), AllocError>
    ensures { OnOk result (out.new ≡ out.old ++ (front_bytes kind view ++ (pair first commit ++ canonical_log log.now))) }
{
    out.append(paired(kind, view, first, commit).as_slice())?;
    write_log(out, log)?;
    Ok(())
}

/// Adds the bytes of a message between members of a group, as `encode_vr` makes them.
pub fn write_vr(out: &mut Octets, message: &VrMessage) -> Result<(), AllocError>
    ensures { OnOk result (out.new ≡ out.old ++ canonical_vr message.now) }
{
    match message {
        VrMessage::Prepare {
            view,
            op,
            commit,
            entry,
        } => write_prepare(out, *view, *op, *commit, entry),
        VrMessage::PrepareOk { view, op } => out.append(numbered(2, *view, *op).as_slice()),
        VrMessage::Commit { view, commit } => out.append(numbered(3, *view, *commit).as_slice()),
        VrMessage::StartViewChange { view } => out.append(viewed(4, *view).as_slice()),
        VrMessage::DoViewChange {
            view,
            normal,
            commit,
            log,
        } => write_do_view_change(out, *view, *normal, *commit, log.as_slice()),
        VrMessage::StartView {
            view,
            first,
            commit,
            log,
        } => write_log_behind(out, 6, *view, *first, *commit, log.as_slice()),
        VrMessage::Recovery { nonce, promise } => out.append(recovery_bytes(
            *nonce, *promise,
        ).as_slice()),
        VrMessage::RecoveryResponse {
            view,
            nonce,
            filled,
        } => write_response(out, *view, *nonce, filled),
        VrMessage::GetState { view, op } => out.append(numbered(9, *view, *op).as_slice()),
        VrMessage::NewState {
            view,
            first,
            commit,
            log,
        } => write_log_behind(out, 10, *view, *first, *commit, log.as_slice()),
        VrMessage::Fetch { view, op } => out.append(numbered(11, *view, *op).as_slice()),
        VrMessage::Supply { view, first, log } => {
            write_supply(out, *view, *first, log.as_slice())
        }
    }
}

/// How many bytes the entries take, as far as numbers go.
fn size_of_entries(log: &[Entry]) -> u64 {
    let mut size = 0u64;
    for entry in log {
        size = size.saturating_add(size_of_entry(entry));
    }
    size
}

/// How many bytes a message takes, or a few more.
fn room_of(message: &VrMessage) -> u64 {
    match message {
        VrMessage::Prepare { entry, .. } => size_of_entry(entry).saturating_add(PREPARE),
        VrMessage::DoViewChange { log, .. }
        | VrMessage::StartView { log, .. }
        | VrMessage::NewState { log, .. }
        | VrMessage::Supply { log, .. } => size_of_entries(log.as_slice()).saturating_add(LOG),
        VrMessage::RecoveryResponse {
            filled: Some(filled),
            ..
        } => size_of_entries(filled.log.as_slice()).saturating_add(LOG),
        _ => PLAIN,
    }
}
