//! Reading a message from left to right.
ghost use Rattle.std.specs.Prelude.{◌≡◌, ◌≤◌, ℕ, List, Ok, length, IfOk};
ghost use Rattle.vr_log.specs.declared.entry.Entry.{Entry};
ghost use Rattle.vr_log.specs.declared.message.VrMessage.{VrMessage};
ghost use Rattle.vr_log.specs.Log.{entry_size};
ghost use Rattle.vr_codec.specs.Answers.{GivesVr, IsVrRead};
ghost use Rattle.vr_codec.specs.Canonical.{canonical_entry, canonical_vr};
ghost use Rattle.vr_log.specs.Sizes.{IsValidVr};
ghost use Rattle.vr_codec.specs.Fits.{FitsVr};
ghost use Rattle.vr_codec.specs.Grammar.{SpellsVr};
ghost use Rattle.vr_codec.specs.Reading.{prepare_at, do_view_change_at, filled_at, option_at, response_at, log_behind_at, as_start_view, as_new_state, supply_at, vr_body_at, vr_at};

use crate::entries::{read_last_entry, read_last_log};
use crate::fault::{VrFault, VrRefusal};
use of_bytes::{u8_at, u32_at, u64_at};
use std::alloc::Global;
use vr_log::{Entries, Filled, VrMessage};

/// Reads a message between members of a group. The first refusal that holds is the answer, from left to
/// right: bytes that end too early at a field; a kind that is not known; the limits of a log, on entries
/// at its count and on bytes behind each entry; the length of an event's message, and then that message;
/// and last, bytes that are left over.
pub fn decode_vr(alloc: Global, bytes: &[u8]) -> Result<VrMessage, VrFault>
    // What is read is spelled so.
    ensures found { IfOk result (λ m. SpellsVr bytes.now m) }
    // What is read is valid.
    ensures valid { IfOk result (λ m. IsValidVr m) }
    // What is spelled so is read, unless memory runs out.
    ensures only { (m : VrMessage) → SpellsVr bytes.now m → IsVrRead m result }
    // Which answer it is.
    ensures exact { GivesVr (λ m. m) result (vr_at bytes.now) }
{
    first_answer(alloc, bytes)
}

/// Laws of these messages as bytes.
pub fn vr_law()
    // What is written is read again.
    ensures again { (m : VrMessage) → IsValidVr m → FitsVr m → vr_at (canonical_vr m) ≡ Ok m }
    // Bytes spell at most one message.
    ensures one { (bytes : List ℕ) (m other : VrMessage) → SpellsVr bytes m → SpellsVr bytes other → m ≡ other }
    // An entry has as many bytes as its size in a log tells.
    ensures size { (entry : Entry) → length (canonical_entry entry) ≡ entry_size entry }
{}

#[tactic(auto, unfolding(crate::specs::Reading::prepare_at))]
fn read_prepare(alloc: Global, bytes: &[u8]) -> Result<VrMessage, VrFault>
    ensures { GivesVr (λ m. m) result (prepare_at bytes.now) }
{
    if bytes.len() < 21 {
        return Err(VrFault::Refused(VrRefusal::Short));
    }
    let entry = read_last_entry(alloc, &bytes[21..])?;
    Ok(VrMessage::Prepare {
        view: u32_at(bytes, 1),
        op: u64_at(bytes, 5),
        commit: u64_at(bytes, 13),
        entry,
    })
}

#[tactic(auto, unfolding(crate::specs::Reading::do_view_change_at))]
fn read_do_view_change(alloc: Global, bytes: &[u8]) -> Result<VrMessage, VrFault>
    ensures { GivesVr (λ m. m) result (do_view_change_at bytes.now) }
{
    if bytes.len() < 17 {
        return Err(VrFault::Refused(VrRefusal::Short));
    }
    let log = read_last_log(alloc, &bytes[17..])?;
    Ok(VrMessage::DoViewChange {
        view: u32_at(bytes, 1),
        normal: u32_at(bytes, 5),
        commit: u64_at(bytes, 9),
        log,
    })
}

#[tactic(auto, unfolding(crate::specs::Reading::supply_at))]
fn read_supply(alloc: Global, bytes: &[u8]) -> Result<VrMessage, VrFault>
    ensures { GivesVr (λ m. m) result (supply_at bytes.now) }
{
    if bytes.len() < 13 {
        return Err(VrFault::Refused(VrRefusal::Short));
    }
    let log = read_last_log(alloc, &bytes[13..])?;
    Ok(VrMessage::Supply {
        view: u32_at(bytes, 1),
        first: u64_at(bytes, 5),
        log,
    })
}

/// The commit number and the log of a response that has them.
#[tactic(auto, unfolding(crate::specs::Reading::filled_at))]
fn read_filled(alloc: Global, bytes: &[u8]) -> Result<Option<Filled>, VrFault>
    ensures { GivesVr (λ filled. filled) result (filled_at bytes.now) }
{
    if bytes.len() < 22 {
        return Err(VrFault::Refused(VrRefusal::Short));
    }
    let (_, rest) = bytes.split_at(22);
    let log = read_last_log(alloc, rest)?;
    Ok(Some(Filled {
        commit: u64_at(bytes, 14),
        log,
    }))
}

#[tactic(auto, unfolding(crate::specs::Reading::option_at))]
fn read_option(alloc: Global, bytes: &[u8]) -> Result<Option<Filled>, VrFault>
    requires { 14 ≤ length bytes.now }
    ensures { GivesVr (λ filled. filled) result (option_at bytes.now) }
{
    match u8_at(bytes, 13) {
        0 => {
            if bytes.len() > 14 {
                return Err(VrFault::Refused(VrRefusal::BadLength));
            }
            Ok(None)
        }
        1 => read_filled(alloc, bytes),
        _ => Err(VrFault::Refused(VrRefusal::BadKind)),
    }
}

#[tactic(auto, unfolding(crate::specs::Reading::response_at))]
fn read_response(alloc: Global, bytes: &[u8]) -> Result<VrMessage, VrFault>
    ensures { GivesVr (λ m. m) result (response_at bytes.now) }
{
    if bytes.len() < 14 {
        return Err(VrFault::Refused(VrRefusal::Short));
    }
    let filled = read_option(alloc, bytes)?;
    Ok(VrMessage::RecoveryResponse {
        view: u32_at(bytes, 1),
        nonce: u64_at(bytes, 5),
        filled,
    })
}

/// STARTVIEW and NEWSTATE have a view, a place, a commit number and the entries behind that place.
#[tactic(auto, unfolding(crate::specs::Reading::log_behind_at))]
fn read_log_behind(alloc: Global, bytes: &[u8]) -> Result<(u32, u64, u64, Entries), VrFault>
    ensures { GivesVr (λ x. x) result (log_behind_at bytes.now) }
{
    if bytes.len() < 21 {
        return Err(VrFault::Refused(VrRefusal::Short));
    }
    let log = read_last_log(alloc, &bytes[21..])?;
    Ok((u32_at(bytes, 1), u64_at(bytes, 5), u64_at(bytes, 13), log))
}

fn read_start_view(alloc: Global, bytes: &[u8]) -> Result<VrMessage, VrFault>
    ensures { GivesVr (λ m. m) result (as_start_view (log_behind_at bytes.now)) }
{
    let (view, first, commit, log) = read_log_behind(alloc, bytes)?;
    Ok(VrMessage::StartView {
        view,
        first,
        commit,
        log,
    })
}

fn read_new_state(alloc: Global, bytes: &[u8]) -> Result<VrMessage, VrFault>
    ensures { GivesVr (λ m. m) result (as_new_state (log_behind_at bytes.now)) }
{
    let (view, first, commit, log) = read_log_behind(alloc, bytes)?;
    Ok(VrMessage::NewState {
        view,
        first,
        commit,
        log,
    })
}

/// The bytes are so many.
fn has_size(bytes: &[u8], size: usize) -> Result<(), VrRefusal>
    ensures { result ≡ Rattle.vr_codec.specs.Reading.size_at size bytes.now }
{
    if bytes.len() < size {
        return Err(VrRefusal::Short);
    }
    if bytes.len() > size {
        return Err(VrRefusal::BadLength);
    }
    Ok(())
}

/// PREPAREOK, COMMIT, GETSTATE and FETCH have a view and a number.
#[tactic(auto, unfolding(crate::specs::Reading::numbered_at))]
fn read_numbered(bytes: &[u8]) -> Result<(u32, u64), VrRefusal>
    ensures { result ≡ Rattle.vr_codec.specs.Reading.numbered_at bytes.now }
{
    has_size(bytes, 13)?;
    Ok((u32_at(bytes, 1), u64_at(bytes, 5)))
}

#[tactic(auto, unfolding(crate::specs::Reading::start_view_change_at))]
fn read_start_view_change(bytes: &[u8]) -> Result<VrMessage, VrRefusal>
    ensures { result ≡ Rattle.vr_codec.specs.Reading.start_view_change_at bytes.now }
{
    has_size(bytes, 5)?;
    Ok(VrMessage::StartViewChange {
        view: u32_at(bytes, 1),
    })
}

#[tactic(auto, unfolding(crate::specs::Reading::recovery_at))]
fn read_recovery(bytes: &[u8]) -> Result<VrMessage, VrRefusal>
    ensures { result ≡ Rattle.vr_codec.specs.Reading.recovery_at bytes.now }
{
    has_size(bytes, 13)?;
    Ok(VrMessage::Recovery {
        nonce: u64_at(bytes, 1),
        promise: u32_at(bytes, 9),
    })
}

/// A message of this kind.
#[tactic(auto, unfolding(crate::specs::Reading::vr_body_at))]
fn read_body(alloc: Global, kind: u8, bytes: &[u8]) -> Result<VrMessage, VrFault>
    ensures { GivesVr (λ m. m) result (vr_body_at kind bytes.now) }
{
    match kind {
        1 => read_prepare(alloc, bytes),
        2 => {
            let (view, op) = read_numbered(bytes)?;
            Ok(VrMessage::PrepareOk { view, op })
        }
        3 => {
            let (view, commit) = read_numbered(bytes)?;
            Ok(VrMessage::Commit { view, commit })
        }
        4 => {
            let message = read_start_view_change(bytes)?;
            Ok(message)
        }
        5 => read_do_view_change(alloc, bytes),
        6 => read_start_view(alloc, bytes),
        7 => {
            let message = read_recovery(bytes)?;
            Ok(message)
        }
        8 => read_response(alloc, bytes),
        9 => {
            let (view, op) = read_numbered(bytes)?;
            Ok(VrMessage::GetState { view, op })
        }
        10 => read_new_state(alloc, bytes),
        11 => {
            let (view, op) = read_numbered(bytes)?;
            Ok(VrMessage::Fetch { view, op })
        }
        12 => read_supply(alloc, bytes),
        _ => Err(VrFault::Refused(VrRefusal::BadKind)),
    }
}

#[tactic(auto, unfolding(crate::specs::Reading::vr_at))]
fn first_answer(alloc: Global, bytes: &[u8]) -> Result<VrMessage, VrFault>
    ensures { GivesVr (λ m. m) result (vr_at bytes.now) }
{
    if bytes.is_empty() {
        return Err(VrFault::Refused(VrRefusal::Short));
    }
    read_body(alloc, u8_at(bytes, 0), bytes)
}
