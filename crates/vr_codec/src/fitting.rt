//! What the types of a message say of its numbers. These functions do nothing when they run.
ghost use Rattle.std.specs.Prelude.{◌≡◌, Ok};
ghost use Rattle.vr_codec.specs.Canonical.{canonical_vr};
ghost use Rattle.vr_log.specs.Sizes.{IsValidVr};
ghost use Rattle.vr_codec.specs.Fits.{FitsVrEntry, FitsLog, FitsFilled, FitsVr};
ghost use Rattle.vr_codec.specs.Grammar.{SpellsVr};
ghost use Rattle.vr_codec.specs.Reading.{vr_at};

use of_bytes::{u8_fits, u32_fits, u64_fits};
use of_ravana::happening_fits;
use vr_log::{Entry, Filled, VrMessage};

/// Each number fits its field.
pub fn vr_fits(message: &VrMessage)
    ensures { FitsVr message.now }
{
    match message {
        VrMessage::Prepare {
            view,
            op,
            commit,
            entry,
        } => {
            u32_fits(*view);
            u64_fits(*op);
            u64_fits(*commit);
            entry_fits(entry);
        }
        VrMessage::PrepareOk { view, op }
        | VrMessage::GetState { view, op }
        | VrMessage::Fetch { view, op } => {
            u32_fits(*view);
            u64_fits(*op);
        }
        VrMessage::Commit { view, commit } => {
            u32_fits(*view);
            u64_fits(*commit);
        }
        VrMessage::StartViewChange { view } => u32_fits(*view),
        VrMessage::DoViewChange {
            view,
            normal,
            commit,
            log,
        } => {
            u32_fits(*view);
            u32_fits(*normal);
            u64_fits(*commit);
            log_fits(log.as_slice());
        }
        VrMessage::StartView {
            view,
            first,
            commit,
            log,
        } => {
            u32_fits(*view);
            u64_fits(*first);
            u64_fits(*commit);
            log_fits(log.as_slice());
        }
        VrMessage::Recovery { nonce, promise } => {
            u64_fits(*nonce);
            u32_fits(*promise);
        }
        VrMessage::RecoveryResponse {
            view,
            nonce,
            filled,
        } => {
            u32_fits(*view);
            u64_fits(*nonce);
            filled_fits(filled);
        }
        VrMessage::NewState {
            view,
            first,
            commit,
            log,
        } => {
            u32_fits(*view);
            u64_fits(*first);
            u64_fits(*commit);
            log_fits(log.as_slice());
        }
        VrMessage::Supply { view, first, log } => {
            u32_fits(*view);
            u64_fits(*first);
            log_fits(log.as_slice());
        }
    }
}

/// The bytes of a valid message spell it, and are read again as it. For those who prove something of a
/// message that they write.
pub fn reads_back(message: &VrMessage)
    ensures spelled { IsValidVr message.now → SpellsVr (canonical_vr message.now) message.now }
    ensures again { IsValidVr message.now → vr_at (canonical_vr message.now) ≡ Ok message.now }
{
    vr_fits(message);
}

fn entry_fits(entry: &Entry)
    ensures { FitsVrEntry entry.now }
{
    match entry {
        Entry::Received(event) => {
            u8_fits(event.switch);
            u32_fits(event.life);
            u64_fits(event.number);
            happening_fits(&event.what);
        }
        Entry::Processed(place) => u64_fits(*place),
    }
}

fn log_fits(log: &[Entry])
    ensures { FitsLog log.now }
{
    for entry in log {
        entry_fits(entry);
    }
}

fn filled_fits(filled: &Option<Filled>)
    ensures { FitsFilled filled.now }
{
    if let Some(filled) = filled {
        u64_fits(filled.commit);
        log_fits(filled.log.as_slice());
    }
}
