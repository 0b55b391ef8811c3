//! What a member of a group of three does in the normal case.
ghost use Rattle.std.specs.Prelude.{◌<◌, IfOk};
ghost use Rattle.vr_log.specs.Log.{IsLog};
ghost use Rattle.vr_log.specs.Valid.{IsValidState};

use crate::entries::{Short, append, entry_of};
use std::alloc::{AllocError, Global};
use vr_log::{Log, Mail, Receivers, VrMessage, VrOut, VrState};
use vr_normal::{ProposeFault, propose, tick};

/// A log of so many entries, all of switch 0.
fn log_of(alloc: Global, entries: u64) -> Result<Log, AllocError>
    ensures { IfOk result (λ log. IsLog log) }
{
    let mut log = Log::new(alloc);
    for number in 0..entries {
        append(&mut log, entry_of(Short::Down(0, 0, number)))?;
    }
    if log.as_slice().len() as u64 != entries {
        return Err(AllocError);
    }
    Ok(log)
}

/// A member with so many entries.
fn member(alloc: Global, me: u8, entries: u64) -> Result<VrState, AllocError>
    requires { me < 3 }
    ensures { IfOk result (λ s. IsValidState s) }
{
    let log = log_of(alloc, entries)?;
    let mut state = VrState::new(alloc, me, 3)?;
    state.log = log;
    Ok(state)
}

/// Whether a mail has the entry of this number for this member, and tells that none is committed.
fn prepares(mail: &Mail, member: u8, number: u64) -> bool {
    match &mail.message {
        VrMessage::Prepare { op, commit, .. } => mail.to == Receivers::One(member)
            && *op == number
            && *commit == 0,
        _ => false,
    }
}

/// Whether mails have the first eight entries, to one other member and then to the other.
fn are_eight_each(mails: &[Mail]) -> bool {
    mails.len() == 16
        && prepares(&mails[0], 1, 1)
        && prepares(&mails[7], 1, 8)
        && prepares(&mails[8], 2, 1)
        && prepares(&mails[15], 2, 8)
}

/// Whether a primary of ten entries that are not committed sends these letters at a tick.
fn repeats_eight(alloc: Global, out: &mut VrOut) -> Result<bool, AllocError> {
    let mut primary = member(alloc, 0, 10)?;
    let ticked = tick(&mut primary, out);
    drop(primary);
    ticked?;
    Ok(are_eight_each(out.letters.as_slice()))
}

/// Of ten entries that are not committed the first eight go out again, to one other member and then to the other.
#[test]
fn a_tick_repeats_eight_entries(rt: HostRuntime) {
    let mut out = VrOut::new(rt.alloc());
    let repeated = repeats_eight(rt.alloc(), &mut out);
    drop(out);
    assert!(rt; repeated == Ok(true));
}

/// Whether a member may not propose its first entry, tells nothing, and has no entry after it.
fn may_not_propose(state: &mut VrState, out: &mut VrOut) -> bool
    requires { IsValidState state.old }
{
    let entry = entry_of(Short::Down(0, 0, 0));
    if !state.log.may_follow(&entry) {
        return false;
    }
    match propose(state, entry, out) {
        Err(ProposeFault::NotPrimary) => out.letters.as_slice().is_empty() && state.log.is_empty(),
        _ => false,
    }
}

/// A member that is not the primary may not propose. Nothing is told, and its log is as before.
#[test]
fn a_backup_may_not_propose(rt: HostRuntime) -> Result<(), AllocError> {
    let mut backup = member(rt.alloc(), 1, 0)?;
    let mut out = VrOut::new(rt.alloc());
    let refused = may_not_propose(&mut backup, &mut out);
    drop(backup);
    drop(out);
    assert!(rt; refused);
    Ok(())
}
