//! What is sent again when time passes.
ghost use Rattle.std.specs.Prelude.{◌≡◌, ◌<◌, ◌≤◌, ◌+◌, ◌^◌, ◌++◌, length, OnOk};
ghost use Rattle.vr_log.specs.declared.message.VrMessage.TheVariants as message;
ghost use Rattle.vr_log.specs.Steps.{Did, to_others};
ghost use Rattle.vr_log.specs.Valid.{IsValidState};
ghost use Rattle.vr_normal.specs.Ticks.{prepares_from, repeats_to, sent_log, tick_primary, tick_changing, tick_recovering, ticked};

use std::alloc::AllocError;
use vr_log::{Entry, Status, VrMessage, VrOut, VrState};

/// How many entries are sent again at once.
const MOST_REPEATED: usize = 8;

/// Sends again what may have been lost. The state stays. After an `Err` it is to be dropped.
pub fn tick(state: &mut VrState, out: &mut VrOut) -> Result<(), AllocError>
    requires { IsValidState state.old }
    ensures step { OnOk result (Did (ticked state.old) state.new out.old out.new) }
    ensures valid { IsValidState state.new }
{
    match state.status {
        Status::Normal => {
            if state.is_primary() {
                tick_as_primary(state, out)
            } else {
                Ok(())
            }
        }
        Status::ViewChange => tick_as_changing(state, out),
        Status::Recovering => tick_as_recovering(state, out),
        Status::Down => Ok(()),
    }
}

/// Entries again for one member, the first of them with this op.
fn repeat_entries(
    state: &VrState,
    first: u64,
    entries: &[Entry],
    to: u8,
    out: &mut VrOut,
) -> Result<(), AllocError>
    requires { first + length entries.now < 2 ^ 64 }
    ensures promise { out.new.promise ≡ out.old.promise }
    ensures letters { OnOk result (out.new.letters ≡ out.old.letters ++ prepares_from state.now.view state.now.commit first entries.now to) }
{
    let mut op = first;
    for entry in entries {
        let message = VrMessage::Prepare {
            view: state.view,
            op,
            commit: state.commit,
            entry: entry.copy()?,
        };
        out.tell(to, message)?;
        op += 1;
    }
    Ok(())
}

/// What the primary tells one member again.
fn repeat_to(state: &VrState, to: u8, out: &mut VrOut) -> Result<(), AllocError>
    requires { state.now.commit ≤ length state.now.log }
    ensures promise { out.new.promise ≡ out.old.promise }
    ensures letters { OnOk result (out.new.letters ≡ out.old.letters ++ repeats_to state.now to) }
{
    let log = state.log.as_slice();
    let commit = state.commit;
    if commit == log.len() as u64 {
        let view = state.view;
        out.tell(to, VrMessage::Commit { view, commit })
    } else {
        let rest = &log[commit as usize..];
        let front = &rest[..rest.len().min(MOST_REPEATED)];
        repeat_entries(state, commit + 1, front, to, out)
    }
}

fn tick_as_primary(state: &VrState, out: &mut VrOut) -> Result<(), AllocError>
    requires { IsValidState state.now }
    ensures { OnOk result (Did (tick_primary state.now) state.now out.old out.new) }
{
    for to in 0..state.controllers {
        if to != state.me {
            repeat_to(state, to, out)?;
        }
    }
    Ok(())
}

/// The vote again.
fn vote_again(state: &VrState, out: &mut VrOut) -> Result<(), AllocError>
    ensures promise { out.new.promise ≡ out.old.promise }
    ensures letters { OnOk result (out.new.letters ≡ out.old.letters ++ to_others state.now (message.StartViewChange state.now.view)) }
{
    let message = VrMessage::StartViewChange { view: state.view };
    out.tell_others(state.me, state.controllers, message)
}

/// The log again, where it was sent. No member sends its log to itself.
fn send_log_again(state: &VrState, out: &mut VrOut) -> Result<(), AllocError>
    requires { IsValidState state.now }
    ensures promise { out.new.promise ≡ out.old.promise }
    ensures letters { OnOk result (out.new.letters ≡ out.old.letters ++ sent_log state.now) }
{
    if !state.sent || state.is_primary() {
        return Ok(());
    }
    let message = VrMessage::DoViewChange {
        view: state.view,
        normal: state.normal,
        commit: state.commit,
        log: state.log.entries_after(state.commit as usize)?,
    };
    out.tell(state.primary_of(state.view), message)
}

fn tick_as_changing(state: &VrState, out: &mut VrOut) -> Result<(), AllocError>
    requires { IsValidState state.now }
    ensures { OnOk result (Did (tick_changing state.now) state.now out.old out.new) }
{
    vote_again(state, out)?;
    send_log_again(state, out)?;
    state.fetch(out)
}

fn tick_as_recovering(state: &VrState, out: &mut VrOut) -> Result<(), AllocError>
    ensures { OnOk result (Did (tick_recovering state.now) state.now out.old out.new) }
{
    let message = VrMessage::Recovery {
        nonce: state.life,
        promise: state.promise,
    };
    out.tell_others(state.me, state.controllers, message)
}
