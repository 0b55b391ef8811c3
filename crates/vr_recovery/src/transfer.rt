//! How a member tells another what that one lacks of the log. After an `Err` the state is to be dropped.
ghost use Rattle.std.specs.Prelude.{◌≡◌, ◌<◌, ◌≤◌, ◌+◌, length, OnOk};
ghost use Rattle.vr_log.specs.Steps.{Did};
ghost use Rattle.vr_log.specs.Valid.{IsValidState};
ghost use Rattle.vr_recovery.specs.Cases.{get_state, is_longer, is_adopted, completes, new_state};

use std::alloc::AllocError;
use view_change::adopt;
use vr_log::{Entries, Entry, VrMessage, VrOut, VrState, copy_entries};

/// GETSTATE: a member asks for what follows an op of the log.
pub fn on_get_state(
    state: &mut VrState,
    from: u8,
    view: u32,
    op: u64,
    out: &mut VrOut,
) -> Result<(), AllocError>
    requires { IsValidState state.old }
    ensures step { OnOk result (Did (get_state state.old from view op) state.new out.old out.new) }
    ensures valid { IsValidState state.new }
{
    if !state.is_other(from) {
        return Ok(());
    }
    if !(state.is_here(view) && op <= state.log.len() as u64) {
        return Ok(());
    }
    let message = VrMessage::NewState {
        view,
        first: op,
        commit: state.commit,
        log: state.log.entries_after(op as usize)?,
    };
    out.tell(from, message)
}

/// Whether entries behind an op join the log of this member, and go on behind it.
fn is_longer(state: &VrState, view: u32, first: u64, log: &[Entry]) -> bool
    requires { 0 < state.now.controllers }
    ensures { result ≡ is_longer state.now view first log.now }
{
    let len = state.log.len() as u64;
    let joins = state.is_here(view) && !state.is_primary() && first <= len;
    joins && len - first < log.len() as u64
}

/// Whether a log of a newer view, of which this member is not the primary, is adopted.
fn is_adopted(state: &VrState, view: u32, first: u64) -> bool
    requires { 0 < state.now.controllers }
    ensures { result ≡ is_adopted state.now view first }
{
    !state.is_primary_of(state.me, view) && first <= state.commit && state.is_newer(view)
}

/// Appends the entries that this member lacks, and acknowledges its log.
fn complete(
    state: &mut VrState,
    first: u64,
    commit: u64,
    log: &[Entry],
    out: &mut VrOut,
) -> Result<(), AllocError>
    requires group { 0 < state.old.controllers }
    requires joins { first ≤ length state.old.log }
    requires longer { length state.old.log < first + length log.now }
    ensures { OnOk result (Did (completes state.old first commit log.now) state.new out.old out.new) }
{
    let len = state.log.len();
    let known = len - first as usize;
    let lacking = copy_entries(state.log.allocator(), &log[known..])?;
    if state.log.replace_after(len, lacking)? {
        state.acknowledge(commit, out)
    } else {
        Ok(())
    }
}

/// NEWSTATE: another member tells the entries behind an op of the log.
pub fn on_new_state(
    state: &mut VrState,
    from: u8,
    view: u32,
    first: u64,
    commit: u64,
    log: Entries,
    out: &mut VrOut,
) -> Result<(), AllocError>
    requires { IsValidState state.old }
    ensures step { OnOk result (Did (new_state state.old from view first commit log) state.new out.old out.new) }
    ensures valid { OnOk result (IsValidState state.new) }
{
    if !state.is_other(from) {
        return Ok(());
    }
    if is_longer(state, view, first, log.as_slice()) {
        return complete(state, first, commit, log.as_slice(), out);
    }
    if !is_adopted(state, view, first) {
        return Ok(());
    }
    adopt(state, view, first, commit, log, out)?;
    Ok(())
}
