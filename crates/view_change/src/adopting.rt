//! How a member takes the log of a view that has started.
ghost use Rattle.std.specs.Prelude.{◌≡◌, ◌≤◌, IfOk, OnOk};
ghost use Rattle.vr_log.specs.Steps.{Did, is_sound, guarded};
ghost use Rattle.vr_log.specs.Valid.{IsValidState};
ghost use Rattle.view_change.specs.Adopting as adopting;
ghost use Rattle.view_change.specs.Adopting.{adopted_log, adopts};

use std::alloc::AllocError;
use vr_log::{Entries, Status, VrMessage, VrOut, VrState};

/// Takes the log of a view, or asks for what lies between it and what is committed here. Where that is to be
/// dropped nothing changes. Tells whether it is kept. After an `Err` the state is to be dropped.
#[tactic(auto, using(vr_log::proofs::Steps::sound_here))]
pub fn adopt(
    state: &mut VrState,
    view: u32,
    first: u64,
    commit: u64,
    log: Entries,
    out: &mut VrOut,
) -> Result<bool, AllocError>
    requires { IsValidState state.old }
    ensures kept { IfOk result (λ kept. kept ≡ is_sound state.old (adopting.adopt state.old view first commit log).state) }
    ensures step { OnOk result (Did (guarded state.old (adopting.adopt state.old view first commit log)) state.new out.old out.new) }
{
    if state.commit < first {
        state.ask(view, state.commit, out)?;
        Ok(true)
    } else {
        take_log(state, view, first, commit, log, out)
    }
}

/// Takes a log that begins no later than what is committed here.
fn take_log(
    state: &mut VrState,
    view: u32,
    first: u64,
    commit: u64,
    log: Entries,
    out: &mut VrOut,
) -> Result<bool, AllocError>
    requires valid { IsValidState state.old }
    requires first { first ≤ state.old.commit }
    ensures kept { IfOk result (λ kept. kept ≡ is_sound state.old (adopts state.old view first commit log).state) }
    ensures step { OnOk result (Did (guarded state.old (adopts state.old view first commit log)) state.new out.old out.new) }
{
    if !state.replace_log(first, log, state.commit.max(commit))? {
        return Ok(false);
    }
    if state.promise < view {
        out.promise = Some(view);
    }
    state.promise = state.promise.max(view);
    state.view = view;
    state.normal = view;
    state.status = Status::Normal;
    state.supply = None;
    let op = state.log.len() as u64;
    if commit < op {
        out.tell(state.primary_of(view), VrMessage::PrepareOk { view, op })?;
    }
    Ok(true)
}
