//! Check: the vote for a view, and its start.
ghost use Rattle.std.specs.Prelude.{◌≡◌, ◌<◌, ◌≤◌, length, IfSome, IfOk, OnOk};
ghost use Rattle.vr_log.specs.Log.{IsLog};
ghost use Rattle.vr_log.specs.Steps.{Did, is_sound, guarded};
ghost use Rattle.vr_log.specs.Valid.{IsValidState};
ghost use Rattle.view_change.specs.Cases.{enters};
ghost use Rattle.view_change.specs.Entering as entering;

use crate::entering::{enter, truncate, vote};
use crate::starting::choose;
use std::alloc::AllocError;
use vr_log::{VrOut, VrState};

/// Check: the vote, and the start of the view. Where that is to be dropped nothing changes. Tells whether it
/// is kept.
pub(crate) fn check(state: &mut VrState, out: &mut VrOut) -> Result<bool, AllocError>
    requires log { IsLog state.old.log }
    requires group { 0 < state.old.controllers }
    requires commit { state.old.commit ≤ length state.old.log }
    requires supply { IfSome state.old.supply (λ supplied. supplied.first ≤ state.old.commit) }
    ensures kept { IfOk result (λ kept. kept ≡ is_sound state.old (entering.check state.old).state) }
    ensures step { OnOk result (Did (guarded state.old (entering.check state.old)) state.new out.old out.new) }
{
    let sent = state.sent;
    let collected = state.collected.len();
    vote(state, out)?;
    let kept = choose(state, out)?;
    if !kept {
        state.sent = sent;
        let alloc = state.log.allocator();
        truncate(&mut state.collected, alloc, collected);
    }
    Ok(kept)
}

/// Enters a later view, and does Check. After an `Err` the state is to be dropped.
pub fn enter_and_check(state: &mut VrState, view: u32, out: &mut VrOut) -> Result<(), AllocError>
    requires { IsValidState state.old }
    ensures { OnOk result (Did (guarded state.old (enters state.old view)) state.new out.old out.new) }
{
    enter(state, view, out)?;
    check(state, out)?;
    Ok(())
}
