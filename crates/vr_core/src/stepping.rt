//! The step of an input's kind.
ghost use Rattle.std.specs.Prelude.{OnOk};
ghost use Rattle.vr_log.specs.Steps.{Did};
ghost use Rattle.vr_log.specs.Valid.{IsValidState};
ghost use Rattle.vr_core.specs.Step.{on_vr, vr_step};

use crate::input::VrInput;
use std::alloc::AllocError;
use view_change::{
    on_do_view_change, on_fetch, on_start_view, on_start_view_change, on_supply, suspect,
};
use vr_log::{VrMessage, VrOut, VrState};
use vr_normal::{on_commit, on_prepare, on_prepare_ok, tick};
use vr_recovery::{on_get_state, on_new_state, on_recovery, on_response};

/// The step of an input. After an `Err` the state is to be dropped.
#[inline(always)]
pub(crate) fn take(state: &mut VrState, input: VrInput, out: &mut VrOut) -> Result<(), AllocError>
    requires { IsValidState state.old }
    ensures step { OnOk result (Did (vr_step state.old input) state.new out.old out.new) }
    ensures valid { OnOk result (IsValidState state.new) }
{
    match input {
        VrInput::From { from, message } => on_message(state, from, message, out),
        VrInput::Suspect { view } => suspect(state, view, out),
        VrInput::Tick => tick(state, out),
    }
}

/// A message of another member.
#[tactic(auto, unfolding(crate::specs::Step::on_vr))]
fn on_message(
    state: &mut VrState,
    from: u8,
    message: VrMessage,
    out: &mut VrOut,
) -> Result<(), AllocError>
    requires { IsValidState state.old }
    ensures step { OnOk result (Did (on_vr state.old from message) state.new out.old out.new) }
    ensures valid { OnOk result (IsValidState state.new) }
{
    match message {
        VrMessage::Prepare {
            view,
            op,
            commit,
            entry,
        } => on_prepare(state, from, view, op, commit, entry, out),
        VrMessage::PrepareOk { view, op } => Ok(on_prepare_ok(state, from, view, op)),
        VrMessage::Commit { view, commit } => on_commit(state, from, view, commit, out),
        VrMessage::StartViewChange { view } => on_start_view_change(state, from, view, out),
        VrMessage::DoViewChange {
            view,
            normal,
            commit,
            log,
        } => on_do_view_change(state, from, view, normal, commit, log, out),
        VrMessage::StartView {
            view,
            first,
            commit,
            log,
        } => on_start_view(state, from, view, first, commit, log, out),
        VrMessage::Recovery { nonce, promise } => on_recovery(state, from, nonce, promise, out),
        VrMessage::RecoveryResponse {
            view,
            nonce,
            filled,
        } => on_response(state, from, view, nonce, filled, out),
        VrMessage::GetState { view, op } => on_get_state(state, from, view, op, out),
        VrMessage::NewState {
            view,
            first,
            commit,
            log,
        } => on_new_state(state, from, view, first, commit, log, out),
        VrMessage::Fetch { view, op } => on_fetch(state, from, view, op, out),
        VrMessage::Supply { view, first, log } => on_supply(state, from, view, first, log, out),
    }
}
