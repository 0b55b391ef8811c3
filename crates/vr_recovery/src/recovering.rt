//! How a member comes back with nothing but its stable pair, a promise and a life. After an `Err` the state is to be
//! dropped.
ghost use Rattle.std.specs.Prelude.{◌≡◌, ◌<◌, ◌∷◌, [], Contains, IfOk, OnOk};
ghost use Rattle.vr_log.specs.Steps.{Did, guarded};
ghost use Rattle.vr_log.specs.Valid.{IsValidState};
ghost use Rattle.vr_recovery.specs.Recovering as recovering;
ghost use Rattle.vr_recovery.specs.Recovering.{restarted, recovers, responded, ending};

use crate::responses::{keep, log_of, restore};
use std::alloc::{AllocError, Global};
use std::mem;
use view_change::{adopt, enter_and_check};
use vr_log::{Filled, Response, Responses, Status, VrMessage, VrOut, VrState, copy_entries};
use vr_quorum::{greatest_view, is_enough};

/// A life of a member begins behind its stable pair: it asks the others for what it has lost.
pub fn restart(
    alloc: Global,
    me: u8,
    controllers: u8,
    promise: u32,
    life: u64,
    out: &mut VrOut,
) -> Result<VrState, AllocError>
    requires group { Contains (1 ∷ 3 ∷ 5 ∷ 7 ∷ []) controllers }
    requires member { me < controllers }
    ensures step { IfOk result (λ state. Did (restarted me controllers promise life) state out.old out.new) }
    ensures valid { IfOk result (λ state. IsValidState state) }
{
    let mut state = VrState::new(alloc, me, controllers)?;
    state.status = Status::Recovering;
    state.promise = promise;
    state.life = life;
    let message = VrMessage::Recovery {
        nonce: life,
        promise,
    };
    out.tell_others(me, controllers, message)?;
    Ok(state)
}

/// What a primary tells of its log.
fn filled(state: &VrState) -> Result<Option<Filled>, AllocError>
    requires { 0 < state.now.controllers }
    ensures { IfOk result (λ told. told ≡ recovering.filled state.now) }
{
    if !state.is_primary() {
        return Ok(None);
    }
    Ok(Some(Filled {
        commit: state.commit,
        log: copy_entries(state.log.allocator(), state.log.as_slice())?,
    }))
}

/// Tells a member in recovery the own view.
fn respond(state: &VrState, to: u8, nonce: u64, out: &mut VrOut) -> Result<(), AllocError>
    requires { 0 < state.now.controllers }
    ensures { OnOk result (Did (recovering.responds state.now to nonce) state.now out.old out.new) }
{
    let message = VrMessage::RecoveryResponse {
        view: state.view,
        nonce,
        filled: filled(state)?,
    };
    out.tell(to, message)?;
    Ok(())
}

/// RECOVERY: a member that has lost its state asks for it.
pub fn on_recovery(
    state: &mut VrState,
    from: u8,
    nonce: u64,
    promise: u32,
    out: &mut VrOut,
) -> Result<(), AllocError>
    requires { IsValidState state.old }
    ensures step { OnOk result (Did (recovering.recovery state.old from nonce promise) state.new out.old out.new) }
    ensures valid { OnOk result (IsValidState state.new) }
{
    if !state.is_other(from) {
        return Ok(());
    }
    if !state.is_normal() {
        return Ok(());
    }
    if state.view < promise {
        enter_and_check(state, promise, out)
    } else {
        respond(state, from, nonce, out)
    }
}

/// The log with which recovery ends, where enough members told a view.
fn ending(state: &VrState, responses: &[Response]) -> Result<Option<Filled>, AllocError>
    requires { 0 < state.now.controllers }
    ensures { IfOk result (λ told. told ≡ recovering.ending (record state.now { responses = responses.now })) }
{
    if !is_enough(state, responses) {
        return Ok(None);
    }
    let view = greatest_view(responses);
    match log_of(responses, state.primary_of(view), view) {
        Some(told) => Ok(Some(Filled {
            commit: told.commit,
            log: copy_entries(state.log.allocator(), told.log.as_slice())?,
        })),
        None => Ok(None),
    }
}

/// Keeps a response, and ends recovery where that is possible. Where the log that was told is none, all stays.
fn take_response(state: &mut VrState, response: Response, out: &mut VrOut) -> Result<(), AllocError>
    requires { IsValidState state.old }
    ensures { OnOk result (Did (guarded state.old (recovers (responded state.old response))) state.new out.old out.new) }
{
    let alloc = state.log.allocator();
    let mut responses = mem::replace(&mut state.responses, Responses::new(alloc)).into_vec();
    let former = keep(&mut responses, response)?;
    match ending(state, &responses)? {
        None => state.responses = Responses::from_vec(responses),
        Some(told) => {
            let view = greatest_view(&responses);
            let kept = adopt(state, view, 0, told.commit, told.log, out)?;
            if !kept {
                restore(&mut responses, former);
                state.responses = Responses::from_vec(responses);
            }
        }
    }
    Ok(())
}

/// RECOVERYRESPONSE: an answer to the question of this life.
pub fn on_response(
    state: &mut VrState,
    from: u8,
    view: u32,
    nonce: u64,
    filled: Option<Filled>,
    out: &mut VrOut,
) -> Result<(), AllocError>
    requires { IsValidState state.old }
    ensures step { OnOk result (Did (recovering.response state.old from view nonce filled) state.new out.old out.new) }
    ensures valid { OnOk result (IsValidState state.new) }
{
    if !state.is_other(from) {
        return Ok(());
    }
    if !state.is_recovering() {
        return Ok(());
    }
    if nonce != state.life {
        return Ok(());
    }
    let response = Response { from, view, filled };
    take_response(state, response, out)
}
