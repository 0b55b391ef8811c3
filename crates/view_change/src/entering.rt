//! How a member enters a view, and votes for it.
ghost use Rattle.std.specs.Prelude.{◌≡◌, ◌<◌, ◌≤◌, not, length, take, IfOk, OnOk};
ghost use Rattle.of_types.specs.SmallSets.{with_number};
ghost use Rattle.vr_log.specs.Choosing.{has_collected};
ghost use Rattle.vr_log.specs.Steps.{Did};
ghost use Rattle.view_change.specs.Entering as entering;
ghost use Rattle.view_change.specs.Entering.{collects, sends_log, votes};

use std::alloc::{AllocError, Global};
use std::mem;
use vr_log::{Collected, Collection, Members, Status, VrMessage, VrOut, VrState};

/// Enters a later view: it is promised, and the others are told.
pub(crate) fn enter(state: &mut VrState, view: u32, out: &mut VrOut) -> Result<(), AllocError>
    ensures { OnOk result (Did (entering.enter state.old view) state.new out.old out.new) }
{
    let alloc = state.log.allocator();
    state.promise = view;
    state.view = view;
    state.status = Status::ViewChange;
    state.votes = Members::new(alloc);
    state.sent = false;
    state.collected = Collection::new(alloc);
    state.supply = None;
    out.promise = Some(view);
    let message = VrMessage::StartViewChange { view };
    out.tell_others(state.me, state.controllers, message)
}

/// These votes with that of one more member, ascending.
pub(crate) fn with_vote(alloc: Global, votes: &Members, member: u8) -> Result<Members, AllocError>
    ensures { IfOk result (λ joined. joined ≡ with_number member votes.now) }
{
    let mut joined = Members::new(alloc);
    'below: for vote in votes.as_slice() {
        if *vote < member {
            joined.push(*vote)?;
        }
    }
    joined.push(member)?;
    'above: for vote in votes.as_slice() {
        if member < *vote {
            joined.push(*vote)?;
        }
    }
    Ok(joined)
}

/// Collects a log, unless one of its sender was collected.
pub(crate) fn collect(state: &mut VrState, log: Collected) -> Result<(), AllocError>
    ensures { OnOk result (state.new ≡ collects state.old log) }
{
    if !state.has_collected(log.from) {
        state.collected.push(log)?;
    }
    Ok(())
}

/// The first so many of these logs.
pub(crate) fn truncate(logs: &mut Collection, alloc: Global, len: usize)
    ensures { logs.new ≡ take len logs.old }
{
    let mut kept = mem::replace(logs, Collection::new(alloc)).into_vec();
    kept.truncate(len);
    *logs = Collection::from_vec(kept);
}

/// Sends the log to the primary of the view. A primary keeps its own.
fn send_log(state: &mut VrState, out: &mut VrOut) -> Result<(), AllocError>
    requires { 0 < state.old.controllers }
    ensures { OnOk result (Did (sends_log state.old) state.new out.old out.new) }
{
    let log = state.log.entries_after(state.commit as usize)?;
    let view = state.view;
    let normal = state.normal;
    let commit = state.commit;
    if state.is_primary() {
        let from = state.me;
        collect(
            state,
            Collected {
                from,
                normal,
                commit,
                log,
            },
        )?;
    } else {
        let message = VrMessage::DoViewChange {
            view,
            normal,
            commit,
            log,
        };
        out.tell(state.primary_of(view), message)?;
    }
    state.sent = true;
    Ok(())
}

/// Where f others voted, the log is sent, once.
pub(crate) fn vote(state: &mut VrState, out: &mut VrOut) -> Result<(), AllocError>
    requires { 0 < state.old.controllers }
    ensures { OnOk result (Did (votes state.old) state.new out.old out.new) }
{
    if state.most_failures() <= state.votes.len() && !state.sent {
        send_log(state, out)
    } else {
        Ok(())
    }
}
