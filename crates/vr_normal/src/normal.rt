//! The steps of the normal case, each with the fields of its message. After want of memory the state is to be dropped.
ghost use Rattle.std.specs.Prelude.{◌≡◌, ◌<◌, ◌++◌, true, OnOk};
ghost use Rattle.vr_log.specs.Log.{fits, may_follow};
ghost use Rattle.vr_log.specs.Steps.{Did, quiet, to_others};
ghost use Rattle.vr_log.specs.declared.message.VrMessage.TheVariants as message;
ghost use Rattle.vr_log.specs.Valid.{IsValidState};
ghost use Rattle.vr_normal.specs.Cases.{asks_later, prepares, prepare, commits, commit_told, prepare_ok};
ghost use Rattle.vr_normal.specs.Proposing.{proposed, Proposes};

use crate::acks::agreed_op;
use std::alloc::AllocError;
use vr_log::{Entry, LogFull, VrMessage, VrOut, VrState};
use vr_quorum::own_commit;

/// Why an entry was not proposed.
#[derive(Debug, Drop)]
pub enum ProposeFault {
    NotPrimary,
    LogFull(LogFull),
    OutOfMemory,
}

fn ask_later(state: &VrState, view: u32, out: &mut VrOut) -> Result<(), AllocError>
    requires { 0 < state.now.controllers }
    ensures { OnOk result (Did (asks_later state.now view) state.now out.old out.new) }
{
    if state.is_later(view) {
        state.ask(view, state.commit, out)
    } else {
        Ok(())
    }
}

/// A PREPARE of the view in which this member is normal.
#[inline(always)]
fn take_prepare(
    state: &mut VrState,
    op: u64,
    commit: u64,
    entry: Entry,
    out: &mut VrOut,
) -> Result<(), AllocError>
    requires { 0 < state.old.controllers }
    ensures { OnOk result (Did (prepares state.old op commit entry) state.new out.old out.new) }
{
    let len = state.log.len() as u64;
    if op <= len {
        state.acknowledge(commit, out)
    } else if op == len + 1 {
        if state.log.takes(&entry) {
            state.log.append(entry)?;
            state.acknowledge(commit, out)
        } else {
            Ok(())
        }
    } else {
        state.ask(state.view, len, out)
    }
}

/// PREPARE: the primary has an entry.
#[inline(always)]
pub fn on_prepare(
    state: &mut VrState,
    from: u8,
    view: u32,
    op: u64,
    commit: u64,
    entry: Entry,
    out: &mut VrOut,
) -> Result<(), AllocError>
    requires { IsValidState state.old }
    ensures step { OnOk result (Did (prepare state.old from view op commit entry) state.new out.old out.new) }
    ensures valid { OnOk result (IsValidState state.new) }
{
    if !(state.is_other(from) && state.is_primary_of(from, view)) {
        Ok(())
    } else if state.is_here(view) {
        take_prepare(state, op, commit, entry, out)
    } else {
        ask_later(state, view, out)
    }
}

/// A COMMIT of the view in which this member is normal.
#[inline(always)]
fn take_commit(state: &mut VrState, commit: u64, out: &mut VrOut) -> Result<(), AllocError>
    requires { 0 < state.old.controllers }
    ensures { OnOk result (Did (commits state.old commit) state.new out.old out.new) }
{
    let len = state.log.len() as u64;
    if commit <= len {
        state.commit = state.commit.max(commit);
        Ok(())
    } else {
        state.ask(state.view, len, out)
    }
}

/// COMMIT: the primary tells how much is committed.
#[inline(always)]
pub fn on_commit(
    state: &mut VrState,
    from: u8,
    view: u32,
    commit: u64,
    out: &mut VrOut,
) -> Result<(), AllocError>
    requires { IsValidState state.old }
    ensures step { OnOk result (Did (commit_told state.old from view commit) state.new out.old out.new) }
    ensures valid { OnOk result (IsValidState state.new) }
{
    if !(state.is_other(from) && state.is_primary_of(from, view)) {
        Ok(())
    } else if state.is_here(view) {
        take_commit(state, commit, out)
    } else {
        ask_later(state, view, out)
    }
}

/// PREPAREOK: another member has the log up to an op. It sends nothing, and takes no memory.
#[inline(always)]
pub fn on_prepare_ok(state: &mut VrState, from: u8, view: u32, op: u64)
    requires { IsValidState state.old }
    ensures step { quiet state.new ≡ prepare_ok state.old from view op }
    ensures valid { IsValidState state.new }
{
    let counts = state.is_other(from)
        && state.is_here(view)
        && state.is_primary()
        && op <= state.log.len() as u64;
    if counts {
        state.acked.raise(from, op);
        state.commit = agreed_op(state);
    }
}

/// A PREPARE of an entry to each other member, if there is one.
fn prepare_others(
    state: &VrState,
    op: u64,
    entry: &Entry,
    out: &mut VrOut,
) -> Result<(), AllocError>
    requires { state.now.me < state.now.controllers }
    ensures promise { out.new.promise ≡ out.old.promise }
    ensures letters { OnOk result (out.new.letters ≡ out.old.letters ++ to_others state.now (message.Prepare state.now.view op state.now.commit entry.now)) }
{
    if state.controllers == 1 {
        return Ok(());
    }
    let message = VrMessage::Prepare {
        view: state.view,
        op,
        commit: state.commit,
        entry: entry.copy()?,
    };
    out.tell_others(state.me, state.controllers, message)
}

/// Appends an entry that fits, and sends it to the others.
fn append_proposed(state: &mut VrState, entry: Entry, out: &mut VrOut) -> Result<(), AllocError>
    requires valid { IsValidState state.old }
    requires fits { fits state.old.log entry ≡ true }
    ensures { OnOk result (Did (proposed state.old entry) state.new out.old out.new) }
{
    let op = state.log.len() as u64 + 1;
    prepare_others(state, op, &entry, out)?;
    state.log.append(entry)?;
    state.commit = own_commit(state, op);
    Ok(())
}

/// The primary proposes an entry. The first refusal that holds is the answer: the member is not normal or
/// not the primary of its view; then the limits of the log.
pub fn propose(state: &mut VrState, entry: Entry, out: &mut VrOut) -> Result<(), ProposeFault>
    requires valid { IsValidState state.old }
    requires follows { may_follow state.old.log entry ≡ true }
    ensures step { Proposes state.old entry result state.new out.old out.new }
    ensures valid { OnOk result (IsValidState state.new) }
{
    if !state.leads() {
        return Err(ProposeFault::NotPrimary);
    }
    if state.log.is_past_limits(&entry) {
        return Err(ProposeFault::LogFull(state.log.full_at(&entry)));
    }
    match append_proposed(state, entry, out) {
        Ok(()) => Ok(()),
        Err(AllocError) => Err(ProposeFault::OutOfMemory),
    }
}
