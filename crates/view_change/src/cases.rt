//! The messages of a view change, each by its fields. After an `Err` the state is to be dropped.
ghost use Rattle.std.specs.Prelude.{◌≡◌, ◌≤◌, true, length, drop, take, IfOk, OnOk};
ghost use Rattle.vr_log.specs.Members.{is_other};
ghost use Rattle.vr_log.specs.Steps.{Did, guarded};
ghost use Rattle.vr_log.specs.Valid.{IsValidState};
ghost use Rattle.view_change.specs.Cases as cases;
ghost use Rattle.view_change.specs.Entering as entering;
ghost use Rattle.view_change.specs.Entering.{voted, collects};

use crate::adopting::adopt;
use crate::checking::{check, enter_and_check};
use crate::entering::{collect, enter, truncate, with_vote};
use crate::starting::view_start;
use std::alloc::AllocError;
use std::mem;
use vr_log::{
    Collected, Entries, Entry, Members, Supplied, VrMessage, VrOut, VrState, copy_entries,
};

/// A view is suspected to have failed: this later one is entered.
pub fn suspect(state: &mut VrState, view: u32, out: &mut VrOut) -> Result<(), AllocError>
    requires { IsValidState state.old }
    ensures step { OnOk result (Did (cases.suspect state.old view) state.new out.old out.new) }
    ensures valid { OnOk result (IsValidState state.new) }
{
    if state.is_later(view) {
        enter_and_check(state, view, out)
    } else {
        Ok(())
    }
}

/// Takes the vote of a member, and gives the votes that there were.
fn take_vote(state: &mut VrState, from: u8) -> Result<Members, AllocError>
    ensures votes { IfOk result (λ former. former ≡ state.old.votes) }
    ensures state { OnOk result (state.new ≡ voted state.old from) }
{
    let votes = with_vote(state.log.allocator(), &state.votes, from)?;
    Ok(mem::replace(&mut state.votes, votes))
}

fn vote_later(state: &mut VrState, from: u8, view: u32, out: &mut VrOut) -> Result<(), AllocError>
    requires { IsValidState state.old }
    ensures { OnOk result (Did (cases.vote_later state.old from view) state.new out.old out.new) }
{
    enter(state, view, out)?;
    take_vote(state, from)?;
    check(state, out)?;
    Ok(())
}

/// A vote for the view that changes.
fn vote_changing(state: &mut VrState, from: u8, out: &mut VrOut) -> Result<(), AllocError>
    requires { IsValidState state.old }
    ensures { OnOk result (Did (guarded state.old (entering.check (voted state.old from))) state.new out.old out.new) }
{
    let former = take_vote(state, from)?;
    let kept = check(state, out)?;
    if !kept {
        state.votes = former;
    }
    Ok(())
}

fn vote_here(state: &mut VrState, from: u8, out: &mut VrOut) -> Result<(), AllocError>
    requires { IsValidState state.old }
    ensures { OnOk result (Did (cases.vote_here state.old from) state.new out.old out.new) }
{
    if state.is_changing() {
        vote_changing(state, from, out)
    } else if state.leads() {
        let message = view_start(state)?;
        out.tell(from, message)
    } else {
        Ok(())
    }
}

/// STARTVIEWCHANGE: a member votes for a view.
pub fn on_start_view_change(
    state: &mut VrState,
    from: u8,
    view: u32,
    out: &mut VrOut,
) -> Result<(), AllocError>
    requires { IsValidState state.old }
    ensures step { OnOk result (Did (cases.start_view_change state.old from view) state.new out.old out.new) }
    ensures valid { OnOk result (IsValidState state.new) }
{
    if !state.is_other(from) {
        Ok(())
    } else if state.is_later(view) {
        vote_later(state, from, view, out)
    } else if view == state.view {
        vote_here(state, from, out)
    } else {
        Ok(())
    }
}

fn collect_later(
    state: &mut VrState,
    view: u32,
    log: Collected,
    out: &mut VrOut,
) -> Result<(), AllocError>
    requires valid { IsValidState state.old }
    requires other { is_other state.old log.from ≡ true }
    ensures { OnOk result (Did (cases.collect_later state.old view log) state.new out.old out.new) }
{
    enter(state, view, out)?;
    collect(state, log)?;
    check(state, out)?;
    Ok(())
}

/// A log for the view that changes.
fn collect_changing(state: &mut VrState, log: Collected, out: &mut VrOut) -> Result<(), AllocError>
    requires { IsValidState state.old }
    ensures { OnOk result (Did (guarded state.old (entering.check (collects state.old log))) state.new out.old out.new) }
{
    let len = state.collected.len();
    collect(state, log)?;
    let kept = check(state, out)?;
    if !kept {
        let alloc = state.log.allocator();
        truncate(&mut state.collected, alloc, len);
    }
    Ok(())
}

fn collect_told(
    state: &mut VrState,
    view: u32,
    log: Collected,
    out: &mut VrOut,
) -> Result<(), AllocError>
    requires valid { IsValidState state.old }
    requires other { is_other state.old log.from ≡ true }
    ensures { OnOk result (Did (cases.collect state.old view log) state.new out.old out.new) }
{
    if state.is_later(view) {
        collect_later(state, view, log, out)
    } else if view == state.view && state.is_changing() {
        collect_changing(state, log, out)
    } else {
        Ok(())
    }
}

/// DOVIEWCHANGE: a member gives its log to the primary of a view.
pub fn on_do_view_change(
    state: &mut VrState,
    from: u8,
    view: u32,
    normal: u32,
    commit: u64,
    log: Entries,
    out: &mut VrOut,
) -> Result<(), AllocError>
    requires { IsValidState state.old }
    ensures step { OnOk result (Did (cases.do_view_change state.old from view normal commit log) state.new out.old out.new) }
    ensures valid { OnOk result (IsValidState state.new) }
{
    if !state.is_other(from) {
        return Ok(());
    }
    if !state.is_primary_of(state.me, view) {
        return Ok(());
    }
    let collected = Collected {
        from,
        normal,
        commit,
        log,
    };
    collect_told(state, view, collected, out)
}

/// STARTVIEW: a view has started with a log.
pub fn on_start_view(
    state: &mut VrState,
    from: u8,
    view: u32,
    first: u64,
    commit: u64,
    log: Entries,
    out: &mut VrOut,
) -> Result<(), AllocError>
    requires { IsValidState state.old }
    ensures step { OnOk result (Did (cases.start_view state.old from view first commit log) state.new out.old out.new) }
    ensures valid { OnOk result (IsValidState state.new) }
{
    if !(state.is_other(from) && state.is_primary_of(from, view) && state.is_newer(view)) {
        return Ok(());
    }
    adopt(state, view, first, commit, log, out)?;
    Ok(())
}

/// Whether this view changes, and is this one.
fn is_change(state: &VrState, view: u32) -> bool
    ensures { result ≡ cases.is_change state.now view }
{
    state.is_changing() && view == state.view
}

/// The committed entries behind an op.
fn committed_after(state: &VrState, op: u64) -> Result<Entries, AllocError>
    requires op { op ≤ state.now.commit }
    requires commit { state.now.commit ≤ length state.now.log }
    ensures { IfOk result (λ entries. entries ≡ drop op (take state.now.commit state.now.log)) }
{
    let committed = &state.log.as_slice()[..state.commit as usize];
    copy_entries(state.log.allocator(), &committed[op as usize..])
}

/// FETCH: the primary of a view that is to start asks for committed entries.
pub fn on_fetch(
    state: &mut VrState,
    from: u8,
    view: u32,
    op: u64,
    out: &mut VrOut,
) -> Result<(), AllocError>
    requires { IsValidState state.old }
    ensures step { OnOk result (Did (cases.fetch state.old from view op) state.new out.old out.new) }
    ensures valid { IsValidState state.new }
{
    if !(state.is_other(from) && is_change(state, view) && op <= state.commit) {
        return Ok(());
    }
    let message = VrMessage::Supply {
        view,
        first: op,
        log: committed_after(state, op)?,
    };
    out.tell(from, message)
}

/// Whether supplied entries go beyond the committed ones that this primary has.
fn is_wanted(state: &VrState, view: u32, first: u64, log: &[Entry]) -> bool
    requires { IsValidState state.now }
    ensures { result ≡ cases.is_message_wanted state.now view first log.now }
{
    is_change(state, view)
        && state.is_primary()
        && first <= state.commit
        && state.front_len() < u128::from(first) + log.len() as u128
}

/// Takes committed entries, and gives those that there were. They join the log only with the view's start.
fn take_supply(state: &mut VrState, first: u64, log: Entries) -> Option<Supplied>
    requires valid { IsValidState state.old }
    requires first { first ≤ state.old.commit }
    ensures former { result ≡ state.old.supply }
    ensures state { state.new ≡ cases.supplied state.old first log }
{
    mem::replace(&mut state.supply, Some(Supplied { first, log }))
}

/// Supplied entries for the view that is to start.
fn keep_supply(
    state: &mut VrState,
    first: u64,
    log: Entries,
    out: &mut VrOut,
) -> Result<(), AllocError>
    requires valid { IsValidState state.old }
    requires first { first ≤ state.old.commit }
    ensures { OnOk result (Did (guarded state.old (entering.check (cases.supplied state.old first log))) state.new out.old out.new) }
{
    let former = take_supply(state, first, log);
    let kept = check(state, out)?;
    if !kept {
        state.supply = former;
    }
    Ok(())
}

/// SUPPLY: committed entries that this primary lacks.
pub fn on_supply(
    state: &mut VrState,
    from: u8,
    view: u32,
    first: u64,
    log: Entries,
    out: &mut VrOut,
) -> Result<(), AllocError>
    requires { IsValidState state.old }
    ensures step { OnOk result (Did (cases.supply state.old from view first log) state.new out.old out.new) }
    ensures valid { OnOk result (IsValidState state.new) }
{
    if !state.is_other(from) {
        return Ok(());
    }
    if !is_wanted(state, view, first, log.as_slice()) {
        return Ok(());
    }
    keep_supply(state, first, log, out)
}
