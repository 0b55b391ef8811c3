//! How the primary of a view chooses a log, and starts the view with it.
ghost use Rattle.std.specs.Prelude.{◌≡◌, ◌<◌, ◌≤◌, ◌++◌, if◌then◌else◌, take, length, IfSome, IfOk, OnOk};
ghost use Rattle.vr_log.specs.Choosing as choosing;
ghost use Rattle.vr_log.specs.Log.{IsLog};
ghost use Rattle.vr_log.specs.Steps.{Did, is_sound, guarded};
ghost use Rattle.view_change.specs.Entering as entering;
ghost use Rattle.view_change.specs.Entering.{started_view, tells_start, chooses};
ghost use Rattle.view_change.specs.Starting.{IsViewStart, chosen_vote};

use std::alloc::AllocError;
use vr_log::{Acked, Collected, Entries, Status, VrMessage, VrOut, VrState, append_entries};
use vr_quorum::starting_log;

/// What a primary tells of the view that it started.
pub(crate) fn view_start(state: &VrState) -> Result<VrMessage, AllocError>
    ensures { IfOk result (λ message. message ≡ entering.view_start state.now) }
{
    Ok(VrMessage::StartView {
        view: state.view,
        first: state.base,
        commit: state.commit,
        log: state.log.entries_after(state.base as usize)?,
    })
}

/// The least and the greatest commit number of some logs, of which this is the first.
fn commit_range(first: &Collected, rest: &[Collected]) -> (u64, u64)
    ensures { result ≡ (choosing.least_commit first.now.commit rest.now, choosing.greatest_commit first.now.commit rest.now) }
{
    let mut least = first.commit;
    let mut most = first.commit;
    for log in rest {
        least = least.min(log.commit);
        most = most.max(log.commit);
    }
    (least, most)
}

/// How a view starts: the log, as so many of a primary's own first entries and those behind them, and the
/// least and the greatest commit number of the logs that it was chosen from.
#[derive(Drop)]
pub(crate) struct Start {
    first: u64,
    entries: Entries,
    least: u64,
    most: u64,
}

/// The first committed entries that a primary has: so many of its own, and those behind them.
#[tactic(auto, using(crate::proofs::Sound::front_supplied))]
fn front_entries(state: &VrState, through: u64) -> Result<(u64, Entries), AllocError>
    requires commit { state.now.commit ≤ length state.now.log }
    requires supply { IfSome state.now.supply (λ supplied. supplied.first ≤ state.now.commit) }
    ensures first { IfOk result (λ front. front.0 ≤ state.now.commit) }
    ensures log { IfOk result (λ front. take front.0 state.now.log ++ front.1 ≡ take through (choosing.front state.now)) }
{
    let mut entries = Entries::new(state.log.allocator());
    let Some(supplied) = &state.supply else {
        return Ok((through.min(state.commit), entries));
    };
    let first = through.min(supplied.first);
    let log = supplied.log.as_slice();
    let len = (through - first).min(log.len() as u64) as usize;
    append_entries(&mut entries, &log[..len])?;
    Ok((first, entries))
}

/// How a view starts from the best of some logs, of which this is the first.
fn start_of(
    state: &VrState,
    best: &Collected,
    first: &Collected,
    rest: &[Collected],
) -> Result<Start, AllocError>
    requires commit { state.now.commit ≤ length state.now.log }
    requires supply { IfSome state.now.supply (λ supplied. supplied.first ≤ state.now.commit) }
    requires best { best.now ≡ choosing.best_of first.now rest.now }
    ensures { IfOk result (λ start. IsViewStart state.now first.now rest.now start) }
{
    let (place, mut entries) = front_entries(state, best.commit)?;
    append_entries(&mut entries, best.log.as_slice())?;
    let (least, most) = commit_range(first, rest);
    Ok(Start {
        first: place,
        entries,
        least,
        most,
    })
}

/// Takes a log with the greatest commit number that was collected. In a group of one all of it is committed at
/// once.
#[tactic(auto, using(crate::proofs::Sound::sound_whole))]
fn take_chosen(
    state: &mut VrState,
    first: u64,
    entries: Entries,
    most: u64,
) -> Result<bool, AllocError>
    requires first { first ≤ state.old.commit }
    requires commit { state.old.commit ≤ length state.old.log }
    ensures answer { IfOk result (λ kept. kept ≡ is_sound state.old (chosen_vote state.old first entries most)) }
    ensures after { IfOk result (λ kept. state.new ≡ (if kept then chosen_vote state.old first entries most else state.old)) }
{
    if state.most_failures() != 0 {
        return state.replace_log(first, entries, most);
    }
    if !state.replace_log(first, entries, state.commit)? {
        return Ok(false);
    }
    state.commit = state.log.len() as u64;
    Ok(true)
}

/// Starts the view, unless that is to be dropped, and tells which.
fn begin(state: &mut VrState, start: Start, out: &mut VrOut) -> Result<bool, AllocError>
    requires first { start.first ≤ state.old.commit }
    requires commit { state.old.commit ≤ length state.old.log }
    ensures kept { IfOk result (λ kept. kept ≡ is_sound state.old (started_view state.old (take start.first state.old.log ++ start.entries) start.least start.most)) }
    ensures step { OnOk result (Did (guarded state.old (tells_start (started_view state.old (take start.first state.old.log ++ start.entries) start.least start.most))) state.new out.old out.new) }
{
    if !take_chosen(state, start.first, start.entries, start.most)? {
        return Ok(false);
    }
    state.base = start.least;
    state.supply = None;
    state.status = Status::Normal;
    state.normal = state.view;
    state.acked = Acked::new(state.log.allocator(), state.controllers)?;
    let message = view_start(state)?;
    out.tell_others(state.me, state.controllers, message)?;
    Ok(true)
}

/// Check, second and third step: a primary that has the logs of a majority starts the view from the best of
/// them, or fetches what it lacks. Tells whether the step is kept.
pub(crate) fn choose(state: &mut VrState, out: &mut VrOut) -> Result<bool, AllocError>
    requires log { IsLog state.old.log }
    requires group { 0 < state.old.controllers }
    requires commit { state.old.commit ≤ length state.old.log }
    requires supply { IfSome state.old.supply (λ supplied. supplied.first ≤ state.old.commit) }
    ensures kept { IfOk result (λ kept. kept ≡ is_sound state.old (chooses state.old).state) }
    ensures step { OnOk result (Did (guarded state.old (chooses state.old)) state.new out.old out.new) }
{
    if !state.may_choose() {
        return Ok(true);
    }
    let Some((first, rest)) = state.collected.as_slice().split_first() else {
        return Ok(true);
    };
    let best = starting_log(first, rest);
    if state.front_len() < u128::from(best.commit) {
        state.fetch_from(best, out)?;
        return Ok(true);
    }
    let start = start_of(state, best, first, rest)?;
    begin(state, start, out)
}
