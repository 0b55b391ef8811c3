//! A whole closing.
ghost use Rattle.std.specs.Prelude.{◌≡◌, ◌≤◌, ◌+◌, ◌%◌, ◌/◌, [], true, false, ℕ, List, None, length, OnOk, IfOk, IfErr};
ghost use Rattle.journal.specs.Pool.{past, pool};
ghost use Rattle.run_spec.specs.Closing.{Losing, closing_view, majority, quorum_of};
ghost use Rattle.world.specs.World.{ForEachScene, Holds, Keeps, PairsStand};
ghost use Rattle.run_laws.specs.Laws.{IsSuspectedUpTo};
ghost use Rattle.closing_laws.specs.Quorum.{has};
ghost use Rattle.closing.specs.Closing.{AllSuspect, Attempts, ClosesBy, ClosesIn, ClosingStops, DrainsAll, HasEnded, HasMajority, RaisesViewsBy, SuspectsNoMore, StaysAt, UpBy, UpTo, up_in};
ghost use Rattle.closing.specs.Views.{most_view_of_a_closing, most_view_of_a_script, views_of_a_closing, views_of_an_attempt};

use crate::closed::{ClosingOutcome, TurnOutcome};
use crate::quorum::{closing_view, members_up};
use crate::steps::{drain_first, is_over, lawful, lose_first, suspect_next};
use app_core::App;
use closing_quorum::quorum_of;
use journal::{Stable, Stop};
use players::Body;
use std::alloc::{AllocError, Global};
use world::World;

/// Brings a world to rest: what waits is lost, the members of a quorum start the least view above all, and what they and
/// the switches then say is drawn until nothing waits, or until a proposal finds no room in the log. Where a member's
/// save fails, it begins again. At its end nothing is left undone, and what its primary has committed is what is decided.
/// Where a turn finds no memory it stops. However it ends, the greatest view that was suspected grew by at most 64
/// (`views_of_a_closing`): so the world may be closed again while that is not above 4,000,000,000 (`may_close`).
pub fn run<B: Body, A: App, W: Stable>(
    alloc: Global,
    world: &mut World<B, A>,
    stables: &mut [W],
) -> Result<ClosingOutcome, Stop>
    requires holds { (kinds : List ℕ) × Holds A.law B.sealing world.old kinds }
    requires pairs { PairsStand W.saving stables.old world.old.controllers }
    requires views { IsSuspectedUpTo most_view_of_a_script (past world.old.journal) }
    ensures keeps { Keeps A.law W.saving B.sealing world.old stables.old world.new stables.new }
    ensures rests { OnOk result (world.new.owed ≡ None) }
    ensures views { RaisesViewsBy views_of_a_closing world.old world.new }
    ensures closes { ForEachScene A.law B.sealing world.old (λ scene. IfOk result (HasEnded scene world.old world.new)) }
    ensures up { IfOk result (λ closed. HasMajority closed world.old world.new) }
    ensures stops { ForEachScene A.law B.sealing world.old (λ scene. IfErr result (ClosingStops scene world.old world.new)) }
{
    'closing: loop {
        if let Some(closed) = close_once(alloc, world, stables)? {
            world.lawful();
            return Ok(closed);
        }
    }
}

/// Every packet that waits is lost, by number.
fn lose_all<B: Body, A: App, W: Stable>(
    world: &mut World<B, A>,
    stables: &mut [W],
) -> Result<(), Stop>
    requires rests { world.old.owed ≡ None }
    requires holds { (kinds : List ℕ) × Holds A.law B.sealing world.old kinds }
    requires pairs { PairsStand W.saving stables.old world.old.controllers }
    ensures keeps { Keeps A.law W.saving B.sealing world.old stables.old world.new stables.new }
    ensures rests { OnOk result (world.new.owed ≡ None) }
    ensures views { SuspectsNoMore 0 world.old world.new }
    ensures closes { StaysAt A.law B.sealing (ClosesIn Losing) result world.old world.new }
    ensures up { OnOk result (up_in world.new ≡ up_in world.old) }
    ensures empty { OnOk result (pool (past world.new.journal) ≡ []) }
{
    'losing: while let Some(place) = world.first() {
        lose_first(world, stables, place)?;
    }
    Ok(())
}

/// What is owed is posted, and then every packet that waits is lost.
fn clear<B: Body, A: App, W: Stable>(world: &mut World<B, A>, stables: &mut [W]) -> Result<(), Stop>
    requires holds { (kinds : List ℕ) × Holds A.law B.sealing world.old kinds }
    requires pairs { PairsStand W.saving stables.old world.old.controllers }
    ensures keeps { Keeps A.law W.saving B.sealing world.old stables.old world.new stables.new }
    ensures rests { OnOk result (world.new.owed ≡ None) }
    ensures views { SuspectsNoMore 0 world.old world.new }
    ensures closes { StaysAt A.law B.sealing (ClosesIn Losing) result world.old world.new }
    ensures up { OnOk result (up_in world.new ≡ up_in world.old) }
    ensures empty { OnOk result (pool (past world.new.journal) ≡ []) }
{
    world.post_owed()?;
    lose_all(world, stables)
}

/// Each member of the quorum suspects the view.
fn suspect<B: Body, A: App, W: Stable>(
    world: &mut World<B, A>,
    stables: &mut [W],
    view: u32,
    quorum: &[u8],
) -> Result<TurnOutcome, Stop>
    requires rests { world.old.owed ≡ None }
    requires holds { (kinds : List ℕ) × Holds A.law B.sealing world.old kinds }
    requires pairs { PairsStand W.saving stables.old world.old.controllers }
    requires up { (n : ℕ) → has quorum.now n ≡ true → has (up_in world.old) n ≡ true }
    ensures keeps { Keeps A.law W.saving B.sealing world.old stables.old world.new stables.new }
    ensures rests { OnOk result (world.new.owed ≡ None) }
    ensures views { SuspectsNoMore view world.old world.new }
    ensures suspects { AllSuspect A.law B.sealing view quorum.now result world.old world.new }
    ensures up { IfOk result (λ came. UpBy came (up_in world.old) (up_in world.new)) }
{
    'suspecting: for number in quorum {
        let came = suspect_next(world, stables, view, *number)?;
        if is_over(came) {
            return Ok(came);
        }
    }
    Ok(TurnOutcome::ToRest)
}

/// What waits is drawn or lost, by number, until nothing waits.
fn drain<B: Body, A: App, W: Stable>(
    world: &mut World<B, A>,
    stables: &mut [W],
    view: u32,
    quorum: &[u8],
) -> Result<TurnOutcome, Stop>
    requires rests { world.old.owed ≡ None }
    requires holds { (kinds : List ℕ) × Holds A.law B.sealing world.old kinds }
    requires pairs { PairsStand W.saving stables.old world.old.controllers }
    requires up { (n : ℕ) → has quorum.now n ≡ true → has (up_in world.old) n ≡ true }
    ensures keeps { Keeps A.law W.saving B.sealing world.old stables.old world.new stables.new }
    ensures rests { OnOk result (world.new.owed ≡ None) }
    ensures views { SuspectsNoMore 0 world.old world.new }
    ensures drains { DrainsAll A.law B.sealing view quorum.now result world.old world.new }
    ensures up { IfOk result (λ came. UpBy came (up_in world.old) (up_in world.new)) }
{
    'draining: while let Some(place) = world.first() {
        let came = drain_first(world, stables, view, quorum, place)?;
        if is_over(came) {
            return Ok(came);
        }
    }
    Ok(TurnOutcome::ToRest)
}

/// The quorum suspects the view, and then what waits is drained.
fn close_by<B: Body, A: App, W: Stable>(
    world: &mut World<B, A>,
    stables: &mut [W],
    view: u32,
    quorum: &[u8],
) -> Result<TurnOutcome, Stop>
    requires rests { world.old.owed ≡ None }
    requires holds { (kinds : List ℕ) × Holds A.law B.sealing world.old kinds }
    requires pairs { PairsStand W.saving stables.old world.old.controllers }
    requires up { (n : ℕ) → has quorum.now n ≡ true → has (up_in world.old) n ≡ true }
    ensures keeps { Keeps A.law W.saving B.sealing world.old stables.old world.new stables.new }
    ensures rests { OnOk result (world.new.owed ≡ None) }
    ensures views { SuspectsNoMore view world.old world.new }
    ensures closes { ClosesBy A.law B.sealing view quorum.now result world.old world.new }
    ensures up { IfOk result (λ came. UpBy came (up_in world.old) (up_in world.new)) }
{
    let came = suspect(world, stables, view, quorum)?;
    if is_over(came) {
        return Ok(came);
    }
    drain(world, stables, view, quorum)
}

/// The quorum of the least view above all closes a world in which nothing waits.
fn close_cleared<B: Body, A: App, W: Stable>(
    alloc: Global,
    world: &mut World<B, A>,
    stables: &mut [W],
    up: &[u8],
) -> Result<Option<ClosingOutcome>, Stop>
    requires rests { world.old.owed ≡ None }
    requires holds { (kinds : List ℕ) × Holds A.law B.sealing world.old kinds }
    requires pairs { PairsStand W.saving stables.old world.old.controllers }
    requires empty { pool (past world.old.journal) ≡ [] }
    requires up { up.now ≡ up_in world.old }
    requires most { majority world.old.setup.controllers ≤ length up.now }
    requires views { IsSuspectedUpTo most_view_of_a_closing (past world.old.journal) }
    ensures keeps { Keeps A.law W.saving B.sealing world.old stables.old world.new stables.new }
    ensures owed { OnOk result (world.new.owed ≡ None) }
    ensures views { RaisesViewsBy views_of_an_attempt world.old world.new }
    ensures closes { Attempts A.law B.sealing result world.old world.new }
    ensures up { IfOk result (λ closed. UpTo closed world.old world.new) }
{
    lawful(world);
    let group = world.setup().controllers;
    let view = closing_view(world, up);
    let primary = (view % u32::from(group)) as u8;
    let quorum = quorum_of(alloc, group, primary, up)?;
    match close_by(world, stables, view, quorum.as_slice())? {
        TurnOutcome::ToRest => Ok(Some(ClosingOutcome::Done { primary })),
        TurnOutcome::ToAFailedSave => Ok(None),
        TurnOutcome::ToTheLimit(limit) => Ok(Some(ClosingOutcome::Overfull(limit))),
    }
}

/// A closing up to its end, or to a save that failed.
fn close_once<B: Body, A: App, W: Stable>(
    alloc: Global,
    world: &mut World<B, A>,
    stables: &mut [W],
) -> Result<Option<ClosingOutcome>, Stop>
    requires holds { (kinds : List ℕ) × Holds A.law B.sealing world.old kinds }
    requires pairs { PairsStand W.saving stables.old world.old.controllers }
    requires views { IsSuspectedUpTo most_view_of_a_closing (past world.old.journal) }
    ensures keeps { Keeps A.law W.saving B.sealing world.old stables.old world.new stables.new }
    ensures owed { OnOk result (world.new.owed ≡ None) }
    ensures views { RaisesViewsBy views_of_an_attempt world.old world.new }
    ensures closes { Attempts A.law B.sealing result world.old world.new }
    ensures up { IfOk result (λ closed. UpTo closed world.old world.new) }
{
    clear(world, stables)?;
    let members = members_up(alloc, world)?;
    let up = members.as_slice();
    let needed = u64::from(world.setup().controllers / 2) + 1;
    if (up.len() as u64) < needed {
        return Ok(Some(ClosingOutcome::NoQuorum {
            up: up.len() as u64,
            needed,
        }));
    }
    close_cleared(alloc, world, stables, up)
}
