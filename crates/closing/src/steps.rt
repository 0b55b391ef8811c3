//! One turn of a closing.
ghost use Rattle.std.specs.Prelude.{◌≡◌, ◌<◌, true, false, ℕ, List, None, OnOk, IfOk};
ghost use Rattle.std.specs.List.{AllByRecursion};
ghost use Rattle.journal.specs.Actors.{IsActor};
ghost use Rattle.journal.specs.Pool.{past, pool};
ghost use Rattle.group_controller.specs.Turns.{state_of};
ghost use Rattle.run_spec.specs.Closing.{Losing, is_drawn};
ghost use Rattle.world.specs.World.{Holds, Keeps, PairsStand};
ghost use Rattle.run_laws.specs.Laws.{IsSuspectedUpTo};
ghost use Rattle.closing_laws.specs.Quorum.{has};
ghost use Rattle.closing.specs.Closing.{HaveViewsUpTo, CameAt, came_of, ClosesIn, Drains, DrainsOne, HasLessLeft, IsFirst, is_over, NextSuspects, SuspectsNoMore, StaysAt, UpBy, up_in};

use crate::closed::TurnOutcome;
use app_core::App;
use closing_quorum::has;
use group_controller::Controller;
use journal::{Actor, Local, PacketPlace, Stable, Stop, Turn};
use players::Body;
use world::{World, takes_part};

/// What the laws of every run say of a world: no view is above the greatest that was suspected, and what waits goes to
/// actors of the setup.
pub fn lawful<B: Body, A: App>(world: &World<B, A>)
    requires { (kinds : List ℕ) × Holds A.law B.sealing world.now kinds }
    ensures views { (limit : ℕ) →
        IsSuspectedUpTo limit (past world.now.journal) → HaveViewsUpTo limit world.now.controllers }
    ensures addressed { AllByRecursion
        (λ p. IsActor world.now.setup p.to) (pool (past world.now.journal)) }
{
    let _ = world;
}

/// Whether a part of a closing is over before its end.
pub fn is_over(came: TurnOutcome) -> bool
    ensures { result ≡ is_over came }
{
    came != TurnOutcome::ToRest
}

/// What the turn of a controller came to.
fn came<A: App>(view: u32, group: u8, number: u8, controller: &Controller<A>) -> TurnOutcome
    requires { 0 < group }
    ensures { result ≡ came_of view group number (state_of controller.now) }
{
    if !takes_part(controller) {
        return TurnOutcome::ToAFailedSave;
    }
    if view % u32::from(group) != u32::from(number) {
        return TurnOutcome::ToRest;
    }
    match controller.full() {
        Some(limit) => TurnOutcome::ToTheLimit(limit),
        None => TurnOutcome::ToRest,
    }
}

/// What the turn of an actor came to.
fn came_at<B: Body, A: App>(world: &World<B, A>, view: u32, actor: Actor) -> TurnOutcome
    requires holds { (kinds : List ℕ) × Holds A.law B.sealing world.now kinds }
    requires named { IsActor world.now.setup actor }
    ensures { CameAt view world.now actor result }
{
    match actor {
        Actor::Controller(number) => came(
            view,
            world.setup().controllers,
            number,
            world.controller(number),
        ),
        Actor::Switch(_) => TurnOutcome::ToRest,
    }
}

/// The packet of the lowest number is lost.
pub fn lose_first<B: Body, A: App, W: Stable>(
    world: &mut World<B, A>,
    stables: &mut [W],
    place: PacketPlace,
) -> Result<(), Stop>
    requires rests { world.old.owed ≡ None }
    requires holds { (kinds : List ℕ) × Holds A.law B.sealing world.old kinds }
    requires pairs { PairsStand W.saving stables.old world.old.controllers }
    requires first { IsFirst place world.old.journal }
    ensures keeps { Keeps A.law W.saving B.sealing world.old stables.old world.new stables.new }
    ensures rests { OnOk result (world.new.owed ≡ None) }
    ensures views { SuspectsNoMore 0 world.old world.new }
    ensures closes { StaysAt A.law B.sealing (ClosesIn Losing) result world.old world.new }
    ensures drains { (view : ℕ) (quorum : List ℕ) → is_drawn quorum place.from place.to ≡ false →
        StaysAt A.law B.sealing (Drains view quorum) result world.old world.new }
    ensures up { OnOk result (up_in world.new ≡ up_in world.old) }
    ensures less { OnOk result (HasLessLeft world.old world.new) }
{
    lawful(world);
    let turn = Turn::Lose {
        actor: place.to,
        choice: 0,
    };
    let result = world.take(stables, turn);
    world.lawful();
    result
}

/// A member of the quorum suspects the view.
pub fn suspect_next<B: Body, A: App, W: Stable>(
    world: &mut World<B, A>,
    stables: &mut [W],
    view: u32,
    number: u8,
) -> Result<TurnOutcome, Stop>
    requires rests { world.old.owed ≡ None }
    requires holds { (kinds : List ℕ) × Holds A.law B.sealing world.old kinds }
    requires pairs { PairsStand W.saving stables.old world.old.controllers }
    requires up { has (up_in world.old) number ≡ true }
    ensures keeps { Keeps A.law W.saving B.sealing world.old stables.old world.new stables.new }
    ensures rests { OnOk result (world.new.owed ≡ None) }
    ensures views { SuspectsNoMore view world.old world.new }
    ensures suspects { (quorum members : List ℕ) →
        NextSuspects A.law B.sealing view quorum number members result world.old world.new }
    ensures up { IfOk result (λ came. UpBy came (up_in world.old) (up_in world.new)) }
{
    let actor = Actor::Controller(number);
    let input = Local::Suspect { view };
    world.take(stables, Turn::Local { actor, input })?;
    Ok(came_at(world, view, actor))
}

/// The packet of the lowest number is drawn.
pub fn draw_first<B: Body, A: App, W: Stable>(
    world: &mut World<B, A>,
    stables: &mut [W],
    view: u32,
    quorum: &[u8],
    place: PacketPlace,
) -> Result<TurnOutcome, Stop>
    requires rests { world.old.owed ≡ None }
    requires holds { (kinds : List ℕ) × Holds A.law B.sealing world.old kinds }
    requires pairs { PairsStand W.saving stables.old world.old.controllers }
    requires first { IsFirst place world.old.journal }
    requires drawn { is_drawn quorum.now place.from place.to ≡ true }
    requires up { (n : ℕ) → has quorum.now n ≡ true → has (up_in world.old) n ≡ true }
    ensures keeps { Keeps A.law W.saving B.sealing world.old stables.old world.new stables.new }
    ensures rests { OnOk result (world.new.owed ≡ None) }
    ensures views { SuspectsNoMore 0 world.old world.new }
    ensures drains { DrainsOne A.law B.sealing view quorum.now result world.old world.new }
    ensures up { IfOk result (λ came. UpBy came (up_in world.old) (up_in world.new)) }
    ensures less { OnOk result (HasLessLeft world.old world.new) }
{
    lawful(world);
    world.draw_first(stables, place)?;
    world.lawful();
    Ok(came_at(world, view, place.to))
}

/// Whether a packet of this route is drawn.
fn is_drawn(quorum: &[u8], from: Actor, to: Actor) -> bool
    ensures { result ≡ is_drawn quorum.now from to }
{
    match to {
        Actor::Controller(number) => has(quorum, number),
        Actor::Switch(_) => matches!(from, Actor::Controller(_)),
    }
}

/// The packet of the lowest number is drawn or lost.
pub fn drain_first<B: Body, A: App, W: Stable>(
    world: &mut World<B, A>,
    stables: &mut [W],
    view: u32,
    quorum: &[u8],
    place: PacketPlace,
) -> Result<TurnOutcome, Stop>
    requires rests { world.old.owed ≡ None }
    requires holds { (kinds : List ℕ) × Holds A.law B.sealing world.old kinds }
    requires pairs { PairsStand W.saving stables.old world.old.controllers }
    requires first { IsFirst place world.old.journal }
    requires up { (n : ℕ) → has quorum.now n ≡ true → has (up_in world.old) n ≡ true }
    ensures keeps { Keeps A.law W.saving B.sealing world.old stables.old world.new stables.new }
    ensures rests { OnOk result (world.new.owed ≡ None) }
    ensures views { SuspectsNoMore 0 world.old world.new }
    ensures drains { DrainsOne A.law B.sealing view quorum.now result world.old world.new }
    ensures up { IfOk result (λ came. UpBy came (up_in world.old) (up_in world.new)) }
    ensures less { OnOk result (HasLessLeft world.old world.new) }
{
    if is_drawn(quorum, place.from, place.to) {
        return draw_first(world, stables, view, quorum, place);
    }
    lose_first(world, stables, place)?;
    Ok(TurnOutcome::ToRest)
}
