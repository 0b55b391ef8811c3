//! A script that its actors play apart: each in a thread of its own, over one board.
ghost use Rattle.std.specs.Prelude.{◌≡◌, ◌≤◌, ◌<◌, ℕ, List, [], None, All, IfOk, IfErr, drop, length, map, vec_len};
ghost use Rattle.std.specs.List.{AllByRecursion};
ghost use Rattle.journal.specs.Actors.{IsActor};
ghost use Rattle.journal.specs.Pool.{past};
ghost use Rattle.journal.specs.Turns.{turn_actor};
ghost use Rattle.world.specs.World.{ForEachScene, Holds, Keeps, PairsStand, results_in};
ghost use Rattle.shared_wire.specs.Places.{fresh};
ghost use Rattle.running.specs.Apart.{FollowsApart};
ghost use Rattle.running.specs.Playing.{ServedPlays, SwitchPlays};
ghost use Rattle.running.specs.Tasks.{AllRan, MayBegin};
ghost use Rattle.running.specs.Threads.{HaltsApart, HasPlayedApart, StartsApart};
ghost use Rattle.running.specs.Runs.{actors_up_to, seated, served};
ghost use Rattle.running.specs.Together.{HasRoom, HavePlayed, MembersMayBegin, OthersMayBegin};

use crate::leaving::{close, part, put_back, take_apart};
use crate::ready::Ready;
use crate::seated::Served;
use crate::seating::{seat, serve};
use crate::task::{Task, run_all};
use app_core::App;
use group_controller::Controller;
use journal::{Gate, Stable, Stop, Turn, Wire};
use of_switch::Switch;
use of_types::Setup;
use players::Body;
use shared_wire::Board;
use std::alloc::Global;
use std::sync::Wait;
use std::thread::Threads;
use std::{mem, thread};
use world::World;

/// What the actors have played: their journal, and they themselves, by number.
#[derive(Drop)]
pub struct Played<B: Body, A: App> {
    pub wire: Wire<B>,
    pub controllers: Vec<Controller<A>>,
    pub switches: Vec<Switch>,
}

/// Why a run was cut short: want of memory at any of its actors, and else the full journal that the first of them met, the
/// controllers before the switches and each ascending. What was played stands beside it.
#[derive(Drop)]
pub struct Halt<B: Body, A: App> {
    pub stop: Stop,
    pub played: Played<B, A>,
}

impl<B: Body, A: App> Halt<B, A> {
    /// Of a world that goes no further.
    pub fn of(stop: Stop, world: World<B, A>) -> Halt<B, A>
        ensures stop { result.stop ≡ stop }
        ensures wire { result.played.wire ≡ world.journal }
        ensures controllers { result.played.controllers.items ≡ world.controllers }
        ensures switches { result.played.switches.items ≡ world.switches }
    {
        let (_, wire, controllers, switches) = world.into_parts();
        Halt {
            stop,
            played: Played {
                wire,
                controllers,
                switches,
            },
        }
    }
}

/// Both kinds of actors at once, each actor in a thread of its own.
fn run_both<
    B: Body + Send,
    A: App + Send,
    W: Stable + Drop + Send,
    G: Gate + Sync,
    R: Threads + Wait + Sync,
>(
    rt: &R,
    alloc: Global,
    gate: &G,
    board: &Board<B>,
    steps: &[Turn],
    members: Vec<Task<B, Served<A, W>>>,
    others: Vec<Task<B, Switch>>,
) -> (Vec<Task<B, Served<A, W>>>, Vec<Task<B, Switch>>)
where
    B::Bag: Send,
    requires members { All (MayBegin (ServedPlays A.law W.saving B.sealing) board.now.id steps.now) members.items }
    requires others { All (MayBegin (SwitchPlays B.sealing) board.now.id steps.now) others.items }
    ensures long { (vec_len result.0 ≡ vec_len members) × (vec_len result.1 ≡ vec_len others) }
    ensures members { AllRan (ServedPlays A.law W.saving B.sealing) B.sealing.size steps.now members.items result.0.items }
    ensures others { AllRan (SwitchPlays B.sealing) B.sealing.size steps.now others.items result.1.items }
{
    thread::join(
        rt,
        ||
            requires { All (MayBegin (ServedPlays A.law W.saving B.sealing) board.now.id steps.now) members.items }
        { run_all::<Served<A, W>, B, G, R>(rt, alloc, gate, board, steps, members) },
        ||
            requires { All (MayBegin (SwitchPlays B.sealing) board.now.id steps.now) others.items }
        { run_all::<Switch, B, G, R>(rt, alloc, gate, board, steps, others) },
    )
}

/// Controllers and switches take their places, play, and leave them. The stables go with the controllers, and come back in order.
fn play_together<
    B: Body + Send,
    A: App + Send,
    W: Stable + Drop + Send,
    G: Gate + Sync,
    R: Threads + Wait + Sync,
>(
    rt: &R,
    alloc: Global,
    gate: &G,
    steps: &[Turn],
    ready: Ready<B, A, W>,
    controllers: Vec<Controller<A>>,
    switches: Vec<Switch>,
    stables: &mut Vec<W>,
) -> (Played<B, A>, Option<Stop>)
where
    B::Bag: Send,
    requires room { HasRoom (vec_len controllers) (vec_len switches) (vec_len stables.old) ready }
    requires places { ready.places.items ≡ map (fresh ready.board.id) ready.board.actors }
    requires actors { ready.board.actors ≡ actors_up_to (length controllers.items) (length switches.items) }
    requires served { vec_len controllers ≤ vec_len stables.old }
    requires members { MembersMayBegin A.law W.saving B.sealing steps.now ready controllers.items stables.old.items }
    requires others { OthersMayBegin B.sealing steps.now ready (length controllers.items) switches.items }
    ensures { HavePlayed A.law W.saving B.sealing steps.now ready.places.items controllers.items switches.items
        stables.old.items stables.new.items result.0 result.1 }
{
    let Ready {
        board,
        places,
        mut served,
        mut members,
        mut others,
        mut left_places,
        mut left_served,
        mut left_controllers,
        mut left_switches,
        mut left_stables,
    } = ready;
    let mut places = places.into_iter();
    let mut all = mem::replace(stables, Vec::new(alloc)).into_iter();
    serve(controllers, &mut all, &mut served);
    seat(alloc, served, &mut places, &mut members);
    seat(alloc, switches, &mut places, &mut others);
    let (members, others) = run_both::<B, A, W, G, R>(
        rt, alloc, gate, &board, steps, members, others,
    );
    let stop = take_apart(members, &mut left_places, &mut left_served, None);
    let stop = take_apart(others, &mut left_places, &mut left_switches, stop);
    part(left_served, &mut left_controllers, &mut left_stables);
    put_back(all, &mut left_stables);
    *stables = left_stables;
    let played = Played {
        wire: close(board, left_places),
        controllers: left_controllers,
        switches: left_switches,
    };
    (played, stop)
}

/// The actors of a setup as they start, with what the controllers save to: the first stables, in order. All memory of this call
/// itself is taken before a thread starts; where there is none for it, nothing was played.
fn run_actors<
    B: Body + Send,
    A: App + Send,
    W: Stable + Drop + Send,
    G: Gate + Sync,
    R: Threads + Wait + Sync,
>(
    rt: &R,
    alloc: Global,
    gate: &G,
    setup: &Setup,
    steps: &[Turn],
    stables: &mut Vec<W>,
    controllers: Vec<Controller<A>>,
    switches: Vec<Switch>,
) -> Result<Played<B, A>, Halt<B, A>>
where
    B::Bag: Send,
    requires some { (0 < vec_len controllers) × (vec_len controllers < 256) × (vec_len switches < 256) }
    requires served { vec_len controllers ≤ vec_len stables.old }
    requires starts { (kinds : List ℕ) × StartsApart A.law W.saving setup.now kinds steps.now controllers.items switches.items stables.old.items }
    ensures played { (kinds : List ℕ) → StartsApart A.law W.saving setup.now kinds steps.now controllers.items switches.items stables.old.items →
        IfOk result (HasPlayedApart A.law W.saving B.sealing setup.now kinds steps.now controllers.items stables.old.items stables.new.items) }
    ensures halts { (kinds : List ℕ) → StartsApart A.law W.saving setup.now kinds steps.now controllers.items switches.items stables.old.items →
        IfErr result (λ halt. HaltsApart A.law W.saving B.sealing setup.now kinds steps.now controllers.items
        stables.old.items stables.new.items halt.played halt.stop) }
{
    let Ok(ready) = Ready::new(alloc, controllers.len(), switches.len(), stables.len()) else {
        return Err(Halt {
            stop: Stop::OutOfMemory,
            played: Played {
                wire: Wire::new(alloc),
                controllers,
                switches,
            },
        });
    };
    let (played, stop) = play_together::<B, A, W, G, R>(
        rt,
        alloc,
        gate,
        steps,
        ready,
        controllers,
        switches,
        stables,
    );
    match stop {
        None => Ok(played),
        Some(stop) => Err(Halt { stop, played }),
    }
}

/// The actors of a world as it starts play their own steps of a script, each in a thread of its own, with what its controllers save
/// to: the first stables, in order. These are put back in order, also where the run is cut short.
pub fn run_threads<
    B: Body + Send,
    A: App + Send,
    W: Stable + Drop + Send,
    G: Gate + Sync,
    R: Threads + Wait + Sync,
>(
    rt: &R,
    alloc: Global,
    gate: &G,
    world: World<B, A>,
    stables: &mut Vec<W>,
    steps: &[Turn],
) -> Result<World<B, A>, Halt<B, A>>
where
    B::Bag: Send,
    requires holds { (kinds : List ℕ) × Holds A.law B.sealing world kinds }
    requires pairs { PairsStand W.saving stables.old.items world.controllers }
    requires rests { world.owed ≡ None }
    requires fresh { world.journal ≡ [] }
    requires named { AllByRecursion (λ t. IsActor world.setup (turn_actor t)) steps.now }
    ensures keeps { IfOk result (λ after. Keeps A.law W.saving B.sealing world stables.old.items after stables.new.items) }
    ensures rests { IfOk result (λ after. after.owed ≡ None) }
    ensures follows { ForEachScene A.law B.sealing world (λ scene.
        IfOk result (λ after. FollowsApart scene (results_in after.controllers) steps.now (past after.journal))) }
    ensures halts { (kinds : List ℕ) → Holds A.law B.sealing world kinds → IfErr result (λ halt.
        HaltsApart A.law W.saving B.sealing world.setup kinds steps.now world.controllers stables.old.items stables.new.items halt.played halt.stop) }
{
    let (setup, wire, controllers, switches) = world.into_parts();
    drop(wire);
    let answer = run_actors::<B, A, W, G, R>(
        rt,
        alloc,
        gate,
        &setup,
        steps,
        stables,
        controllers,
        switches,
    );
    match answer {
        Ok(played) => Ok(World::adopt(
            alloc,
            setup,
            played.wire,
            played.controllers,
            played.switches,
        )),
        Err(halt) => {
            drop(setup);
            Err(halt)
        }
    }
}
