//! Players leave their places.
ghost use Rattle.std.specs.Prelude.{◌≡◌, ◌≤◌, ◌+◌, ◌++◌, All, Contains, map, vec_len, vec_capacity};
ghost use Rattle.std.specs.Vec.Iter.{into_iter_items, into_iter_len};
ghost use Rattle.journal.specs.Orderly.{IsOrderly};
ghost use Rattle.journal.specs.Pool.{past};
ghost use Rattle.journal.specs.Turns.{IsWithinLimits};
ghost use Rattle.shared_wire.specs.Places.{IsPartOf};
ghost use Rattle.shared_wire.specs.Rule.{AreNamed};
ghost use Rattle.running.specs.Runs.{controller_of, first_stop, seat_place_of, player_of, stable_of};

use crate::job::Job;
use crate::seated::Served;
use crate::task::Task;
use app_core::App;
use group_controller::Controller;
use journal::{Stable, Stop, Wire};
use players::Body;
use shared_wire::{Board, Place};
use std::alloc::Global;
use std::vec::IntoIter;
use thread_rules::worst;

/// What is left of tasks: the places, the players, and the cause that counts. There is room for them.
pub fn take_apart<B: Body, P: Drop>(
    tasks: Vec<Task<B, P>>,
    places: &mut Vec<Place<B>>,
    players: &mut Vec<P>,
    first: Option<Stop>,
) -> Option<Stop>
    requires room { (vec_len places.old + vec_len tasks ≤ vec_capacity places.old) × (vec_len players.old + vec_len tasks ≤ vec_capacity players.old) }
    ensures places { places.new.items ≡ places.old.items ++ map seat_place_of tasks.items }
    ensures players { players.new.items ≡ players.old.items ++ map player_of tasks.items }
    ensures room { (vec_capacity places.new ≡ vec_capacity places.old) × (vec_capacity players.new ≡ vec_capacity players.old) }
    ensures long { (vec_len places.new ≡ vec_len places.old + vec_len tasks) × (vec_len players.new ≡ vec_len players.old + vec_len tasks) }
    ensures stop { result ≡ first_stop first tasks.items }
{
    let mut stop = first;
    for task in tasks {
        let Task { job, stop: its } = task;
        let Job {
            place,
            player,
            owed,
        } = job;
        drop(owed);
        places.push_reserved(place);
        players.push_reserved(player);
        stop = worst(stop, its);
    }
    stop
}

/// Controllers, and what they saved to, each for itself. There is room for them.
pub fn part<A: App, W: Stable + Drop>(
    served: Vec<Served<A, W>>,
    controllers: &mut Vec<Controller<A>>,
    stables: &mut Vec<W>,
)
    requires room { (vec_len controllers.old + vec_len served ≤ vec_capacity controllers.old) ×
        (vec_len stables.old + vec_len served ≤ vec_capacity stables.old) }
    ensures controllers { controllers.new.items ≡ controllers.old.items ++ map controller_of served.items }
    ensures stables { stables.new.items ≡ stables.old.items ++ map stable_of served.items }
    ensures room { vec_capacity stables.new ≡ vec_capacity stables.old }
    ensures long { vec_len stables.new ≡ vec_len stables.old + vec_len served }
{
    for one in served {
        let Served { controller, stable } = one;
        controllers.push_reserved(controller);
        stables.push_reserved(stable);
    }
}

/// Ends a board with all its places, and gives its journal.
pub fn close<B: Body>(board: Board<B>, places: Vec<Place<B>>) -> Wire<B>
    requires board { All (λ p. p.board ≡ board.id) places.items }
    requires all { All (Contains (map (λ p. p.actor) places.items)) board.actors }
    ensures orderly { IsOrderly B.sealing.size (past result) }
    ensures within { IsWithinLimits B.sealing.size (past result) }
    ensures named { AreNamed board.actors result }
    ensures parts { All (IsPartOf result) places.items }
{
    board.close(places)
}

/// What is left is put behind a list. There is room for it.
pub fn put_back<W: Drop>(rest: IntoIter<W, Global>, list: &mut Vec<W>)
    requires room { vec_len list.old + into_iter_len rest ≤ vec_capacity list.old }
    ensures { list.new.items ≡ list.old.items ++ into_iter_items rest }
{
    let mut rest = rest;
    'rest: while let Some(one) = rest.next() {
        list.push_reserved(one);
    }
}
