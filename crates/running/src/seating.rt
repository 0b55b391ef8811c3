//! Players take their places.
ghost use Rattle.std.specs.Prelude.{◌≡◌, ◌≤◌, ◌+◌, ◌++◌, vec_len, vec_capacity, drop};
ghost use Rattle.std.specs.Vec.Iter.{into_iter_items, into_iter_len};
ghost use Rattle.running.specs.Runs.{seated, served, task_of};

use crate::job::Job;
use crate::seated::Served;
use crate::task::Task;
use app_core::App;
use group_controller::Controller;
use journal::{Mailbag, Stable};
use players::Body;
use shared_wire::Place;
use std::alloc::Global;
use std::vec::IntoIter;

/// Players take the first of the places that are left, in order. There is room for their tasks.
pub fn seat<B: Body, P: Drop>(
    alloc: Global,
    players: Vec<P>,
    places: &mut IntoIter<Place<B>, Global>,
    tasks: &mut Vec<Task<B, P>>,
)
    requires room { vec_len tasks.old + vec_len players ≤ vec_capacity tasks.old }
    requires places { vec_len players ≤ into_iter_len places.old }
    ensures tasks { tasks.new.items ≡ tasks.old.items ++ seated (into_iter_items places.old) players.items }
    ensures places { into_iter_items places.new ≡ drop (vec_len players) (into_iter_items places.old) }
    ensures left { into_iter_len places.new + vec_len players ≡ into_iter_len places.old }
    ensures long { vec_len tasks.new ≡ vec_len tasks.old + vec_len players }
{
    for player in players {
        match places.next() {
            Some(place) => tasks.push_reserved(task_at(alloc, place, player)),
            None => unreachable!(),
        }
    }
}

/// Controllers beside the first of the stables that are left, in order. There is room for them.
pub fn serve<A: App, W: Stable + Drop>(
    controllers: Vec<Controller<A>>,
    stables: &mut IntoIter<W, Global>,
    beside: &mut Vec<Served<A, W>>,
)
    requires room { vec_len beside.old + vec_len controllers ≤ vec_capacity beside.old }
    requires stables { vec_len controllers ≤ into_iter_len stables.old }
    ensures served { beside.new.items ≡ beside.old.items ++ served controllers.items (into_iter_items stables.old) }
    ensures stables { into_iter_items stables.new ≡ drop (vec_len controllers) (into_iter_items stables.old) }
    ensures left { into_iter_len stables.new + vec_len controllers ≡ into_iter_len stables.old }
    ensures long { vec_len beside.new ≡ vec_len beside.old + vec_len controllers }
{
    for controller in controllers {
        match stables.next() {
            Some(stable) => beside.push_reserved(Served { controller, stable }),
            None => unreachable!(),
        }
    }
}

/// A player at its place, with nothing owed.
fn task_at<B: Body, P: Drop>(alloc: Global, place: Place<B>, player: P) -> Task<B, P>
    ensures { result ≡ task_of place player }
{
    Task {
        job: Job {
            place,
            player,
            owed: Mailbag::new(alloc),
        },
        stop: None,
    }
}
