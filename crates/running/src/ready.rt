//! All that a run of threads needs memory for before its threads start.
ghost use Rattle.std.specs.Prelude.{◌≡◌, ◌≤◌, ◌<◌, IfOk, map, vec_len, vec_capacity};
ghost use Rattle.shared_wire.specs.Places.{fresh};
ghost use Rattle.running.specs.Runs.{actors_up_to};
ghost use Rattle.running.specs.Together.{HasRoom};

use crate::seated::Served;
use crate::task::Task;
use app_core::App;
use group_controller::Controller;
use journal::{Actor, Stable};
use of_switch::Switch;
use players::Body;
use shared_wire::{Board, Place};
use std::alloc::{AllocError, Global};

/// A board with its places, and room for those who take them and for what they leave.
#[derive(Drop)]
pub struct Ready<B: Body, A: App, W: Stable + Drop> {
    pub board: Board<B>,
    pub places: Vec<Place<B>>,
    pub served: Vec<Served<A, W>>,
    pub members: Vec<Task<B, Served<A, W>>>,
    pub others: Vec<Task<B, Switch>>,
    pub left_places: Vec<Place<B>>,
    pub left_served: Vec<Served<A, W>>,
    pub left_controllers: Vec<Controller<A>>,
    pub left_switches: Vec<Switch>,
    pub left_stables: Vec<W>,
}

impl<B: Body, A: App, W: Stable + Drop> Ready<B, A, W> {
    /// For a group of so many controllers and so many switches, and for so many stables.
    pub fn new(
        alloc: Global,
        group: usize,
        count: usize,
        stables: usize,
    ) -> Result<Ready<B, A, W>, AllocError>
        requires { (0 < group) × (group < 256) × (count < 256) }
        ensures board { IfOk result (λ r. r.board.actors ≡ actors_up_to group count) }
        ensures places { IfOk result (λ r. r.places.items ≡ map (fresh r.board.id) (actors_up_to group count)) }
        ensures room { IfOk result (λ r. HasRoom group count stables r) }
    {
        let (served, left_served) = rooms(alloc, group, group)?;
        let (members, left_controllers) = rooms(alloc, group, group)?;
        let (others, left_switches) = rooms(alloc, count, count)?;
        let (left_places, left_stables) = rooms(alloc, group + count, stables)?;
        let (board, places) = board_of(alloc, group, count)?;
        Ok(Ready {
            board,
            places,
            served,
            members,
            others,
            left_places,
            left_served,
            left_controllers,
            left_switches,
            left_stables,
        })
    }
}

/// The actors of a group, the controllers before the switches and each ascending.
fn actors_of(alloc: Global, controllers: usize, switches: usize) -> Result<Vec<Actor>, AllocError>
    requires { (controllers < 256) × (switches < 256) }
    ensures { IfOk result (λ actors. actors.items ≡ actors_up_to controllers switches) }
{
    let mut actors = Vec::new(alloc);
    for number in 0..controllers {
        actors.push(Actor::Controller(number as u8))?;
    }
    for number in 0..switches {
        actors.push(Actor::Switch(number as u8))?;
    }
    Ok(actors)
}

/// A board for a group of so many controllers and so many switches, with its places.
fn board_of<B: Body>(
    alloc: Global,
    group: usize,
    count: usize,
) -> Result<(Board<B>, Vec<Place<B>>), AllocError>
    requires { (0 < group) × (group < 256) × (count < 256) }
    ensures board { IfOk result (λ r. r.0.actors ≡ actors_up_to group count) }
    ensures places { IfOk result (λ r. r.1.items ≡ map (fresh r.0.id) (actors_up_to group count)) }
{
    let actors = actors_of(alloc, group, count)?;
    let (board, places) = Board::new(alloc, actors.as_slice())?;
    Ok((board, places))
}

/// Two empty lists, with room for so many in each.
fn rooms<X: Drop, Y: Drop>(
    alloc: Global,
    first: usize,
    second: usize,
) -> Result<(Vec<X>, Vec<Y>), AllocError>
    ensures none { IfOk result (λ r. (vec_len r.0 ≡ 0) × (vec_len r.1 ≡ 0)) }
    ensures room { IfOk result (λ r. (first ≤ vec_capacity r.0) × (second ≤ vec_capacity r.1)) }
{
    let one = Vec::with_capacity(alloc, first)?;
    let other = Vec::with_capacity(alloc, second)?;
    Ok((one, other))
}
