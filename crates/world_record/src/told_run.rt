//! What is told of a run, moved out of its world.

use group_controller::Controller;
use journal::{Head, Mailbag};
use of_switch::SwitchRemains;
use players::Bytes;
use report::Record;

/// What is told of a run, moved out of its world.
#[derive(Drop)]
pub struct ToldRun<A> {
    /// The record without its journal.
    pub record: Record,
    /// The entries of the journal without their letters, the oldest first.
    pub heads: Vec<Head>,
    /// The letters of its posts, in order.
    pub letters: Mailbag<Bytes>,
    /// What is left of the actors.
    pub actors: Actors<A>,
}

/// What is left of actors of which all is told. It is there so that their memory is freed where that is wanted.
#[derive(Drop)]
pub struct Actors<A> {
    controllers: Vec<Controller<A>>,
    switches: Vec<SwitchRemains>,
}

impl<A> Actors<A> {
    /// What is left of these.
    pub(crate) fn new(controllers: Vec<Controller<A>>, switches: Vec<SwitchRemains>) -> Actors<A> {
        Actors {
            controllers,
            switches,
        }
    }
}
