//! The state of a member of a group, as plain data.
ghost use Rattle.std.specs.Prelude.{◌<◌, ◌≡◌, [], ◌∷◌, Contains, IfOk};
ghost use Rattle.vr_log.specs.Valid.{IsValidState, starting_state};

use crate::acked::Acked;
use crate::entry::Entries;
use crate::letters::VrLetters;
use crate::log::Log;
use crate::message::Filled;
use of_types::Items;
use std::alloc::{AllocError, Global};

/// The status of a member (Viewstamped Replication Revisited, 4). A `Down` one has crashed.
#[derive(Clone, Copy, PartialEq, Eq, Debug)]
pub enum Status {
    Normal,
    ViewChange,
    Recovering,
    Down,
}

/// A log that came with a DOVIEWCHANGE, and from whom: its entries behind the commit number.
#[derive(Clone, Drop)]
pub struct Collected {
    pub from: u8,
    pub normal: u32,
    pub commit: u64,
    pub log: Entries,
}

/// An answer to a RECOVERY, and from whom.
#[derive(Clone, Drop)]
pub struct Response {
    pub from: u8,
    pub view: u32,
    pub filled: Option<Filled>,
}

/// Committed entries that came with a SUPPLY, and the place that they stand behind.
#[derive(Clone, Drop)]
pub struct Supplied {
    pub first: u64,
    pub log: Entries,
}

pub type Members = Items<u8>;

pub type Collection = Items<Collected>;

pub type Responses = Items<Response>;

/// The state of a member that has not crashed.
#[derive(Drop)]
pub struct VrState {
    /// The number of this member, below the count of members.
    pub me: u8,
    /// How many members there are.
    pub controllers: u8,
    pub status: Status,
    pub view: u32,
    /// The last view in which the status was normal.
    pub normal: u32,
    pub log: Log,
    /// How many entries are committed.
    pub commit: u64,
    /// The greatest view that was promised.
    pub promise: u32,
    /// How often the member has started.
    pub life: u64,
    /// The other members whose STARTVIEWCHANGE of this view was taken, ascending.
    pub votes: Members,
    /// Whether this view's DOVIEWCHANGE was sent or collected.
    pub sent: bool,
    pub collected: Collection,
    /// Up to which op each member has acknowledged.
    pub acked: Acked,
    /// The recovery responses that are kept, one of each member.
    pub responses: Responses,
    /// The least commit number of the logs that the view was started from, at the primary that started it.
    pub base: u64,
    /// What was fetched for the view that is to start.
    pub supply: Option<Supplied>,
}

impl VrState {
    /// The state in which a member of a group starts.
    pub fn new(alloc: Global, me: u8, controllers: u8) -> Result<VrState, AllocError>
        requires group { Contains (1 ∷ 3 ∷ 5 ∷ 7 ∷ []) controllers }
        requires member { me < controllers }
        ensures state { IfOk result (λ s. s ≡ starting_state me controllers) }
        ensures valid { IfOk result (λ s. IsValidState s) }
    {
        Ok(VrState {
            me,
            controllers,
            status: Status::Normal,
            view: 0,
            normal: 0,
            log: Log::new(alloc),
            commit: 0,
            promise: 0,
            life: 0,
            votes: Members::new(alloc),
            sent: false,
            collected: Collection::new(alloc),
            acked: Acked::new(alloc, controllers)?,
            responses: Responses::new(alloc),
            base: 0,
            supply: None,
        })
    }
}

/// What a step wants to be saved and sent. No letter may leave before the promise is saved.
#[derive(Drop)]
pub struct VrOut {
    pub promise: Option<u32>,
    pub letters: VrLetters,
}
