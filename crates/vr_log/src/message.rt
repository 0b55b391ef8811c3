//! What the members of a group say to each other (Viewstamped Replication Revisited, 4).
ghost use Rattle.std.specs.Prelude.{◌≡◌, IfOk};

use crate::entry::{Entries, Entry};
use std::alloc::AllocError;

/// A log with its commit number.
#[derive(Clone, Drop)]
pub struct Filled {
    pub commit: u64,
    pub log: Entries,
}

/// A message of one member to another. An op is the place of an entry in the log, counted from 1.
#[derive(Drop)]
pub enum VrMessage {
    /// The primary has this entry at this place (4.1).
    Prepare {
        view: u32,
        op: u64,
        commit: u64,
        entry: Entry,
    },
    /// A backup has the log up to this place (4.1).
    PrepareOk {
        view: u32,
        op: u64,
    },
    /// So much of the log is committed (4.1).
    Commit {
        view: u32,
        commit: u64,
    },
    /// A member wants to change to a view (4.2).
    StartViewChange {
        view: u32,
    },
    /// A member gives its log behind its commit number to the primary of a new view (4.2). `normal` is its
    /// last normal view.
    DoViewChange {
        view: u32,
        normal: u32,
        commit: u64,
        log: Entries,
    },
    /// The log with which a view starts, behind a place of it (4.2).
    StartView {
        view: u32,
        first: u64,
        commit: u64,
        log: Entries,
    },
    /// A member that has lost its state asks for it (4.3).
    Recovery {
        nonce: u64,
        promise: u32,
    },
    /// An answer to that. The primary of the view fills it with its log (4.3).
    RecoveryResponse {
        view: u32,
        nonce: u64,
        filled: Option<Filled>,
    },
    /// A member asks for what follows a place of the log (5.2).
    GetState {
        view: u32,
        op: u64,
    },
    /// The entries that follow a place of the log (5.2).
    NewState {
        view: u32,
        first: u64,
        commit: u64,
        log: Entries,
    },
    /// The primary of a new view asks the sender of the log that it chose for committed entries behind a
    /// place (our own rule).
    Fetch {
        view: u32,
        op: u64,
    },
    /// The committed entries behind a place (our own rule).
    Supply {
        view: u32,
        first: u64,
        log: Entries,
    },
}

// By hand, since a derived one copies each number by a call that may fail, and so is the dearest proof of this crate.
impl Clone for VrMessage {
    ghost is_clone = { λ x y. y ≡ x };

    fn clone(&self) -> Result<VrMessage, AllocError> {
        match self {
            VrMessage::Prepare {
                view,
                op,
                commit,
                entry,
            } => Ok(VrMessage::Prepare {
                view: *view,
                op: *op,
                commit: *commit,
                entry: entry.clone()?,
            }),
            VrMessage::PrepareOk { view, op } => Ok(VrMessage::PrepareOk {
                view: *view,
                op: *op,
            }),
            VrMessage::Commit { view, commit } => Ok(VrMessage::Commit {
                view: *view,
                commit: *commit,
            }),
            VrMessage::StartViewChange { view } => Ok(VrMessage::StartViewChange { view: *view }),
            VrMessage::DoViewChange {
                view,
                normal,
                commit,
                log,
            } => Ok(VrMessage::DoViewChange {
                view: *view,
                normal: *normal,
                commit: *commit,
                log: log.clone()?,
            }),
            VrMessage::StartView {
                view,
                first,
                commit,
                log,
            } => Ok(VrMessage::StartView {
                view: *view,
                first: *first,
                commit: *commit,
                log: log.clone()?,
            }),
            VrMessage::Recovery { nonce, promise } => Ok(VrMessage::Recovery {
                nonce: *nonce,
                promise: *promise,
            }),
            VrMessage::RecoveryResponse {
                view,
                nonce,
                filled,
            } => Ok(VrMessage::RecoveryResponse {
                view: *view,
                nonce: *nonce,
                filled: filled.clone()?,
            }),
            VrMessage::GetState { view, op } => Ok(VrMessage::GetState {
                view: *view,
                op: *op,
            }),
            VrMessage::NewState {
                view,
                first,
                commit,
                log,
            } => Ok(VrMessage::NewState {
                view: *view,
                first: *first,
                commit: *commit,
                log: log.clone()?,
            }),
            VrMessage::Fetch { view, op } => Ok(VrMessage::Fetch {
                view: *view,
                op: *op,
            }),
            VrMessage::Supply { view, first, log } => Ok(VrMessage::Supply {
                view: *view,
                first: *first,
                log: log.clone()?,
            }),
        }
    }
}

/// A message for a member, as contracts see it.
#[derive(Drop)]
pub struct VrLetter {
    pub to: u8,
    pub message: VrMessage,
}

impl VrMessage {
    /// An equal message.
    pub fn copy(&self) -> Result<VrMessage, AllocError>
        ensures { IfOk result (λ copied. copied ≡ self.now) }
    {
        self.clone()
    }
}
