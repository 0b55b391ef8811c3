//! A member with its state.
ghost use Rattle.std.specs.Prelude.{◌≡◌, ◌<◌, ◌∷◌, [], true, Contains, IfOk, OnOk};
ghost use Rattle.vr_log.specs.Log.{may_follow};
ghost use Rattle.vr_log.specs.Members as members;
ghost use Rattle.vr_log.specs.Valid.{IsValidState, starting_state};
ghost use Rattle.vr_recovery.specs.Recovering.{restarted};
ghost use Rattle.vr_core.specs.Step.{answered, vr_step, Stepped, ProposesTo};

use crate::input::VrInput;
use crate::stepping::take;
use std::alloc::{AllocError, Global};
use std::marker::Model;
use vr_log::{Entry, Log, Status, VrOut, VrState};
use vr_normal::{ProposeFault, propose};
use vr_recovery::restart;

/// A member of a group, which contracts see as its state. They ask for a valid one, which each call leaves; one
/// whose call found no memory is to be dropped. No letter of an output may leave before its promise is saved.
#[derive(Drop)]
pub struct Replica {
    state: VrState,
}

impl Model for Replica {
    ghost use Rattle.vr_log.specs.declared.state.VrState.{VrState};

    ghost Value = { VrState };

    ghost view = { λ r. r.state };
}

impl Replica {
    /// A member as a group starts.
    pub fn new(alloc: Global, me: u8, controllers: u8) -> Result<Replica, AllocError>
        requires group { Contains (1 ∷ 3 ∷ 5 ∷ 7 ∷ []) controllers }
        requires member { me < controllers }
        ensures state { IfOk result (λ replica. replica ≡ starting_state me controllers) }
        ensures valid { IfOk result (λ replica. IsValidState replica) }
    {
        Ok(Replica {
            state: VrState::new(alloc, me, controllers)?,
        })
    }

    /// A member that comes back with nothing but its stable pair: the greatest view that it promised, and the
    /// life that begins.
    pub fn restart(
        alloc: Global,
        me: u8,
        controllers: u8,
        promise: u32,
        life: u64,
    ) -> Result<(Replica, VrOut), AllocError>
        requires group { Contains (1 ∷ 3 ∷ 5 ∷ 7 ∷ []) controllers }
        requires member { me < controllers }
        ensures step { IfOk result (λ r. Stepped (restarted me controllers promise life) r.0 r.1) }
        ensures valid { IfOk result (λ r. IsValidState r.0) }
    {
        let mut out = VrOut::new(alloc);
        let state = restart(alloc, me, controllers, promise, life, &mut out)?;
        Ok((Replica { state }, out))
    }

    /// The step of an input. What is to be saved and then sent takes the place of what stood there.
    #[inline(always)]
    pub fn step(&mut self, input: VrInput, out: &mut VrOut) -> Result<(), AllocError>
        requires { IsValidState self.old }
        ensures step { OnOk result (Stepped (vr_step self.old input) self.new out.new) }
        ensures valid { OnOk result (IsValidState self.new) }
    {
        out.clear();
        take(&mut self.state, input, out)?;
        Ok(())
    }

    /// The primary proposes an entry. The first refusal that holds is the answer: the member is not normal or
    /// not the primary of its view; then the limits of the log. A refusal changes nothing. What is to be saved
    /// and then sent takes the place of what stood there.
    #[inline(always)]
    pub fn propose(&mut self, entry: Entry, out: &mut VrOut) -> Result<(), ProposeFault>
        requires valid { IsValidState self.old }
        requires follows { may_follow self.old.log entry ≡ true }
        ensures step { ProposesTo self.old entry (answered out.new result) self.new }
        ensures valid { OnOk result (IsValidState self.new) }
    {
        out.clear();
        propose(&mut self.state, entry, out)?;
        Ok(())
    }

    pub fn status(&self) -> Status
        ensures { result ≡ self.now.status }
    {
        self.state.status
    }

    pub fn view(&self) -> u32
        ensures { result ≡ self.now.view }
    {
        self.state.view
    }

    /// Its log.
    pub fn log(&self) -> &Log
        ensures { result.now ≡ self.now.log }
    {
        &self.state.log
    }

    /// Its log, moved out. What else it holds is dropped.
    pub fn into_log(self) -> Log
        ensures { result ≡ self.log }
    {
        let Replica { state } = self;
        let VrState { log, .. } = state;
        log
    }

    /// How many entries of the log are committed.
    pub fn committed(&self) -> u64
        ensures { result ≡ self.now.commit }
    {
        self.state.commit
    }

    /// Whether this member leads: it is normal, and the primary of its view.
    pub fn leads(&self) -> bool
        requires { IsValidState self.now }
        ensures { result ≡ members.leads self.now }
    {
        self.state.leads()
    }
}
