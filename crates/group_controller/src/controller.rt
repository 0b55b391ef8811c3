//! One turn of a controller.
ghost use Rattle.std.specs.Prelude.{◌≡◌, ◌≤◌, ◌<◌, ◌∷◌, ◌++◌, [], ℕ, List, None, is_none, length, option_map, nat_eq, nat_lt, false, ◌&&◌, IfOk, IsSome, OnErr, OnOk};
ghost use Rattle.std.specs.List.{AllByRecursion};
ghost use Rattle.of_types.specs.Lives.{last_life};
ghost use Rattle.of_types.specs.Setups.{IsSetup};
ghost use Rattle.journal.specs.Stables.{standing};
ghost use Rattle.dispatcher.specs.Ledger.{most_commands};
ghost use Rattle.group_controller.specs.Rules.{is_crash_input, is_restart_input};
ghost use Rattle.group_controller.specs.State.{with_settled_forgotten, starting_controller};
ghost use Rattle.group_controller.specs.Turns.{AreAlike, begins_life, Born, Controls, ForEachKinds, SavesAndKeeps, KnowsPair, LeavesShelf, letters_left, MayTake, pair_in, released, Restarts, Saves, state_of, TakesInput, TakesOne, TakesOneAtMost, Turns, Wants};
ghost use Rattle.app_core.specs.Chain.{given_by};

use crate::active::Active;
use crate::mails::Mails;
use crate::messages::ControllerInput;
use app_core::App;
use journal::{Failed, SaveResult, Stable};
use of_types::{LAST_LIFE, Setup};
use std::alloc::{AllocError, Global};
use std::marker::Model;
use vr_core::Replica;
use vr_log::{Log, LogFull, Status};

/// A controller of a group, with the applications of its later lives, the next one last. One that is down knows its
/// stable pair alone.
pub struct Controller<A> {
    alloc: Global,
    /// Its number in the group.
    me: u8,
    setup: Setup,
    /// Boxed, since it takes almost two thousand bytes, and a group has up to seven.
    active: Option<Box<Active<A>>>,
    /// The promise of its stable pair: it takes part in no view below.
    promise: u32,
    /// How often it has started, as its stable pair has it.
    life: u64,
    /// The applications of its later lives, the next one last.
    shelf: Vec<A>,
    /// What each save came to, the first one first.
    results: Vec<SaveResult>,
}

impl<A> Model for Controller<A> {
    ghost use Rattle.std.specs.Prelude.{box_value, option_map};
    ghost use Rattle.group_controller.specs.Turns.{Controlling};

    ghost Value = { Controlling A };

    ghost view = { λ c. record { setup = c.setup; me = c.me; promise = c.promise; life = c.life; acting = option_map box_value c.active; shelf = c.shelf.items; results = c.results.items } };
}

/// (By hand, as that of what it holds.)
impl<A: Drop> Drop for Controller<A> {
    fn drop(self) {
        let Controller {
            alloc: _,
            me: _,
            setup: _setup,
            active: _active,
            promise: _,
            life: _,
            shelf: _shelf,
            results: _results,
        } = self;
    }
}

/// Whether this pair is the one that stands.
fn is_pair(stands: (u64, u64), promise: u64, life: u64) -> bool
    ensures { result ≡ (nat_eq stands.0 promise && nat_eq stands.1 life) }
{
    stands.0 == promise && stands.1 == life
}

fn is_crash(input: &ControllerInput) -> bool
    ensures { result ≡ is_crash_input input.now }
{
    match input {
        ControllerInput::Local(local) => controller_life::is_crash(local),
        _ => false,
    }
}

/// Whether this is what one that is down takes. All else is let go.
fn is_restart(input: &ControllerInput) -> bool
    ensures { result ≡ is_restart_input input.now }
{
    match input {
        ControllerInput::Local(local) => controller_life::is_restart(local),
        _ => false,
    }
}

impl<A: App> Controller<A> {
    /// A controller as its group starts, with the application of its first life.
    pub fn new(
        alloc: Global,
        me: u8,
        setup: &Setup,
        app: A,
        shelf: Vec<A>,
    ) -> Result<Controller<A>, AllocError>
        requires setup { IsSetup setup.now }
        requires member { me < setup.now.controllers }
        requires few { given_by (A.law.kinds app) ≤ most_commands }
        requires alike { AreAlike A.law (A.law.kinds app) shelf.items }
        ensures controls { IfOk result (λ c. Controls A.law c (A.law.kinds app)) }
        ensures starts { IfOk result (λ c. (c.setup ≡ setup.now) × (state_of c ≡ starting_controller me setup.now.controllers) × (c.results ≡ [])) }
    {
        let replica = Replica::new(alloc, me, setup.controllers)?;
        let active = Active::new(alloc, setup, replica, app)?;
        Ok(Controller {
            alloc,
            me,
            setup: setup.copy()?,
            active: Some(Box::new(alloc, active)?),
            promise: 0,
            life: 0,
            shelf,
            results: Vec::new(alloc),
        })
    }

    pub fn status(&self) -> Status
        ensures { result ≡ (state_of self.now).vr.status }
    {
        match &self.active {
            Some(active) => active.replica.status(),
            None => Status::Down,
        }
    }

    /// The greatest view that it has promised.
    pub fn promise(&self) -> u32
        ensures { result ≡ self.now.promise }
    {
        self.promise
    }

    /// Its view. None where it is down.
    pub fn view(&self) -> Option<u32>
        ensures { result ≡ option_map (λ a. a.work.state.vr.view) self.now.acting }
    {
        match &self.active {
            Some(active) => Some(active.replica.view()),
            None => None,
        }
    }

    /// How many entries of its log are committed. None where it is down.
    pub fn committed(&self) -> Option<u64>
        ensures { result ≡ option_map (λ a. a.work.state.vr.commit) self.now.acting }
    {
        match &self.active {
            Some(active) => Some(active.replica.committed()),
            None => None,
        }
    }

    /// Its log. None where it is down.
    pub fn log(&self) -> Option<&Log>
        ensures { option_map (λ l. l.now) result ≡ option_map (λ a. a.work.state.vr.log) self.now.acting }
    {
        match &self.active {
            Some(active) => Some(active.replica.log()),
            None => None,
        }
    }

    /// Its log, moved out. None where it is down. What else it holds is dropped.
    pub fn into_log(self) -> Option<Log>
        ensures { result ≡ option_map (λ a. a.work.state.vr.log) self.acting }
    {
        let Controller {
            alloc: _,
            me: _,
            setup: _setup,
            active,
            promise: _,
            life: _,
            shelf: _shelf,
            results: _results,
        } = self;
        Some(Box::into_inner(active?).into_log())
    }

    /// The proposal that the last turn met the log's limit with, if any. None where it is down.
    pub fn full(&self) -> Option<LogFull>
        ensures { result ≡ (state_of self.now).full }
    {
        match &self.active {
            Some(active) => active.full,
            None => None,
        }
    }

    /// What became of its saves, in order.
    pub fn results(&self) -> &[SaveResult]
        ensures { result.now ≡ self.now.results }
    {
        self.results.as_slice()
    }

    /// A pair is saved. Its place in the list of results was made before.
    fn save<W: Stable>(
        &mut self,
        promise: u32,
        life: u64,
        stable: &mut W,
    ) -> Result<SaveResult, AllocError>
        ensures saves { IfOk result (λ r. Saves r (promise, life) (W.saving.pair stable.old) (W.saving.pair stable.new) (W.saving.faults stable.old) (W.saving.faults stable.new)) }
        ensures left { IfOk result (λ r. self.new ≡ record self.old {
          promise = (standing r (promise, life) (self.old.promise, self.old.life)).0;
          life = (standing r (promise, life) (self.old.promise, self.old.life)).1;
          results = self.old.results ++ r ∷ [];
        }) }
        ensures wants { OnErr result ((self.new ≡ self.old) × (W.saving.pair stable.new ≡ W.saving.pair stable.old) × (W.saving.faults stable.new ≡ W.saving.faults stable.old)) }
    {
        self.results.reserve(1)?;
        let result = match stable.save(u64::from(promise), life) {
            Ok(()) => SaveResult::Saved,
            Err(Failed) => {
                if is_pair(stable.load(), u64::from(promise), life) {
                    SaveResult::KeptNew
                } else {
                    SaveResult::KeptOld
                }
            }
        };
        self.results.push(result)?;
        if result != SaveResult::KeptOld {
            self.promise = promise;
            self.life = life;
        }
        Ok(result)
    }

    /// What a turn left to be posted: nothing where it is down.
    fn release(&mut self) -> Mails
        ensures letters { result ≡ letters_left self.old.acting }
        ensures rests { self.new ≡ released self.old }
    {
        match &mut self.active {
            Some(active) => active.release(),
            None => Mails::new(self.alloc),
        }
    }

    /// It is down: it knows its stable pair alone.
    #[inline(never)]
    fn stop(&mut self)
        ensures { self.new ≡ record self.old { acting = None } }
    {
        self.active = None;
    }

    /// A promise is saved before anything that a turn left is posted. Where that fails the controller is down.
    #[inline(never)]
    fn save_promise<W: Stable>(&mut self, promise: u32, stable: &mut W) -> Result<(), AllocError>
        ensures saves { OnOk result (SavesAndKeeps (promise, self.old.life) self.old self.new (W.saving.pair stable.old) (W.saving.pair stable.new) (W.saving.faults stable.old) (W.saving.faults stable.new)) }
        ensures wants { OnErr result ((self.new ≡ record self.old { acting = None }) × (W.saving.pair stable.new ≡ W.saving.pair stable.old) × (W.saving.faults stable.new ≡ W.saving.faults stable.old)) }
    {
        match self.save(promise, self.life, stable) {
            Ok(SaveResult::Saved) => Ok(()),
            Ok(SaveResult::KeptOld) | Ok(SaveResult::KeptNew) => {
                self.stop();
                Ok(())
            }
            Err(AllocError) => {
                self.stop();
                Err(AllocError)
            }
        }
    }

    /// One that is not down does what the rule of an input says. The promise that it wants to be saved comes back.
    #[inline(always)]
    fn take(&mut self, input: ControllerInput) -> Result<Option<u32>, AllocError>
        requires awake { IsSome self.old.acting }
        requires controls { (kinds : List ℕ) × Controls A.law self.old kinds }
        ensures takes { ForEachKinds (Controls A.law self.old) (λ kinds. is_crash_input input ≡ false → IfOk result (λ promise. TakesInput A.law kinds input promise self.old self.new)) }
        ensures only { self.new ≡ record self.old { acting = self.new.acting } }
        ensures crash { OnErr result (is_crash_input input ≡ false) }
    {
        let Some(active) = &mut self.active else {
            unreachable!()
        };
        active.turn(input)
    }

    /// One that is not down takes an input. What it is to post is left in it.
    #[inline(always)]
    fn act<W: Stable>(&mut self, input: ControllerInput, stable: &mut W) -> Result<(), AllocError>
        requires awake { IsSome self.old.acting }
        requires controls { (kinds : List ℕ) × Controls A.law self.old kinds }
        ensures turn { ForEachKinds (Controls A.law self.old) (λ kinds.
            OnOk result (Turns kinds self.old input (letters_left self.new.acting) (released self.new) (W.saving.pair stable.old) (W.saving.pair stable.new) (W.saving.faults stable.old) (W.saving.faults stable.new))) }
        ensures wants { OnErr result (Wants self.old self.new (W.saving.pair stable.old) (W.saving.pair stable.new) (W.saving.faults stable.old) (W.saving.faults stable.new)) }
        ensures down { OnErr result (self.new.acting ≡ None) }
        ensures controls { ForEachKinds (Controls A.law self.old) (λ kinds. Controls A.law (released self.new) kinds) }
        ensures pair { KnowsPair self.old self.new (W.saving.pair stable.old) (W.saving.pair stable.new) }
        ensures who { (self.new.setup ≡ self.old.setup) × (self.new.me ≡ self.old.me) }
        ensures crash { OnErr result (is_crash_input input ≡ false) }
        ensures shelf { self.new.shelf ≡ self.old.shelf }
    {
        // (A crash is taken too, and does nothing.)
        let crashes = is_crash(&input);
        let Ok(promise) = self.take(input) else {
            self.stop();
            return Err(AllocError);
        };
        if crashes {
            self.stop();
            return Ok(());
        }
        match promise {
            Some(promise) => self.save_promise(promise, stable),
            None => Ok(()),
        }
    }

    /// The member of a life that begins, which asks the others, with the next application.
    fn born(&mut self, life: u64) -> Result<Box<Active<A>>, AllocError>
        requires controls { (kinds : List ℕ) × Controls A.law self.old kinds }
        ensures shelf { self.new ≡ record self.old { shelf = self.new.shelf } }
        ensures alike { ForEachKinds (Controls A.law self.old) (λ kinds. AreAlike A.law kinds self.new.shelf) }
        ensures born { ForEachKinds (Controls A.law self.old) (λ kinds. IfOk result (λ active. Born A.law self.old kinds life active.value)) }
        ensures takes { IfOk result (λ _. TakesOne self.old.shelf self.new.shelf) }
        ensures lost { OnErr result (TakesOneAtMost self.old.shelf self.new.shelf) }
    {
        let (replica, out) = Replica::restart(
            self.alloc,
            self.me,
            self.setup.controllers,
            self.promise,
            life,
        )?;
        let Some(app) = self.shelf.pop() else {
            return Err(AllocError);
        };
        let active = Active::new(self.alloc, &self.setup, replica, app)?;
        let mut active = Box::new(self.alloc, active)?;
        active.take(out)?;
        Ok(active)
    }

    /// One that is down begins its next life, which it saves first. An application whose life did not begin is for the
    /// next try.
    #[inline(never)]
    fn restart<W: Stable>(&mut self, stable: &mut W) -> Result<(), AllocError>
        requires down { self.old.acting ≡ None }
        requires controls { (kinds : List ℕ) × Controls A.law self.old kinds }
        ensures turn { ForEachKinds (Controls A.law self.old) (λ kinds.
            OnOk result (Restarts self.old (letters_left self.new.acting) (released self.new) (W.saving.pair stable.old) (W.saving.pair stable.new) (W.saving.faults stable.old) (W.saving.faults stable.new))) }
        ensures wants { OnErr result (Wants self.old self.new (W.saving.pair stable.old) (W.saving.pair stable.new) (W.saving.faults stable.old) (W.saving.faults stable.new)) }
        ensures down { OnErr result (self.new.acting ≡ None) }
        ensures controls { ForEachKinds (Controls A.law self.old) (λ kinds. Controls A.law (released self.new) kinds) }
        ensures pair { KnowsPair self.old self.new (W.saving.pair stable.old) (W.saving.pair stable.new) }
        ensures who { (self.new.setup ≡ self.old.setup) × (self.new.me ≡ self.old.me) }
        ensures shelf { OnOk result (LeavesShelf A.law (nat_lt self.old.life last_life) self.old self.new) }
        ensures lost { OnErr result (MayTake (nat_lt self.old.life last_life) self.old self.new) }
    {
        if self.life >= u64::from(LAST_LIFE) {
            return Ok(());
        }
        let life = self.life + 1;
        let active = self.born(life)?;
        match self.save(self.promise, life, stable)? {
            SaveResult::Saved => {
                self.active = Some(active);
                Ok(())
            }
            SaveResult::KeptNew => Ok(()),
            SaveResult::KeptOld => {
                // (There is room where it was taken from.)
                let _ = self.shelf.push(Box::into_inner(active).into_app());
                Ok(())
            }
        }
    }

    /// One turn: what the rule of the input wants to be posted. A promise is saved first; where a save fails nothing
    /// is posted, and the controller is down. At want of memory it is down, and no save was made.
    pub fn turn<W: Stable>(
        &mut self,
        input: ControllerInput,
        stable: &mut W,
    ) -> Result<Mails, AllocError>
        requires controls { (kinds : List ℕ) × Controls A.law self.old kinds }
        requires pair { W.saving.pair stable.old ≡ pair_in (state_of self.old) }
        ensures turn { ForEachKinds (Controls A.law self.old) (λ kinds.
            IfOk result (λ letters. Turns kinds self.old input letters self.new (W.saving.pair stable.old) (W.saving.pair stable.new) (W.saving.faults stable.old) (W.saving.faults stable.new))) }
        ensures wants { OnErr result (Wants self.old self.new (W.saving.pair stable.old) (W.saving.pair stable.new) (W.saving.faults stable.old) (W.saving.faults stable.new)) }
        ensures controls { ForEachKinds (Controls A.law self.old) (λ kinds. Controls A.law self.new kinds) }
        ensures pair { W.saving.pair stable.new ≡ pair_in (state_of self.new) }
        ensures who { (self.new.setup ≡ self.old.setup) × (self.new.me ≡ self.old.me) }

        // A crash takes no memory.
        ensures crash { OnErr result (is_crash_input input ≡ false) }

        // The applications of later lives stay on their shelf, but a restart that begins a life takes its own.
        ensures shelf { IfOk result (λ _. LeavesShelf A.law (begins_life self.old input) self.old self.new) }
        ensures lost { OnErr result (MayTake (begins_life self.old input) self.old self.new) }
    {
        if self.active.is_some() {
            self.act(input, stable)?;
            return Ok(self.release());
        }
        let restarts = is_restart(&input);
        drop(input);
        if restarts {
            self.restart(stable)?;
            Ok(self.release())
        } else {
            Ok(Mails::new(self.alloc))
        }
    }

    /// Of how many commands results are kept, since the view began or it forgot. None where it is down.
    pub fn marked(&self) -> Option<usize>
        ensures { result ≡ option_map (λ a. length a.work.state.marks.acked) self.now.acting }
    {
        match &self.active {
            Some(active) => Some(active.marked()),
            None => None,
        }
    }

    /// The results of commands that are settled are forgotten, where it is not down.
    fn forget_settled(&mut self)
        ensures state { ForEachKinds (Controls A.law self.old) (λ kinds. state_of self.new ≡ with_settled_forgotten kinds self.old.setup (state_of self.old)) }
        ensures only { self.new ≡ record self.old { acting = self.new.acting } }
        ensures awake { is_none self.new.acting ≡ is_none self.old.acting }
        ensures controls { ForEachKinds (Controls A.law self.old) (Controls A.law self.new) }
    {
        let Some(active) = &mut self.active else {
            return;
        };
        active.forget();
    }

    /// What no rule asks for is forgotten: the results of commands that are settled, and what became of its saves. It
    /// is for a process that runs for long and tells nobody its past, and takes no memory. What is played for a report
    /// never forgets.
    pub fn forget(&mut self)
        ensures state { ForEachKinds (Controls A.law self.old) (λ kinds. state_of self.new ≡ with_settled_forgotten kinds self.old.setup (state_of self.old)) }
        ensures rest { self.new ≡ record self.old { acting = self.new.acting; results = [] } }
        ensures awake { is_none self.new.acting ≡ is_none self.old.acting }
        ensures controls { ForEachKinds (Controls A.law self.old) (Controls A.law self.new) }
    {
        self.results.clear();
        self.forget_settled();
    }

    /// What a turn posted comes back, so that a later turn has its memory.
    #[inline(always)]
    pub fn reuse(&mut self, mails: Mails)
        ensures { self.new ≡ self.old }
    {
        if let Some(active) = &mut self.active {
            active.reuse(mails.into_empty());
        }
    }
}
