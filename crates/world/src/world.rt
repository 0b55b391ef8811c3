//! A world: its journal, its actors, and turns.
ghost use Rattle.std.specs.Prelude.{◌≡◌, ◌<◌, ◌++◌, ◌∷◌, [], ℕ, List, Some, None, false, length, map, slice_get, OnOk, OnErr, IfOk, IfErr, IfSome, IsSome};
ghost use Rattle.of_types.specs.Setups.{IsSetup};
ghost use Rattle.journal.specs.Actors.{IsActor};
ghost use Rattle.journal.specs.Entries.{head_of};
ghost use Rattle.journal.specs.Orderly.{IsOrderly};
ghost use Rattle.journal.specs.Places.{IsFound, packet_at};
ghost use Rattle.journal.specs.Pool.{past, pick, pool};
ghost use Rattle.journal.specs.Refusals.{MayBeRefused};
ghost use Rattle.journal.specs.Turns.{turn_actor, IsWithinLimits};
ghost use Rattle.journal.specs.declared.journal.Actor.TheVariants as actor;
ghost use Rattle.journal.specs.declared.journal.JournalEntry.TheVariants as entry;
ghost use Rattle.journal.specs.declared.journal.Turn.TheVariants as turn;
ghost use Rattle.group_controller.specs.Turns.{ForEachKinds, state_of};
ghost use Rattle.run_spec.specs.Committed.{members_up};
ghost use Rattle.run_spec.specs.Messages.{way_of};
ghost use Rattle.world.specs.World.{Applies, AreStocked, Holds, IsPlayed, Keeps, PairsStand, PostStops, resting_world, StartsAs, Steps, taken, with_posts};
ghost use Rattle.world.specs.Refusals.{StepStops, TurnStops};
ghost use Rattle.world.specs.Actors.{ControllerOwes, ControllerRefused, IsServed, SwitchOwes, SwitchRefused};

use crate::actors::{
    controller_takes, controllers_of, fits_types, switch_takes, switches_of, takes_part,
};
use crate::outbox::Outbox;
use app_core::App;
use group_controller::{Controller, ControllerInput};
use journal::{Actor, Head, Local, PacketPlace, Stable, Stop, Turn, Wire};
use of_switch::{Switch, SwitchInput};
use of_types::Setup;
use players::{Body, Player, heard};
use std::alloc::{AllocError, Global};
use std::marker::Model;
use std::mem::replace;

/// A run so far: what its actors are, what is in flight, and what the one of the newest input has still to post. A turn that finds
/// no memory is a crash of its controller and nothing at a switch, and the run goes on.
#[derive(Drop)]
pub struct World<B: Body, A> {
    alloc: Global,
    setup: Setup,
    /// The journal, and the packets that wait.
    wire: Wire<B>,
    /// By number, as many as the setup has.
    controllers: Vec<Controller<A>>,
    /// By number, as many as the setup has.
    switches: Vec<Switch>,
    /// What the actor of the newest input has still to post.
    outbox: Option<Outbox>,
}

impl<B: Body, A> Model for World<B, A> {
    ghost use Rattle.world.specs.Debts.{owing};
    ghost use Rattle.world.specs.World.{Worlding};

    ghost Value = { Worlding B A };

    ghost view = { λ w. record { setup = w.setup; journal = w.wire; controllers = w.controllers.items; switches = w.switches.items; owed = owing B.sealing w.outbox } };
}

impl<B: Body, A: App> World<B, A> {
    /// A world with an empty journal. Of each controller the applications of its lives, in order: all of the same kinds.
    pub fn new(
        alloc: Global,
        setup: &Setup,
        shelves: Vec<Vec<A>>,
    ) -> Result<World<B, A>, AllocError>
        requires setup { IsSetup setup.now }
        requires each { length shelves.items ≡ setup.now.controllers }
        requires stocked { (kinds : List ℕ) × AreStocked A.law kinds shelves.items }
        ensures starts { IfOk result (λ world. StartsAs setup.now world) }
        ensures holds { ForEachKinds (λ kinds. AreStocked A.law kinds shelves.items)
            (λ kinds. IfOk result (λ world. Holds A.law B.sealing world kinds)) }
    {
        let controllers = controllers_of(alloc, setup, shelves)?;
        let switches = switches_of(alloc, setup)?;
        Ok(World {
            alloc,
            setup: setup.copy()?,
            wire: Wire::with_room(alloc)?,
            controllers,
            switches,
            outbox: None,
        })
    }

    /// The world of a run that was played elsewhere. Its actors owe nothing: all of their letters are posted. It takes no
    /// memory.
    pub fn adopt(
        alloc: Global,
        setup: Setup,
        wire: Wire<B>,
        controllers: Vec<Controller<A>>,
        switches: Vec<Switch>,
    ) -> World<B, A>
        ensures is { result ≡ resting_world setup wire controllers.items switches.items }
        ensures holds { ForEachKinds (IsPlayed A.law B.sealing result) (Holds A.law B.sealing result) }
    {
        World {
            alloc,
            setup,
            wire,
            controllers,
            switches,
            outbox: None,
        }
    }

    pub fn setup(&self) -> &Setup
        ensures { result.now ≡ self.now.setup }
    {
        &self.setup
    }

    /// How many entries its journal has.
    pub fn len(&self) -> usize
        ensures { result ≡ length self.now.journal }
    {
        self.wire.len()
    }

    /// The entries without their letters, the oldest first.
    pub fn heads(&self) -> &[Head]
        ensures { result.now ≡ map head_of self.now.journal }
    {
        self.wire.heads()
    }

    /// Its setup, its journal, and its actors by number. What is owed is let go. It takes no memory.
    pub fn into_parts(self) -> (Setup, Wire<B>, Vec<Controller<A>>, Vec<Switch>)
        ensures setup { result.0 ≡ self.setup }
        ensures wire { result.1 ≡ self.journal }
        ensures controllers { result.2.items ≡ self.controllers }
        ensures switches { result.3.items ≡ self.switches }
    {
        let World {
            alloc: _,
            setup,
            wire,
            controllers,
            switches,
            outbox,
        } = self;
        drop(outbox);
        (setup, wire, controllers, switches)
    }

    /// Its journal is orderly, and within its limits.
    pub fn lawful(&self)
        ensures orderly { IsOrderly B.sealing.size (past self.now.journal) }
        ensures within { IsWithinLimits B.sealing.size (past self.now.journal) }
    {
        self.wire.lawful();
    }

    /// The packet of the lowest number that waits.
    pub fn first(&self) -> Option<PacketPlace>
        ensures { IsFound self.now.journal result (slice_get (pool (past self.now.journal)) 0) }
    {
        self.wire.first()
    }

    /// The switch of a number.
    pub fn switch(&self, number: u8) -> &Switch
        requires { number < length self.now.switches }
        ensures { slice_get self.now.switches number ≡ Some result.now }
    {
        &self.switches[number as usize]
    }

    /// The switches, by number.
    pub fn switches(&self) -> &[Switch]
        ensures { result.now ≡ self.now.switches }
    {
        &self.switches
    }

    /// The controller of a number.
    pub fn controller(&self, number: u8) -> &Controller<A>
        requires { number < length self.now.controllers }
        ensures { slice_get self.now.controllers number ≡ Some result.now }
    {
        &self.controllers[number as usize]
    }

    /// How many controllers take part.
    pub fn up(&self) -> u64
        ensures { result ≡ length (members_up (map (λ c. state_of c) self.now.controllers)) }
    {
        let mut up = 0;
        for controller in &self.controllers {
            if takes_part(controller) {
                up += 1;
            }
        }
        up
    }

    /// Posts what is owed. At a full journal, and at want of memory, it changed nothing.
    #[inline(always)]
    pub fn post_owed(&mut self) -> Result<(), Stop>
        ensures posts { OnOk result (self.new ≡ with_posts B.sealing.size self.old) }
        ensures holds { ForEachKinds (Holds A.law B.sealing self.old) (Holds A.law B.sealing self.new) }
        ensures stops { IfErr result
            (λ stop. (self.new ≡ self.old) × PostStops B.sealing.size self.old stop) }
    {
        if self.owes() {
            return self.post_outbox();
        }
        Ok(())
    }

    /// Whether something may be owed.
    fn owes(&self) -> bool
        ensures { result ≡ false → self.now.owed ≡ None }
    {
        self.outbox.is_some()
    }

    /// Posts the outbox, as `post_owed` does.
    #[inline(always)]
    fn post_outbox(&mut self) -> Result<(), Stop>
        ensures posts { OnOk result (self.new ≡ with_posts B.sealing.size self.old) }
        ensures holds { ForEachKinds (Holds A.law B.sealing self.old) (Holds A.law B.sealing self.new) }
        ensures stops { IfErr result
            (λ stop. (self.new ≡ self.old) × PostStops B.sealing.size self.old stop) }
    {
        let Some(outbox) = &self.outbox else {
            return Ok(());
        };
        if outbox.is_empty() {
            self.wire.lawful();
            self.outbox = None;
            return Ok(());
        }
        self.wire.post(outbox.sender(), outbox)?;
        self.wire.lawful();
        self.settle();
        Ok(())
    }

    /// What was owed is posted. A controller has the memory of its letters back.
    #[inline(always)]
    fn settle(&mut self)
        ensures { self.new ≡ record self.old { owed = None } }
    {
        if let Some(Outbox::Controller { number, letters }) = replace(&mut self.outbox, None)
            && let Some(controller) = self.controllers.get_mut(number as usize)
        {
            controller.reuse(letters);
        }
    }

    /// Posts what is owed before a turn. Only a turn that found no memory left something owed.
    #[inline(never)]
    fn post_late(&mut self) -> Result<(), Stop>
        ensures posts { OnOk result (self.new ≡ with_posts B.sealing.size self.old) }
        ensures holds { ForEachKinds (Holds A.law B.sealing self.old) (Holds A.law B.sealing self.new) }
        ensures stops { IfErr result
            (λ stop. (self.new ≡ self.old) × PostStops B.sealing.size self.old stop) }
    {
        self.post_outbox()
    }

    /// The packet of a choice, if one waits for the actor. It goes on waiting.
    fn look(&self, actor: Actor, choice: u64) -> Option<PacketPlace>
        ensures { IsFound self.now.journal result (pick actor choice (past self.now.journal)) }
    {
        self.wire.look(actor, choice)
    }

    /// What the packet at a place is for the actor that it goes to.
    fn hear<P: Player>(&self, place: PacketPlace) -> Result<P::Input, AllocError>
        requires { IsSome (packet_at place self.now.journal) }
        ensures { IfSome (packet_at place self.now.journal) (λ packet. IfOk result
            (λ input. input ≡ P.hears place.from (B.sealing.spelled (way_of place.from place.to) packet.body))) }
    {
        let (letters, index) = self.wire.letter(place);
        heard::<P, B>(self.alloc, place.from, place.to, letters, index)
    }

    /// The entry of a step is written, with room for that of a refusal.
    #[inline(always)]
    fn enter(&mut self, turn: Turn) -> Result<(), AllocError>
        ensures enters { OnOk result (self.new ≡ record self.old { journal = taken turn self.old.journal }) }
        ensures orderly { IsOrderly B.sealing.size (past self.new.journal) }
        ensures wants { OnErr result (self.new ≡ self.old) }
    {
        let entered = self.wire.take(turn);
        self.wire.lawful();
        entered
    }

    /// The entry of a loss is written.
    #[inline(always)]
    fn enter_loss(&mut self, actor: Actor, choice: u64) -> Result<(), AllocError>
        ensures enters { OnOk result (self.new ≡ record self.old { journal = taken (turn.Lose actor choice) self.old.journal }) }
        ensures orderly { IsOrderly B.sealing.size (past self.new.journal) }
        ensures wants { OnErr result (self.new ≡ self.old) }
    {
        let entered = self.wire.take_loss(actor, choice);
        self.wire.lawful();
        entered
    }

    /// A controller takes the input of the newest entry. What it says is owed from then on. Where it finds no memory it is down,
    /// and the entry is refused.
    #[inline(always)]
    fn at_controller<W: Stable>(
        &mut self,
        stables: &mut [W],
        number: u8,
        input: ControllerInput,
    ) -> Result<(), AllocError>
        requires there { number < length self.old.controllers }
        requires stable { number < length stables.old }
        requires ready { IsServed A.law W.saving self.old.controllers stables.old number }
        requires input { MayBeRefused (past self.old.journal) }
        ensures owes { OnOk result
            (ControllerOwes A.law W.saving B.sealing input self.old stables.old number self.new stables.new) }
        ensures refused { OnErr result
            (ControllerRefused A.law W.saving self.old stables.old number self.new stables.new) }
        ensures orderly { OnErr result (IsOrderly B.sealing.size (past self.new.journal)) }
    {
        match controller_takes(&mut self.controllers, stables, number, input) {
            Ok(letters) => {
                self.outbox = Some(Outbox::Controller { number, letters });
                Ok(())
            }
            Err(error) => {
                self.wire.refuse(Actor::Controller(number));
                self.wire.lawful();
                Err(error)
            }
        }
    }

    /// A switch takes the input of the newest entry. What it says is owed from then on. Where it finds no memory it is as it was,
    /// and the entry is refused.
    #[inline(always)]
    fn at_switch(&mut self, number: u8, input: SwitchInput) -> Result<(), AllocError>
        requires there { number < length self.old.switches }
        requires input { MayBeRefused (past self.old.journal) }
        ensures owes { OnOk result (SwitchOwes B.sealing input self.old number self.new) }
        ensures refused { OnErr result (SwitchRefused self.old number self.new) }
        ensures orderly { OnErr result (IsOrderly B.sealing.size (past self.new.journal)) }
    {
        match switch_takes(&mut self.switches, number, input) {
            Ok(letters) => {
                self.outbox = Some(Outbox::Switch { number, letters });
                Ok(())
            }
            Err(error) => {
                self.wire.refuse(Actor::Switch(number));
                self.wire.lawful();
                Err(error)
            }
        }
    }

    /// What the packet at a place, which is that of a choice, is for the actor that draws it. It is read before the entry is
    /// written: where that finds no memory, nothing has changed.
    #[inline(always)]
    fn draw_from<P: Player>(
        &mut self,
        place: PacketPlace,
        actor: Actor,
        choice: u64,
        keep: bool,
    ) -> Result<P::Input, AllocError>
        requires { IsFound self.old.journal (Some place) (pick actor choice (past self.old.journal)) }
        ensures heard { IfSome (packet_at place self.old.journal) (λ packet. IfOk result
            (λ input. input ≡ P.hears place.from (B.sealing.spelled (way_of place.from place.to) packet.body))) }
        ensures enters { OnOk result (self.new ≡ record self.old { journal = taken (turn.Draw actor choice keep) self.old.journal }) }
        ensures orderly { OnOk result (IsOrderly B.sealing.size (past self.new.journal)) }
        ensures wants { OnErr result (self.new ≡ self.old) }
    {
        let input = self.hear::<P>(place)?;
        let entered = self.wire.take_draw(place, actor, choice, keep);
        self.wire.lawful();
        entered?;
        Ok(input)
    }

    /// An actor draws the packet of a choice, if one waits for it. What it says is read before it is drawn: where that finds no
    /// memory, nothing has changed.
    fn draw<W: Stable>(
        &mut self,
        stables: &mut [W],
        actor: Actor,
        choice: u64,
        keep: bool,
    ) -> Result<(), AllocError>
        requires rests { self.old.owed ≡ None }
        requires holds { (kinds : List ℕ) × Holds A.law B.sealing self.old kinds }
        requires pairs { PairsStand W.saving stables.old self.old.controllers }
        requires named { IsActor self.old.setup actor }
        ensures steps { OnOk result (Steps A.law W.saving B.sealing (turn.Draw actor choice keep)
            self.old stables.old self.new stables.new) }
        ensures stops { OnErr result (StepStops A.law W.saving B.sealing (turn.Draw actor choice keep)
            self.old stables.old self.new stables.new) }
    {
        let Some(place) = self.look(actor, choice) else {
            return self.enter(Turn::Draw {
                actor,
                choice,
                keep,
            });
        };
        self.draw_place(stables, place, actor, choice, keep)
    }

    /// An actor draws the packet at a place, which is that of a choice.
    #[inline(never)]
    fn draw_place<W: Stable>(
        &mut self,
        stables: &mut [W],
        place: PacketPlace,
        actor: Actor,
        choice: u64,
        keep: bool,
    ) -> Result<(), AllocError>
        requires rests { self.old.owed ≡ None }
        requires holds { (kinds : List ℕ) × Holds A.law B.sealing self.old kinds }
        requires pairs { PairsStand W.saving stables.old self.old.controllers }
        requires named { IsActor self.old.setup actor }
        requires found { IsFound self.old.journal (Some place) (pick actor choice (past self.old.journal)) }
        ensures steps { OnOk result (Steps A.law W.saving B.sealing (turn.Draw actor choice keep)
            self.old stables.old self.new stables.new) }
        ensures stops { OnErr result (StepStops A.law W.saving B.sealing (turn.Draw actor choice keep)
            self.old stables.old self.new stables.new) }
    {
        match actor {
            Actor::Controller(number) => {
                let input = self.draw_from::<Controller<A>>(place, actor, choice, keep)?;
                self.at_controller(stables, number, input)
            }
            Actor::Switch(number) => {
                let input = self.draw_from::<Switch>(place, actor, choice, keep)?;
                self.at_switch(number, input)
            }
        }
    }

    /// An actor takes a local input.
    fn local<W: Stable>(
        &mut self,
        stables: &mut [W],
        actor: Actor,
        input: Local,
    ) -> Result<(), AllocError>
        requires rests { self.old.owed ≡ None }
        requires holds { (kinds : List ℕ) × Holds A.law B.sealing self.old kinds }
        requires pairs { PairsStand W.saving stables.old self.old.controllers }
        requires named { IsActor self.old.setup actor }
        ensures steps { OnOk result (Steps A.law W.saving B.sealing (turn.Local actor input)
            self.old stables.old self.new stables.new) }
        ensures stops { OnErr result (StepStops A.law W.saving B.sealing (turn.Local actor input)
            self.old stables.old self.new stables.new) }
    {
        fits_types(&input);
        let taken = input.copy()?;
        self.enter(Turn::Local { actor, input })?;
        match actor {
            Actor::Controller(number) => {
                self.at_controller(stables, number, Controller::<A>::take_local(taken))
            }
            Actor::Switch(number) => self.at_switch(number, Switch::take_local(taken)),
        }
    }

    /// An actor takes a step.
    fn step<W: Stable>(&mut self, stables: &mut [W], turn: Turn) -> Result<(), AllocError>
        requires rests { self.old.owed ≡ None }
        requires holds { (kinds : List ℕ) × Holds A.law B.sealing self.old kinds }
        requires pairs { PairsStand W.saving stables.old self.old.controllers }
        requires named { IsActor self.old.setup (turn_actor turn) }
        ensures steps { OnOk result
            (Steps A.law W.saving B.sealing turn self.old stables.old self.new stables.new) }
        ensures stops { OnErr result
            (StepStops A.law W.saving B.sealing turn self.old stables.old self.new stables.new) }
    {
        match turn {
            Turn::Draw {
                actor,
                choice,
                keep,
            } => self.draw(stables, actor, choice, keep),
            Turn::Lose { actor, choice } => self.enter_loss(actor, choice),
            Turn::Local { actor, input } => self.local(stables, actor, input),
        }
    }

    /// Does one turn: posts what is owed, takes the step, and posts its outbox. At a full journal the outbox stays
    /// unposted, and every later call answers the same. At want of memory the run may go on: the turn changed nothing, or its
    /// input is refused, or its outbox is owed, and the next call posts that first.
    pub fn apply<W: Stable>(&mut self, stables: &mut [W], turn: &Turn) -> Result<(), Stop>
        requires holds { (kinds : List ℕ) × Holds A.law B.sealing self.old kinds }
        requires pairs { PairsStand W.saving stables.old self.old.controllers }
        requires named { IsActor self.old.setup (turn_actor turn.now) }
        ensures applies { OnOk result (Applies B.sealing.size turn.now self.old self.new) }
        ensures keeps { Keeps A.law W.saving B.sealing self.old stables.old self.new stables.new }
        ensures stops { IfErr result (TurnStops B.sealing.size turn.now self.old self.new) }
    {
        let turn = turn.copy()?;
        self.take(stables, turn)
    }

    /// The same with a turn of its own: what it brings moves into the journal.
    pub fn take<W: Stable>(&mut self, stables: &mut [W], turn: Turn) -> Result<(), Stop>
        requires holds { (kinds : List ℕ) × Holds A.law B.sealing self.old kinds }
        requires pairs { PairsStand W.saving stables.old self.old.controllers }
        requires named { IsActor self.old.setup (turn_actor turn) }
        ensures applies { OnOk result (Applies B.sealing.size turn self.old self.new) }
        ensures keeps { Keeps A.law W.saving B.sealing self.old stables.old self.new stables.new }
        ensures stops { IfErr result (TurnStops B.sealing.size turn self.old self.new) }
    {
        if self.owes() {
            self.post_late()?;
        }
        self.step(stables, turn)?;
        self.post_owed()
    }

    /// Does the turn in which the packet of the lowest number is drawn, whose place this is. Nothing is owed.
    pub fn draw_first<W: Stable>(
        &mut self,
        stables: &mut [W],
        place: PacketPlace,
    ) -> Result<(), Stop>
        requires rests { self.old.owed ≡ None }
        requires holds { (kinds : List ℕ) × Holds A.law B.sealing self.old kinds }
        requires pairs { PairsStand W.saving stables.old self.old.controllers }
        requires named { IsActor self.old.setup place.to }
        requires found { IsFound self.old.journal (Some place) (pick place.to 0 (past self.old.journal)) }
        ensures applies { OnOk result (Applies B.sealing.size (turn.Draw place.to 0 false) self.old self.new) }
        ensures keeps { Keeps A.law W.saving B.sealing self.old stables.old self.new stables.new }
        ensures stops { IfErr result (TurnStops B.sealing.size (turn.Draw place.to 0 false) self.old self.new) }
    {
        self.draw_place(stables, place, place.to, 0, false)?;
        self.post_owed()
    }
}
