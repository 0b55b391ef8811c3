//! Actors that play their own steps: a switch, and a controller beside what it saves to.
ghost use Rattle.std.specs.Prelude.{◌≡◌, ◌∷◌, ℕ, ◌++◌, List, Option, Some, None, [], OnOk, OnErr};
ghost use Rattle.of_types.specs.declared.setup.Setup.{Setup};
ghost use Rattle.journal.specs.declared.journal.Actor.{Actor};
ghost use Rattle.journal.specs.declared.journal.JournalEntry.{JournalEntry};
ghost use Rattle.journal.specs.declared.journal.Letter.{Letter};
ghost use Rattle.journal.specs.declared.journal.Packet.{Packet};
ghost use Rattle.journal.specs.Turns.{posting};
ghost use Rattle.group_controller.specs.Turns.{Controls};
ghost use Rattle.shared_wire.specs.Calls.{beside_seat};
ghost use Rattle.running.specs.Hearing.{Hears};
ghost use Rattle.running.specs.Jobs.{HasPlayedSome};
ghost use Rattle.running.specs.Playing.{ServedPlays, SwitchPlays};

use app_core::App;
use group_controller::{Controller, ControllerInput, ControllerSays, Mails};
use journal::{Local, Mailbag, Stable};
use of_switch::{Switch, SwitchInput, SwitchSays};
use players::{Body, Player, sealed_turn};
use run_spec::Unsealed;
use std::alloc::{AllocError, Global};

/// An actor that plays its own steps.
pub trait Seated<B: Body>: Player {
    /// In a run of this setup, with applications of these kinds, this actor, which started so, is what these entries of its own
    /// make of it, the newest first and each draw beside its packet, and owes these letters.
    ghost plays: { Setup → List ℕ → Actor → Self → List (JournalEntry B × Option (Packet B)) → Self → List (Letter B) → Type 0 };

    /// It stays what it is as it posts what it owes, and at an entry at which it hears nothing.
    fn rests(&self)
        ensures posts { (setup : Setup) (kinds : List ℕ) (a : Actor) (start : Self) (own : List (JournalEntry B × Option (Packet B)))
            (owed : List (Letter B)) (before : List (JournalEntry B)) →
            plays setup kinds a start own self.now owed → plays setup kinds a start (beside_seat (posting B.sealing.size a owed before) before ++ own) self.now [] }
        ensures quiet { (setup : Setup) (kinds : List ℕ) (a : Actor) (start : Self) (own : List (JournalEntry B × Option (Packet B)))
            (e : JournalEntry B) (found : Option (Packet B)) →
            Hears B.sealing Self.hears Self.locally e found None →
            plays setup kinds a start own self.now [] → plays setup kinds a start ((e, found) ∷ own) self.now [] };

    /// Takes an input, and what it says is sealed into an empty bag. Where it finds no memory, what it says is lost, or its input is refused.
    fn take(&mut self, input: Self::Input, owed: &mut Mailbag<B>) -> Result<(), AllocError>
        requires empty { owed.old ≡ [] }
        requires plays { (setup : Setup) × (kinds : List ℕ) × (a : Actor) × (start : Self) × (own : List (JournalEntry B × Option (Packet B))) ×
            plays setup kinds a start own self.old [] }
        ensures takes { (setup : Setup) (kinds : List ℕ) (a : Actor) (start : Self) (own : List (JournalEntry B × Option (Packet B)))
            (e : JournalEntry B) (found : Option (Packet B)) →
            Hears B.sealing Self.hears Self.locally e found (Some input) → plays setup kinds a start own self.old [] →
            OnOk result (plays setup kinds a start ((e, found) ∷ own) self.new owed.new) }
        ensures wants { (setup : Setup) (kinds : List ℕ) (a : Actor) (start : Self) (own : List (JournalEntry B × Option (Packet B)))
            (e : JournalEntry B) (found : Option (Packet B)) →
            Hears B.sealing Self.hears Self.locally e found (Some input) → plays setup kinds a start own self.old [] →
            OnErr result (HasPlayedSome (plays setup kinds a start) self.new) }
        ensures lost { OnErr result (owed.new ≡ []) };
}

impl<B: Body> Seated<B> for Switch {
    ghost plays = { SwitchPlays B.sealing };

    fn rests(&self) {}

    fn take(&mut self, input: SwitchInput, owed: &mut Mailbag<B>) -> Result<(), AllocError> {
        sealed_turn::<Switch, (), B>(self, &mut (), input, owed)
    }
}

/// A controller beside what it saves to.
#[derive(Drop)]
pub struct Served<A: App, W: Stable> {
    pub controller: Controller<A>,
    pub stable: W,
}

impl<A: App, W: Stable> Player for Served<A, W> {
    type Input = ControllerInput;

    type Says = ControllerSays;

    type Post = Mails;

    ghost locally = { λ input. ⟦<Controller<A> as Player>⟧.locally input };

    ghost hears = { ⟦<Controller<A> as Player>⟧.hears };

    ghost said = { ⟦<Controller<A> as Player>⟧.said };

    ghost letters = { ⟦<Controller<A> as Player>⟧.letters };

    fn take_local(input: Local) -> ControllerInput {
        Controller::<A>::take_local(input)
    }

    fn hear(alloc: Global, from: journal::Actor, unsealed: Unsealed) -> ControllerInput {
        Controller::<A>::hear(alloc, from, unsealed)
    }

    fn fits(post: &Mails) {
        Controller::<A>::fits(post)
    }

    fn seal<C: Body>(post: &Mails, bag: &mut Mailbag<C>) -> Result<(), AllocError> {
        Controller::<A>::seal::<C>(post, bag)
    }
}

impl<B: Body, A: App, W: Stable> Seated<B> for Served<A, W> {
    ghost plays = { ServedPlays A.law W.saving B.sealing };

    fn rests(&self) {}

    fn take(&mut self, input: ControllerInput, owed: &mut Mailbag<B>) -> Result<(), AllocError> {
        sealed_turn::<Controller<A>, W, B>(&mut self.controller, &mut self.stable, input, owed)
    }
}
