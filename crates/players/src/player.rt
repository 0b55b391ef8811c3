//! What an actor is to those who carry its letters.
ghost use Rattle.std.specs.Prelude.{◌≡◌, ◌++◌, [], List, OnOk, OnErr};
ghost use Rattle.list_facts.specs.Lists.{IsPrefix};
ghost use Rattle.journal.specs.declared.journal.Actor.{Actor};
ghost use Rattle.journal.specs.declared.journal.Letter.{Letter};
ghost use Rattle.journal.specs.declared.journal.Local.{Local};
ghost use Rattle.group_controller.specs.declared.messages.ControllerInput.TheVariants as controller_input;
ghost use Rattle.of_switch.specs.declared.says.SwitchInput.TheVariants as switch_input;
ghost use Rattle.run_spec.specs.declared.messages.Message.{Message};
ghost use Rattle.run_spec.specs.declared.messages.Unsealed.{Unsealed};
ghost use Rattle.run_spec.specs.Legal.{AreTyped};
ghost use Rattle.run_spec.specs.States.{switch_hears, controller_hears, switch_message, controller_message, sealed_letters};

use crate::body::Body;
use crate::sealing::{letters_fit, mails_fit, seal_letters, seal_mails};
use app_core::App;
use group_controller::{Controller, ControllerInput, ControllerSays, Mails};
use journal::{Actor, Local, Mailbag, Said};
use of_switch::{Switch, SwitchInput, SwitchSays};
use of_types::Items;
use run_spec::{Message, Unsealed};
use std::alloc::{AllocError, Global};

/// A switch, or a controller.
pub trait Player {
    /// What it takes in one turn.
    type Input: Drop;
    /// What it says in a letter.
    type Says: Drop;
    /// What it posts in one turn.
    type Post: Drop;

    /// A local input, as it takes it.
    ghost locally: { Local → Self.Input };
    /// What an unsealed body of a sender is for it.
    ghost hears: { Actor → Unsealed → Self.Input };
    /// The message of what it says.
    ghost said: { Self.Says → Message };
    /// The letters that it posts.
    ghost letters: { Self.Post → List (Letter Self.Says) };

    /// A local input, as it takes it.
    fn take_local(input: Local) -> Self::Input
        ensures { result ≡ locally input };

    /// What an unsealed body of a sender is for it.
    fn hear(alloc: Global, from: Actor, unsealed: Unsealed) -> Self::Input
        ensures { result ≡ hears from unsealed };

    /// Each number of what it posts fits its field. This call does nothing when it runs.
    fn fits(post: &Self::Post)
        ensures { AreTyped said (letters post.now) };

    /// Adds what it posts, sealed letter by letter. An `Err` may leave some of it behind what was there.
    fn seal<B: Body>(post: &Self::Post, bag: &mut Mailbag<B>) -> Result<(), AllocError>
        ensures ok { OnOk result (bag.new ≡ bag.old ++ sealed_letters said B.sealing (letters post.now)) }
        ensures err { OnErr result (IsPrefix bag.old bag.new) };
}

/// A message that no such sender sends to a switch.
fn says_nothing(alloc: Global, from: Actor) -> SwitchInput
    ensures { result ≡ switch_input.Malformed from 0 0 0 [] }
{
    SwitchInput::Malformed {
        from,
        kind: 0,
        code: 0,
        xid: 0,
        head: Items::new(alloc),
    }
}

impl Player for Switch {
    type Input = SwitchInput;

    type Says = SwitchSays;

    type Post = Said<SwitchSays>;

    ghost locally = { λ input. switch_input.Local input };

    ghost hears = { switch_hears };

    ghost said = { switch_message };

    ghost letters = { λ letters. letters };

    fn take_local(input: Local) -> SwitchInput {
        SwitchInput::Local(input)
    }

    fn hear(alloc: Global, from: Actor, unsealed: Unsealed) -> SwitchInput {
        match (from, unsealed) {
            (Actor::Controller(from), Unsealed::Message(Message::Of { xid, message })) => {
                SwitchInput::Of { from, xid, message }
            }
            (Actor::Switch(from), Unsealed::Message(Message::Frame { port, bytes })) => {
                SwitchInput::Frame { from, port, bytes }
            }
            (
                from,
                Unsealed::Malformed {
                    kind,
                    code,
                    xid,
                    head,
                },
            ) => SwitchInput::Malformed {
                from,
                kind,
                code,
                xid,
                head,
            },
            (from, Unsealed::Message(message)) => {
                drop(message);
                says_nothing(alloc, from)
            }
        }
    }

    fn fits(post: &Said<SwitchSays>) {
        letters_fit(post.as_slice());
    }

    #[inline(always)]
    fn seal<B: Body>(post: &Said<SwitchSays>, bag: &mut Mailbag<B>) -> Result<(), AllocError> {
        seal_letters(bag, post.as_slice())
    }
}

impl<A: App> Player for Controller<A> {
    type Input = ControllerInput;

    type Says = ControllerSays;

    type Post = Mails;

    ghost locally = { λ input. controller_input.Local input };

    ghost hears = { controller_hears };

    ghost said = { controller_message };

    ghost letters = { λ letters. letters };

    fn take_local(input: Local) -> ControllerInput {
        ControllerInput::Local(input)
    }

    fn hear(_alloc: Global, from: Actor, unsealed: Unsealed) -> ControllerInput {
        match (from, unsealed) {
            (Actor::Switch(switch), Unsealed::Message(Message::Of { xid, message })) => {
                ControllerInput::Of {
                    switch,
                    xid,
                    message,
                }
            }
            (Actor::Controller(from), Unsealed::Message(Message::Vr(message))) => {
                ControllerInput::Vr { from, message }
            }
            (from, unsealed) => {
                drop(unsealed);
                ControllerInput::Malformed { from }
            }
        }
    }

    fn fits(post: &Mails) {
        mails_fit(post.as_slice());
    }

    #[inline(always)]
    fn seal<B: Body>(post: &Mails, bag: &mut Mailbag<B>) -> Result<(), AllocError> {
        seal_mails(bag, post.as_slice())
    }
}
