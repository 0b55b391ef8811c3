//! The letters that a switch says.
ghost use Rattle.std.specs.Prelude.{◌≡◌, ◌<◌, [], ◌∷◌, ◌++◌, length, map, IfOk, OnOk, OnErr};
ghost use Rattle.std.specs.List.{range_with_len};
ghost use Rattle.of_types.specs.declared.message.OfMessage.TheVariants as plain;
ghost use Rattle.of_types.specs.declared.message.Spoken.TheVariants as spoken;
ghost use Rattle.of_switch.specs.State.{to_controller as letter_to, error_letter as letter_of_error};
ghost use Rattle.of_switch.specs.Events.{event_letter as letter_of_event, event_letters};
ghost use Rattle.of_switch.specs.Forwarding.{frame_letter as letter_of_frame};

use crate::says::SwitchSays;
use journal::{Actor, Letter, Said};
use of_types::{Event, Extension, Items, Octets, OfMessage, Refusal, Spoken};
use std::alloc::{AllocError, Global};

/// A letter to a controller.
pub fn to_controller(controller: u8, xid: u32, message: Spoken) -> Letter<SwitchSays>
    ensures { result ≡ letter_to controller xid message }
{
    Letter {
        to: Actor::Controller(controller),
        body: SwitchSays::Of { xid, message },
    }
}

/// An ERROR, with the beginning of the request where it could not be read.
pub fn error_letter(controller: u8, xid: u32, why: Refusal, head: Octets) -> Letter<SwitchSays>
    ensures { result ≡ letter_of_error controller xid why.kind why.code head }
{
    let Refusal { kind, code } = why;
    to_controller(
        controller,
        xid,
        Spoken::Plain(OfMessage::Error { kind, code, head }),
    )
}

/// One letter.
pub fn one_letter(alloc: Global, letter: Letter<SwitchSays>) -> Result<Said<SwitchSays>, AllocError>
    ensures { IfOk result (λ letters. letters ≡ letter ∷ []) }
{
    let mut letters = Items::new(alloc);
    letters.push(letter)?;
    Ok(letters)
}

/// The letter of an event.
fn event_letter(controller: u8, event: &Event) -> Result<Letter<SwitchSays>, AllocError>
    ensures { IfOk result (λ letter. letter ≡ letter_of_event controller event.now) }
{
    let message = Extension::Event {
        life: event.life,
        number: event.number,
        what: event.what.copy()?,
    };
    Ok(to_controller(controller, 0, Spoken::Ravana(message)))
}

/// Adds letters of events to a controller.
fn push_events_to(
    letters: &mut Vec<Letter<SwitchSays>>,
    controller: u8,
    events: &[Event],
) -> Result<(), AllocError>
    ensures ok { OnOk result (letters.new.items ≡ letters.old.items ++ map (letter_of_event controller) events.now) }
    ensures memory { OnErr result (0 < length events.now) }
{
    for event in events {
        letters.push(event_letter(controller, event)?)?;
    }
    Ok(())
}

/// Adds letters of events to the master, where there is one. It takes no memory for no event.
pub fn push_events(
    letters: &mut Vec<Letter<SwitchSays>>,
    master: Option<u8>,
    events: &[Event],
) -> Result<(), AllocError>
    ensures ok { OnOk result (letters.new.items ≡ letters.old.items ++ event_letters master events.now) }
    ensures memory { OnErr result (0 < length events.now) }
{
    match master {
        Some(controller) => push_events_to(letters, controller, events),
        None => Ok(()),
    }
}

/// Adds a HELLO to each controller.
pub fn push_greetings(
    letters: &mut Vec<Letter<SwitchSays>>,
    controllers: u8,
) -> Result<(), AllocError>
    ensures { OnOk result (letters.new.items ≡ letters.old.items ++ map (λ c. letter_to c 0 (spoken.Plain plain.Hello)) (range_with_len 0 controllers)) }
{
    for controller in 0..controllers {
        letters.push(to_controller(controller, 0, Spoken::Plain(OfMessage::Hello)))?;
    }
    Ok(())
}

/// The letter that brings a frame to a port of another switch.
pub fn frame_letter(switch: u8, port: u32, frame: &Octets) -> Result<Letter<SwitchSays>, AllocError>
    ensures { IfOk result (λ letter. letter ≡ letter_of_frame frame.now switch port) }
{
    let bytes = frame.copy()?;
    Ok(Letter {
        to: Actor::Switch(switch),
        body: SwitchSays::Frame { port, bytes },
    })
}
