//! It makes no difference to a run whether its bodies are messages or their bytes. No code is here: each law is a function
//! that does nothing, and whose clauses say it.
ghost use Rattle.std.specs.Prelude.{◌≡◌, ℕ, List, Ok};
ghost use Rattle.of_types.specs.declared.message.OfMessage.{OfMessage};
ghost use Rattle.of_messages.specs.Reading.{message_at};
ghost use Rattle.byte_bodies.specs.SameSteps.{AreRunsOverBytes, AreRunsOverMessages, TwinsTakeTheSameSteps};
ghost use Rattle.byte_bodies.specs.Framed.{IsOneFrame};

use app_core::App;

/// A run over bytes takes the steps that the same run over messages takes.
pub fn same_steps<A: App>()
    // Each run over messages is one over their bytes: its actors are at the same states, the same packets wait and say the
    // same, and each turn makes the same entry.
    ensures over_bytes { AreRunsOverBytes }
    // Each run over bytes is that of one over messages.
    ensures over_messages { AreRunsOverMessages }
    // Two worlds of one journal, over messages and over bytes, take the same steps.
    ensures worlds { TwinsTakeTheSameSteps A.law }
{}

/// Bytes that say something between a controller and a switch are one message of a stream: a framer that was fed with them
/// lends just these bytes.
pub fn one_message()
    ensures { (bytes : List ℕ) (m : OfMessage) → message_at bytes ≡ Ok m → IsOneFrame bytes }
{}
