//! The laws of every past of a run that may have come about, where its controllers keep to their side.

ghost use Rattle.std.specs.Prelude.{List};
ghost use Rattle.journal.specs.declared.journal.JournalEntry.{JournalEntry};
ghost use Rattle.journal.specs.declared.journal.SaveResult.{SaveResult};
ghost use Rattle.run_spec.specs.States.{Scene};
ghost use Rattle.run_spec.specs.Legal.{IsPossible};
ghost use Rattle.run_spec.specs.Laws.{IsLasting, IsFenced, IsExactlyOnce};
ghost use Rattle.run_laws.specs.OnceLaws.Invariant.{HoldsOfRun};
ghost use Rattle.run_spec.specs.States.{IsFaithful};
ghost use Rattle.run_laws.specs.OnceLaws.Premises.{AreControllers};
ghost use Rattle.run_laws.specs.OnceLaws.SwitchTurns.{AreSwitchTurns};

/// The invariant holds after every past that may have come about.
pub fn invariant<B>()
    ensures { (scene : Scene B) (results : List (List SaveResult)) (entries : List (JournalEntry B)) →
        IsFaithful scene.sealing → AreControllers scene results → IsPossible scene results entries → HoldsOfRun scene results entries }
{}

/// What was decided stays decided.
pub fn lasting<B>()
    ensures { (scene : Scene B) (results : List (List SaveResult)) (entries : List (JournalEntry B)) →
        IsFaithful scene.sealing → AreControllers scene results → IsPossible scene results entries → IsLasting scene results entries }
{}

/// Each life of a switch carried out, each once and in order, a prefix of what one fault-free controller issues to it
/// on the decided log; what is processed is carried out, or its life was over by then; and an event was dropped only
/// once it was processed.
pub fn exactly_once<B>()
    ensures { (scene : Scene B) (results : List (List SaveResult)) (entries : List (JournalEntry B)) →
        IsFaithful scene.sealing → AreControllers scene results → IsPossible scene results entries → IsExactlyOnce scene results entries }
{}

/// No switch carried out a command of a stale generation, in any of its lives.
pub fn fence<B>()
    ensures { (scene : Scene B) (results : List (List SaveResult)) (entries : List (JournalEntry B)) →
        IsFaithful scene.sealing → AreControllers scene results → IsPossible scene results entries → IsFenced scene entries }
{}

/// What one turn of a switch does, whatever it hears.
pub fn switch_turns()
    ensures { AreSwitchTurns }
{}
