//! The laws of every run of a group of controllers and its switches. Nothing is asked but a setup within its limits, and
//! that bodies say what was sealed in them. No code is here: each law is a function that does nothing, and whose clause
//! says it.
//!
//! Here the proofs meet: agreement (`run_agreement`), the laws of a controller's turn (`controller_laws`), and exactly once
//! (`once_laws`), whose premises on controllers are proved here of every run.
#![tactic(auto)]

pub mod address_laws;
pub mod once_laws;
pub mod run_agreement;
pub mod switch_tables;

ghost use Rattle.run_laws.specs.AddressLaws.Laws.{WaitsForActors};
ghost use Rattle.run_laws.specs.Laws.{InEveryRun, AreAgreed, AreValidLogs, IsLed, AreViewsSuspected, AreFirstLives, ControllersKeepTheirSide};
ghost use Rattle.run_laws.specs.Told.{IsSpellableRun};
ghost use Rattle.run_spec.specs.Laws.{IsLasting, IsExactlyOnce, IsFenced};

/// The controllers of every run keep to their side: their committed logs agree and are valid, and each of their turns makes
/// nothing up.
pub fn controllers_keep_their_side<B>()
    ensures { ControllersKeepTheirSide B }
{}

/// Of the logs that any two controllers have committed, at any two times, one begins the other.
pub fn agreement<B>()
    ensures { InEveryRun B (λ scene results entries. AreAgreed scene results entries) }
{}

/// Each entry of what is decided may follow those before it, and so it is with each log that was committed at any time.
pub fn logs_are_valid<B>()
    ensures { InEveryRun B (λ scene results entries. AreValidLogs scene results entries) }
{}

/// What was decided stays decided.
pub fn lasting<B>()
    ensures { InEveryRun B (λ scene results entries. IsLasting scene results entries) }
{}

/// The log of a controller that leads begins with what is decided, where most promises are not above its view.
pub fn decided_is_led<B>()
    ensures { InEveryRun B (λ scene results entries. IsLed scene results entries) }
{}

/// Each life of each switch carried out, each once and in order, a prefix of what one fault-free controller issues to it on
/// the decided log; what is processed is carried out, or its life was over by then; and an event was dropped only once it
/// was processed.
pub fn exactly_once<B>()
    ensures { InEveryRun B (λ scene results entries. IsExactlyOnce scene results entries) }
{}

/// No switch carried out a command of a stale generation, in any of its lives.
pub fn fence<B>()
    ensures { InEveryRun B (λ scene results entries. IsFenced scene entries) }
{}

/// Whatever waits goes to an actor of the setup.
pub fn waits_for_actors<B>()
    ensures { InEveryRun B (λ scene results entries. WaitsForActors scene entries) }
{}

/// No controller ever has, or has promised, a view above the greatest that was suspected.
pub fn views_are_suspected<B>()
    ensures { InEveryRun B (λ scene results entries. AreViewsSuspected scene results entries) }
{}

/// What is told of a run can be spelled: each event of a switch, which is that switch's own, each order that it carried out
/// and each row of its table, and each entry of the decided log, whose events are of switches of the setup.
pub fn what_is_told_can_be_spelled<B>()
    ensures { InEveryRun B (λ scene results entries. IsSpellableRun scene results entries) }
{}

/// A switch that was never restarted is in its first life. So what is said of its present life is said of all that it did.
pub fn unrestarted_is_first<B>()
    ensures { InEveryRun B (λ scene results entries. AreFirstLives scene entries) }
{}
