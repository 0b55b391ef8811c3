//! An actor at its place at a board, and how it plays its own steps.
ghost use Rattle.std.specs.Prelude.{◌≡◌, ◌+◌, ℕ, List, [], true, Some, OnOk, IfErr, slice_get, length, if◌then◌else◌};
ghost use Rattle.journal.specs.Actors.{same_actor};
ghost use Rattle.of_types.specs.declared.setup.Setup.{Setup};
ghost use Rattle.journal.specs.declared.journal.Turn.{Turn as ATurn};
ghost use Rattle.journal.specs.Turns.{turn_actor};
ghost use Rattle.shared_wire.specs.Places.{IsSamePlace};
ghost use Rattle.running.specs.Apart.{steps_of};
ghost use Rattle.running.specs.Jobs.{HasDone, PlaysOn, StopsIn};

use crate::next::next_input;
use crate::seated::Seated;
use journal::{Gate, Mailbag, Stop, Turn};
use players::Body;
use shared_wire::{Board, Place};
use std::alloc::Global;
use std::sync::Wait;
use thread_rules::is_own;

/// An actor at its place, with what it owes.
#[derive(Drop)]
pub struct Job<B: Body, P: Drop> {
    pub place: Place<B>,
    pub player: P,
    pub owed: Mailbag<B>,
}

/// Takes one step of its own: posts what is owed, and takes the entry of the step, in one exchange of the wire, and does then
/// its turn, while it holds nothing.
fn take_step<P: Seated<B> + Drop, B: Body, R: Wait>(
    rt: &R,
    alloc: Global,
    board: &Board<B>,
    job: &mut Job<B, P>,
    step: &Turn,
) -> Result<(), Stop>
    requires board { job.old.place.board ≡ board.now.id }
    requires mine { turn_actor step.now ≡ job.old.place.actor }
    requires plays { (setup : Setup) × (kinds : List ℕ) × (start : P) ×
        P.plays setup kinds job.old.place.actor start job.old.place.own job.old.player job.old.owed }
    ensures place { IsSamePlace job.old.place job.new.place }
    ensures on { (setup : Setup) (kinds : List ℕ) (start : P) (steps : List ATurn) (number : ℕ) →
        slice_get (steps_of job.old.place.actor steps) number ≡ Some step.now →
        PlaysOn (P.plays setup kinds job.old.place.actor start) steps number job.old →
        OnOk result (PlaysOn (P.plays setup kinds job.old.place.actor start) steps (number + 1) job.new) }
    ensures stops { (setup : Setup) (kinds : List ℕ) (start : P) (steps : List ATurn) (number : ℕ) →
        PlaysOn (P.plays setup kinds job.old.place.actor start) steps number job.old →
        IfErr result (StopsIn (P.plays setup kinds job.old.place.actor start) B.sealing.size steps job.new) }
{
    job.place.lawful();
    job.player.rests();
    let answer = next_input::<P, B, R>(rt, alloc, board, &mut job.place, &mut job.owed, step);
    job.place.lawful();
    let heard = answer?;
    if let Some(input) = heard {
        job.player.take(input, &mut job.owed)?;
    }
    Ok(())
}

/// Posts the last outbox.
fn post_last<P: Seated<B> + Drop, B: Body, R: Wait>(
    rt: &R,
    board: &Board<B>,
    job: &mut Job<B, P>,
) -> Result<(), Stop>
    requires board { job.old.place.board ≡ board.now.id }
    ensures place { IsSamePlace job.old.place job.new.place }
    ensures rests { OnOk result (job.new.owed ≡ []) }
    ensures on { (setup : Setup) (kinds : List ℕ) (start : P) (steps : List ATurn) (number : ℕ) →
        PlaysOn (P.plays setup kinds job.old.place.actor start) steps number job.old →
        OnOk result (PlaysOn (P.plays setup kinds job.old.place.actor start) steps number job.new) }
    ensures stops { (setup : Setup) (kinds : List ℕ) (start : P) (steps : List ATurn) (number : ℕ) →
        PlaysOn (P.plays setup kinds job.old.place.actor start) steps number job.old →
        IfErr result (StopsIn (P.plays setup kinds job.old.place.actor start) B.sealing.size steps job.new) }
{
    job.place.lawful();
    job.player.rests();
    let answer = board.post(rt, &mut job.place, &job.owed);
    job.place.lawful();
    answer?;
    job.owed.clear();
    Ok(())
}

/// Passes the gate and takes a step, where it is its own.
fn own_step<P: Seated<B> + Drop, B: Body, G: Gate, R: Wait>(
    rt: &R,
    alloc: Global,
    gate: &G,
    board: &Board<B>,
    job: &mut Job<B, P>,
    step: &Turn,
    turn: u64,
) -> Result<(), Stop>
    requires board { job.old.place.board ≡ board.now.id }
    requires plays { (setup : Setup) × (kinds : List ℕ) × (start : P) ×
        P.plays setup kinds job.old.place.actor start job.old.place.own job.old.player job.old.owed }
    ensures place { IsSamePlace job.old.place job.new.place }
    ensures on { (setup : Setup) (kinds : List ℕ) (start : P) (steps : List ATurn) (number : ℕ) →
        (same_actor (turn_actor step.now) job.old.place.actor ≡ true → slice_get (steps_of job.old.place.actor steps) number ≡ Some step.now) →
        PlaysOn (P.plays setup kinds job.old.place.actor start) steps number job.old →
        OnOk result (PlaysOn (P.plays setup kinds job.old.place.actor start) steps
        (if same_actor (turn_actor step.now) job.old.place.actor then number + 1 else number) job.new) }
    ensures stops { (setup : Setup) (kinds : List ℕ) (start : P) (steps : List ATurn) (number : ℕ) →
        PlaysOn (P.plays setup kinds job.old.place.actor start) steps number job.old →
        IfErr result (StopsIn (P.plays setup kinds job.old.place.actor start) B.sealing.size steps job.new) }
{
    let actor = job.place.actor();
    if !is_own(step, actor) {
        return Ok(());
    }
    gate.pass(actor, turn);
    take_step::<P, B, R>(rt, alloc, board, job, step)
}

/// Does its own steps of a script in order.
fn do_own_steps<P: Seated<B> + Drop, B: Body, G: Gate, R: Wait>(
    rt: &R,
    alloc: Global,
    gate: &G,
    board: &Board<B>,
    job: &mut Job<B, P>,
    steps: &[Turn],
) -> Result<(), Stop>
    requires board { job.old.place.board ≡ board.now.id }
    requires plays { (setup : Setup) × (kinds : List ℕ) × (start : P) × PlaysOn (P.plays setup kinds job.old.place.actor start) steps.now 0 job.old }
    ensures place { IsSamePlace job.old.place job.new.place }
    ensures on { (setup : Setup) (kinds : List ℕ) (start : P) → PlaysOn (P.plays setup kinds job.old.place.actor start) steps.now 0 job.old →
        OnOk result (PlaysOn (P.plays setup kinds job.old.place.actor start) steps.now (length (steps_of job.old.place.actor steps.now)) job.new) }
    ensures stops { (setup : Setup) (kinds : List ℕ) (start : P) → PlaysOn (P.plays setup kinds job.old.place.actor start) steps.now 0 job.old →
        IfErr result (StopsIn (P.plays setup kinds job.old.place.actor start) B.sealing.size steps.now job.new) }
{
    let mut turn = 0u64;
    for step in steps {
        own_step::<P, B, G, R>(rt, alloc, gate, board, job, step, turn)?;
        if is_own(step, job.place.actor()) {
            turn = turn.saturating_add(1);
        }
    }
    Ok(())
}

/// Does its own steps of a script in order, and posts its last outbox.
pub fn play_alone<P: Seated<B> + Drop, B: Body, G: Gate, R: Wait>(
    rt: &R,
    alloc: Global,
    gate: &G,
    board: &Board<B>,
    job: &mut Job<B, P>,
    steps: &[Turn],
) -> Result<(), Stop>
    requires board { job.old.place.board ≡ board.now.id }
    requires plays { (setup : Setup) × (kinds : List ℕ) × (start : P) × PlaysOn (P.plays setup kinds job.old.place.actor start) steps.now 0 job.old }
    ensures place { IsSamePlace job.old.place job.new.place }
    ensures done { (setup : Setup) (kinds : List ℕ) (start : P) → PlaysOn (P.plays setup kinds job.old.place.actor start) steps.now 0 job.old →
        OnOk result (HasDone (P.plays setup kinds job.old.place.actor start) steps.now job.new) }
    ensures stops { (setup : Setup) (kinds : List ℕ) (start : P) → PlaysOn (P.plays setup kinds job.old.place.actor start) steps.now 0 job.old →
        IfErr result (StopsIn (P.plays setup kinds job.old.place.actor start) B.sealing.size steps.now job.new) }
{
    do_own_steps::<P, B, G, R>(rt, alloc, gate, board, job, steps)?;
    post_last::<P, B, R>(rt, board, job)
}
