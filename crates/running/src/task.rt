//! What a thread is given: the job of an actor, and why it stopped.
ghost use Rattle.std.specs.Prelude.{All, length};
ghost use Rattle.running.specs.Tasks.{AllRan, WasRun, MayBegin};

use crate::job::{Job, play_alone};
use crate::seated::Seated;
use journal::{Gate, Stop, Turn};
use players::Body;
use shared_wire::Board;
use std::alloc::Global;
use std::sync::Wait;
use std::thread;
use std::thread::Threads;

/// The job of an actor, and why it stopped before its end, if it did.
#[derive(Drop)]
pub struct Task<B: Body, P: Drop> {
    pub job: Job<B, P>,
    pub stop: Option<Stop>,
}

/// An actor does its own steps of a script.
fn run_task<P: Seated<B> + Drop, B: Body, G: Gate, R: Wait>(
    rt: &R,
    alloc: Global,
    gate: &G,
    board: &Board<B>,
    steps: &[Turn],
    task: &mut Task<B, P>,
)
    requires { MayBegin P.plays board.now.id steps.now task.old }
    ensures { WasRun P.plays B.sealing.size steps.now task.old task.new }
{
    let answer = play_alone::<P, B, G, R>(rt, alloc, gate, board, &mut task.job, steps);
    task.job.place.lawful();
    task.stop = match answer {
        Ok(()) => None,
        Err(stop) => Some(stop),
    };
}

/// Each in a thread of its own.
fn run_tasks<P: Seated<B> + Drop + Send, B: Body + Send, G: Gate + Sync, R: Threads + Wait + Sync>(
    rt: &R,
    alloc: Global,
    gate: &G,
    board: &Board<B>,
    steps: &[Turn],
    tasks: &mut [Task<B, P>],
)
where
    B::Bag: Send,
    P::Input: Send,
    P::Says: Send,
    P::Post: Send,
    requires { All (MayBegin P.plays board.now.id steps.now) tasks.old }
    ensures { AllRan P.plays B.sealing.size steps.now tasks.old tasks.new }
{
    if tasks.is_empty() {
        return;
    }
    thread::for_each_mut(
        rt,
        tasks,
        tasks.len(),
        &|_: usize, task: &mut Task<B, P>|
            requires { MayBegin P.plays board.now.id steps.now task.now }
            ensures { WasRun P.plays B.sealing.size steps.entry.now task.entry.now task.exit.now }
        { run_task::<P, B, G, R>(rt, alloc, gate, board, steps, task) },
    );
}

/// The same of a list, by value.
pub fn run_all<
    P: Seated<B> + Drop + Send,
    B: Body + Send,
    G: Gate + Sync,
    R: Threads + Wait + Sync,
>(
    rt: &R,
    alloc: Global,
    gate: &G,
    board: &Board<B>,
    steps: &[Turn],
    tasks: Vec<Task<B, P>>,
) -> Vec<Task<B, P>>
where
    B::Bag: Send,
    P::Input: Send,
    P::Says: Send,
    P::Post: Send,
    requires { All (MayBegin P.plays board.now.id steps.now) tasks.items }
    ensures { AllRan P.plays B.sealing.size steps.now tasks.items result.items }
{
    let mut tasks = tasks;
    run_tasks::<P, B, G, R>(rt, alloc, gate, board, steps, tasks.as_mut_slice());
    tasks
}
