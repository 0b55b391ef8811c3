//! Two controllers meet: each raises a flag and looks for the other's. Both see it only where they run at the same time, so one
//! thread that plays all actors doesn't get through, nor do threads that take their turns one after another.
ghost use Rattle.std.specs.Prelude.{◌≡◌, IfOk};
ghost use Rattle.journal.specs.Stables.{pair_of};
ghost use Rattle.top_call.specs.Play.{AreFresh};

use crate::serving::{PLAIN, Served, serve_by};
use cases::{Call, Difference, words_of};
use journal::{Actor, Failed, FreeGate, Gate, MemoryStable, Stable};
use of_types::Octets;
use std::alloc::{AllocError, Global};
use std::sync::Wait;
use std::sync::atomic::{AtomicU64, Ordering};
use std::thread::Threads;
use top_call::CONTROLLERS;

/// How often one looks for the other's flag.
const LOOKS: u64 = 1_000_000_000;

/// What a meeting lacks that wasn't held.
const MISSED: Difference = Difference::Row("two controllers that are there at the same time");

/// One that may come to a meeting: whether it came, and whether it saw the other.
#[derive(Drop)]
struct Guest {
    came: AtomicU64,
    saw: AtomicU64,
}

impl Guest {
    fn new() -> Guest {
        Guest {
            came: AtomicU64::new(0),
            saw: AtomicU64::new(0),
        }
    }

    /// Comes, and looks for the other.
    fn meet(&self, other: &Guest) {
        self.came.store(1, Ordering::SeqCst);
        for _ in 0..LOOKS {
            if other.came.load(Ordering::SeqCst) == 1 {
                self.saw.store(1, Ordering::SeqCst);
                return;
            }
        }
    }

    fn has_met(&self) -> bool {
        self.saw.load(Ordering::SeqCst) == 1
    }
}

/// A meeting of the first two controllers.
#[derive(Drop)]
struct Meeting {
    first: Guest,
    second: Guest,
}

impl Meeting {
    fn new() -> Meeting {
        Meeting {
            first: Guest::new(),
            second: Guest::new(),
        }
    }

    /// A controller comes to it. The others pass by.
    fn attend(&self, controller: u8) {
        match controller {
            0 => self.first.meet(&self.second),
            1 => self.second.meet(&self.first),
            _ => {}
        }
    }

    fn was_held(&self) -> bool {
        self.first.has_met() && self.second.has_met()
    }
}

/// Controllers meet at their first turn.
#[derive(Drop)]
struct MeetingGate<'a> {
    meeting: &'a Meeting,
}

impl Gate for MeetingGate<'_> {
    fn pass(&self, actor: Actor, turn: u64) {
        if let Actor::Controller(number) = actor
            && turn == 0
        {
            self.meeting.attend(number);
        }
    }
}

/// A stable pair in memory. Controllers meet in their first save.
#[derive(Drop)]
struct MeetingStable<'a> {
    stable: MemoryStable,
    controller: u8,
    has_saved: bool,
    meeting: &'a Meeting,
}

impl Stable for MeetingStable<'_> {
    ghost saving = { record { pair = λ s. pair_of s.stable; faults = λ s. s.stable.faults } };

    fn save(&mut self, promise: u64, life: u64) -> Result<(), Failed> {
        if !self.has_saved {
            self.has_saved = true;
            self.meeting.attend(self.controller);
        }
        self.stable.save(promise, life)
    }

    fn load(&self) -> (u64, u64) {
        self.stable.load()
    }
}

/// The stable pairs of the most controllers, none of whose saves fails.
fn meeting_stables<'a>(
    alloc: Global,
    meeting: &'a Meeting,
) -> Result<Vec<MeetingStable<'a>>, AllocError>
    ensures { IfOk result (λ stables. AreFresh ⟦<MeetingStable<'a> as Stable>⟧.saving stables.items) }
{
    let mut stables = Vec::new(alloc);
    'making: for controller in 0..CONTROLLERS {
        stables.push(MeetingStable {
            stable: MemoryStable::new(Vec::new(alloc)),
            controller: controller as u8,
            has_saved: false,
            meeting,
        })?;
    }
    Ok(stables)
}

/// A call that plays a scenario with a thread for each actor.
fn call_of(alloc: Global, scenario: &[u8]) -> Result<Call, AllocError> {
    Ok(Call {
        words: words_of(alloc, "run")?,
        input: Octets::from_slice(alloc, scenario)?,
        saves: Vec::new(alloc),
    })
}

/// The meeting was held, and the call came to its end.
fn check(meeting: &Meeting, served: &Served) -> Result<(), Difference> {
    if served.status != 0 {
        return Err(Difference::Status {
            found: served.status,
            wanted: 0,
        });
    }
    if meeting.was_held() {
        Ok(())
    } else {
        Err(MISSED)
    }
}

/// Plays a scenario in which the first two controllers meet at the gate, before their first turns.
pub fn meet_at_gate<R: Threads + Wait + Sync>(
    rt: &R,
    alloc: Global,
    scenario: &[u8],
) -> Result<(), Difference> {
    let meeting = Meeting::new();
    let gate = MeetingGate { meeting: &meeting };
    let call = call_of(alloc, scenario)?;
    let mut stables = top_call::stables(alloc)?;
    let served = serve_by(rt, alloc, &gate, &call, PLAIN, &mut stables)?;
    check(&meeting, &served)
}

/// Plays a scenario in which the first two controllers meet in their first saves, so in the midst of their turns.
pub fn meet_in_saves<R: Threads + Wait + Sync>(
    rt: &R,
    alloc: Global,
    scenario: &[u8],
) -> Result<(), Difference> {
    let meeting = Meeting::new();
    let call = call_of(alloc, scenario)?;
    let mut stables = meeting_stables(alloc, &meeting)?;
    let served = serve_by(rt, alloc, &FreeGate, &call, PLAIN, &mut stables)?;
    check(&meeting, &served)
}
