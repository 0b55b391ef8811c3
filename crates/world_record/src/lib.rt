//! The record of a run: what a report tells of a world.
#![tactic(auto)]

ghost use Rattle.std.specs.Prelude.{◌≡◌, ◌<◌, ◌≤◌, drop, length, IfOk};
ghost use Rattle.journal.specs.Entries.{Tile};
ghost use Rattle.run_spec.specs.Closing.{count_turns};
ghost use Rattle.report.specs.Sums.{sums_in};
ghost use Rattle.world_record.specs.Shows.{head_turns, told_by};
ghost use Rattle.world_record.specs.Told.{whole_record};

mod committed;
mod told;
mod told_run;

use crate::committed::{count_committed, into_committed};
use crate::told::{told_all, told_counts};
use app_core::App;
use journal::Head;
use of_types::Items;
use players::Bytes;
use report::{Record, Sums};
use std::alloc::{AllocError, Global};
pub use told_run::{Actors, ToldRun};
use world::World;

/// How many turns entries are: suspicions and draws.
fn turns_in(heads: &[Head]) -> u64
    ensures { result ≡ head_turns heads.now }
{
    let mut turns = 0;
    for head in heads {
        turns += u64::from(matches!(head, Head::Draw { .. } | Head::Local { .. }));
    }
    turns
}

/// How many turns a world's entries are behind those of a script.
fn closing_turns<A: App>(world: &World<Bytes, A>, script: usize) -> u64
    requires { script ≤ length world.now.journal }
    ensures { result ≡ count_turns (drop script world.now.journal) }
{
    turns_in(&world.heads()[script..])
}

/// What the last line of a world's report sums up, by the log of a primary. So many steps were its script's, which made so many of
/// its entries. Nothing is copied.
pub fn sums_of<A: App>(world: &World<Bytes, A>, primary: u8, steps: usize, script: usize) -> Sums
    requires led { primary < length world.now.controllers }
    requires script { script ≤ length world.now.journal }
    ensures { result ≡ sums_in (told_by world.now primary steps script) }
{
    let (events, executed, rows) = told_counts(world);
    Sums {
        script: steps as u64,
        closing: closing_turns(world, script),
        events,
        entries: count_committed(world.controller(primary)),
        executed,
        rows,
    }
}

/// What is told of a world, with the log of a primary, and with so many steps of a script, which made so many of its entries.
pub fn record_of<A: App>(
    alloc: Global,
    world: World<Bytes, A>,
    primary: u8,
    steps: usize,
    script: usize,
) -> Result<ToldRun<A>, AllocError>
    requires led { primary < length world.controllers }
    requires script { script ≤ length world.journal }
    ensures told { IfOk result (λ told. whole_record told ≡ told_by world primary steps script) }
    ensures tiled { IfOk result (λ told. Tile 0 told.heads.items (length told.letters)) }
{
    let closing = closing_turns(&world, script);
    let (setup, wire, controllers, switches) = world.into_parts();
    let (heads, letters) = wire.into_parts();
    let mut controllers = controllers;
    let log = into_committed(alloc, controllers.swap_remove(primary as usize));
    let (switches, remains) = told_all(alloc, switches)?;
    let record = Record {
        setup,
        journal: Items::new(alloc),
        log,
        switches,
        script: steps as u64,
        closing,
    };
    Ok(ToldRun {
        record,
        heads,
        letters,
        actors: Actors::new(controllers, remains),
    })
}
