//! What a controller has committed.
ghost use Rattle.std.specs.Prelude.{◌≡◌, length};
ghost use Rattle.group_controller.specs.Turns.{state_of};
ghost use Rattle.run_spec.specs.Committed.{kept_of};

use app_core::App;
use group_controller::Controller;
use std::alloc::Global;
use vr_log::Entries;
use world::takes_part;

/// How many entries a controller that takes part has committed. One that doesn't has none.
pub fn count_committed<A: App>(controller: &Controller<A>) -> u64
    ensures { result ≡ length (kept_of (state_of controller.now)) }
{
    if !takes_part(controller) {
        return 0;
    }
    let (Some(committed), Some(log)) = (controller.committed(), controller.log()) else {
        return 0;
    };
    committed.min(log.as_slice().len() as u64)
}

/// What a controller that takes part has committed, moved out of it. One that doesn't has nothing.
pub fn into_committed<A: App>(alloc: Global, controller: Controller<A>) -> Entries
    ensures { result ≡ kept_of (state_of controller) }
{
    let committed = count_committed(&controller);
    match controller.into_log() {
        Some(log) => log.into_first(committed as usize),
        None => Entries::new(alloc),
    }
}
