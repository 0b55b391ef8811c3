//! Events that are newly committed as processed.
ghost use Rattle.std.specs.Prelude.{◌≡◌, ◌++◌, true, IfOk};
ghost use Rattle.vr_log.specs.Log.{follows};
ghost use Rattle.dispatcher.specs.Few.{values_in};
ghost use Rattle.dispatcher.specs.Folding.{places_processed};
ghost use Rattle.dispatcher.specs.Ledger.{AreHandledAt, ForEachLog, StandsFor};

use app_core::App;
use dispatcher::{Dispatcher, Few, HandledEvent};
use std::alloc::AllocError;
use vr_log::Entry;

/// The application takes entries that are newly committed. What is processed of them comes back.
#[inline(always)]
pub(crate) fn fold_new<A: App>(
    dispatcher: &mut Dispatcher<A>,
    entries: &[Entry],
) -> Result<Few<HandledEvent>, AllocError>
    ensures folds { ForEachLog (StandsFor A.law dispatcher.old) (λ kinds setup log. follows log entries.now ≡ true →
        IfOk result (λ list. AreHandledAt kinds setup (log ++ entries.now) (places_processed entries.now) (values_in list) × StandsFor A.law dispatcher.new kinds setup (log ++ entries.now))) }
    ensures marks { dispatcher.new.marks ≡ dispatcher.old.marks }
{
    let [entry] = entries else {
        return Ok(Few::Many(dispatcher.fold_each(entries)?));
    };
    match dispatcher.fold(entry)? {
        Some(event) => Ok(Few::One(event)),
        None => Ok(Few::Nothing),
    }
}
