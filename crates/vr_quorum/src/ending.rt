//! Whether a recovery may end.
ghost use Rattle.std.specs.Prelude.{◌≡◌};
ghost use Rattle.vr_quorum.specs.Ending as rule;

use vr_log::{Response, VrState};

/// The greatest view that was told.
pub fn greatest_view(responses: &[Response]) -> u32
    ensures { result ≡ rule.greatest_view responses.now }
{
    let mut most = 0;
    for response in responses {
        most = most.max(response.view);
    }
    most
}

/// Whether enough members told a view, which is not below the promise.
pub fn is_enough(state: &VrState, responses: &[Response]) -> bool
    ensures { result ≡ rule.is_enough (record state.now { responses = responses.now }) }
{
    state.most_failures() < responses.len() && state.promise <= greatest_view(responses)
}
