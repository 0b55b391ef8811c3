//! On which entries a majority agrees.
ghost use Rattle.std.specs.Prelude.{◌≡◌, length};
ghost use Rattle.vr_normal.specs.Cases.{acks, is_agreed, agreed};

use vr_log::VrState;

/// The greatest op of the log on which a majority agrees, or the commit number. Such an op is the last one, or
/// one up to which some member has acknowledged.
pub fn agreed_op(state: &VrState) -> u64
    requires { length state.now.acked ≡ state.now.controllers }
    ensures { result ≡ agreed state.now }
{
    let len = state.log.len() as u64;
    if is_agreed(state, len) {
        return len.max(state.commit);
    }
    let mut best = state.commit;
    for op in state.acked.as_slice() {
        if best < *op && *op < len && is_agreed(state, *op) {
            best = *op;
        }
    }
    best
}

/// How many other members have acknowledged at least this op.
#[tactic(auto, using(crate::proofs::Agreed::count_more))]
fn count_acks(state: &VrState, op: u64) -> usize
    requires { length state.now.acked ≡ state.now.controllers }
    ensures { result ≡ acks state.now op }
{
    let acked = state.acked.as_slice();
    let mut count = 0;
    for member in 0..state.controllers {
        if member != state.me && op <= acked[usize::from(member)] {
            count += 1;
        }
    }
    count
}

/// Whether a majority agrees on the log up to this op.
fn is_agreed(state: &VrState, op: u64) -> bool
    requires { length state.now.acked ≡ state.now.controllers }
    ensures { result ≡ is_agreed state.now op }
{
    count_acks(state, op) >= state.most_failures()
}
