//! Up to where entries are committed.
ghost use Rattle.std.specs.Prelude.{◌≡◌, nat_eq, if◌then◌else◌};
ghost use Rattle.vr_log.specs.Members.{most_failures};

use vr_log::VrState;

/// The commit number once a primary has accepted its own entry of this op. In a group of one the entry is
/// committed at once. In a greater group it waits for others.
pub fn own_commit(state: &VrState, op: u64) -> u64
    ensures { result ≡ (if nat_eq (most_failures state.now) 0 then op else state.now.commit) }
{
    if state.most_failures() == 0 {
        op
    } else {
        state.commit
    }
}
