//! Parts in a line, one for each of the last versions of a slot, of which the first is active. An upgrade drops those before the
//! version that is asked for.
#![tactic(auto)]

ghost use Rattle.std.specs.Prelude.{◌≡◌};
ghost use Rattle.version_line.specs.Line as line;

/// How many versions a slot has.
pub const VERSIONS: usize = 5;

/// Which version is active, where these parts are left.
pub fn active_of<T>(parts: &[T]) -> usize
    ensures { result ≡ line.active_of parts.now }
{
    VERSIONS.saturating_sub(parts.len())
}

/// Drops the parts before the version that is asked for, where that is one and above the active one.
pub fn upgrade<T: Drop>(parts: &mut Vec<T>, asked: u8)
    ensures { parts.new.items ≡ line.left_after asked parts.old.items }
{
    let asked = usize::from(asked);
    let active = active_of(parts);
    if active < asked && asked < VERSIONS {
        parts.drain(..asked - active);
    }
}
