//! What a caller shows of its parts before it makes a chain of them.
ghost use Rattle.std.specs.Prelude.{◌≡◌, ◌≤◌, ◌↔◌, IsTrue, map};
ghost use Rattle.app_core.specs.Chain.{given_by};

use app_core::Part;

/// Whether parts have these kinds, in order.
pub fn has_kinds<P: Part>(parts: &[P], kinds: &[u8]) -> bool
    ensures { IsTrue result ↔ (map P.kind_of parts.now ≡ kinds.now) }
{
    let Some((part, others)) = parts.split_first() else {
        return kinds.is_empty();
    };
    let Some((kind, rest)) = kinds.split_first() else {
        return false;
    };
    part.kind() == *kind && has_kinds(others, rest)
}

/// Whether parts give at most so many commands for an event, all together.
pub fn is_within<P: Part>(parts: &[P], most: u32) -> bool
    ensures { IsTrue result ↔ (given_by (map P.kind_of parts.now) ≤ most) }
{
    let Some((part, others)) = parts.split_first() else {
        return true;
    };
    let own = part.most();
    own <= most && is_within(others, most - own)
}
