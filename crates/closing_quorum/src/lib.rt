//! Who closes: the view of a closing, and the members that suspect it.
#![tactic(auto)]

ghost use Rattle.std.specs.Prelude.{◌≡◌, ◌≤◌, ◌<◌, ◌+◌, ◌/◌, nat_eq, IfOk};
ghost use Rattle.std.specs.List.{list_any};
ghost use Rattle.run_spec.specs.Closing.{first_view, quorum_of};
ghost use Rattle.closing_quorum.specs.Looking.{most_view_to_look_from};

use std::alloc::{AllocError, Global};

/// Whether a number is one of these.
pub fn has(numbers: &[u8], number: u8) -> bool
    ensures { result ≡ list_any (λ m. nat_eq m number) numbers.now }
{
    numbers.iter().any(|one| *one == number)
}

/// The least view from here on whose primary takes part.
pub fn first_view(group: u8, up: &[u8], from: u32) -> u32
    requires group { 0 < group }
    requires room { from ≤ most_view_to_look_from }
    ensures first { result ≡ first_view group group up.now from }
    ensures near { result ≤ from + group }
{
    let mut view = from;
    'looking: for _ in 0..group {
        if has(up, (view % u32::from(group)) as u8) {
            return view;
        }
        view += 1;
    }
    view
}

/// The members of a group that close: the primary and, of the others that take part, those of the lowest numbers. They
/// are a majority of the group, and no more.
pub fn quorum_of(alloc: Global, group: u8, primary: u8, up: &[u8]) -> Result<Vec<u8>, AllocError>
    ensures { IfOk result (λ members. members.items ≡ quorum_of primary (group / 2) up.now) }
{
    let others = group / 2;
    let mut chosen = Vec::from_slice(alloc, up)?;
    chosen.retain(|other| *other != primary);
    chosen.truncate(others as usize);
    let mut members = Vec::from_slice(alloc, up)?;
    members.retain(|member| *member == primary || has(chosen.as_slice(), *member));
    Ok(members)
}
