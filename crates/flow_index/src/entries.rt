//! Rows that are looked for among others.
ghost use Rattle.std.specs.Prelude.{◌≡◌, ◌-◌, find, option_copied};
ghost use Rattle.std.specs.List.Sorted.{IsStrictlySortedBy};
ghost use Rattle.std.specs.Map.{keys_of};
ghost use Rattle.std.specs.Option.{option_map};
ghost use Rattle.of_types.specs.Matching.{matches as is_match};
ghost use Rattle.flow_table.specs.Table.{row_of, same_key};
ghost use Rattle.flow_index.specs.Places.{exact_destination};
ghost use Rattle.flow_index.specs.Entries.{by_place, entries_of, entries_ranked, exact_match, open_entries, preferred};

use crate::place::{Place, exact_destination};
use flow_table::has_key;
use of_types::{Fields, FlowMod, ONES48, Row, matches};
use std::collections::BTreeMap;

/// The first row of a destination that a frame with these fields matches.
pub fn first_match<'a>(
    rows: &'a BTreeMap<Place, Row>,
    destination: Option<u64>,
    fields: &Fields,
) -> Option<(&'a Place, &'a Row)>
    ensures { option_map (λ e. (e.0.now, e.1.now)) result ≡ find (λ e. is_match e.1.matching fields.now) (entries_of destination rows.now.entries) }
{
    let first = Place {
        destination,
        rank: 0,
        number: 0,
    };
    let last = Place {
        destination,
        rank: u16::MAX,
        number: u64::MAX,
    };
    for (place, row) in rows.range(first..=last) {
        if matches(&row.matching, fields) {
            return Some((place, row));
        }
    }
    None
}

/// The first row of the frame's own destination that a frame with these fields matches.
pub fn first_exact<'a>(
    rows: &'a BTreeMap<Place, Row>,
    fields: &Fields,
) -> Option<(&'a Place, &'a Row)>
    ensures { option_map (λ e. (e.0.now, e.1.now)) result ≡ exact_match fields.now.eth_dst fields.now rows.now.entries }
{
    match fields.eth_dst {
        Some(destination) => first_match(rows, Some(destination & ONES48), fields),
        None => None,
    }
}

/// The first row of no destination that a frame with these fields matches. Such rows stand before all others.
pub fn first_open<'a>(
    rows: &'a BTreeMap<Place, Row>,
    fields: &Fields,
) -> Option<(&'a Place, &'a Row)>
    ensures first { option_map (λ e. (e.0.now, e.1.now)) result ≡ find (λ e. is_match e.1.matching fields.now) (open_entries rows.now.entries) }
    ensures ordered { IsStrictlySortedBy by_place (keys_of rows.now.entries) }
{
    for (place, row) in rows {
        if place.destination.is_some() {
            return None;
        }
        if matches(&row.matching, fields) {
            return Some((place, row));
        }
    }
    None
}

/// The row with a change's match and priority, and its place, if there is one.
pub fn with_key<'a>(
    rows: &'a BTreeMap<Place, Row>,
    change: &FlowMod,
) -> Option<(&'a Place, &'a Row)>
    ensures { option_map (λ e. (e.0.now, e.1.now)) result
        ≡ find (λ e. same_key e.1 (row_of change.now)) (entries_ranked (exact_destination change.now.matching) (65535 - change.now.priority) rows.now.entries) }
{
    let destination = exact_destination(&change.matching);
    let rank = u16::MAX - change.priority;
    let first = Place {
        destination,
        rank,
        number: 0,
    };
    let last = Place {
        destination,
        rank,
        number: u64::MAX,
    };
    for (place, row) in rows.range(first..=last) {
        if has_key(row, change) {
            return Some((place, row));
        }
    }
    None
}

/// The better of the first rows of two destinations: the one of higher priority, and of these the one that
/// was added first.
pub fn preferred<'a>(
    exact: Option<(&'a Place, &'a Row)>,
    other: Option<(&'a Place, &'a Row)>,
) -> Option<&'a Row>
    ensures { option_copied result ≡ preferred (option_map (λ e. (e.0.now, e.1.now)) exact.entry) (option_map (λ e. (e.0.now, e.1.now)) other.entry) }
{
    match (exact, other) {
        (Some((place, row)), Some((open, other))) => {
            if open.rank < place.rank || open.rank == place.rank && open.number < place.number {
                Some(other)
            } else {
                Some(row)
            }
        }
        (Some((_, row)), None) => Some(row),
        (None, Some((_, row))) => Some(row),
        (None, None) => None,
    }
}
