//! Where a row stands among others.
ghost use Rattle.std.specs.Prelude.{◌≡◌, ◌<◌, ◌^◌};
ghost use Rattle.flow_index.specs.Places.{exact_destination, place_of};

use of_types::{Match, ONES48, Row};

/// Where a row stands: the rows of one exact destination stand together, those of higher priority first,
/// and of these the one that was added first.
#[derive(Clone, Copy, PartialEq, Eq, PartialOrd, Ord, Debug)]
pub struct Place {
    /// The destination that the row asks for whole, if it does.
    pub destination: Option<u64>,
    /// How far the row's priority is below the highest one.
    pub rank: u16,
    /// The row's number in the order of adding.
    pub number: u64,
}

/// The destination that a match asks for whole, if it does.
pub fn exact_destination(matching: &Match) -> Option<u64>
    ensures { result ≡ exact_destination matching.now }
{
    match matching.eth_dst {
        Some(address) if address.mask == ONES48 => Some(address.value & ONES48),
        _ => None,
    }
}

/// The place of a row with this number.
pub fn place_of(row: &Row, number: u64) -> Place
    ensures exact { result ≡ place_of row.now number }
    ensures fits { row.now.priority < 2 ^ 16 }
{
    Place {
        destination: exact_destination(&row.matching),
        rank: u16::MAX - row.priority,
        number,
    }
}
