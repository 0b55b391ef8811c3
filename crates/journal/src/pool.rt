//! Sizes of letters, and which letters find room among the packets that wait.
ghost use Rattle.std.specs.Prelude.{◌≡◌, ◌≤◌, ◌+◌, ◌-◌, ◌^◌, length, take, min};
ghost use Rattle.journal.specs.Pool.{letter_bytes};
ghost use Rattle.journal.specs.Orderly.{fitting_count};

use crate::journal::Weight;
use crate::outgoing::Coming;
use crate::wire::{POOL_BYTES, POOL_PACKETS};

/// How many letters, and how many bytes their bodies have.
#[derive(Clone, Copy)]
pub struct Sums {
    pub letters: u64,
    pub bytes: u64,
}

/// The bytes of the letters' bodies, stopped at the greatest number.
pub fn letters_size<B: Weight>(letters: &Coming<'_, B>) -> u64
    ensures { result ≡ min (2 ^ 64 - 1) (letter_bytes B.size letters.now) }
{
    let mut size = 0u64;
    for index in 0..letters.len() {
        size = size.saturating_add(letters.size(index));
    }
    size
}

/// How many letters, which have so many bytes, come before the first one with no room beside the packets that wait, and the sums
/// of what waits then.
pub fn count_fitting<B: Weight>(waiting: Sums, letters: &Coming<'_, B>, bytes: u64) -> (usize, Sums)
    requires { bytes ≡ letter_bytes B.size letters.now }
    ensures count { result.0 ≡ fitting_count B.size waiting.letters waiting.bytes letters.now }
    ensures within { result.0 ≤ length letters.now }
    ensures letters { result.1.letters ≡ waiting.letters + result.0 }
    ensures bytes { result.1.bytes ≡ waiting.bytes + letter_bytes B.size (take result.0 letters.now) }
{
    let count = letters.len();
    let sums = Sums {
        letters: waiting.letters.saturating_add(count as u64),
        bytes: waiting.bytes.saturating_add(bytes),
    };
    if sums.letters <= POOL_PACKETS as u64 && sums.bytes <= POOL_BYTES {
        return (count, sums);
    }
    count_first(waiting, letters)
}

/// The same, letter by letter.
fn count_first<B: Weight>(waiting: Sums, letters: &Coming<'_, B>) -> (usize, Sums)
    ensures count { result.0 ≡ fitting_count B.size waiting.letters waiting.bytes letters.now }
    ensures within { result.0 ≤ length letters.now }
    ensures letters { result.1.letters ≡ waiting.letters + result.0 }
    ensures bytes { result.1.bytes ≡ waiting.bytes + letter_bytes B.size (take result.0 letters.now) }
{
    let mut sums = waiting;
    for count in 0..letters.len() {
        let size = letters.size(count);
        if sums.letters >= POOL_PACKETS as u64 || sums.bytes.saturating_add(size) > POOL_BYTES {
            return (count, sums);
        }
        sums.letters += 1;
        sums.bytes += size;
    }
    (letters.len(), sums)
}
