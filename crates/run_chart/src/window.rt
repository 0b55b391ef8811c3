//! Which entries are asked for.
ghost use Rattle.std.specs.Prelude.{◌≡◌, map, string_bytes};
ghost use Rattle.run_chart.specs.Words as said;

use chart::Window;
use numerals::numeral_within;

/// The entries that the words behind the program's name ask for: without words the first 400, and with two numerals
/// those from the first to the second, counted from 1. `None` exactly where the words are any others.
pub fn window_of(words: &[String]) -> Option<Window>
    ensures { result ≡ said.window_of (map string_bytes words.now) }
{
    match words {
        [] => Some(Window {
            first: 1,
            last: 400,
        }),
        [first, last] => {
            let first = numeral_within(first.as_bytes(), u64::MAX)?;
            let last = numeral_within(last.as_bytes(), u64::MAX)?;
            if 1 <= first && first <= last {
                Some(Window { first, last })
            } else {
                None
            }
        }
        _ => None,
    }
}
