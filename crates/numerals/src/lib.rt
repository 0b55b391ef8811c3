//! Decimal numerals without leading zeros, as words of a command line, names of actors and lines of a report have them.
#![tactic(auto)]

ghost use Rattle.std.specs.Prelude.{◌≡◌, ◌≤◌, ◌<◌, ◌^◌, ℕ, List, Some, IfSome, min, option_map, if◌then◌else◌};
ghost use Rattle.std.specs.Fmt.{decimal};
ghost use Rattle.numerals.specs.Numerals.{numeral, numeral_within, is_numeral, are_digits, number_behind};

/// The number that a numeral spells, or `most` where it is greater: `None` exactly where the text is no
/// numeral.
///
/// A numeral is one digit or more, all of them ASCII, and none but `0` itself begins with a zero.
pub fn numeral(text: &[u8], most: u64) -> Option<u64>
    requires { most ≤ 2 ^ 60 }
    ensures { result ≡ option_map (λ n. min n most) (numeral text.now) }
{
    let number = bounded(text, u128::from(most))?;
    Some(number as u64)
}

/// The number that a numeral spells: `None` exactly where the text is no numeral, or its number is greater
/// than `most`.
#[tactic(auto, unfolding(crate::specs::Numerals::numeral_within))]
pub fn numeral_within(text: &[u8], most: u64) -> Option<u64>
    ensures exact { result ≡ numeral_within most text.now }
    ensures small { IfSome result (λ n. n ≤ most) }
{
    let number = bounded(text, u128::from(most) + 1)?;
    if number <= u128::from(most) {
        Some(number as u64)
    } else {
        None
    }
}

/// Whether a text is a numeral.
pub fn is_numeral(text: &[u8]) -> bool
    ensures { result ≡ is_numeral text.now }
{
    match text {
        [] | [b'0', _, ..] => false,
        _ => digits(text, 0).is_some(),
    }
}

#[tactic(auto, unfolding(crate::specs::Numerals::numeral))]
fn bounded(text: &[u8], most: u128) -> Option<u128>
    requires { most ≤ 2 ^ 64 }
    ensures { result ≡ option_map (λ n. min n most) (numeral text.now) }
{
    match text {
        [] | [b'0', _, ..] => None,
        _ => digits(text, most),
    }
}

/// The number that digits spell, or `most` where it is greater.
fn digits(text: &[u8], most: u128) -> Option<u128>
    requires { most ≤ 2 ^ 64 }
    ensures { result ≡ (if are_digits text.now then Some (min (number_behind 0 text.now) most) else None) }
{
    let mut number = 0;
    for digit in text {
        if !digit.is_ascii_digit() {
            return None;
        }
        number = (10 * number + u128::from(digit - b'0')).min(most);
    }
    Some(number)
}

/// Numerals are what is written of numbers.
pub fn numeral_law()
    // What is written of a number is a numeral that spells it.
    ensures again { (n : ℕ) → n < 2 ^ 64 → numeral (decimal n) ≡ Some n }
    // A number has one numeral.
    ensures one { (text : List ℕ) (n : ℕ) → numeral text ≡ Some n → n < 2 ^ 64 → text ≡ decimal n }
{}
