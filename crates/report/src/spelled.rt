//! The words of a line as they are read. Each stands behind a space, and ends before the next space or the end of
//! the line.
ghost use Rattle.std.specs.Prelude.{◌≡◌, ◌≤◌, ◌<◌, ◌*◌, ℕ, Bool, not, List, length, position, Some, true, IfOk, IfSome};
ghost use Rattle.std.specs.List.{list_all, list_any};
ghost use Rattle.report.specs.Spelled as spelled;
ghost use Rattle.report.specs.Spelled.{◌>>=◌ as then_read, GivesText, PassesText, is_text_digit};

use crate::fault::Misfit;
use journal::Actor;
use numerals::numeral_within;
use of_types::Octets;
use std::alloc::Global;

/// What comes behind a text.
#[tactic(auto, unfolding(crate::specs::Spelled::after_at))]
pub fn after<'a>(text: &[u8], bytes: &'a [u8]) -> Result<&'a [u8], Misfit>
    ensures { GivesText (λ x. x.now) result (spelled.after_at text.now bytes.now) }
{
    if bytes.starts_with(text) {
        Ok(&bytes[text.len()..])
    } else {
        Err(Misfit::Text)
    }
}

/// What comes behind the end of a line.
#[tactic(auto, unfolding(crate::specs::Spelled::end_at))]
pub fn end_of_line(bytes: &[u8]) -> Result<&[u8], Misfit>
    ensures { GivesText (λ x. x.now) result (spelled.end_at bytes.now) }
{
    after(b"\n", bytes)
}

/// What a line told, and what comes behind its end.
pub fn ended<T: Drop>(told: T, bytes: &[u8]) -> Result<(T, &[u8]), Misfit>
    ensures { GivesText {Y = T × List ℕ} (λ x. (x.0, x.1.now)) result (then_read (spelled.end_at bytes.now) (λ rest. Some (told, rest))) }
{
    let rest = end_of_line(bytes)?;
    Ok((told, rest))
}

/// What comes behind a word that is known.
#[tactic(auto, unfolding(crate::specs::Spelled::known_at))]
pub fn known<'a>(name: &[u8], bytes: &'a [u8]) -> Result<&'a [u8], Misfit>
    ensures { GivesText (λ x. x.now) result (spelled.known_at name.now bytes.now) }
{
    let rest = after(b" ", bytes)?;
    after(name, rest)
}

/// A kind of bytes, the first of which ends the front of a text.
trait Ending {
    ghost ends: { ℕ → Bool };

    /// Whether a byte is of the kind.
    fn is_end(byte: u8) -> bool
        ensures { result ≡ ends byte };
}

/// What ends a word: a space, or the end of the line.
struct WordEnd;

impl Ending for WordEnd {
    ghost ends = { spelled.ends_word };

    fn is_end(byte: u8) -> bool {
        byte == b' ' || byte == b'\n'
    }
}

/// What ends digits of base sixteen: any other byte.
struct OtherByte;

impl Ending for OtherByte {
    ghost ends = { λ byte. not (is_text_digit byte) };

    fn is_end(byte: u8) -> bool {
        !is_digit(byte)
    }
}

/// Where the first byte of a kind stands, if there is one.
fn end_place<E: Ending>(text: &[u8]) -> Option<usize>
    ensures exact { result ≡ position E.ends text.now }
    ensures within { IfSome result (λ n. n ≤ length text.now) }
{
    text.iter().position(|byte| E::is_end(*byte))
}

/// So many bytes of a long front are tested at a time.
const BLOCK: usize = 16;

/// Whether one of these bytes is of a kind. Each is tested, whatever those before it were: a loop with no way out becomes vectors.
fn has_end<E: Ending>(block: &[u8; BLOCK]) -> bool
    ensures { result ≡ list_any E.ends block.now }
{
    let mut found = false;
    for byte in block {
        found |= E::is_end(*byte);
    }
    found
}

/// How many bytes stand before the first of a kind. Blocks with none are passed over first, which serves a long front; that of a
/// short one `end_place` finds sooner.
fn long_front<E: Ending>(text: &[u8]) -> usize
    ensures value { result ≡ spelled.length_before E.ends text.now }
    ensures within { result ≤ length text.now }
{
    let mut len = 0;
    let mut rest = text;
    'passing: while let Some((block, behind)) = rest.split_first_chunk::<BLOCK>() {
        if has_end::<E>(block) {
            break;
        }
        len += BLOCK;
        rest = behind;
    }
    len + end_place::<E>(rest).unwrap_or(rest.len())
}

/// A word, and what comes behind it.
#[tactic(auto, unfolding(crate::specs::Spelled::word_at))]
pub fn word(bytes: &[u8]) -> Result<(&[u8], &[u8]), Misfit>
    ensures { GivesText (λ x. (x.0.now, x.1.now)) result (spelled.word_at bytes.now) }
{
    let text = after(b" ", bytes)?;
    Ok(text.split_at(end_place::<WordEnd>(text).unwrap_or(text.len())))
}

/// The same, for a word that may be long.
#[tactic(auto, unfolding(crate::specs::Spelled::word_at))]
fn long_word(bytes: &[u8]) -> Result<(&[u8], &[u8]), Misfit>
    ensures { GivesText (λ x. (x.0.now, x.1.now)) result (spelled.word_at bytes.now) }
{
    let text = after(b" ", bytes)?;
    Ok(text.split_at(long_front::<WordEnd>(text)))
}

/// A number up to a greatest one.
#[tactic(auto, unfolding(crate::specs::Spelled::number_in_text))]
pub fn number(most: u64, bytes: &[u8]) -> Result<(u64, &[u8]), Misfit>
    ensures exact { GivesText (λ x. (x.0, x.1.now)) result (spelled.number_in_text most bytes.now) }
    ensures small { IfOk result (λ x. x.0 ≤ most) }
{
    let (text, rest) = word(bytes)?;
    let Some(number) = numeral_within(text, most) else {
        return Err(Misfit::Text);
    };
    Ok((number, rest))
}

/// A number of one byte.
pub fn number8(bytes: &[u8]) -> Result<(u8, &[u8]), Misfit>
    ensures { GivesText (λ x. (x.0, x.1.now)) result (spelled.number8_at bytes.now) }
{
    let (number, rest) = number(u64::from(u8::MAX), bytes)?;
    Ok((number as u8, rest))
}

/// A number of two bytes.
pub fn number16(bytes: &[u8]) -> Result<(u16, &[u8]), Misfit>
    ensures { GivesText (λ x. (x.0, x.1.now)) result (spelled.number16_at bytes.now) }
{
    let (number, rest) = number(u64::from(u16::MAX), bytes)?;
    Ok((number as u16, rest))
}

/// A number of four bytes.
pub fn number32(bytes: &[u8]) -> Result<(u32, &[u8]), Misfit>
    ensures { GivesText (λ x. (x.0, x.1.now)) result (spelled.number32_at bytes.now) }
{
    let (number, rest) = number(u64::from(u32::MAX), bytes)?;
    Ok((number as u32, rest))
}

/// A number of eight bytes.
pub fn number64(bytes: &[u8]) -> Result<(u64, &[u8]), Misfit>
    ensures { GivesText (λ x. (x.0, x.1.now)) result (spelled.number64_at bytes.now) }
{
    number(u64::MAX, bytes)
}

/// A number behind its name.
#[tactic(auto, unfolding(crate::specs::Spelled::labelled_at))]
pub fn labelled<'a>(name: &[u8], bytes: &'a [u8]) -> Result<(u64, &'a [u8]), Misfit>
    ensures { GivesText (λ x. (x.0, x.1.now)) result (spelled.labelled_at name.now bytes.now) }
{
    let rest = known(name, bytes)?;
    number64(rest)
}

fn actor_of(text: &[u8]) -> Option<Actor>
    ensures { result ≡ spelled.actor_spelled text.now }
{
    let [letter, digits @ ..] = text else {
        return None;
    };
    let number = numeral_within(digits, u64::from(u8::MAX))?;
    match *letter {
        b'c' => Some(Actor::Controller(number as u8)),
        b's' => Some(Actor::Switch(number as u8)),
        _ => None,
    }
}

/// A controller or a switch.
#[tactic(auto, unfolding(crate::specs::Spelled::actor_in_text))]
pub fn actor(bytes: &[u8]) -> Result<(Actor, &[u8]), Misfit>
    ensures { GivesText (λ x. (x.0, x.1.now)) result (spelled.actor_in_text bytes.now) }
{
    let (text, rest) = word(bytes)?;
    let Some(actor) = actor_of(text) else {
        return Err(Misfit::Text);
    };
    Ok((actor, rest))
}

/// A controller.
#[tactic(auto, unfolding(crate::specs::Spelled::controller_in_text))]
pub fn controller(bytes: &[u8]) -> Result<(u8, &[u8]), Misfit>
    ensures { GivesText (λ x. (x.0, x.1.now)) result (spelled.controller_in_text bytes.now) }
{
    let (actor, rest) = actor(bytes)?;
    let Actor::Controller(number) = actor else {
        return Err(Misfit::Text);
    };
    Ok((number, rest))
}

/// A controller, or a dash for none.
#[tactic(auto, unfolding(crate::specs::Spelled::dash_or))]
pub fn master(bytes: &[u8]) -> Result<(Option<u8>, &[u8]), Misfit>
    ensures { GivesText (λ x. (x.0, x.1.now)) result (spelled.dash_or spelled.controller_in_text bytes.now) }
{
    if bytes.starts_with(b" -") {
        return Ok((None, &bytes[2..]));
    }
    let (number, rest) = controller(bytes)?;
    Ok((Some(number), rest))
}

/// A number of two bytes, or a dash for none.
#[tactic(auto, unfolding(crate::specs::Spelled::dash_or))]
pub fn number16_or_dash(bytes: &[u8]) -> Result<(Option<u16>, &[u8]), Misfit>
    ensures { GivesText (λ x. (x.0, x.1.now)) result (spelled.dash_or spelled.number16_at bytes.now) }
{
    if bytes.starts_with(b" -") {
        return Ok((None, &bytes[2..]));
    }
    let (number, rest) = number16(bytes)?;
    Ok((Some(number), rest))
}

/// A number of eight bytes, or a dash for none.
#[tactic(auto, unfolding(crate::specs::Spelled::dash_or))]
pub fn number64_or_dash(bytes: &[u8]) -> Result<(Option<u64>, &[u8]), Misfit>
    ensures { GivesText (λ x. (x.0, x.1.now)) result (spelled.dash_or spelled.number64_at bytes.now) }
{
    if bytes.starts_with(b" -") {
        return Ok((None, &bytes[2..]));
    }
    let (number, rest) = number64(bytes)?;
    Ok((Some(number), rest))
}

fn flag_of(text: &[u8]) -> Option<bool>
    ensures { result ≡ spelled.flag_of text.now }
{
    match text {
        [b'1'] => Some(true),
        [b'0'] => Some(false),
        _ => None,
    }
}

/// 1 or 0, for what is so and what is not.
#[tactic(auto, unfolding(crate::specs::Spelled::flag_in_text))]
pub fn flag(bytes: &[u8]) -> Result<(bool, &[u8]), Misfit>
    ensures { GivesText (λ x. (x.0, x.1.now)) result (spelled.flag_in_text bytes.now) }
{
    let (text, rest) = word(bytes)?;
    let Some(flag) = flag_of(text) else {
        return Err(Misfit::Text);
    };
    Ok((flag, rest))
}

fn is_dot(byte: u8) -> bool
    ensures { result ≡ spelled.is_dot byte }
{
    byte == b'.'
}

/// Where the first dot stands, if there is one.
fn dot_place(text: &[u8]) -> Option<usize>
    ensures exact { result ≡ position spelled.is_dot text.now }
    ensures within { IfSome result (λ n. n ≤ length text.now) }
{
    text.iter().position(|byte| is_dot(*byte))
}

/// A number of one byte before a dot, and what comes behind the dot.
#[tactic(auto, unfolding(crate::specs::Spelled::dotted_at))]
fn dotted(text: &[u8]) -> Result<(u8, &[u8]), Misfit>
    ensures { GivesText (λ x. (x.0, x.1.now)) result (spelled.dotted_at text.now) }
{
    let (digits, rest) = text.split_at(dot_place(text).unwrap_or(text.len()));
    let Some(number) = numeral_within(digits, u64::from(u8::MAX)) else {
        return Err(Misfit::Text);
    };
    let rest = after(b".", rest)?;
    Ok((number as u8, rest))
}

#[tactic(auto, unfolding(crate::specs::Spelled::address_of))]
fn address_of(text: &[u8]) -> Result<u32, Misfit>
    ensures { GivesText (λ x. x) result (spelled.address_of text.now) }
{
    let (a, rest) = dotted(text)?;
    let (b, rest) = dotted(rest)?;
    let (c, rest) = dotted(rest)?;
    let Some(d) = numeral_within(rest, u64::from(u8::MAX)) else {
        return Err(Misfit::Text);
    };
    Ok(16_777_216 * u32::from(a) + 65_536 * u32::from(b) + 256 * u32::from(c) + d as u32)
}

/// An IPv4 address as its four bytes.
#[tactic(auto, unfolding(crate::specs::Spelled::address_at))]
pub fn address(bytes: &[u8]) -> Result<(u32, &[u8]), Misfit>
    ensures { GivesText (λ x. (x.0, x.1.now)) result (spelled.address_at bytes.now) }
{
    let (text, rest) = word(bytes)?;
    let address = address_of(text)?;
    Ok((address, rest))
}

/// Whether a byte is a digit of base sixteen, in lower case.
fn is_digit(digit: u8) -> bool
    ensures { result ≡ is_text_digit digit }
{
    digit.is_ascii_digit() || matches!(digit, b'a'..=b'f')
}

/// The number of such a digit.
fn value_of(digit: u8) -> u8
    requires { is_text_digit digit ≡ true }
    ensures value { spelled.digit_of digit ≡ Some result }
    ensures small { result < 16 }
{
    if digit < b'a' {
        digit - b'0'
    } else {
        digit - b'a' + 10
    }
}

/// Whether each byte is such a digit. Each is tested, as in `has_end`.
fn are_digits(digits: &[u8]) -> bool
    ensures { result ≡ list_all is_text_digit digits.now }
{
    let mut all = true;
    for digit in digits {
        all &= is_digit(*digit);
    }
    all
}

/// Reads two digits into each byte of a room.
fn read_pairs(room: &mut [u8], digits: &[u8])
    requires digits { list_all is_text_digit digits.now ≡ true }
    requires pairs { length digits.now ≡ 2 * length room.old }
    ensures { spelled.digits_of digits.now ≡ Some room.new }
{
    let mut rest = digits;
    for byte in room.iter_mut() {
        let (pair, behind) = rest.split_at(2);
        *byte = 16 * value_of(pair[0]) + value_of(pair[1]);
        rest = behind;
    }
}

fn digits_of(alloc: Global, digits: &[u8]) -> Result<Octets, Misfit>
    ensures { GivesText (λ x. x) result (spelled.digits_of digits.now) }
{
    if digits.len() % 2 == 1 || !are_digits(digits) {
        return Err(Misfit::Text);
    }
    let mut bytes = vec![in alloc; 0; digits.len() / 2]?;
    read_pairs(&mut bytes, digits);
    Ok(Octets::from_vec(bytes))
}

/// The bytes of a text in base sixteen.
#[tactic(auto, unfolding(crate::specs::Spelled::hex_bytes))]
fn hex_bytes(alloc: Global, text: &[u8]) -> Result<Octets, Misfit>
    ensures { GivesText (λ x. x) result (spelled.hex_bytes text.now) }
{
    match text {
        [] => Err(Misfit::Text),
        [b'-'] => Ok(Octets::new(alloc)),
        [b'-', ..] => Err(Misfit::Text),
        digits => digits_of(alloc, digits),
    }
}

/// Bytes as digits of base sixteen in lower case, or a dash for none.
#[tactic(auto, unfolding(crate::specs::Spelled::hex_at))]
pub fn hex(alloc: Global, bytes: &[u8]) -> Result<(Octets, &[u8]), Misfit>
    ensures { GivesText (λ x. (x.0, x.1.now)) result (spelled.hex_at bytes.now) }
{
    let (text, rest) = long_word(bytes)?;
    let bytes = hex_bytes(alloc, text)?;
    Ok((bytes, rest))
}

/// What comes behind a line whose last word is digits of base sixteen, or a dash for none. It is one walk over them, and no byte
/// is kept.
pub fn pass_hex(bytes: &[u8]) -> Result<&[u8], Misfit>
    ensures { PassesText result (spelled.last_hex_at bytes.now) }
{
    let text = after(b" ", bytes)?;
    let len = long_front::<OtherByte>(text);
    if len == 0 {
        let rest = after(b"-", text)?;
        end_of_line(rest)
    } else if len % 2 == 1 {
        Err(Misfit::Text)
    } else {
        let (_, rest) = text.split_at(len);
        end_of_line(rest)
    }
}
