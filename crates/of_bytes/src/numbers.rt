//! Numbers as bytes, the highest byte first, and padding.
ghost use Rattle.std.specs.Prelude.{◌≡◌, ◌≤◌, ◌+◌, length};
ghost use Rattle.of_bytes.specs.Numbers.{number, one, two, four, six, eight, zeros};

use byteorder::{BigEndian, ByteOrder};

/// The byte at a place.
pub fn u8_at(bytes: &[u8], place: usize) -> u8
    requires { place + 1 ≤ length bytes.now }
    ensures { result ≡ number 1 place bytes.now }
{
    bytes[place]
}

/// The number in two bytes from a place.
pub fn u16_at(bytes: &[u8], place: usize) -> u16
    requires { place + 2 ≤ length bytes.now }
    ensures { result ≡ number 2 place bytes.now }
{
    BigEndian::read_u16(&bytes[place..])
}

/// The number in four bytes from a place.
pub fn u32_at(bytes: &[u8], place: usize) -> u32
    requires { place + 4 ≤ length bytes.now }
    ensures { result ≡ number 4 place bytes.now }
{
    BigEndian::read_u32(&bytes[place..])
}

/// The number in six bytes from a place.
pub fn u48_at(bytes: &[u8], place: usize) -> u64
    requires { place + 6 ≤ length bytes.now }
    ensures { result ≡ number 6 place bytes.now }
{
    BigEndian::read_u48(&bytes[place..])
}

/// The number in eight bytes from a place.
pub fn u64_at(bytes: &[u8], place: usize) -> u64
    requires { place + 8 ≤ length bytes.now }
    ensures { result ≡ number 8 place bytes.now }
{
    BigEndian::read_u64(&bytes[place..])
}

/// A number of one byte.
#[tactic(auto, unfolding(crate::specs::Numbers::one))]
pub fn one(n: u8) -> [u8; 1]
    ensures { result ≡ one n }
{
    [n]
}

/// A number of two bytes.
#[tactic(auto, unfolding(crate::specs::Numbers::two))]
pub fn two(n: u16) -> [u8; 2]
    ensures { result ≡ two n }
{
    let mut bytes = [0; 2];
    BigEndian::write_u16(&mut bytes, n);
    bytes
}

/// A number of four bytes.
#[tactic(auto, unfolding(crate::specs::Numbers::four))]
pub fn four(n: u32) -> [u8; 4]
    ensures { result ≡ four n }
{
    let mut bytes = [0; 4];
    BigEndian::write_u32(&mut bytes, n);
    bytes
}

/// The lowest six bytes of a number.
#[tactic(auto, unfolding(crate::specs::Numbers::six))]
pub fn six(n: u64) -> [u8; 6]
    ensures { result ≡ six n }
{
    let [_, _, a, b, c, d, e, f] = n.to_be_bytes();
    [a, b, c, d, e, f]
}

/// A number of eight bytes.
#[tactic(auto, unfolding(crate::specs::Numbers::eight))]
pub fn eight(n: u64) -> [u8; 8]
    ensures { result ≡ eight n }
{
    let mut bytes = [0; 8];
    BigEndian::write_u64(&mut bytes, n);
    bytes
}

/// The lowest byte of a length.
#[tactic(auto, unfolding(crate::specs::Numbers::one))]
pub fn short_length(len: usize) -> [u8; 1]
    ensures { result ≡ one len }
{
    [(len % 256) as u8]
}

/// The lowest two bytes of a length.
#[tactic(auto, unfolding(crate::specs::Numbers::two))]
pub fn long_length(len: usize) -> [u8; 2]
    ensures { result ≡ two len }
{
    ((len % 65_536) as u16).to_be_bytes()
}

/// Padding.
#[tactic(auto, unfolding(crate::specs::Numbers::zeros))]
pub fn zeros<const N: usize>() -> [u8; N]
    ensures { result ≡ zeros N }
{
    [0; N]
}
