//! What the type of a number says of it, for those who prove something of a number behind a reference.
ghost use Rattle.std.specs.Prelude.{◌<◌, ◌^◌};

/// A number of one byte.
pub fn u8_fits(n: u8)
    ensures { n < 2 ^ 8 }
{}

/// A number of two bytes.
pub fn u16_fits(n: u16)
    ensures { n < 2 ^ 16 }
{}

/// A number of four bytes.
pub fn u32_fits(n: u32)
    ensures { n < 2 ^ 32 }
{}

/// A number of eight bytes.
pub fn u64_fits(n: u64)
    ensures { n < 2 ^ 64 }
{}
