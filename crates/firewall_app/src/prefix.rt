//! Prefixes of addresses.
ghost use Rattle.std.specs.Prelude.{◌≡◌};
ghost use Rattle.app_core.specs.Firewall.{prefix_mask, is_prefix_within, matched_prefix};

use of_types::{Masked32, Prefix};

/// Whether an address lies in a prefix. One that a frame does not have lies in the prefix of no bits alone.
pub fn is_within(prefix: &Prefix, address: Option<u32>) -> bool
    ensures { result ≡ is_prefix_within prefix.now address }
{
    match address {
        None => prefix.length == 0,
        Some(address) => {
            let mask = prefix_mask(prefix.length);
            address & mask == prefix.address & mask
        }
    }
}

/// A prefix as a match has it.
pub fn matched_prefix(prefix: &Prefix) -> Option<Masked32>
    ensures { result ≡ matched_prefix prefix.now }
{
    if prefix.length == 0 {
        return None;
    }
    let mask = prefix_mask(prefix.length);
    Some(Masked32 {
        value: prefix.address & mask,
        mask,
    })
}

/// So many ones in front.
fn prefix_mask(bits: u8) -> u32
    ensures { result ≡ prefix_mask bits }
{
    let free = 32u8.saturating_sub(bits);
    ((1u64 << 32) - (1u64 << free)) as u32
}
