//! Bytes that are read from a source, up to a limit.
ghost use Rattle.std.specs.Prelude.{◌≡◌, ◌≢◌, ◌<◌, ◌≤◌, ◌+◌, ◌++◌, ◌⊎◌, length, take, IfOk};
ghost use Rattle.std.specs.Io.KnownBytes.{Consumes, IsAtEnd};
ghost use Rattle.journal.specs.Causes.{Rose};
ghost use Rattle.streams.specs.declared.fault.StreamFault.TheVariants as faults;

use crate::fault::StreamFault;
use journal::Source;
use of_types::Octets;
use std::alloc::Global;

/// Reads a source to its end, or one byte past a limit.
pub fn read_input<S: Source>(
    alloc: Global,
    source: &mut S,
    limit: usize,
) -> Result<Octets, StreamFault>
    ensures later { S.faults source.old ≤ S.faults source.new }
    ensures cause { result ≡ Err faults.Failed → Rose (S.faults source.old) (S.faults source.new) }
    ensures served { result ≢ Err faults.Failed → S.faults source.new ≡ S.faults source.old }
    ensures consumed { IfOk result (λ bytes. Consumes (S.left source.old) (S.left source.new) bytes) }
    ensures whole { IfOk result (λ bytes. IsAtEnd (S.left source.new) ⊎ (length bytes ≡ limit + 1)) }
    ensures most { IfOk result (λ bytes. length bytes ≤ limit + 1) }
{
    let mut bytes = Octets::new(alloc);
    let mut piece = [0u8; 4096];
    'pieces: while bytes.len() <= limit {
        let room = (limit - bytes.len()).min(4095) + 1;
        let count = read_piece(source, &mut piece[..room], &mut bytes)?;
        if count == 0 {
            return Ok(bytes);
        }
    }
    Ok(bytes)
}

/// Reads a piece behind the bytes, and tells its length. 0 is the end.
fn read_piece<S: Source>(
    source: &mut S,
    into: &mut [u8],
    bytes: &mut Octets,
) -> Result<usize, StreamFault>
    requires { 0 < length into.old }
    ensures later { S.faults source.old ≤ S.faults source.new }
    ensures cause { result ≡ Err faults.Failed → Rose (S.faults source.old) (S.faults source.new) }
    ensures served { result ≢ Err faults.Failed → S.faults source.new ≡ S.faults source.old }
    ensures bound { IfOk result (λ count. count ≤ length into.old) }
    ensures grown { IfOk result (λ count. (bytes.new ≡ bytes.old ++ take count into.new) × (length bytes.new ≡ length bytes.old + count)) }
    ensures consumed { IfOk result (λ count. Consumes (S.left source.old) (S.left source.new) (take count into.new)) }
    ensures ended { IfOk result (λ count. count ≡ 0 → IsAtEnd (S.left source.new)) }
{
    let count = source.read(into)?;
    bytes.append(&into[..count])?;
    Ok(count)
}
