//! Files that are read whole.

use crate::difference::Difference;
use of_types::Octets;
use std::fs;
use std::rt::Files;

/// The bytes of a file.
pub fn read_bytes<R: Files + AllocGlobal>(rt: &R, path: &str) -> Result<Octets, Difference> {
    match fs::read(rt, path) {
        Ok(bytes) => Ok(Octets::from_vec(bytes)),
        Err(error) => Err(Difference::of_file(rt.alloc(), path, &error)),
    }
}

/// The text of a file.
pub fn read_text<R: Files + AllocGlobal>(rt: &R, path: &str) -> Result<String, Difference> {
    match fs::read_to_string(rt, path) {
        Ok(text) => Ok(text),
        Err(error) => Err(Difference::of_file(rt.alloc(), path, &error)),
    }
}
