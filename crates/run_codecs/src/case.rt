//! A line of a file: bytes of a kind, and the answer that is wanted. Its forms are `KIND HEX`, a tab and the answer, and
//! `cuts of KIND HEX`, a tab and the answer that each proper prefix of the bytes is to get. For no bytes stands `-`.
ghost use Rattle.std.specs.Prelude.{◌≤◌};

use crate::answer::{Kind, answer};
use hex::FromHexError;
use std::alloc::{AllocError, Global};

/// Whether a line is a remark, or empty.
pub fn is_remark(line: &str) -> bool {
    line.is_empty() || line.starts_with('#')
}

/// How an answer differs from the one that is wanted.
fn unlike(
    alloc: Global,
    kind: Kind,
    bytes: &[u8],
    wanted: &str,
) -> Result<Option<String>, AllocError> {
    let came = answer(alloc, kind, bytes)?;
    if came.as_str() == wanted {
        return Ok(None);
    }
    Ok(Some(format!(in alloc; "came {came}, wanted {wanted}")?))
}

/// How the first answer to a proper prefix differs.
fn unlike_cut(
    alloc: Global,
    kind: Kind,
    bytes: &[u8],
    wanted: &str,
) -> Result<Option<String>, AllocError> {
    for length in 0..bytes.len() {
        if let Some(text) = unlike(alloc, kind, &bytes[..length], wanted)? {
            return Ok(Some(format!(in alloc; "cut at {length}: {text}")?));
        }
    }
    Ok(None)
}

/// The kind of the bytes, and their digits.
fn subject(words: &str) -> Option<(Kind, &str)> {
    let (kind, digits) = words.split_once(' ')?;
    Some((Kind::named(kind)?, digits))
}

fn bytes_of(alloc: Global, digits: &str) -> Result<Vec<u8>, FromHexError> {
    match digits {
        "-" => Ok(Vec::new(alloc)),
        digits => hex::decode(alloc, digits),
    }
}

/// A line that is not of the form differs too.
fn no_case(alloc: Global) -> Result<Option<String>, AllocError> {
    Ok(Some(String::from_str(alloc, "is no case")?))
}

/// How what the codecs answer differs from what a line wants.
pub fn difference(alloc: Global, line: &str) -> Result<Option<String>, AllocError> {
    let Some((words, wanted)) = line.split_once('\t') else {
        return no_case(alloc);
    };
    let cut = words.strip_prefix("cuts of ");
    let Some((kind, digits)) = subject(cut.unwrap_or(words)) else {
        return no_case(alloc);
    };
    let Ok(bytes) = bytes_of(alloc, digits) else {
        return no_case(alloc);
    };
    match cut {
        Some(_) => unlike_cut(alloc, kind, bytes.as_slice(), wanted),
        None => unlike(alloc, kind, bytes.as_slice(), wanted),
    }
}
