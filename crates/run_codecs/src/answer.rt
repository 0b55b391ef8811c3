//! What the codecs answer to bytes, in words: what was read is told by the canonical bytes of a copy of it, so that what is
//! copied is compared too.

use of_match::{read_match, write_match};
use of_messages::{OfFault, decode};
use of_ravana::{canonical, decode_extension, encode_extension};
use of_types::{Extension, Match, Octets, OfMessage, Spoken};
use std::alloc::{AllocError, Global};
use vr_codec::{VrFault, decode_vr, encode_vr};
use vr_log::VrMessage;

/// What bytes are said to be.
#[derive(Clone, Copy)]
pub enum Kind {
    /// A whole message of OpenFlow. Of an EXPERIMENTER what it says is read too.
    Message,
    /// A message between controllers.
    Members,
    /// A match, and maybe more behind it.
    Match,
    /// What stands behind the header of an EXPERIMENTER.
    Extension,
}

impl Kind {
    /// The kind that a word names.
    pub fn named(word: &str) -> Option<Kind> {
        match word {
            "of" => Some(Kind::Message),
            "vr" => Some(Kind::Members),
            "match" => Some(Kind::Match),
            "extension" => Some(Kind::Extension),
            _ => None,
        }
    }
}

/// The word for want of memory, which no case wants.
fn no_memory(alloc: Global) -> Result<String, AllocError> {
    String::from_str(alloc, "out of memory")
}

fn told_octets(alloc: Global, octets: &Octets) -> Result<String, AllocError> {
    let digits = hex::encode(alloc, octets.as_slice())?;
    format!(in alloc; "ok {digits}")
}

fn told_behind(alloc: Global, number: u64, octets: &Octets) -> Result<String, AllocError> {
    let digits = hex::encode(alloc, octets.as_slice())?;
    format!(in alloc; "ok {number} {digits}")
}

/// What is read of a message, with the number of the request.
fn told_spoken(alloc: Global, xid: u32, said: &Spoken) -> Result<String, AllocError> {
    let copied = said.copy()?;
    let bytes = canonical(alloc, xid, &copied)?;
    told_behind(alloc, u64::from(xid), &bytes)
}

fn experimenter_answer(alloc: Global, xid: u32, body: &[u8]) -> Result<String, AllocError> {
    match decode_extension(alloc, body) {
        Ok(said) => told_spoken(alloc, xid, &Spoken::Ravana(said)),
        Err(OfFault::Wire { kind, code, .. }) => format!(in alloc; "fault {kind} {code} {xid}"),
        Err(OfFault::OutOfMemory) => no_memory(alloc),
    }
}

fn told_message(alloc: Global, xid: u32, message: OfMessage) -> Result<String, AllocError> {
    match message {
        OfMessage::Experimenter { body } => experimenter_answer(alloc, xid, body.as_slice()),
        message => told_spoken(alloc, xid, &Spoken::Plain(message)),
    }
}

fn message_answer(alloc: Global, bytes: &[u8]) -> Result<String, AllocError> {
    match decode(alloc, bytes) {
        Ok((xid, message)) => told_message(alloc, xid, message),
        Err(OfFault::Wire { kind, code, xid }) => format!(in alloc; "fault {kind} {code} {xid}"),
        Err(OfFault::OutOfMemory) => no_memory(alloc),
    }
}

fn told_member(alloc: Global, message: &VrMessage) -> Result<String, AllocError> {
    let copied = message.copy()?;
    let bytes = encode_vr(alloc, &copied)?;
    told_octets(alloc, &bytes)
}

fn members_answer(alloc: Global, bytes: &[u8]) -> Result<String, AllocError> {
    match decode_vr(alloc, bytes) {
        Ok(message) => told_member(alloc, &message),
        Err(VrFault::Refused(refusal)) => format!(in alloc; "fault {refusal:?}"),
        Err(VrFault::OutOfMemory) => no_memory(alloc),
    }
}

/// A match that so many bytes spell.
fn told_match(alloc: Global, matching: &Match, taken: usize) -> Result<String, AllocError> {
    let mut out = Octets::new(alloc);
    write_match(alloc, matching, &mut out)?;
    told_behind(alloc, taken as u64, &out)
}

fn match_answer(alloc: Global, bytes: &[u8]) -> Result<String, AllocError> {
    match read_match(bytes) {
        Ok((matching, taken)) => told_match(alloc, &matching, taken),
        Err(fault) => format!(in alloc; "fault {fault:?}"),
    }
}

fn told_extension(alloc: Global, said: &Extension) -> Result<String, AllocError> {
    let copied = said.copy()?;
    let bytes = encode_extension(alloc, &copied)?;
    told_octets(alloc, &bytes)
}

fn extension_answer(alloc: Global, bytes: &[u8]) -> Result<String, AllocError> {
    match decode_extension(alloc, bytes) {
        Ok(said) => told_extension(alloc, &said),
        Err(OfFault::Wire { kind, code, .. }) => format!(in alloc; "fault {kind} {code}"),
        Err(OfFault::OutOfMemory) => no_memory(alloc),
    }
}

/// What the codecs answer: `ok` with the canonical bytes of what was read, behind the number of a message's request or the
/// length of a match, or `fault` with its numbers or its name.
pub fn answer(alloc: Global, kind: Kind, bytes: &[u8]) -> Result<String, AllocError> {
    match kind {
        Kind::Message => message_answer(alloc, bytes),
        Kind::Members => members_answer(alloc, bytes),
        Kind::Match => match_answer(alloc, bytes),
        Kind::Extension => extension_answer(alloc, bytes),
    }
}
