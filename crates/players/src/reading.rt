//! What bytes say on each way.
ghost use Rattle.std.specs.Prelude.{◌≡◌, take, IfOk};
ghost use Rattle.of_messages.specs.Reading.{message_at, xid_of};
ghost use Rattle.of_ravana.specs.Reading.{extension_at};
ghost use Rattle.vr_codec.specs.Reading.{vr_at};
ghost use Rattle.run_spec.specs.Bodies.{extension_said, frame_said, spoken_said, vr_said};
ghost use Rattle.run_spec.specs.Messages.{nothing_said};
ghost use Rattle.run_spec.specs.declared.messages.Unsealed.TheVariants as unsealed;

use of_bytes::u32_at;
use of_messages::{OfFault, decode, experimenter_body, xid_of};
use of_ravana::decode_extension;
use of_types::{LONGEST_FRAME, Octets, SHORTEST_FRAME, Spoken};
use run_spec::{Message, Unsealed};
use std::alloc::{AllocError, Global};
use vr_codec::{VrFault, decode_vr};

/// How many bytes of a malformed message its ERROR has, at most (OpenFlow 1.3, 7.4.4: at least 64 bytes of it).
const HEAD: usize = 64;

/// How many bytes the number of a port has in front of a frame on a link.
const PORT: usize = 4;

/// What bytes say between a controller and a switch. They are one message, no more and no less.
pub fn read_spoken(alloc: Global, bytes: &[u8]) -> Result<Unsealed, AllocError>
    ensures { IfOk result (λ said. said ≡ spoken_said bytes.now (message_at bytes.now)) }
{
    // Most messages are of the extension. They are read where they stand, without a copy of the body.
    if let Some(body) = experimenter_body(bytes) {
        return read_extension(alloc, xid_of(bytes), bytes, body);
    }
    match decode(alloc, bytes) {
        Ok((xid, message)) => Ok(Unsealed::Message(Message::Of {
            xid,
            message: Spoken::Plain(message),
        })),
        Err(OfFault::Wire { kind, code, xid }) => malformed(alloc, kind, code, xid, bytes),
        Err(OfFault::OutOfMemory) => Err(AllocError),
    }
}

/// What bytes say between two controllers.
pub fn read_vr(alloc: Global, bytes: &[u8]) -> Result<Unsealed, AllocError>
    ensures { IfOk result (λ said. said ≡ vr_said (vr_at bytes.now)) }
{
    match decode_vr(alloc, bytes) {
        Ok(message) => Ok(Unsealed::Message(Message::Vr(message))),
        Err(VrFault::Refused(_)) => Ok(nothing_said(alloc)),
        Err(VrFault::OutOfMemory) => Err(AllocError),
    }
}

/// What bytes say between two switches: a port, and a frame of a length that a link carries.
pub fn read_frame(alloc: Global, bytes: &[u8]) -> Result<Unsealed, AllocError>
    ensures { IfOk result (λ said. said ≡ frame_said bytes.now) }
{
    if bytes.len() < PORT + SHORTEST_FRAME || bytes.len() > PORT + LONGEST_FRAME {
        return Ok(nothing_said(alloc));
    }
    let frame = Octets::from_slice(alloc, &bytes[PORT..])?;
    Ok(Unsealed::Message(Message::Frame {
        port: u32_at(bytes, 0),
        bytes: frame,
    }))
}

/// What bytes say that spell no message of OpenFlow: the type and the code of the error, the number of the request, and the
/// beginning of the bytes.
fn malformed(
    alloc: Global,
    kind: u16,
    code: u16,
    xid: u32,
    bytes: &[u8],
) -> Result<Unsealed, AllocError>
    ensures { IfOk result (λ said. said ≡ unsealed.Malformed kind code xid (take 64 bytes.now)) }
{
    let head = Octets::from_slice(alloc, &bytes[..bytes.len().min(HEAD)])?;
    Ok(Unsealed::Malformed {
        kind,
        code,
        xid,
        head,
    })
}

/// What bytes say that no error answers.
fn nothing_said(alloc: Global) -> Unsealed
    ensures { result ≡ nothing_said }
{
    Unsealed::Malformed {
        kind: 0,
        code: 0,
        xid: 0,
        head: Octets::new(alloc),
    }
}

/// What an EXPERIMENTER says with this body behind its header.
fn read_extension(
    alloc: Global,
    xid: u32,
    bytes: &[u8],
    body: &[u8],
) -> Result<Unsealed, AllocError>
    requires { xid ≡ xid_of bytes.now }
    ensures { IfOk result (λ said. said ≡ extension_said bytes.now (extension_at body.now)) }
{
    match decode_extension(alloc, body) {
        Ok(said) => Ok(Unsealed::Message(Message::Of {
            xid,
            message: Spoken::Ravana(said),
        })),
        Err(OfFault::Wire { kind, code, .. }) => malformed(alloc, kind, code, xid, bytes),
        Err(OfFault::OutOfMemory) => Err(AllocError),
    }
}
