//! A body that is bytes.
ghost use Rattle.std.specs.Prelude.{◌≡◌, refl, ◌++◌, length, IfOk, OnOk};
ghost use Rattle.of_bytes.specs.Numbers.{four};
ghost use Rattle.run_spec.specs.Bodies.{byte_bodies};
ghost use Rattle.run_spec.proofs.Bodies.{bytes_again};

use crate::body::Body;
use crate::reading::{read_frame, read_spoken, read_vr};
use journal::{Actor, Mailbag};
use of_bytes::four;
use of_ravana::put_spoken;
use of_types::{Octets, Spoken};
use run_spec::{Unsealed, Way};
use std::alloc::{AllocError, Global};
use vr_codec::write_vr;
use vr_log::VrMessage;

/// A body as the bytes that a network would carry: a message of OpenFlow 1.3 between a controller and a switch, one of the
/// replicated log between two controllers, and on a link the number of the receiving port, highest byte first, before the
/// frame. What is proved of runs is said of bodies that their actors sealed, and of no other one that somebody puts on a wire.
pub type Bytes = Octets;

/// Adds a frame on a link, behind the port that receives it.
fn put_frame(out: &mut Octets, port: u32, frame: &[u8]) -> Result<(), AllocError>
    ensures { OnOk result (out.new ≡ out.old ++ four port ++ frame.now) }
{
    out.append(&four(port))?;
    out.append(frame)
}

impl Body for Octets {
    ghost sealing = { byte_bodies };

    ghost faithful = { bytes_again };

    ghost weighed = { refl };

    fn seal_spoken(
        bag: &mut Mailbag<Octets>,
        to: Actor,
        xid: u32,
        said: &Spoken,
    ) -> Result<(), AllocError> {
        bag.write(to, |out| put_spoken(out, xid, said))
    }

    fn seal_vr(bag: &mut Mailbag<Octets>, to: Actor, said: &VrMessage) -> Result<(), AllocError> {
        bag.write(to, |out| write_vr(out, said))
    }

    fn seal_frame(
        bag: &mut Mailbag<Octets>,
        to: Actor,
        port: u32,
        frame: &Octets,
    ) -> Result<(), AllocError> {
        bag.write(to, |out| put_frame(out, port, frame.as_slice()))
    }

    fn unseal(
        alloc: Global,
        bag: &Mailbag<Octets>,
        index: usize,
        way: Way,
    ) -> Result<Unsealed, AllocError> {
        let bytes = bag.bytes(index);
        match way {
            Way::Of => read_spoken(alloc, bytes),
            Way::Vr => read_vr(alloc, bytes),
            Way::Link => read_frame(alloc, bytes),
        }
    }
}
