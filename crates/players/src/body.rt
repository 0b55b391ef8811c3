//! How bodies stand for messages.
ghost use Rattle.std.specs.Prelude.{◌≡◌, ◌<◌, ◌++◌, [], ◌∷◌, length, slice_get, IfOk, IfSome, OnOk, OnErr};
ghost use Rattle.run_spec.specs.declared.messages.Message.TheVariants as message;
ghost use Rattle.run_spec.specs.States.{Sealing, IsFaithful};

use journal::{Actor, Mailbag, Weight};
use of_types::{Octets, Spoken};
use run_spec::{Message, Unsealed, Way};
use std::alloc::{AllocError, Global};
use vr_log::VrMessage;

/// A body of a packet.
pub trait Body: Weight {
    /// How such bodies stand for messages.
    ghost sealing: { Sealing Self };

    /// Adds a letter of what a controller and a switch say to each other. An `Err` changes nothing.
    fn seal_spoken(
        bag: &mut Mailbag<Self>,
        to: Actor,
        xid: u32,
        said: &Spoken,
    ) -> Result<(), AllocError>
        ensures ok { OnOk result (bag.new ≡ bag.old ++ record { to = to; body = sealing.sealed (message.Of xid said.now) } ∷ []) }
        ensures err { OnErr result (bag.new ≡ bag.old) };

    /// Adds a letter of what two controllers say to each other. An `Err` changes nothing.
    fn seal_vr(bag: &mut Mailbag<Self>, to: Actor, said: &VrMessage) -> Result<(), AllocError>
        ensures ok { OnOk result (bag.new ≡ bag.old ++ record { to = to; body = sealing.sealed (message.Vr said.now) } ∷ []) }
        ensures err { OnErr result (bag.new ≡ bag.old) };

    /// Adds a letter with a frame for a link. An `Err` changes nothing.
    fn seal_frame(
        bag: &mut Mailbag<Self>,
        to: Actor,
        port: u32,
        frame: &Octets,
    ) -> Result<(), AllocError>
        ensures ok { OnOk result (bag.new ≡ bag.old ++ record { to = to; body = sealing.sealed (message.Frame port frame.now) } ∷ []) }
        ensures err { OnErr result (bag.new ≡ bag.old) };

    /// What a letter says on a way.
    fn unseal(
        alloc: Global,
        bag: &Mailbag<Self>,
        index: usize,
        way: Way,
    ) -> Result<Unsealed, AllocError>
        requires { index < length bag.now }
        ensures { IfSome (slice_get bag.now index) (λ letter. IfOk result (λ unsealed. unsealed ≡ sealing.spelled way letter.body)) };

    /// A valid message whose numbers fit their fields is read again as it was sealed.
    ghost faithful: { IsFaithful sealing };

    /// The size of a body is the one that its weight tells.
    ghost weighed: { Self.Weight.size ≡ sealing.size };
}

/// Adds a letter with a message. An `Err` changes nothing.
pub fn seal<B: Body>(bag: &mut Mailbag<B>, to: Actor, message: &Message) -> Result<(), AllocError>
    ensures ok { OnOk result (bag.new ≡ bag.old ++ record { to = to; body = B.sealing.sealed message.now } ∷ []) }
    ensures err { OnErr result (bag.new ≡ bag.old) }
{
    match message {
        Message::Of { xid, message } => B::seal_spoken(bag, to, *xid, message),
        Message::Vr(message) => B::seal_vr(bag, to, message),
        Message::Frame { port, bytes } => B::seal_frame(bag, to, *port, bytes),
    }
}
