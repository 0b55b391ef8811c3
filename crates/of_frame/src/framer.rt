//! Cuts a stream into messages.

ghost use Rattle.std.specs.Prelude.{◌≡◌, ◌++◌, ◌≤◌, [], ℕ, suc, List, Ok, Err, Some, length, IfOk, IfSome, OnOk, OnErr, ⊤};
ghost use Rattle.std.specs.Borrow.{sem, follows_so};
ghost use mathlib.Core.Option.{none};
ghost use Rattle.of_frame.specs.declared.fault.FrameFault.{FrameFault};
ghost use Rattle.of_frame.specs.contracts.framer.Framer.{the_row};
ghost use Rattle.of_frame.specs.Framing.{Deed, lent_by, IsOfJoined, length_at, next_of, rest_of, IsAnswer};

use crate::fault::FrameFault;
use of_bytes::u16_at;
use std::alloc::{AllocError, Global};
use std::marker::Model;

const VERSION: u8 = 4;

/// Cuts a stream of bytes into messages of OpenFlow 1.3. Contracts see it as the bytes that were fed
/// and not yet lent.
#[derive(Drop)]
pub struct Framer {
    /// The bytes that were fed, and of which some may have been lent.
    bytes: Vec<u8>,
    /// How many of the first bytes were lent with the last message.
    lent: usize,
}

impl Model for Framer {
    ghost use Rattle.std.specs.Prelude.{List, ℕ, ◌≤◌, length, drop};

    ghost Value = { List ℕ };

    ghost view = { λ f. drop f.lent f.bytes.items };

    ghost invariant = { λ f. f.lent ≤ length f.bytes.items };
}

impl Framer {
    /// A framer that was fed nothing, which takes no memory.
    pub fn new(alloc: Global) -> Framer
        ensures { result ≡ [] }
    {
        Framer {
            bytes: Vec::new(alloc),
            lent: 0,
        }
    }

    /// Takes the next piece of the stream. An `Err` changes nothing.
    pub fn feed(&mut self, piece: &[u8]) -> Result<(), AllocError>
        ensures ok { OnOk result (self.new ≡ self.old ++ piece.now) }
        ensures err { OnErr result (self.new ≡ self.old) }
    {
        self.drop_lent();
        self.bytes.extend_from_slice(piece)
    }

    /// Gives the room of the lent bytes back.
    fn drop_lent(&mut self)
        ensures { self.new ≡ self.old }
    {
        let lent = self.lent;
        self.lent = 0;
        let _ = self.bytes.drain(..lent);
    }

    /// Lends the next whole message, which takes no memory. None where it is not all there yet. After a
    /// refusal every later call answers the same.
    pub fn next_frame(&mut self) -> Result<Option<&[u8]>, FrameFault>
        ensures* after { sem 𝓛 (follows_so the_row the_row self.entry.ghost_name none (λ _ _. ⊤) (λ left. left ≡ rest_of self.old)) }
        ensures answer { IsAnswer result (next_of self.old) }
    {
        let Some(len) = length_at(&self.bytes[self.lent..])? else {
            return Ok(None);
        };
        let start = self.lent;
        self.lent += len;
        Ok(Some(&self.bytes[start..start + len]))
    }
}

/// How long the message at the front is, where it is all there.
#[tactic(auto, unfolding(crate::specs::Framing::length_at))]
fn length_at(bytes: &[u8]) -> Result<Option<usize>, FrameFault>
    ensures length { result ≡ length_at bytes.now }
    ensures there { IfOk result (λ found. IfSome found (λ len. len ≤ length bytes.now)) }
{
    if bytes.len() < 8 {
        return Ok(None);
    }
    if bytes[0] != VERSION {
        return Err(FrameFault::BadVersion);
    }
    let len = usize::from(u16_at(bytes, 2));
    if len < 8 {
        return Err(FrameFault::BadLength);
    }
    Ok((bytes.len() >= len).then_some(len))
}

/// What a framer lends and holds does not depend on how a stream was cut into pieces.
pub fn any_cut()
    // After any feeds and calls for the next message the messages lent are the first ones of the
    // joined bytes, and what is held, which gives the next answer, is what comes behind them.
    ensures cuts { (deeds : List Deed) → IsOfJoined deeds [] (length (lent_by deeds [])) }
    // A refusal stays, whatever is fed.
    ensures refusing { (held piece : List ℕ) (fault : FrameFault) → next_of held ≡ Err fault → next_of (held ++ piece) ≡ Err fault }
    // A refusal leaves what is held.
    ensures staying { (held : List ℕ) (fault : FrameFault) → next_of held ≡ Err fault → rest_of held ≡ held }
{}
