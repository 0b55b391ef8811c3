//! The words of a line, each behind a space.
ghost use Rattle.std.specs.Prelude.{◌≡◌, ◌<◌, ◌∷◌, ◌++◌, OnOk};
ghost use Rattle.std.specs.Fmt.{decimal};
ghost use Rattle.report.specs.Report.{hex, word, newline, actor_word, flag, number_or_dash, master_word, address_word, labelled};

use crate::sheet::{Growing, Sheet};
use itoa::{Buffer, Integer};
use journal::Actor;
use of_types::Octets;
use std::alloc::{AllocError, Global};

/// Writes the digits of a number.
pub fn write_digits<G: Growing, N: Integer>(out: &mut G, n: N) -> Result<(), AllocError>
    ensures { OnOk result (G.bytes out.new ≡ G.bytes out.old ++ N.text n) }
{
    out.put(Buffer::new().format(n).as_bytes())
}

/// Writes a space and a word.
#[tactic(auto, unfolding(crate::specs::Report::word))]
pub fn write_word<G: Growing>(out: &mut G, text: &[u8]) -> Result<(), AllocError>
    ensures { OnOk result (G.bytes out.new ≡ G.bytes out.old ++ word text.now) }
{
    out.put(b" ")?;
    out.put(text)
}

/// Writes a space and the digits of a number.
#[tactic(auto, unfolding(crate::specs::Report::word))]
pub fn write_number<G: Growing, N: Integer>(out: &mut G, n: N) -> Result<(), AllocError>
    ensures { OnOk result (G.bytes out.new ≡ G.bytes out.old ++ word (N.text n)) }
{
    out.put(b" ")?;
    write_digits(out, n)
}

/// Writes a name and a number, each behind a space.
#[tactic(auto, unfolding(crate::specs::Report::labelled))]
pub fn write_labelled<G: Growing, N: Integer>(
    out: &mut G,
    name: &[u8],
    n: N,
) -> Result<(), AllocError>
    ensures { OnOk result (G.bytes out.new ≡ G.bytes out.old ++ labelled name.now (N.text n)) }
{
    write_word(out, name)?;
    write_number(out, n)
}

/// Writes the end of a line.
pub fn write_newline<G: Growing>(out: &mut G) -> Result<(), AllocError>
    ensures { OnOk result (G.bytes out.new ≡ G.bytes out.old ++ newline) }
{
    out.put(b"\n")
}

/// Writes a space and the name of an actor: `c` or `s`, and its number.
#[tactic(auto, unfolding(crate::specs::Report::word, crate::specs::Report::actor_word))]
pub fn write_actor<G: Growing>(out: &mut G, actor: Actor) -> Result<(), AllocError>
    ensures { OnOk result (G.bytes out.new ≡ G.bytes out.old ++ word (actor_word actor)) }
{
    match actor {
        Actor::Controller(c) => write_named(out, b'c', c),
        Actor::Switch(s) => write_named(out, b's', s),
    }
}

/// Writes a space, a letter and the digits of a number.
fn write_named<G: Growing>(out: &mut G, letter: u8, n: u8) -> Result<(), AllocError>
    ensures { OnOk result (G.bytes out.new ≡ G.bytes out.old ++ 32 ∷ letter ∷ decimal n) }
{
    out.put(&[b' ', letter])?;
    write_digits(out, n)
}

/// Writes bytes as digits of base sixteen in lower case, or a dash for none.
#[tactic(auto, unfolding(crate::specs::Report::word, crate::specs::Report::hex))]
pub fn write_hex(out: &mut Sheet, bytes: &[u8]) -> Result<(), AllocError>
    ensures { OnOk result (out.new ≡ out.old ++ word (hex bytes.now)) }
{
    if bytes.is_empty() {
        return write_word(out, b"-");
    }
    out.append(b" ")?;
    out.append_hex(bytes)
}

/// Writes the same of a list of bytes. A long one is kept, and another is left in its place.
#[tactic(auto, unfolding(crate::specs::Report::word, crate::specs::Report::hex))]
pub fn write_hex_of(alloc: Global, out: &mut Sheet, bytes: &mut Octets) -> Result<(), AllocError>
    ensures { OnOk result (out.new ≡ out.old ++ word (hex bytes.old)) }
{
    if bytes.is_empty() {
        return write_word(out, b"-");
    }
    out.append(b" ")?;
    out.append_hex_of(alloc, bytes)
}
