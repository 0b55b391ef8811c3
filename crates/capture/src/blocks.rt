//! Blocks of pcapng, each number with its highest byte first.
ghost use Rattle.std.specs.Prelude.{◌≡◌, ◌<◌, ◌^◌, ◌++◌, length, IfOk, OnOk};
ghost use Rattle.of_bytes.specs.Numbers.{four as spelled_four};
ghost use Rattle.capture_laws.specs.Blocks as blocks;

use of_bytes::{Front, eight, four, long_length, two};
use of_types::Octets;
use std::alloc::{AllocError, Global};

/// The kind of the block that begins a section.
const SECTION: u32 = 0x0A0D_0D0A;

/// The kind of the block of an interface.
const INTERFACE: u32 = 1;

/// The kind of the block of a packet.
const PACKET: u32 = 6;

/// What tells a reader that the highest byte stands first.
const BYTE_ORDER: u32 = 0x1A2B_3C4D;

/// The version of the form, before the point.
const MAJOR: u16 = 1;

/// The version of the form, behind the point.
const MINOR: u16 = 0;

/// The length of a section that isn't told.
const UNTOLD: u64 = u64::MAX;

/// The option of a comment.
const COMMENT: u16 = 1;

/// The option that names the program which wrote a section.
const WRITTEN_BY: u16 = 4;

/// The option that names an interface.
const NAME: u16 = 2;

/// The option that tells the clock of an interface.
const CLOCK: u16 = 9;

/// What ends options.
const NO_MORE: u32 = 0;

/// What an interface sees.
const ETHERNET: u16 = 1;

/// That an interface sees all bytes of a packet.
const NO_LIMIT: u32 = 0;

/// That a clock counts thousandths of a second.
const THOUSANDTHS: u8 = 3;

/// The most bytes of an option.
const MOST_OPTION: usize = 65_535;

/// The most bytes of a packet that are shown.
const MOST_SHOWN: usize = 262_144;

/// The bytes of a block around its body.
const AROUND: usize = 12;

/// The bytes of a block before its body.
const BLOCK_FRONT: usize = 8;

/// The bytes of a section before its options.
const SECTION_FRONT: usize = 16;

/// The bytes of an interface before its options.
const INTERFACE_FRONT: usize = 8;

/// The bytes that stand before those of a packet.
const PACKET_FRONT: usize = 20;

/// Writes the head of a section.
#[tactic(auto, unfolding(capture_laws::specs::Blocks::section_block))]
pub fn write_section(out: &mut Octets, alloc: Global) -> Result<(), AllocError>
    ensures { OnOk result (out.new ≡ out.old ++ blocks.section_block) }
{
    let body = section_body(alloc)?;
    write_block(out, SECTION, body.as_slice())
}

/// Writes an interface of a name.
#[tactic(auto, unfolding(capture_laws::specs::Blocks::interface_block))]
pub fn write_interface(out: &mut Octets, alloc: Global, name: &[u8]) -> Result<(), AllocError>
    ensures { OnOk result (out.new ≡ out.old ++ blocks.interface_block name.now) }
{
    let body = interface_body(alloc, name)?;
    write_block(out, INTERFACE, body.as_slice())
}

/// Writes a packet of an interface.
#[tactic(auto, unfolding(capture_laws::specs::Blocks::packet_block))]
pub fn write_packet(
    out: &mut Octets,
    alloc: Global,
    interface: usize,
    time: u64,
    comment: &[u8],
    bytes: &[u8],
) -> Result<(), AllocError>
    ensures { OnOk result (out.new ≡ out.old ++ blocks.packet_block interface time comment.now bytes.now) }
{
    let body = packet_body(alloc, interface, time, comment, bytes)?;
    write_block(out, PACKET, body.as_slice())
}

fn section_body(alloc: Global) -> Result<Octets, AllocError>
    ensures { IfOk result (λ body. body ≡ blocks.section_body) }
{
    let mut front = Front::<SECTION_FRONT>::new();
    front.put(four(BYTE_ORDER));
    front.put(two(MAJOR));
    front.put(two(MINOR));
    front.put(eight(UNTOLD));
    let mut body = Octets::from_slice(alloc, front.as_slice())?;
    write_option(&mut body, WRITTEN_BY, b"run_pcap")?;
    body.append(&four(NO_MORE))?;
    Ok(body)
}

fn interface_body(alloc: Global, name: &[u8]) -> Result<Octets, AllocError>
    ensures { IfOk result (λ body. body ≡ blocks.interface_body name.now) }
{
    let mut front = Front::<INTERFACE_FRONT>::new();
    front.put(two(ETHERNET));
    front.put(two(0));
    front.put(four(NO_LIMIT));
    let mut body = Octets::from_slice(alloc, front.as_slice())?;
    write_option(&mut body, NAME, name)?;
    write_option(&mut body, CLOCK, &[THOUSANDTHS])?;
    body.append(&four(NO_MORE))?;
    Ok(body)
}

fn packet_body(
    alloc: Global,
    interface: usize,
    time: u64,
    comment: &[u8],
    bytes: &[u8],
) -> Result<Octets, AllocError>
    ensures { IfOk result (λ body. body ≡ blocks.packet_body interface time comment.now bytes.now) }
{
    let shown = &bytes[..bytes.len().min(MOST_SHOWN)];
    let mut front = Front::<PACKET_FRONT>::new();
    front.put(length_of(interface));
    front.put(length_of((time / 4_294_967_296) as usize));
    front.put(length_of(time as usize));
    front.put(length_of(shown.len()));
    front.put(length_of(bytes.len()));
    let mut body = Octets::from_slice(alloc, front.as_slice())?;
    write_padded(&mut body, shown)?;
    write_comment(&mut body, comment)?;
    Ok(body)
}

#[tactic(auto, unfolding(capture_laws::specs::Blocks::comment_option))]
fn write_comment(out: &mut Octets, comment: &[u8]) -> Result<(), AllocError>
    ensures { OnOk result (out.new ≡ out.old ++ blocks.comment_option comment.now) }
{
    if !comment.is_empty() {
        write_option(out, COMMENT, comment)?;
        out.append(&four(NO_MORE))?;
    }
    Ok(())
}

#[tactic(auto, unfolding(capture_laws::specs::Blocks::block))]
fn write_block(out: &mut Octets, kind: u32, body: &[u8]) -> Result<(), AllocError>
    requires { length body.now < 2 ^ 63 }
    ensures { OnOk result (out.new ≡ out.old ++ blocks.block kind body.now) }
{
    let len = length_of(AROUND + body.len());
    let mut front = Front::<BLOCK_FRONT>::new();
    front.put(four(kind));
    front.put(len);
    out.append(front.as_slice())?;
    out.append(body)?;
    out.append(&len)
}

/// Writes an option, cut where it is too long.
fn write_option(out: &mut Octets, code: u16, bytes: &[u8]) -> Result<(), AllocError>
    ensures { OnOk result (out.new ≡ out.old ++ blocks.option code bytes.now) }
{
    write_short(out, code, &bytes[..bytes.len().min(MOST_OPTION)])
}

#[tactic(auto, unfolding(capture_laws::specs::Blocks::option_of))]
fn write_short(out: &mut Octets, code: u16, bytes: &[u8]) -> Result<(), AllocError>
    ensures { OnOk result (out.new ≡ out.old ++ blocks.option_of code bytes.now) }
{
    out.append(&two(code))?;
    out.append(&long_length(bytes.len()))?;
    write_padded(out, bytes)?;
    Ok(())
}

#[tactic(auto, unfolding(capture_laws::specs::Blocks::padded_block))]
fn write_padded(out: &mut Octets, bytes: &[u8]) -> Result<(), AllocError>
    ensures { OnOk result (out.new ≡ out.old ++ blocks.padded_block bytes.now) }
{
    out.append(bytes)?;
    write_padding(out, bytes.len())?;
    Ok(())
}

/// Adds zeros up to a multiple of four.
#[tactic(auto, unfolding(capture_laws::specs::Blocks::block_padding, of_bytes::specs::Numbers::zeros))]
fn write_padding(out: &mut Octets, count: usize) -> Result<(), AllocError>
    ensures { OnOk result (out.new ≡ out.old ++ blocks.block_padding count) }
{
    out.append(&[0; 4][..(4 - count % 4) % 4])
}

/// The lowest four bytes of a number.
#[tactic(auto, unfolding(of_bytes::specs::Numbers::four))]
fn length_of(len: usize) -> [u8; 4]
    ensures { result ≡ spelled_four len }
{
    [
        (len / 16_777_216 % 256) as u8,
        (len / 65_536 % 256) as u8,
        (len / 256 % 256) as u8,
        (len % 256) as u8,
    ]
}
