//! The bytes of a capture.
ghost use Rattle.std.specs.Prelude.{◌≡◌, ◌++◌, IfOk, OnOk};
ghost use Rattle.capture_laws.specs.Interfaces as interfaces;

use crate::blocks::{write_interface, write_packet, write_section};
use crate::frames::frame_of;
use crate::interfaces::{interface_of, ports_of, write_interfaces};
use capture_laws::{Captured, Port};
use of_types::Octets;
use std::alloc::{AllocError, Global};

/// The bytes of a capture.
pub fn pcapng(alloc: Global, packets: &[Captured<'_>]) -> Result<Octets, AllocError>
    ensures { IfOk result (λ bytes. bytes ≡ interfaces.pcapng_of packets.now) }
{
    let ports = ports_of(alloc, packets)?;
    capture_of(alloc, ports.as_slice(), packets)
}

#[tactic(auto, unfolding(capture_laws::specs::Interfaces::capture_of))]
fn capture_of(alloc: Global, ports: &[Port], packets: &[Captured<'_>]) -> Result<Octets, AllocError>
    ensures { IfOk result (λ bytes. bytes ≡ interfaces.capture_of ports.now packets.now) }
{
    let mut out = Octets::new(alloc);
    write_head(&mut out, alloc)?;
    write_interfaces(&mut out, alloc, ports)?;
    write_packets(&mut out, alloc, ports, packets)?;
    Ok(out)
}

#[tactic(auto, unfolding(capture_laws::specs::Interfaces::head))]
fn write_head(out: &mut Octets, alloc: Global) -> Result<(), AllocError>
    ensures { OnOk result (out.new ≡ out.old ++ interfaces.head) }
{
    write_section(out, alloc)?;
    write_interface(out, alloc, b"control")?;
    write_interface(out, alloc, b"controllers")?;
    Ok(())
}

fn write_packets(
    out: &mut Octets,
    alloc: Global,
    ports: &[Port],
    packets: &[Captured<'_>],
) -> Result<(), AllocError>
    ensures { OnOk result (out.new ≡ out.old ++ interfaces.packets_of ports.now packets.now) }
{
    'packets: for packet in packets {
        write_captured(out, alloc, ports, packet)?;
    }
    Ok(())
}

#[tactic(auto, unfolding(capture_laws::specs::Interfaces::packet))]
fn write_captured(
    out: &mut Octets,
    alloc: Global,
    ports: &[Port],
    packet: &Captured<'_>,
) -> Result<(), AllocError>
    ensures { OnOk result (out.new ≡ out.old ++ interfaces.packet ports.now packet.now) }
{
    let frame = frame_of(alloc, packet.way, packet.payload.as_slice())?;
    let interface = interface_of(ports, packet.way);
    write_packet(
        out,
        alloc,
        interface,
        packet.time,
        packet.comment.as_slice(),
        frame.as_slice(),
    )
}
