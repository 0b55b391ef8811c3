//! The interfaces of a capture.
ghost use Rattle.std.specs.Prelude.{◌≡◌, ◌≤◌, ◌++◌, length, IfOk, OnOk};
ghost use Rattle.capture_laws.specs.Interfaces.{interface_of as number_of, interfaces, interface_place_of as place_in, port_name as name_of, ports_of_packets as ports_in, same_port, with_packet_port};

use crate::blocks::write_interface;
use capture_laws::{Captured, Port, Way};
use journal::Actor;
use of_types::{Items, Octets};
use report::write_digits;
use std::alloc::{AllocError, Global};

/// The ports of packets, in the order of their first ones.
pub fn ports_of(alloc: Global, packets: &[Captured<'_>]) -> Result<Items<Port>, AllocError>
    ensures { IfOk result (λ ports. ports ≡ ports_in packets.now) }
{
    let mut ports = Items::new(alloc);
    'packets: for packet in packets {
        add_port(&mut ports, packet.way)?;
    }
    Ok(ports)
}

/// The number of the interface where a packet is seen.
pub fn interface_of(ports: &[Port], way: Way) -> usize
    ensures { result ≡ number_of ports.now way }
{
    match way {
        Way::Frame(port) => 2 + place_of(port, ports),
        Way::Segment {
            from: Actor::Controller(_),
            to: Actor::Controller(_),
            ..
        } => 1,
        Way::Segment { .. } => 0,
    }
}

/// Writes the interfaces of ports.
pub fn write_interfaces(out: &mut Octets, alloc: Global, ports: &[Port]) -> Result<(), AllocError>
    ensures { OnOk result (out.new ≡ out.old ++ interfaces ports.now) }
{
    'ports: for port in ports {
        let name = port_name(alloc, *port)?;
        write_interface(out, alloc, name.as_slice())?;
    }
    Ok(())
}

/// Adds the port of a packet, if it is new.
fn add_port(ports: &mut Items<Port>, way: Way) -> Result<(), AllocError>
    ensures { OnOk result (ports.new ≡ with_packet_port way ports.old) }
{
    match way {
        Way::Frame(port) => {
            if place_of(port, ports.as_slice()) == ports.len() {
                ports.push(port)?;
            }
            Ok(())
        }
        Way::Segment { .. } => Ok(()),
    }
}

/// The place of a port among others: their number, where it is none of them.
fn place_of(port: Port, ports: &[Port]) -> usize
    ensures exact { result ≡ place_in port ports.now }
    ensures most { result ≤ length ports.now }
{
    'ports: for (place, other) in ports.iter().enumerate() {
        if is_same(port, *other) {
            return place;
        }
    }
    ports.len()
}

fn is_same(port: Port, other: Port) -> bool
    ensures { result ≡ same_port port other }
{
    port.switch == other.switch && port.port == other.port
}

#[tactic(auto, unfolding(capture_laws::specs::Interfaces::port_name))]
fn port_name(alloc: Global, port: Port) -> Result<Octets, AllocError>
    ensures { IfOk result (λ name. name ≡ name_of port) }
{
    let mut name = Octets::from_slice(alloc, b"s")?;
    write_digits(&mut name, port.switch)?;
    name.append(b"-p")?;
    write_digits(&mut name, port.port)?;
    Ok(name)
}
