//! Routing as a part.
ghost use Rattle.std.specs.Prelude.{◌≡◌, ◌≤◌, ◌<◌, ◌+◌, ◌++◌, false, [], ◌∷◌, length, OnOk, if◌then◌else◌};
ghost use Rattle.of_types.specs.declared.message.Happening.TheVariants as happening;
ghost use Rattle.of_types.specs.declared.setup.Setup.{Setup};
ghost use Rattle.app_core.specs.Chain.{flat_routing, most_given, part_next, routing};
ghost use Rattle.app_core.specs.Parts.{PartSteps};
ghost use Rattle.app_core.specs.Routes.{route};
ghost use Rattle.app_core.specs.Routing.{place_of_destination, installed, routed, forgetting_ends};
ghost use Rattle.route_app.specs.Places.{hosts_on};
ghost use Rattle.route_app.specs.Knowing.{source_over, routing_in, changed, restarted_routing, IsFit, Reacts};
ghost use Rattle.route_app.specs.UpLinks.{AreUp};
ghost use Rattle.route_app.specs.Wired.{IsWires, end_over};

use crate::commands::{flood, forget_ends, install};
use crate::places::{Places, forget_port, forget_switch, is_same, place_of, set_place};
use crate::up_links::{UpLinks, all_links, no_links, port_down, port_up, switch_up};
use crate::walk::route_over;
use crate::wires::{Wires, edge_over, end_over, no_wires, wires_of};
use app_core::{Part, SwitchPort, is_single};
use indexmap::IndexMap;
use of_types::{
    Commands, Event, Happening, Octets, PacketIn, PortStatus, Setup, eth_dst, eth_src, is_switch_up,
};
use std::alloc::{AllocError, Global};

/// Where addresses were seen, and which links are up.
#[derive(Drop)]
pub struct Known {
    pub places: Places,
    pub links: UpLinks,
}

/// Routing.
#[derive(Drop)]
pub struct Route {
    /// What is kept of the setup.
    wires: Wires,

    /// What changes with events.
    known: Known,
}

/// The source of a frame that came in by an edge port is seen there, where it is the address of one host.
fn learn_source(
    wires: &Wires,
    places: &mut Places,
    at: SwitchPort,
    source: Option<u64>,
) -> Result<(), AllocError>
    ensures { OnOk result (hosts_on places.new.entries ≡ source_over wires.now (hosts_on places.old.entries) at source) }
{
    match source {
        Some(address) if edge_over(wires, at) && is_single(address) => {
            set_place(places, address, at)
        }
        _ => Ok(()),
    }
}

/// Where the destination was seen.
fn place_of_destination(places: &Places, destination: Option<u64>) -> Option<SwitchPort>
    ensures { result ≡ place_of_destination (hosts_on places.now.entries) destination }
{
    match destination {
        Some(address) => place_of(places, address),
        None => None,
    }
}

/// A frame goes to a port: its route is installed, if there is one.
fn send_to(
    alloc: Global,
    wires: &Wires,
    links: &UpLinks,
    at: SwitchPort,
    frame: &Octets,
    target: SwitchPort,
    out: &mut Commands,
) -> Result<(), AllocError>
    ensures { (setup : Setup) → IsWires setup wires.now → AreUp setup links.now → at.switch < length setup.ports →
        OnOk result (out.new ≡ out.old ++ installed setup at frame.now target (route setup links.now.down.items at.switch target.switch)) }
{
    if target.switch >= wires.switches {
        return Ok(());
    }
    let found = route_over(alloc, links.table.as_slice(), at.switch, target.switch)?;
    if let Some(walk) = found {
        install(alloc, wires, at, frame, target, walk.as_slice(), out)?;
    }
    Ok(())
}

/// What is sent for a frame whose destination was seen there.
fn answer(
    alloc: Global,
    wires: &Wires,
    links: &UpLinks,
    at: SwitchPort,
    frame: &Octets,
    seen: Option<SwitchPort>,
    out: &mut Commands,
) -> Result<(), AllocError>
    ensures { (setup : Setup) → IsWires setup wires.now → AreUp setup links.now → at.switch < length setup.ports →
        OnOk result (out.new ≡ out.old ++ routed setup links.now.down.items at frame.now seen) }
{
    match seen {
        None => flood(alloc, wires, links.down.as_slice(), at, frame, out),
        Some(target) if is_same(target, at) => Ok(()),
        Some(target) => send_to(alloc, wires, links, at, frame, target, out),
    }
}

/// A packet-in: its source is learned, and then its destination is looked up.
fn on_packet_in(
    alloc: Global,
    wires: &Wires,
    known: &mut Known,
    switch: u8,
    packet: &PacketIn,
    out: &mut Commands,
) -> Result<(), AllocError>
    ensures fit { (setup : Setup) → IsFit setup wires.now known.old → IsFit setup wires.now known.new }
    ensures step { (setup : Setup) → IsFit setup wires.now known.old → switch < length setup.ports →
        OnOk result (Reacts setup known.old known.new switch (happening.PacketIn packet.now) out.old out.new) }
{
    let at = SwitchPort {
        switch,
        port: packet.in_port,
    };
    let frame = packet.payload.as_slice();
    learn_source(wires, &mut known.places, at, eth_src(frame))?;
    let seen = place_of_destination(&known.places, eth_dst(frame));
    answer(alloc, wires, &known.links, at, &packet.payload, seen, out)
}

/// A port went down or came up.
fn on_port_status(
    alloc: Global,
    wires: &Wires,
    known: &mut Known,
    switch: u8,
    status: &PortStatus,
    out: &mut Commands,
) -> Result<(), AllocError>
    ensures fit { (setup : Setup) → IsFit setup wires.now known.old → IsFit setup wires.now known.new }
    ensures known { OnOk result (routing_in known.new ≡ changed (routing_in known.old) switch status.now) }
    ensures asked { OnOk result (out.new ≡ out.old ++ (if status.now.up then [] else forgetting_ends switch status.now.port (end_over wires.now (record { switch = switch; port = status.now.port })))) }
{
    let at = SwitchPort {
        switch,
        port: status.port,
    };
    if status.up {
        port_up(wires, &mut known.links, at);
        return Ok(());
    }
    forget_port(&mut known.places, switch, status.port);
    port_down(wires, &mut known.links, at)?;
    forget_ends(alloc, switch, status.port, end_over(wires, at), out)
}

/// A switch is up again: all its ports count as up, and its addresses are forgotten.
fn on_switch_up(wires: &Wires, known: &mut Known, switch: u8)
    ensures fit { (setup : Setup) → IsFit setup wires.now known.old → IsFit setup wires.now known.new }
    ensures known { routing_in known.new ≡ restarted_routing (routing_in known.old) switch }
{
    forget_switch(&mut known.places, switch);
    switch_up(wires, &mut known.links, switch);
}

/// What routing does with what happened at a switch.
fn on_happening(
    alloc: Global,
    wires: &Wires,
    known: &mut Known,
    switch: u8,
    what: &Happening,
    out: &mut Commands,
) -> Result<(), AllocError>
    ensures fit { (setup : Setup) → IsFit setup wires.now known.old → IsFit setup wires.now known.new }
    ensures step { (setup : Setup) → IsFit setup wires.now known.old → switch < length setup.ports →
        OnOk result (Reacts setup known.old known.new switch what.now out.old out.new) }
{
    match what {
        Happening::PacketIn(packet) => on_packet_in(alloc, wires, known, switch, packet, out),
        Happening::PortStatus(_) if is_switch_up(what) => {
            on_switch_up(wires, known, switch);
            Ok(())
        }
        Happening::PortStatus(status) => on_port_status(alloc, wires, known, switch, status, out),
        Happening::FlowRemoved(_) => Ok(()),
    }
}

/// What routing does with an event.
fn on_event(
    alloc: Global,
    wires: &Wires,
    known: &mut Known,
    event: &Event,
    out: &mut Commands,
) -> Result<(), AllocError>
    ensures fit { (setup : Setup) → IsFit setup wires.now known.old → IsFit setup wires.now known.new }
    ensures step { (setup : Setup) → IsFit setup wires.now known.old →
        OnOk result (PartSteps (part_next routing setup (flat_routing (routing_in known.old)) event.now) (flat_routing (routing_in known.new)) out.old out.new false × (length out.new ≤ length out.old + most_given routing)) }
{
    if event.switch < wires.switches {
        on_happening(alloc, wires, known, event.switch, &event.what, out)?;
    }
    Ok(())
}

impl Route {
    /// A part that is still to be started: it knows no address and no switch. It takes no memory.
    pub fn new(alloc: Global) -> Route
        ensures { ⟦<Route as Part>⟧.numbers result ≡ 0 ∷ [] }
    {
        Route {
            wires: no_wires(alloc),
            known: Known {
                places: IndexMap::new(alloc),
                links: no_links(alloc),
            },
        }
    }
}

impl Part for Route {
    ghost kind_of = { λ _. routing };

    ghost numbers = { λ r. flat_routing (routing_in r.known) };

    // The setup whose switches, ports and links it keeps, and of whose links it knows which are up.
    ghost is_fit = { λ r setup. IsFit setup r.wires r.known };

    fn kind(&self) -> u8 {
        7
    }

    fn most(&self) -> u32 {
        64
    }

    fn start(&mut self, alloc: Global, setup: &Setup) -> Result<(), AllocError> {
        self.wires = wires_of(alloc, setup)?;
        self.known = Known {
            places: IndexMap::new(alloc),
            links: all_links(alloc, &self.wires)?,
        };
        Ok(())
    }

    fn react(
        &mut self,
        alloc: Global,
        event: &Event,
        out: &mut Commands,
    ) -> Result<bool, AllocError> {
        on_event(alloc, &self.wires, &mut self.known, event, out)?;
        Ok(false)
    }
}
