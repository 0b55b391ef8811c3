//! What routing asks of switches.
ghost use Rattle.std.specs.Prelude.{◌≡◌, ◌++◌, [], ◌∷◌, take, unwrap_or, IfOk, OnOk, if◌then◌else◌};
ghost use Rattle.of_types.specs.Header.{number_at};
ghost use Rattle.of_types.specs.declared.setup.Setup.{Setup};
ghost use Rattle.app_core.specs.Routing.{frame_out, frame_out_if, port_of_end, path_row, first_output, forgetting_ends, flooded};
ghost use Rattle.route_app.specs.Wired.{IsWires, end_over, open_over, all_open, flooded_over, legs_over, rows_back, installed_over};

use crate::places::is_same;
use crate::table::down_table;
use crate::wires::{Wires, count, edge_over, end_over};
use app_core::{Leg, SwitchPort, flow_mod, forgetting_rows, frames_to, packet_out};
use of_types::{
    ANY_PORT, Actions, Command, Commands, FlowCommand, NO_BUFFER, Octets, Order, PacketOut,
    TO_CONTROLLER, eth_dst,
};
use port_table::{is_marked, place};
use std::alloc::{AllocError, Global};

/// Of so many switches of a path, numbered from the first, rows are installed at once.
const MOST_ROWS: usize = 63;

/// The same, where these ports are down.
pub fn flood(
    alloc: Global,
    wires: &Wires,
    down: &[SwitchPort],
    at: SwitchPort,
    frame: &Octets,
    out: &mut Commands,
) -> Result<(), AllocError>
    ensures { (setup : Setup) → IsWires setup wires.now → OnOk result (out.new ≡ out.old ++ flooded setup down.now at frame.now) }
{
    let flags = down_table(alloc, wires.ends.len(), down)?;
    flood_over(alloc, wires, flags.as_slice(), at, frame, out)
}

/// The rows of a walk, and then the frame goes its way.
#[tactic(auto, using(std::proofs::Common::append_assoc))]
pub fn install(
    alloc: Global,
    wires: &Wires,
    at: SwitchPort,
    frame: &Octets,
    target: SwitchPort,
    walk: &[SwitchPort],
    out: &mut Commands,
) -> Result<(), AllocError>
    ensures { OnOk result (out.new ≡ out.old ++ installed_over wires.now at frame.now target walk.now) }
{
    let mut path = Vec::new(alloc);
    add_legs(wires, at.port, walk, target, &mut path)?;
    add_rows(alloc, destination(frame), first_legs(path.as_slice()), out)?;
    let sent = packet_out(alloc, at.switch, at.port, frame, first_output(walk, target))?;
    out.push(sent)?;
    Ok(())
}

/// The rows that send to a port that went down go, at both ends of its link if it is in one.
#[tactic(auto, using(std::proofs::Common::append_assoc))]
pub fn forget_ends(
    alloc: Global,
    switch: u8,
    port: u32,
    end: Option<SwitchPort>,
    out: &mut Commands,
) -> Result<(), AllocError>
    ensures { OnOk result (out.new ≡ out.old ++ forgetting_ends switch port end) }
{
    out.push(forgetting_rows(alloc, switch, port)?)?;
    if let Some(end) = end {
        out.push(forgetting_rows(alloc, end.switch, end.port)?)?;
    }
    Ok(())
}

/// A switch sends a frame out by its open ports, if it has one.
fn send_out(
    switch: u8,
    frame: &Octets,
    ports: Actions,
    out: &mut Commands,
) -> Result<(), AllocError>
    ensures { OnOk result (out.new ≡ out.old ++ frame_out_if switch frame.now ports) }
{
    if !ports.is_empty() {
        let payload = frame.copy()?;
        out.push(Command {
            switch,
            order: Order::PacketOut(PacketOut {
                buffer: NO_BUFFER,
                in_port: TO_CONTROLLER,
                actions: ports,
                payload,
            }),
        })?;
    }
    Ok(())
}

fn is_open(wires: &Wires, flags: &[bool], at: SwitchPort, port: SwitchPort) -> bool
    ensures { result ≡ open_over wires.now flags.now at port }
{
    edge_over(wires, port) && !is_marked(flags, place(port)) && !is_same(port, at)
}

/// A port joins a list, if it is open.
fn push_if(ports: &mut Actions, port: u32, is_open: bool) -> Result<(), AllocError>
    ensures { OnOk result (ports.new ≡ ports.old ++ (if is_open then port ∷ [] else [])) }
{
    if is_open {
        ports.push(port)?;
    }
    Ok(())
}

/// The open ports of a switch, ascending.
fn open_ports(
    alloc: Global,
    wires: &Wires,
    flags: &[bool],
    at: SwitchPort,
    switch: u8,
    count: u32,
) -> Result<Actions, AllocError>
    ensures { IfOk result (λ ports. ports ≡ all_open wires.now flags.now at switch count) }
{
    let mut ports = Actions::new(alloc);
    for below in 0..count {
        let port = SwitchPort {
            switch,
            port: below + 1,
        };
        push_if(&mut ports, port.port, is_open(wires, flags, at, port))?;
    }
    Ok(ports)
}

/// Each switch sends a frame out by its open ports.
fn flood_over(
    alloc: Global,
    wires: &Wires,
    flags: &[bool],
    at: SwitchPort,
    frame: &Octets,
    out: &mut Commands,
) -> Result<(), AllocError>
    ensures { OnOk result (out.new ≡ out.old ++ flooded_over wires.now flags.now at frame.now wires.now.switches) }
{
    for switch in 0..wires.switches {
        let ports = open_ports(alloc, wires, flags, at, switch, count(wires, switch))?;
        send_out(switch, frame, ports, out)?;
    }
    Ok(())
}

/// The port by which a hop arrives.
fn arrival(wires: &Wires, hop: SwitchPort) -> u32
    ensures { result ≡ port_of_end (end_over wires.now hop) }
{
    match end_over(wires, hop) {
        Some(end) => end.port,
        None => 0,
    }
}

/// The legs of a walk, from a port at its first switch to one at its last.
#[tactic(auto, unfolding(crate::specs::Wired::legs_over), using(std::proofs::Common::append_assoc))]
fn add_legs(
    wires: &Wires,
    input: u32,
    walk: &[SwitchPort],
    target: SwitchPort,
    legs: &mut Vec<Leg>,
) -> Result<(), AllocError>
    ensures { OnOk result (legs.new.items ≡ legs.old.items ++ legs_over wires.now input walk.now target) }
{
    let Some((hop, hops)) = walk.split_first() else {
        legs.push(Leg {
            switch: target.switch,
            input,
            output: target.port,
        })?;
        return Ok(());
    };
    legs.push(Leg {
        switch: hop.switch,
        input,
        output: hop.port,
    })?;
    add_legs(wires, arrival(wires, *hop), hops, target, legs)
}

/// The row of a leg.
fn path_row(alloc: Global, address: u64, leg: Leg) -> Result<Command, AllocError>
    ensures { IfOk result (λ command. command ≡ path_row address leg) }
{
    let mut actions = Actions::new(alloc);
    actions.push(leg.output)?;
    flow_mod(
        alloc,
        leg.switch,
        3,
        FlowCommand::Add,
        10,
        ANY_PORT,
        frames_to(leg.input, address),
        actions,
    )
}

/// The rows of these legs, from the last back to the first.
#[tactic(auto, unfolding(crate::specs::Wired::rows_back), using(std::proofs::Common::append_assoc))]
fn add_rows(alloc: Global, address: u64, legs: &[Leg], out: &mut Commands) -> Result<(), AllocError>
    ensures { OnOk result (out.new ≡ out.old ++ rows_back address legs.now) }
{
    let Some((leg, rest)) = legs.split_first() else {
        return Ok(());
    };
    add_rows(alloc, address, rest, out)?;
    out.push(path_row(alloc, address, *leg)?)?;
    Ok(())
}

/// The first output of a walk to a port.
fn first_output(walk: &[SwitchPort], target: SwitchPort) -> u32
    ensures { result ≡ first_output walk.now target }
{
    match walk.split_first() {
        Some((hop, _)) => hop.port,
        None => target.port,
    }
}

/// The legs whose rows are installed at once.
fn first_legs(legs: &[Leg]) -> &[Leg]
    ensures { result.now ≡ take 63 legs.now }
{
    &legs[..MOST_ROWS.min(legs.len())]
}

/// Where a frame goes.
fn destination(frame: &Octets) -> u64
    ensures { result ≡ unwrap_or (number_at 6 0 frame.now) 0 }
{
    eth_dst(frame.as_slice()).unwrap_or(0)
}
