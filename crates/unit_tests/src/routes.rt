//! Routes over three switches in a ring, and over 64 in a line.
ghost use Rattle.std.specs.Prelude.{◌≡◌, length, replicate, IfOk};
ghost use Rattle.of_types.specs.Setups.{IsSetup};
ghost use Rattle.unit_tests.specs.Lines.{line_links};

use crate::entries::frame_event;
use app_core::{Part, SwitchPort};
use of_types::{Command, Commands, FlowCommand, Items, Link, Order, Setup};
use route_app::{Route, levels, route};
use std::alloc::{AllocError, Global};

/// A frame from A to B.
const A_TO_B: [u8; 14] = [2, 0, 0, 0, 0, 2, 2, 0, 0, 0, 0, 1, 0x88, 0xb5];

/// A frame from B to A.
const B_TO_A: [u8; 14] = [2, 0, 0, 0, 0, 1, 2, 0, 0, 0, 0, 2, 0x88, 0xb5];

/// The links of a ring of three switches.
const RING: [Link; 3] = [
    Link {
        switch: 0,
        port: 3,
        peer: 1,
        peer_port: 3,
    },
    Link {
        switch: 1,
        port: 4,
        peer: 2,
        peer_port: 3,
    },
    Link {
        switch: 0,
        port: 4,
        peer: 2,
        peer_port: 4,
    },
];

/// Switches of 48, 4 and 4 ports, linked in a ring.
fn ring(alloc: Global) -> Result<Setup, AllocError>
    ensures setup { IfOk result (λ setup. IsSetup setup) }
    ensures switches { IfOk result (λ setup. length setup.ports ≡ 3) }
{
    Ok(Setup {
        controllers: 1,
        ports: Items::from_vec(Vec::from_array(alloc, [48, 4, 4])?),
        links: Items::from_vec(Vec::from_array(alloc, RING)?),
        deny: Items::new(alloc),
    })
}

/// The links of 64 switches in a line: port 2 of each leads to port 3 of the next.
fn line_links(alloc: Global) -> Result<Items<Link>, AllocError>
    ensures { IfOk result (λ links. links ≡ line_links 0 63) }
{
    let mut links = Items::new(alloc);
    for switch in 0..63 {
        links.push(Link {
            switch,
            port: 2,
            peer: switch + 1,
            peer_port: 3,
        })?;
    }
    Ok(links)
}

/// Four ports for each of 64 switches.
fn line_ports(alloc: Global) -> Result<Vec<u32>, AllocError>
    ensures { IfOk result (λ ports. ports.items ≡ replicate 64 4) }
{
    vec![in alloc; 4; 64]
}

/// 64 switches of 4 ports in a line.
fn line(alloc: Global) -> Result<Setup, AllocError>
    ensures setup { IfOk result (λ setup. IsSetup setup) }
    ensures switches { IfOk result (λ setup. length setup.ports ≡ 64) }
{
    let links = line_links(alloc)?;
    let ports = line_ports(alloc)?;
    Ok(Setup {
        controllers: 1,
        ports: Items::from_vec(ports),
        links,
        deny: Items::new(alloc),
    })
}

/// Ports of the ring: switch 0 to switch 2, switch 1 to switch 0, and switch 2 to switch 1.
const SHORTER: SwitchPort = SwitchPort { switch: 0, port: 4 };

const FROM_1: SwitchPort = SwitchPort { switch: 1, port: 3 };

const FROM_2: SwitchPort = SwitchPort { switch: 2, port: 3 };

/// Ports that are down; the walk from switch 2 to switch 0 then, which is empty where there is none; and the hops of each switch to
/// switch 0. The longer way is taken where the shorter is down, and none where both are.
const WAYS: &[(&[SwitchPort], &[SwitchPort], [u8; 3])] = &[
    (&[SHORTER], &[FROM_2, FROM_1], [0, 1, 2]),
    (&[SHORTER, FROM_1], &[], [0, 255, 255]),
];

/// Whether the walk is this one, and the hops are these, where these ports are down.
fn has_way(
    alloc: Global,
    setup: &Setup,
    down: &[SwitchPort],
    walk: &[SwitchPort],
    hops: &[u8],
) -> Result<bool, AllocError>
    requires setup { IsSetup setup.now }
    requires switches { length setup.now.ports ≡ 3 }
{
    let found = route(alloc, setup, down, 2, 0)?;
    let walks = match &found {
        Some(found) => !walk.is_empty() && found.as_slice() == walk,
        None => walk.is_empty(),
    };
    drop(found);
    Ok(levels(alloc, setup, down, 0)?.as_slice() == hops && walks)
}

/// Whether these ways are taken.
fn has_ways(alloc: Global, setup: &Setup) -> Result<bool, AllocError>
    requires setup { IsSetup setup.now }
    requires switches { length setup.now.ports ≡ 3 }
{
    let mut so = true;
    for (down, walk, hops) in WAYS {
        so = has_way(alloc, setup, *down, *walk, hops)? && so;
    }
    Ok(so)
}

#[test]
fn the_shorter_way_and_the_longer(rt: HostRuntime) -> Result<(), AllocError> {
    let setup = ring(rt.alloc())?;
    let taken = has_ways(rt.alloc(), &setup);
    drop(setup);
    assert!(rt; taken == Ok(true));
    Ok(())
}

/// Whether a command adds a row of routing.
fn is_row(command: &Command) -> bool {
    match &command.order {
        Order::FlowMod(change) => {
            let change = change.get();
            change.command == FlowCommand::Add && change.cookie == 3 && change.priority == 10
        }
        _ => false,
    }
}

/// How many of these add such rows.
fn rows(commands: &[Command]) -> usize {
    let mut count: usize = 0;
    for command in commands {
        if is_row(command) {
            count = count.saturating_add(1);
        }
    }
    count
}

/// The switches of the first and the last of these.
fn ends(commands: &[Command]) -> Option<(u8, u8)> {
    Some((commands.first()?.switch, commands.last()?.switch))
}

/// Whether the walk from the first switch of a line to its last has 63 hops.
fn has_63_hops(alloc: Global, setup: &Setup) -> Result<bool, AllocError>
    requires setup { IsSetup setup.now }
    requires switches { length setup.now.ports ≡ 64 }
{
    match route(alloc, setup, &[], 0, 63)? {
        Some(found) => Ok(found.len() == 63),
        None => Ok(false),
    }
}

/// Whether these are the rows of all switches but the last, the row nearest to it first, and the frame.
fn are_63_rows(commands: &Commands) -> bool {
    let commands = commands.as_slice();
    commands.len() == 64 && rows(commands) == 63 && ends(commands) == Some((62, 0))
}

/// Takes a frame at port 1 of a switch, and tells whether the chain stops there.
fn takes(
    alloc: Global,
    part: &mut Route,
    out: &mut Commands,
    switch: u8,
    bytes: &[u8],
) -> Result<bool, AllocError> {
    let event = frame_event(alloc, switch, 0, 1, bytes)?;
    let stops = part.react(alloc, &event, out);
    drop(event);
    stops
}

/// Whether a frame to a host that was not seen goes out at each switch.
fn floods(alloc: Global, part: &mut Route) -> Result<bool, AllocError> {
    let mut out = Items::new(alloc);
    let stops = takes(alloc, part, &mut out, 63, &A_TO_B);
    let count = out.len();
    drop(out);
    Ok(!stops? && count == 64)
}

/// Whether the frame back gives these rows.
fn gives_63_rows(alloc: Global, part: &mut Route) -> Result<bool, AllocError> {
    let mut out = Items::new(alloc);
    let stops = takes(alloc, part, &mut out, 0, &B_TO_A);
    let given = are_63_rows(&out);
    drop(out);
    Ok(!stops? && given)
}

/// Whether a part does both once it is started.
fn leads(alloc: Global, setup: &Setup, part: &mut Route) -> Result<bool, AllocError>
    requires { IsSetup setup.now }
{
    part.start(alloc, setup)?;
    Ok(floods(alloc, part)? && gives_63_rows(alloc, part)?)
}

#[test]
fn a_line_of_64_gives_63_rows(rt: HostRuntime) -> Result<(), AllocError> {
    let setup = line(rt.alloc())?;
    let mut part = Route::new(rt.alloc());
    let hops = has_63_hops(rt.alloc(), &setup);
    let led = leads(rt.alloc(), &setup, &mut part);
    drop(part);
    drop(setup);
    assert!(rt; hops == Ok(true) && led == Ok(true));
    Ok(())
}
