//! Which ports are down, and where links lead that are up, as ports go down and come up.
ghost use Rattle.std.specs.Prelude.{◌≡◌, [], Some, IfOk, OnOk, OnErr};
ghost use Rattle.of_types.specs.declared.setup.Setup.{Setup};
ghost use Rattle.app_core.specs.Routes.{is_link_down, if_up};
ghost use Rattle.app_core.specs.Routing.{with_known_port, without_port, without_switch};
ghost use Rattle.route_app.specs.Tables.{led};
ghost use Rattle.route_app.specs.Wired.{IsWires};
ghost use Rattle.route_app.specs.UpLinks.{AreUp, relinked, relinked_ports};

use crate::places::{bring_up, bring_up_switch, is_same, take_down};
use crate::wires::{Wires, end_over};
use app_core::SwitchPort;
use port_table::{WIDTH, place};
use std::alloc::{AllocError, Global};

/// The links of a setup, of which those are up whose ports both are.
#[derive(Drop)]
pub struct UpLinks {
    /// The ports that are down, ascending.
    pub down: Vec<SwitchPort>,

    /// Where the links lead that are up.
    pub table: Vec<Option<SwitchPort>>,
}

/// Those of no setup. It takes no memory.
pub fn no_links(alloc: Global) -> UpLinks
    ensures { result.down.items ≡ [] }
{
    UpLinks {
        down: Vec::new(alloc),
        table: Vec::new(alloc),
    }
}

/// All links, where no port is down.
pub fn all_links(alloc: Global, wires: &Wires) -> Result<UpLinks, AllocError>
    ensures none_down { IfOk result (λ links. links.down.items ≡ []) }
    ensures up { (setup : Setup) → IsWires setup wires.now → IfOk result (λ links. AreUp setup links) }
{
    let table = Vec::from_slice(alloc, wires.ends.as_slice())?;
    Ok(UpLinks {
        down: Vec::new(alloc),
        table,
    })
}

/// A port leads to an end or to none, where it has a place.
fn lead(table: &mut Vec<Option<SwitchPort>>, at: SwitchPort, end: Option<SwitchPort>)
    ensures { table.new.items ≡ led table.old.items at end }
{
    let place = place(at);
    if place < table.len() {
        table[place] = end;
    }
}

/// Whether a port is among those that are down.
fn is_down(down: &[SwitchPort], at: SwitchPort) -> bool
    ensures { result ≡ is_link_down down.now at }
{
    down.iter().any(|port| is_same(*port, at))
}

/// Where a link leads, if both its ports are up.
fn if_up(down: &[SwitchPort], at: SwitchPort, end: SwitchPort) -> Option<SwitchPort>
    ensures { result ≡ if_up down.now at (Some end) }
{
    if is_down(down, at) || is_down(down, end) {
        None
    } else {
        Some(end)
    }
}

/// The link at a port is in the table where it is up, and not where it is down.
fn relink(wires: &Wires, down: &[SwitchPort], table: &mut Vec<Option<SwitchPort>>, at: SwitchPort)
    ensures { table.new.items ≡ relinked wires.now down.now table.old.items at }
{
    if let Some(end) = end_over(wires, at) {
        lead(table, at, if_up(down, at, end));
        lead(table, end, if_up(down, end, at));
    }
}

/// The same for each port of a switch.
fn relink_ports(wires: &Wires, down: &[SwitchPort], table: &mut Vec<Option<SwitchPort>>, switch: u8)
    ensures { table.new.items ≡ relinked_ports wires.now down.now table.old.items switch 49 }
{
    'ports: for port in 0..WIDTH as u32 {
        relink(wires, down, table, SwitchPort { switch, port });
    }
}

/// A port goes down, and its link with it. At want of memory nothing changes.
pub fn port_down(wires: &Wires, links: &mut UpLinks, at: SwitchPort) -> Result<(), AllocError>
    ensures up { (setup : Setup) → IsWires setup wires.now → AreUp setup links.old → AreUp setup links.new }
    ensures down { OnOk result (links.new.down.items ≡ with_known_port links.old.down.items at) }
    ensures kept { OnErr result ((links.new.down.items ≡ links.old.down.items) × (links.new.table.items ≡ links.old.table.items)) }
{
    take_down(&mut links.down, at)?;
    relink(wires, links.down.as_slice(), &mut links.table, at);
    Ok(())
}

/// A port comes up, and its link with it where the other port is up.
pub fn port_up(wires: &Wires, links: &mut UpLinks, at: SwitchPort)
    ensures up { (setup : Setup) → IsWires setup wires.now → AreUp setup links.old → AreUp setup links.new }
    ensures down { links.new.down.items ≡ without_port links.old.down.items at }
{
    bring_up(&mut links.down, at);
    relink(wires, links.down.as_slice(), &mut links.table, at);
}

/// All ports of a switch are up, and their links where the other ports are.
pub fn switch_up(wires: &Wires, links: &mut UpLinks, switch: u8)
    ensures up { (setup : Setup) → IsWires setup wires.now → AreUp setup links.old → AreUp setup links.new }
    ensures down { links.new.down.items ≡ without_switch links.old.down.items switch }
{
    bring_up_switch(&mut links.down, switch);
    relink_ports(wires, links.down.as_slice(), &mut links.table, switch);
}
