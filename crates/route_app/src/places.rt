//! Where addresses were seen, and which ports are down.
ghost use Rattle.std.specs.Prelude.{◌≡◌, ◌≤◌, not, nat_eq, ◌&&◌, length, slice_get, OnOk, OnErr};
ghost use Rattle.app_core.specs.Learning.{forgotten, forgotten_at};
ghost use Rattle.app_core.specs.Routes.{is_same_port};
ghost use Rattle.app_core.specs.Routing.{host_place_of, placed_host, is_port_before, with_known_port, without_port, without_switch};
ghost use Rattle.route_app.specs.Orderly.{StaysOrderly};
ghost use Rattle.route_app.specs.Places.{hosts_on, rank, is_there};

use app_core::SwitchPort;
use indexmap::IndexMap;
use std::alloc::AllocError;

/// Where each address was seen, in the order in which they were first seen.
pub type Places = IndexMap<u64, SwitchPort>;

/// Where an address was seen.
pub fn place_of(places: &Places, address: u64) -> Option<SwitchPort>
    ensures { result ≡ host_place_of (hosts_on places.now.entries) address }
{
    places.get(&address).copied()
}

/// An address is set to a port.
pub fn set_place(places: &mut Places, address: u64, at: SwitchPort) -> Result<(), AllocError>
    ensures { OnOk result (hosts_on places.new.entries ≡ placed_host (hosts_on places.old.entries) address at) }
{
    places.insert(address, at)?;
    Ok(())
}

/// The addresses that were seen at a port are forgotten.
pub fn forget_port(places: &mut Places, switch: u8, port: u32)
    ensures { hosts_on places.new.entries ≡ forgotten (hosts_on places.old.entries) switch port }
{
    places.retain(
        |address: &u64, at: &mut SwitchPort| -> bool
            ensures { (result ≡ not (nat_eq at.old.switch switch && nat_eq at.old.port port)) × (at.new ≡ at.old) }
        { !(at.switch == switch && at.port == port) },
    );
}

/// The addresses that were seen at a switch are forgotten.
pub fn forget_switch(places: &mut Places, switch: u8)
    ensures { hosts_on places.new.entries ≡ forgotten_at (hosts_on places.old.entries) switch }
{
    places.retain(
        |address: &u64, at: &mut SwitchPort| -> bool
            ensures { (result ≡ not (nat_eq at.old.switch switch)) × (at.new ≡ at.old) }
        { at.switch != switch },
    );
}

/// Two are the same port.
pub fn is_same(a: SwitchPort, b: SwitchPort) -> bool
    ensures { result ≡ is_same_port a b }
{
    a.switch == b.switch && a.port == b.port
}

/// One port comes before another.
fn is_before(a: SwitchPort, b: SwitchPort) -> bool
    ensures { result ≡ is_port_before a b }
{
    a.switch < b.switch || (a.switch == b.switch && a.port < b.port)
}

/// How many ports of a list come before this one, up to the first that does not.
fn rank(down: &[SwitchPort], at: SwitchPort) -> usize
    ensures rank { result ≡ rank down.now at }
    ensures within { result ≤ length down.now }
{
    for (place, port) in down.iter().enumerate() {
        if !is_before(*port, at) {
            return place;
        }
    }
    down.len()
}

/// Whether this port stands at a place.
fn is_there(down: &[SwitchPort], place: usize, at: SwitchPort) -> bool
    ensures { result ≡ is_there (slice_get down.now place) at }
{
    place < down.len() && is_same(down[place], at)
}

/// A port joins those that are down, at its place. At want of memory nothing changes.
pub fn take_down(down: &mut Vec<SwitchPort>, at: SwitchPort) -> Result<(), AllocError>
    ensures joined { OnOk result (down.new.items ≡ with_known_port down.old.items at) }
    ensures kept { OnErr result (down.new.items ≡ down.old.items) }
{
    let place = rank(down.as_slice(), at);
    if !is_there(down.as_slice(), place, at) {
        down.insert(place, at)?;
    }
    Ok(())
}

/// A port is up.
pub fn bring_up(down: &mut Vec<SwitchPort>, at: SwitchPort)
    ensures { down.new.items ≡ without_port down.old.items at }
{
    down.retain(|p| !(p.switch == at.switch && p.port == at.port));
}

/// All ports of a switch are up.
pub fn bring_up_switch(down: &mut Vec<SwitchPort>, switch: u8)
    ensures { down.new.items ≡ without_switch down.old.items switch }
{
    down.retain(|p| p.switch != switch);
}

/// After every event each address is still that of one host, and the ports that are down still ascend.
pub fn stays_orderly()
    ensures { StaysOrderly }
{}
