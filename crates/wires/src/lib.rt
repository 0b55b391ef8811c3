//! The wires of a setup. A port is an end of one of them at most.
#![tactic(auto)]

ghost use Rattle.std.specs.Prelude.{◌≡◌};
ghost use Rattle.wires.specs.Wires.{is_end, is_taken};

use of_types::Link;

/// Whether a port is an end of a wire.
fn is_end(switch: u8, port: u32, link: &Link) -> bool
    ensures { result ≡ is_end switch port link.now }
{
    (link.switch == switch && link.port == port) || (link.peer == switch && link.peer_port == port)
}

/// Whether a port is an end of one of these wires.
pub fn is_taken(switch: u8, port: u32, links: &[Link]) -> bool
    ensures { result ≡ is_taken switch port links.now }
{
    links.iter().any(|link| is_end(switch, port, link))
}
