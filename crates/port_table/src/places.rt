//! Tables of ports: 49 places for each switch, one for each of its ports from 0 on.
ghost use Rattle.std.specs.Prelude.{◌≡◌, slice_index_or, false};
ghost use Rattle.port_table.specs.Places.{place, marked};

use app_core::SwitchPort;

/// The places that a switch has in a table of its ports, for ports 0 to 48.
pub const WIDTH: usize = 49;

/// The place of a port.
pub fn place(at: SwitchPort) -> usize
    ensures { result ≡ place at }
{
    WIDTH * usize::from(at.switch) + at.port as usize
}

/// A port is marked, where it has a place.
pub fn mark(flags: &mut [bool], at: SwitchPort)
    ensures { flags.new ≡ marked flags.old at }
{
    let place = place(at);
    if (at.port as usize) < WIDTH && place < flags.len() {
        flags[place] = true;
    }
}

/// Whether a place is marked.
pub fn is_marked(flags: &[bool], place: usize) -> bool
    ensures { result ≡ slice_index_or flags.now place false }
{
    place < flags.len() && flags[place]
}
