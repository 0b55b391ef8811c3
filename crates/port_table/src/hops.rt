//! Going down by levels.
ghost use Rattle.std.specs.Prelude.{◌≤◌, length, MatchOption};
ghost use Rattle.port_table.specs.Hops.{HasNone, IsFirstPort};

use app_core::SwitchPort;

/// The first port of a row whose link leads to a switch of this level.
pub fn next_hop(
    row: &[Option<SwitchPort>],
    levels: &[u8; 256],
    wanted: u8,
) -> Option<(u32, SwitchPort)>
    requires { length row.now ≤ 49 }
    ensures { MatchOption result (HasNone row.now levels.now wanted (length row.now)) (λ r. IsFirstPort row.now levels.now wanted r.0 r.1) }
{
    for (port, end) in row.iter().enumerate() {
        if let Some(end) = end
            && levels[usize::from(end.switch)] == wanted
        {
            return Some((port as u32, *end));
        }
    }
    None
}
