//! Routes are shortest, and levels show it. No code is here.
ghost use Rattle.std.specs.Prelude.{◌≡◌, ◌≤◌, ℕ, List, length, slice_index, Some, None};
ghost use Rattle.of_types.specs.declared.setup.Setup.{Setup};
ghost use Rattle.of_types.specs.Setups.{IsSetup};
ghost use Rattle.app_core.specs.declared.switch_port.SwitchPort.{SwitchPort};
ghost use Rattle.app_core.specs.Routes.{AreBounds, FallsAlong, IsRoute, IsWalk, route};

/// The route that rules lay is a walk such that no walk has fewer hops, and no equally short one has lesser out ports. There is
/// none only where there is no walk.
pub fn routes_are_shortest()
    ensures some { (setup : Setup) (down : List SwitchPort) (from to : ℕ) (walk : List SwitchPort) → IsSetup setup → route setup down from to ≡ Some walk → IsRoute setup down from to walk }
    ensures none { (setup : Setup) (down : List SwitchPort) (from to : ℕ) (walk : List SwitchPort) → IsSetup setup → route setup down from to ≡ None → IsWalk setup down from to walk → ⊥ }
    ensures only { (setup : Setup) (down : List SwitchPort) (from to : ℕ) (walk : List SwitchPort) → IsSetup setup → IsRoute setup down from to walk → route setup down from to ≡ Some walk }
{}

/// Levels certify: where they are 0 at a switch, and at most 1 apart at the ends of each link that is up, no walk to it has fewer
/// hops than the level of the switch where it begins. So one along which they fall has the fewest.
pub fn levels_bound_walks()
    ensures bound { (setup : Setup) (down : List SwitchPort) (from to : ℕ) (levels : List ℕ) (walk : List SwitchPort) →
        AreBounds setup down to levels → IsWalk setup down from to walk → slice_index levels from ≤ length walk }
    ensures fewest { (setup : Setup) (down : List SwitchPort) (from to : ℕ) (levels : List ℕ) (walk other : List SwitchPort) →
        AreBounds setup down to levels → IsWalk setup down from to walk → FallsAlong setup levels walk → IsWalk setup down from to other → length walk ≤ length other }
{}
