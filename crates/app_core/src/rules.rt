//! The table of kinds. No code is here.
ghost use Rattle.std.specs.Prelude.{ℕ};
ghost use Rattle.app_core.specs.Chain.{rule_of};
ghost use Rattle.app_core.specs.Rules.{HasLaws};

/// Each rule in the table of kinds keeps its laws: in every state its commands are of switches of the setup, send a frame once at
/// most to a port, and can be spelled; and behind whatever events it gives no more than its most.
pub fn rules_keep_their_laws()
    ensures { (kind : ℕ) → HasLaws (rule_of kind) }
{}
