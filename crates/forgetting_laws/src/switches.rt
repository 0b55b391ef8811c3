//! What a switch may forget. No code is here: the law is a function that does nothing, and whose clauses say it.
ghost use Rattle.std.specs.Prelude.{◌≡◌, List};
ghost use Rattle.of_switch.specs.declared.says.SwitchInput.{SwitchInput};
ghost use Rattle.of_switch.specs.Rules.{switch_turn};
ghost use Rattle.of_switch.specs.State.{SwitchState, forgets_past};
ghost use Rattle.forgetting_laws.specs.Switches.{AreAlikeNow, AreTurnsAlike, SwitchStep, without_forgetting, said_by, switch_after};

/// A switch that forgets its past says what one says that forgets nothing.
pub fn switches_forget()
    // Switches that agree on all that rules read say the same in a turn, and agree behind it.
    ensures turn { (s t : SwitchState) (input : SwitchInput) → AreAlikeNow s t → AreTurnsAlike (switch_turn s input) (switch_turn t input) }
    // A switch that forgets its past still agrees with what it was.
    ensures forgetting { (s : SwitchState) → AreAlikeNow (forgets_past s) s }
    // Whenever a switch forgets, before, between or behind its turns: it says the same, turn by turn.
    ensures said { (s : SwitchState) (steps : List SwitchStep) → said_by s steps ≡ said_by s (without_forgetting steps) }
    // And it is left as if it had never forgotten, in all that rules read.
    ensures left { (s : SwitchState) (steps : List SwitchStep) → AreAlikeNow (switch_after s steps) (switch_after s (without_forgetting steps)) }
{}
