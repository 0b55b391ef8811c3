//! The table of a switch, told by what the switch did in its present life. No code is here: each law is a function that does
//! nothing, and whose clause says it.

ghost use Rattle.std.specs.Prelude.{◌≡◌, ℕ, List, Option};
ghost use Rattle.flow_clock.specs.History.{Act};
ghost use Rattle.flow_clock.specs.Holding.{clocked_of};
ghost use Rattle.of_switch.specs.declared.says.SwitchInput.{SwitchInput};
ghost use Rattle.of_switch.specs.State.{SwitchState};
ghost use Rattle.of_switch.specs.Rules.{switch_turn};
ghost use Rattle.journal.specs.declared.journal.JournalEntry.{JournalEntry};
ghost use Rattle.journal.specs.declared.journal.Packet.{Packet};
ghost use Rattle.run_spec.specs.States.{Scene};
ghost use Rattle.run_laws.specs.SwitchTables.Acts.{acts_then};
ghost use Rattle.run_laws.specs.SwitchTables.Laws.{IsTableTold};

/// A turn of a switch: what it does with its table joins what it did before, and with a life all begins anew.
pub fn turn_law()
    ensures { (s : SwitchState) (input : SwitchInput) (acts : List Act) → s.table ≡ clocked_of acts → (switch_turn s input).state.table ≡ clocked_of (acts_then s input acts) }
{}

/// After each part of a journal the table of a switch, with its clock, is that of what the switch did in its present life:
/// the FLOW_MODs that it carried out without a fault, the ticks and the frames. The rows that leave at its next tick, each with
/// its reason and counts, are those by what it did, below the end of the clock's numbers. And the FLOW_MODs are those of its
/// executed commands of that life that had no fault over the table of then, in their order.
pub fn table_law<B>()
    ensures { (scene : Scene B) (s : ℕ) (own : List (JournalEntry B × Option (Packet B))) → IsTableTold scene s own }
{}
