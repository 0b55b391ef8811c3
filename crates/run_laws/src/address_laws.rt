//! To whom the turns of the actors write: to actors of their setup alone. No code is here: each law is a function that does
//! nothing, and whose clause says it.

ghost use Rattle.run_laws.specs.AddressLaws.Laws.{SwitchesWriteToActors, ControllersWriteToActors, JournalsAreAddressed};

/// A switch whose wires and master are of the setup writes to actors of the setup alone, whatever comes from these, and
/// knows no others after its turn.
pub fn switches_write_to_actors()
    ensures { SwitchesWriteToActors }
{}

/// So does a controller whose log has events of switches of the setup alone at the end of its turn.
pub fn controllers_write_to_actors()
    ensures { ControllersWriteToActors }
{}

/// After every possible past, whatever waits goes to an actor of the setup, where the logs of the controllers had events of
/// its switches alone.
pub fn journals_are_addressed<B>()
    ensures { JournalsAreAddressed B }
{}
