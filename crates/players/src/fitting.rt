//! What the types of a message of OpenFlow, or of its extension, say of its numbers. This function does nothing when it runs.
ghost use Rattle.run_spec.specs.Messages.{FitsSpoken};

use of_messages::message_fits as plain_fits;
use of_ravana::extension_fits;
use of_types::Spoken;

/// Each number fits its field.
pub fn spoken_fits(said: &Spoken)
    ensures { FitsSpoken said.now }
{
    match said {
        Spoken::Plain(said) => plain_fits(said),
        Spoken::Ravana(said) => extension_fits(said),
    }
}
