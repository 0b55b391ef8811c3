//! What the types of the extension's messages say of their numbers.
ghost use Rattle.of_messages.specs.Fits.{FitsPlain};
ghost use Rattle.of_ravana.specs.Canonical.{happening_message, order_message};
ghost use Rattle.of_ravana.specs.Fits.{FitsOutcome, FitsExtension};

use of_bytes::{u16_fits, u32_fits, u64_fits};
use of_messages::{
    flow_mod_fits, flow_removed_fits, packet_in_fits, packet_out_fits, port_status_fits,
};
use of_types::{Extension, Happening, Order, Outcome};

/// Each number of an event's message fits its field.
pub fn happening_fits(what: &Happening)
    ensures { FitsPlain (happening_message what.now) }
{
    match what {
        Happening::PacketIn(packet) => packet_in_fits(packet),
        Happening::FlowRemoved(removed) => flow_removed_fits(removed.get()),
        Happening::PortStatus(status) => port_status_fits(*status),
    }
}

fn order_fits(what: &Order)
    ensures { FitsPlain (order_message what.now) }
{
    match what {
        Order::FlowMod(change) => flow_mod_fits(change.get()),
        Order::PacketOut(packet) => packet_out_fits(packet),
    }
}

fn outcome_fits(outcome: Outcome)
    ensures { FitsOutcome outcome }
{
    match outcome {
        Outcome::Failed { kind, code } => {
            u16_fits(kind);
            u16_fits(code);
        }
        Outcome::Done | Outcome::Cleared => {}
    }
}

/// Each number fits its field.
pub fn extension_fits(said: &Extension)
    ensures { FitsExtension said.now }
{
    match said {
        Extension::Event { life, number, what } => {
            u32_fits(*life);
            u64_fits(*number);
            happening_fits(what);
        }
        Extension::Command {
            life,
            generation,
            number,
            settled,
            order,
        } => {
            u32_fits(*life);
            u64_fits(*generation);
            u64_fits(*number);
            u64_fits(*settled);
            order_fits(order);
        }
        Extension::CmdAck {
            life,
            number,
            outcome,
        } => {
            u32_fits(*life);
            u64_fits(*number);
            outcome_fits(*outcome);
        }
        Extension::EventAck { life, through } | Extension::Clear { life, through } => {
            u32_fits(*life);
            u64_fits(*through);
        }
    }
}
