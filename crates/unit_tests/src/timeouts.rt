//! A hard timeout at a whole switch. By the rules, by hand.
ghost use Rattle.std.specs.Prelude.{◌≤◌, slice_index_or, IfOk};
ghost use Rattle.event_buffer.specs.Buffer.{highest_port};

use crate::changes::{ADD, ANY, Change, flow_mod};
use journal::Local;
use of_switch::{Switch, SwitchInput};
use of_types::{
    Boxed, Event, Extension, FlowRemoved, Happening, Items, MASTER, Octets, OfMessage, Order,
    REASON_HARD, Setup, Spoken,
};
use std::alloc::{AllocError, Global};

/// A row for every frame, to port 1, that stands for three ticks, and whose end is told.
const HARD: Change = Change {
    cookie: 7,
    flags: 1,
    hard: 3,
    priority: 5,
    ..ADD
};

/// What is told of it: it left by its hard timeout, which is over after three ticks whatever meets the row, and two frames of 14
/// bytes met it (OpenFlow 1.3, 5.5 and 7.4.2).
const LEFT: FlowRemoved = FlowRemoved {
    cookie: 7,
    priority: 5,
    reason: REASON_HARD,
    duration: 3,
    idle: 0,
    hard: 3,
    packets: 2,
    octets: 28,
    matching: ANY,
};

/// A frame of 14 bytes.
pub const MET: [u8; 14] = [2, 0, 0, 0, 0, 1, 2, 0, 0, 0, 0, 2, 0x88, 0xb5];

/// A setup of one switch with two ports.
pub fn two_ports(alloc: Global) -> Result<Setup, AllocError>
    ensures { IfOk result (λ setup. slice_index_or setup.ports 0 0 ≤ highest_port) }
{
    Ok(Setup {
        controllers: 1,
        ports: Items::from_vec(Vec::from_array(alloc, [2])?),
        links: Items::new(alloc),
        deny: Items::new(alloc),
    })
}

/// A turn, whatever is said.
pub fn turn(switch: &mut Switch, input: SwitchInput) -> Result<(), AllocError> {
    let said = switch.turn(input)?;
    drop(said);
    Ok(())
}

/// What controller 0 says.
pub fn of_0(message: Spoken) -> SwitchInput {
    SwitchInput::Of {
        from: 0,
        xid: 1,
        message,
    }
}

/// Controller 0 leads the switch, and adds the row.
pub fn adds(alloc: Global, switch: &mut Switch) -> Result<(), AllocError> {
    let (role, generation) = (MASTER, 1);
    let leads = OfMessage::RoleRequest { role, generation };
    turn(switch, of_0(Spoken::Plain(leads)))?;
    let order = Order::FlowMod(Boxed::new(alloc, flow_mod(alloc, &HARD)?)?);
    let command = Extension::Command {
        life: 0,
        generation,
        number: 0,
        settled: 0,
        order,
    };
    turn(switch, of_0(Spoken::Ravana(command)))
}

/// A frame meets the row, and then a second goes by.
fn meets(alloc: Global, switch: &mut Switch) -> Result<(), AllocError> {
    let bytes = Octets::from_vec(Vec::from_array(alloc, MET)?);
    turn(switch, SwitchInput::Local(Local::Frame { port: 2, bytes }))?;
    turn(switch, SwitchInput::Local(Local::Tick))
}

/// Whether one event tells this.
fn tells(events: &[Event]) -> bool {
    match events {
        [event] => match &event.what {
            Happening::FlowRemoved(removed) => *removed.get() == LEFT,
            Happening::PacketIn(_) | Happening::PortStatus(_) => false,
        },
        _ => false,
    }
}

/// Whether the row stands for two ticks, and leaves at the third one and is told.
fn leaves_at_the_third(alloc: Global) -> Result<bool, AllocError> {
    let setup = two_ports(alloc)?;
    let mut switch = Switch::new(alloc, 0, &setup)?;
    adds(alloc, &mut switch)?;
    meets(alloc, &mut switch)?;
    meets(alloc, &mut switch)?;
    let stands = switch.rows()?.len() == 2 && switch.events().is_empty();
    turn(&mut switch, SwitchInput::Local(Local::Tick))?;
    let so = stands && switch.rows()?.len() == 1 && tells(switch.events());
    drop(switch);
    drop(setup);
    Ok(so)
}

#[test]
fn a_switch_tells_of_a_hard_timeout(rt: HostRuntime) {
    assert!(rt; leaves_at_the_third(rt.alloc()) == Ok(true));
}
