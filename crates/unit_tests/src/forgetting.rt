//! A switch that forgets its past. By the rules, by hand.

use crate::timeouts::{MET, adds, of_0, turn, two_ports};
use journal::Local;
use of_switch::{Switch, SwitchInput};
use of_types::{Event, Extension, Octets, Spoken};
use std::alloc::{AllocError, Global};

/// A frame that no row meets but the table-miss row becomes an event.
fn misses(alloc: Global, switch: &mut Switch) -> Result<(), AllocError> {
    let bytes = Octets::from_vec(Vec::from_array(alloc, MET)?);
    turn(switch, SwitchInput::Local(Local::Frame { port: 2, bytes }))
}

/// How many events it tells, how many of them wait, how many commands it tells, and how many rows its table has.
fn counts(switch: &Switch) -> (usize, u64, usize, usize) {
    (
        switch.events().len(),
        switch.held(),
        switch.executed().len(),
        switch.count_rows(),
    )
}

/// Whether the first of some events has this number.
fn begins_at(events: &[Event], number: u64) -> bool {
    match events.first() {
        Some(event) => event.number == number,
        None => false,
    }
}

/// Whether of three events and a command the two events that wait are left, and the row that the command added.
fn keeps_what_waits(alloc: Global) -> Result<bool, AllocError> {
    let setup = two_ports(alloc)?;
    let mut switch = Switch::new(alloc, 0, &setup)?;
    misses(alloc, &mut switch)?;
    misses(alloc, &mut switch)?;
    misses(alloc, &mut switch)?;
    adds(alloc, &mut switch)?;
    let (life, through) = (0, 1);
    turn(
        &mut switch,
        of_0(Spoken::Ravana(Extension::EventAck { life, through })),
    )?;
    let all = counts(&switch) == (3, 2, 1, 2);
    switch.forget();
    let left = counts(&switch) == (2, 2, 0, 2) && begins_at(switch.events(), 1);
    drop(switch);
    drop(setup);
    Ok(all && left)
}

#[test]
fn a_switch_that_forgets_keeps_what_waits(rt: HostRuntime) {
    assert!(rt; keeps_what_waits(rt.alloc()) == Ok(true));
}
