//! Slots that an operator asks for versions.
ghost use Rattle.std.specs.Prelude.{IfOk};
ghost use Rattle.of_types.specs.Setups.{IsSetup};

use crate::entries::frame_event;
use app_core::{OPERATOR_PORT, OPERATOR_SWITCH, Part};
use app_upgrade::{Slot, all_versions};
use of_types::{Commands, Items, Setup};
use std::alloc::{AllocError, Global};

/// An operator's frame that asks for version 0.
const ASKING: [u8; 15] = [3, 0, 0, 0, 0, 1, 2, 0, 0, 0, 0, 15, 0x88, 0xb6, 0];

/// A version that a slot is asked for, and what the slot tells after it.
struct Asked {
    version: u8,
    active: u8,
    left: u32,
}

/// Version 1, once more and then an earlier one; one that there is not; versions 2, 3 and 4, and behind each again an earlier one.
const ASKED: [Asked; 10] = [
    Asked {
        version: 1,
        active: 1,
        left: 4,
    },
    Asked {
        version: 1,
        active: 1,
        left: 4,
    },
    Asked {
        version: 0,
        active: 1,
        left: 4,
    },
    Asked {
        version: 5,
        active: 1,
        left: 4,
    },
    Asked {
        version: 2,
        active: 2,
        left: 3,
    },
    Asked {
        version: 1,
        active: 2,
        left: 3,
    },
    Asked {
        version: 3,
        active: 3,
        left: 2,
    },
    Asked {
        version: 2,
        active: 3,
        left: 2,
    },
    Asked {
        version: 4,
        active: 4,
        left: 1,
    },
    Asked {
        version: 3,
        active: 4,
        left: 1,
    },
];

fn one_switch(alloc: Global) -> Result<Setup, AllocError>
    ensures { IfOk result (λ setup. IsSetup setup) }
{
    Ok(Setup {
        controllers: 1,
        ports: Items::from_vec(Vec::from_array(alloc, [48])?),
        links: Items::new(alloc),
        deny: Items::new(alloc),
    })
}

/// Whether a slot starts with its first version and all parts.
fn starts(alloc: Global, setup: &Setup, slot: &mut Slot) -> Result<bool, AllocError>
    requires { IsSetup setup.now }
{
    slot.start(alloc, setup)?;
    Ok(slot.active() == 0 && slot.left() == 5)
}

/// Asks a slot for a version, and tells whether the chain stops there.
fn asks(
    alloc: Global,
    slot: &mut Slot,
    out: &mut Commands,
    version: u8,
) -> Result<bool, AllocError> {
    let mut frame = ASKING;
    frame[14] = version;
    let event = frame_event(alloc, OPERATOR_SWITCH, 0, OPERATOR_PORT, &frame)?;
    let stops = slot.react(alloc, &event, out);
    drop(event);
    stops
}

/// Whether a slot tells this at each of these versions.
fn tells(alloc: Global, slot: &mut Slot, out: &mut Commands) -> Result<bool, AllocError> {
    let mut so = true;
    for asked in &ASKED {
        let stops = asks(alloc, slot, out, asked.version)?;
        so = !stops && slot.active() == asked.active && slot.left() == asked.left && so;
    }
    Ok(so)
}

/// Whether a slot tells of each version what it should, gives no command, and starts again.
fn goes_on(
    alloc: Global,
    setup: &Setup,
    slot: &mut Slot,
    out: &mut Commands,
) -> Result<bool, AllocError>
    requires { IsSetup setup.now }
{
    Ok(
        starts(alloc, setup, slot)?
            && tells(alloc, slot, out)?
            && out.is_empty()
            && starts(alloc, setup, slot)?,
    )
}

/// A slot of all versions.
fn full_slot(alloc: Global) -> Result<Slot, AllocError> {
    Ok(Slot::new(all_versions(alloc)?))
}

/// Whether a slot of all versions does so.
fn upgrades(alloc: Global, setup: &Setup) -> Result<bool, AllocError>
    requires { IsSetup setup.now }
{
    let mut slot = full_slot(alloc)?;
    let mut out = Items::new(alloc);
    let told = goes_on(alloc, setup, &mut slot, &mut out);
    drop(out);
    drop(slot);
    told
}

/// A slot goes to later versions alone, and holds the parts from the active one on. One that is started again has all of them.
#[test]
fn goes_to_later_versions(rt: HostRuntime) -> Result<(), AllocError> {
    let setup = one_switch(rt.alloc())?;
    let told = upgrades(rt.alloc(), &setup);
    drop(setup);
    assert!(rt; told == Ok(true));
    Ok(())
}
