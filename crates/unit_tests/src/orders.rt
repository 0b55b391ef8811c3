//! Copies that no run of the program makes.

use of_ravana::canonical_order;
use of_types::{Actions, Command, Executed, FLOOD, NO_BUFFER, Octets, Order, PacketOut};
use std::alloc::{AllocError, Global};

/// A PACKET_OUT of a frame from port 1 to FLOOD.
const PACKET_OUT: &[u8] =
    b"\x04\x0d\0\x36\0\0\0\0\xff\xff\xff\xff\0\0\0\x01\0\x10\0\0\0\0\0\0\0\0\0\x10\xff\xff\xff\xfb\0\0\0\0\0\0\0\0\x02\0\0\0\0\x02\x02\0\0\0\0\x01\x88\xb5";

const FRAME: &[u8] = b"\x02\0\0\0\0\x02\x02\0\0\0\0\x01\x88\xb5";

fn flood(alloc: Global) -> Result<Order, AllocError> {
    let mut actions = Actions::new(alloc);
    actions.push(FLOOD)?;
    let payload = Octets::from_slice(alloc, FRAME)?;
    Ok(Order::PacketOut(PacketOut {
        buffer: NO_BUFFER,
        in_port: 1,
        actions,
        payload,
    }))
}

fn command(alloc: Global) -> Result<Command, AllocError> {
    let order = flood(alloc)?;
    Ok(Command { switch: 3, order })
}

fn executed(alloc: Global) -> Result<Executed, AllocError> {
    let order = flood(alloc)?;
    Ok(Executed {
        life: 1,
        number: 2,
        generation: 3,
        from: 4,
        order,
    })
}

/// Whether an order has the canonical bytes of that PACKET_OUT.
fn is_told(alloc: Global, order: &Order) -> Result<bool, AllocError> {
    let bytes = canonical_order(alloc, order)?;
    Ok(bytes.as_slice() == PACKET_OUT)
}

/// Whether the copy of a command is the one that `command` makes.
fn is_copied(alloc: Global) -> Result<bool, AllocError> {
    let command = command(alloc)?;
    let copied = command.copy();
    drop(command);
    let copied = copied?;
    let told = is_told(alloc, &copied.order);
    let switch = copied.switch;
    drop(copied);
    Ok(switch == 3 && told?)
}

#[test]
fn commands_are_copied(rt: HostRuntime) {
    assert!(rt; is_copied(rt.alloc()) == Ok(true));
}

/// Whether the copy of what was executed is what `executed` makes.
fn is_copied_whole(alloc: Global) -> Result<bool, AllocError> {
    let executed = executed(alloc)?;
    let copied = executed.copy();
    drop(executed);
    let copied = copied?;
    let told = is_told(alloc, &copied.order);
    let numbers = (copied.life, copied.number, copied.generation, copied.from);
    drop(copied);
    Ok(numbers == (1, 2, 3, 4) && told?)
}

#[test]
fn what_was_executed_is_copied(rt: HostRuntime) {
    assert!(rt; is_copied_whole(rt.alloc()) == Ok(true));
}
