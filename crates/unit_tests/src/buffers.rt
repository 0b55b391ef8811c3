ghost use Rattle.std.specs.Prelude.{◌<◌};

use command_buffer::{CommandBuffer, MOST_KEPT, Offer};
use event_buffer::{EventBuffer, Full, MOST_HELD};
use of_types::{Happening, Outcome, PortStatus};
use std::alloc::AllocError;

/// Numbers that are offered with so many settled, once 256 commands are carried out, and what is to be done. With all
/// results kept the next number finds no room.
const OFFERS: &[(u64, u64, Offer)] = &[
    (256, 0, Offer::Full),
    (255, 0, Offer::Repeat(Outcome::Done)),
    (257, 0, Offer::Ahead),
    (0, 0, Offer::Repeat(Outcome::Done)),
    (256, 1, Offer::Execute),
    (0, 1, Offer::Repeat(Outcome::Cleared)),
    (255, 9999, Offer::Repeat(Outcome::Cleared)),
];

/// Whether the command of a number is to be carried out, as the next one. It is then.
fn executes(buffer: &mut CommandBuffer, number: u64) -> bool
    requires { number < 256 }
{
    if buffer.offer(number, 0) != Offer::Execute
        || buffer.executed() != number
        || buffer.kept() >= MOST_KEPT as u64
    {
        return false;
    }
    buffer.done(Outcome::Done);
    true
}

/// Whether 256 commands are.
fn executes_all(buffer: &mut CommandBuffer) -> bool {
    for number in 0..256 {
        if !executes(buffer, number) {
            return false;
        }
    }
    true
}

/// Whether numbers are answered as above.
fn answers(buffer: &mut CommandBuffer) -> bool {
    let mut so = true;
    for (number, settled, want) in OFFERS {
        so = buffer.offer(*number, *settled) == *want && so;
    }
    so
}

#[test]
fn offers_with_all_results_kept(rt: HostRuntime) -> Result<(), AllocError> {
    let mut buffer = CommandBuffer::new(rt.alloc())?;
    let answered = executes_all(&mut buffer) && answers(&mut buffer);
    let counts = (buffer.kept(), buffer.executed());
    drop(buffer);
    assert!(rt; answered && counts == (0, 256));
    Ok(())
}

/// Port 2 went down.
const PORT_DOWN: Happening = Happening::PortStatus(PortStatus {
    reason: 2,
    port: 2,
    up: false,
});

/// Whether the next event has this number.
fn posts(buffer: &mut EventBuffer, number: u64) -> bool
    requires { number < 256 }
{
    buffer.next_number() == number && buffer.post(PORT_DOWN) == Ok(number)
}

/// Whether the buffer takes 256 events.
fn fills(buffer: &mut EventBuffer) -> bool {
    for number in 0..256 {
        if !posts(buffer, number) {
            return false;
        }
    }
    buffer.held().len() == MOST_HELD && buffer.is_full()
}

/// Whether a later one gets no number.
fn is_over(buffer: &mut EventBuffer) -> bool {
    buffer.next_number() == 256
        && buffer.post(PORT_DOWN) == Err(Full)
        && buffer.next_number() == 256
}

/// Whether a port is remembered until there is room.
fn remembers(buffer: &mut EventBuffer) -> Result<bool, AllocError> {
    buffer.mark_dirty(48);
    buffer.mark_dirty(2);
    let has_room = buffer.clear(1) == 1 && !buffer.is_full();
    buffer.forget_dirty(2);
    Ok(has_room && buffer.dirty()?.as_slice() == [48].as_slice() && buffer.items()?.len() == 255)
}

/// The buffer takes 256 events. A later one gets no number; its port is remembered until there is room.
#[test]
fn remembers_a_port_at_a_full_buffer(rt: HostRuntime) -> Result<(), AllocError> {
    let mut buffer = EventBuffer::new(rt.alloc(), 0, 0)?;
    let filled = fills(&mut buffer) && is_over(&mut buffer);
    let remembered = remembers(&mut buffer);
    drop(buffer);
    assert!(rt; filled && remembered == Ok(true));
    Ok(())
}
