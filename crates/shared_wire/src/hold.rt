//! How a seat takes the wire and gives it back.
ghost use Rattle.std.specs.Prelude.{◌≡◌, [], ◌∷◌, None};
ghost use Rattle.shared_wire.specs.declared.rule.Known.{Known};
ghost use Rattle.shared_wire.specs.Rule.{holding, has_given, IsTrueOf};
ghost use Rattle.shared_wire.specs.Places.{IsFree, Grows};

use crate::rule::{Give, Take, WireSeat, WireTable};
use journal::{Weight, Wire};
use std::sync::Wait;

/// Waits for the wire, and takes it.
pub fn take_wire<B: Weight, R: Wait>(
    rt: &R,
    table: &WireTable<B>,
    seat: &mut WireSeat<B>,
) -> Wire<B>
    requires table { (table.now.table_id.words ≡ 1)
        × (table.now.table_id.slots ≡ 1)
        × (seat.old.table_id ≡ table.now.table_id) }
    requires free { (k : Known B) × IsFree k seat.old.me }
    ensures seat { (seat.new.table_id ≡ seat.old.table_id) × (seat.new.id ≡ seat.old.id) }
    ensures me { seat.new.me ≡ (holding seat.old.me.0 result, (0, None) ∷ []) }
    ensures known { (k : Known B) → IsFree k seat.old.me → IsTrueOf result k }
{
    for _ in rt.forever() {
        if table.compare_exchange::<Take>(seat, 0, 0, 1) == 0 {
            match table.exchange(seat, 0, None) {
                Some(wire) => return wire,
                None => unreachable!(),
            }
        }
        table.park(rt, 0, 1);
    }
    unreachable!()
}

/// Gives the wire back, and wakes one who waits for it. The journal may have grown by entries of the
/// actor that the seat knows.
pub fn give_wire<B: Weight>(table: &WireTable<B>, seat: &mut WireSeat<B>, wire: Wire<B>)
    requires table { (table.now.table_id.words ≡ 1)
        × (table.now.table_id.slots ≡ 1)
        × (seat.old.table_id ≡ table.now.table_id) }
    requires held { seat.old.me.1 ≡ (0, None) ∷ [] }
    requires grown { Grows seat.old.me wire }
    ensures seat { (seat.new.table_id ≡ seat.old.table_id) × (seat.new.id ≡ seat.old.id) }
    ensures me { seat.new.me ≡ (has_given seat.old.me.0 wire, []) }
{
    match table.exchange(seat, 0, Some(wire)) {
        None => {}
        Some(_) => unreachable!(),
    }
    table.store::<Give>(seat, 0, 0);
    table.wake_one(0);
}
