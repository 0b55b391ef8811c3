//! An actor goes on to its next step.
ghost use Rattle.std.specs.Prelude.{◌≡◌, Option, Some, None, [], List, drop, IfOk, IfErr, IsSome, IfSome};
ghost use Rattle.journal.specs.Places.{IsFound, packet_at};
ghost use Rattle.journal.specs.Pool.{past, pick};
ghost use Rattle.journal.specs.Turns.{turn_actor, turn_entries};
ghost use Rattle.journal.specs.declared.journal.Turn.TheVariants as turn;
ghost use Rattle.shared_wire.specs.Calls.{Adds};
ghost use Rattle.shared_wire.specs.Places.{IsSamePlace};
ghost use Rattle.running.specs.Hearing.{Advances, StopsAt};

use journal::{Local, Mailbag, PacketPlace, Stop, Turn};
use players::{Body, Player, heard};
use shared_wire::{Board, Place};
use std::alloc::Global;
use std::sync::Wait;
use world::fits_types;

/// Posts what an actor owes and goes on to its next step, in one exchange of the wire. Tells what it hears there. (A body is
/// copied in an exchange of its own, which adds nothing.)
pub fn next_input<P: Player, B: Body, R: Wait>(
    rt: &R,
    alloc: Global,
    board: &Board<B>,
    place: &mut Place<B>,
    owed: &mut Mailbag<B>,
    step: &Turn,
) -> Result<Option<P::Input>, Stop>
    requires board { place.old.board ≡ board.now.id }
    requires mine { turn_actor step.now ≡ place.old.actor }
    ensures place { IsSamePlace place.old place.new }
    ensures owed { IfOk result (λ _. owed.new ≡ []) }
    ensures ok { IfOk result (Advances B.sealing P.hears P.locally place.old place.new owed.old step.now) }
    ensures err { IfErr result (StopsAt B.sealing.size place.old place.new owed.old owed.new) }
{
    match step {
        Turn::Draw { choice, keep, .. } => {
            draws::<P, B, R>(rt, alloc, board, place, owed, *choice, *keep)
        }
        Turn::Lose { choice, .. } => loses::<P, B, R>(rt, board, place, owed, *choice),
        Turn::Local { input, .. } => takes_local::<P, B, R>(rt, board, place, owed, input),
    }
}

/// Posts what is owed and draws, in one exchange. At a refusal it is owed as before.
fn draw_next<B: Body, R: Wait>(
    rt: &R,
    board: &Board<B>,
    place: &mut Place<B>,
    owed: &mut Mailbag<B>,
    choice: u64,
    keep: bool,
) -> Result<Option<PacketPlace>, Stop>
    requires { place.old.board ≡ board.now.id }
    ensures place { IsSamePlace place.old place.new }
    ensures owed { IfOk result (λ _. owed.new ≡ []) }
    ensures ok { IfOk result (λ _. Adds place.old place.new (turn_entries B.sealing.size owed.old (turn.Draw place.old.actor choice keep))) }
    ensures found { IfOk result (λ found. IsFound place.new.seen found (pick place.old.actor choice (drop 1 (past place.new.seen)))) }
    ensures err { IfErr result (StopsAt B.sealing.size place.old place.new owed.old owed.new) }
{
    let found = board.draw(rt, place, owed, choice, keep)?;
    owed.clear();
    Ok(found)
}

/// Posts what is owed, draws, and tells what the packet says.
fn draws<P: Player, B: Body, R: Wait>(
    rt: &R,
    alloc: Global,
    board: &Board<B>,
    place: &mut Place<B>,
    owed: &mut Mailbag<B>,
    choice: u64,
    keep: bool,
) -> Result<Option<P::Input>, Stop>
    requires { place.old.board ≡ board.now.id }
    ensures place { IsSamePlace place.old place.new }
    ensures owed { IfOk result (λ _. owed.new ≡ []) }
    ensures ok { IfOk result (Advances B.sealing P.hears P.locally place.old place.new owed.old (turn.Draw place.old.actor choice keep)) }
    ensures err { IfErr result (StopsAt B.sealing.size place.old place.new owed.old owed.new) }
{
    let Some(packet) = draw_next(rt, board, place, owed, choice, keep)? else {
        return Ok(None);
    };
    place.lawful();
    let mut letter = Mailbag::new(alloc);
    board.copy_letter(rt, place, packet, &mut letter)?;
    let input = heard::<P, B>(alloc, packet.from, packet.to, &letter, 0)?;
    Ok(Some(input))
}

/// Posts what is owed, and loses a packet.
fn loses<P: Player, B: Body, R: Wait>(
    rt: &R,
    board: &Board<B>,
    place: &mut Place<B>,
    owed: &mut Mailbag<B>,
    choice: u64,
) -> Result<Option<P::Input>, Stop>
    requires { place.old.board ≡ board.now.id }
    ensures place { IsSamePlace place.old place.new }
    ensures owed { IfOk result (λ _. owed.new ≡ []) }
    ensures ok { IfOk result (Advances B.sealing P.hears P.locally place.old place.new owed.old (turn.Lose place.old.actor choice)) }
    ensures err { IfErr result (StopsAt B.sealing.size place.old place.new owed.old owed.new) }
{
    let _ = board.lose(rt, place, owed, choice)?;
    owed.clear();
    Ok(None)
}

/// Posts what is owed, and takes a local input.
fn takes_local<P: Player, B: Body, R: Wait>(
    rt: &R,
    board: &Board<B>,
    place: &mut Place<B>,
    owed: &mut Mailbag<B>,
    input: &Local,
) -> Result<Option<P::Input>, Stop>
    requires { place.old.board ≡ board.now.id }
    ensures place { IsSamePlace place.old place.new }
    ensures owed { IfOk result (λ _. owed.new ≡ []) }
    ensures ok { IfOk result (Advances B.sealing P.hears P.locally place.old place.new owed.old (turn.Local place.old.actor input.now)) }
    ensures err { IfErr result (StopsAt B.sealing.size place.old place.new owed.old owed.new) }
{
    fits_types(input);
    let mine = P::take_local(input.copy()?);
    let its = input.copy()?;
    board.local(rt, place, owed, its)?;
    owed.clear();
    Ok(Some(mine))
}
