ghost use Rattle.std.specs.Prelude.{◌≡◌, ◌∷◌, [], IfOk};
ghost use Rattle.journal.specs.declared.journal.Actor.TheVariants as actor;
ghost use Rattle.shared_wire.specs.Places.{fresh, IsSamePlace};

use crate::journals::kind_of;
use journal::{Actor, Head, Local, Mailbag, Wire};
use of_types::Octets;
use shared_wire::{Board, Place};
use std::alloc::{AllocError, Global};
use std::sync::Wait;
use std::sync::atomic::{AtomicU64, Ordering};
use std::thread;

/// A board of a controller and a switch, with their places.
fn board_of_two(alloc: Global) -> Result<(Board<Octets>, Place<Octets>, Place<Octets>), AllocError>
    ensures actors { IfOk result (λ r. r.0.actors ≡ actor.Controller 0 ∷ actor.Switch 0 ∷ []) }
    ensures first { IfOk result (λ r. r.1 ≡ fresh r.0.id (actor.Controller 0)) }
    ensures second { IfOk result (λ r. r.2 ≡ fresh r.0.id (actor.Switch 0)) }
{
    let actors = [Actor::Controller(0), Actor::Switch(0)];
    let (board, mut places) = Board::new(alloc, &actors)?;
    let (Some(second), Some(first)) = (places.pop(), places.pop()) else {
        unreachable!()
    };
    Ok((board, first, second))
}

/// Ends the board of a controller and a switch.
fn close_two(
    board: Board<Octets>,
    first: Place<Octets>,
    second: Place<Octets>,
    alloc: Global,
) -> Result<Wire<Octets>, AllocError>
    requires actors { board.actors ≡ actor.Controller 0 ∷ actor.Switch 0 ∷ [] }
    requires first { (first.actor ≡ actor.Controller 0) × (first.board ≡ board.id) }
    requires second { (second.actor ≡ actor.Switch 0) × (second.board ≡ board.id) }
{
    let mut places = Vec::with_capacity(alloc, 2)?;
    places.push_reserved(first);
    places.push_reserved(second);
    Ok(board.close(places))
}

/// What the letters of these tests say.
const HELLO: &[u8] = b"hello";

/// A letter that says so.
fn hello(alloc: Global, to: Actor) -> Result<Mailbag<Octets>, AllocError> {
    let mut post = Mailbag::new(alloc);
    post.write(to, |body| body.append(HELLO))?;
    Ok(post)
}

/// Posts an outbox and draws, and tells whether the packet that was found, if one was, is from an actor and says hello.
fn reads<R: Wait>(
    rt: &R,
    alloc: Global,
    board: &Board<Octets>,
    place: &mut Place<Octets>,
    post: &Mailbag<Octets>,
    from: Actor,
    keep: bool,
) -> Result<Option<bool>, AllocError>
    requires { place.old.board ≡ board.now.id }
    ensures { IsSamePlace place.old place.new }
{
    match board.draw(rt, place, post, 7, keep) {
        Ok(Some(packet)) => {
            let mut letter = Mailbag::new(alloc);
            board.copy_letter(rt, place, packet, &mut letter)?;
            let said = letter.len() == 1 && letter.bytes(0) == HELLO;
            Ok(Some(said && packet.from.is(from)))
        }
        Ok(None) => Ok(None),
        Err(_) => Err(AllocError),
    }
}

/// Whether a place loses the first packet.
fn loses_first<R: Wait>(
    rt: &R,
    alloc: Global,
    board: &Board<Octets>,
    place: &mut Place<Octets>,
) -> bool
    requires { place.old.board ≡ board.now.id }
    ensures { IsSamePlace place.old place.new }
{
    match board.lose(rt, place, &Mailbag::new(alloc), 3) {
        Ok(Some(packet)) => packet.id == 0,
        _ => false,
    }
}

/// Whether a controller's letter is there once it is posted, is read and stays, and is lost; and a controller may tick.
fn letter_passes<R: Wait>(
    rt: &R,
    alloc: Global,
    board: &Board<Octets>,
    controller: &mut Place<Octets>,
    switch: &mut Place<Octets>,
) -> Result<bool, AllocError>
    requires controller { controller.old.board ≡ board.now.id }
    requires switch { switch.old.board ≡ board.now.id }
    ensures controller { IsSamePlace controller.old controller.new }
    ensures switch { IsSamePlace switch.old switch.new }
{
    let post = hello(alloc, Actor::Switch(0))?;
    let empty = Mailbag::new(alloc);
    let from = Actor::Controller(0);
    let nothing = reads(rt, alloc, board, switch, &empty, from, false);
    let posted = board.post(rt, controller, &post).is_ok();
    let read = reads(rt, alloc, board, switch, &empty, from, true);
    let lost = loses_first(rt, alloc, board, switch);
    let ticked = board.local(rt, controller, &empty, Local::Tick).is_ok();
    Ok(nothing == Ok(None) && posted && read == Ok(Some(true)) && lost && ticked)
}

/// Whether two places are those of the controller and the switch.
fn are_named(controller: &Place<Octets>, switch: &Place<Octets>) -> bool {
    controller.actor().is(Actor::Controller(0)) && switch.actor().is(Actor::Switch(0))
}

/// Whether the entry at a place is of this kind.
fn is_of_kind(entries: &[Head], place: usize, kind: u8) -> bool {
    match entries.get(place) {
        Some(entry) => kind_of(entry).0 == kind,
        None => false,
    }
}

/// Whether these are entries of these kinds.
fn are_of_kinds(entries: &[Head], kinds: &[u8]) -> bool {
    for place in 0..kinds.len() {
        if !is_of_kind(entries, place, kinds[place]) {
            return false;
        }
    }
    entries.len() == kinds.len()
}

/// Whether a wire tells of these turns, and has no packet left.
fn tells_of_all(wire: &Wire<Octets>) -> bool {
    are_of_kinds(wire.heads(), b"IPDLT") && wire.first().is_none()
}

#[test]
fn a_letter_is_read_back(rt: HostRuntime) -> Result<(), AllocError> {
    let alloc = rt.alloc();
    let (board, mut controller, mut switch) = board_of_two(alloc)?;
    let passed = letter_passes(&rt, alloc, &board, &mut controller, &mut switch);
    let named = are_named(&controller, &switch);
    let wire = close_two(board, controller, switch, alloc)?;
    let told = tells_of_all(&wire);
    drop(wire);
    assert!(rt; passed == Ok(true) && named && told);
    Ok(())
}

/// How often a thread looks for the other's flag.
const LOOKS: u64 = 50_000_000;

/// How many turns a thread takes before it raises its flag, and after.
const TURNS: usize = 1000;

/// Whether a flag is seen.
fn sees(flag: &AtomicU64) -> bool {
    for _ in 0..LOOKS {
        if flag.load(Ordering::SeqCst) == 1 {
            return true;
        }
    }
    false
}

/// Posts letters one by one, draws behind each, and tells whether each body that was found is that of the other's letters.
fn draws<R: Wait>(
    rt: &R,
    alloc: Global,
    board: &Board<Octets>,
    place: &mut Place<Octets>,
    to: Actor,
) -> Result<bool, AllocError>
    requires { place.old.board ≡ board.now.id }
    ensures { IsSamePlace place.old place.new }
{
    for _ in 0..TURNS {
        let post = hello(alloc, to)?;
        if reads(rt, alloc, board, place, &post, to, false)? == Some(false) {
            return Ok(false);
        }
    }
    Ok(true)
}

/// Draws, raises a flag, looks for the other's, and draws.
fn meets<R: Wait>(
    rt: &R,
    alloc: Global,
    board: &Board<Octets>,
    mut place: Place<Octets>,
    to: Actor,
    mine: &AtomicU64,
    theirs: &AtomicU64,
) -> (bool, Place<Octets>)
    requires { place.board ≡ board.now.id }
    ensures { IsSamePlace place result.1 }
{
    let before = draws(rt, alloc, board, &mut place, to);
    mine.store(1, Ordering::SeqCst);
    let seen = sees(theirs);
    let after = draws(rt, alloc, board, &mut place, to);
    (
        matches!((before, after), (Ok(true), Ok(true))) && seen,
        place,
    )
}

#[test]
fn two_threads_meet(rt: HostRuntime) -> Result<(), AllocError> {
    let alloc = rt.alloc();
    let (board, controller, switch) = board_of_two(alloc)?;
    let (a, b) = (AtomicU64::new(0), AtomicU64::new(0));
    let (first, second) = thread::join(
        &rt,
        || meets(&rt, alloc, &board, controller, Actor::Switch(0), &a, &b),
        || meets(&rt, alloc, &board, switch, Actor::Controller(0), &b, &a),
    );
    let met = first.0 && second.0;
    let wire = close_two(board, first.1, second.1, alloc)?;
    let entries = wire.len();
    drop(wire);
    assert!(rt; met && entries == 8 * TURNS);
    Ok(())
}
