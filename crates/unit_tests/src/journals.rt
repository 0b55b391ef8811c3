ghost use Rattle.std.specs.Prelude.{◌≡◌, ◌++◌, OnOk, OnErr};

use journal::{Actor, Head, Letter, Mailbag, POOL_PACKETS, Stop, Weight, Wire};
use std::alloc::{AllocError, Global};

const CONTROLLER: Actor = Actor::Controller(0);

const SWITCH: Actor = Actor::Switch(2);

/// A body that says what it weighs.
#[derive(Clone, Copy)]
struct Stated {
    bytes: u64,
}

/// Adds copies of letters. An `Err` changes nothing.
fn copy_each(bag: &mut Vec<Letter<Stated>>, more: &[Letter<Stated>]) -> Result<(), AllocError>
    ensures ok { OnOk result (bag.new.items ≡ bag.old.items ++ more.now) }
    ensures err { OnErr result (bag.new.items ≡ bag.old.items) }
{
    bag.reserve(more.len())?;
    for each in more {
        bag.push_reserved(Letter {
            to: each.to,
            body: each.body,
        });
    }
    Ok(())
}

impl Weight for Stated {
    ghost size = { λ s. s.bytes };

    type Bag = Vec<Letter<Stated>>;

    ghost letters = { λ bag. bag.items };

    fn bag(alloc: Global) -> Vec<Letter<Stated>> {
        Vec::new(alloc)
    }

    fn make_room(_: &mut Vec<Letter<Stated>>) -> Result<(), AllocError> {
        Ok(())
    }

    fn count(bag: &Vec<Letter<Stated>>) -> usize {
        bag.len()
    }

    fn receiver(bag: &Vec<Letter<Stated>>, index: usize) -> Actor {
        bag[index].to
    }

    fn size_at(bag: &Vec<Letter<Stated>>, index: usize) -> u64 {
        bag[index].body.bytes
    }

    fn copy(
        bag: &mut Vec<Letter<Stated>>,
        from: &Vec<Letter<Stated>>,
        index: usize,
    ) -> Result<(), AllocError> {
        let (to, body) = (from[index].to, from[index].body);
        bag.push(Letter { to, body })?;
        Ok(())
    }

    fn repeat(bag: &mut Vec<Letter<Stated>>, to: Actor, index: usize) -> Result<(), AllocError> {
        let body = bag[index].body;
        bag.push(Letter { to, body })?;
        Ok(())
    }

    fn append(bag: &mut Vec<Letter<Stated>>, more: &Vec<Letter<Stated>>) -> Result<(), AllocError> {
        copy_each(bag, more.as_slice())
    }

    fn truncate(bag: &mut Vec<Letter<Stated>>, count: usize) {
        bag.truncate(count);
    }

    fn into_letters(bag: Vec<Letter<Stated>>) -> Result<Vec<Letter<Stated>>, AllocError> {
        Ok(bag)
    }
}

/// So many letters to a switch, of so many bytes each.
fn letters(alloc: Global, count: usize, bytes: u64) -> Result<Mailbag<Stated>, AllocError> {
    let mut letters = Vec::with_capacity(alloc, count)?;
    for _ in 0..count {
        let body = Stated { bytes };
        letters.push(Letter { to: SWITCH, body })?;
    }
    Ok(Mailbag::from_bag(letters))
}

/// The kind of an entry, as one character, and how many letters are lost.
pub(crate) fn kind_of(entry: &Head) -> (u8, u64) {
    match entry {
        Head::Post { lost, .. } => (b'P', *lost),
        Head::Draw { .. } => (b'D', 0),
        Head::Lose { .. } => (b'L', 0),
        Head::Local { .. } => (b'T', 0),
        Head::Idle { .. } => (b'I', 0),
        Head::Refused { .. } => (b'R', 0),
    }
}

/// How many letters are lost, where an entry tells of posting.
fn lost_at(entry: &Head) -> Option<u64> {
    match kind_of(entry) {
        (b'P', lost) => Some(lost),
        _ => None,
    }
}

/// Posts so many letters of one byte, and tells how many of them are lost.
fn posts(alloc: Global, wire: &mut Wire<Stated>, count: usize) -> Result<Option<u64>, AllocError> {
    let letters = letters(alloc, count, 1)?;
    let posted = wire.post(CONTROLLER, &letters).is_ok();
    match wire.heads().last() {
        Some(last) if posted => Ok(lost_at(last)),
        _ => Ok(None),
    }
}

/// Draws the packet at a place, and tells its number.
fn draws(alloc: Global, wire: &mut Wire<Stated>, choice: u64, keep: bool) -> Option<u64> {
    match wire.draw(SWITCH, &Mailbag::new(alloc), choice, keep) {
        Ok(Some(place)) => Some(place.id),
        _ => None,
    }
}

/// Whether the last of the letters are lost, where there is room for one less than are posted at first.
fn loses_the_last(alloc: Global, wire: &mut Wire<Stated>) -> Result<bool, AllocError> {
    Ok(posts(alloc, wire, POOL_PACKETS - 1)? == Some(0) && posts(alloc, wire, 3)? == Some(2))
}

/// Whether one that is drawn makes room for one, whose number is behind those of the lost.
fn goes_on(alloc: Global, wire: &mut Wire<Stated>) -> Result<bool, AllocError> {
    Ok(
        draws(alloc, wire, 32_767, false) == Some(32_767)
            && posts(alloc, wire, 2)? == Some(1)
            && draws(alloc, wire, 32_767, true) == Some(32_770),
    )
}

/// What passes the most packets is lost, and its numbers are used all the same.
#[test]
fn a_full_pool(rt: HostRuntime) -> Result<(), AllocError> {
    let alloc = rt.alloc();
    let mut wire = Wire::new(alloc);
    let lost = loses_the_last(alloc, &mut wire);
    let goes_on = goes_on(alloc, &mut wire);
    drop(wire);
    assert!(rt; lost? && goes_on?);
    Ok(())
}

/// The refusal of a letter that passes the most bytes. A run reaches the most letters first.
const FULL: Stop = Stop::JournalFull {
    bytes: 67_108_865,
    letters: 2,
};

/// Letters of so many bytes, and how each is refused behind those that were taken.
const WEIGHTS: &[(u64, Option<Stop>)] = &[(67_108_863, None), (2, Some(FULL)), (1, None)];

/// How a letter of so many bytes is refused.
fn refusal(alloc: Global, wire: &mut Wire<Stated>, bytes: u64) -> Result<Option<Stop>, AllocError> {
    match wire.post(CONTROLLER, &letters(alloc, 1, bytes)?) {
        Ok(()) => Ok(None),
        Err(stop) => Ok(Some(stop)),
    }
}

/// Whether these rows are answered so.
fn are_answered(alloc: Global, wire: &mut Wire<Stated>) -> Result<bool, AllocError> {
    let mut so = true;
    for (bytes, refused) in WEIGHTS {
        so = refusal(alloc, wire, *bytes)? == *refused && so;
    }
    Ok(so)
}

#[test]
fn a_full_journal(rt: HostRuntime) {
    let mut wire = Wire::new(rt.alloc());
    let answered = are_answered(rt.alloc(), &mut wire);
    let entries = wire.len();
    drop(wire);
    assert!(rt; answered == Ok(true) && entries == 2);
}

/// Posts until it is taken. Whether it is at last, and each refusal is of memory and changes nothing.
fn post_at_last(wire: &mut Wire<Stated>, post: &Mailbag<Stated>) -> bool {
    for _ in 0..8usize {
        let before = (wire.len(), wire.first());
        match wire.post(CONTROLLER, post) {
            Ok(()) => return true,
            Err(stop) => {
                let after = (wire.len(), wire.first());
                if stop != Stop::OutOfMemory || after != before {
                    return false;
                }
            }
        }
    }
    false
}

/// Whether two letters at a time are posted at last, six times.
fn posts_twelve(alloc: Global, wire: &mut Wire<Stated>) -> Result<bool, AllocError> {
    for _ in 0..6usize {
        if !post_at_last(wire, &letters(alloc, 2, 1)?) {
            return Ok(false);
        }
    }
    Ok(true)
}

/// Whether these are drawn in their order, and are all.
fn draws_twelve(alloc: Global, wire: &mut Wire<Stated>) -> bool {
    for id in 0..12 {
        if draws(alloc, wire, 0, false) != Some(id) {
            return false;
        }
    }
    wire.first().is_none()
}

/// What this shows is seen where each allocation in turn is made to fail.
#[test]
fn refused_memory_changes_nothing(rt: HostRuntime) -> Result<(), AllocError> {
    let alloc = rt.alloc();
    let mut wire = Wire::new(alloc);
    let posted = posts_twelve(alloc, &mut wire);
    let drawn = draws_twelve(alloc, &mut wire);
    drop(wire);
    assert!(rt; posted? && drawn);
    Ok(())
}
