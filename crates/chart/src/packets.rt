//! The arrows of a journal.
ghost use Rattle.std.specs.Prelude.{◌≡◌, ◌<◌, ◌^◌, ℕ, List, length, IfOk, OnOk};
ghost use Rattle.std.specs.BTreeMap.{get};
ghost use Rattle.std.specs.Option.{option_map, option_or};
ghost use Rattle.std.specs.Ordering.{nat_cmp};
ghost use Rattle.journal.specs.Pool.{numbered_letters, past};
ghost use Rattle.report.specs.Records.{ByteEntry};
ghost use Rattle.chart.specs.Arrows.{arrow_of, arrow_to as arrow_in, arrows as arrows_of, packets_posted, sent as newest, sent_among};

use crate::bodies::carried;
use crate::shapes::{Arrow, End};
use journal::{Actor, JournalEntry, Letter};
use of_types::{Items, Octets};
use std::alloc::{AllocError, Global};
use std::collections::BTreeMap;

/// What is known of a packet: the place of its post, who posted it, and its body.
#[derive(Drop)]
pub struct Sent {
    pub place: usize,
    pub sender: Actor,
    pub body: Octets,
}

/// Notes letters that are posted at a place, of which the first has this number.
fn note_letters(
    sent: &mut BTreeMap<u128, Sent>,
    place: usize,
    sender: Actor,
    first: u64,
    letters: &[Letter<Octets>],
) -> Result<(), AllocError>
    ensures { OnOk result ((id : ℕ) → get nat_cmp sent.new id ≡ option_or (sent_among id place (numbered_letters first sender letters.now)) (get nat_cmp sent.old id)) }
{
    'letters: for (index, letter) in letters.iter().enumerate() {
        let id = u128::from(first) + index as u128;
        let body = letter.body.copy()?;
        sent.insert(
            id,
            Sent {
                place,
                sender,
                body,
            },
        )?;
    }
    Ok(())
}

/// Notes the packets that an entry at a place posts and that find room.
fn note_posted(
    sent: &mut BTreeMap<u128, Sent>,
    place: usize,
    entry: &JournalEntry<Octets>,
) -> Result<(), AllocError>
    ensures { OnOk result ((id : ℕ) → get nat_cmp sent.new id ≡ option_or (sent_among id place (packets_posted entry.now)) (get nat_cmp sent.old id)) }
{
    match entry {
        JournalEntry::Post {
            actor,
            first,
            letters,
            lost,
        } => {
            let fitting = letters.len().saturating_sub(*lost as usize);
            note_letters(sent, place, *actor, *first, &letters.as_slice()[..fitting])?;
            Ok(())
        }
        _ => Ok(()),
    }
}

/// The arrow of a packet that an actor draws or loses at a place, if its post was noted.
fn arrow_from(
    alloc: Global,
    sent: &BTreeMap<u128, Sent>,
    ended: usize,
    receiver: Actor,
    id: u64,
    end: End,
) -> Result<Option<Arrow>, AllocError>
    ensures { IfOk result (λ arrow. arrow ≡ option_map (arrow_of ended receiver id end) (get nat_cmp sent.now id)) }
{
    let Some(found) = sent.get(&u128::from(id)) else {
        return Ok(None);
    };
    let carried = carried(alloc, found.sender, receiver, found.body.as_slice())?;
    Ok(Some(Arrow {
        id,
        sender: found.sender,
        receiver,
        carried,
        posted: found.place,
        ended,
        end,
    }))
}

/// The arrow that an entry at a place ends, if the post of its packet was noted.
fn arrow_to(
    alloc: Global,
    sent: &BTreeMap<u128, Sent>,
    place: usize,
    entry: &JournalEntry<Octets>,
) -> Result<Option<Arrow>, AllocError>
    ensures { (before : List ByteEntry) → length before ≡ place → ((id : ℕ) → get nat_cmp sent.now id ≡ newest id before) → IfOk result (λ arrow. arrow ≡ arrow_in entry.now before) }
{
    match *entry {
        JournalEntry::Draw { actor, id, keep } => {
            let end = if keep { End::Kept } else { End::Drawn };
            arrow_from(alloc, sent, place, actor, id, end)
        }
        JournalEntry::Lose { actor, id } => arrow_from(alloc, sent, place, actor, id, End::Lost),
        _ => Ok(None),
    }
}

/// One arrow for each entry that draws or loses a packet whose post is among the entries before it, in the order of
/// these entries.
pub fn arrows(alloc: Global, shown: &[JournalEntry<Octets>]) -> Result<Items<Arrow>, AllocError>
    ensures { IfOk result (λ arrows. arrows ≡ arrows_of (past shown.now)) }
{
    let mut sent = BTreeMap::new(alloc);
    let mut arrows = Items::new(alloc);
    'entries: for (place, entry) in shown.iter().enumerate() {
        if let Some(arrow) = arrow_to(alloc, &sent, place, entry)? {
            arrows.push(arrow)?;
        }
        note_posted(&mut sent, place, entry)?;
    }
    Ok(arrows)
}
