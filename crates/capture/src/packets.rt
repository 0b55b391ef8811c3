//! The packets of a journal.
ghost use Rattle.std.specs.Prelude.{◌≡◌, ◌+◌, ◌++◌, ◌∷◌, [], ℕ, nat_lt, IfOk, OnOk};
ghost use Rattle.std.specs.BTreeMap.{get};
ghost use Rattle.std.specs.Ordering.{nat_cmp};
ghost use Rattle.capture_laws.specs.Packets.{captured as captured_of, frame_at, with_packets_of_entry, with_frame, with_letter, with_packets_of_post};
ghost use Rattle.capture_laws.specs.Fates.{comment_of};
ghost use Rattle.capture.specs.Tapes.{IsTape};

use crate::fates::{comment, fates};
use crate::tapes::{Heading, Tape, add_body};
use capture_laws::{Captured, Fate, Piece, Port, Way};
use journal::{Actor, JournalEntry, Letter, Local};
use of_bytes::u32_at;
use of_types::{Items, Octets};
use std::alloc::{AllocError, Global};
use std::collections::BTreeMap;

/// A post: when and by whom, the number of its first letter, and how many of its letters find room.
#[derive(Clone, Copy)]
struct Posting {
    time: u64,
    from: Actor,
    first: u64,
    room: usize,
}

/// How many bytes the number of a port has in front of a frame on a link.
const PORT: usize = 4;

/// The packets of a journal, each behind those posted before it. Their payloads stay where they are.
#[tactic(auto, unfolding(capture_laws::specs::Packets::captured))]
pub fn captured<'a>(
    alloc: Global,
    journal: &'a [JournalEntry<Octets>],
) -> Result<Items<Captured<'a>>, AllocError>
    ensures { IfOk result (λ packets. packets ≡ captured_of journal.now) }
{
    let fates = fates(alloc, journal)?;
    let mut tape = Tape {
        next: BTreeMap::new(alloc),
        packets: Items::new(alloc),
    };
    'entries: for (place, entry) in journal.iter().enumerate() {
        add_entry(&mut tape, alloc, &fates, place as u64 + 1, entry)?;
    }
    Ok(tape.packets)
}

/// Adds what an entry posts, or a frame from a host.
#[tactic(auto, unfolding(capture_laws::specs::Packets::with_packets_of_entry))]
fn add_entry<'a>(
    tape: &mut Tape<'a>,
    alloc: Global,
    fates: &BTreeMap<u128, Fate>,
    time: u64,
    entry: &'a JournalEntry<Octets>,
) -> Result<(), AllocError>
    requires { IsTape tape.old }
    ensures counted { OnOk result (IsTape tape.new) }
    ensures added { OnOk result (tape.new.packets ≡ with_packets_of_entry (get nat_cmp fates.now) time entry.now tape.old.packets) }
{
    match entry {
        JournalEntry::Post {
            actor,
            first,
            letters,
            lost,
        } => {
            let posting = Posting {
                time,
                from: *actor,
                first: *first,
                room: letters.len().saturating_sub(*lost as usize),
            };
            add_letters(tape, alloc, fates, posting, letters.as_slice())
        }
        JournalEntry::Local {
            actor: Actor::Switch(switch),
            input: Local::Frame { port, bytes },
        } => {
            let port = Port {
                switch: *switch,
                port: *port,
            };
            push_frame(&mut tape.packets, alloc, time, port, &[], bytes.as_slice())?;
            Ok(())
        }
        _ => Ok(()),
    }
}

/// Adds the letters of a post.
fn add_letters<'a>(
    tape: &mut Tape<'a>,
    alloc: Global,
    fates: &BTreeMap<u128, Fate>,
    posting: Posting,
    letters: &'a [Letter<Octets>],
) -> Result<(), AllocError>
    requires { IsTape tape.old }
    ensures counted { OnOk result (IsTape tape.new) }
    ensures added { OnOk result (tape.new.packets
        ≡ with_packets_of_post (get nat_cmp fates.now) posting.time posting.from posting.first posting.room 0 letters.now tape.old.packets) }
{
    'letters: for (index, letter) in letters.iter().enumerate() {
        add_numbered(tape, alloc, fates, posting, index, letter)?;
    }
    Ok(())
}

/// Adds the letter at a place of a post.
fn add_numbered<'a>(
    tape: &mut Tape<'a>,
    alloc: Global,
    fates: &BTreeMap<u128, Fate>,
    posting: Posting,
    index: usize,
    letter: &'a Letter<Octets>,
) -> Result<(), AllocError>
    requires { IsTape tape.old }
    ensures counted { OnOk result (IsTape tape.new) }
    ensures added { OnOk result (tape.new.packets ≡ with_letter posting.time posting.from letter.now.to
        (comment_of (posting.first + index) (nat_lt index posting.room) (get nat_cmp fates.now (posting.first + index))) letter.now.body tape.old.packets) }
{
    let id = u128::from(posting.first) + index as u128;
    let comment = comment(alloc, fates, id, index < posting.room)?;
    let heading = Heading {
        time: posting.time,
        from: posting.from,
        to: letter.to,
    };
    add_letter(
        tape,
        alloc,
        heading,
        comment.as_slice(),
        letter.body.as_slice(),
    )?;
    Ok(())
}

/// Adds a letter.
#[tactic(auto, unfolding(capture_laws::specs::Packets::with_letter))]
fn add_letter<'a>(
    tape: &mut Tape<'a>,
    alloc: Global,
    heading: Heading,
    comment: &[u8],
    body: &'a [u8],
) -> Result<(), AllocError>
    requires { IsTape tape.old }
    ensures counted { OnOk result (IsTape tape.new) }
    ensures added { OnOk result (tape.new.packets ≡ with_letter heading.time heading.from heading.to comment.now body.now tape.old.packets) }
{
    match (heading.from, heading.to) {
        (Actor::Switch(_), Actor::Switch(switch)) => {
            add_frame(
                &mut tape.packets,
                alloc,
                heading.time,
                switch,
                comment,
                body,
            )?;
            Ok(())
        }
        _ => add_body(tape, alloc, heading, comment, body),
    }
}

/// Adds a letter on a link, which names the port that takes it in before its frame.
fn add_frame<'a>(
    packets: &mut Items<Captured<'a>>,
    alloc: Global,
    time: u64,
    switch: u8,
    comment: &[u8],
    body: &'a [u8],
) -> Result<(), AllocError>
    ensures { OnOk result (packets.new ≡ with_frame time switch comment.now body.now packets.old) }
{
    if body.len() >= PORT {
        let port = Port {
            switch,
            port: u32_at(body, 0),
        };
        push_frame(packets, alloc, time, port, comment, &body[PORT..])?;
    }
    Ok(())
}

/// Adds a frame at a port that takes it in.
fn push_frame<'a>(
    packets: &mut Items<Captured<'a>>,
    alloc: Global,
    time: u64,
    port: Port,
    comment: &[u8],
    bytes: &'a [u8],
) -> Result<(), AllocError>
    ensures { OnOk result (packets.new ≡ packets.old ++ frame_at time port.switch port.port comment.now bytes.now ∷ []) }
{
    let comment = Octets::from_slice(alloc, comment)?;
    packets.push(Captured {
        time,
        way: Way::Frame(port),
        payload: Piece::new(bytes),
        comment,
    })?;
    Ok(())
}
