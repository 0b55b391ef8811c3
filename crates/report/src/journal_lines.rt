//! The lines of a journal as they are read.
ghost use Rattle.std.specs.Prelude.{◌≡◌};
ghost use Rattle.report.specs.Lines.{GivesLines, each_at};
ghost use Rattle.report.specs.OneLine.{post_line_at, draw_at, lose_at, idle_at, frame_in_text, port_at, suspect_at, bare_at, input_at, letter_at, local_at, short_entry_at};
ghost use Rattle.report.specs.Reading.{post_at, journal_entry_at, journal_at};
ghost use Rattle.report.specs.Spelled.{GivesText};

use crate::counted::{CountedLine, read_each};
use crate::fault::{Broken, Misfit, on_line};
use crate::reading::FromJournal;
use crate::spelled::{actor, after, ended, flag, hex, known, number32, number64};
use journal::{Actor, Journal, JournalEntry, Letter, Letters, Local};
use of_types::{Items, Octets};
use std::alloc::Global;

impl CountedLine for Letter<Octets> {
    ghost line_at = { λ switch bytes. letter_at bytes };

    #[tactic(auto, unfolding(crate::specs::OneLine::letter_at))]
    fn read_line(
        alloc: Global,
        _switch: usize,
        bytes: &[u8],
    ) -> Result<(Letter<Octets>, &[u8]), Misfit> {
        let rest = after(b"letter", bytes)?;
        let (to, rest) = actor(rest)?;
        let (body, rest) = hex(alloc, rest)?;
        ended(Letter { to, body }, rest)
    }
}

/// The line of a post: who posted, the number of its first letter, how many letters follow, and how many were lost.
#[derive(Drop)]
pub struct PostLine {
    actor: Actor,
    first: u64,
    pub count: u64,
    lost: u64,
}

#[tactic(auto, unfolding(crate::specs::OneLine::post_line_at))]
pub fn post_line(bytes: &[u8]) -> Result<(PostLine, &[u8]), Misfit>
    ensures { GivesText (λ x. (x.0, x.1.now)) result (post_line_at bytes.now) }
{
    let rest = after(b"post", bytes)?;
    let (actor, rest) = actor(rest)?;
    let (first, rest) = number64(rest)?;
    let (count, rest) = number64(rest)?;
    let (lost, rest) = number64(rest)?;
    ended(
        PostLine {
            actor,
            first,
            count,
            lost,
        },
        rest,
    )
}

/// The letters of a post.
#[tactic(auto, unfolding(crate::specs::Lines::each_at))]
fn letters(alloc: Global, count: u64, bytes: &[u8]) -> Result<(Letters<Octets>, &[u8]), Broken>
    ensures { GivesLines (λ x. (x.0, x.1.now)) result (each_at letter_at count bytes.now) }
{
    if count == 1 {
        let (letter, rest) = on_line(bytes, Letter::read_line(alloc, 0, bytes))?;
        return Ok((Letters::one(letter), rest));
    }
    let (each, rest) = read_each(alloc, 0, count, bytes)?;
    Ok((Letters::from_vec(each.into_vec()), rest))
}

#[tactic(auto, unfolding(crate::specs::Reading::post_at))]
fn post(alloc: Global, bytes: &[u8]) -> Result<(JournalEntry<Octets>, &[u8]), Broken>
    ensures { GivesLines (λ x. (x.0, x.1.now)) result (post_at bytes.now) }
{
    let (line, rest) = on_line(bytes, post_line(bytes))?;
    let PostLine {
        actor,
        first,
        count,
        lost,
    } = line;
    let (letters, rest) = letters(alloc, count, rest)?;
    Ok((
        JournalEntry::Post {
            actor,
            first,
            letters,
            lost,
        },
        rest,
    ))
}

#[tactic(auto, unfolding(crate::specs::OneLine::draw_at))]
fn draw(bytes: &[u8]) -> Result<(JournalEntry<Octets>, &[u8]), Misfit>
    ensures { GivesText (λ x. (x.0, x.1.now)) result (draw_at bytes.now) }
{
    let rest = after(b"draw", bytes)?;
    let (actor, rest) = actor(rest)?;
    let (id, rest) = number64(rest)?;
    let (keep, rest) = flag(rest)?;
    ended(JournalEntry::Draw { actor, id, keep }, rest)
}

#[tactic(auto, unfolding(crate::specs::OneLine::lose_at))]
fn lose(bytes: &[u8]) -> Result<(JournalEntry<Octets>, &[u8]), Misfit>
    ensures { GivesText (λ x. (x.0, x.1.now)) result (lose_at bytes.now) }
{
    let rest = after(b"lose", bytes)?;
    let (actor, rest) = actor(rest)?;
    let (id, rest) = number64(rest)?;
    ended(JournalEntry::Lose { actor, id }, rest)
}

#[tactic(auto, unfolding(crate::specs::OneLine::idle_at))]
fn idle(bytes: &[u8]) -> Result<(JournalEntry<Octets>, &[u8]), Misfit>
    ensures { GivesText (λ x. (x.0, x.1.now)) result (idle_at bytes.now) }
{
    let rest = after(b"idle", bytes)?;
    let (actor, rest) = actor(rest)?;
    ended(JournalEntry::Idle { actor }, rest)
}

#[tactic(auto, unfolding(crate::specs::OneLine::frame_in_text))]
fn frame(alloc: Global, bytes: &[u8]) -> Result<(Local, &[u8]), Misfit>
    ensures { GivesText (λ x. (x.0, x.1.now)) result (frame_in_text bytes.now) }
{
    let rest = known(b"frame", bytes)?;
    let (port, rest) = number32(rest)?;
    let (bytes, rest) = hex(alloc, rest)?;
    Ok((Local::Frame { port, bytes }, rest))
}

#[tactic(auto, unfolding(crate::specs::OneLine::port_at))]
fn port(bytes: &[u8]) -> Result<(Local, &[u8]), Misfit>
    ensures { GivesText (λ x. (x.0, x.1.now)) result (port_at bytes.now) }
{
    let rest = known(b"port", bytes)?;
    let (port, rest) = number32(rest)?;
    let (up, rest) = flag(rest)?;
    Ok((Local::Port { port, up }, rest))
}

#[tactic(auto, unfolding(crate::specs::OneLine::suspect_at))]
fn suspect(bytes: &[u8]) -> Result<(Local, &[u8]), Misfit>
    ensures { GivesText (λ x. (x.0, x.1.now)) result (suspect_at bytes.now) }
{
    let rest = known(b"suspect", bytes)?;
    let (view, rest) = number32(rest)?;
    Ok((Local::Suspect { view }, rest))
}

/// An input of one word.
#[tactic(auto, unfolding(crate::specs::OneLine::bare_at))]
fn bare<'a>(name: &[u8], input: Local, bytes: &'a [u8]) -> Result<(Local, &'a [u8]), Misfit>
    ensures { GivesText (λ x. (x.0, x.1.now)) result (bare_at name.now input bytes.now) }
{
    let rest = known(name, bytes)?;
    Ok((input, rest))
}

#[tactic(auto, unfolding(crate::specs::OneLine::input_at))]
fn input(alloc: Global, bytes: &[u8]) -> Result<(Local, &[u8]), Misfit>
    ensures { GivesText (λ x. (x.0, x.1.now)) result (input_at bytes.now) }
{
    if bytes.starts_with(b" frame") {
        frame(alloc, bytes)
    } else if bytes.starts_with(b" port") {
        port(bytes)
    } else if bytes.starts_with(b" suspect") {
        suspect(bytes)
    } else if bytes.starts_with(b" tick") {
        bare(b"tick", Local::Tick, bytes)
    } else if bytes.starts_with(b" crash") {
        bare(b"crash", Local::Crash, bytes)
    } else {
        bare(b"restart", Local::Restart, bytes)
    }
}

#[tactic(auto, unfolding(crate::specs::OneLine::local_at))]
fn local(alloc: Global, bytes: &[u8]) -> Result<(JournalEntry<Octets>, &[u8]), Misfit>
    ensures { GivesText (λ x. (x.0, x.1.now)) result (local_at bytes.now) }
{
    let rest = after(b"local", bytes)?;
    let (actor, rest) = actor(rest)?;
    let (input, rest) = input(alloc, rest)?;
    ended(JournalEntry::Local { actor, input }, rest)
}

/// An entry of one line.
#[tactic(auto, unfolding(crate::specs::OneLine::short_entry_at))]
pub fn short_entry(alloc: Global, bytes: &[u8]) -> Result<(JournalEntry<Octets>, &[u8]), Misfit>
    ensures { GivesText (λ x. (x.0, x.1.now)) result (short_entry_at bytes.now) }
{
    if bytes.starts_with(b"draw") {
        draw(bytes)
    } else if bytes.starts_with(b"lose") {
        lose(bytes)
    } else if bytes.starts_with(b"idle") {
        idle(bytes)
    } else {
        local(alloc, bytes)
    }
}

#[tactic(auto, unfolding(crate::specs::Reading::journal_entry_at))]
fn entry(alloc: Global, bytes: &[u8]) -> Result<(JournalEntry<Octets>, &[u8]), Broken>
    ensures { GivesLines (λ x. (x.0, x.1.now)) result (journal_entry_at bytes.now) }
{
    if bytes.starts_with(b"post") {
        post(alloc, bytes)
    } else {
        on_line(bytes, short_entry(alloc, bytes))
    }
}

/// The entries up to the line of the log. Each takes a byte at least.
#[tactic(auto, unfolding(crate::specs::Reading::journal_at, crate::specs::Lines::while_at))]
fn journal(alloc: Global, bytes: &[u8]) -> Result<(Journal<Octets>, &[u8]), Broken>
    ensures { GivesLines (λ x. (x.0, x.1.now)) result (journal_at bytes.now) }
{
    let mut entries = Items::new(alloc);
    let mut rest = bytes;
    for place in 0..bytes.len() {
        if rest.starts_with(b"log") {
            return Ok((entries, rest));
        }
        let (entry, after) = entry(alloc, rest)?;
        entries.push(entry)?;
        rest = after;
    }
    if !rest.starts_with(b"log") {
        return Err(Broken::Line { left: rest.len() });
    }
    Ok((entries, rest))
}

impl FromJournal for Journal<Octets> {
    ghost of = { λ journal. journal };

    fn read(alloc: Global, bytes: &[u8]) -> Result<(Journal<Octets>, &[u8]), Broken> {
        journal(alloc, bytes)
    }
}
