//! The lines of a journal that is kept apart from its letters.
ghost use Rattle.std.specs.Prelude.{◌≡◌, ◌≤◌, ◌<◌, ◌+◌, ◌++◌, ℕ, length, map, take, drop, slice_get, IfSome, OnOk};
ghost use Rattle.journal.specs.Entries.{StartsAt, Tile, letter_count, whole_entry};
ghost use Rattle.report.specs.Report.{lines_of, entry_lines, letter_line};

use crate::line::Line;
use crate::lines::{write_draw, write_idle, write_local, write_loss, write_post_line};
use crate::sheet::Sheet;
use journal::{Head, Mailbag};
use of_types::Octets;
use std::alloc::{AllocError, Global};

/// Writes the letter of an index. A long body is moved out, and another is left in its place.
#[tactic(auto, unfolding(crate::specs::Report::line))]
fn write_letter_at(
    alloc: Global,
    out: &mut Sheet,
    letters: &mut Mailbag<Octets>,
    index: usize,
) -> Result<(), AllocError>
    requires { index < length letters.old }
    ensures line { OnOk result (IfSome (slice_get letters.old index) (λ letter. out.new ≡ out.old ++ letter_line letter)) }
    ensures rest { drop (index + 1) letters.new ≡ drop (index + 1) letters.old }
    ensures long { length letters.new ≡ length letters.old }
{
    let mut line = Line::new();
    line.begin(b"letter");
    line.actor(letters.receiver(index));
    match letters.take_own(index) {
        Some(mut body) => line.end_with(alloc, out, &mut body),
        None => line.end_with_bytes(out, letters.bytes(index)),
    }
}

/// Writes so many letters from an index on.
fn write_letters_from(
    alloc: Global,
    out: &mut Sheet,
    letters: &mut Mailbag<Octets>,
    first: usize,
    count: usize,
) -> Result<(), AllocError>
    requires { first + count ≤ length letters.old }
    ensures lines { OnOk result (out.new ≡ out.old ++ lines_of letter_line (take count (drop first letters.old))) }
    ensures rest { OnOk result (drop (first + count) letters.new ≡ drop (first + count) letters.old) }
    ensures long { length letters.new ≡ length letters.old }
{
    // (There are so many letters.)
    let _len = letters.len();
    for index in first..first + count {
        write_letter_at(alloc, out, letters, index)?;
    }
    Ok(())
}

/// Writes an entry, with its letters, which stand first of those that are left.
fn write_head(
    alloc: Global,
    out: &mut Sheet,
    head: &mut Head,
    letters: &mut Mailbag<Octets>,
) -> Result<(), AllocError>
    requires { (from : ℕ) × StartsAt from head.old × (from + letter_count head.old ≤ length letters.old) }
    ensures lines { OnOk result (out.new ≡ out.old ++ entry_lines (whole_entry letters.old head.old)) }
    ensures rest { (from : ℕ) → StartsAt from head.old →
        OnOk result (drop (from + letter_count head.old) letters.new ≡ drop (from + letter_count head.old) letters.old) }
    ensures long { length letters.new ≡ length letters.old }
{
    match head {
        Head::Post {
            actor,
            first,
            count,
            lost,
        } => {
            write_post_line(out, *actor, *first as u64, *count as u64, *lost)?;
            write_letters_from(alloc, out, letters, *first, *count)
        }
        Head::Draw { actor, id, keep } => write_draw(out, *actor, *id, *keep),
        Head::Lose { actor, id } => write_loss(out, *actor, *id),
        Head::Local { actor, input } => write_local(alloc, out, *actor, input),
        Head::Idle { actor } => write_idle(out, *actor),
        Head::Refused { .. } => Ok(()),
    }
}

/// Writes the entries of a journal, with its letters. Long bodies are moved out, and others are left in their places.
pub fn write_heads(
    alloc: Global,
    out: &mut Sheet,
    heads: &mut [Head],
    letters: &mut Mailbag<Octets>,
) -> Result<(), AllocError>
    requires { Tile 0 heads.old (length letters.old) }
    ensures { OnOk result (out.new ≡ out.old ++ lines_of entry_lines (map (whole_entry letters.old) heads.old)) }
{
    for head in heads.iter_mut() {
        write_head(alloc, out, head, letters)?;
    }
    Ok(())
}
