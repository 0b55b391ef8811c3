//! The shapes of a run.
ghost use Rattle.std.specs.Prelude.{◌≡◌, ◌<◌, ◌↔◌, Contains, length, IfOk, IsTrue};
ghost use Rattle.journal.specs.Pool.{past};
ghost use Rattle.chart.specs.declared.shapes.Arrow.{Arrow};
ghost use Rattle.chart.specs.Arrows.{IsArrow, arrows as arrows_of, before_of, shown as shown_of};

use crate::marks::{Marks, Seen};
use crate::packets::arrows;
use crate::shapes::{Arrow, Band, Drawing, Logged, Note, Window};
use journal::JournalEntry;
use of_types::Octets;
use report::Record;
use std::alloc::{AllocError, Global};

/// What is marked beside the arrows.
#[derive(Drop)]
struct Marked {
    bands: Vec<Band>,
    notes: Vec<Note>,
    log: Vec<Logged>,
}

impl Marked {
    fn new(alloc: Global) -> Marked {
        Marked {
            bands: Vec::new(alloc),
            notes: Vec::new(alloc),
            log: Vec::new(alloc),
        }
    }

    /// Adds what an entry at a place tells. Beside the end of an arrow stands no note.
    fn add(&mut self, place: usize, seen: Seen, is_end: bool) -> Result<(), AllocError> {
        let Seen { actor, text, log } = seen;
        if !is_end && !text.is_empty() {
            self.notes.push(Note { place, actor, text })?;
        }
        if !log.is_empty() {
            self.log.push(Logged { place, text: log })?;
        }
        Ok(())
    }
}

/// The shapes of the entries of a window.
pub fn draw(alloc: Global, told: &Record, window: Window) -> Result<Drawing, AllocError>
    // There is an arrow for exactly the draws and losses whose post is shown, from who posted the packet to who draws or loses it.
    ensures arrows { IfOk result (λ d. (a : Arrow) → Contains d.arrows a ↔ IsArrow (past (shown_of window told.now.journal)) a) }
    // They stand in the order of their ends, one for each.
    ensures exact { IfOk result (λ d. d.arrows ≡ arrows_of (past (shown_of window told.now.journal))) }
    ensures shown { IfOk result (λ d. d.shown ≡ length (shown_of window told.now.journal)) }
    ensures before { IfOk result (λ d. d.before ≡ before_of window told.now.journal) }
    ensures entries { IfOk result (λ d. d.entries ≡ length told.now.journal) }
    ensures controllers { IfOk result (λ d. d.controllers ≡ told.now.setup.controllers) }
    ensures switches { length told.now.setup.ports < 256 → IfOk result (λ d. d.switches ≡ length told.now.setup.ports) }
{
    let journal = told.journal.as_slice();
    let (before, shown) = shown_in(window, journal);
    let arrows = arrows(alloc, shown)?;
    let mut marks = Marks::new(alloc, told)?;
    for entry in &journal[..before] {
        marks.see(0, entry)?;
    }
    let Marked { bands, notes, log } = mark(alloc, &mut marks, shown, arrows.as_slice())?;
    let lives = marks.lifelines.end(shown.len())?;
    Ok(Drawing {
        controllers: told.setup.controllers,
        switches: told.setup.ports.len().min(255) as u8,
        entries: journal.len(),
        before,
        shown: shown.len(),
        arrows,
        bands,
        notes,
        log,
        lives,
    })
}

/// Whether the next arrow ends at a place.
fn is_ended_at(arrows: &[Arrow], next: usize, place: usize) -> bool
    ensures { IsTrue result → next < length arrows.now }
{
    match arrows.get(next) {
        Some(arrow) => arrow.ended == place,
        None => false,
    }
}

/// What is marked beside the arrows of the entries that are shown, behind those before them.
fn mark(
    alloc: Global,
    marks: &mut Marks,
    shown: &[JournalEntry<Octets>],
    arrows: &[Arrow],
) -> Result<Marked, AllocError> {
    let mut marked = Marked::new(alloc);
    let mut view = marks.view;
    let mut next = 0;
    for (place, entry) in shown.iter().enumerate() {
        let seen = marks.see(place, entry)?;
        let is_end = is_ended_at(arrows, next, place);
        if is_end {
            next += 1;
        }
        marked.add(place, seen, is_end)?;
        if place == 0 || marks.view > view {
            view = marks.view;
            marked.bands.push(Band { place, view })?;
        }
    }
    Ok(marked)
}

/// How many entries a window leaves out before it, and those that it shows.
fn shown_in(window: Window, journal: &[JournalEntry<Octets>]) -> (usize, &[JournalEntry<Octets>])
    ensures before { result.0 ≡ before_of window journal.now }
    ensures shown { result.1.now ≡ shown_of window journal.now }
{
    let end = journal.len().min(window.last as usize);
    let before = end.min((window.first as usize).saturating_sub(1));
    (before, &journal[before..end])
}
