//! What is marked beside the arrows: views, inputs, what was carried out, the committed log, and how each actor stands.

use crate::bodies::carried;
use crate::captions::{input_words, named};
use crate::lifelines::Lifelines;
use crate::shapes::{Carried, Standing};
use journal::{Actor, JournalEntry, Letter, Local};
use of_types::{Extension, MASTER, Octets, OfMessage, Spoken};
use report::{Record, SwitchRecord, write_number};
use std::alloc::{AllocError, Global};
use vr_log::Entry;

/// An event or a command of a switch by its life and number, and its place in the list that tells of it, from 1.
#[derive(Clone, Copy)]
struct Listed {
    life: u32,
    number: u64,
    place: u64,
}

/// A list of which the first ones are marked.
#[derive(Drop)]
struct Unmarked {
    listed: Vec<Listed>,
    marked: usize,
}

impl Unmarked {
    fn new(alloc: Global) -> Unmarked {
        Unmarked {
            listed: Vec::new(alloc),
            marked: 0,
        }
    }

    fn push(&mut self, life: u32, number: u64, index: usize) -> Result<(), AllocError> {
        let place = (index as u64).saturating_add(1);
        self.listed.push(Listed {
            life,
            number,
            place,
        })?;
        Ok(())
    }

    /// Marks the next one if it is of an earlier life, or of this one and its number is at most this one, and gives its place.
    fn mark(&mut self, life: u32, most: u64) -> Option<u64> {
        let place = next_place(self.listed.as_slice(), self.marked, life, most)?;
        self.marked = self.marked.saturating_add(1);
        Some(place)
    }
}

/// The place of the next one, if it is of an earlier life, or of this one and its number is at most this one.
fn next_place(listed: &[Listed], marked: usize, life: u32, most: u64) -> Option<u64> {
    let next = listed.get(marked)?;
    if next.life < life || next.life == life && next.number <= most {
        Some(next.place)
    } else {
        None
    }
}

/// What is to be marked of a switch: the entries of the log with its events, those that tell that these are processed, and
/// what it executed.
#[derive(Drop)]
struct SwitchMarks {
    received: Unmarked,
    processed: Unmarked,
    executed: Unmarked,
}

impl SwitchMarks {
    fn new(alloc: Global, told: &SwitchRecord) -> Result<SwitchMarks, AllocError> {
        let mut executed = Unmarked::new(alloc);
        for (index, command) in told.executed.as_slice().iter().enumerate() {
            executed.push(command.life, command.number, index)?;
        }
        Ok(SwitchMarks {
            received: Unmarked::new(alloc),
            processed: Unmarked::new(alloc),
            executed,
        })
    }
}

/// Adds words and a number to a text, behind what stands there.
fn add(text: &mut Octets, words: &[u8], number: u64) -> Result<(), AllocError> {
    if !text.is_empty() {
        text.append(b"; ")?;
    }
    named(text, words, number)
}

/// Adds the place of an entry of the log behind those that stand there.
fn add_place(log: &mut Octets, place: u64) -> Result<(), AllocError> {
    if !log.is_empty() {
        log.append(b",")?;
    }
    write_number(log, u128::from(place))
}

/// The generation with which a body grants the role of master.
fn granted_generation(said: &Carried) -> Option<u64> {
    match said {
        Carried::Spoken(Spoken::Plain(OfMessage::RoleReply { role, generation }))
            if *role == MASTER => Some(*generation),
        _ => None,
    }
}

/// What an entry of the journal tells: whom it names, what is written beside it, and which entries of the log it tells of.
/// Both texts may be nothing.
#[derive(Drop)]
pub struct Seen {
    pub actor: Actor,
    pub text: Octets,
    pub log: Octets,
}

impl Seen {
    fn of(alloc: Global, actor: Actor) -> Seen {
        Seen {
            actor,
            text: Octets::new(alloc),
            log: Octets::new(alloc),
        }
    }
}

/// Writes what became of the entries of the log behind their places: a switch tells of its events, and a controller of what
/// is processed.
fn end_places(log: &mut Octets, sender: Actor) -> Result<(), AllocError> {
    if log.is_empty() {
        return Ok(());
    }
    match sender {
        Actor::Switch(_) => log.append(b" received"),
        Actor::Controller(_) => log.append(b" processed"),
    }
}

/// Whom an entry names.
fn actor_of(entry: &JournalEntry<Octets>) -> Actor {
    match entry {
        JournalEntry::Post { actor, .. } => *actor,
        JournalEntry::Local { actor, .. } => *actor,
        JournalEntry::Draw { actor, .. } => *actor,
        JournalEntry::Lose { actor, .. } => *actor,
        JournalEntry::Idle { actor } => *actor,
        JournalEntry::Refused { actor } => *actor,
    }
}

/// What is still to be marked of a run, the greatest view that was suspected so far, and the lifelines up to there.
#[derive(Drop)]
pub struct Marks {
    alloc: Global,
    switches: Vec<SwitchMarks>,
    pub view: u32,
    pub lifelines: Lifelines,
}

impl Marks {
    /// The marks of a run of which nothing was seen.
    pub fn new(alloc: Global, told: &Record) -> Result<Marks, AllocError> {
        let mut switches = Vec::new(alloc);
        for switch in told.switches.as_slice() {
            switches.push(SwitchMarks::new(alloc, switch)?)?;
        }
        let ports = told.setup.ports.len().min(255) as u8;
        let lifelines = Lifelines::new(alloc, told.setup.controllers, ports)?;
        let mut marks = Marks {
            alloc,
            switches,
            view: 0,
            lifelines,
        };
        marks.list_log(told.log.as_slice())?;
        Ok(marks)
    }

    fn list_log(&mut self, log: &[Entry]) -> Result<(), AllocError> {
        let mut events = Vec::new(self.alloc);
        for (index, entry) in log.iter().enumerate() {
            match entry {
                Entry::Received(event) => {
                    if let Some(of) = self.switches.get_mut(usize::from(event.switch)) {
                        of.received.push(event.life, event.number, index)?;
                    }
                    events.push(event)?;
                }
                Entry::Processed(j) => {
                    if let Some(event) = events.get(*j as usize)
                        && let Some(of) = self.switches.get_mut(usize::from(event.switch))
                    {
                        of.processed.push(event.life, event.number, index)?;
                    }
                }
            }
        }
        Ok(())
    }

    /// Adds what a letter from or to a switch tells for the first time: that its event stands in the log, or is processed
    /// by it, or that it carried a command out.
    fn see_extension(
        &mut self,
        switch: u8,
        said: &Extension,
        seen: &mut Seen,
    ) -> Result<(), AllocError> {
        let Some(of) = self.switches.get_mut(usize::from(switch)) else {
            return Ok(());
        };
        match *said {
            Extension::Event { life, number, .. } => {
                if let Some(place) = of.received.mark(life, number) {
                    add_place(&mut seen.log, place)?;
                }
            }
            Extension::EventAck { life, through } if through > 0 => {
                for _ in of.processed.marked..of.processed.listed.len() {
                    let Some(place) = of.processed.mark(life, through - 1) else {
                        break
                    };
                    add_place(&mut seen.log, place)?;
                }
            }
            Extension::CmdAck { life, number, .. } => {
                if of.executed.mark(life, number).is_some() {
                    add(&mut seen.text, b"carried out: command", number)?;
                }
            }
            _ => {}
        }
        Ok(())
    }

    /// Takes note of a letter that an entry at a place posts.
    fn see_letter(
        &mut self,
        place: usize,
        letter: &Letter<Octets>,
        seen: &mut Seen,
    ) -> Result<(), AllocError> {
        let said = carried(self.alloc, seen.actor, letter.to, letter.body.as_slice())?;
        let answer = match (seen.actor, letter.to) {
            (Actor::Switch(switch), Actor::Controller(controller)) => {
                self.see_answer(place, switch, controller, &said, seen)
            }
            (Actor::Controller(_), Actor::Switch(switch)) => self.see_said(switch, &said, seen),
            _ => Ok(()),
        };
        drop(said);
        answer
    }

    /// Takes note of what a switch says to a controller.
    fn see_answer(
        &mut self,
        place: usize,
        switch: u8,
        controller: u8,
        said: &Carried,
        seen: &mut Seen,
    ) -> Result<(), AllocError> {
        match granted_generation(said) {
            Some(generation) => self.lifelines.grant(controller, generation, place),
            None => self.see_said(switch, said, seen),
        }
    }

    fn see_said(&mut self, switch: u8, said: &Carried, seen: &mut Seen) -> Result<(), AllocError> {
        match said {
            Carried::Spoken(Spoken::Ravana(said)) => self.see_extension(switch, said, seen),
            _ => Ok(()),
        }
    }

    /// Takes note of a post at a place.
    fn see_post(
        &mut self,
        place: usize,
        letters: &[Letter<Octets>],
        lost: u64,
        seen: &mut Seen,
    ) -> Result<(), AllocError> {
        for letter in letters {
            self.see_letter(place, letter, seen)?;
        }
        if lost > 0 {
            add(&mut seen.text, b"no room, lost:", lost)?;
        }
        end_places(&mut seen.log, seen.actor)
    }

    /// Takes note of an input at a place.
    fn see_input(
        &mut self,
        place: usize,
        input: &Local,
        seen: &mut Seen,
    ) -> Result<(), AllocError> {
        match input {
            Local::Suspect { view } => self.view = self.view.max(*view),
            Local::Crash => self.lifelines.turn(seen.actor, Standing::Down, place)?,
            Local::Restart => self.lifelines.turn(seen.actor, Standing::Up, place)?,
            _ => {}
        }
        input_words(&mut seen.text, seen.actor, input)
    }

    /// Takes note of the next entry, which stands at a place, and gives what it tells.
    pub fn see(&mut self, place: usize, entry: &JournalEntry<Octets>) -> Result<Seen, AllocError> {
        let mut seen = Seen::of(self.alloc, actor_of(entry));
        match self.add_entry(place, entry, &mut seen) {
            Ok(()) => Ok(seen),
            Err(refused) => {
                drop(seen);
                Err(refused)
            }
        }
    }

    /// Adds what an entry at a place tells.
    fn add_entry(
        &mut self,
        place: usize,
        entry: &JournalEntry<Octets>,
        seen: &mut Seen,
    ) -> Result<(), AllocError> {
        match entry {
            JournalEntry::Post { letters, lost, .. } => {
                self.see_post(place, letters.as_slice(), *lost, seen)
            }
            JournalEntry::Local { input, .. } => self.see_input(place, input, seen),
            JournalEntry::Draw { id, .. } => named(&mut seen.text, b"draws earlier packet", *id),
            JournalEntry::Lose { id, .. } => named(&mut seen.text, b"loses earlier packet", *id),
            JournalEntry::Idle { .. } => seen.text.append(b"nothing waits"),
            JournalEntry::Refused { .. } => seen.text.append(b"no memory"),
        }
    }
}
