//! What is drawn. A place counts the entries that are shown, from 0.

use journal::Actor;
use of_types::{Items, Octets, Spoken};
use vr_log::VrMessage;

/// Which entries of a journal are shown, counted from 1: both ends are shown, as far as they are there.
#[derive(Clone, Copy)]
pub struct Window {
    pub first: u64,
    pub last: u64,
}

/// What a body says on the way between its two actors.
#[derive(Drop)]
pub enum Carried {
    /// Between a controller and a switch.
    Spoken(Spoken),
    /// Between two controllers.
    Member(VrMessage),
    /// On a link: the port that receives a frame, and the bytes of the frame.
    Frame { port: u32, bytes: usize },
    /// So many bytes that say none of these.
    Unread { bytes: usize },
}

/// What became of a packet: it was drawn and left the pool, was drawn and stayed there, or left it undrawn.
#[derive(Clone, Copy)]
pub enum End {
    Drawn,
    Kept,
    Lost,
}

/// A packet on its way, from the place of its post to that of the entry that draws or loses it.
#[derive(Drop)]
pub struct Arrow {
    pub id: u64,
    pub sender: Actor,
    pub receiver: Actor,
    pub carried: Carried,
    pub posted: usize,
    pub ended: usize,
    pub end: End,
}

/// The entries from a place on, up to the next band: the greatest view that was suspected so far.
#[derive(Clone, Copy)]
pub struct Band {
    pub place: usize,
    pub view: u32,
}

/// Words beside the lifeline of an actor.
#[derive(Drop)]
pub struct Note {
    pub place: usize,
    pub actor: Actor,
    pub text: Octets,
}

/// How an actor stands. Master is the controller that a switch granted this role, with the greatest generation so far.
#[derive(Clone, Copy, PartialEq, Eq)]
pub enum Standing {
    Up,
    Down,
    Master,
}

/// A part of an actor's lifeline, from a place to another, on which it stands so.
#[derive(Clone, Copy)]
pub struct Life {
    pub actor: Actor,
    pub standing: Standing,
    pub from: usize,
    pub to: usize,
}

/// Which entries of the committed log an entry tells of for the first time, and what it tells.
#[derive(Drop)]
pub struct Logged {
    pub place: usize,
    pub text: Octets,
}

/// The shapes of a run. Its actors are so many controllers and switches. Of its `entries` in all, so many are left out
/// before those `shown`, and the others behind them.
#[derive(Drop)]
pub struct Drawing {
    pub controllers: u8,
    pub switches: u8,
    pub entries: usize,
    pub before: usize,
    pub shown: usize,
    pub arrows: Items<Arrow>,
    pub bands: Vec<Band>,
    pub notes: Vec<Note>,
    pub log: Vec<Logged>,
    pub lives: Vec<Life>,
}
