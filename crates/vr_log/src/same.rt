//! Whether entries and events are equal.
ghost use Rattle.std.specs.Prelude.{◌≡◌, ◌↔◌, IsTrue};
ghost use Rattle.vr_log.specs.Same as same;

use crate::entry::Entry;
use of_types::{Event, FlowRemoved, Happening, PacketIn, PortStatus, same_match};

/// Whether two events are equal.
pub fn same_event(a: &Event, b: &Event) -> bool
    ensures { result ≡ same.same_event a.now b.now }
{
    a.switch == b.switch
        && a.life == b.life
        && a.number == b.number
        && same_happening(&a.what, &b.what)
}

/// Whether two entries are equal.
#[tactic(auto, using(crate::proofs::Equal::entry_decides))]
pub fn same_entry(a: &Entry, b: &Entry) -> bool
    ensures exact { result ≡ same.same_entry a.now b.now }
    ensures equal { IsTrue result ↔ (a.now ≡ b.now) }
{
    is_same(a, b)
}

/// Whether two lists of entries are equal.
#[tactic(auto, using(crate::proofs::Equal::entries_decide))]
pub fn same_entries(a: &[Entry], b: &[Entry]) -> bool
    ensures exact { result ≡ same.same_entries a.now b.now }
    ensures equal { IsTrue result ↔ (a.now ≡ b.now) }
{
    are_same(a, b)
}

fn same_bytes(a: &[u8], b: &[u8]) -> bool
    ensures { result ≡ same.same_numbers a.now b.now }
{
    a == b
}

fn same_packet(a: &PacketIn, b: &PacketIn) -> bool
    ensures { result ≡ same.same_packet a.now b.now }
{
    a.reason == b.reason
        && a.cookie == b.cookie
        && a.in_port == b.in_port
        && same_bytes(a.payload.as_slice(), b.payload.as_slice())
}

fn same_status(a: PortStatus, b: PortStatus) -> bool
    ensures { result ≡ same.same_status a b }
{
    a.reason == b.reason && a.port == b.port && a.up == b.up
}

fn same_removed(a: &FlowRemoved, b: &FlowRemoved) -> bool
    ensures { result ≡ same.same_removed a.now b.now }
{
    a.cookie == b.cookie
        && a.priority == b.priority
        && a.reason == b.reason
        && a.duration == b.duration
        && a.idle == b.idle
        && a.hard == b.hard
        && a.packets == b.packets
        && a.octets == b.octets
        && same_match(&a.matching, &b.matching)
}

fn same_happening(a: &Happening, b: &Happening) -> bool
    ensures { result ≡ same.same_happening a.now b.now }
{
    match (a, b) {
        (Happening::PacketIn(p), Happening::PacketIn(q)) => same_packet(p, q),
        (Happening::PortStatus(p), Happening::PortStatus(q)) => same_status(*p, *q),
        (Happening::FlowRemoved(p), Happening::FlowRemoved(q)) => same_removed(p.get(), q.get()),
        _ => false,
    }
}

fn is_same(a: &Entry, b: &Entry) -> bool
    ensures { result ≡ same.same_entry a.now b.now }
{
    match (a, b) {
        (Entry::Received(p), Entry::Received(q)) => same_event(p, q),
        (Entry::Processed(i), Entry::Processed(j)) => i == j,
        _ => false,
    }
}

fn are_same(a: &[Entry], b: &[Entry]) -> bool
    ensures { result ≡ same.same_entries a.now b.now }
{
    let mut left = a;
    let mut right = b;
    while let Some((x, xs)) = left.split_first() {
        let Some((y, ys)) = right.split_first() else {
            return false;
        };
        if !is_same(x, y) {
            return false;
        }
        left = xs;
        right = ys;
    }
    right.is_empty()
}
