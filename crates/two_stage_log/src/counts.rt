//! What is counted in a log. None of these calls takes memory.
ghost use Rattle.std.specs.Prelude.{◌≡◌, ◌↔◌, ◌≤◌, nat_eq, ◌&&◌, not, true, length, take, drop, None};
ghost use Rattle.of_types.specs.Lives.{count_in};
ghost use Rattle.vr_log.specs.Log as logs;
ghost use Rattle.vr_log.specs.Log.{is_log, received, processed, may_follow as may_stand};
ghost use Rattle.two_stage_log.specs.Counts as counts;
ghost use Rattle.two_stage_log.specs.Counts.{AllProcessed};

use of_types::{Event, is_switch_up};
use vr_log::{Entry, Log};

/// Whether an entry may follow the log: an event with the next number of its switch's life, the switch-up
/// event of a later life, or the first event that is not processed.
pub fn may_follow(log: &Log, entry: &Entry) -> bool
    ensures { result ≡ may_stand log.now entry.now }
{
    log.may_follow(entry)
}

/// Whether an event may come to a log in which its switch has this life, and this number is next in it.
pub fn may_come(event: &Event, life: u32, next: u64) -> bool
    ensures { result ≡ counts.may_come life next event.now }
{
    if event.life == life {
        event.number == next
    } else {
        life < event.life && event.number == 0 && is_switch_up(&event.what)
    }
}

/// Whether an event is processed, in a log in which its switch has this life, and so many events of it are processed.
pub fn is_processed_by(event: &Event, life: u32, through: u64) -> bool
    ensures { result ≡ counts.is_processed_by life through event.now }
{
    event.life == life && event.number < through
}

/// Whether the first event that is not processed may be proposed as processed: there is one, and none of its commands wants a
/// result.
pub fn may_process(unprocessed: bool, wanted: bool) -> bool
    ensures { result ≡ (unprocessed && not wanted) }
{
    unprocessed && !wanted
}

/// The life that a switch has in the log, and the number that its next event of that life has.
pub fn next_place(log: &Log, switch: u8) -> (u32, u64)
    ensures { result ≡ logs.next_place log.now switch }
{
    log.next_place(switch)
}

/// The first entries of a log, so many as there are.
fn front(log: &Log, through: u64) -> &[Entry]
    ensures entries { result.now ≡ take through log.now }
    ensures lawful { is_log log.now ≡ true }
{
    let entries = log.as_slice();
    let len = entries.len() as u64;
    &entries[..through.min(len) as usize]
}

/// The committed entries of a log behind so many of them.
pub fn committed_behind(log: &Log, before: u64, committed: u64) -> &[Entry]
    requires { (before ≤ committed) × (committed ≤ length log.now) }
    ensures { result.now ≡ drop before (take committed log.now) }
{
    &front(log, committed)[before as usize..]
}

fn is_processed(entry: &Entry) -> bool
    ensures { result ≡ logs.is_processed entry.now }
{
    match entry {
        Entry::Received(_) => false,
        Entry::Processed(_) => true,
    }
}

fn count_processed(entries: &[Entry]) -> usize
    ensures exact { result ≡ processed entries.now }
    ensures small { result ≤ length entries.now }
{
    entries.iter().filter(|entry| is_processed(entry)).count()
}

#[tactic(auto, using(vr_log::proofs::Logs::length_is))]
fn count_received(entries: &[Entry]) -> usize
    ensures { result ≡ length (received entries.now) }
{
    entries.len() - count_processed(entries)
}

/// The place of the first event that is received and not processed among these entries.
fn first_of(entries: &[Entry]) -> Option<u64>
    ensures { result ≡ counts.first_unprocessed entries.now }
{
    let processed = count_processed(entries);
    if processed < count_received(entries) {
        Some(processed as u64)
    } else {
        None
    }
}

/// The place of the first event that is received and not processed in the first entries of a log.
pub fn first_unprocessed(log: &Log, through: u64) -> Option<u64>
    ensures first { result ≡ counts.first_unprocessed (take through log.now) }
    // There is none exactly where each event that is received there is processed there.
    ensures none { (result ≡ None) ↔ AllProcessed (take through log.now) }
{
    first_of(front(log, through))
}

/// Whether an event is of a life of a switch.
fn is_of(event: &Event, switch: u8, life: u32) -> bool
    ensures { result ≡ (nat_eq event.now.switch switch && nat_eq event.now.life life) }
{
    event.switch == switch && event.life == life
}

/// How many of so many first events are of a life of a switch.
fn count_first(switch: u8, life: u32, events: usize, entries: &[Entry]) -> usize
    ensures { result ≡ count_in switch life (take events (received entries.now)) }
{
    let mut count = 0;
    let mut left = events;
    for entry in entries {
        if let Entry::Received(event) = entry {
            if left > 0 {
                left -= 1;
                if is_of(event, switch, life) {
                    count += 1;
                }
            }
        }
    }
    count
}

/// How many events of a life of a switch are processed in the first entries of a log.
pub fn processed_of(log: &Log, through: u64, switch: u8, life: u32) -> u64
    ensures { result ≡ counts.processed_of (take through log.now) switch life }
{
    let entries = front(log, through);
    count_first(switch, life, count_processed(entries), entries) as u64
}
