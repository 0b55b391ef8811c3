use crate::entries::{Short, entry_of, takes};
use std::alloc::AllocError;
use vr_log::{Entries, Log};

/// Entries, and whether a log takes each behind those that it took: those of a life of a switch in the order of their
/// numbers, a later life from the event that tells so, and one event processed after the other, each behind itself.
const FOLLOWING: &[(Short, bool)] = &[
    (Short::Processed(0), false),
    (Short::Down(1, 0, 1), false),
    (Short::Down(1, 0, 0), true),
    (Short::Down(2, 0, 0), true),
    (Short::Down(1, 0, 1), true),
    (Short::Processed(1), false),
    (Short::Processed(0), true),
    (Short::Down(2, 2, 0), false),
    (Short::Up(2, 2, 1), false),
    (Short::Up(2, 2, 0), true),
    (Short::Down(2, 0, 1), false),
    (Short::Down(2, 2, 1), true),
];

/// Whether a log answers these rows so.
fn follow(log: &mut Log) -> bool {
    let mut so = true;
    for (short, taken) in FOLLOWING {
        so = takes(log, *short) == *taken && so;
    }
    so
}

/// Whether a log counts what it took of them, and knows where its two switches go on.
fn is_counted(log: &Log) -> bool {
    log.len() == 6
        && log.size() == 499
        && log.received() == 5
        && log.processed() == 1
        && log.next_place(1) == (0, 2)
        && log.next_place(2) == (2, 2)
}

#[test]
fn entries_follow_by_number_and_in_order(rt: HostRuntime) {
    let mut log = Log::new(rt.alloc());
    let followed = follow(&mut log);
    let counted = is_counted(&log);
    drop(log);
    assert!(rt; followed && counted);
}

/// Entries that take the place of those behind the first ones; whether they do, and how many there are then. Two of the
/// second ones do not follow one another.
const JOINING: &[(usize, &[Short], bool, usize)] = &[
    (
        0,
        &[
            Short::Down(0, 0, 0),
            Short::Processed(0),
            Short::Down(0, 0, 1),
        ],
        true,
        3,
    ),
    (3, &[Short::Processed(1), Short::Down(0, 0, 3)], false, 3),
    (1, &[Short::Down(0, 0, 1)], true, 2),
];

fn replaces(log: &mut Log, first: usize, entries: &[Short]) -> Result<bool, AllocError> {
    if first > log.len() {
        return Ok(false);
    }
    let mut list = Entries::new(log.allocator());
    for short in entries {
        list.push(entry_of(*short))?;
    }
    log.replace_after(first, list)
}

/// Whether a log answers these rows so.
fn join(log: &mut Log) -> Result<bool, AllocError> {
    let mut so = true;
    for (first, entries, joined, length) in JOINING {
        so = replaces(log, *first, *entries)? == *joined && log.len() == *length && so;
    }
    Ok(so)
}

#[test]
fn entries_join_all_or_none(rt: HostRuntime) {
    let mut log = Log::new(rt.alloc());
    let joined = join(&mut log);
    drop(log);
    assert!(rt; joined == Ok(true));
}
