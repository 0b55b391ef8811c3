use crate::changes::{ADD, ANY, Change, at_port, flow_mod};
use flow_clock::{Expired, TimedRows};
use flow_index::FlowIndex;
use flow_table::{FlowTable, Rows};
use of_types::Match;
use std::alloc::{AllocError, Global};

/// What is told of a row that leaves: its port, the reason, the duration, the frames that met it, and their bytes.
type Told = (u32, u8, u32, u64, u64);

/// Whether this is told of the row at a place.
fn is_told(expired: &[Expired], place: usize, told: Told) -> bool {
    let (port, reason, duration, hits, octets) = told;
    match expired.get(place) {
        Some(expired) => expired.row.matching.in_port == Some(port)
            && expired.reason == reason
            && expired.duration == duration
            && expired.hits == hits
            && expired.octets == octets,
        None => false,
    }
}

fn are_told(expired: &[Expired], told: &[Told]) -> bool {
    for place in 0..told.len() {
        if !is_told(expired, place, told[place]) {
            return false;
        }
    }
    expired.len() == told.len()
}

/// Whether a tick takes out these rows.
fn takes_out<R: Rows + Drop>(rows: &mut TimedRows<R>, told: &[Told]) -> Result<bool, AllocError> {
    let left = rows.tick()?;
    let are_so = are_told(&left, told);
    drop(left);
    Ok(are_so)
}

/// A row of priority 5, whose end is told.
const TOLD: Change = Change {
    cookie: 7,
    flags: 1,
    priority: 5,
    ..ADD
};

/// The rows that are added, for what comes in by ports 1 to 3: with an idle timeout, with a hard one, and with both.
const ADDED: &[Change] = &[
    Change {
        idle: 2,
        matching: Match {
            in_port: Some(1),
            ..ANY
        },
        ..TOLD
    },
    Change {
        hard: 3,
        matching: Match {
            in_port: Some(2),
            ..ANY
        },
        ..TOLD
    },
    Change {
        idle: 3,
        hard: 3,
        matching: Match {
            in_port: Some(3),
            ..ANY
        },
        ..TOLD
    },
];

/// The frames that meet them behind the first tick: the port, and how many bytes.
const MET: &[(u32, u32)] = &[(1, 60), (1, 40), (3, 14)];

/// What is told of them at the third tick.
const LEFT: &[Told] = &[(1, 0, 3, 2, 100), (2, 1, 3, 0, 0), (3, 1, 3, 1, 14)];

/// Whether each row is added.
fn adds_all<R: Rows + Drop>(alloc: Global, rows: &mut TimedRows<R>) -> Result<bool, AllocError> {
    let mut so = true;
    for added in ADDED {
        let change = flow_mod(alloc, added)?;
        so = rows.apply(&change, 4).is_ok() && so;
    }
    Ok(so)
}

fn meet<R: Rows + Drop>(rows: &mut TimedRows<R>) {
    for (port, bytes) in MET {
        rows.hit(&at_port(*port), *bytes);
    }
}

/// Whether so many rows are left.
fn has<R: Rows + Drop>(rows: &TimedRows<R>, count: usize) -> Result<bool, AllocError> {
    Ok(rows.rows()?.len() == count)
}

/// Whether rows with an idle timeout of 2, with a hard one of 3, and with both of 3, leave at the third tick, where frames
/// meet the first one and the last one behind the first tick.
fn leave_by_the_clock<R: Rows + Drop>(
    alloc: Global,
    rows: &mut TimedRows<R>,
) -> Result<bool, AllocError> {
    let stand = adds_all(alloc, rows)? && takes_out(rows, &[])?;
    meet(rows);
    Ok(stand && takes_out(rows, &[])? && takes_out(rows, LEFT)? && has(rows, 1)?)
}

#[test]
fn rows_leave_by_the_clock(rt: HostRuntime) -> Result<(), AllocError> {
    let mut table = TimedRows::new(rt.alloc(), FlowTable::new(rt.alloc())?);
    let by_table = leave_by_the_clock(rt.alloc(), &mut table);
    drop(table);
    let mut index = TimedRows::new(rt.alloc(), FlowIndex::new(rt.alloc())?);
    let by_index = leave_by_the_clock(rt.alloc(), &mut index);
    drop(index);
    assert!(rt; by_table == Ok(true) && by_index == Ok(true));
    Ok(())
}
