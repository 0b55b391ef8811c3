//! The play of a case, in each way that it asks for.
ghost use Rattle.std.specs.Prelude.{◌<◌};

use crate::counting::CountingGate;
use crate::serving::{PLAIN, Way, serve, serve_at};
use cases::{Answer, Call, Case, Difference, words_of};
use of_types::Octets;
use std::alloc::Global;
use std::sync::Wait;
use std::thread::Threads;

/// What a call writes whose source failed, and its status.
const UNREAD: &[u8] = b"fault 4 read\n";

const UNREAD_STATUS: u8 = 4;

/// The status of a call whose sink failed.
const UNWRITTEN_STATUS: u8 = 5;

/// The status of a run that ended since too few controllers took part.
const NO_QUORUM_STATUS: u8 = 7;

/// What the audit of a report without a fault writes.
const SAME: &[u8] = b"same\n";

/// Plays it, and tells the first thing that differs. A report that a call without a fault wrote is audited.
pub fn play<R: Threads + Wait + Sync>(
    rt: &R,
    alloc: Global,
    case: &Case,
) -> Result<(), Difference> {
    let gate = CountingGate::new(alloc, &case.waits)?;
    let answer = serve_at(rt, alloc, &gate, &case.call, PLAIN)?;
    case.wanted.check(alloc, &answer)?;
    gate.check(&case.passes)?;
    if answer.status == 0 && (case.call.is_sim() || case.call.is_run()) {
        check_audit(rt, alloc, answer.written.as_slice())?;
    }
    if answer.status == 0 && case.call.is_sim() {
        check_apart(rt, alloc, case)?;
    }
    check_lists(rt, alloc, case, &answer)?;
    for most in &case.pieces {
        check_pieces(rt, alloc, case, (*most).max(1), &answer)?;
    }
    Ok(())
}

fn check_lists<R: Threads + Wait + Sync>(
    rt: &R,
    alloc: Global,
    case: &Case,
    answer: &Answer,
) -> Result<(), Difference> {
    let Some(from) = case.lists else {
        return Ok(());
    };
    let in_lists = Way {
        lists: from,
        ..PLAIN
    };
    if serve(rt, alloc, &case.call, in_lists)?.is_same(answer) {
        Ok(())
    } else {
        Err(Difference::Lists { from })
    }
}

/// Reads and writes of so many bytes, first with none that fails, and then with each of them failing once. The last read
/// is the one that finds nothing left.
fn check_pieces<R: Threads + Wait + Sync>(
    rt: &R,
    alloc: Global,
    case: &Case,
    most: usize,
    answer: &Answer,
) -> Result<(), Difference>
    requires { 0 < most }
{
    if !serve(rt, alloc, &case.call, Way { most, ..PLAIN })?.is_same(answer) {
        return Err(Difference::Pieces { most });
    }
    for number in 0..=case.call.input.len().div_ceil(most) {
        check_failing_read(rt, alloc, case, most, number)?;
    }
    for number in 0..answer.written.len().div_ceil(most) {
        check_failing_write(rt, alloc, case, most, number, answer.written.as_slice())?;
    }
    Ok(())
}

fn check_failing_read<R: Threads + Wait + Sync>(
    rt: &R,
    alloc: Global,
    case: &Case,
    most: usize,
    number: usize,
) -> Result<(), Difference> {
    let way = Way {
        most,
        failing_read: Some(number as u64),
        ..PLAIN
    };
    let answer = serve(rt, alloc, &case.call, way)?;
    if answer.status == UNREAD_STATUS && answer.written.as_slice() == UNREAD {
        Ok(())
    } else {
        Err(Difference::FailingRead { most, number })
    }
}

/// What was taken is a front of the whole.
fn check_failing_write<R: Threads + Wait + Sync>(
    rt: &R,
    alloc: Global,
    case: &Case,
    most: usize,
    number: usize,
    whole: &[u8],
) -> Result<(), Difference> {
    let way = Way {
        most,
        failing_write: Some(number as u64),
        ..PLAIN
    };
    let answer = serve(rt, alloc, &case.call, way)?;
    let taken = answer.written.as_slice();
    if answer.status == UNWRITTEN_STATUS
        && whole.starts_with(taken)
        && taken.len() <= most.saturating_mul(number)
    {
        Ok(())
    } else {
        Err(Difference::FailingWrite { most, number })
    }
}

/// Plays its scenario with a thread for each actor, and audits the report. The threads come in any order, so the report may be
/// another one; and where more controllers crash than may, the run may end otherwise.
fn check_apart<R: Threads + Wait + Sync>(
    rt: &R,
    alloc: Global,
    case: &Case,
) -> Result<(), Difference> {
    let apart = Call {
        words: words_of(alloc, "run")?,
        input: Octets::from_slice(alloc, case.call.input.as_slice())?,
        saves: Vec::new(alloc),
    };
    let answer = serve(rt, alloc, &apart, PLAIN)?;
    match answer.status {
        0 => check_audit(rt, alloc, answer.written.as_slice()),
        NO_QUORUM_STATUS => Ok(()),
        status => Err(Difference::Status {
            found: status,
            wanted: 0,
        }),
    }
}

/// Audits what was written.
fn check_audit<R: Threads + Wait + Sync>(
    rt: &R,
    alloc: Global,
    written: &[u8],
) -> Result<(), Difference> {
    let audit = Call {
        words: words_of(alloc, "audit")?,
        input: Octets::from_slice(alloc, written)?,
        saves: Vec::new(alloc),
    };
    let answer = serve(rt, alloc, &audit, PLAIN)?;
    if answer.status == 0 && answer.written.as_slice() == SAME {
        Ok(())
    } else {
        Err(Difference::Audit)
    }
}
