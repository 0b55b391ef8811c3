//! Reports as they are written to a sink.
use crate::reports::NOTHING;
use journal::MemorySink;
use of_types::Octets;
use report::{read_report, write_report};
use std::alloc::{AllocError, Global};
use streams::StreamFault;

/// What writing answers to a sink the record that is read from the report, where that is read.
fn write_read(
    alloc: Global,
    report: &[u8],
    sink: &mut MemorySink,
) -> Option<Result<(), StreamFault>> {
    match read_report(alloc, report) {
        Ok(mut record) => {
            let written = write_report(alloc, &mut record, sink);
            drop(record);
            Some(written)
        }
        Err(_) => None,
    }
}

/// Whether writing a report to a sink that takes seven bytes a call, of which the calls of these numbers fail, answers so, and the
/// sink has this text then.
fn is_written(
    alloc: Global,
    report: &[u8],
    failing: &[u64],
    answer: Result<(), StreamFault>,
    text: &[u8],
) -> Result<bool, AllocError> {
    let mut sink = MemorySink::new(alloc, 7, failing.to_vec(alloc)?);
    let written = write_read(alloc, report, &mut sink);
    let taken = sink.taken() == text && sink.faults() == failing.len() as u64;
    drop(sink);
    Ok(written == Some(answer) && taken)
}

/// What is written of a record is the text that it was read from.
#[test]
fn writes_what_was_read(rt: HostRuntime) {
    let report = NOTHING.as_bytes();
    assert!(rt; is_written(rt.alloc(), report, &[], Ok(()), report) == Ok(true));
}

/// The front of the text that four writes took.
const FRONT: &str = "ravana report 1\nsetup 1 1\npo";

/// The fifth write fails. It is the last one, and what the four before it took is a front of the text.
#[test]
fn stops_at_a_write_that_fails(rt: HostRuntime) {
    let answer = Err(StreamFault::Failed);
    assert!(rt;
        is_written(
            rt.alloc(),
            NOTHING.as_bytes(),
            &[4],
            answer,
            FRONT.as_bytes()
        ) == Ok(true)
    );
}

/// How many bytes the long frame has: more than are kept as they are, and more than are spelled at a time.
const FRAME: usize = 1514;

/// A report with the input of a long frame, in front of the lines of the log.
fn long_report(alloc: Global) -> Result<Octets, AllocError> {
    let mut report = Octets::from_slice(
        alloc,
        b"ravana report 1\nsetup 1 1\nports 0 2\nlocal s0 frame 1 ",
    )?;
    for byte in 0..FRAME {
        report.append(b"5a")?;
    }
    report.append(
        b"\nlog 0 0\nswitch 0 generation - master - life 0 events 0 held 0 executed 0 rows 0 sent 0\n",
    )?;
    report.append(b"end script 0 closing 0 events 0 log 0 commands 0 rows 0\n")?;
    Ok(report)
}

/// Whether writing the report with a long frame answers so, and the sink has so many bytes of its front then, or all.
fn is_long_written(
    alloc: Global,
    failing: &[u64],
    answer: Result<(), StreamFault>,
    count: usize,
) -> Result<bool, AllocError> {
    let report = long_report(alloc)?;
    let bytes = report.as_slice();
    is_written(
        alloc,
        bytes,
        failing,
        answer,
        &bytes[..bytes.len().min(count)],
    )
}

/// The digits of a long frame are written as they stood, and so are the lines around it.
#[test]
fn writes_a_long_frame(rt: HostRuntime) {
    assert!(rt; is_long_written(rt.alloc(), &[], Ok(()), usize::MAX) == Ok(true));
}

/// What a hundred writes took: the 53 bytes in front of the digits in eight, and seven digits in each of the others.
const LONG_FRONT: usize = 53 + 7 * 92;

/// A write fails behind the words of the line and the first digits of the frame.
#[test]
fn stops_within_a_long_frame(rt: HostRuntime) {
    let answer = Err(StreamFault::Failed);
    assert!(rt; is_long_written(rt.alloc(), &[100], answer, LONG_FRONT) == Ok(true));
}
