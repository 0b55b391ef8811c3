//! Streams in memory, some of whose calls fail, and those of std.

use journal::{Failed, MemorySink, MemorySource, Sink, Source, StdSink, StdSource};
use of_types::Octets;
use std::alloc::{AllocError, Global};

/// Whether reads into four bytes answer so.
fn reads(source: &mut impl Source, answers: &[Result<usize, Failed>]) -> bool {
    let mut piece = [0; 4];
    let mut so = true;
    for answer in answers {
        so = source.read(&mut piece) == *answer && so;
    }
    so
}

/// Whether writes of three bytes answer so.
fn writes(sink: &mut impl Sink, answers: &[Result<usize, Failed>]) -> bool {
    let mut so = true;
    for answer in answers {
        so = sink.write(b"abc") == *answer && so;
    }
    so
}

/// The second read fails, and what is left is read behind it.
#[test]
fn a_source_in_memory(rt: HostRuntime) -> Result<(), AllocError> {
    let failing = [1].to_vec(rt.alloc())?;
    let bytes = Octets::from_slice(rt.alloc(), b"pieces")?;
    let mut source = MemorySource::new(bytes, 5, failing);
    let told = reads(&mut source, &[Ok(4), Err(Failed), Ok(2), Ok(0)]);
    let faults = source.faults();
    drop(source);
    assert!(rt; told && faults == 1);
    Ok(())
}

/// Whether a sink in memory of so many bytes a write, of which the writes of these numbers fail, answers so, and has so many
/// faults and these bytes then.
fn takes(
    alloc: Global,
    most: usize,
    failing: &[u64],
    answers: &[Result<usize, Failed>],
    taken: &[u8],
    faults: u64,
) -> Result<bool, AllocError> {
    let mut sink = MemorySink::new(alloc, most, failing.to_vec(alloc)?);
    let told = writes(&mut sink, answers);
    let is_so = sink.taken() == taken && sink.faults() == faults;
    drop(sink);
    Ok(told && is_so)
}

/// A sink of two bytes a write, of which the second fails.
#[test]
fn a_sink_in_memory(rt: HostRuntime) {
    let taken = takes(
        rt.alloc(),
        2,
        &[1],
        &[Ok(2), Err(Failed), Ok(2)],
        b"abab",
        1,
    );
    assert!(rt; taken == Ok(true));
}

/// A sink that takes nothing fails.
#[test]
fn a_sink_that_takes_nothing(rt: HostRuntime) {
    let taken = takes(rt.alloc(), 0, &[], &[Err(Failed), Err(Failed)], b"", 2);
    assert!(rt; taken == Ok(true));
}

#[test]
fn a_source_of_std(rt: HostRuntime) {
    let mut source = StdSource::new(b"pieces".as_slice());
    assert!(rt; reads(&mut source, &[Ok(4), Ok(2), Ok(0)]) && source.faults() == 0);
}

/// There is room for five bytes, and then for none.
#[test]
fn a_sink_of_std(rt: HostRuntime) {
    let mut room = [0; 5];
    let mut sink = StdSink::new(room.as_mut_slice());
    let told = writes(&mut sink, &[Ok(3), Ok(2), Err(Failed)]);
    let faults = sink.faults();
    assert!(rt; told && faults == 1 && room.as_slice() == b"abcab".as_slice());
}
