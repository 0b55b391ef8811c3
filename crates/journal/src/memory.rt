//! A source and a sink in memory, some of whose calls fail.
ghost use Rattle.std.specs.Prelude.{◌≡◌, ◌<◌, ◌+◌, ◌-◌, ◌^◌, ◌↔◌, [], ◌++◌, length, min, take, IsTrue, IfOk, IfSome, IfNone, IsErr};
ghost use Rattle.std.specs.List.{Contains};
ghost use Rattle.std.specs.Io.{ReadsAtMost};
ghost use Rattle.std.specs.Io.KnownBytes.{ReadConsumes, WriteAppends};
ghost use Rattle.journal.specs.Causes.{HasCause, TakesSome};
ghost use Rattle.journal.specs.Memory.{IsCalled};

use crate::outside::{Failed, Sink, Source, raise};
use of_types::Octets;
use std::alloc::Global;
use std::marker::Model;

/// The calls so far: which of them fail, counted from 0, and how often one has.
#[derive(Drop)]
struct Calls {
    made: u64,
    failing: Vec<u64>,
    faults: u64,
}

impl Calls {
    fn new(failing: Vec<u64>) -> Calls
        ensures { result ≡ record { made = 0; failing = failing; faults = 0 } }
    {
        Calls {
            made: 0,
            failing,
            faults: 0,
        }
    }

    /// Counts a call, and tells whether its number is among those that fail.
    fn next_fails(&mut self) -> bool
        ensures failing { IsTrue result ↔ Contains self.old.failing.items self.old.made }
        ensures made { self.new.made ≡ min (self.old.made + 1) (2 ^ 64 - 1) }
        ensures faults { self.new.faults ≡ self.old.faults }
        ensures kept { self.new.failing ≡ self.old.failing }
    {
        let fails = self.failing.contains(&self.made);
        self.made = self.made.saturating_add(1);
        fails
    }
}

/// Copies as many bytes as there are and find room, and at most so many, and tells how many.
fn copy_front(from: &[u8], into: &mut [u8], most: usize) -> usize
    ensures count { result ≡ min (min (length from.now) (length into.old)) most }
    ensures len { length into.new ≡ length into.old }
    ensures bytes { take result into.new ≡ take result from.now }
{
    let count = from.len().min(into.len()).min(most);
    into[..count].copy_from_slice(&from[..count]);
    count
}

/// A source of bytes in memory, which contracts see by the bytes that are left, its faults and its
/// calls.
#[derive(Drop)]
pub struct MemorySource {
    bytes: Octets,
    given: usize,
    most: usize,
    calls: Calls,
}

impl Model for MemorySource {
    ghost use Rattle.std.specs.Prelude.{◌<◌, ◌≤◌, length, drop};
    ghost use Rattle.journal.specs.Memory.{Stream};

    ghost Value = { Stream };

    ghost view = { λ s. record { bytes = drop s.given s.bytes; faults = s.calls.faults; most = s.most; failing = s.calls.failing.items; made = s.calls.made } };

    ghost invariant = { λ s. (s.given ≤ length s.bytes) × (0 < s.most) };
}

impl MemorySource {
    /// Gives these bytes, at most so many a call. The calls of these numbers fail, counted from 0.
    pub fn new(bytes: Octets, most: usize, failing: Vec<u64>) -> MemorySource
        requires { 0 < most }
        ensures { result ≡ record { bytes = bytes; faults = 0; most = most; failing = failing.items; made = 0 } }
    {
        MemorySource {
            bytes,
            given: 0,
            most,
            calls: Calls::new(failing),
        }
    }

    /// How often a read has failed.
    pub fn faults(&self) -> u64
        ensures { result ≡ self.now.faults }
    {
        self.calls.faults
    }
}

impl Source for MemorySource {
    ghost use Rattle.std.specs.Prelude.{Some};

    ghost left = { λ s. Some s.bytes };

    ghost faults = { λ s. s.faults };

    fn read(&mut self, into: &mut [u8]) -> Result<usize, Failed>
        ensures bound { ReadsAtMost result into.new }
        ensures bytes { ReadConsumes (Some self.old.bytes) (Some self.new.bytes) result into.new }
        ensures cause { HasCause self.old.faults self.new.faults result }

        ensures fails { IsErr result ↔ Contains self.old.failing self.old.made }
        ensures count { IfOk result (λ n. n ≡ min (min (length self.old.bytes) (length into.new)) self.old.most) }
        ensures called { IsCalled self.old self.new }
    {
        if self.calls.next_fails() {
            return Err(raise(&mut self.calls.faults));
        }
        let count = copy_front(&self.bytes.as_slice()[self.given..], into, self.most);
        self.given += count;
        Ok(count)
    }
}

/// Appends as many bytes as there are, and at most so many, and tells how many. `None` appends
/// none: there is no memory, or there are bytes and not one may be taken.
fn append_front(from: &[u8], into: &mut Vec<u8>, most: usize) -> Option<usize>
    ensures some { IfSome result (λ count. TakesSome count from.now × (count ≡ min (length from.now) most) × (into.new.items ≡ into.old.items ++ take count from.now)) }
    ensures none { IfNone result (into.new.items ≡ into.old.items) }
{
    let count = from.len().min(most);
    if count == 0 && !from.is_empty() {
        return None;
    }
    match into.extend_from_slice(&from[..count]) {
        Ok(()) => Some(count),
        Err(_) => None,
    }
}

/// A sink into memory, which contracts see by the bytes that it took, its faults and its calls.
#[derive(Drop)]
pub struct MemorySink {
    bytes: Vec<u8>,
    most: usize,
    calls: Calls,
}

impl Model for MemorySink {
    ghost use Rattle.journal.specs.Memory.{Stream};

    ghost Value = { Stream };

    ghost view = { λ s. record { bytes = s.bytes.items; faults = s.calls.faults; most = s.most; failing = s.calls.failing.items; made = s.calls.made } };
}

impl MemorySink {
    /// Takes at most so many bytes a call. The calls of these numbers fail, counted from 0.
    pub fn new(alloc: Global, most: usize, failing: Vec<u64>) -> MemorySink
        ensures { result ≡ record { bytes = []; faults = 0; most = most; failing = failing.items; made = 0 } }
    {
        MemorySink {
            bytes: Vec::new(alloc),
            most,
            calls: Calls::new(failing),
        }
    }

    /// The bytes that it took.
    pub fn taken(&self) -> &[u8]
        ensures { result.now ≡ self.now.bytes }
    {
        self.bytes.as_slice()
    }

    /// How often a write has failed.
    pub fn faults(&self) -> u64
        ensures { result ≡ self.now.faults }
    {
        self.calls.faults
    }
}

impl Sink for MemorySink {
    ghost use Rattle.std.specs.Prelude.{Some};

    ghost taken = { λ s. Some s.bytes };

    ghost faults = { λ s. s.faults };

    fn write(&mut self, from: &[u8]) -> Result<usize, Failed>
        ensures some { IfOk result (λ count. TakesSome count from.now) }
        ensures bytes { WriteAppends (Some self.old.bytes) (Some self.new.bytes) result from.now }
        ensures cause { HasCause self.old.faults self.new.faults result }

        ensures fails { Contains self.old.failing self.old.made → IsErr result }
        ensures count { IfOk result (λ n. n ≡ min (length from.now) self.old.most) }
        ensures called { IsCalled self.old self.new }
    {
        if self.calls.next_fails() {
            return Err(raise(&mut self.calls.faults));
        }
        match append_front(from, &mut self.bytes, self.most) {
            Some(count) => Ok(count),
            None => Err(raise(&mut self.calls.faults)),
        }
    }
}
