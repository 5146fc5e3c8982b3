//! The source and the sink in memory.
use crate::asserting::{bytes_are, holds, is};
use life_core::{Calls, Failed, MemorySink, MemorySource, Octets, Sink, Source};
use std::alloc::Global;
use std::process::Abort;

/// The number 1 alone.
fn call_1(rt: &impl Abort, alloc: Global) -> Calls {
    let mut calls = Calls::new(alloc);
    calls.push(1).expect(rt, "memory");
    calls
}

/// What a source of `abcde` gives, at most 2 bytes a call, where call 1 fails.
const GIVEN: [Option<&[u8]>; 5] = [Some(b"ab"), None, Some(b"cd"), Some(b"e"), Some(b"")];

/// The source of `abcde` that gives at most 2 bytes a call, and fails at call 1.
fn source_of(rt: &impl Abort, alloc: Global) -> MemorySource {
    let bytes = Octets::copy(alloc, b"abcde").expect(rt, "memory");
    MemorySource::new(bytes, 2, call_1(rt, alloc))
}

/// Asserts which bytes a source gives for a piece of 4, or that it fails.
fn gives(rt: &impl Abort, source: &mut MemorySource, want: Option<&[u8]>) {
    let mut piece = [0; 4];
    match source.read(&mut piece) {
        Ok(count) => bytes_are(rt, "it gives", &piece[..count], want.unwrap_or(b"none")),
        Err(Failed) => holds(rt, "it fails", want.is_none()),
    }
}

/// Asserts what the source gives call by call, and how many calls failed.
fn gives_all(rt: &impl Abort, source: &mut MemorySource) {
    for want in &GIVEN {
        gives(rt, source, *want);
    }
    is(rt, "its faults", source.faults(), 1);
}

#[test]
fn sources_in_memory(rt: HostRuntime) {
    let mut source = source_of(&rt, rt.alloc());
    gives_all(&rt, &mut source);
}

/// What a sink with room for 5 bytes is given, how many it takes, at most 3 a call where call 1 fails, and
/// what it holds then.
const TAKEN: [(&[u8], Option<usize>, &[u8]); 6] = [
    (b"abcd", Some(3), b"abc"),
    (b"d", None, b"abc"),
    (b"d", Some(1), b"abcd"),
    (b"ef", Some(1), b"abcde"),
    (b"f", None, b"abcde"),
    (b"", Some(0), b"abcde"),
];

/// The sink with room for 5 bytes that takes at most 3 a call, and fails at call 1.
fn sink_of(rt: &impl Abort, alloc: Global) -> MemorySink {
    MemorySink::new(alloc, 5, 3, call_1(rt, alloc)).expect(rt, "memory")
}

/// Asserts how many of these bytes a sink takes, or that it fails, and what it holds then.
fn takes(rt: &impl Abort, sink: &mut MemorySink, bytes: &[u8], want: Option<usize>, held: &[u8]) {
    is(rt, "what it takes", sink.write(bytes).ok(), want);
    bytes_are(rt, "what it holds", sink.held(), held);
}

/// Asserts what the sink takes call by call, and how many calls failed.
fn takes_all(rt: &impl Abort, sink: &mut MemorySink) {
    for (bytes, want, held) in &TAKEN {
        takes(rt, sink, bytes, *want, held);
    }
    is(rt, "its faults", sink.faults(), 2);
}

#[test]
fn sinks_in_memory(rt: HostRuntime) {
    let mut sink = sink_of(&rt, rt.alloc());
    takes_all(&rt, &mut sink);
}
