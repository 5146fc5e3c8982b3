//! A source and a sink in memory, whose calls with given numbers fail.
ghost use Rattle.std.specs.Prelude.{◌≡◌, ◌≤◌, Some, IfOk, length, drop};
ghost use Rattle.std.specs.Vec.{vec_capacity, vec_len};

use crate::Got;
use crate::list::List;
use crate::outside::{Failed, Sink, Source};
use crate::text::Octets;
use std::alloc::Global;

/// Numbers of calls, counted from 0.
pub type Calls = List<u64>;

/// Bytes that are taken in pieces.
#[derive(Drop)]
pub struct MemorySource {
    bytes: Octets,
    at: usize,
    most: usize,
    fails: Calls,
    calls: u64,
    faults: u64,
    ghost within: { at ≤ length bytes },
    ghost some: { 1 ≤ most },
}

impl MemorySource {
    ghost use Rattle.life_core.specs.Memory.{IsNewSource};

    /// A source of these bytes, which gives at most `most` a call. The calls with the numbers of `fails`
    /// fail.
    pub fn new(bytes: Octets, most: u64, fails: Calls) -> MemorySource
        requires { 1 ≤ most }
        ensures { IsNewSource bytes most fails.items result }
    {
        MemorySource {
            bytes,
            at: 0,
            most: most as usize,
            fails,
            calls: 0,
            faults: 0,
        }
    }

    /// How many calls failed.
    pub fn faults(&self) -> u64
        ensures { result ≡ self.now.faults }
    {
        self.faults
    }
}

impl Source for MemorySource {
    ghost use Rattle.life_core.specs.Memory.{SourceReads, never_fails_source};

    ghost rest = { λ s. Some (drop s.at s.bytes) };

    ghost faults = { λ s. s.faults };

    ghost reliable = { never_fails_source };

    ghost reads = { SourceReads };

    fn read(&mut self, buf: &mut [u8]) -> Result<usize, Failed> {
        let call = self.calls;
        self.calls = self.calls.wrapping_add(1);
        if self.fails.as_slice().contains(&call) {
            self.faults = self.faults.saturating_add(1);
            return Err(Failed);
        }
        let rest = &self.bytes.as_slice()[self.at..];
        let count = buf.len().min(self.most).min(rest.len());
        buf[..count].copy_from_slice(&rest[..count]);
        self.at += count;
        Ok(count)
    }
}

/// Bytes up to a room.
#[derive(Drop)]
pub struct MemorySink {
    held: Vec<u8>,
    room: usize,
    most: usize,
    fails: Calls,
    calls: u64,
    faults: u64,
    ghost reserved: { room ≤ vec_capacity held },
    ghost within: { vec_len held ≤ room },
    ghost some: { 1 ≤ most },
}

impl MemorySink {
    ghost use Rattle.life_core.specs.Memory.{IsNewSink};

    /// An empty sink for `room` bytes, which takes at most `most` a call. The calls with the numbers of
    /// `fails` fail, and so does a write of some bytes where no room is left.
    pub fn new(alloc: Global, room: u64, most: u64, fails: Calls) -> Got<MemorySink>
        requires { 1 ≤ most }
        ensures { IfOk result (IsNewSink room most fails.items) }
    {
        let held = Vec::with_capacity(alloc, room as usize)?;
        Ok(MemorySink {
            held,
            room: room as usize,
            most: most as usize,
            fails,
            calls: 0,
            faults: 0,
        })
    }

    /// The bytes that it was given.
    pub fn held(&self) -> &[u8]
        ensures { result.now ≡ self.now.held.items }
    {
        self.held.as_slice()
    }

    /// How many calls failed.
    pub fn faults(&self) -> u64
        ensures { result ≡ self.now.faults }
    {
        self.faults
    }
}

impl Sink for MemorySink {
    ghost use Rattle.life_core.specs.Memory.{SinkWrites, never_fails_sink};

    ghost held = { λ s. Some s.held.items };

    ghost faults = { λ s. s.faults };

    ghost reliable = { never_fails_sink };

    ghost writes = { SinkWrites };

    fn write(&mut self, buf: &[u8]) -> Result<usize, Failed> {
        let call = self.calls;
        self.calls = self.calls.wrapping_add(1);
        if self.fails.as_slice().contains(&call) {
            self.faults = self.faults.saturating_add(1);
            return Err(Failed);
        }
        let count = buf.len().min(self.most).min(self.room - self.held.len());
        if count == 0 && !buf.is_empty() {
            self.faults = self.faults.saturating_add(1);
            return Err(Failed);
        }
        match self.held.extend_from_slice(&buf[..count]) {
            Ok(()) => Ok(count),
            Err(_) => unreachable!(),
        }
    }
}
