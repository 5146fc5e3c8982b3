//! Runs each scenario of standard input, one a line, and writes how it ends and what it writes.
//!
//! A line that begins with `#` says what the scenario below it shows, and is copied. Each scenario is run many times,
//! between sources and sinks that move few or many bytes a call, and all of its runs are to do the same.
#![tactic(auto)]

use life_core::{Got, List, MemorySink, MemorySource, Octets};
use life_stack::{Status, run};
use std::alloc::{AllocGlobal, Global};
use std::io;
use std::io::Write;

/// How many bytes a source gives, and a sink takes, in one call.
const PACES: [u64; 4] = [1, 7, 16, 65536];

/// Room for the longest report of a scenario.
const ROOM: u64 = 65536;

/// How a run ended, and what it wrote.
#[derive(Drop)]
struct Outcome {
    status: Status,
    written: Octets,
}

/// What a run on this input does, between a source and a sink of these paces.
fn run_between(alloc: Global, input: &[u8], given: u64, taken: u64) -> Got<Outcome> {
    let mut words = Vec::new(alloc);
    words.push(String::from_str(alloc, "drive")?)?;
    let bytes = Octets::copy(alloc, input)?;
    let mut source = MemorySource::new(bytes, given.max(1), List::new(alloc));
    let mut sink = MemorySink::new(alloc, ROOM, taken.max(1), List::new(alloc))?;
    let status = run(alloc, words.as_slice(), &mut source, &mut sink);
    let written = Octets::copy(alloc, sink.held())?;
    Ok(Outcome { status, written })
}

/// Whether a run between a source and a sink of these paces does this.
fn does(alloc: Global, input: &[u8], given: u64, taken: u64, want: &Outcome) -> Got<bool> {
    let other = run_between(alloc, input, given, taken)?;
    Ok(other.status == want.status && other.written.as_slice() == want.written.as_slice())
}

/// Whether runs between a source and a sink of any paces do this.
fn always_does(alloc: Global, input: &[u8], want: &Outcome) -> Got<bool> {
    for given in PACES {
        for taken in PACES {
            if !does(alloc, input, given, taken, want)? {
                return Ok(false);
            }
        }
    }
    Ok(true)
}

/// Writes how a run ended and what it wrote.
fn put(rt: &HostRuntime, outcome: &Outcome) -> io::Result<()> {
    println!(rt; "status {}", outcome.status.number())?;
    rt.stdout().write_all(outcome.written.as_slice())
}

/// Writes how the runs on this input end and what they write, or that they do not agree.
fn tell(rt: &HostRuntime, input: &[u8]) -> io::Result<()> {
    let alloc = rt.alloc();
    let Ok(first) = run_between(alloc, input, 65536, 65536) else {
        return println!(rt; "no memory");
    };
    match always_does(alloc, input, &first) {
        Ok(true) => put(rt, &first),
        Ok(false) => println!(rt; "runs between other ends differ"),
        Err(_) => println!(rt; "no memory"),
    }
}

fn main(rt: HostRuntime) -> io::Result<()> {
    for line in rt.lines(rt.alloc()) {
        let line = line?;
        if line.as_str().starts_with("#") {
            println!(rt; "{line}")?;
        } else {
            tell(&rt, line.as_str().as_bytes())?;
        }
    }
    Ok(())
}
