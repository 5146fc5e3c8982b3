//! Whole runs between ends that fail, runs on what is no scenario, and a report without a source.
use crate::asserting::{number_is, text_is};
use crate::fixtures::{octets, read};
use crate::reports::request_is;
use life_core::{Calls, MemorySink, MemorySource, Octets};
use life_stack::{Report, Status, drive, report_text, run};
use std::alloc::AllocGlobal;
use std::process::Abort;

/// A request that is answered with status 200 and a body of one piece, which is read to its end.
const HI: &str =
    r#"{"version":1,"limits":{"timeout":10,"timeout_status":408,"body_deadline":20,"byte_limit":5,"gate_name":"x-gate","gate_value":"open","classifier":"http","span_headers":false},"requests":[{"method":"GET","uri":"/","headers":[["x-gate","open"]],"body":[],"call":"serve","polls":[{"asks":0,"then":{"respond":{"status":200,"headers":[],"body":[{"data":"hi"}],"tells":true}}}]}],"steps":[[0,0,"call"],[3,0,"poll"],[4,0,"poll"],[5,0,"drop"]],"end":5}"#;

/// What is told of it.
const TOLD: &str = "step 0 at 0 request 0 call: called
  started DEBUG request{method=GET uri=/ version=HTTP/1.1}
step 1 at 3 request 0 poll: response 200 open {x-request-id: [\"0\"]}
  finished DEBUG latency 3 ns status 200
step 2 at 4 request 0 poll: data \"hi\" ended
  chunk 2 latency 4 ns
  eos DEBUG duration 1 ns status none
step 3 at 5 request 0 drop: dropped
total: 1 requests, 4 steps, end 5
";

/// How a source gives bytes and a sink takes them: so many a call, and the calls of these numbers fail.
#[derive(Clone, Copy)]
struct Ends<'a> {
    given: u64,
    reads: &'a [u64],
    taken: u64,
    writes: &'a [u64],
}

/// Ends that move so many bytes a call, where these calls fail.
fn ends_of<'a>(given: u64, reads: &'a [u64], taken: u64, writes: &'a [u64]) -> Ends<'a> {
    Ends {
        given,
        reads,
        taken,
        writes,
    }
}

/// The numbers of calls.
fn calls(rt: &(impl Abort + AllocGlobal), numbers: &[u64]) -> Calls {
    let mut calls = Calls::new(rt.alloc());
    for number in numbers {
        calls.push(*number).expect(rt, "memory");
    }
    calls
}

/// Puts a word of a command line.
fn put(rt: &(impl Abort + AllocGlobal), words: &mut Vec<String>, word: &str) {
    let word = String::from_str(rt.alloc(), word).expect(rt, "memory");
    words.push(word).expect(rt, "memory");
}

/// The words of a command line.
fn words_of(rt: &(impl Abort + AllocGlobal), words: &[&str]) -> Vec<String> {
    let mut strings = Vec::new(rt.alloc());
    for word in words {
        put(rt, &mut strings, word);
    }
    strings
}

/// Asserts how a run ended.
fn status_is(rt: &impl Abort, name: &str, status: Status, want: Status) {
    assert_eq!(*rt; status, want, "{name}");
}

/// Asserts how a run between these ends ends, and what the sink holds then.
fn ends_with(
    rt: &(impl Abort + AllocGlobal),
    name: &str,
    words: &[&str],
    input: Octets,
    ends: Ends<'_>,
    want: (Status, &str),
) {
    let words = words_of(rt, words);
    let mut source = MemorySource::new(input, ends.given.max(1), calls(rt, ends.reads));
    let taken = ends.taken.max(1);
    let sink = MemorySink::new(rt.alloc(), 1000, taken, calls(rt, ends.writes));
    let mut sink = sink.expect(rt, "memory");
    let status = run(rt.alloc(), words.as_slice(), &mut source, &mut sink);
    status_is(rt, name, status, want.0);
    text_is(rt, sink.held(), want.1);
}

#[test]
fn faults_of_a_source_and_of_a_sink(rt: HostRuntime) {
    let fault = (Status::SourceFault, "");
    let short = (Status::SinkFault, "step 0 at 0 requ");
    let rows = [
        ("the first read", ends_of(65536, &[0], 65536, &[]), fault),
        (
            "the first read of many",
            ends_of(7, &[0], 65536, &[]),
            fault,
        ),
        ("a read in mid-stream", ends_of(7, &[3], 65536, &[]), fault),
        (
            "a write in mid-stream",
            ends_of(65536, &[], 16, &[1]),
            short,
        ),
    ];
    for (name, ends, want) in rows {
        ends_with(
            &rt,
            name,
            &["drive"],
            octets(&rt, HI.as_bytes()),
            ends,
            want,
        );
    }
}

/// So many spaces.
fn spaces(rt: &(impl Abort + AllocGlobal), count: usize) -> Octets {
    let spaces = vec![in rt.alloc(); b' '; count];
    Octets::from_vec(spaces.expect(rt, "memory"))
}

#[test]
fn answers_before_anything_is_read_as_a_scenario(rt: HostRuntime) {
    let usage = (Status::Usage, "usage: drive\n");
    let cut = (Status::SinkFault, "usage: drive");
    let unread = (Status::SourceFault, "");
    let long = (Status::TooLong, "input over 16777216 bytes\n");
    let unwritten = (Status::SinkFault, "");
    let over = 16_777_217;
    let rows: [(&str, &[&str], usize, &[u64], &[u64], (Status, &str)); 7] = [
        ("no word", &[], 1, &[0], &[], usage),
        ("a word more", &["drive", "x"], 1, &[0], &[], usage),
        ("a capital", &["Drive"], 1, &[0], &[], usage),
        ("usage cut short", &[], 1, &[], &[1], cut),
        ("no read", &["drive"], 1, &[0], &[], unread),
        ("too long", &["drive"], over, &[], &[], long),
        ("unwritten", &["drive"], over, &[], &[0], unwritten),
    ];
    for (name, words, count, reads, writes, want) in rows {
        let ends = ends_of(65536, reads, 12, writes);
        ends_with(&rt, name, words, spaces(&rt, count), ends, want);
    }
}

/// The report of a scenario.
fn driven(rt: &(impl Abort + AllocGlobal), text: &str) -> Report {
    let (limits, scenario) = read(rt, text);
    drive(rt.alloc(), &limits, &scenario).expect(rt, "a valid scenario")
}

/// Asserts the text of a report.
fn report_shows(rt: &(impl Abort + AllocGlobal), report: &Report, want: &str) {
    let text = report_text(rt.alloc(), report).expect(rt, "memory");
    text_is(rt, text.as_slice(), want);
}

#[test]
fn drives_without_a_source(rt: HostRuntime) {
    let report = driven(&rt, HI);
    number_is(&rt, report.end(), 5);
    number_is(&rt, report.steps().len(), 4);
    number_is(&rt, report.requests(), 1);
    let wants = [
        (
            "called",
            "started DEBUG request{method=GET uri=/ version=HTTP/1.1}",
        ),
        (
            "response 200 open {x-request-id: [\"0\"]}",
            "finished DEBUG latency 3 ns status 200",
        ),
        (
            "data \"hi\" ended",
            "chunk 2 latency 4 ns\neos DEBUG duration 1 ns status none",
        ),
        ("dropped", ""),
    ];
    request_is(&rt, &report, 0, &wants);
    report_shows(&rt, &report, TOLD);
}
