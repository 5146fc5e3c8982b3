//! Texts and bytes that are kept, and what is written of values for readers and for programmers.
use crate::asserting::{bytes_are, holds, is, text_is};
use life_core::{
    BodyError, Empty, Event, Fault, Fields, Handed, Latency, LatencyUnit, Level, Octets, PanicText,
    Span, Text, Twin,
};
use std::alloc::Global;
use std::fmt;
use std::process::Abort;

/// Asserts how a value is written for a reader.
fn written(rt: &impl Abort, alloc: Global, value: &impl fmt::Display, want: &str) {
    let text = value.to_string(alloc).expect(rt, "memory");
    text_is(rt, "a text", text.as_str(), want);
}

/// Asserts how a value is shown to a programmer.
fn shown(rt: &impl Abort, alloc: Global, value: &impl fmt::Debug, want: &str) {
    let text = format!(in alloc; "{value:?}").expect(rt, "memory");
    text_is(rt, "a text", text.as_str(), want);
}

/// Asserts how a fault of a body is written for a reader.
fn fault_written(rt: &impl Abort, alloc: Global, fault: BodyError<u64>, want: &str) {
    written(rt, alloc, &fault, want);
}

/// Lengths of time in nanoseconds, and how they are written in a unit.
const LATENCIES: [(LatencyUnit, u64, &str); 10] = [
    (LatencyUnit::Seconds, 1_500_000_000, "1.5 s"),
    (LatencyUnit::Millis, 1_500_000_000, "1500 ms"),
    (LatencyUnit::Micros, 1_500_000_000, "1500000 μs"),
    (LatencyUnit::Nanos, 1_500_000_000, "1500000000 ns"),
    (LatencyUnit::Seconds, 2_000_000_000, "2 s"),
    (LatencyUnit::Seconds, 1, "0.000000001 s"),
    (LatencyUnit::Seconds, 0, "0 s"),
    (LatencyUnit::Millis, 1_999_999, "1 ms"),
    (LatencyUnit::Micros, 999, "0 μs"),
    (LatencyUnit::Nanos, 0, "0 ns"),
];

/// Asserts how a length of time is written in a unit.
fn latency_written(rt: &impl Abort, alloc: Global, unit: LatencyUnit, nanos: u64, want: &str) {
    written(rt, alloc, &Latency { unit, nanos }, want);
}

#[test]
fn latencies_written(rt: HostRuntime) {
    let alloc = rt.alloc();
    for &(unit, nanos, want) in &LATENCIES {
        latency_written(&rt, alloc, unit, nanos, want);
    }
}

#[test]
fn faults_written(rt: HostRuntime) {
    let alloc = rt.alloc();
    let want = "data was not received within the designated timeout";
    fault_written(&rt, alloc, BodyError::Elapsed, want);
    fault_written(&rt, alloc, BodyError::LengthLimit, "length limit exceeded");
    fault_written(&rt, alloc, BodyError::Inner(7), "7");
}

/// Levels, and how they are written.
const LEVELS: [(Level, &str); 5] = [
    (Level::Error, "ERROR"),
    (Level::Warn, "WARN"),
    (Level::Info, "INFO"),
    (Level::Debug, "DEBUG"),
    (Level::Trace, "TRACE"),
];

#[test]
fn levels_written(rt: HostRuntime) {
    let alloc = rt.alloc();
    for (level, want) in &LEVELS {
        written(&rt, alloc, level, want);
    }
}

/// Asserts what a twin of a text is.
fn text_twin_is(rt: &impl Abort, alloc: Global, text: &Text, want: &str) {
    let twin = text.twin(alloc).expect(rt, "memory");
    text_is(rt, "a twin", twin.as_str(), want);
}

/// Asserts what a twin of bytes is.
fn octets_twin_is(rt: &impl Abort, alloc: Global, octets: &Octets, want: &[u8]) {
    let twin = octets.twin(alloc).expect(rt, "memory");
    bytes_are(rt, "a twin", twin.as_slice(), want);
}

/// Asserts whether a text is the same as a copy of another one.
fn same_as_copy(rt: &impl Abort, alloc: Global, text: &Text, other: &str, want: bool) {
    let copy = Text::copy(alloc, other).expect(rt, "memory");
    is(rt, other, *text == copy, want);
}

/// Asserts what a twin of `hi` is, and which texts are the same.
fn is_hi(rt: &impl Abort, alloc: Global, text: &Text) {
    text_twin_is(rt, alloc, text, "hi");
    same_as_copy(rt, alloc, text, "hi", true);
    same_as_copy(rt, alloc, text, "Hi", false);
    same_as_copy(rt, alloc, text, "hi ", false);
    same_as_copy(rt, alloc, text, "", false);
}

#[test]
fn kept_texts(rt: HostRuntime) {
    let alloc = rt.alloc();
    is_hi(&rt, alloc, &Text::copy(alloc, "hi").expect(&rt, "memory"));
}

/// Asserts what is kept of what a value shows.
fn kept_as_shown(rt: &impl Abort, alloc: Global, value: &impl fmt::Display, want: &str) {
    let text = Text::shown(alloc, value).expect(rt, "memory");
    text_is(rt, "what it shows", text.as_str(), want);
}

#[test]
fn texts_of_what_is_shown(rt: HostRuntime) {
    let alloc = rt.alloc();
    kept_as_shown(&rt, alloc, &Level::Warn, "WARN");
    kept_as_shown(&rt, alloc, &7u64, "7");
    kept_as_shown(&rt, alloc, &"", "");
    let want = "data was not received within the designated timeout";
    kept_as_shown(&rt, alloc, &BodyError::<u64>::Elapsed, want);
}

#[test]
fn texts_written(rt: HostRuntime) {
    let alloc = rt.alloc();
    let text = Text::copy(alloc, "a \"b\" \u{e9}\n").expect(&rt, "memory");
    written(&rt, alloc, &text, "a \"b\" \u{e9}\n");
    kept_as_shown(&rt, alloc, &text, "a \"b\" \u{e9}\n");
}

#[test]
fn kept_bytes(rt: HostRuntime) {
    let alloc = rt.alloc();
    octets_twin_is(
        &rt,
        alloc,
        &Octets::copy(alloc, b"hi").expect(&rt, "memory"),
        b"hi",
    );
}

#[test]
fn bytes_of_a_vector(rt: HostRuntime) {
    let octets = Octets::from_vec(vec![in rt.alloc(); 1, 2].expect(&rt, "memory"));
    bytes_are(&rt, "these very bytes", octets.as_slice(), &[1, 2]);
}

/// Asserts what a span is: its name, and its one pair.
fn span_is(rt: &impl Abort, span: &Span, name: &str, key: &str, value: &str) {
    text_is(rt, "a name", span.name.as_str(), name);
    let [pair] = span.fields.as_slice() else {
        panic!(*rt; "not one pair");
    };
    text_is(rt, "a key", pair.0.as_str(), key);
    text_is(rt, "a value", pair.1.as_str(), value);
    holds(rt, "no headers", span.headers.is_none());
}

/// Asserts what a twin of a span is.
fn span_twin_is(rt: &impl Abort, alloc: Global, span: &Span, name: &str, key: &str, value: &str) {
    let twin = span.twin(alloc).expect(rt, "memory");
    span_is(rt, &twin, name, key, value);
}

#[test]
fn spans(rt: HostRuntime) {
    let alloc = rt.alloc();
    let mut span = Span::new(alloc, Level::Debug, "request").expect(&rt, "memory");
    span.put(alloc, "method", "GET").expect(&rt, "memory");
    span_is(&rt, &span, "request", "method", "GET");
    span_twin_is(&rt, alloc, &span, "request", "method", "GET");
}

/// Asserts what a panic said, as far as that is known.
fn said_is(rt: &impl Abort, said: &PanicText, want: Option<&str>) {
    match said {
        PanicText::Known(text) => {
            text_is(rt, "a known text", text.as_str(), want.unwrap_or("none"));
        }
        PanicText::Unknown => holds(rt, "no text", want.is_none()),
    }
}

/// Asserts what a twin of the text of a panic is.
fn panic_twin_is(rt: &impl Abort, alloc: Global, said: &PanicText, want: Option<&str>) {
    let twin = said.twin(alloc).expect(rt, "memory");
    said_is(rt, &twin, want);
}

#[test]
fn panic_texts(rt: HostRuntime) {
    let alloc = rt.alloc();
    let known = PanicText::Known(Text::copy(alloc, "hi").expect(&rt, "memory"));
    panic_twin_is(&rt, alloc, &known, Some("hi"));
    panic_twin_is(&rt, alloc, &PanicText::Unknown, None);
}

/// Asserts how a fault is shown to a programmer.
fn fault_shown(rt: &impl Abort, alloc: Global, fault: Fault<BodyError<u64>>, want: &str) {
    shown(rt, alloc, &fault, want);
}

#[test]
fn faults_shown_to_a_programmer(rt: HostRuntime) {
    let alloc = rt.alloc();
    let known = PanicText::Known(Text::copy(alloc, "hi").expect(&rt, "memory"));
    let want = "Panicked(Known(Text { text: \"hi\" }))";
    fault_shown(&rt, alloc, Fault::Panicked(known), want);
    let unknown = PanicText::Unknown;
    fault_shown(&rt, alloc, Fault::Panicked(unknown), "Panicked(Unknown)");
    let elapsed = BodyError::Elapsed;
    fault_shown(&rt, alloc, Fault::Err(elapsed), "Err(Elapsed)");
    let too_long = BodyError::LengthLimit;
    fault_shown(&rt, alloc, Fault::Err(too_long), "Err(LengthLimit)");
    let inner = BodyError::Inner(7);
    fault_shown(&rt, alloc, Fault::Err(inner), "Err(Inner(7))");
}

#[test]
fn empty_shown_to_a_programmer(rt: HostRuntime) {
    shown(&rt, rt.alloc(), &Empty::new(), "Empty");
}

/// Asserts how what was handed is shown to a programmer, alone and in its event.
fn handed_shown(rt: &impl Abort, alloc: Global, got: Handed, want: &str, in_event: &str) {
    shown(rt, alloc, &got, want);
    shown(rt, alloc, &Event::Handed { got }, in_event);
}

#[test]
fn frames_shown_to_a_programmer(rt: HostRuntime) {
    let alloc = rt.alloc();
    handed_shown(
        &rt,
        alloc,
        Handed::Chunk(Octets::copy(alloc, b"hi").expect(&rt, "memory")),
        "Chunk(Octets { bytes: [104, 105] })",
        "Handed { got: Chunk(Octets { bytes: [104, 105] }) }",
    );
    handed_shown(
        &rt,
        alloc,
        Handed::Trailers(Fields::none(alloc)),
        "Trailers(Fields { entries: [] })",
        "Handed { got: Trailers(Fields { entries: [] }) }",
    );
    handed_shown(
        &rt,
        alloc,
        Handed::Inner(Text::copy(alloc, "no").expect(&rt, "memory")),
        "Inner(Text { text: \"no\" })",
        "Handed { got: Inner(Text { text: \"no\" }) }",
    );
}

#[test]
fn other_answers_shown_to_a_programmer(rt: HostRuntime) {
    let alloc = rt.alloc();
    let pending = Handed::Pending;
    handed_shown(&rt, alloc, pending, "Pending", "Handed { got: Pending }");
    handed_shown(&rt, alloc, Handed::End, "End", "Handed { got: End }");
    let too_long = Handed::LengthLimit;
    let want = "Handed { got: LengthLimit }";
    handed_shown(&rt, alloc, too_long, "LengthLimit", want);
    let elapsed = Handed::Elapsed;
    handed_shown(&rt, alloc, elapsed, "Elapsed", "Handed { got: Elapsed }");
}

#[test]
fn panics_shown_to_a_programmer(rt: HostRuntime) {
    let event = Event::Panic {
        level: Level::Error,
        text: PanicText::Unknown,
    };
    let want = "Panic { level: Error, text: Unknown }";
    shown(&rt, rt.alloc(), &event, want);
}
