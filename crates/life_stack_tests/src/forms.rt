//! Each form of text once.
use crate::asserting::text_is;
use crate::fixtures::{octets, text};
use http::{HeaderName, HeaderValue, StatusCode};
use life_core::{
    BodyError, DropKind, Event, Fields, Handed, Latency, LatencyUnit, Level, PanicText, Text,
};
use life_script::{Answer, HeaderList, MAX_HEADER_VALUES, Seen, answer_text, event_text};
use std::alloc::AllocGlobal;
use std::process::Abort;

/// Asserts the text of an answer.
fn shows(rt: &(impl Abort + AllocGlobal), answer: Answer, want: &str) {
    let text = answer_text(rt.alloc(), &answer).expect(rt, "memory");
    text_is(rt, text.as_slice(), want);
}

/// Asserts the text of an event.
fn tells(rt: &(impl Abort + AllocGlobal), event: Event, want: &str) {
    let text = event_text(rt.alloc(), &event).expect(rt, "memory");
    text_is(rt, text.as_slice(), want);
}

/// Asserts the text of what a service was handed.
fn hands(rt: &(impl Abort + AllocGlobal), got: Handed, want: &str) {
    tells(rt, Event::Handed { got }, want);
}

/// Puts a field at the end.
fn put(rt: &(impl Abort + AllocGlobal), headers: &mut HeaderList, name: &str, value: &str) {
    let name = HeaderName::from_bytes(rt.alloc(), name.as_bytes()).expect(rt, "a name");
    let value = HeaderValue::from_bytes(rt.alloc(), value.as_bytes()).expect(rt, "a value");
    headers.push(name, value).expect(rt, "memory");
}

/// The fields of these names and values, as they are shown.
fn fields(rt: &(impl Abort + AllocGlobal), pairs: &[(&str, &str)]) -> Fields {
    let mut headers = HeaderList::new(rt.alloc());
    for &(name, value) in pairs {
        put(rt, &mut headers, name, value);
    }
    assert!(*rt; headers.len() <= MAX_HEADER_VALUES);
    let map = headers.to_map(rt.alloc()).expect(rt, "memory");
    Fields::of(rt.alloc(), &map).expect(rt, "memory")
}

/// A response with these headers.
fn response(rt: &(impl Abort + AllocGlobal), pairs: &[(&str, &str)], ended: bool) -> Answer {
    Answer::Response {
        status: StatusCode::OK,
        headers: fields(rt, pairs),
        ended,
    }
}

#[test]
fn responses(rt: HostRuntime) {
    let bare = "response 200 open {}";
    shows(&rt, response(&rt, &[], false), bare);
    let one = r#"response 200 ended {x-id: [""]}"#;
    shows(&rt, response(&rt, &[("X-Id", "")], true), one);
    let mixed = [("b", "2"), ("ab", "t\\"), ("B", "1"), ("a", "3")];
    let many = r#"response 200 ended {a: ["3"], ab: ["t\\"], b: ["2", "1"]}"#;
    shows(&rt, response(&rt, &mixed, true), many);
}

/// Trailers with these names and values.
fn trailers_of(rt: &(impl Abort + AllocGlobal), pairs: &[(&str, &str)], ended: bool) -> Answer {
    let frame = Seen::Trailers(fields(rt, pairs));
    Answer::Frame { frame, ended }
}

#[test]
fn trailers(rt: HostRuntime) {
    let sums = [("x-sum", "1\""), ("x-sum", "2")];
    let open = r#"trailers {x-sum: ["1\"", "2"]} open"#;
    shows(&rt, trailers_of(&rt, &sums, false), open);
    let ended = r#"trailers {x-sum: ["1\"", "2"]} ended"#;
    shows(&rt, trailers_of(&rt, &sums, true), ended);
}

/// A chunk of these bytes.
fn chunk(rt: &(impl Abort + AllocGlobal), bytes: &[u8], ended: bool) -> Answer {
    let frame = Seen::Chunk(octets(rt, bytes));
    Answer::Frame { frame, ended }
}

#[test]
fn chunks(rt: HostRuntime) {
    let escapes = r#"data "hi\"\\\x0a\xff~\x7f" open"#;
    shows(&rt, chunk(&rt, b"hi\"\\\n\xff~\x7f", false), escapes);
    shows(&rt, chunk(&rt, b"", true), r#"data "" ended"#);
}

#[test]
fn bare_answers(rt: HostRuntime) {
    shows(&rt, Answer::Called, "called");
    shows(&rt, Answer::Idle, "idle");
    shows(&rt, Answer::Pending, "pending");
    shows(&rt, Answer::End, "end");
    shows(&rt, Answer::Dropped, "dropped");
}

/// Asserts the text of a fault.
fn fault_shows(rt: &(impl Abort + AllocGlobal), fault: BodyError<Text>, want: &str) {
    shows(rt, Answer::Fault(fault), want);
}

#[test]
fn errors_and_faults(rt: HostRuntime) {
    let refused = Answer::ServiceError(text(&rt, "no \u{e9}"));
    shows(&rt, refused, r#"error "no \xc3\xa9""#);
    fault_shows(&rt, BodyError::Elapsed, "fault elapsed");
    fault_shows(&rt, BodyError::LengthLimit, "fault length-limit");
    let cut = BodyError::Inner(text(&rt, "cut"));
    fault_shows(&rt, cut, r#"fault inner "cut""#);
}

#[test]
fn drops(rt: HostRuntime) {
    let latency = Latency {
        unit: LatencyUnit::Nanos,
        nanos: 2,
    };
    let kinds = [
        (DropKind::Future, "dropped future latency 2 ns"),
        (
            DropKind::Body(StatusCode::OK),
            "dropped body 200 latency 2 ns",
        ),
    ];
    for (what, want) in kinds {
        tells(&rt, Event::Dropped { what, latency }, want);
    }
}

#[test]
fn panics(rt: HostRuntime) {
    let levels = [
        (Level::Error, "panic ERROR unknown"),
        (Level::Warn, "panic WARN unknown"),
        (Level::Info, "panic INFO unknown"),
        (Level::Debug, "panic DEBUG unknown"),
        (Level::Trace, "panic TRACE unknown"),
    ];
    for (level, want) in levels {
        let text = PanicText::Unknown;
        tells(&rt, Event::Panic { level, text }, want);
    }
    let text = PanicText::Known(text(&rt, "a \"b\"\n"));
    let level = Level::Error;
    let want = r#"panic ERROR "a \"b\"\x0a""#;
    tells(&rt, Event::Panic { level, text }, want);
}

#[test]
fn handed(rt: HostRuntime) {
    hands(&rt, Handed::Pending, "handed pending");
    hands(&rt, Handed::End, "handed end");
    hands(&rt, Handed::LengthLimit, "handed fault length-limit");
    hands(&rt, Handed::Elapsed, "handed fault elapsed");
    let cut = Handed::Inner(text(&rt, "cut \u{e9}"));
    hands(&rt, cut, r#"handed fault inner "cut \xc3\xa9""#);
    let chunk = Handed::Chunk(octets(&rt, b"hello \xff"));
    hands(&rt, chunk, r#"handed data "hello \xff""#);
    let sums = Handed::Trailers(fields(&rt, &[("X-Sum", "1"), ("x-sum", "2")]));
    hands(&rt, sums, r#"handed trailers {x-sum: ["1", "2"]}"#);
    let none = Handed::Trailers(fields(&rt, &[]));
    hands(&rt, none, "handed trailers {}");
}
