//! Each body alone.
use crate::asserting::{bytes_are, holds, is, records_nothing, text_is};
use bytes::Bytes;
use http::{HeaderMap, HeaderName, HeaderValue};
use http_body::{Frame, SizeHint};
use life_core::{Body, DefaultBody, Empty, Full, Limited, Log, Poll, Spend, Twin, UnsyncBoxBody};
use life_probe::{ProbeBody, Says, abandoned, frame};
use std::alloc::Global;
use std::fmt;
use std::process::Abort;

/// Asserts the kind of an answer, with the bytes of a chunk, the value of `x-sum` or the text of a fault.
fn told_is(rt: &impl Abort, name: &str, kind: &str, text: &[u8], want: (&str, &str)) {
    text_is(rt, name, kind, want.0);
    bytes_are(rt, name, text, want.1.as_bytes());
}

/// Asserts what trailers are whose `x-sum` has this value.
fn sum_is(rt: &impl Abort, name: &str, value: Option<&HeaderValue>, want: (&str, &str)) {
    match value {
        Some(value) => told_is(rt, name, "trailers", value.as_bytes(), want),
        None => told_is(rt, name, "trailers", b"", want),
    }
}

/// Asserts what trailers are.
fn trailers_are(rt: &impl Abort, name: &str, trailers: &HeaderMap, want: (&str, &str)) {
    let sum = HeaderName::from_static("x-sum");
    sum_is(rt, name, trailers.get(&sum), want);
}

/// Asserts what a frame is.
fn frame_is(rt: &impl Abort, name: &str, frame: &Frame<Bytes>, want: (&str, &str)) {
    match frame.data_ref() {
        Some(chunk) => told_is(rt, name, "chunk", chunk.as_slice(), want),
        None => match frame.trailers_ref() {
            Some(trailers) => trailers_are(rt, name, trailers, want),
            None => holds(rt, name, false),
        },
    }
}

/// Asserts what a fault is.
fn fault_is(
    rt: &(impl Abort + AllocGlobal),
    name: &str,
    fault: &impl fmt::Display,
    want: (&str, &str),
) {
    let text = fault.to_string(rt.alloc()).expect(rt, "memory");
    told_is(rt, name, "fault", text.as_str().as_bytes(), want);
}

/// Asserts what an answer is.
fn answer_is<E: fmt::Display + Drop>(
    rt: &(impl Abort + AllocGlobal),
    name: &str,
    answer: Poll<Option<Result<Frame<Bytes>, E>>>,
    want: (&str, &str),
) {
    match answer {
        Poll::Pending => told_is(rt, name, "pending", b"", want),
        Poll::Ready(None) => told_is(rt, name, "end", b"", want),
        Poll::Ready(Some(Ok(frame))) => frame_is(rt, name, &frame, want),
        Poll::Ready(Some(Err(fault))) => fault_is(rt, name, &fault, want),
    }
}

/// Asserts that a body answers this to one poll, and records nothing.
fn answers<B>(rt: &(impl Abort + AllocGlobal), name: &str, body: &mut B, want: (&str, &str))
where
    B: Body<Log, Data = Bytes>,
    B::Error: fmt::Display + Drop,
    requires { B.may body.old }
    ensures { B.may body.new }
{
    let alloc = rt.alloc();
    let mut log = Log::new(alloc);
    let answer = frame(alloc, body, 0, &mut log).expect(rt, "memory");
    answer_is(rt, name, answer, want);
    records_nothing(rt, name, &mut log);
}

/// Abandons a body, which records nothing.
fn abandon<B: Spend<Log>>(rt: &(impl Abort + AllocGlobal), body: B)
    requires { B.may body }
{
    let alloc = rt.alloc();
    let mut log = Log::new(alloc);
    let left = abandoned(alloc, body, 0, &mut log);
    holds(rt, "memory to be given up", left.is_ok());
    records_nothing(rt, "a body that is given up", &mut log);
}

/// Asserts what a body answers, poll by poll.
fn answers_all<B>(rt: &(impl Abort + AllocGlobal), name: &str, body: &mut B, wants: &[(&str, &str)])
where
    B: Body<Log, Data = Bytes>,
    B::Error: fmt::Display + Drop,
    requires { B.may body.old }
    ensures { B.may body.new }
{
    for &want in wants {
        answers(rt, name, body, want);
    }
}

/// Asserts what a body with this room answers, poll by poll.
fn limits(
    rt: &(impl Abort + AllocGlobal),
    name: &str,
    room: u64,
    says: &'static [Says],
    wants: &[(&str, &str)],
) {
    let mut body = Limited::new(ProbeBody::new(says), room);
    answers_all(rt, name, &mut body, wants);
    is(rt, name, Body::<Log>::is_end_stream(&body), false);
    abandon(rt, body);
}

/// The fault of a chunk that is longer than the room.
const LONG: (&str, &str) = ("fault", "length limit exceeded");

#[test]
fn chunks_pass_while_they_fit(rt: HostRuntime) {
    limits(
        &rt,
        "3, 2, 1 and 0 bytes",
        5,
        &[
            Says::Chunk(b"abc"),
            Says::Chunk(b"de"),
            Says::Chunk(b"f"),
            Says::Chunk(b""),
        ],
        &[
            ("chunk", "abc"),
            ("chunk", "de"),
            LONG,
            ("chunk", ""),
            ("end", ""),
            ("end", ""),
        ],
    );
    limits(
        &rt,
        "no room after a fault",
        3,
        &[Says::Chunk(b"abcd"), Says::Chunk(b"a"), Says::Chunk(b"")],
        &[LONG, LONG, ("chunk", ""), ("end", "")],
    );
    limits(
        &rt,
        "no room at the start",
        0,
        &[Says::Chunk(b"a")],
        &[LONG, ("end", "")],
    );
}

#[test]
fn other_answers_take_no_room(rt: HostRuntime) {
    limits(
        &rt,
        "room exactly used",
        2,
        &[
            Says::Trailers,
            Says::Fault,
            Says::Pending,
            Says::Chunk(b"ab"),
            Says::Trailers,
            Says::Fault,
            Says::Pending,
            Says::Chunk(b"c"),
        ],
        &[
            ("trailers", "7"),
            ("fault", "3"),
            ("pending", ""),
            ("chunk", "ab"),
            ("trailers", "7"),
            ("fault", "3"),
            ("pending", ""),
            LONG,
        ],
    );
}

/// Asserts whether a body tells its end, and its hint.
fn tells<B: Body<Log>>(
    rt: &impl Abort,
    name: &str,
    body: &B,
    ended: bool,
    hint: (u64, Option<u64>),
) {
    is(rt, name, body.is_end_stream(), ended);
    let told = body.size_hint();
    is(rt, name, told.lower(), hint.0);
    is(rt, name, told.upper(), hint.1);
}

/// Asserts that a body tells its end, hints that no byte is left and answers its end.
fn is_over<B>(rt: &(impl Abort + AllocGlobal), name: &str, body: &mut B)
where
    B: Body<Log, Data = Bytes>,
    B::Error: fmt::Display + Drop,
    requires { B.may body.old }
    ensures { B.may body.new }
{
    tells(rt, name, body, true, (0, Some(0)));
    answers(rt, name, body, ("end", ""));
}

/// Asserts that a body tells and answers one chunk and then its end, twice.
fn is_one_chunk<B>(rt: &(impl Abort + AllocGlobal), body: &mut B)
where
    B: Body<Log, Data = Bytes>,
    B::Error: fmt::Display + Drop,
    requires { B.may body.old }
    ensures { B.may body.new }
{
    tells(rt, "before the chunk", body, false, (2, Some(2)));
    answers(rt, "the chunk", body, ("chunk", "hi"));
    is_over(rt, "after the chunk", body);
    is_over(rt, "after the end", body);
    tells(rt, "later", body, true, (0, Some(0)));
}

#[test]
fn one_chunk(rt: HostRuntime) {
    let first = Full::new(Bytes::from_static(b"hi"));
    let mut body = first.twin(rt.alloc()).expect(&rt, "memory");
    is_one_chunk(&rt, &mut body);
    abandon(&rt, body);
}

#[test]
fn an_empty_chunk(rt: HostRuntime) {
    let mut body = Full::new(Bytes::new());
    is_over(&rt, "an empty chunk", &mut body);
    abandon(&rt, body);
}

/// Asserts that a body of one chunk is at its end, and its twin too.
fn is_empty_with_twin(rt: &impl Abort, alloc: Global, body: &Full) {
    tells(rt, "the default", body, true, (0, Some(0)));
    let twin = body.twin(alloc).expect(rt, "memory");
    tells(rt, "its twin", &twin, true, (0, Some(0)));
}

#[test]
fn a_default_chunk(rt: HostRuntime) {
    is_empty_with_twin(&rt, rt.alloc(), &Full::default());
}

#[test]
fn no_chunk(rt: HostRuntime) {
    let mut body = Empty::new().twin(rt.alloc()).expect(&rt, "memory");
    is_over(&rt, "at first", &mut body);
    is_over(&rt, "after the end", &mut body);
    abandon(&rt, body);
}

/// Asserts whether a body with room for 5 bytes tells its end, and its hint.
fn tells_in_room<B: Body<Log, Data = Bytes>>(
    rt: &(impl Abort + AllocGlobal),
    name: &str,
    body: B,
    ended: bool,
    hint: (u64, Option<u64>),
)
    requires { B.may body }
{
    let limited = Limited::new(body, 5);
    tells(rt, name, &limited, ended, hint);
    abandon(rt, limited);
}

/// Chunks, and what they hint with room for 5 bytes.
const CHUNK_HINTS: [(&str, &'static [u8], (u64, Option<u64>)); 4] = [
    ("more than the room", b"seventy", (5, Some(5))),
    ("the room", b"fives", (5, Some(5))),
    ("less than the room", b"four", (4, Some(4))),
    ("nothing", b"", (0, Some(0))),
];

#[test]
fn hints_of_chunks_within_the_room(rt: HostRuntime) {
    for (name, chunk, want) in &CHUNK_HINTS {
        let body = Full::new(Bytes::from_static(chunk));
        tells_in_room(&rt, name, body, chunk.is_empty(), *want);
    }
}

/// The hint from `lower` up to `upper`.
fn hint_of(lower: u64, upper: Option<u64>) -> SizeHint {
    let mut hint = SizeHint::new();
    if let Some(most) = upper {
        hint.set_upper(most);
    }
    if hint.upper().is_none_or(|most| lower <= most) {
        hint.set_lower(lower);
    }
    hint
}

/// The least and most that a body hints, and what it hints with room for 5 bytes.
const BODY_HINTS: [(&str, u64, Option<u64>, (u64, Option<u64>)); 6] = [
    ("from 2", 2, None, (2, Some(5))),
    ("from 2 to 9", 2, Some(9), (2, Some(5))),
    ("from 2 to 5", 2, Some(5), (2, Some(5))),
    ("from 2 to 4", 2, Some(4), (2, Some(4))),
    ("from 5", 5, None, (5, Some(5))),
    ("from 6 to 9", 6, Some(9), (5, Some(5))),
];

#[test]
fn hints_of_bodies_within_the_room(rt: HostRuntime) {
    for (name, lower, upper, want) in &BODY_HINTS {
        let body = ProbeBody {
            says: &[],
            tells: false,
            hint: hint_of(*lower, *upper),
        };
        tells_in_room(&rt, name, body, false, *want);
    }
}

/// One answer of each kind, and the end.
const EACH: [(&str, &str); 5] = [
    ("chunk", "a"),
    ("trailers", "7"),
    ("fault", "3"),
    ("pending", ""),
    ("end", ""),
];

#[test]
fn a_service_body_in_the_box(rt: HostRuntime) {
    let mut inner: UnsyncBoxBody<ProbeBody, Full> = UnsyncBoxBody::Inner(ProbeBody {
        says: &[
            Says::Chunk(b"a"),
            Says::Trailers,
            Says::Fault,
            Says::Pending,
        ],
        tells: false,
        hint: SizeHint::with_exact(1),
    });
    tells(&rt, "a service's", &inner, false, (1, Some(1)));
    answers_all(&rt, "a service's", &mut inner, &EACH);
    abandon(&rt, inner);
}

#[test]
fn a_panic_body_in_the_box(rt: HostRuntime) {
    let full = Full::new(Bytes::from_static(b"hi"));
    let mut panic: UnsyncBoxBody<ProbeBody, Full> = UnsyncBoxBody::Panic(full);
    is_one_chunk(&rt, &mut panic);
    abandon(&rt, panic);
}

/// A default body, which may be polled.
fn default_of<B: DefaultBody<Log>>() -> B
    ensures { B.may result }
{
    B::default()
}

#[test]
fn default_bodies(rt: HostRuntime) {
    let mut body: UnsyncBoxBody<Empty, Full> = default_of();
    is_over(&rt, "the default", &mut body);
    is_over(&rt, "the default later", &mut body);
    abandon(&rt, body);
}
