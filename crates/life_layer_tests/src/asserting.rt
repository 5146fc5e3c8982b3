//! What tests of several subjects ask and assert.
ghost use Rattle.std.specs.Prelude.{IfOk};

use bytes::Bytes;
use http::header::{HeaderMap, HeaderName, HeaderValue};
use http_body::Frame;
use life_core::{
    Body, Event, Fault, Future, Got, Layer, Log, Poll, Request, Response, ResponseHead, Service,
    Sound, Spend, Twin,
};
use life_probe::{Probe, ProbeBody, abandoned, called, frame, polled, readiness};
use life_script::event_text;
use std::fmt::Display;
use std::process::Abort;

/// Asserts that a service is ready.
pub fn is_ready<R, S, E>(rt: &(impl Abort + AllocGlobal), service: &mut S)
where
    R: Sound<Log>,
    S: Service<R, Log, Error = E>,
    E: Drop,
    ensures { S.may service.old → S.may service.new }
{
    match readiness(rt.alloc(), service, &mut Log::new(rt.alloc())) {
        Poll::Ready(Ok(())) => (),
        Poll::Ready(Err(_)) => panic!(rt; "an error"),
        Poll::Pending => panic!(rt; "not ready"),
    }
}

/// The future of a request that is called at this time.
pub fn future_of<R: Sound<Log>, S: Service<R, Log>>(
    rt: &(impl Abort + AllocGlobal),
    service: &mut S,
    request: R,
    now: u64,
    log: &mut Log,
) -> S::Future
    requires { S.may service.old × R.sound request }
    ensures may { S.may service.new }
    ensures live { S.Future.live result }
    ensures future_may { S.Future.may result }
{
    match called(rt.alloc(), service, request, now, log) {
        Ok(future) => future,
        Err(_) => panic!(rt; "no memory for the call"),
    }
}

/// Asserts that a future does not answer at this time.
pub fn waits<F: Future<Log>>(
    rt: &(impl Abort + AllocGlobal),
    future: &mut F,
    now: u64,
    log: &mut Log,
)
    requires { F.live future.old × F.may future.old }
    ensures { F.live future.new × F.may future.new }
{
    match polled(rt.alloc(), future, now, log) {
        Ok(Poll::Pending) => (),
        Ok(Poll::Ready(_answer)) => panic!(rt; "an answer at {now}"),
        Err(_) => panic!(rt; "no memory"),
    }
}

/// Abandons a future or a body, and asserts that this succeeds.
pub fn abandon<F: Spend<Log>>(rt: &(impl Abort + AllocGlobal), value: F, now: u64, log: &mut Log)
    requires { F.may value }
{
    match abandoned(rt.alloc(), value, now, log) {
        Ok(()) => (),
        Err(_) => panic!(rt; "no memory"),
    }
}

/// What a future answers at this time. Then it is abandoned.
pub fn answer_of<F: Future<Log>>(
    rt: &(impl Abort + AllocGlobal),
    mut future: F,
    now: u64,
    log: &mut Log,
) -> F::Output
    requires { F.live future × F.may future }
    ensures { F.Output.sound result }
{
    let answer = polled(rt.alloc(), &mut future, now, log);
    abandon(rt, future, now, log);
    match answer {
        Ok(Poll::Ready(answer)) => answer,
        Ok(Poll::Pending) => panic!(rt; "no answer at {now}"),
        Err(_) => panic!(rt; "no memory"),
    }
}

/// What a service answers at a time to a request that it was called with at another.
pub fn answered<R: Sound<Log>, S: Service<R, Log>>(
    rt: &(impl Abort + AllocGlobal),
    service: &mut S,
    request: R,
    times: (u64, u64),
    log: &mut Log,
) -> Result<S::Response, S::Error>
    requires { S.may service.old × R.sound request }
    ensures { S.may service.new }
{
    let future = future_of(rt, service, request, times.0, log);
    answer_of(rt, future, times.1, log)
}

/// The same of a service that is ready, where its future is polled before, at a time when it waits.
pub fn answered_late<R, S, E>(
    rt: &(impl Abort + AllocGlobal),
    service: &mut S,
    request: R,
    times: (u64, u64, u64),
) -> Result<S::Response, E>
where
    R: Sound<Log>,
    S: Service<R, Log, Error = E>,
    E: Drop,
    requires { S.may service.old × R.sound request }
    ensures { S.may service.new }
{
    is_ready(rt, service);
    let mut log = Log::new(rt.alloc());
    let mut future = future_of(rt, service, request, times.0, &mut log);
    waits(rt, &mut future, times.1, &mut log);
    answer_of(rt, future, times.2, &mut log)
}

/// Asserts that a service is ready, and that its future waits at a time. Then it is abandoned at another.
pub fn left_early<R, S, E>(
    rt: &(impl Abort + AllocGlobal),
    service: &mut S,
    request: R,
    times: (u64, u64, u64),
    log: &mut Log,
)
where
    R: Sound<Log>,
    S: Service<R, Log, Error = E>,
    E: Drop,
    requires { S.may service.old × R.sound request }
{
    is_ready(rt, service);
    let mut future = future_of(rt, service, request, times.0, log);
    waits(rt, &mut future, times.1, log);
    abandon(rt, future, times.2, log);
}

/// Asserts the status of a head, and that it has no headers.
pub fn is_bare<X: Drop>(rt: &impl Abort, head: ResponseHead<X>, status: u16) {
    assert_eq!(rt; head.status().as_u16(), status);
    assert!(rt; head.parts.headers.is_empty());
}

/// Asserts that there is such a chunk, or none.
fn is_chunk(rt: &impl Abort, chunk: Option<Bytes>, want: Result<&[u8], &str>) {
    match (chunk, want) {
        (Some(chunk), Ok(want)) => assert_eq!(rt; chunk.as_slice(), want),
        _ => panic!(rt; "another kind of answer"),
    }
}

/// Asserts what a value shows.
pub fn shows<T: Display>(rt: &(impl Abort + AllocGlobal), value: &T, want: &str) {
    match value.to_string(rt.alloc()) {
        Ok(text) => assert_eq!(rt; text.as_str(), want),
        Err(_) => panic!(rt; "no memory for {want}"),
    }
}

/// Asserts that a frame is such a chunk, or that it is trailers.
fn is_frame(rt: &impl Abort, frame: Frame<Bytes>, want: Result<&[u8], &str>) {
    match want {
        Ok(_) => is_chunk(rt, frame.into_data().ok(), want),
        Err(word) => {
            assert!(rt; frame.is_trailers());
            assert_eq!(rt; word, "trailers");
        }
    }
}

/// Asserts what a body says at this time: a chunk, or the text of a fault, or `trailers`, `pending` or `end`.
pub fn says<B, E>(
    rt: &(impl Abort + AllocGlobal),
    body: &mut B,
    now: u64,
    want: Result<&[u8], &str>,
)
where
    B: Body<Log, Data = Bytes, Error = E>,
    E: Display + Drop,
    requires { B.may body.old }
    ensures { B.may body.new }
{
    says_into(rt, body, now, want, &mut Log::new(rt.alloc()));
}

/// The same where what is recorded is kept.
fn says_into<B, E>(
    rt: &(impl Abort + AllocGlobal),
    body: &mut B,
    now: u64,
    want: Result<&[u8], &str>,
    log: &mut Log,
)
where
    B: Body<Log, Data = Bytes, Error = E>,
    E: Display + Drop,
    requires { B.may body.old }
    ensures { B.may body.new }
{
    let word = want.err().unwrap_or("a chunk");
    match frame(rt.alloc(), body, now, log) {
        Ok(Poll::Ready(Some(Ok(frame)))) => is_frame(rt, frame, want),
        Ok(Poll::Ready(Some(Err(fault)))) => shows(rt, &fault, word),
        Ok(Poll::Ready(None)) => assert_eq!(rt; word, "end"),
        Ok(Poll::Pending) => assert_eq!(rt; word, "pending"),
        Err(_) => panic!(rt; "no memory"),
    }
}

/// Asserts what a body says at these times, one after another.
pub fn says_these<B, E>(
    rt: &(impl Abort + AllocGlobal),
    body: &mut B,
    polls: &[(u64, Result<&[u8], &str>)],
)
where
    B: Body<Log, Data = Bytes, Error = E>,
    E: Display + Drop,
    requires { B.may body.old }
    ensures { B.may body.new }
{
    for &(now, want) in polls {
        says(rt, body, now, want);
    }
}

/// Asserts whether a body tells its end, and at most how many bytes it says are left.
pub fn is_left<B: Body<Log>>(rt: &impl Abort, body: &B, ended: bool, most: Option<u64>) {
    assert_eq!(rt; body.is_end_stream(), ended);
    assert_eq!(rt; body.size_hint().upper(), most);
}

/// Asserts that an answer is a response with this status and no headers, and what its body says at these times.
/// Then it tells its end or not, says that at most so many bytes are left, and is abandoned at a time.
pub fn is_response<B, X, E, D>(
    rt: &(impl Abort + AllocGlobal),
    answer: Result<Response<B, X>, E>,
    status: u16,
    polls: &[(u64, Result<&[u8], &str>)],
    left: (bool, Option<u64>),
    now: u64,
    log: &mut Log,
)
where
    B: Body<Log, Data = Bytes, Error = D>,
    D: Display + Drop,
    X: Drop,
    E: Drop,
    requires { IfOk answer (λ response. B.may response.body) }
{
    let Ok(response) = answer else {
        panic!(rt; "an error");
    };
    let (head, mut body) = response.into_parts();
    is_bare(rt, head, status);
    says_these(rt, &mut body, polls);
    is_left(rt, &body, left.0, left.1);
    abandon(rt, body, now, log);
}

/// Adds these values under a name, after those that it has.
pub fn fill(
    rt: &(impl Abort + AllocGlobal),
    headers: &mut HeaderMap,
    name: &str,
    values: &[&[u8]],
) {
    for value in values {
        add(rt, headers, name, value);
    }
}

/// Adds a value under a name.
fn add(rt: &(impl Abort + AllocGlobal), headers: &mut HeaderMap, name: &str, value: &[u8]) {
    let Ok(name) = HeaderName::from_bytes(rt.alloc(), name.as_bytes()) else {
        panic!(rt; "no name");
    };
    let Ok(value) = HeaderValue::from_bytes(rt.alloc(), value) else {
        panic!(rt; "no value");
    };
    assert!(rt; headers.append(name, value).is_ok());
}

/// A request with this body and this extension, and with these values under a name.
pub fn request_with<X>(
    rt: &(impl Abort + AllocGlobal),
    body: ProbeBody,
    ext: X,
    name: &str,
    values: &[&[u8]],
) -> Request<ProbeBody, X> {
    let mut request = Request::new(rt.alloc(), body, ext);
    fill(rt, request.headers_mut(), name, values);
    request
}

/// Asserts the bytes of a value.
pub fn value_is(rt: &impl Abort, value: &HeaderValue, want: &str) {
    assert_eq!(rt; value.as_bytes(), want.as_bytes());
}

/// Asserts the first value under a name.
pub fn first_is(rt: &impl Abort, headers: &HeaderMap, name: &str, want: &str) {
    match headers.get(name) {
        Some(value) => value_is(rt, value, want),
        None => panic!(rt; "no header {name}"),
    }
}

/// The value that there is memory for.
pub fn made<T>(rt: &impl Abort, got: Got<T>) -> T {
    match got {
        Ok(value) => value,
        Err(_) => panic!(rt; "no memory"),
    }
}

/// A twin of a value.
pub fn twin_of<T: Twin>(rt: &(impl Abort + AllocGlobal), value: &T) -> T {
    made(rt, value.twin(rt.alloc()))
}

/// The service of a layer round an inner one.
pub fn round<S: Drop, L: Layer<S>>(
    rt: &(impl Abort + AllocGlobal),
    layer: &L,
    inner: S,
) -> L::Service {
    made(rt, layer.layer(rt.alloc(), inner))
}

/// Asserts that a head is that of a plain text with this status.
fn is_plain_text<X: Drop>(rt: &impl Abort, head: ResponseHead<X>, status: u16) {
    assert_eq!(rt; head.status().as_u16(), status);
    assert_eq!(rt; head.parts.headers.len(), 1);
    first_is(
        rt,
        &head.parts.headers,
        "content-type",
        "text/plain; charset=utf-8",
    );
}

/// Asserts that a body says that exactly so many bytes are left.
fn is_exactly<B: Body<Log>>(rt: &impl Abort, body: &B, bytes: usize) {
    assert_eq!(rt; body.size_hint().exact(), Some(bytes as u64));
}

/// Asserts that an answer is a response with this status that is this plain text. Its body is abandoned.
pub fn is_text<B, X, E, D>(
    rt: &(impl Abort + AllocGlobal),
    answer: Result<Response<B, X>, E>,
    status: u16,
    text: &str,
)
where
    B: Body<Log, Data = Bytes, Error = D>,
    D: Display + Drop,
    X: Drop,
    E: Drop,
    requires { IfOk answer (λ response. B.may response.body) }
{
    let Ok(response) = answer else {
        panic!(rt; "an error");
    };
    let (head, mut body) = response.into_parts();
    is_plain_text(rt, head, status);
    is_exactly(rt, &body, text.len());
    assert!(rt; !body.is_end_stream());
    says(rt, &mut body, 0, Ok(text.as_bytes()));
    is_left(rt, &body, true, Some(0));
    says(rt, &mut body, 0, Err("end"));
    abandon(rt, body, 0, &mut Log::new(rt.alloc()));
}

/// Asserts that a service of the tests answers the error 4 where it is asked whether it is ready.
pub fn is_never_ready<R, S>(rt: &(impl Abort + AllocGlobal), service: &mut S)
where
    R: Sound<Log>,
    S: Service<R, Log, Error = Fault<u8>>,
{
    match readiness(rt.alloc(), service, &mut Log::new(rt.alloc())) {
        Poll::Ready(Err(Fault::Err(error))) => assert_eq!(rt; error, 4),
        _ => panic!(rt; "another answer"),
    }
}

/// Asserts how often a service of the tests was called.
pub fn is_called(rt: &impl Abort, service: &Probe, times: u64) {
    assert_eq!(rt; service.calls, times);
}

/// Asserts the text of an event.
fn event_is(rt: &(impl Abort + AllocGlobal), event: Option<&Event>, want: &str) {
    let Some(event) = event else {
        panic!(rt; "no event");
    };
    match event_text(rt.alloc(), event) {
        Ok(text) => assert_eq!(rt; text.as_slice(), want.as_bytes(), "{want}"),
        Err(_) => panic!(rt; "no memory for {want}"),
    }
}

/// Asserts the texts of all events that were recorded since this was last asked, in order.
pub fn records(rt: &(impl Abort + AllocGlobal), log: &mut Log, want: &[&str]) {
    let events = log.take();
    assert_eq!(rt; events.len(), want.len() as u64);
    for (i, text) in want.iter().enumerate() {
        event_is(rt, events.get(i as u64), text);
    }
}

/// Has the body of a response say these at their times, and abandons it at a time.
pub fn says_and_leaves<B, X, E, D>(
    rt: &(impl Abort + AllocGlobal),
    answer: Result<Response<B, X>, E>,
    polls: &[(u64, Result<&[u8], &str>)],
    now: u64,
    log: &mut Log,
)
where
    B: Body<Log, Data = Bytes, Error = D>,
    D: Display + Drop,
    X: Drop,
    E: Drop,
    requires { IfOk answer (λ response. B.may response.body) }
{
    let Ok(response) = answer else {
        panic!(rt; "an error");
    };
    let (head, mut body) = response.into_parts();
    drop(head);
    for &(at, want) in polls {
        says_into(rt, &mut body, at, want, log);
    }
    abandon(rt, body, now, log);
}
