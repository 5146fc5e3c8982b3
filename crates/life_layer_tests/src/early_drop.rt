//! What is recorded where a request is dropped early, and where it is not.
use crate::asserting::{answer_of, future_of, is_response, left_early};
use life_core::{DropKind, Event, Events, Log, Request};
use life_drop::on_early_drop::{
    NoteDrop, NoteDropped, OnEarlyDropGuard, OnEarlyDropService, OnFutureDrop,
};
use life_probe::{Answers, Probe, ProbeBody, Says};
use std::process::Abort;

/// The status of a body that was dropped, or 0 for a future.
fn status_of(what: &DropKind) -> u16 {
    match what {
        DropKind::Future => 0,
        DropKind::Body(status) => status.as_u16(),
    }
}

/// The one drop that was recorded, if any: the status, or 0 for a future, and the latency.
fn noted(events: &Events) -> Option<(u16, u64)> {
    match events.get(0) {
        Some(Event::Dropped { what, latency }) => Some((status_of(what), latency.nanos)),
        Some(_) | None => None,
    }
}

/// Asserts that this drop and nothing else was recorded, or nothing.
fn is_noted(rt: &impl Abort, log: &mut Log, want: Option<(u16, u64)>) {
    let events = log.take();
    assert_eq!(rt; events.is_empty(), want.is_none());
    assert!(rt; events.len() <= 1);
    assert_eq!(rt; noted(&events), want);
}

/// Asserts what is noted where a guard of a future, called at 100, is abandoned at 105.
fn fires(rt: &(impl Abort + AllocGlobal), callback: NoteDropped, completes: bool) {
    let mut guard = OnEarlyDropGuard::new(callback);
    if completes {
        guard.completed();
    }
    let mut log = Log::new(rt.alloc());
    let left = guard.abandon(rt.alloc(), 105, &mut log);
    assert!(rt; left.is_ok());
    is_noted(rt, &mut log, if completes { None } else { Some((0, 5)) });
}

/// What watches the future of a request that is called at 100.
fn watcher(rt: &(impl Abort + AllocGlobal)) -> NoteDropped {
    let request = Request::new(rt.alloc(), ProbeBody::default(), ());
    let mut hook = NoteDrop::new();
    let made = OnFutureDrop::<ProbeBody, (), Log>::make(
        &mut hook,
        rt.alloc(),
        &request,
        100,
        &None,
    );
    let (head, _body) = request.into_parts();
    drop(head);
    match made {
        Ok(callback) => callback,
        Err(_) => panic!(rt; "no memory"),
    }
}

#[test]
fn guards(rt: HostRuntime) {
    fires(&rt, watcher(&rt), false);
    fires(&rt, watcher(&rt), true);
}

/// A service that answers at this time, with a hook in both slots.
fn watched(at: u64) -> OnEarlyDropService<Probe, NoteDrop, NoteDrop> {
    let inner = Probe::from_time(Answers::Respond, at);
    OnEarlyDropService::new(inner, NoteDrop::new(), NoteDrop::new())
}

#[test]
fn a_future_that_waits_is_noted(rt: HostRuntime) {
    let mut log = Log::new(rt.alloc());
    let request = Request::new(rt.alloc(), ProbeBody::default(), ());
    left_early(&rt, &mut watched(500), request, (100, 103, 107), &mut log);
    is_noted(&rt, &mut log, Some((0, 7)));
}

/// Asserts that the body of a response, whose request is called at 100, says this at 104, whether it tells its
/// end then, and what was noted once it is abandoned at 106.
fn notes(
    rt: &(impl Abort + AllocGlobal),
    body: ProbeBody,
    said: Result<&[u8], &str>,
    ended: bool,
    want: Option<(u16, u64)>,
) {
    let mut log = Log::new(rt.alloc());
    let request = Request::new(rt.alloc(), body, ());
    let future = future_of(rt, &mut watched(103), request, 100, &mut log);
    let answer = answer_of(rt, future, 103, &mut log);
    is_response(
        rt,
        answer,
        200,
        &[(104, said)],
        (ended, None),
        106,
        &mut log,
    );
    is_noted(rt, &mut log, want);
}

/// What a body says that gives one chunk.
const ONE: &[Says] = &[Says::Chunk(b"abc")];

/// What a body says that gives two chunks.
const TWO: &[Says] = &[Says::Chunk(b"abc"), Says::Chunk(b"de")];

#[test]
fn bodies_are_noted_before_their_end(rt: HostRuntime) {
    let early = Some((200, 6));
    // a frame is left, the last frame told the end, and did not tell it
    notes(&rt, ProbeBody::telling(TWO), Ok(b"abc"), false, early);
    notes(&rt, ProbeBody::telling(ONE), Ok(b"abc"), true, None);
    notes(&rt, ProbeBody::new(ONE), Ok(b"abc"), false, early);
    // at its end from the start, and it answered its end
    notes(&rt, ProbeBody::telling(&[]), Err("end"), true, None);
    notes(&rt, ProbeBody::new(&[]), Err("end"), false, None);
}

/// Asserts that an inner service answers from this time on.
fn is_from(rt: &impl Abort, inner: &Probe, at: u64) {
    assert_eq!(rt; inner.at, at);
}

#[test]
fn inner_services(rt: HostRuntime) {
    let mut service = watched(1);
    service.get_mut().at = 2;
    is_from(&rt, service.get_ref(), 2);
    is_from(&rt, &service.into_inner(), 2);
}
