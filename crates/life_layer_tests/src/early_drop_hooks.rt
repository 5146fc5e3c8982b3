//! Closures that watch requests, the layer's builder, and early drops told as failures.
use crate::asserting::{
    answer_of, future_of, left_early, made, records, round, says_and_leaves, shows, twin_of,
};
use http::StatusCode;
use life_core::{
    DropKind, Event, Got, HookFn, Latency, LatencyUnit, Log, Recorder, Request, ResponseHead, Span,
    since,
};
use life_drop::on_early_drop::{
    BodyDropped, DroppedFailure, EarlyDropsAsFailures, FutureDropped, NoteDrop, OnBodyDropFn,
    OnEarlyDropLayer, OnEarlyDropService,
};
use life_probe::{Answers, Probe, ProbeBody, Says};
use life_trace::trace::DefaultOnFailure;
use std::alloc::Global;
use std::process::Abort;

/// A service whose futures answer with this status from this time on.
fn answering(status: u16, at: u64) -> Probe {
    Probe::from_time(Answers::Status(status), at)
}

/// Notes what was dropped at a time.
fn note(log: &mut Log, what: DropKind, now: u64) -> Got<()> {
    log.note(Event::Dropped {
        what,
        latency: Latency {
            unit: LatencyUnit::Nanos,
            nanos: now,
        },
    })
}

/// A request with this body.
fn request(rt: &impl AllocGlobal, body: ProbeBody) -> Request<ProbeBody, ()> {
    Request::new(rt.alloc(), body, ())
}

#[test]
fn a_closure_sees_the_drop_of_a_future(rt: HostRuntime) {
    let hook = HookFn::new(|_alloc: Global, _request: &Request<
        ProbeBody,
        (),
    >, _now: u64, _span: &Option<Span>| {
        Ok(HookFn::new(|_alloc: Global, now: u64, log: &mut Log| -> Got<()> {
            note(log, DropKind::Future, now)
        }))
    });
    let layer = OnEarlyDropLayer::builder().on_future_drop(hook);
    let mut service = round(&rt, &layer, answering(200, 500));
    let mut log = Log::new(rt.alloc());
    left_early(
        &rt,
        &mut service,
        request(&rt, ProbeBody::default()),
        (1, 2, 9),
        &mut log,
    );
    records(&rt, &mut log, &["dropped future latency 9 ns"]);
}

#[test]
fn a_chain_of_closures_sees_the_drop_of_a_body(rt: HostRuntime) {
    let chain = OnBodyDropFn::new(|_alloc: Global, _request: &Request<
        ProbeBody,
        (),
    >, called: u64, _span: &Option<Span>| {
        Ok(move |_alloc: Global, head: &ResponseHead<()>| {
            let status = head.status();
            Ok(HookFn::new(move |_alloc: Global, now: u64, log: &mut Log| -> Got<()> {
                note(log, DropKind::Body(status), since(called, now))
            }))
        })
    });
    let layer = OnEarlyDropLayer::builder().on_body_drop(chain);
    let mut service = round(&rt, &layer, answering(201, 2));
    let mut log = Log::new(rt.alloc());
    let body = ProbeBody::new(&[Says::Pending]);
    let future = future_of(&rt, &mut service, request(&rt, body), 1, &mut log);
    let answer = answer_of(&rt, future, 2, &mut log);
    says_and_leaves(&rt, answer, &[(3, Err("pending"))], 7, &mut log);
    records(&rt, &mut log, &["dropped body 201 latency 6 ns"]);
}

#[test]
fn a_chain_of_closures_sees_no_drop_of_a_body_that_ended(rt: HostRuntime) {
    let chain = OnBodyDropFn::new(|_alloc: Global, _request: &Request<
        ProbeBody,
        (),
    >, _called: u64, _span: &Option<Span>| {
        Ok(|_alloc: Global, head: &ResponseHead<()>| {
            let status = head.status();
            Ok(HookFn::new(move |_alloc: Global, now: u64, log: &mut Log| -> Got<()> {
                note(log, DropKind::Body(status), now)
            }))
        })
    });
    let inner = answering(201, 2);
    let mut service = OnEarlyDropService::new(inner, (), twin_of(&rt, &chain));
    let mut log = Log::new(rt.alloc());
    let future = future_of(
        &rt,
        &mut service,
        request(&rt, ProbeBody::new(&[])),
        1,
        &mut log,
    );
    let answer = answer_of(&rt, future, 2, &mut log);
    says_and_leaves(&rt, answer, &[(3, Err("end"))], 7, &mut log);
    records(&rt, &mut log, &[]);
}

/// A service of the layer that tells early drops as failures.
fn failing(
    rt: &(impl Abort + AllocGlobal),
    inner: Probe,
) -> OnEarlyDropService<
    Probe,
    EarlyDropsAsFailures<DefaultOnFailure>,
    EarlyDropsAsFailures<DefaultOnFailure>,
> {
    let on_failure = DefaultOnFailure::new().latency_unit(LatencyUnit::Nanos);
    let hook = EarlyDropsAsFailures::new(on_failure);
    let layer = made(rt, OnEarlyDropLayer::new(rt.alloc(), hook));
    round(rt, &twin_of(rt, &layer), inner)
}

#[test]
fn the_drop_of_a_future_is_a_failure(rt: HostRuntime) {
    let mut service = failing(&rt, answering(200, 500));
    let mut log = Log::new(rt.alloc());
    let request = request(&rt, ProbeBody::default());
    left_early(&rt, &mut service, request, (3, 4, 10), &mut log);
    let want = r#"failed ERROR "response future dropped before completion" latency 7 ns"#;
    records(&rt, &mut log, &[want]);
}

/// The text of the drop of a body whose response has status 500.
const BODY_DROPPED: &str =
    "response body dropped before end-of-stream (status: 500 Internal Server Error)";

#[test]
fn the_drop_of_a_body_is_a_failure(rt: HostRuntime) {
    let mut service = failing(&rt, answering(500, 5));
    let mut log = Log::new(rt.alloc());
    let body = ProbeBody::new(&[Says::Pending]);
    let future = future_of(&rt, &mut service, request(&rt, body), 3, &mut log);
    let answer = answer_of(&rt, future, 5, &mut log);
    says_and_leaves(&rt, answer, &[], 12, &mut log);
    let want =
        r#"failed ERROR "response body dropped before end-of-stream (status: 500 Internal Server Error)" latency 9 ns"#;
    records(&rt, &mut log, &[want]);
}

/// Asserts what a twin of an early drop shows.
fn drop_shows(rt: &(impl Abort + AllocGlobal), failure: DroppedFailure, want: &str) {
    shows(rt, &twin_of(rt, &failure), want);
}

#[test]
fn early_drops_shown(rt: HostRuntime) {
    let future = twin_of(&rt, &FutureDropped);
    let want = "response future dropped before completion";
    drop_shows(&rt, DroppedFailure::Future(future), want);
    let status = StatusCode::INTERNAL_SERVER_ERROR;
    let body = twin_of(&rt, &BodyDropped { status });
    drop_shows(&rt, DroppedFailure::Body(body), BODY_DROPPED);
}

#[test]
fn hooks_that_do_nothing(rt: HostRuntime) {
    let layer = OnEarlyDropLayer::builder();
    let mut service = round(&rt, &layer, answering(200, 500));
    let mut log = Log::new(rt.alloc());
    let request = request(&rt, ProbeBody::default());
    left_early(&rt, &mut service, request, (1, 2, 9), &mut log);
    records(&rt, &mut log, &[]);
}

#[test]
fn one_hook_in_both_places(rt: HostRuntime) {
    let layer = made(&rt, OnEarlyDropLayer::new(rt.alloc(), NoteDrop::new()));
    let mut service = round(&rt, &layer, answering(200, 500));
    let mut log = Log::new(rt.alloc());
    let request = request(&rt, ProbeBody::default());
    left_early(&rt, &mut service, request, (1, 2, 9), &mut log);
    records(&rt, &mut log, &["dropped future latency 8 ns"]);
}
