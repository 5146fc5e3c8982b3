//! Timeouts of responses, and deadlines of their bodies.
use crate::asserting::{abandon, answered_late, is_left, is_response, says_these};
use http::StatusCode;
use life_core::{Log, Request};
use life_probe::{Answers, Probe, ProbeBody, Says};
use life_time::timeout::{DeadlineBody, ResponseBodyDeadline, Timeout};
use std::process::Abort;

/// What a body says that waits.
const WAITING: &[Says] = &[Says::Pending, Says::Pending, Says::Pending, Says::Pending];

/// What a body says that gives chunks.
const CHUNKS: &[Says] = &[
    Says::Chunk(b"abc"),
    Says::Chunk(b"abc"),
    Says::Chunk(b"abc"),
    Says::Chunk(b"abc"),
];

/// What a body says that faults.
const FAULTS: &[Says] = &[Says::Fault, Says::Fault];

/// The text of the fault of a deadline that is over.
const ELAPSED: &str = "data was not received within the designated timeout";

/// Asserts what a body says that has 20 nanoseconds from 100 on.
fn says_in_time(
    rt: &(impl Abort + AllocGlobal),
    list: &'static [Says],
    polls: &[(u64, Result<&[u8], &str>)],
) {
    let mut body = DeadlineBody::new(20, ProbeBody::new(list), 100);
    says_these(rt, &mut body, polls);
    is_left(rt, &body, false, None);
    abandon(rt, body, 130, &mut Log::new(rt.alloc()));
}

#[test]
fn bodies_under_a_deadline(rt: HostRuntime) {
    let waiting: [(u64, Result<&[u8], &str>); 4] = [
        (90, Err("pending")),
        (119, Err("pending")),
        (120, Err(ELAPSED)),
        (121, Err(ELAPSED)),
    ];
    let chunks: [(u64, Result<&[u8], &str>); 3] = [
        (100, Ok(b"abc")),
        (119, Ok(b"abc")),
        (120, Err(ELAPSED)),
    ];
    says_in_time(&rt, WAITING, &waiting);
    says_in_time(&rt, CHUNKS, &chunks);
    says_in_time(&rt, FAULTS, &[(119, Err("3"))]);
    says_in_time(&rt, &[], &[(119, Err("end"))]);
}

/// Asserts that a future of the service, called at 100, waits at one time and answers so at another.
fn times(
    rt: &(impl Abort + AllocGlobal),
    mut service: Timeout<Probe>,
    waits_at: u64,
    answers_at: u64,
    want: (u16, bool),
) {
    let request = Request::new(rt.alloc(), ProbeBody::new(WAITING), ());
    let answer = answered_late(rt, &mut service, request, (100, waits_at, answers_at));
    let mut log = Log::new(rt.alloc());
    is_response(
        rt,
        answer,
        want.0,
        &[],
        (want.1, None),
        answers_at,
        &mut log,
    );
}

/// The service that answers from this time on, under a timeout of 10 nanoseconds, with a status that is given
/// or without.
fn timed(at: u64, given: bool) -> Timeout<Probe> {
    let inner = Probe::from_time(Answers::Respond, at);
    if given {
        return Timeout::with_status_code(inner, StatusCode::GATEWAY_TIMEOUT, 10);
    }
    Timeout::new(inner, 10)
}

#[test]
fn timeouts(rt: HostRuntime) {
    let rows = [
        // in time
        (false, 109, 108, 109, (200, false)),
        (true, 109, 108, 109, (200, false)),
        // too late
        (false, 500, 109, 110, (408, true)),
        (true, 500, 109, 110, (504, true)),
        // both at once
        (false, 110, 90, 110, (408, true)),
    ];
    for (given, at, waits_at, answers_at, want) in rows {
        times(&rt, timed(at, given), waits_at, answers_at, want);
    }
}

#[test]
fn deadlines_start_at_the_response(rt: HostRuntime) {
    let inner = Probe::from_time(Answers::Respond, 105);
    let mut service = ResponseBodyDeadline::new(inner, 20);
    let request = Request::new(rt.alloc(), ProbeBody::new(WAITING), ());
    let answer = answered_late(&rt, &mut service, request, (100, 104, 106));
    let polls: [(u64, Result<&[u8], &str>); 3] = [
        (125, Err("pending")),
        (126, Err(ELAPSED)),
        (127, Err(ELAPSED)),
    ];
    let mut log = Log::new(rt.alloc());
    is_response(&rt, answer, 200, &polls, (false, None), 127, &mut log);
}

/// Asserts that an inner service answers from this time on.
fn is_from(rt: &impl Abort, inner: &Probe, at: u64) {
    assert_eq!(rt; inner.at, at);
}

#[test]
fn inner_services(rt: HostRuntime) {
    let mut timeout = timed(1, false);
    timeout.get_mut().at = 2;
    is_from(&rt, timeout.get_ref(), 2);
    is_from(&rt, &timeout.into_inner(), 2);
    let inner = Probe::from_time(Answers::Respond, 3);
    let mut deadline = ResponseBodyDeadline::new(inner, 10);
    deadline.get_mut().at = 4;
    is_from(&rt, deadline.get_ref(), 4);
    is_from(&rt, &deadline.into_inner(), 4);
}
