//! The limit on the bodies of requests.
ghost use Rattle.std.specs.Prelude.{⊤, IfOk};
ghost use Rattle.life_limit.specs.LimitBody.{LimitBodyMay};

use crate::asserting::{
    abandon, answer_of, future_of, is_called, is_left, is_never_ready, is_response, is_text,
    request_with, round, twin_of,
};
use life_core::{Fault, Limited, Log, Request, Response};
use life_limit::limit::{RequestBodyLimit, RequestBodyLimitLayer, ResponseBody};
use life_probe::{Answers, Probe, ProbeBody, Says};
use std::process::Abort;

/// What the body of a request says.
const CHUNKS: &[Says] = &[
    Says::Chunk(b"abc"),
    Says::Chunk(b"de"),
    Says::Chunk(b"f"),
    Says::Chunk(b""),
    Says::Chunk(b"g"),
];

/// The text of the fault of a chunk that is too long, and of a refusal.
const TOO_LONG: &str = "length limit exceeded";

/// The answer of a service round one of the tests.
type Answer = Result<Response<ResponseBody<Limited<ProbeBody>>, ()>, Fault<u8>>;

/// What a service answers to a request with these values of Content-Length.
fn answer(
    rt: &(impl Abort + AllocGlobal),
    service: &mut RequestBodyLimit<Probe>,
    values: &[&[u8]],
) -> Answer
    ensures { IfOk result (λ response. LimitBodyMay (λ _. ⊤) response.body) }
{
    let mut log = Log::new(rt.alloc());
    let request = request_with(rt, ProbeBody::new(CHUNKS), (), "content-length", values);
    let future = future_of(rt, service, request, 0, &mut log);
    answer_of(rt, future, 0, &mut log)
}

/// A service with this limit round one of the tests.
fn limited(limit: u64) -> RequestBodyLimit<Probe> {
    RequestBodyLimit::new(Probe::new(Answers::Respond), limit)
}

/// Asserts that a request with these lengths is refused, with no call of the inner service.
fn refuses(
    rt: &(impl Abort + AllocGlobal),
    mut service: RequestBodyLimit<Probe>,
    values: &[&[u8]],
) {
    is_text(rt, answer(rt, &mut service, values), 413, TOO_LONG);
    is_called(rt, service.get_ref(), 0);
}

/// Asserts that the inner service is called with a request with these lengths, and what the body says, and how
/// much room it has then.
fn passes(
    rt: &(impl Abort + AllocGlobal),
    mut service: RequestBodyLimit<Probe>,
    values: &[&[u8]],
    polls: &[(u64, Result<&[u8], &str>)],
    room: u64,
) {
    let answer = answer(rt, &mut service, values);
    let mut log = Log::new(rt.alloc());
    is_response(rt, answer, 200, polls, (false, Some(room)), 0, &mut log);
    is_called(rt, service.get_ref(), 1);
}

#[test]
fn lengths_within_limits(rt: HostRuntime) {
    let most = u64::MAX;
    let rows: [(&[&[u8]], u64, u64); 15] = [
        (&[], 5, 5),
        (&[b""], 5, 5),
        // a number after a plus, and none after it or after a minus
        (&[b"+"], 5, 5),
        (&[b"+5"], 5, 5),
        (&[b"-1"], 0, 0),
        (&[b"5"], 6, 5),
        (&[b"5"], 5, 5),
        (&[b"0"], 0, 0),
        (&[b"05"], 9, 5),
        (&[b"5 "], 4, 4),
        // the greatest number, and one more
        (&[b"18446744073709551615"], most, most),
        (&[b"18446744073709551616"], 4, 4),
        // two lengths, and what is no text
        (&[b"5", b"9"], 7, 5),
        (&[b"\xff"], 4, 4),
        (&[b"5\xff"], 4, 4),
    ];
    for (values, limit, room) in rows {
        passes(&rt, limited(limit), values, &[], room);
    }
}

#[test]
fn lengths_above_limits(rt: HostRuntime) {
    let rows: [(&[&[u8]], u64); 5] = [
        (&[b"+5"], 4),
        (&[b"5"], 4),
        (&[b"05"], 4),
        (&[b"18446744073709551615"], u64::MAX - 1),
        (&[b"9", b"5"], 7),
    ];
    for (values, limit) in rows {
        refuses(&rt, limited(limit), values);
    }
}

#[test]
fn whole_chunks_while_they_fit(rt: HostRuntime) {
    let polls: [(u64, Result<&[u8], &str>); 6] = [
        (0, Ok(b"abc")),
        (0, Ok(b"de")),
        (0, Err(TOO_LONG)),
        (0, Ok(b"")),
        (0, Err(TOO_LONG)),
        (0, Err("end")),
    ];
    passes(&rt, limited(9), &[b"+5"], &polls, 0);
}

#[test]
fn refusals(rt: HostRuntime) {
    refuses(&rt, limited(5), &[b"6"]);
}

#[test]
fn readiness(rt: HostRuntime) {
    let mut service = RequestBodyLimit::new(Probe::new(Answers::Fail), 5);
    is_never_ready::<Request<ProbeBody, ()>, _>(&rt, &mut service);
}

#[test]
fn default_bodies(rt: HostRuntime) {
    let body = ResponseBody::<ProbeBody>::default();
    is_left(&rt, &body, true, None);
    abandon(&rt, body, 0, &mut Log::new(rt.alloc()));
}

/// A service that was called so often.
fn called(calls: u64) -> Probe {
    Probe {
        answers: Answers::Respond,
        at: 0,
        panics: 0,
        calls,
    }
}

#[test]
fn inner_services(rt: HostRuntime) {
    let mut service = twin_of(&rt, &RequestBodyLimit::new(called(1), 5));
    service.get_mut().calls = 2;
    is_called(&rt, service.get_ref(), 2);
    is_called(&rt, &service.into_inner(), 2);
    let layer = twin_of(&rt, &RequestBodyLimit::<Probe>::layer(5));
    is_called(&rt, &round(&rt, &layer, called(3)).into_inner(), 3);
}

#[test]
fn limits_of_layers(rt: HostRuntime) {
    refuses(
        &rt,
        round(&rt, &RequestBodyLimitLayer::new(0), called(0)),
        &[b"1"],
    );
}
