//! Answers to panics.
ghost use Rattle.std.specs.Prelude.{⊤, IfOk};
ghost use Rattle.life_core.specs.UnsyncBoxBody.{BoxMay};
ghost use Rattle.life_limit.specs.Catch.{CatchMay};

use crate::asserting::{
    answer_of, future_of, is_called, is_response, is_text, left_early, round, twin_of,
};
use bytes::Bytes;
use http::StatusCode;
use life_core::{
    Event, Full, Got, HookFn, Level, Log, PanicText, Poll, Request, Response, Twin, UnsyncBoxBody,
};
use life_limit::catch_panic::{
    CatchPanic, CatchPanicLayer, DefaultResponseForPanic, ResponseForPanic,
};
use life_probe::{Answers, Probe, ProbeBody, readiness};
use std::alloc::Global;
use std::process::Abort;

/// The service with the default handler.
type Catching = CatchPanic<Probe, DefaultResponseForPanic>;

/// The answer of a service round one of the tests.
type Answer = Result<Response<UnsyncBoxBody<ProbeBody, Full>, ()>, u8>;

/// A service that answers so, and panics the first so many times that it is asked whether it is ready.
fn shaky(answers: Answers, panics: u64) -> Probe {
    Probe {
        answers,
        at: 0,
        panics,
        calls: 0,
    }
}

/// What a service answers to a request.
fn answer<T>(
    rt: &(impl Abort + AllocGlobal),
    service: &mut CatchPanic<Probe, T>,
    log: &mut Log,
) -> Answer
where
    T: ResponseForPanic<(), Log, ResponseBody = Full> + Twin,
    requires { CatchMay (λ _. ⊤) T.may service.old }
    ensures may { CatchMay (λ _. ⊤) T.may service.new }
    ensures body { IfOk result (λ response. BoxMay (λ _. ⊤) (λ _. ⊤) response.body) }
{
    let request = Request::new(rt.alloc(), ProbeBody::default(), ());
    let future = future_of(rt, service, request, 0, log);
    answer_of(rt, future, 0, log)
}

/// Asserts that this panic and nothing else was recorded.
fn is_recorded(rt: &impl Abort, log: &mut Log, text: &str) {
    let events = log.take();
    match events.as_slice() {
        [
            Event::Panic {
                level: Level::Error,
                text: PanicText::Known(said),
            },
        ] => assert_eq!(rt; said.as_str(), text),
        _ => panic!(rt; "other events"),
    }
}

/// Asserts that nothing was recorded.
fn is_quiet(rt: &impl Abort, log: &mut Log) {
    assert!(rt; log.take().is_empty());
}

/// Asserts that a service answers for a panic, and records that it said this.
fn tells(rt: &(impl Abort + AllocGlobal), service: &mut Catching, text: &str) {
    let mut log = Log::new(rt.alloc());
    is_text(rt, answer(rt, service, &mut log), 500, "Service panicked");
    is_recorded(rt, &mut log, text);
}

#[test]
fn responses_pass(rt: HostRuntime) {
    let mut log = Log::new(rt.alloc());
    let mut service = CatchPanic::new(shaky(Answers::Respond, 0));
    let answer = answer(&rt, &mut service, &mut log);
    is_response(
        &rt,
        answer,
        200,
        &[(0, Err("end"))],
        (true, None),
        0,
        &mut log,
    );
    is_quiet(&rt, &mut log);
}

/// Asserts that an answer is the error 3.
fn fails(rt: &impl Abort, answer: Answer) {
    match answer {
        Err(error) => assert_eq!(rt; error, 3),
        Ok(_response) => panic!(rt; "a response"),
    }
}

#[test]
fn errors_pass(rt: HostRuntime) {
    let mut log = Log::new(rt.alloc());
    let mut service = CatchPanic::new(shaky(Answers::Fail, 0));
    fails(&rt, answer(&rt, &mut service, &mut log));
    is_quiet(&rt, &mut log);
}

#[test]
fn waiting_passes(rt: HostRuntime) {
    let mut log = Log::new(rt.alloc());
    let mut service = CatchPanic::new(Probe::from_time(Answers::Respond, 1));
    let request = Request::new(rt.alloc(), ProbeBody::default(), ());
    left_early(&rt, &mut service, request, (0, 0, 0), &mut log);
    is_quiet(&rt, &mut log);
}

#[test]
fn panics_are_answered(rt: HostRuntime) {
    let mut service = CatchPanic::new(shaky(Answers::Panic, 0));
    tells(&rt, &mut service, "boom");
    tells(&rt, &mut service, "boom");
    is_called(&rt, service.get_ref(), 2);
}

/// Asserts what a service answers where it is asked whether it is ready, in a word.
fn readies(rt: &(impl Abort + AllocGlobal), service: &mut Catching, want: &str) {
    let mut log = Log::new(rt.alloc());
    let word = match readiness::<Request<ProbeBody, ()>, _>(rt.alloc(), service, &mut log) {
        Poll::Ready(Ok(())) => "ready",
        Poll::Ready(Err(4)) => "error",
        Poll::Ready(Err(_)) => "another error",
        Poll::Pending => "pending",
    };
    assert_eq!(rt; word, want);
}

#[test]
fn panics_of_readiness_are_kept(rt: HostRuntime) {
    let mut service = CatchPanic::new(shaky(Answers::Panic, 2));
    readies(&rt, &mut service, "ready");
    readies(&rt, &mut service, "ready");
    tells(&rt, &mut service, "not ready");
    is_called(&rt, service.get_ref(), 0);
    tells(&rt, &mut service, "boom");
    is_called(&rt, service.get_ref(), 1);
}

#[test]
fn readiness_passes(rt: HostRuntime) {
    readies(
        &rt,
        &mut CatchPanic::new(shaky(Answers::Respond, 0)),
        "ready",
    );
    readies(&rt, &mut CatchPanic::new(shaky(Answers::Fail, 0)), "error");
    readies(
        &rt,
        &mut CatchPanic::new(shaky(Answers::Wait, 0)),
        "pending",
    );
}

#[test]
fn handlers_of_closures(rt: HostRuntime) {
    let handler = HookFn::new(|alloc: Global, text: PanicText, _rec: &mut Log| -> Got<
        Response<Full, ()>,
    > {
        let said = match &text {
            PanicText::Known(_) => "known",
            PanicText::Unknown => "unknown",
        };
        let body = Full::new(Bytes::from_static(said.as_bytes()));
        let mut response = Response::new(alloc, body, ());
        response.head.parts.status = StatusCode::SERVICE_UNAVAILABLE;
        Ok(response)
    });
    let mut log = Log::new(rt.alloc());
    let mut service = CatchPanic::custom(shaky(Answers::Panic, 0), handler);
    let answer = answer(&rt, &mut service, &mut log);
    is_response(
        &rt,
        answer,
        503,
        &[(0, Ok(b"known"))],
        (true, Some(0)),
        0,
        &mut log,
    );
    is_quiet(&rt, &mut log);
}

/// Asserts how often an inner service panics yet.
fn is_shaky(rt: &impl Abort, inner: &Probe, panics: u64) {
    assert_eq!(rt; inner.panics, panics);
}

#[test]
fn inner_services(rt: HostRuntime) {
    let layer: CatchPanicLayer<DefaultResponseForPanic> = CatchPanicLayer::default();
    let service = round(&rt, &twin_of(&rt, &layer), shaky(Answers::Respond, 1));
    let mut service = twin_of(&rt, &service);
    service.get_mut().panics = 2;
    is_shaky(&rt, service.get_ref(), 2);
    readies(&rt, &mut service, "ready");
    tells(&rt, &mut twin_of(&rt, &service), "not ready");
    is_shaky(&rt, &service.into_inner(), 1);
}

#[test]
fn handlers_of_layers(rt: HostRuntime) {
    let layer = CatchPanicLayer::custom(DefaultResponseForPanic::default());
    let service = round(&rt, &layer, shaky(Answers::Wait, 3));
    is_shaky(&rt, &service.into_inner(), 3);
}
